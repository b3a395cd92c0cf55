ghost use Rattle.std.specs.Prelude.{◌≡◌, ◌+◌, ◌<◌, length, IfOk, OnOk};
ghost use Rattle.cstn_net.specs.Limits.{most_time_points};

use cstn_label::{Label, Mark, Prop};
use cstn_net::{Builder, Network};
use cstn_text::{NameKey, Names};
use std::alloc::Global;

/// The sample is sour: s.
pub const SOUR: Prop = Prop { index: 44 };

/// The network of bottling a batch, in minutes from its start, and the names of its time-points.
pub fn bottling(alloc: Global) -> anyhow::Result<(Network, Names)> {
    let mut net = Builder::new(alloc, 60);
    let mut names = Names::new(alloc, NameKey::new(b"bottling"));
    let start = point(&mut net, &mut names, "Z", None)?;
    let sample = point(&mut net, &mut names, "Sample", Some(SOUR))?;
    let fill = point(&mut net, &mut names, "Fill", None)?;
    let seal = point(&mut net, &mut names, "Seal", None)?;
    let always = Label::empty();
    let sour = always.with(SOUR, Mark::Yes);
    let sweet = always.with(SOUR, Mark::No);
    // The sample is taken within 5 minutes.
    net.constrain(start, sample, 5, always)?;
    // A sour batch is filled 30 minutes after the sample or later, a sweet one within 15.
    net.constrain(fill, sample, -30, sour)?;
    net.constrain(sample, fill, 15, sweet)?;
    // It is sealed 5 to 8 minutes after it was filled.
    net.constrain(seal, fill, -5, always)?;
    net.constrain(fill, seal, 8, always)?;
    // Whether the sample is sour is known 10 minutes after it was taken.
    net.react(sample, 10);
    Ok((net.close()?, names))
}

/// Adds a time-point and its name, and answers its number.
pub fn point(
    net: &mut Builder,
    names: &mut Names,
    name: &str,
    observes: Option<Prop>,
) -> anyhow::Result<u32>
    requires few { length names.old < most_time_points }
    requires one_each { length net.old.points ≡ length names.old }
    ensures number { IfOk result (λ x. x ≡ length names.old) }
    ensures more { OnOk result (length names.new ≡ length names.old + 1) }
    ensures one_each { OnOk result (length net.new.points ≡ length names.new) }
    ensures drafts { net.new.drafts ≡ net.old.drafts }
{
    names.push(name)?;
    Ok(net.node(observes)?)
}
