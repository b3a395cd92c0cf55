ghost use Rattle.std.specs.Prelude.{◌≡◌, length, IfOk};

use crate::bottling::{SOUR, point};
use cstn_label::{Label, Mark, NodeId};
use cstn_lift::{Labelled, lift};
use cstn_net::Builder;
use cstn_text::{NameKey, Names};
use std::alloc::{AllocError, Global};

/// The time-points of `heating` after the origin, in the order in which it adds them. Here the sample is taken.
pub const SAMPLE: NodeId = NodeId(1);

/// Heating begins.
pub const HEAT: NodeId = NodeId(2);

/// The batch is filled.
pub const FILL: NodeId = NodeId(3);

/// The network of bottling a batch that is heated before where its sample is sour, in minutes from its start, and the names
/// of its time-points.
pub fn heating(alloc: Global) -> anyhow::Result<(Labelled, Names)> {
    let mut net = Builder::new(alloc, 60);
    let mut names = Names::new(alloc, NameKey::new(b"heating"));
    let start = point(&mut net, &mut names, "Z", None)?;
    let sample = point(&mut net, &mut names, "Sample", Some(SOUR))?;
    let heat = point(&mut net, &mut names, "Heat", None)?;
    let fill = point(&mut net, &mut names, "Fill", None)?;
    let always = Label::empty();
    // The sample is taken within 5 minutes.
    net.constrain(start, sample, 5, always)?;
    // The batch is filled 15 to 40 minutes after the sample, and not within 20 minutes of heating.
    net.constrain(fill, sample, -15, always)?;
    net.constrain(sample, fill, 40, always)?;
    net.constrain(fill, heat, -20, always)?;
    // Whether the sample is sour is known 10 minutes after it was taken.
    net.react(sample, 10);
    let net = net.close()?;
    // Only a sour batch is heated.
    let labels = one_label(alloc, net.count(), heat, always.with(SOUR, Mark::Yes))?;
    Ok((lift(alloc, net, labels)?, names))
}

// As many labels as there are time-points: this one for a single time-point, and empty ones for the others.
fn one_label(alloc: Global, count: u16, node: u32, label: Label) -> Result<Vec<Label>, AllocError>
    ensures one_each { IfOk result (λ labels. length labels.items ≡ count) }
{
    let mut labels = Vec::new(alloc);
    for x in 0..count {
        labels.push(label_at(x, node, label))?;
    }
    Ok(labels)
}

// The label of a time-point, where this one is that of a single time-point.
fn label_at(x: u16, node: u32, label: Label) -> Label {
    if u32::from(x) == node {
        return label;
    }
    Label::empty()
}
