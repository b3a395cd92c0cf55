// The least deadline by which what has happened can go on, by the bounds of a plan of what is left.
ghost use Rattle.std.specs.Prelude.{◌≡◌, ◌<◌, ◌≤◌, ◌++◌, ◌∷◌, [], max, map, length, slice_index_or, None, if◌then◌else◌, IfOk};
ghost use Rattle.std.specs.Option.{option_map, is_some};
ghost use Rattle.cstn_label.specs.Labels.{joined};
ghost use Rattle.cstn_label.specs.Marks.{is_plain};
ghost use Rattle.cstn_label.specs.Read.{marks};
ghost use Rattle.cstn_net.specs.Limits.{most_time_points};
ghost use Rattle.cstn_net.specs.Networks.{count};
ghost use Rattle.cstn_plan.specs.Asked.{greatest, moment_of};
ghost use Rattle.cstn_plan.specs.Plans.{the_bounds};
ghost use Rattle.cstn_lift.specs.Read.{the_labelled};
ghost use Rattle.cstn_history.specs.Read.{the_history, IsKeptFor};
ghost use Rattle.cstn_history.specs.Histories.{allows};
ghost use Rattle.cstn_history.specs.Rest.{is_left, sight_left};
ghost use Rattle.cstn_follow.specs.LeastDeadline.{label_coming, labels_coming, goes_with, last_done, deadline_by};

use cstn_history::{History, completed};
use cstn_label::{Bound, Label, NodeId, labels_are_their_marks};
use cstn_lift::Labelled;
use cstn_plan::SoundPlan;
use std::alloc::{AllocError, Global};

/// The deadline, in ticks, that is enough by the bounds of a plan of what is left. Takes one pass over them. Fails for want of memory
/// alone.
pub(crate) fn deadline_by(
    alloc: Global,
    network: &Labelled,
    history: &History,
    plan: &SoundPlan,
) -> Result<u32, AllocError>
    requires kept { IsKeptFor (the_labelled network.now) history.now }
    ensures { IfOk result (λ n. n ≡ deadline_by (the_labelled network.now) (the_history history.now) (the_bounds plan.now.bounds)) }
{
    let labels = labels_coming(alloc, network, history)?;
    let last = last_done(network, history);
    Ok(last.max(last_coming(plan, &labels)))
}

// The last moment at which something was done.
fn last_done(network: &Labelled, history: &History) -> u32
    requires kept { IsKeptFor (the_labelled network.now) history.now }
    ensures { result ≡ last_done (the_history history.now) (count (the_labelled network.now).base) }
{
    let mut last = 0;
    for x in 0..network.base().count() {
        let moment = history.done(NodeId(x)).unwrap_or(0);
        last = last.max(moment);
    }
    last
}

// The completed labels of the time-points that are left, in their order; none of one that is done.
fn labels_coming(
    alloc: Global,
    network: &Labelled,
    history: &History,
) -> Result<Vec<Option<Label>>, AllocError>
    requires kept { IsKeptFor (the_labelled network.now) history.now }
    ensures { IfOk result (λ v. map (λ o. option_map marks o) v.items ≡ labels_coming (the_labelled network.now) (the_history history.now)) }
{
    let mut labels = Vec::new(alloc);
    for x in 0..network.base().count() {
        let is_kept = is_left(network, history, NodeId(x));
        push_label(
            &mut labels,
            label_coming(network, history, NodeId(x)),
            is_kept,
        )?;
    }
    Ok(labels)
}

// Whether a time-point is left.
fn is_left(network: &Labelled, history: &History, x: NodeId) -> bool
    requires inside { x.0 < count (the_labelled network.now).base }
    requires kept { IsKeptFor (the_labelled network.now) history.now }
    ensures { result ≡ is_left (the_labelled network.now) (the_history history.now) x.0 }
{
    if x.0 == 0 {
        return true;
    }
    if history.done(x).is_some() {
        is_untold(network, history, x)
    } else {
        history.allows(completed(network, network.label(x)))
    }
}

// Whether a time-point observes what isn't told.
fn is_untold(network: &Labelled, history: &History, x: NodeId) -> bool
    requires inside { x.0 < count (the_labelled network.now).base }
    ensures { result ≡ is_some (sight_left (the_labelled network.now) (the_history history.now) x.0) }
{
    let Some(p) = network.base().observes(x) else {
        return false;
    };
    history.told(p).is_none()
}

// Puts a label at the end where it is kept.
fn push_label(
    labels: &mut Vec<Option<Label>>,
    label: Option<Label>,
    is_kept: bool,
) -> Result<(), AllocError>
    ensures { IfOk result (λ _. labels.new.items ≡ labels.old.items ++ (if is_kept then label ∷ [] else [])) }
{
    if is_kept {
        labels.push(label)?;
    }
    Ok(())
}

// The completed label of a time-point, where it isn't done.
fn label_coming(network: &Labelled, history: &History, x: NodeId) -> Option<Label>
    requires inside { x.0 < count (the_labelled network.now).base }
    requires kept { IsKeptFor (the_labelled network.now) history.now }
    ensures { option_map marks result ≡ label_coming (the_labelled network.now) (the_history history.now) x.0 }
{
    if history.done(x).is_some() {
        None
    } else {
        Some(completed(network, network.label(x)))
    }
}

// The latest moment that a bound asks for at a time-point that isn't done, where it can hold with the label of that.
fn last_coming(plan: &SoundPlan, labels: &[Option<Label>]) -> u32
    ensures { result ≡ greatest (λ b. goes_with (slice_index_or (map (λ o. option_map marks o) labels.now) b.node None) b.label) (the_bounds plan.now.bounds) }
{
    plan.network();
    let mut last = 0;
    let mut k = plan.count();
    while k > 0 {
        k -= 1;
        last = later(last, plan.bound(k), labels);
    }
    last
}

// The later one of a moment and that of a bound, where this can hold with the label of its time-point.
fn later(last: u32, bound: Bound, labels: &[Option<Label>]) -> u32
    ensures { result ≡ (if goes_with (slice_index_or (map (λ o. option_map marks o) labels.now) bound.node.0 None) (marks bound.label)
        then max (moment_of bound.least) last else last) }
{
    if goes_with(label_at(labels, bound.node), bound.label) {
        moment_of(bound).max(last)
    } else {
        last
    }
}

fn label_at(labels: &[Option<Label>], x: NodeId) -> Option<Label>
    ensures { option_map marks result ≡ slice_index_or (map (λ o. option_map marks o) labels.now) x.0 None }
{
    match labels.get(x.index()) {
        Some(label) => *label,
        None => None,
    }
}

// Whether a label can hold where another does.
fn goes_with(other: Option<Label>, label: Label) -> bool
    ensures { result ≡ goes_with (option_map marks other) (marks label) }
{
    match other {
        Some(other) => is_plain(label.join(other)),
        None => false,
    }
}

fn is_plain(label: Label) -> bool
    ensures { result ≡ is_plain (marks label) }
{
    labels_are_their_marks();
    label.is_plain()
}

fn moment_of(bound: Bound) -> u32
    ensures { result ≡ moment_of bound.least }
{
    if bound.least > 0 {
        bound.least as u32
    } else {
        0
    }
}
