// The labels of observers, joined into a label.
ghost use Rattle.std.specs.Prelude.{◌≡◌, length, IfOk};
ghost use Rattle.cstn_label.specs.Read.{marks};
ghost use Rattle.cstn_net.specs.Networks.{IsWellFormed, count};
ghost use Rattle.cstn_net.specs.Read.{the_network};
ghost use Rattle.cstn_lift.specs.Completion.{completed, joined_upto, IsLabelOfObserver};
ghost use Rattle.cstn_lift.specs.Read.{with_labels, AreCompleted};

use cstn_label::{Label, Prop, within_is_an_order};
use cstn_net::Network;
use std::alloc::{AllocError, Global};

/// The completed label of each time-point.
pub fn completed_labels(
    alloc: Global,
    net: &Network,
    labels: &[Label],
) -> Result<Vec<Label>, AllocError>
    requires one_each { length labels.now ≡ count (the_network net.now) }
    ensures completed { IfOk result (λ v. AreCompleted (with_labels net.now labels.now) v.items) }
{
    let mut whole = Vec::with_capacity(alloc, labels.len())?;
    for label in labels {
        whole.push_reserved(completed(net, labels, *label));
    }
    Ok(whole)
}

/// The completed label of a label: the labels of the observers of what it marks are joined in until nothing changes.
pub fn completed(net: &Network, labels: &[Label], label: Label) -> Label
    requires one_each { length labels.now ≡ count (the_network net.now) }
    ensures completed { marks result ≡ completed (with_labels net.now labels.now) (marks label) }
{
    let mut whole = label;
    for _round in 0..net.count() {
        let next = with_observers(net, labels, whole);
        if next == whole {
            return whole;
        }
        whole = next;
    }
    whole
}

// The label, joined once with the label of the observer of each proposition that it marks.
fn with_observers(net: &Network, labels: &[Label], label: Label) -> Label
    requires one_each { length labels.now ≡ count (the_network net.now) }
    requires well_formed { IsWellFormed (the_network net.now) }
    ensures joined { marks result ≡ joined_upto (with_labels net.now labels.now) (count (the_network net.now)) (marks label) }
{
    within_is_an_order();
    let mut joined = label;
    let mut from = 0;
    while let Some(p) = label.first_marked_from(from) {
        joined = joined.join(observer_label(net, labels, p));
        from = p.index + 1;
    }
    joined
}

// The label of the observer of a proposition; the empty label where nothing observes it.
fn observer_label(net: &Network, labels: &[Label], p: Prop) -> Label
    requires one_each { length labels.now ≡ count (the_network net.now) }
    ensures label { IsLabelOfObserver (with_labels net.now labels.now) p.index (marks result) }
{
    match net.observer(p) {
        Some(x) => labels[x.index()],
        None => Label::empty(),
    }
}
