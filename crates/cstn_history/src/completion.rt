// The completed label of a label of a labelled network.
ghost use Rattle.std.specs.Prelude.{◌≡◌};
ghost use Rattle.cstn_label.specs.Read.{marks};
ghost use Rattle.cstn_net.specs.Networks.{count};
ghost use Rattle.cstn_lift.specs.Completion.{IsLabelOfObserver, completed, joined_upto};
ghost use Rattle.cstn_lift.specs.Read.{the_labelled};

use cstn_label::{Label, Prop, within_is_an_order};
use cstn_lift::Labelled;

/// The completed label of a label: the labels of the observers of what it marks are joined in until nothing changes.
pub fn completed(network: &Labelled, label: Label) -> Label
    ensures completed { marks result ≡ completed (the_labelled network.now) (marks label) }
{
    within_is_an_order();
    let mut whole = label;
    for _round in 0..network.base().count() {
        let next = with_observers(network, whole);
        if next.is_within(whole) {
            return whole;
        }
        whole = next;
    }
    whole
}

// The label, joined once with the label of the observer of each proposition that it marks.
fn with_observers(network: &Labelled, label: Label) -> Label
    ensures joined { marks result ≡ joined_upto (the_labelled network.now) (count (the_labelled network.now).base) (marks label) }
{
    within_is_an_order();
    let _base = network.base();
    let mut joined = label;
    let mut from = 0;
    while let Some(p) = label.first_marked_from(from) {
        joined = joined.join(observer_label(network, p));
        from = p.index + 1;
    }
    joined
}

// The label of the observer of a proposition; the empty label where nothing observes it.
fn observer_label(network: &Labelled, p: Prop) -> Label
    ensures label { IsLabelOfObserver (the_labelled network.now) p.index (marks result) }
{
    match network.base().observer(p) {
        Some(x) => network.label(x),
        None => Label::empty(),
    }
}
