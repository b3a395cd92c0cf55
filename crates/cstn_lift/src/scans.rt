// The first time-point at which something is wrong.
ghost use Rattle.std.specs.Prelude.{ℕ, ◌≡◌, ◌<◌, ◌↔◌, length, map, IsTrue, MatchOption};
ghost use Rattle.std.specs.Option.{option_map};
ghost use Rattle.cstn_label.specs.Labels.{empty};
ghost use Rattle.cstn_label.specs.Read.{marks};
ghost use Rattle.cstn_net.specs.Networks.{IsWellFormed, count};
ghost use Rattle.cstn_net.specs.Read.{the_network};
ghost use Rattle.cstn_lift.specs.Completion.{is_observed_by};
ghost use Rattle.cstn_lift.specs.Faults.{ArePlain, IsFirstUnplain, AreOnObserved, IsFirstUnobserved, AreInNoCircle, IsFirstInCircle};

use cstn_label::{Label, Mark, NodeId, Prop, labels_are_their_marks};
use cstn_net::Network;

/// The first time-point with a label that isn't plain.
pub fn first_not_plain(net: &Network, labels: &[Label]) -> Option<NodeId>
    requires one_each { length labels.now ≡ count (the_network net.now) }
    ensures first { MatchOption result (ArePlain (the_network net.now) (map marks labels.now))
        (λ x. IsFirstUnplain (the_network net.now) (map marks labels.now) x.0) }
    ensures well_formed { IsWellFormed (the_network net.now) }
{
    for x in 0..net.count() {
        let node = NodeId(x);
        if !labels[node.index()].is_plain() {
            return Some(node);
        }
    }
    None
}

/// The first time-point whose label names a proposition that nothing observes, and the least such proposition.
pub fn first_unobserved(net: &Network, labels: &[Label]) -> Option<(NodeId, Prop)>
    requires one_each { length labels.now ≡ count (the_network net.now) }
    ensures first { MatchOption result (AreOnObserved (the_network net.now) (map marks labels.now))
        (λ f. IsFirstUnobserved (the_network net.now) (map marks labels.now) f.0.0 f.1.index) }
{
    for x in 0..net.count() {
        let node = NodeId(x);
        if let Some(prop) = net.unobserved(labels[node.index()]) {
            return Some((node, prop));
        }
    }
    None
}

/// The first time-point that observes what its label marks.
pub fn first_in_circle(net: &Network, labels: &[Label]) -> Option<NodeId>
    requires one_each { length labels.now ≡ count (the_network net.now) }
    ensures first { MatchOption result (AreInNoCircle (the_network net.now) (map marks labels.now))
        (λ x. IsFirstInCircle (the_network net.now) (map marks labels.now) x.0) }
{
    for x in 0..net.count() {
        let node = NodeId(x);
        if is_observed_by(net.observes(node), labels[node.index()]) {
            return Some(node);
        }
    }
    None
}

// Whether the label marks the proposition that is observed, if there is one.
fn is_observed_by(p: Option<Prop>, label: Label) -> bool
    ensures { result ≡ is_observed_by (option_map (λ p. p.index) p) (marks label) }
{
    match p {
        Some(p) => label.mark(p) != Mark::Absent,
        None => false,
    }
}

// Whether the label has no mark.
pub fn is_empty(label: Label) -> bool
    ensures { IsTrue result ↔ (marks label ≡ empty) }
{
    labels_are_their_marks();
    label == Label::empty()
}
