// The instances of the rules, one bound at a time.
ghost use Rattle.std.specs.Prelude.{ℕ, ◌≡◌, ◌<◌, ◌↔◌, ◌+◌, Some, false, length, slice_get, slice_index_or, IfSome, IfNone, IsTrue};
ghost use Rattle.std.specs.List.{Contains};
ghost use Rattle.cstn_label.specs.Bounds.{Bound as TheBound};
ghost use Rattle.cstn_label.specs.Read.{the_bound};
ghost use Rattle.cstn_net.specs.Networks.{IsWellFormed, Observes, count};
ghost use Rattle.cstn_net.specs.Links.{ends};
ghost use Rattle.cstn_net.specs.Read.{the_network, the_constraint};
ghost use Rattle.cstn_rules.specs.Rules.{IsBoundOf, IsChain, IsWait, base};
ghost use Rattle.cstn_rules.specs.Closed.{IsCovered};
ghost use Rattle.cstn_closed.specs.Closed.{the_listed_bounds};
ghost use Rattle.cstn_closed.specs.Faults.{IsFitBound, no_chain, no_wait};
ghost use Rattle.cstn_closed.specs.Instances.{AreFit, AreChainsCovered, AreWaitsCovered, IsChainCovered, IsWaitCovered, IsFirstThere, IsSoAt};
ghost use Rattle.cstn_closed.specs.Instances.{HasUncoveredChain, HasUncoveredWait};
ghost use Rattle.cstn_closed.specs.Places.{IsNextStanding};

use crate::index::Indexed;
use cstn_label::{Bound, Label, NodeId, Prop};
use cstn_net::{Constraint, Network, network_is_well_formed};
use cstn_rules::{Tries, chain, refutes, wait};

/// The base bound of a time-point.
pub(crate) fn base(x: NodeId) -> Bound
    ensures base { the_bound result ≡ base x.0 }
{
    Bound {
        node: x,
        least: 0,
        label: Label::empty(),
    }
}

/// Whether the bound is at a time-point of the network, in range, with marks on observed propositions alone, and doesn't
/// refute the network.
pub(crate) fn is_fit(net: &Network, b: &Bound) -> bool
    ensures fit { IsTrue result ↔ IsFitBound (the_network net.now) (the_bound b.now) }
{
    if b.node.0 >= net.count() {
        return false;
    }
    is_in_range(net, b) && net.unobserved(b.label).is_none() && !refutes(net, b)
}

// Whether the bound's least value is from 0 to the limit + 1.
fn is_in_range(net: &Network, b: &Bound) -> bool
    requires node { b.now.node.0 < count (the_network net.now) }
    ensures range { IsTrue result ↔ IsBoundOf (the_network net.now) (the_bound b.now) }
{
    0 <= b.least && b.least <= net.limit(b.node) + 1
}

/// The least id of a constraint from which, with the bound at the place `at`, chain derives a bound that isn't covered; none
/// where there is no such constraint.
pub(crate) fn uncovered_chain(net: &Network, closed: &Indexed, at: u32) -> Option<u32>
    requires fit { AreFit (the_network net.now) (the_listed_bounds closed.now) }
    requires place { at < length closed.now.bounds }
    ensures some { IfSome result (λ id. IsFirstThere (the_network net.now) (the_listed_bounds closed.now) (no_chain id at)) }
    ensures none { IfNone result (IsSoAt (AreChainsCovered (the_network net.now) (the_listed_bounds closed.now)) (the_listed_bounds closed.now) at) }
{
    network_is_well_formed(net);
    let b = closed.bound(at);
    let mut place = first_ending(net, b.node);
    while place < constraint_count(net) {
        let c = constraint_at(net, place);
        if !is_chain_covered(net, closed, c, &b) {
            return Some(c.id);
        }
        place = next_ending(net, place);
    }
    None
}

// Whether the list covers what chain derives from the constraint and the bound, if anything.
fn is_chain_covered(net: &Network, closed: &Indexed, c: &Constraint, b: &Bound) -> bool
    requires constraint { Contains net.now.constraints c.now }
    requires bound { IsBoundOf (the_network net.now) (the_bound b.now) }
    ensures covered { IsTrue result → IsChainCovered (the_network net.now) (the_listed_bounds closed.now) (the_constraint c.now) (the_bound b.now) }
    ensures uncovered { result ≡ false → HasUncoveredChain (the_network net.now) (the_listed_bounds closed.now) (the_constraint c.now) (the_bound b.now) }
{
    let mut tries = Tries { count: 0 };
    match chain(net, c, b, &mut tries) {
        None => true,
        Some(r) => closed.covers(&r),
    }
}

/// The first place of a bound from which, with the bound at the place `seen`, wait derives a bound that isn't covered; none
/// where there is no such place. Only the bounds that mark the proposition observed at the time-point of `seen` are looked at:
/// from the others wait derives nothing.
pub(crate) fn uncovered_wait(net: &Network, closed: &Indexed, seen: u32) -> Option<u32>
    requires fit { AreFit (the_network net.now) (the_listed_bounds closed.now) }
    requires place { seen < length closed.now.bounds }
    ensures some { IfSome result (λ at. IsFirstThere (the_network net.now) (the_listed_bounds closed.now) (no_wait seen at)) }
    ensures none { IfNone result (IsSoAt (AreWaitsCovered (the_network net.now) (the_listed_bounds closed.now)) (the_listed_bounds closed.now) seen) }
{
    let first = closed.bound(seen);
    let Some(p) = observed(net, &first) else {
        return None;
    };
    let mut hint = 0;
    for at in closed.marking(p) {
        if !is_wait_covered(net, closed, &first, &closed.bound(*at), &mut hint) {
            return Some(*at);
        }
    }
    None
}

// The proposition that the bound's time-point observes, if any.
fn observed(net: &Network, b: &Bound) -> Option<Prop>
    requires node { b.now.node.0 < count (the_network net.now) }
    ensures observed { IfSome result (λ p. Observes (the_network net.now) b.now.node.0 p.index) }
    ensures none { IfNone result ((p : ℕ) → Observes (the_network net.now) b.now.node.0 p → ⊥) }
{
    net.observes(b.node)
}

// Whether the list covers what wait derives from the bound `seen`, at an observer, and the bound b, if anything. The bound that
// `hint` tells is tried first.
fn is_wait_covered(
    net: &Network,
    closed: &Indexed,
    seen: &Bound,
    b: &Bound,
    hint: &mut usize,
) -> bool
    requires seen { IsBoundOf (the_network net.now) (the_bound seen.now) }
    requires bound { IsBoundOf (the_network net.now) (the_bound b.now) }
    ensures covered { IsTrue result → IsWaitCovered (the_network net.now) (the_listed_bounds closed.now) (the_bound seen.now) (the_bound b.now) }
    ensures uncovered { result ≡ false → HasUncoveredWait (the_network net.now) (the_listed_bounds closed.now) (the_bound seen.now) (the_bound b.now) }
{
    let mut tries = Tries { count: 0 };
    match wait(net, seen, b, &mut tries) {
        None => true,
        Some(r) => closed.covers_near(&r, hint),
    }
}

fn constraint_count(net: &Network) -> usize
    ensures count { result ≡ length net.now.constraints }
{
    net.constraints().len()
}

fn constraint_at(net: &Network, place: usize) -> &Constraint
    requires place { place < length net.now.constraints }
    ensures at { slice_get net.now.constraints place ≡ Some result.now }
    ensures has { Contains net.now.constraints result.now }
{
    &net.constraints()[place]
}

// The place of the first constraint that ends at the time-point, or the number of constraints where none does.
fn first_ending(net: &Network, x: NodeId) -> usize
    requires node { x.0 < count (the_network net.now) }
    ensures first { IsNextStanding (ends net.now.constraints) x.0 0 result }
{
    match net.first_to(x) {
        None => net.constraints().len(),
        Some(place) => place,
    }
}

// The place of the next constraint that ends at the same time-point as the one at this place, or the number of constraints
// where none does.
fn next_ending(net: &Network, at: usize) -> usize
    requires place { at < length net.now.constraints }
    ensures next { IsNextStanding (ends net.now.constraints) (slice_index_or (ends net.now.constraints) at 0) (at + 1) result }
{
    match net.next_to(at) {
        None => net.constraints().len(),
        Some(place) => place,
    }
}
