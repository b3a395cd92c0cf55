// The check of a list of bounds against a network, in the order of the faults.
ghost use Rattle.std.specs.Prelude.{◌≡◌, ◌↔◌, IfSome, IfNone};
ghost use Rattle.std.specs.List.{Contains};
ghost use Rattle.cstn_label.specs.Bounds.{Bound as TheBound};
ghost use Rattle.cstn_net.specs.Read.{the_network};
ghost use Rattle.cstn_net.specs.Strategies.{IsConsistent};
ghost use Rattle.cstn_rules.specs.Closed.{IsClosed};
ghost use Rattle.cstn_closed.specs.Closed.{the_listed_bounds};
ghost use Rattle.cstn_closed.specs.Faults.{IsFaultless, bad, no_base, no_chain, no_wait};
ghost use Rattle.cstn_closed.specs.Answers.{IsClosedAnswer};
ghost use Rattle.cstn_closed.specs.Instances.{AreFit, AreBasesCovered, AreChainsCovered, AreWaitsCovered, IsFirstOfKind};

use crate::answers::ClosedAnswer;
use crate::index::Indexed;
use crate::instances::{base, is_fit, uncovered_chain, uncovered_wait};
use cstn_label::NodeId;
use cstn_net::{Network, network_is_well_formed};

/// `Accepted` where the list has no fault for the network, and else the first fault. A list without fault is closed, and the
/// network then has a strategy. The load isn't looked at, and no memory is taken.
pub fn check(net: &Network, closed: &Indexed) -> ClosedAnswer
    ensures answer { IsClosedAnswer (the_network net.now) (the_listed_bounds closed.now) result }
    ensures accepted { (result ≡ ClosedAnswer.Accepted) ↔ IsFaultless (the_network net.now) (the_listed_bounds closed.now) }
    ensures closed { result ≡ ClosedAnswer.Accepted → IsClosed (the_network net.now) (the_listed_bounds closed.now) }
    ensures consistent { result ≡ ClosedAnswer.Accepted → IsConsistent (the_network net.now) }
{
    network_is_well_formed(net);
    if let Some(at) = first_bad(net, closed) {
        return ClosedAnswer::Bad { at };
    }
    if let Some(node) = first_without_base(net, closed) {
        return ClosedAnswer::NoBase { node };
    }
    if let Some((constraint, at)) = first_chain(net, closed) {
        return ClosedAnswer::NoChain { constraint, at };
    }
    match first_wait(net, closed) {
        Some((seen, at)) => ClosedAnswer::NoWait { seen, at },
        None => ClosedAnswer::Accepted,
    }
}

// The first bound that doesn't fit the network.
fn first_bad(net: &Network, closed: &Indexed) -> Option<u32>
    ensures some { IfSome result (λ i. IsFirstOfKind (the_network net.now) (the_listed_bounds closed.now) (bad i)) }
    ensures none { IfNone result (AreFit (the_network net.now) (the_listed_bounds closed.now)) }
{
    for at in 0..closed.count() {
        if !is_fit(net, &closed.bound(at)) {
            return Some(at);
        }
    }
    None
}

// The first time-point whose base bound isn't covered.
fn first_without_base(net: &Network, closed: &Indexed) -> Option<NodeId>
    ensures some { IfSome result (λ x. IsFirstOfKind (the_network net.now) (the_listed_bounds closed.now) (no_base x.0)) }
    ensures none { IfNone result (AreBasesCovered (the_network net.now) (the_listed_bounds closed.now)) }
{
    for number in 0..net.count() {
        let node = NodeId(number);
        if !closed.covers(&base(node)) {
            return Some(node);
        }
    }
    None
}

// For the first bound from which chain derives a bound that isn't covered: the least id of a constraint with which it does,
// and the bound's place.
fn first_chain(net: &Network, closed: &Indexed) -> Option<(u32, u32)>
    requires fit { AreFit (the_network net.now) (the_listed_bounds closed.now) }
    ensures some { IfSome result (λ f. IsFirstOfKind (the_network net.now) (the_listed_bounds closed.now) (no_chain f.0 f.1)) }
    ensures none { IfNone result ((b : TheBound) → Contains (the_listed_bounds closed.now) b →
        AreChainsCovered (the_network net.now) (the_listed_bounds closed.now) b) }
{
    for at in closed.fresh() {
        if let Some(constraint) = uncovered_chain(net, closed, *at) {
            return Some((constraint, *at));
        }
    }
    None
}

// For the first bound from which wait derives a bound that isn't covered: its place, and the first place of a bound with which
// it does.
fn first_wait(net: &Network, closed: &Indexed) -> Option<(u32, u32)>
    requires fit { AreFit (the_network net.now) (the_listed_bounds closed.now) }
    ensures some { IfSome result (λ f. IsFirstOfKind (the_network net.now) (the_listed_bounds closed.now) (no_wait f.0 f.1)) }
    ensures none { IfNone result ((b : TheBound) → Contains (the_listed_bounds closed.now) b →
        AreWaitsCovered (the_network net.now) (the_listed_bounds closed.now) b) }
{
    for seen in closed.fresh() {
        if let Some(at) = uncovered_wait(net, closed, *seen) {
            return Some((*seen, at));
        }
    }
    None
}
