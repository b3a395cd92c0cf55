ghost use Rattle.std.specs.Prelude.{ℕ, ◌≡◌, ◌+◌, ◌-◌, ◌^◌, ◌<◌, ◌↔◌, ◌≤ℤ◌, pos, min, IsTrue, IfSome, IfNone, None, slice_index_or};
ghost use Rattle.std.specs.List.{Contains};
ghost use Rattle.cstn_label.specs.declared.marks.Mark.TheVariants.{Absent};
ghost use Rattle.cstn_label.specs.Bounds.{Bound as TheBound};
ghost use Rattle.cstn_label.specs.Read.{marks, the_bound};
ghost use Rattle.cstn_net.specs.Limits.{most_reaction};
ghost use Rattle.cstn_net.specs.Networks.{IsWellFormed, Observes, count, limit};
ghost use Rattle.cstn_net.specs.Strategies.{Table, IsStrategy};
ghost use Rattle.cstn_net.specs.Bounds.{HoldsIn};
ghost use Rattle.cstn_net.specs.Read.{the_network, the_constraint, IsInRange};
ghost use Rattle.cstn_rules.specs.Rules.{without_own, finished, IsChain, IsWait, Refutes, IsBoundOf};

use crate::counters::Tries;
use cstn_label::{Bound, Label, Mark, NodeId, Prop, joined_is_the_least_above};
use cstn_net::{Constraint, Network, network_is_well_formed};

/// The conclusion of chain from a constraint and a bound of the network, or None where there is none. Its least value may be
/// below 0; base dominates it then. Counts one more try.
pub fn chain(net: &Network, c: &Constraint, b: &Bound, tries: &mut Tries) -> Option<Bound>
    requires constraint { Contains net.now.constraints c.now }
    requires bound { IsBoundOf (the_network net.now) (the_bound b.now) }
    ensures chain { IfSome result (λ r. IsChain (the_network net.now) (the_constraint c.now) (the_bound b.now) (the_bound r)) }
    ensures none { IfNone result ((r : TheBound) → IsChain (the_network net.now) (the_constraint c.now) (the_bound b.now) r → ⊥) }
    ensures counted { tries.new.count ≡ min (tries.old.count + 1) (2 ^ 64 - 1) }

    ensures node { IfSome result (λ r. r.node.0 < count (the_network net.now)) }
    ensures range { IfSome result (λ r. r.least ≤ℤ pos (limit (the_network net.now) r.node.0 + 1)) }
    ensures sound { IfSome result (λ r. (table : Table) → IsStrategy (the_network net.now) table → HoldsIn (the_network net.now) table (the_bound b.now)
        → HoldsIn (the_network net.now) table (the_bound r)) }
{
    tries.add();
    is_in_range(net, c);
    joined_is_the_least_above();
    let label = b.label.join(c.label);
    if b.node == c.to && label.is_plain() {
        let carried = Bound {
            node: c.from,
            least: b.least - c.most,
            label,
        };
        Some(finish(net, carried))
    } else {
        None
    }
}

/// The conclusion of wait from two bounds of the network, or None where there is none. There is one exactly where `seen` is at
/// an observer and `b` marks the proposition that this observes. Counts one more try.
pub fn wait(net: &Network, seen: &Bound, b: &Bound, tries: &mut Tries) -> Option<Bound>
    requires seen { IsBoundOf (the_network net.now) (the_bound seen.now) }
    requires bound { IsBoundOf (the_network net.now) (the_bound b.now) }
    ensures wait { IfSome result (λ r. (p : ℕ) × IsWait (the_network net.now) p (the_bound seen.now) (the_bound b.now) (the_bound r)) }
    ensures none { IfNone result ((p : ℕ) (r : TheBound) → IsWait (the_network net.now) p (the_bound seen.now) (the_bound b.now) r → ⊥) }
    ensures counted { tries.new.count ≡ min (tries.old.count + 1) (2 ^ 64 - 1) }

    ensures range { IfSome result (λ r. IsBoundOf (the_network net.now) (the_bound r)) }
    ensures sound { IfSome result (λ r. (table : Table) → HoldsIn (the_network net.now) table (the_bound seen.now)
        → HoldsIn (the_network net.now) table (the_bound b.now) → HoldsIn (the_network net.now) table (the_bound r)) }
{
    tries.add();
    network_is_well_formed(net);
    match net.observes(seen.node) {
        None => None,
        Some(p) => wait_for(net, p, seen, b),
    }
}

/// Whether the bound refutes the network: its label is plain, and its least value is above its time-point's limit.
pub fn refutes(net: &Network, b: &Bound) -> bool
    requires node { b.now.node.0 < count (the_network net.now) }
    ensures refutes { IsTrue result ↔ Refutes (the_network net.now) (the_bound b.now) }
    ensures sound { IsTrue result → (table : Table) → IsStrategy (the_network net.now) table → HoldsIn (the_network net.now) table (the_bound b.now) → ⊥ }
{
    b.label.is_plain() && b.least > net.limit(b.node)
}

// The conclusion of wait for the proposition p, which the time-point of `seen` observes; None where `b` doesn't mark p.
fn wait_for(net: &Network, p: Prop, seen: &Bound, b: &Bound) -> Option<Bound>
    requires observes { Observes (the_network net.now) (the_bound seen.now).node p.index }
    requires seen { IsBoundOf (the_network net.now) (the_bound seen.now) }
    requires bound { IsBoundOf (the_network net.now) (the_bound b.now) }
    ensures wait { IfSome result (λ r. IsWait (the_network net.now) p.index (the_bound seen.now) (the_bound b.now) (the_bound r)) }
    ensures none { IfNone result (marks b.now.label p.index ≡ Absent) }
{
    if b.label.mark(p) == Mark::Absent {
        return None;
    }
    network_is_well_formed(net);
    let until = seen.least + reaction(net, p);
    let awaited = Bound {
        node: b.node,
        least: b.least.min(until),
        label: seen.label.join(b.label.without(p)),
    };
    Some(finish(net, awaited))
}

// How many ticks after its observer p is known.
fn reaction(net: &Network, p: Prop) -> i32
    requires { (x : ℕ) × Observes (the_network net.now) x p.index }
    ensures reaction { result ≡ pos ((the_network net.now).reaction p.index) }
    ensures range { result ≤ℤ pos most_reaction }
{
    network_is_well_formed(net);
    net.reaction(p) as i32
}

// The last two steps of chain and of wait: the least value is cut to the limit + 1, and a mark on what the time-point observes
// is taken off.
fn finish(net: &Network, b: Bound) -> Bound
    requires { b.node.0 < count (the_network net.now) }
    ensures { the_bound result ≡ finished (the_network net.now) (the_bound b) }
{
    Bound {
        node: b.node,
        least: b.least.min(net.limit(b.node) + 1),
        label: take_own_off(net, b.node, b.label),
    }
}

// The label without its mark on what the time-point observes.
fn take_own_off(net: &Network, x: NodeId, label: Label) -> Label
    requires { x.0 < count (the_network net.now) }
    ensures { marks result ≡ without_own (slice_index_or (the_network net.now).observes x.0 None) (marks label) }
{
    match net.observes(x) {
        None => label,
        Some(p) => label.without(p),
    }
}

// Each constraint of a network is between its time-points, with its value in range.
fn is_in_range(net: &Network, c: &Constraint)
    requires { Contains net.now.constraints c.now }
    ensures range { IsInRange (count (the_network net.now)) c.now }
    ensures network { IsWellFormed (the_network net.now) }
    ensures constraint { Contains (the_network net.now).constraints (the_constraint c.now) }
{
    let _ = net.constraints();
}
