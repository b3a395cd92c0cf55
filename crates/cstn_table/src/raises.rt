// Raises of moments by constraints.
ghost use Rattle.std.specs.Prelude.{ℕ, ◌<◌, ◌≤◌, ◌-ℤ◌, ◌≤ℤ◌, pos, ◌↔◌, IfNone, IfSome};
ghost use Rattle.std.specs.List.{Contains};
ghost use Rattle.cstn_net.specs.Limits.{most_deadline};
ghost use Rattle.cstn_net.specs.Networks.{Constraint as TheConstraint, IsValue, count};
ghost use Rattle.cstn_net.specs.Strategies.{IsConsistent};
ghost use Rattle.cstn_net.specs.Read.{the_network, the_constraint, IsInRange};
ghost use Rattle.cstn_table.specs.Tables.{observed_props, scenario_of, row_at};
ghost use Rattle.cstn_table.specs.Raises.{IsForced, IsLow, IsWalk, AreObserved, MeetsIn, rows};

use crate::rows::{place, rows_of, scenario_of};
use cstn_label::{NodeId, Prop};
use cstn_net::{Constraint, Network, unobserved_is_unseen};

// Raises the moment of a time-point in a row to `least`, and answers whether it was below; none where `least` is past the
// time-point's limit.
pub fn raise(net: &Network, moments: &mut [u32], row: usize, x: NodeId, least: u32) -> Option<bool>
    requires low { IsLow (the_network net.now) moments.old }
    requires row { row < rows (the_network net.now) }
    requires x { x.0 < count (the_network net.now) }
    requires forced { IsForced (the_network net.now) (scenario_of (observed_props (the_network net.now).observes) row) x.0 least }
    ensures none { IfNone result (IsConsistent (the_network net.now) → ⊥) }
    ensures some { IfSome result (IsWalk (the_network net.now) (λ ts. least ≤ row_at (count (the_network net.now)) ts row x.0) moments.old moments.new) }
{
    unobserved_is_unseen();
    let at = place(net.count(), row, x);
    if least <= moments[at] {
        return Some(false);
    }
    if least > net.limit(x).unsigned_abs() {
        return None;
    }
    moments[at] = least;
    Some(true)
}

// The earliest moment for the start of a constraint whose end is at the moment `end`.
fn earliest_start(end: u32, most: i32) -> u32
    requires end { end ≤ most_deadline }
    requires most { IsValue most }
    ensures { (t : ℕ) → ((pos end -ℤ pos t) ≤ℤ most ↔ (result ≤ t)) }
{
    if most >= 0 {
        end.saturating_sub(most.unsigned_abs())
    } else {
        end + most.unsigned_abs()
    }
}

// Raises the start of a constraint in a row if its label holds there, and answers whether it was raised; none where it would
// pass its limit.
fn raise_start(
    net: &Network,
    props: &[Prop],
    moments: &mut [u32],
    c: &Constraint,
    row: usize,
) -> Option<bool>
    requires props { AreObserved (the_network net.now) props.now }
    requires low { IsLow (the_network net.now) moments.old }
    requires constraint { Contains (the_network net.now).constraints (the_constraint c.now) }
    requires range { IsInRange (count (the_network net.now)) c.now }
    requires row { row < rows (the_network net.now) }
    ensures none { IfNone result (IsConsistent (the_network net.now) → ⊥) }
    ensures some { IfSome result (IsWalk (the_network net.now) (MeetsIn (the_network net.now) row (the_constraint c.now)) moments.old moments.new) }
{
    let points = net.count();
    if !c.label.holds(scenario_of(props, row)) {
        return Some(false);
    }
    let end = moments[place(points, row, c.to)];
    raise(net, moments, row, c.from, earliest_start(end, c.most))
}

// Raises the start of a constraint in every row, and answers whether any was raised; none where one would pass its limit.
fn raise_starts(net: &Network, props: &[Prop], moments: &mut [u32], c: &Constraint) -> Option<bool>
    requires props { AreObserved (the_network net.now) props.now }
    requires low { IsLow (the_network net.now) moments.old }
    requires constraint { Contains (the_network net.now).constraints (the_constraint c.now) }
    requires range { IsInRange (count (the_network net.now)) c.now }
    ensures none { IfNone result (IsConsistent (the_network net.now) → ⊥) }
    ensures some { IfSome result (IsWalk (the_network net.now)
        (λ ts. (row : ℕ) → row < rows (the_network net.now) → MeetsIn (the_network net.now) row (the_constraint c.now) ts) moments.old moments.new) }
{
    let mut raised = false;
    for row in 0..rows_of(props) {
        raised |= raise_start(net, props, moments, c, row)?;
    }
    Some(raised)
}

// Raises the start of every constraint in every row, and answers whether any was raised; none where one would pass its limit.
pub fn raise_by_constraints(net: &Network, props: &[Prop], moments: &mut [u32]) -> Option<bool>
    requires props { AreObserved (the_network net.now) props.now }
    requires low { IsLow (the_network net.now) moments.old }
    ensures none { IfNone result (IsConsistent (the_network net.now) → ⊥) }
    ensures some { IfSome result (IsWalk (the_network net.now)
        (λ ts. (c : TheConstraint) → Contains (the_network net.now).constraints c → (row : ℕ) → row < rows (the_network net.now)
        → MeetsIn (the_network net.now) row c ts) moments.old moments.new) }
{
    let mut raised = false;
    for c in net.constraints() {
        raised |= raise_starts(net, props, moments, c)?;
    }
    Some(raised)
}
