// Raises of moments by pairs of scenarios that what is known doesn't tell apart.
ghost use Rattle.std.specs.Prelude.{ℕ, ◌≡◌, ◌<◌, ◌≤◌, ◌+◌, ◌-◌, ◌^◌, ◌↔◌, IfNone, IfSome};
ghost use Rattle.cstn_label.specs.Read.{the_scenario};
ghost use Rattle.cstn_net.specs.Networks.{Observes, count};
ghost use Rattle.cstn_net.specs.Strategies.{Agrees, IsConsistent};
ghost use Rattle.cstn_net.specs.Read.{the_network};
ghost use Rattle.cstn_table.specs.Tables.{row_at};
ghost use Rattle.cstn_table.specs.Raises.{IsLow, IsWalk, AreObserved, IsNoLater, rows};

use crate::raises::raise;
use crate::rows::{place, rows_of, scenario_of};
use cstn_label::{NodeId, Prop, Scenario};
use cstn_net::{Network, observers_are_time_points};

// The first moment of a row at which the outcome of a time-point tells two scenarios apart; `u32::MAX` where it never does.
fn told_apart_by(
    net: &Network,
    moments: &[u32],
    row: usize,
    x: NodeId,
    s: Scenario,
    r: Scenario,
) -> u32
    requires low { IsLow (the_network net.now) moments.now }
    requires row { row < rows (the_network net.now) }
    requires x { x.0 < count (the_network net.now) }
    ensures { (t : ℕ) → t < 2 ^ 32 - 1 → (((p : ℕ) → Observes (the_network net.now) x.0 p
        → row_at (count (the_network net.now)) moments.now row x.0 + (the_network net.now).reaction p ≤ t → the_scenario r p ≡ the_scenario s p)
        ↔ (t < result)) }
{
    match net.observes(x) {
        Some(p) if s.is_true(p) != r.is_true(p) => {
            moments[place(net.count(), row, x)] + net.reaction(p)
        }
        _ => u32::MAX,
    }
}

// The first moment of a row at which what is known tells two scenarios apart; `u32::MAX` where it never does.
fn told_apart(net: &Network, moments: &[u32], row: usize, s: Scenario, r: Scenario) -> u32
    requires low { IsLow (the_network net.now) moments.now }
    requires row { row < rows (the_network net.now) }
    ensures { (t : ℕ) → t < 2 ^ 32 - 1 → (Agrees (the_network net.now) (row_at (count (the_network net.now)) moments.now row) t (the_scenario s)
        (the_scenario r) ↔ (t < result)) }
{
    observers_are_time_points();
    let mut apart = u32::MAX;
    for x in 0..net.count() {
        apart = apart.min(told_apart_by(net, moments, row, NodeId(x), s, r));
    }
    apart
}

// Raises each moment of a row to that of another row, or to the moment at which the two rows are told apart if that is
// earlier. Answers whether any was raised; none where one would pass its limit.
fn raise_row(
    net: &Network,
    props: &[Prop],
    moments: &mut [u32],
    row: usize,
    other: usize,
) -> Option<bool>
    requires props { AreObserved (the_network net.now) props.now }
    requires low { IsLow (the_network net.now) moments.old }
    requires row { row < rows (the_network net.now) }
    requires other { other < rows (the_network net.now) }
    ensures none { IfNone result (IsConsistent (the_network net.now) → ⊥) }
    ensures some { IfSome result (IsWalk (the_network net.now) (IsNoLater (the_network net.now) row other) moments.old moments.new) }
{
    observers_are_time_points();
    let apart = told_apart(
        net,
        moments,
        row,
        scenario_of(props, row),
        scenario_of(props, other),
    );
    let mut raised = false;
    for x in 0..net.count() {
        let later = moments[place(net.count(), other, NodeId(x))];
        raised |= raise(net, moments, row, NodeId(x), later.min(apart))?;
    }
    Some(raised)
}

// Raises the moments of a row by every row, and answers whether any was raised; none where one would pass its limit.
fn raise_row_by_all(net: &Network, props: &[Prop], moments: &mut [u32], row: usize) -> Option<bool>
    requires props { AreObserved (the_network net.now) props.now }
    requires low { IsLow (the_network net.now) moments.old }
    requires row { row < rows (the_network net.now) }
    ensures none { IfNone result (IsConsistent (the_network net.now) → ⊥) }
    ensures some { IfSome result (IsWalk (the_network net.now)
        (λ ts. (other : ℕ) → other < rows (the_network net.now) → IsNoLater (the_network net.now) row other ts) moments.old moments.new) }
{
    let mut raised = false;
    for other in 0..rows_of(props) {
        raised |= raise_row(net, props, moments, row, other)?;
    }
    Some(raised)
}

// Raises the moments of every row by every row, and answers whether any was raised; none where one would pass its limit.
pub fn raise_by_scenarios(net: &Network, props: &[Prop], moments: &mut [u32]) -> Option<bool>
    requires props { AreObserved (the_network net.now) props.now }
    requires low { IsLow (the_network net.now) moments.old }
    ensures none { IfNone result (IsConsistent (the_network net.now) → ⊥) }
    ensures some { IfSome result (IsWalk (the_network net.now)
        (λ ts. (row : ℕ) → row < rows (the_network net.now) → (other : ℕ) → other < rows (the_network net.now)
        → IsNoLater (the_network net.now) row other ts) moments.old moments.new) }
{
    let mut raised = false;
    for row in 0..rows_of(props) {
        raised |= raise_row_by_all(net, props, moments, row)?;
    }
    Some(raised)
}
