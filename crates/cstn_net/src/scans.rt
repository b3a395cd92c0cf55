// The first constraint or time-point at which something is wrong.
ghost use Rattle.std.specs.Prelude.{ℕ, ◌≡◌, ◌<◌, ◌≤◌, ◌↔◌, length, map, None, IsTrue, MatchOption};
ghost use Rattle.std.specs.List.{All};
ghost use Rattle.cstn_label.specs.Labels.{IsPlain};
ghost use Rattle.cstn_label.specs.Read.{marks};
ghost use Rattle.cstn_net.specs.Limits.{most_time_points, most_constraints};
ghost use Rattle.cstn_net.specs.Networks.{IsValue};
ghost use Rattle.cstn_net.specs.Read.{prop_number, observed};
ghost use Rattle.cstn_net.specs.Faults.{IsFirst};
ghost use Rattle.cstn_net.specs.Drafts.{IsFirstUnseen, HasTwins, AreFirstTwins, HasReaction};
ghost use Rattle.cstn_net.specs.Observers.{KnowsObservers, SeesAll, IsTwin, HasNoTwin};

use crate::drafts::Draft;
use crate::limits::{MAX_REACTION, is_value};
use crate::observers::{Observers, unobserved};
use crate::points::TimePoint;
use cstn_label::{NodeId, Prop};

fn is_in_range(draft: Draft) -> bool
    ensures { IsTrue result ↔ IsValue draft.most }
{
    is_value(draft.most)
}

pub fn first_out_of_range(drafts: &[Draft]) -> Option<u32>
    requires { length drafts.now ≤ most_constraints }
    ensures { MatchOption result (All (λ d. IsValue d.most) drafts.now) (IsFirst (λ d. IsValue d.most → ⊥) drafts.now) }
{
    for (i, draft) in drafts.iter().enumerate() {
        if !is_in_range(*draft) {
            return Some(i as u32);
        }
    }
    None
}

pub fn first_not_plain(drafts: &[Draft]) -> Option<u32>
    requires { length drafts.now ≤ most_constraints }
    ensures { MatchOption result (All (λ d. IsPlain (marks d.label)) drafts.now) (IsFirst (λ d. IsPlain (marks d.label) → ⊥) drafts.now) }
{
    for (i, draft) in drafts.iter().enumerate() {
        if !draft.label.is_plain() {
            return Some(i as u32);
        }
    }
    None
}

// The least unobserved proposition of the first constraint that names one.
pub fn first_unobserved(table: &Observers, drafts: &[Draft]) -> Option<Prop>
    ensures { MatchOption result (All (λ d. SeesAll table.now (marks d.label)) drafts.now) (λ p. IsFirstUnseen table.now drafts.now p.index) }
{
    for draft in drafts {
        if let Some(p) = unobserved(table, draft.label) {
            return Some(p);
        }
    }
    None
}

// Where a time-point isn't the first to observe its proposition: the proposition, its first observer, and the time-point.
fn twin(table: &Observers, x: NodeId, observes: Option<Prop>) -> Option<(Prop, NodeId, NodeId)>
    ensures { MatchOption result (HasNoTwin table.now (prop_number observes) x) (λ t. IsTwin table.now (prop_number observes) x t.0.index t.1 × (t.2 ≡ x)) }
{
    let p = observes?;
    let first = table[p.index as usize]?;
    if first == x {
        None
    } else {
        Some((p, first, x))
    }
}

// The proposition, its first observer and the time-point, for the first time-point whose proposition an earlier one observes.
pub fn first_twins(table: &Observers, points: &[TimePoint]) -> Option<(Prop, NodeId, NodeId)>
    requires few { length points.now ≤ most_time_points }
    requires observers { KnowsObservers (map observed points.now) table.now }
    ensures { MatchOption result (HasTwins (map observed points.now) (length points.now) → ⊥)
        (λ t. AreFirstTwins (map observed points.now) t.0.index t.1.0 t.2.0) }
{
    for (i, point) in points.iter().enumerate() {
        if let Some(found) = twin(table, NodeId(i as u16), point.observes) {
            return Some(found);
        }
    }
    None
}

fn is_timely(point: TimePoint) -> bool
    ensures { IsTrue result ↔ HasReaction point }
{
    point.observes.is_none() || (1 <= point.reaction && point.reaction <= MAX_REACTION)
}

// The first time-point that observes and has a reaction out of range.
pub fn first_untimely(points: &[TimePoint]) -> Option<NodeId>
    requires { length points.now ≤ most_time_points }
    ensures { MatchOption result (All HasReaction points.now) (λ x. IsFirst (λ t. HasReaction t → ⊥) points.now x.0) }
{
    for (i, point) in points.iter().enumerate() {
        if !is_timely(*point) {
            return Some(NodeId(i as u16));
        }
    }
    None
}
