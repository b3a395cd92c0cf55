// Which time-point observes each proposition.
ghost use Rattle.std.specs.Prelude.{ℕ, ◌≡◌, ◌<◌, ◌≤◌, ◌↔◌, length, map, None, Some, IsTrue, MatchOption, slice_index_or};
ghost use Rattle.cstn_label.specs.Read.{marks};
ghost use Rattle.cstn_net.specs.Limits.{most_time_points};
ghost use Rattle.cstn_net.specs.Read.{prop_number, observed};
ghost use Rattle.cstn_net.specs.Drafts.{HasTwins, AreFirstTwins};
ghost use Rattle.cstn_net.specs.Observers.{KnowsObservers, SeesAll, IsLeastUnseen, noted};

use crate::points::TimePoint;
use cstn_label::{Label, NodeId, Prop};

/// For each proposition the first time-point that observes it.
pub type Observers = [Option<NodeId>; 52];

pub fn observers_of(points: &[TimePoint]) -> Observers
    requires { length points.now ≤ most_time_points }
    ensures { KnowsObservers (map observed points.now) result }
{
    let mut table = [None; 52];
    for (i, point) in points.iter().enumerate() {
        note(&mut table, NodeId(i as u16), point.observes);
    }
    table
}

fn note(table: &mut Observers, x: NodeId, observes: Option<Prop>)
    ensures { table.new ≡ noted table.old x (prop_number observes) }
{
    if let Some(p) = observes {
        if table[p.index as usize].is_none() {
            table[p.index as usize] = Some(x);
        }
    }
}

// The least proposition that the label names and nothing observes, found in at most one step for each mark; none where there
// is none.
pub fn unobserved(table: &Observers, label: Label) -> Option<Prop>
    ensures { MatchOption result (SeesAll table.now (marks label)) (λ p. IsLeastUnseen table.now (marks label) p.index) }
{
    let mut from = 0;
    while let Some(p) = label.first_marked_from(from) {
        if table[p.index as usize].is_none() {
            return Some(p);
        }
        from = p.index + 1;
    }
    None
}
