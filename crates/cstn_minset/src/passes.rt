//! A pass over all records for the bound of a kind with the least birth.
ghost use Rattle.std.specs.Prelude.{◌≡◌, ◌<◌, ◌↔◌, IsTrue};
ghost use Rattle.cstn_minset.specs.Sets.{bound_of};
ghost use Rattle.cstn_minset.specs.Passes.{sought_kind, IsCandidate, IsOnPage, IsOnPages, IsEarliestSlot, earlier_slot as the_earlier};

use crate::births::Births;
use crate::columns::Record;
use crate::page::Page;
use crate::rows::Rows;
use cstn_label::{Mark, NodeId, Prop};
use cstn_pool::SlotId;

/// What is looked for: the bounds at a time-point, or those whose label marks a proposition.
#[derive(Clone, Copy)]
pub enum Sought {
    At(NodeId),
    Marking(Prop),
}

/// The id of the bound with the least birth from `low` on; None where there is none.
pub fn earliest(rows: &Rows, births: &Births, sought: Sought, low: u64) -> Option<SlotId>
    ensures { IsEarliestSlot (IsOnPages births.now (sought_kind sought) low rows.now.pages) result }
{
    let mut best = None;
    for page in rows.pages() {
        best = earlier(best, earliest_on_page(page, births, sought, low));
    }
    best
}

fn earliest_on_page(page: &Page, births: &Births, sought: Sought, low: u64) -> Option<SlotId>
    ensures { IsEarliestSlot (IsOnPage births.now (sought_kind sought) low page.now) result }
{
    let mut best = None;
    for kept in page.records.as_slice() {
        best = earlier(best, candidate(page.head, *kept, births, sought, low));
    }
    best
}

// The id of a record, where it is one that is looked for.
fn candidate(head: u32, kept: Record, births: &Births, sought: Sought, low: u64) -> Option<SlotId>
    ensures { IsEarliestSlot (IsCandidate births.now (sought_kind sought) low head kept) result }
{
    let birth = births.at(kept.slot);
    if birth < low || !is_sought(head, kept, sought) {
        return None;
    }
    Some(SlotId {
        slot: kept.slot,
        birth,
    })
}

fn is_sought(head: u32, kept: Record, sought: Sought) -> bool
    ensures { IsTrue result ↔ sought_kind sought (bound_of (head, kept)) }
{
    match sought {
        Sought::At(node) => head == node.0 as u32,
        Sought::Marking(p) => kept.label.mark(p) != Mark::Absent,
    }
}

fn earlier(id: Option<SlotId>, other: Option<SlotId>) -> Option<SlotId>
    ensures { result ≡ the_earlier id other }
{
    match (id, other) {
        (Some(a), Some(b)) => Some(if b.birth < a.birth { b } else { a }),
        (Some(a), None) => Some(a),
        (None, _) => other,
    }
}
