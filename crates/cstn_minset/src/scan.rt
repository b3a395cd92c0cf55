//! Looking through the rows of records for one that dominates a bound, or that a bound dominates.
ghost use Rattle.std.specs.Prelude.{◌≡◌, ◌<◌, ℕ, Some, IfSome, IfNone, slice_get};
ghost use Rattle.cstn_minset.specs.declared.columns.Record.{Record as TheRecord};
ghost use Rattle.cstn_minset.specs.Pages.{IsPage};
ghost use Rattle.cstn_minset.specs.Sets.{IsRecordOver, IsRecordUnder, IsRecordAt, IsNoneOf, IsNoneOn, IsNoneInSlot, IsInSlot, bound_of};

use crate::bits::{first_bit_from, without_least};
use crate::page::Page;
use crate::rows::Rows;
use cstn_label::{Bound, NodeId};

/// The slot of a record that dominates the bound; None exactly where none does.
pub fn slot_over(rows: &Rows, b: &Bound) -> Option<u32>
    ensures some { IfSome result (λ s. (k i : ℕ) × (r : TheRecord) × IsRecordAt rows.now.pages b.now.node.0 k i r × (r.slot ≡ s) × IsRecordOver b.now r) }
    ensures none { IfNone result (IsNoneOf rows.now.pages b.now.node.0 (IsRecordOver b.now)) }
{
    let mut place = rows.first(b.node.0 as u32);
    while let Some(number) = place {
        if let Some(slot) = over_on_page(rows.page(number), b) {
            return Some(slot);
        }
        place = rows.next(number);
    }
    None
}

/// The page of a record that the bound dominates, and its place there; None exactly where it dominates none.
pub fn place_under(rows: &Rows, b: &Bound) -> Option<(u32, usize)>
    ensures some { IfSome result (λ at. (r : TheRecord) × IsRecordAt rows.now.pages b.now.node.0 at.0 at.1 r × IsRecordUnder b.now r) }
    ensures none { IfNone result (IsNoneOf rows.now.pages b.now.node.0 (IsRecordUnder b.now)) }
{
    let mut place = rows.first(b.node.0 as u32);
    while let Some(number) = place {
        if let Some(index) = under_on_page(rows.page(number), b) {
            return Some((number, index));
        }
        place = rows.next(number);
    }
    None
}

/// The bound of the record of a slot; None exactly where no record is of it. Looks at all records.
pub fn bound_in(rows: &Rows, slot: u32) -> Option<Bound>
    ensures some { IfSome result (IsInSlot rows.now.pages slot) }
    ensures none { IfNone result (IsNoneInSlot rows.now.pages slot) }
{
    for page in rows.pages() {
        if let Some(b) = bound_on_page(page, slot) {
            return Some(b);
        }
    }
    None
}

// The bound of the record of a slot on a page.
fn bound_on_page(page: &Page, slot: u32) -> Option<Bound>
    requires { page.now.head < 65536 }
    ensures some { IfSome result (λ b. (i : ℕ) × (r : TheRecord) × (slice_get page.now.records.items i ≡ Some r) × (r.slot ≡ slot)
        × (b ≡ bound_of (page.now.head, r))) }
    ensures none { IfNone result (IsNoneOn page.now (λ r. r.slot ≡ slot)) }
{
    for kept in page.records.as_slice() {
        if kept.slot == slot {
            return Some(Bound {
                node: NodeId(page.head as u16),
                least: kept.least,
                label: kept.label,
            });
        }
    }
    None
}

// The slot of a record of a page of the bound's time-point that dominates the bound.
fn over_on_page(page: &Page, b: &Bound) -> Option<u32>
    requires page { IsPage page.now }
    ensures some { IfSome result (λ s. (i : ℕ) × (r : TheRecord) × (slice_get page.now.records.items i ≡ Some r) × (r.slot ≡ s) × IsRecordOver b.now r) }
    ensures none { IfNone result (IsNoneOn page.now (IsRecordOver b.now)) }
{
    if page.high < b.least {
        return None;
    }
    let records = page.records.as_slice();
    let mut rest = page.records.within(b.label);
    while let Some(i) = first_bit_from(rest, 0) {
        let kept = records[i as usize];
        if b.least <= kept.least {
            return Some(kept.slot);
        }
        rest = without_least(rest);
    }
    None
}

// The place of a record of a page of the bound's time-point that the bound dominates.
fn under_on_page(page: &Page, b: &Bound) -> Option<usize>
    requires page { IsPage page.now }
    ensures some { IfSome result (λ i. (r : TheRecord) × (slice_get page.now.records.items i ≡ Some r) × IsRecordUnder b.now r) }
    ensures none { IfNone result (IsNoneOn page.now (IsRecordUnder b.now)) }
{
    if b.least < page.low {
        return None;
    }
    let records = page.records.as_slice();
    let mut rest = page.records.above(b.label);
    while let Some(i) = first_bit_from(rest, 0) {
        let kept = records[i as usize];
        if kept.least <= b.least {
            return Some(i as usize);
        }
        rest = without_least(rest);
    }
    None
}
