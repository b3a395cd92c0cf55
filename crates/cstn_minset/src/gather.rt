//! Looking through one row of records for all that may be of use, and not for one alone.
ghost use Rattle.std.specs.Prelude.{◌≡◌, ◌⊎◌, ◌<◌, ◌≤◌, ◌+◌, ◌++◌, ◌∷◌, [], ◌<ℤ◌, ◌≤ℤ◌, pos, ℕ, List, Some, IfSome, All, false, true, length, slice_get};
ghost use Rattle.std.specs.Prelude.{slice_index_or, vec_capacity};
ghost use Rattle.std.specs.List.{Contains};
ghost use Rattle.cstn_label.specs.Read.{marks};
ghost use Rattle.cstn_label.specs.Labels.{IsMarked, without};
ghost use Rattle.cstn_label.specs.Words.{has_bit};
ghost use Rattle.cstn_minset.specs.declared.columns.Record.{Record as TheRecord};
ghost use Rattle.cstn_minset.specs.Pages.{IsPage, held_records};
ghost use Rattle.cstn_minset.specs.Columns.{AreThose};
ghost use Rattle.cstn_minset.specs.Sets.{IsRecordAbove, IsRecordOf, AreSlotsOf, IsRecordAt, IsNoneOf, IsNoneOn};

use crate::bits::{bits_without, first_bit_from, first_bits, without_least};
use crate::columns::{Columns, Record};
use crate::page::{Page, higher};
use crate::rows::Rows;
use cstn_label::{Label, NodeId, Prop, labels_are_their_marks};

/// The greatest least value of a record of the row whose label is within this one, or 0 where that is lower.
pub fn greatest_within(rows: &Rows, node: NodeId, label: Label) -> i32
    ensures { (result ≡ pos 0) ⊎ ((k i : ℕ) × (r : TheRecord) × IsRecordAt rows.now.pages node.0 k i r × IsRecordOf (marks label) result r) }
{
    let mut greatest = 0;
    let mut place = rows.first(node.0 as u32);
    while let Some(number) = place {
        greatest = greatest_on_page(rows.page(number), label, greatest);
        place = rows.next(number);
    }
    greatest
}

// The greatest least value of a record of a page whose label is within this one, or the floor where that is lower.
fn greatest_on_page(page: &Page, label: Label, floor: i32) -> i32
    ensures { (result ≡ floor) ⊎ ((i : ℕ) × (r : TheRecord) × (slice_get page.now.records.items i ≡ Some r) × IsRecordOf (marks label) result r) }
{
    if page.high <= floor {
        return floor;
    }
    greatest_among(page, page.records.within(label), floor)
}

// The greatest least value of a record of a page whose bit is set, or the floor where that is lower.
fn greatest_among(page: &Page, bits: u64, floor: i32) -> i32
    requires { (i : ℕ) → has_bit bits i ≡ true → i < length page.now.records.items }
    ensures { (result ≡ floor) ⊎ ((i : ℕ) × (r : TheRecord) × (slice_get page.now.records.items i ≡ Some r) × (has_bit bits i ≡ true) × (r.least ≡ result)) }
{
    let mut greatest = floor;
    let mut rest = bits;
    while let Some(i) = first_bit_from(rest, 0) {
        greatest = higher(greatest, page.records.least(i));
        rest = without_least(rest);
    }
    greatest
}

/// For each proposition, the greatest least value of a record of the row whose label is within this one and doesn't mark it, or 0
/// where that is lower. It is 0 also for those that the label doesn't mark.
pub fn greatest_without(rows: &Rows, node: NodeId, label: Label) -> [i32; 52]
    ensures { (p : ℕ) → p < 52 → (slice_index_or result p (pos 0) ≡ pos 0) ⊎ ((k i : ℕ) × (r : TheRecord) × IsRecordAt rows.now.pages node.0 k i r
        × IsRecordOf (without (marks label) p) (slice_index_or result p (pos 0)) r) }
{
    let mut greatest = [0; 52];
    let mut place = rows.first(node.0 as u32);
    while let Some(number) = place {
        raise_on_page(rows.page(number), label, &mut greatest);
        place = rows.next(number);
    }
    greatest
}

// Raises each of these to the greatest least value of a record of a page whose label is within this one and doesn't mark the
// proposition, where that is higher.
fn raise_on_page(page: &Page, label: Label, greatest: &mut [i32; 52])
    ensures { (p : ℕ) → p < 52 → (slice_index_or greatest.new p (pos 0) ≡ slice_index_or greatest.old p (pos 0))
        ⊎ ((i : ℕ) × (r : TheRecord) × (slice_get page.now.records.items i ≡ Some r)
        × IsRecordOf (without (marks label) p) (slice_index_or greatest.new p (pos 0)) r) }
{
    let records = page.records.as_slice();
    let within = page.records.within(label);
    let mut rest = within;
    while let Some(i) = first_bit_from(rest, 0) {
        raise_by(&records[i as usize], label, greatest);
        rest = without_least(rest);
    }
}

// Raises each of these to the least value of a record whose label is within this one, where the record doesn't mark the proposition
// and the label does, and where that is higher.
fn raise_by(kept: &Record, label: Label, greatest: &mut [i32; 52])
    ensures { (p : ℕ) → p < 52 → (slice_index_or greatest.new p (pos 0) ≡ slice_index_or greatest.old p (pos 0))
        ⊎ ((¬ IsMarked (marks kept.now.label) p) × (kept.now.least ≡ slice_index_or greatest.new p (pos 0))) }
{
    if kept.least <= 0 {
        return;
    }
    labels_are_their_marks();
    let (positive, negative) = label.words();
    let (kept_positive, kept_negative) = kept.label.words();
    let unmarked = bits_without(positive | negative, kept_positive | kept_negative);
    let mut rest = unmarked;
    while let Some(p) = first_bit_from(rest, 0) {
        let at = p as usize;
        greatest[at] = higher(greatest[at], kept.least);
        rest = without_least(rest);
    }
}

/// What is looked for in a row: the records with least values above the floor, and among them those whose labels mark the
/// proposition, if one is given.
#[derive(Clone, Copy)]
pub struct Above {
    pub floor: i32,
    pub marking: Option<Prop>,
}

/// Writes down the slots of the records of the row that are looked for.
pub fn slots_above(rows: &Rows, node: NodeId, sought: Above, found: &mut Vec<u32>)
    requires room { length (held_records rows.now.pages) ≤ vec_capacity found.old }
    ensures all { (k i : ℕ) (r : TheRecord) → IsRecordAt rows.now.pages node.0 k i r → IsRecordAbove sought.floor sought.marking r →
        Contains found.new.items r.slot }
    ensures only { All (λ s. (k i : ℕ) × (r : TheRecord) × IsRecordAt rows.now.pages node.0 k i r × IsRecordAbove sought.floor sought.marking r
        × (r.slot ≡ s)) found.new.items }
    ensures capacity { vec_capacity found.new ≡ vec_capacity found.old }
{
    found.clear();
    let mut place = rows.first(node.0 as u32);
    while let Some(number) = place {
        add_slots_above(rows.page(number), sought, found);
        place = rows.next(number);
    }
}

// Adds the slots of the records of a page that are looked for.
fn add_slots_above(page: &Page, sought: Above, found: &mut Vec<u32>)
    requires page { IsPage page.now }
    requires room { length found.old.items + length page.now.records.items ≤ vec_capacity found.old }
    ensures added { (more : List ℕ) × (found.new.items ≡ found.old.items ++ more) × AreSlotsOf page.now.records.items sought.floor sought.marking more }
    ensures capacity { vec_capacity found.new ≡ vec_capacity found.old }
{
    if page.high <= sought.floor {
        return;
    }
    let records = page.records.as_slice();
    let marking = marking_if_given(&page.records, sought.marking);
    let mut rest = marking;
    while let Some(i) = first_bit_from(rest, 0) {
        let kept = records[i as usize];
        add_if_above(kept, sought.floor, found);
        rest = without_least(rest);
    }
}

// Adds the slot of a record whose least value is above the floor.
fn add_if_above(kept: Record, floor: i32, found: &mut Vec<u32>)
    requires room { length found.old.items < vec_capacity found.old }
    ensures added { floor <ℤ kept.least → found.new.items ≡ found.old.items ++ kept.slot ∷ [] }
    ensures passed { kept.least ≤ℤ floor → found.new.items ≡ found.old.items }
    ensures capacity { vec_capacity found.new ≡ vec_capacity found.old }
{
    if floor < kept.least {
        found.push_reserved(kept.slot);
    }
}

// The records whose label marks the proposition, and all records where none is given.
fn marking_if_given(records: &Columns, marking: Option<Prop>) -> u64
    ensures { AreThose (λ r. IfSome marking (λ p. IsMarked (marks r.label) p.index)) records.now.items result }
{
    match marking {
        Some(p) => records.marking(p),
        None => first_bits(records.len() as u32),
    }
}

/// Whether a record of the row marks p.
pub fn row_marks(rows: &Rows, node: NodeId, p: Prop) -> bool
    ensures none { result ≡ false → IsNoneOf rows.now.pages node.0 (λ r. IsMarked (marks r.label) p.index) }
{
    let mut place = rows.first(node.0 as u32);
    while let Some(number) = place {
        if page_marks(rows.page(number), p) {
            return true;
        }
        place = rows.next(number);
    }
    false
}

fn page_marks(page: &Page, p: Prop) -> bool
    ensures { result ≡ false → IsNoneOn page.now (λ r. IsMarked (marks r.label) p.index) }
{
    page.records.marking(p) != 0
}
