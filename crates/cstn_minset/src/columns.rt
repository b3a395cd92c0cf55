ghost use Rattle.std.specs.Prelude.{◌≡◌, ◌<◌, ◌≤◌, ◌++◌, ◌∷◌, [], ◌==◌, Some, length, slice_get, slice_index_or};
ghost use Rattle.cstn_minset.specs.declared.columns.Record.{Record as TheRecord};
ghost use Rattle.std.specs.List.{swap_remove};
ghost use Rattle.cstn_label.specs.Labels.{IsMarked, IsWithin};
ghost use Rattle.cstn_label.specs.Read.{marks};
ghost use Rattle.cstn_minset.specs.Columns.{AreThose};

use crate::bits::first_bits;
use crate::sheet::Sheet;
use arrayvec::ArrayVec;
use cstn_label::{Label, Prop, joined_is_the_least_above, labels_are_their_marks};
use std::marker::Model;

/// A label and a least value, kept under the number of a slot.
#[derive(Clone, Copy, Debug, PartialEq, Eq)]
pub struct Record {
    pub label: Label,
    pub least: i32,
    pub slot: u32,
}

impl Default for Record {
    fn default() -> Record {
        Record {
            label: Label::empty(),
            least: 0,
            slot: 0,
        }
    }
}

/// Up to 64 records in no order, and the marks of their labels side by side. So the records whose labels are within another, or
/// that another is within, are found in a few steps for all of them.
#[derive(Drop)]
pub struct Columns {
    records: ArrayVec<Record, 64>,
    sheet: Sheet,
    // A label within which all labels of the records are.
    used: Label,
}

impl Model for Columns {
    ghost use Rattle.cstn_minset.specs.Columns.{ColumnsParts, AreColumns};

    ghost Value = { ColumnsParts };

    ghost view = { λ c. record { items = c.records.items } };

    ghost invariant = { λ c. AreColumns c.records.items c.sheet c.used };
}

impl Columns {
    /// No record.
    pub fn empty() -> Columns
        ensures { result.items ≡ [] }
    {
        Columns {
            records: ArrayVec::new(),
            sheet: Sheet::empty(),
            used: Label::empty(),
        }
    }

    /// How many records there are.
    pub fn len(&self) -> usize
        ensures value { result ≡ length self.now.items }
        ensures few { result ≤ 64 }
    {
        self.records.len()
    }

    /// Whether there is no record.
    pub fn is_empty(&self) -> bool
        ensures { result ≡ (length self.now.items == 0) }
    {
        self.records.is_empty()
    }

    /// The records.
    pub fn as_slice(&self) -> &[Record]
        ensures value { result.now ≡ self.now.items }
        ensures few { length result.now ≤ 64 }
    {
        self.records.as_slice()
    }

    /// The least value of a record.
    pub fn least(&self, index: u32) -> i32
        requires { index < length self.now.items }
        ensures { (r : TheRecord) → slice_get self.now.items index ≡ Some r → result ≡ r.least }
    {
        self.records.as_slice()[index as usize].least
    }

    /// Adds a record.
    pub fn push(&mut self, added: Record)
        requires room { length self.old.items < 64 }
        ensures items { self.new.items ≡ self.old.items ++ added ∷ [] }
    {
        joined_is_the_least_above();
        let place = self.records.len() as u32;
        self.sheet.replace(Label::empty(), added.label, place);
        self.used = self.used.join(added.label);
        self.records.push(added);
    }

    /// Takes a record out; the last one takes its place.
    pub fn swap_remove(&mut self, index: usize) -> Record
        requires inside { index < length self.old.items }
        ensures value { result ≡ slice_index_or self.old.items index result }
        ensures items { self.new.items ≡ swap_remove self.old.items index result }
    {
        let last = self.records.len() - 1;
        let records = self.records.as_slice();
        let taken = records[index];
        let moved = records[last];
        self.sheet.replace(taken.label, moved.label, index as u32);
        self.sheet.replace(moved.label, Label::empty(), last as u32);
        self.records.swap_remove(index)
    }

    /// The records whose label is within this one, as bits.
    pub fn within(&self, label: Label) -> u64
        ensures { AreThose (λ r. IsWithin (marks r.label) (marks label)) self.now.items result }
    {
        labels_are_their_marks();
        let front = first_bits(self.records.len() as u32);
        self.sheet.within(front, self.used, label)
    }

    /// The records within whose label this one is, as bits.
    pub fn above(&self, label: Label) -> u64
        ensures { AreThose (λ r. IsWithin (marks label) (marks r.label)) self.now.items result }
    {
        labels_are_their_marks();
        if !label.is_within(self.used) {
            return 0;
        }
        let front = first_bits(self.records.len() as u32);
        self.sheet.above(front, label)
    }

    /// The records whose label marks p, as bits.
    pub fn marking(&self, p: Prop) -> u64
        ensures { AreThose (λ r. IsMarked (marks r.label) p.index) self.now.items result }
    {
        self.sheet.marking(p)
    }
}
