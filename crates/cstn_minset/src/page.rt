ghost use Rattle.std.specs.Prelude.{◌≡◌, ◌⊎◌, ◌<◌, ◌≤◌, ◌≤ℤ◌, ◌+◌, ◌++◌, ◌∷◌, [], length, slice_index_or, IsPermutation};
ghost use Rattle.std.specs.List.{swap_remove};
ghost use Rattle.cstn_minset.specs.Pages.{IsPage};

use crate::columns::{Columns, Record};

/// How many records a page has room for.
pub const ROOM: usize = 64;

/// How many records a page has at least, unless it is the first of its row.
pub const LEAST: usize = 63;

/// Some records of one row, in no order. Their least values are from `low` to `high`.
#[derive(Drop)]
pub struct Page {
    pub head: u32,
    pub low: i32,
    pub high: i32,
    pub records: Columns,
}

impl Page {
    /// A page of the row, with no record.
    pub fn empty(head: u32) -> Page
        ensures head { result.head ≡ head }
        ensures empty { result.records.items ≡ [] }
        ensures page { IsPage result }
    {
        Page {
            head,
            low: i32::MAX,
            high: i32::MIN,
            records: Columns::empty(),
        }
    }

    /// Adds a record.
    pub fn add(&mut self, added: Record)
        requires room { length self.old.records.items < 64 }
        requires page { IsPage self.old }
        ensures head { self.new.head ≡ self.old.head }
        ensures added { self.new.records.items ≡ self.old.records.items ++ added ∷ [] }
        ensures page { IsPage self.new }
    {
        self.low = lower(self.low, added.least);
        self.high = higher(self.high, added.least);
        self.records.push(added);
    }

    /// Takes a record out; the last one takes its place.
    pub fn take(&mut self, index: usize) -> Record
        requires inside { index < length self.old.records.items }
        requires page { IsPage self.old }
        ensures head { self.new.head ≡ self.old.head }
        ensures taken { result ≡ slice_index_or self.old.records.items index result }
        ensures left { self.new.records.items ≡ swap_remove self.old.records.items index result }
        ensures page { IsPage self.new }
    {
        self.records.swap_remove(index)
    }
}

fn lower(a: i32, b: i32) -> i32
    ensures { (result ≤ℤ a) × (result ≤ℤ b) }
{
    if a < b { a } else { b }
}

/// The higher of two least values.
pub fn higher(a: i32, b: i32) -> i32
    ensures upper { (a ≤ℤ result) × (b ≤ℤ result) }
    ensures either { (result ≡ a) ⊎ (result ≡ b) }
{
    if a < b { b } else { a }
}
