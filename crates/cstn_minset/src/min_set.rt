ghost use Rattle.std.specs.Prelude.{◌≡◌, ◌⊎◌, ◌<◌, ◌≤◌, ◌+◌, ◌^◌, ◌↔◌, ℕ, Some, None, false, length, IsTrue, IfOk, IsSome, IfSome, IfNone, slice_set};
ghost use Rattle.std.specs.Prelude.{slice_index_or, replicate, map, pos, All, vec_capacity, if◌then◌else◌};
ghost use Rattle.std.specs.List.{Contains};
ghost use Rattle.cstn_label.specs.Labels.{without};
ghost use Rattle.cstn_label.specs.Read.{marks};
ghost use Rattle.cstn_minset.specs.Sets.{Places, Entries, entry_at, IsPlaced, IsThere, IsBoundOver, IsCoveredInSet, IsCleared, AllBornBefore, IsAt};
ghost use Rattle.cstn_minset.specs.Sets.{IsMarking, IsEarliestOfKind};
ghost use Rattle.cstn_minset.specs.Sets.{IsFirstSlot, IsMinimal, SetHasLeast, IsSoughtAbove};

use crate::births::{Births, NO_BIRTH};
use crate::columns::Record;
use crate::gather::{Above, greatest_within, greatest_without, row_marks, slots_above};
use crate::passes::{Sought, earliest};
use crate::rows::Rows;
use crate::scan::{bound_in, place_under, slot_over};
use cstn_label::{Bound, Label, NodeId, Prop, labels_are_their_marks};
use cstn_pool::SlotId;
use std::alloc::{AllocError, Global};
use std::marker::Model;

/// Bounds of which none dominates another, each under the id of a pool's slot.
///
/// All memory is taken by [`MinSet::start`]: 47 bytes a slot, of which 39 are for the rows of records in which the bounds of a
/// time-point are looked for and 8 for the birth, and 2,424 for each time-point. No other call takes any.
#[derive(Drop)]
pub struct MinSet {
    // For each time-point a record of each of its bounds.
    rows: Rows,
    // The birth of the bound in each slot, and NO_BIRTH where there is none.
    births: Births,
    nodes: u16,
}

impl Model for MinSet {
    ghost use Rattle.cstn_minset.specs.Sets.{Places, IsStored, entries_of};

    ghost Value = { Places };

    ghost view = { λ m. record { nodes = m.nodes; table = entries_of m.births m.rows } };

    ghost invariant = { λ m. IsStored m.births m.rows m.nodes (entries_of m.births m.rows) };
}

impl MinSet {
    /// An empty set over this many time-points and slots. Fails for want of memory alone.
    pub fn start(alloc: Global, nodes: u16, capacity: u32) -> Result<MinSet, AllocError>
        ensures empty { IfOk result (λ set. set ≡ record { nodes = nodes; table = replicate capacity None }) }
    {
        let births = Births::start(alloc, capacity)?;
        let rows = Rows::start(alloc, nodes, capacity)?;
        Ok(MinSet {
            rows,
            births,
            nodes,
        })
    }

    /// Whether some entry dominates the bound.
    pub fn covers(&self, b: &Bound) -> bool
        ensures covers { IsTrue result ↔ IsCoveredInSet self.now.table b.now }
        ensures minimal { IsMinimal self.now.nodes self.now.table }
        ensures one_for_each { (s t : ℕ) (e f : ℕ × Bound) → IsPlaced self.now.table s e → IsPlaced self.now.table t f → e.1.node.0 ≡ f.1.node.0
            → e.1.label ≡ f.1.label → s ≡ t }
    {
        self.cover(b).is_some()
    }

    /// The id of an entry that dominates the bound; None exactly where no entry does.
    pub fn cover(&self, b: &Bound) -> Option<SlotId>
        ensures cover { IfSome result (λ id. (c : Bound) × IsPlaced self.now.table id.slot (id.birth, c) × IsBoundOver c b.now) }
        ensures none { IfNone result (¬ IsCoveredInSet self.now.table b.now) }
        ensures minimal { IsMinimal self.now.nodes self.now.table }
    {
        labels_are_their_marks();
        match slot_over(&self.rows, b) {
            Some(slot) => Some(self.id(slot)),
            None => None,
        }
    }

    /// Puts a bound in under a new id, and takes those out that it dominates.
    pub fn place(&mut self, b: &Bound, id: SlotId)
        requires uncovered { ¬ IsCoveredInSet self.old.table b.now }
        requires node { b.now.node.0 < self.old.nodes }
        requires slot { id.slot < length self.old.table }
        requires free { entry_at self.old.table id.slot ≡ None }
        requires birth { AllBornBefore self.old.table id.birth }
        ensures placed { (cleared : Entries) × IsCleared b.now self.old.table cleared
            × (self.new ≡ record self.old { table = slice_set cleared id.slot (Some (id.birth, b.now)) }) }
        ensures covering_grows { (c : Bound) → IsCoveredInSet self.old.table c → IsCoveredInSet self.new.table c }
    {
        labels_are_their_marks();
        while self.take_under(b) {}
        self.put(*b, id.slot, id.birth);
    }

    // Takes out an entry that the bound dominates; false where it dominates none.
    fn take_under(&mut self, b: &Bound) -> bool
        ensures taken { IsTrue result → (s : ℕ) × (e : ℕ × Bound) × IsPlaced self.old.table s e × IsBoundOver b.now e.1
            × (self.new ≡ record self.old { table = slice_set self.old.table s None }) }
        ensures none { result ≡ false → (self.new ≡ self.old) × ((s : ℕ) (e : ℕ × Bound) → IsPlaced self.old.table s e → ¬ IsBoundOver b.now e.1) }
        ensures minimal { IsMinimal self.old.nodes self.old.table }
    {
        labels_are_their_marks();
        match place_under(&self.rows, b) {
            Some((page, index)) => {
                let kept = self.rows.take(page, index);
                self.births.set(kept.slot, NO_BIRTH);
                true
            }
            None => false,
        }
    }

    fn put(&mut self, b: Bound, slot: u32, birth: u64)
        requires uncovered { ¬ IsCoveredInSet self.old.table b }
        requires none_under { (u : ℕ) (e : ℕ × Bound) → IsPlaced self.old.table u e → ¬ IsBoundOver b e.1 }
        requires node { b.node.0 < self.old.nodes }
        requires slot { slot < length self.old.table }
        requires free { entry_at self.old.table slot ≡ None }
        requires birth { AllBornBefore self.old.table birth }
        ensures { self.new ≡ record self.old { table = slice_set self.old.table slot (Some (birth, b)) } }
    {
        let record = Record {
            label: b.label,
            least: b.least,
            slot,
        };
        self.rows.put(b.node.0 as u32, record);
        self.births.set(slot, birth);
    }

    // The bound in a slot.
    fn bound(&self, slot: u32) -> Bound
        requires { IsSome (entry_at self.now.table slot) }
        ensures bound { (e : ℕ × Bound) → IsPlaced self.now.table slot e → result ≡ e.1 }
        ensures minimal { IsMinimal self.now.nodes self.now.table }
    {
        self.entry(slot).unwrap().1
    }

    // The id of the entry in a slot.
    fn id(&self, slot: u32) -> SlotId
        ensures slot { result.slot ≡ slot }
        ensures birth { (e : ℕ × Bound) → IsPlaced self.now.table slot e → result.birth ≡ e.0 }
    {
        SlotId {
            slot,
            birth: self.births.at(slot),
        }
    }

    /// The id of the time-point's entry with the least birth; None where it has no entry.
    pub fn first(&self, node: NodeId) -> Option<SlotId>
        ensures first { IsEarliestOfKind self.now.table (IsAt node.0) 0 result }
    {
        self.first_from(node, 0)
    }

    /// The id of the same time-point's entry with the next birth; None behind the last.
    pub fn next(&self, id: SlotId) -> Option<SlotId>
        requires { IsThere self.now.table id }
        ensures next { (b : Bound) → IsPlaced self.now.table id.slot (id.birth, b) → IsEarliestOfKind self.now.table (IsAt b.node.0) (id.birth + 1) result }
    {
        let node = self.bound(id.slot).node;
        match id.birth.checked_add(1) {
            Some(birth) => self.first_from(node, birth),
            None => None,
        }
    }

    /// The id of the time-point's entry with the least birth that is at least this one; None where
    /// there is none. Looks at every bound once.
    pub fn first_from(&self, node: NodeId, birth: u64) -> Option<SlotId>
        ensures first { IsEarliestOfKind self.now.table (IsAt node.0) birth result }
    {
        earliest(&self.rows, &self.births, Sought::At(node), birth)
    }

    /// Of the entries of all time-points, those whose label marks the proposition: the id of the one
    /// with the least birth that is at least this one; None where there is none. Looks at every
    /// bound once.
    pub fn marked_from(&self, p: Prop, birth: u64) -> Option<SlotId>
        ensures first { IsEarliestOfKind self.now.table (IsMarking p.index) birth result }
    {
        earliest(&self.rows, &self.births, Sought::Marking(p), birth)
    }

    /// Takes out the bound under this id; false where none is placed under it.
    pub fn lift(&mut self, id: SlotId) -> bool
        ensures placed { IsTrue result ↔ IsThere self.old.table id }
        ensures lifted { self.new ≡ (if result then record self.old { table = slice_set self.old.table id.slot None } else self.old) }
    {
        if !self.holds(id) {
            return false;
        }
        let b = self.bound(id.slot);
        // It dominates no entry but its own.
        self.take_under(&b);
        true
    }

    /// Whether a bound is placed under this id.
    pub fn holds(&self, id: SlotId) -> bool
        ensures holds { IsTrue result ↔ IsThere self.now.table id }
        ensures minimal { IsMinimal self.now.nodes self.now.table }
    {
        let birth = self.births.at(id.slot);
        if birth != id.birth {
            return false;
        }
        if birth != NO_BIRTH {
            return true;
        }
        // A bound may have the birth that stands for none.
        self.entry(id.slot).is_some()
    }

    // The birth and the bound in a slot. Any number may be asked for; past the table it is None.
    fn entry(&self, slot: u32) -> Option<(u64, Bound)>
        ensures entry { result ≡ entry_at self.now.table slot }
        ensures minimal { IsMinimal self.now.nodes self.now.table }
    {
        match bound_in(&self.rows, slot) {
            Some(b) => Some((self.births.at(slot), b)),
            None => None,
        }
    }

    /// The greatest least value of an entry at the time-point whose label is within this one, or 0 where that is lower.
    pub fn floor(&self, node: NodeId, label: Label) -> i32
        ensures floor { (result ≡ pos 0) ⊎ SetHasLeast self.now.table node.0 (marks label) result }
    {
        greatest_within(&self.rows, node, label)
    }

    /// For each proposition that the label marks, the greatest least value of an entry at the time-point whose label is within this
    /// one without that mark, or 0 where that is lower.
    pub fn floors(&self, node: NodeId, label: Label) -> [i32; 52]
        ensures floors { (p : ℕ) → p < 52 → (slice_index_or result p (pos 0) ≡ pos 0)
            ⊎ SetHasLeast self.now.table node.0 (without (marks label) p) (slice_index_or result p (pos 0)) }
    {
        greatest_without(&self.rows, node, label)
    }

    /// Writes down the slots of the entries at the time-point with least values above the floor, and of these only of those whose
    /// labels mark the proposition, if one is given.
    pub fn slots_above(&self, node: NodeId, floor: i32, marking: Option<Prop>, found: &mut Vec<u32>)
        requires room { length self.now.table ≤ vec_capacity found.old }
        ensures all { (s : ℕ) (e : ℕ × Bound) → IsPlaced self.now.table s e → IsSoughtAbove node.0 floor marking e.1 → Contains found.new.items s }
        ensures only { All (λ s. (e : ℕ × Bound) × IsPlaced self.now.table s e × IsSoughtAbove node.0 floor marking e.1) found.new.items }
        ensures capacity { vec_capacity found.new ≡ vec_capacity found.old }
    {
        slots_above(&self.rows, node, Above { floor, marking }, found);
    }

    /// Whether an entry at the time-point may mark p; false only where none does.
    pub fn may_mark(&self, node: NodeId, p: Prop) -> bool
        ensures none { result ≡ false → (s : ℕ) (e : ℕ × Bound) → IsPlaced self.now.table s e → IsAt node.0 e.1 → ¬ IsMarking p.index e.1 }
    {
        row_marks(&self.rows, node, p)
    }

    /// Takes all bounds out.
    pub fn clear(&mut self)
        ensures { self.new ≡ record self.old { table = replicate (length self.old.table) None } }
    {
        self.rows.clear();
        self.births.clear();
    }
}
