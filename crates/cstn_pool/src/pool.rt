ghost use Rattle.std.specs.Prelude.{◌≡◌, ◌<◌, ◌≤◌, ◌+◌, ◌^◌, ◌↔◌, Some, None, length, IfOk, OnErr, IsErr, IsOk, IsSome, ℕ, List, IfNone, IfSome, []};
ghost use Rattle.std.specs.Prelude.{slice_set, slice_get, slice_index_or, replicate};
ghost use Rattle.cstn_pool.specs.Slots.{Slots, IsBorn, live_of, value_at, joined_slots};
ghost use Rattle.cstn_pool.specs.Calls.{PoolCall, Take, Give, Clear, AfterCall, AfterCalls};

use crate::slot_id::SlotId;
use std::alloc::{AllocError, Global};
use std::marker::Model;
use thiserror::Error;

// The birth of a slot that came back.
const FREE: u64 = u64::MAX;

/// Every slot of the pool is in use.
#[derive(Clone, Copy, Debug, PartialEq, Eq, Error)]
#[error("every slot of the pool is in use")]
pub struct Full;

/// A fixed number of slots, each free or holding one value under its [`SlotId`].
///
/// All memory is taken by [`Pool::start`]: a slot takes the bytes of a `T`, 8 for its birth and 4
/// for the free list. Every other call takes none. `take`, `get` and `give` cost the same however
/// full the pool is; `start` and `clear` cost nothing for a slot that was never used.
#[derive(Drop)]
pub struct Pool<T: Copy> {
    // The births and the values of the slots that were used since the pool was empty. The others
    // are empty and not yet written, and a new slot is the next of them.
    born: Vec<u64>,
    values: Vec<T>,
    // Those of the used slots that came back. What `values` has for them means nothing.
    free: Vec<u32>,
    capacity: u32,
    births: u64,
}

impl<T: Copy> Model for Pool<T> {
    ghost use Rattle.std.specs.Prelude.{vec_capacity, None};
    ghost use Rattle.cstn_pool.specs.Slots.{Slots, IsPool, joined_slots, padded};

    ghost Value = { Slots T };

    ghost view = { λ p. record { slots = padded None p.capacity (joined_slots p.born.items p.values.items); births = p.births } };

    ghost invariant = { λ p. IsPool p.capacity p.born.items p.values.items p.free.items p.births
        (record { born = vec_capacity p.born; values = vec_capacity p.values; free = vec_capacity p.free }) };
}

impl<T: Copy> Pool<T> {
    /// An empty pool of this many slots, which may be 0. Fails for want of memory alone.
    pub fn start(alloc: Global, capacity: u32) -> Result<Pool<T>, AllocError>
        ensures empty { IfOk result (λ pool. pool ≡ record { slots = replicate capacity None; births = 0 }) }
    {
        let born = Vec::with_capacity(alloc, capacity as usize)?;
        let values = Vec::with_capacity(alloc, capacity as usize)?;
        let free = Vec::with_capacity(alloc, capacity as usize)?;
        Ok(Pool {
            born,
            values,
            free,
            capacity,
            births: 0,
        })
    }

    /// Puts a value into a free slot under a birth that was never used before, and returns its id.
    /// `Full` exactly where no slot is free; then nothing changes.
    pub fn take(&mut self, value: T) -> Result<SlotId, Full>
        requires { self.old.births < 2 ^ 63 }

        ensures full { IsErr result ↔ (live_of self.old.slots ≡ length self.old.slots) }
        ensures refused { OnErr result (self.new ≡ self.old) }
        ensures births { self.old.births ≤ self.new.births }

        ensures empty { IfOk result (λ id. slice_get self.old.slots id.slot ≡ Some None) }
        ensures birth { IfOk result (λ id. id.birth ≡ self.old.births) }
        ensures taken { IfOk result (λ id. self.new
            ≡ record { slots = slice_set self.old.slots id.slot (Some (id.birth, value)); births = self.old.births + 1 }) }
        ensures step { AfterCall (Take value) self.old self.new }

        // After any calls there is room up to the capacity, whichever slots were given back.
        ensures after_calls { (capacity : ℕ) (calls : List (PoolCall T)) → AfterCalls calls (record { slots = replicate capacity None; births = 0 }) self.old
            → (IsOk result ↔ (live_of self.old.slots < capacity)) }
    {
        let birth = self.births;
        if let Some(slot) = self.free.pop() {
            self.births += 1;
            self.born[slot as usize] = birth;
            self.values[slot as usize] = value;
            return Ok(SlotId { slot, birth });
        }
        let slot = self.born.len() as u32;
        if slot == self.capacity {
            return Err(Full);
        }
        self.births += 1;
        self.born.push_reserved(birth);
        self.values.push_reserved(value);
        Ok(SlotId { slot, birth })
    }

    /// The value under this id; `None` exactly where its slot doesn't hold a value of its birth.
    pub fn get(&self, id: SlotId) -> Option<T>
        ensures value { result ≡ value_at self.now.slots id.slot id.birth }
        ensures births { IsBorn self.now.births self.now.slots }
    {
        value_in(&self.born, &self.values, id)
    }

    /// The value in a slot that holds one.
    pub fn at(&self, slot: u32) -> &T
        requires { IsSome (slice_index_or self.now.slots slot None) }
        ensures { (birth : ℕ) × (slice_index_or self.now.slots slot None ≡ Some (birth, result.now)) }
    {
        &self.values[slot as usize]
    }

    /// The id of the value in a slot that holds one.
    pub fn id(&self, slot: u32) -> SlotId
        requires { IsSome (slice_index_or self.now.slots slot None) }
        ensures slot { result.slot ≡ slot }
        ensures birth { (value : T) × (slice_index_or self.now.slots slot None ≡ Some (result.birth, value)) }
    {
        SlotId {
            slot,
            birth: self.born[slot as usize],
        }
    }

    /// Gives the slot back and returns the value; `None`, and nothing changes, exactly where `get`
    /// returns `None`.
    pub fn give(&mut self, id: SlotId) -> Option<T>
        ensures value { result ≡ value_at self.old.slots id.slot id.birth }
        ensures none { IfNone result (self.new ≡ self.old) }
        ensures births { self.old.births ≤ self.new.births }
        ensures given { IsSome result → self.new ≡ record self.old { slots = slice_set self.old.slots id.slot None } }
        ensures step { AfterCall (Give id.slot id.birth) self.old self.new }
    {
        let value = self.get(id)?;
        self.born[id.slot as usize] = FREE;
        self.free.push_reserved(id.slot);
        Some(value)
    }

    /// How many values the pool holds.
    pub fn live(&self) -> u32
        ensures live { result ≡ live_of self.now.slots }
        ensures at_most { result ≤ length self.now.slots }
    {
        (self.born.len() - self.free.len()) as u32
    }

    /// Empties the pool. Births go on from where they were.
    pub fn clear(&mut self)
        ensures cleared { self.new ≡ record self.old { slots = replicate (length self.old.slots) None } }
        ensures step { AfterCall Clear self.old self.new }
        ensures births { self.old.births ≤ self.new.births }
    {
        self.born.clear();
        self.values.clear();
        self.free.clear();
    }
}

// The value under this id among the used slots.
fn value_in<T: Copy>(born: &[u64], values: &[T], id: SlotId) -> Option<T>
    requires { length born.now ≡ length values.now }
    ensures { result ≡ value_at (joined_slots born.now values.now) id.slot id.birth }
{
    match born.get(id.slot as usize) {
        Some(birth) if *birth == id.birth && *birth != FREE => Some(values[id.slot as usize]),
        _ => None,
    }
}
