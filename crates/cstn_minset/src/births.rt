ghost use Rattle.std.specs.Prelude.{◌≡◌, ◌<◌, ◌≤◌, ℕ, length, IfOk, slice_set, slice_index_or, replicate};
ghost use Rattle.cstn_minset.specs.Sets.{no_birth, birth_at};

use cstn_pool::blanks_fill_up_to_a_count;
use std::alloc::{AllocError, Global};
use std::marker::Model;

/// Stands for no birth.
pub const NO_BIRTH: u64 = u64::MAX;

/// For each slot a birth, or none.
///
/// Memory for all slots is taken at once. Slots behind the last one that was used are not written,
/// and have none.
#[derive(Drop)]
pub struct Births {
    used: Vec<u64>,
    capacity: u32,
}

impl Model for Births {
    ghost use Rattle.std.specs.Prelude.{ℕ, List, ◌<◌, ◌≤◌, ◌^◌, length, vec_capacity};
    ghost use Rattle.cstn_pool.specs.Slots.{padded};
    ghost use Rattle.cstn_minset.specs.Sets.{no_birth};

    ghost Value = { List ℕ };

    ghost view = { λ b. padded no_birth b.capacity b.used.items };

    ghost invariant = { λ b. (length b.used.items ≤ b.capacity) × (b.capacity ≤ vec_capacity b.used) × (b.capacity < 2 ^ 32) };
}

impl Births {
    /// `capacity` slots without a birth. Fails for want of memory alone.
    pub fn start(alloc: Global, capacity: u32) -> Result<Births, AllocError>
        ensures { IfOk result (λ births. births ≡ replicate capacity no_birth) }
    {
        let used = Vec::with_capacity(alloc, capacity as usize)?;
        Ok(Births { used, capacity })
    }

    /// The number of slots.
    pub fn len(&self) -> u32
        ensures { result ≡ length self.now }
    {
        self.capacity
    }

    /// The birth of a slot. Any number may be asked for; past the last slot there is none.
    pub fn at(&self, slot: u32) -> u64
        ensures { result ≡ birth_at self.now slot }
    {
        self.used.get(slot as usize).copied().unwrap_or(NO_BIRTH)
    }

    /// Writes the birth of a slot.
    pub fn set(&mut self, slot: u32, birth: u64)
        requires { slot < length self.old }
        ensures { self.new ≡ slice_set self.old slot birth }
    {
        blanks_fill_up_to_a_count::<u64>();
        let count = self.used.len().max(slot as usize + 1);
        self.used.resize(count, NO_BIRTH).unwrap();
        self.used[slot as usize] = birth;
    }

    /// Leaves every slot without a birth.
    pub fn clear(&mut self)
        ensures { self.new ≡ replicate (length self.old) no_birth }
    {
        self.used.clear();
    }
}
