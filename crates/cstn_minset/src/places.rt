ghost use Rattle.std.specs.Prelude.{◌≡◌, ◌<◌, ◌+◌, ◌^◌, ℕ, length, IfOk, All, slice_set, slice_index_or};
ghost use Rattle.cstn_minset.specs.Links.{AreEnds};

use cstn_pool::blanks_fill_up_to_a_count;
use std::alloc::{AllocError, Global};
use std::marker::Model;

/// For each place, the place that it leads to. The first places are the slots, and those behind
/// them the ends of chains.
///
/// Memory for all slots is taken at once. Slots behind the last one that was used are not written,
/// and lead to place 0.
#[derive(Drop)]
pub struct Places {
    used: Vec<u32>,
    ends: Vec<u32>,
    slots: u32,
}

impl Model for Places {
    ghost use Rattle.std.specs.Prelude.{◌+◌, ◌<◌, ◌≤◌, ◌^◌, ◌++◌, length, vec_capacity};
    ghost use Rattle.cstn_pool.specs.Slots.{padded};
    ghost use Rattle.cstn_minset.specs.Links.{Leads};

    ghost Value = { Leads };

    ghost view = { λ p. record { slots = p.slots; places = padded 0 p.slots p.used.items ++ p.ends.items } };

    ghost invariant = { λ p. (length p.used.items ≤ p.slots) × (p.slots ≤ vec_capacity p.used) × (p.slots + length p.ends.items < 2 ^ 32) };
}

impl Places {
    /// Places of `slots` slots and `heads` ends, where each end leads to itself. Fails for want of
    /// memory alone.
    pub fn start(alloc: Global, heads: u32, slots: u32) -> Result<Places, AllocError>
        requires { slots + heads < 2 ^ 32 }
        ensures size { IfOk result (λ p. (p.slots ≡ slots) × (length p.places ≡ slots + heads)) }
        ensures ends { IfOk result (λ p. AreEnds slots heads p.places) }
        ensures inside { IfOk result (λ p. All (λ x. x < slots + heads) p.places) }
    {
        let used = Vec::with_capacity(alloc, slots as usize)?;
        let mut ends = Vec::with_capacity(alloc, heads as usize)?;
        for head in 0..heads {
            ends.push(slots + head)?;
        }
        Ok(Places { used, ends, slots })
    }

    /// Where a place leads.
    pub fn at(&self, place: u32) -> u32
        requires { place < length self.now.places }
        ensures { result ≡ slice_index_or self.now.places place 0 }
    {
        if self.slots <= place {
            return self.ends[(place - self.slots) as usize];
        }
        self.used.get(place as usize).copied().unwrap_or(0)
    }

    /// Lets a place lead to another.
    pub fn set(&mut self, place: u32, to: u32)
        requires { place < length self.old.places }
        ensures { self.new ≡ record self.old { places = slice_set self.old.places place to } }
    {
        if self.slots <= place {
            self.ends[(place - self.slots) as usize] = to;
            return;
        }
        blanks_fill_up_to_a_count::<u32>();
        let count = self.used.len().max(place as usize + 1);
        self.used.resize(count, 0).unwrap();
        self.used[place as usize] = to;
    }

    /// Lets the ends lead to themselves again.
    pub fn clear(&mut self)
        ensures size { (self.new.slots ≡ self.old.slots) × (length self.new.places ≡ length self.old.places) }
        ensures ends { (heads : ℕ) → length self.old.places ≡ self.old.slots + heads → AreEnds self.old.slots heads self.new.places }
        ensures inside { All (λ x. x < length self.old.places) self.new.places }
    {
        self.used.clear();
        for head in 0..self.ends.len() {
            self.ends[head] = self.slots + head as u32;
        }
    }
}
