ghost use Rattle.std.specs.Prelude.{◌≡◌, ◌<◌, ◌≤◌, ◌+◌, ◌^◌, ℕ, Some, None, length, IfOk, slice_set, replicate};
ghost use Rattle.cstn_minset.specs.Chains.{SlotChains, key_of, IsIn, IsFirstKey};
ghost use Rattle.cstn_minset.specs.Links.{Ring, IsPrev, IsRing, AreLinks, AreOwnKeys, SameSize};

use crate::places::Places;
use std::alloc::{AllocError, Global};
use std::marker::Model;

/// Chains through a fixed number of slots, each slot in one chain at most.
///
/// Links hold only the order. Which slot is in which chain, and under which key, is said by a table
/// that their owner keeps; so each contract is about any table that these links fit. A slot takes
/// 8 bytes, and so does each chain.
#[derive(Drop)]
pub struct Links {
    // For each place the next one: behind a slot the next slot of its chain, or the end of the
    // chain, and behind an end the first slot. The end of chain h is the place `slots + h`.
    next: Places,
    prev: Places,
    slots: u32,
    heads: u32,
}

impl Model for Links {
    ghost use Rattle.cstn_minset.specs.Links.{Ring, IsRing};

    ghost Value = { Ring };

    ghost view = { λ r. record { slots = r.slots; heads = r.heads; next = r.next.places; prev = r.prev.places } };

    ghost invariant = { λ r. IsRing r.slots r.heads r.next r.prev };
}

impl Links {
    /// `heads` empty chains for `slots` slots. Fails for want of memory alone.
    pub fn start(alloc: Global, heads: u32, slots: u32) -> Result<Links, AllocError>
        requires { slots + heads < 2 ^ 32 }
        ensures size { IfOk result (λ links. (links.slots ≡ slots) × (links.heads ≡ heads)) }
        ensures linked { IfOk result (λ links. AreLinks links (replicate slots None)) }
    {
        let next = Places::start(alloc, heads, slots)?;
        let prev = Places::start(alloc, heads, slots)?;
        Ok(Links {
            next,
            prev,
            slots,
            heads,
        })
    }

    /// The chain's slot with the least key; None where the chain is empty, or past the last chain.
    pub fn first(&self, head: u32) -> Option<u32>
        ensures { (table : SlotChains) → AreLinks self.now table → IsFirstKey table head 0 result }
    {
        if self.heads <= head {
            return None;
        }
        let slot = self.next.at(self.slots + head);
        if slot < self.slots { Some(slot) } else { None }
    }

    /// The slot of the same chain with the next greater key; None behind the last.
    pub fn next(&self, slot: u32) -> Option<u32>
        requires { slot < self.now.slots }
        ensures { (table : SlotChains) (h k : ℕ) → AreLinks self.now table → IsIn table h slot k → IsFirstKey table h (k + 1) result }
    {
        let next = self.next.at(slot);
        if next < self.slots { Some(next) } else { None }
    }

    /// The place after the last slot of a chain.
    pub fn end(&self, head: u32) -> u32
        requires { head < self.now.heads }
        ensures { result ≡ self.now.slots + head }
    {
        self.slots + head
    }

    /// The place of the last slot of a chain below a slot, or the end of the chain. Each slot's key is its own number.
    pub fn last_below(&self, head: u32, slot: u32) -> u32
        requires head { head < self.now.heads }
        requires numbers { (table : SlotChains) × AreLinks self.now table × AreOwnKeys table }
        ensures before { (table : SlotChains) → AreLinks self.now table → AreOwnKeys table → IsPrev table self.now.slots self.now.heads head slot result }
        ensures inside { result < self.now.slots + self.now.heads }
    {
        let mut before = self.end(head);
        let mut place = self.first(head);
        while let Some(next) = place {
            if slot <= next {
                return before;
            }
            before = next;
            place = self.next(next);
        }
        before
    }

    /// Puts a slot behind a place.
    pub fn insert(&mut self, slot: u32, before: u32)
        requires slot { slot < self.old.slots }
        requires before { before < self.old.slots + self.old.heads }
        ensures size { SameSize self.old self.new }
        ensures linked { (table : SlotChains) (head key : ℕ) → AreLinks self.old table → head < self.old.heads → key < 2 ^ 128 → key_of table slot ≡ None
            → ((u : ℕ) → ¬ IsIn table head u key) → IsPrev table self.old.slots self.old.heads head key before
            → AreLinks self.new (slice_set table slot (Some (head, key))) }
    {
        let after = self.next.at(before);
        self.next.set(slot, after);
        self.next.set(before, slot);
        self.prev.set(slot, before);
        self.prev.set(after, slot);
    }

    /// Takes a slot out of its chain.
    pub fn remove(&mut self, slot: u32)
        requires { slot < self.old.slots }
        ensures size { SameSize self.old self.new }
        ensures linked { (table : SlotChains) (head key : ℕ) → AreLinks self.old table → IsIn table head slot key →
            AreLinks self.new (slice_set table slot None) }
    {
        let before = self.prev.at(slot);
        let after = self.next.at(slot);
        self.next.set(before, after);
        self.prev.set(after, before);
    }

    /// Takes all slots out.
    pub fn clear(&mut self)
        ensures size { SameSize self.old self.new }
        ensures linked { AreLinks self.new (replicate self.new.slots None) }
    {
        self.next.clear();
        self.prev.clear();
    }
}
