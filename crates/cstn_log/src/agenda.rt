// The places of entries that are still to be tried, of which the least comes first.
ghost use Rattle.std.specs.Prelude.{ℕ, ◌≡◌, ◌*◌, ◌<◌, ◌≤◌, ◌+◌, ◌/◌, true, false, length, IfNone, IfOk, IfSome};
ghost use Rattle.cstn_log.specs.Agendas.{has_place, AreUsed};

use crate::blocks::{Block, SIZE};
use crate::caps::Cap;
use std::alloc::{AllocError, Global};
use std::marker::Model;

// A set of places.
#[derive(Drop)]
pub struct Agenda {
    // Block k / 4096 tells whether the set has the place k.
    blocks: Vec<Block>,
    // Which blocks have a place.
    used: Block,
}

impl Model for Agenda {
    ghost use Rattle.std.specs.Prelude.{List, ℕ};
    ghost use Rattle.cstn_log.specs.Agendas.{AreUsed};

    ghost Value = { List (List ℕ) };

    ghost view = { λ a. a.blocks.items };

    ghost invariant = { λ a. AreUsed a.used a.blocks.items };
}

impl Agenda {
    // The set with no place, and with room for each place of a list of so many entries.
    pub fn start(alloc: Global, cap: Cap) -> Result<Agenda, AllocError>
        ensures room { IfOk result (λ a. cap.entries < 4096 * length a) }
    {
        let count = cap.entries / SIZE + 1;
        let blocks = empty_blocks(alloc, count)?;
        let used = Block::empty();
        Ok(Agenda { blocks, used })
    }

    // Puts a place into the set.
    pub fn insert(&mut self, k: u32)
        requires room { k < 4096 * length self.old }
        ensures here { has_place self.new k ≡ true }
        ensures others { (m : ℕ) → (m ≡ k → ⊥) → has_place self.new m ≡ has_place self.old m }
        ensures size { length self.new ≡ length self.old }
    {
        let row = k / SIZE;
        self.blocks[row as usize].insert(k % SIZE);
        self.used.insert(row);
    }

    // Takes the least place out of the set, and answers it; None exactly where the set has none.
    pub fn take_first(&mut self) -> Option<u32>
        ensures here { IfSome result (λ k. has_place self.old k ≡ true) }
        ensures least { IfSome result (λ k. (m : ℕ) → m < k → has_place self.old m ≡ false) }
        ensures gone { IfSome result (λ k. has_place self.new k ≡ false) }
        ensures others { IfSome result (λ k. (m : ℕ) → (m ≡ k → ⊥) → has_place self.new m ≡ has_place self.old m) }
        ensures none { IfNone result ((m : ℕ) → has_place self.old m ≡ false) }
        ensures size { length self.new ≡ length self.old }
    {
        let Some(row) = self.used.first() else {
            return None;
        };
        let Some(number) = self.blocks[row as usize].take_first() else {
            return None;
        };
        if let None = self.blocks[row as usize].first() {
            self.used.remove(row);
        }
        Some(row * SIZE + number)
    }

    // Takes all places out.
    pub fn clear(&mut self)
        ensures none { (k : ℕ) → has_place self.new k ≡ false }
        ensures size { length self.new ≡ length self.old }
    {
        while let Some(row) = self.used.take_first() {
            self.blocks[row as usize] = Block::empty();
        }
    }
}

// So many blocks with no number.
fn empty_blocks(alloc: Global, count: u32) -> Result<Vec<Block>, AllocError>
    ensures size { IfOk result (λ v. length v.items ≡ count) }
    ensures none { IfOk result (λ v. (k : ℕ) → has_place v.items k ≡ false) }
{
    let mut blocks = Vec::with_capacity(alloc, count as usize)?;
    for _ in 0..count {
        blocks.push(Block::empty())?;
    }
    Ok(blocks)
}
