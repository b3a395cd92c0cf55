// Sets of numbers below 4,096, as bits. The least number of a set is found in a few steps.
ghost use Rattle.std.specs.Prelude.{ℕ, ◌≡◌, ◌<◌, true, false, IfNone, IfSome};
ghost use Rattle.cstn_log.specs.Blocks.{has_number};

use crate::bits::{BITS, first_bit_from, with_bit};
use std::marker::Model;

// How many numbers there are.
pub const SIZE: u32 = 4096;

// A set of numbers below 4,096.
#[derive(Drop)]
pub struct Block {
    // Bit k % 64 of the word k / 64 tells whether the set has k.
    words: [u64; 64],
    // Which words have a bit.
    rows: u64,
}

impl Model for Block {
    ghost use Rattle.std.specs.Prelude.{List, ℕ};
    ghost use Rattle.cstn_log.specs.Blocks.{AreSummed};

    ghost Value = { List ℕ };

    ghost view = { λ b. b.words };

    ghost invariant = { λ b. AreSummed b.rows b.words };
}

impl Block {
    // The set with no number.
    pub fn empty() -> Block
        ensures empty { (k : ℕ) → has_number result k ≡ false }
    {
        Block {
            words: [0; 64],
            rows: 0,
        }
    }

    // Puts a number into the set.
    pub fn insert(&mut self, k: u32)
        requires { k < 4096 }
        ensures here { has_number self.new k ≡ true }
        ensures others { (m : ℕ) → (m ≡ k → ⊥) → has_number self.new m ≡ has_number self.old m }
    {
        let row = k / BITS;
        self.words[row as usize] = with_bit(self.words[row as usize], k % BITS, true);
        self.rows = with_bit(self.rows, row, true);
    }

    // Takes the least number out of the set, and answers it; None exactly where the set has none.
    pub fn take_first(&mut self) -> Option<u32>
        ensures here { IfSome result (λ k. has_number self.old k ≡ true) }
        ensures small { IfSome result (λ k. k < 4096) }
        ensures least { IfSome result (λ k. (m : ℕ) → m < k → has_number self.old m ≡ false) }
        ensures gone { IfSome result (λ k. has_number self.new k ≡ false) }
        ensures others { IfSome result (λ k. (m : ℕ) → (m ≡ k → ⊥) → has_number self.new m ≡ has_number self.old m) }
        ensures none { IfNone result ((m : ℕ) → has_number self.old m ≡ false) }
        ensures stays { IfNone result (self.new ≡ self.old) }
    {
        match self.first() {
            None => None,
            Some(k) => {
                self.remove(k);
                Some(k)
            }
        }
    }

    // The least number of the set; None exactly where it has none.
    pub fn first(&self) -> Option<u32>
        ensures here { IfSome result (λ k. has_number self.now k ≡ true) }
        ensures small { IfSome result (λ k. k < 4096) }
        ensures least { IfSome result (λ k. (m : ℕ) → m < k → has_number self.now m ≡ false) }
        ensures none { IfNone result ((m : ℕ) → has_number self.now m ≡ false) }
    {
        match first_bit_from(self.rows, 0) {
            None => None,
            Some(row) => match first_bit_from(self.words[row as usize], 0) {
                None => None,
                Some(bit) => Some(row * BITS + bit),
            },
        }
    }

    // Takes a number out of the set.
    pub fn remove(&mut self, k: u32)
        requires { k < 4096 }
        ensures gone { has_number self.new k ≡ false }
        ensures others { (m : ℕ) → (m ≡ k → ⊥) → has_number self.new m ≡ has_number self.old m }
    {
        let row = k / BITS;
        let word = with_bit(self.words[row as usize], k % BITS, false);
        self.words[row as usize] = word;
        if let None = first_bit_from(word, 0) {
            self.rows = with_bit(self.rows, row, false);
        }
    }
}
