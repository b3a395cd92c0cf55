ghost use Rattle.std.specs.Prelude.{ℕ, ◌≡◌, ◌<◌, ◌↔◌, true, false, not, slice_index_or};
ghost use Rattle.cstn_label.specs.declared.marks.Mark.TheVariants.{Absent};
ghost use Rattle.cstn_label.specs.Labels.{IsMarked};
ghost use Rattle.cstn_label.specs.Marks.{is_marked};
ghost use Rattle.cstn_label.specs.Read.{marks, mark_of};
ghost use Rattle.cstn_label.specs.Words.{has_bit};
ghost use Rattle.cstn_minset.specs.Sheets.{mark_in, IsInsideLabel, IsOutside, IsInNone, IsInAll};

use crate::bits::{bits_of_one, bits_without, first_bit_from, with_flipped, without_least};
use cstn_label::{Label, Prop, labels_are_their_marks};
use std::marker::Model;

/// The marks of 64 labels side by side: for each literal a word, whose bit i tells whether label i has it. So what is asked of
/// all labels takes a step for each proposition.
#[derive(Drop)]
pub struct Sheet {
    positive: [u64; 52],
    negative: [u64; 52],
}

impl Model for Sheet {
    ghost use Rattle.std.specs.Prelude.{◌≡◌, length};
    ghost use Rattle.cstn_minset.specs.Sheets.{Marks};

    ghost Value = { Marks };

    ghost view = { λ s. record { positive = s.positive; negative = s.negative } };

    ghost invariant = { λ s. (length s.positive ≡ 52) × (length s.negative ≡ 52) };
}

impl Sheet {
    /// 64 labels with no mark.
    pub fn empty() -> Sheet
        ensures { (p i : ℕ) → mark_in result p i ≡ Absent }
    {
        Sheet {
            positive: [0; 52],
            negative: [0; 52],
        }
    }

    /// Puts a label in the place of another.
    pub fn replace(&mut self, before: Label, after: Label, i: u32)
        requires small { i < 64 }
        requires before { (p : ℕ) → p < 52 → mark_in self.old p i ≡ marks before p }
        ensures after { (p : ℕ) → p < 52 → mark_in self.new p i ≡ marks after p }
        ensures others { (p k : ℕ) → (k ≡ i → ⊥) → mark_in self.new p k ≡ mark_in self.old p k }
    {
        labels_are_their_marks();
        let (before_positive, before_negative) = before.words();
        let (positive, negative) = after.words();
        flip_all(
            &mut self.positive,
            bits_of_one(before_positive, positive),
            i,
        );
        flip_all(
            &mut self.negative,
            bits_of_one(before_negative, negative),
            i,
        );
    }

    /// Of these labels, those that are within the other label. `used` is a label within which they all are.
    pub fn within(&self, front: u64, used: Label, label: Label) -> u64
        requires used { (i : ℕ) → IsInsideLabel self.now i (marks used) }
        ensures { (i : ℕ) → (has_bit result i ≡ true ↔ ((has_bit front i ≡ true) × IsInsideLabel self.now i (marks label))) }
    {
        labels_are_their_marks();
        let (used_positive, used_negative) = used.words();
        let (positive, negative) = label.words();
        let left = in_none(front, &self.positive, bits_without(used_positive, positive));
        in_none(left, &self.negative, bits_without(used_negative, negative))
    }

    /// Of these labels, those that the other label is within.
    pub fn above(&self, front: u64, label: Label) -> u64
        ensures { (i : ℕ) → (has_bit result i ≡ true ↔ ((has_bit front i ≡ true) × IsOutside self.now i (marks label))) }
    {
        labels_are_their_marks();
        let (positive, negative) = label.words();
        let left = in_all(front, &self.positive, positive);
        in_all(left, &self.negative, negative)
    }

    /// The labels that mark p.
    pub fn marking(&self, p: Prop) -> u64
        ensures { (i : ℕ) → has_bit result i ≡ is_marked (mark_in self.now p.index i) }
    {
        self.positive[p.index as usize] | self.negative[p.index as usize]
    }
}

// Of these bits, those that are in none of the words of the numbers.
fn in_none(front: u64, words: &[u64; 52], numbers: u64) -> u64
    requires { (p : ℕ) → has_bit numbers p ≡ true → p < 52 }
    ensures { (i : ℕ) → (has_bit result i ≡ true ↔ ((has_bit front i ≡ true) × IsInNone words.now numbers i)) }
{
    let mut any = 0;
    let mut rest = numbers;
    while let Some(p) = first_bit_from(rest, 0) {
        any |= words[p as usize];
        rest = without_least(rest);
    }
    bits_without(front, any)
}

// Of these bits, those that are in all of the words of the numbers.
fn in_all(front: u64, words: &[u64; 52], numbers: u64) -> u64
    requires { (p : ℕ) → has_bit numbers p ≡ true → p < 52 }
    ensures { (i : ℕ) → (has_bit result i ≡ true ↔ ((has_bit front i ≡ true) × IsInAll words.now numbers i)) }
{
    let mut left = front;
    let mut rest = numbers;
    while let Some(p) = first_bit_from(rest, 0) {
        let word = words[p as usize];
        left &= word;
        rest = without_least(rest);
    }
    left
}

// Flips bit i of each of the words of the numbers.
fn flip_all(words: &mut [u64; 52], numbers: u64, i: u32)
    requires small { i < 64 }
    requires numbers { (p : ℕ) → has_bit numbers p ≡ true → p < 52 }
    ensures flipped { (p : ℕ) → has_bit numbers p ≡ true → has_bit (slice_index_or words.new p 0) i ≡ not (has_bit (slice_index_or words.old p 0) i) }
    ensures kept { (p : ℕ) → has_bit numbers p ≡ false → slice_index_or words.new p 0 ≡ slice_index_or words.old p 0 }
    ensures others { (p k : ℕ) → (k ≡ i → ⊥) → has_bit (slice_index_or words.new p 0) k ≡ has_bit (slice_index_or words.old p 0) k }
{
    let mut rest = numbers;
    while let Some(p) = first_bit_from(rest, 0) {
        words[p as usize] = with_flipped(words[p as usize], i);
        rest = without_least(rest);
    }
}
