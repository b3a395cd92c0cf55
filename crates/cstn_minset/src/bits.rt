//! Words as sets of their bits.
ghost use Rattle.std.specs.Prelude.{ℕ, ◌≡◌, ◌<◌, ◌≤◌, nat_lt, not, ◌&&◌, cond, true, false, IfSome, IfNone};
ghost use Rattle.cstn_label.specs.Words.{has_bit};

// How many bits a word has.
const BITS: u32 = 64;

/// The word with bit i set where `on` is true, and clear where it is false.
pub fn with_bit(word: u64, i: u32, on: bool) -> u64
    requires { i < 64 }
    ensures here { has_bit result i ≡ on }
    ensures others { (k : ℕ) → (k ≡ i → ⊥) → has_bit result k ≡ has_bit word k }
{
    if on { word | 1 << i } else { word & !(1 << i) }
}

/// The word whose lowest `count` bits alone are set.
pub fn first_bits(count: u32) -> u64
    requires { count ≤ 64 }
    ensures { (k : ℕ) → has_bit result k ≡ nat_lt k count }
{
    if count == BITS {
        return u64::MAX;
    }
    (1 << count) - 1
}

/// The bits of a word that aren't set in another.
pub fn bits_without(word: u64, other: u64) -> u64
    ensures { (k : ℕ) → has_bit result k ≡ (has_bit word k && not (has_bit other k)) }
{
    word & !other
}

/// The word with bit i set where it is clear here, and clear where it is set.
pub fn with_flipped(word: u64, i: u32) -> u64
    requires { i < 64 }
    ensures here { has_bit result i ≡ not (has_bit word i) }
    ensures others { (k : ℕ) → (k ≡ i → ⊥) → has_bit result k ≡ has_bit word k }
{
    word ^ 1 << i
}

/// The bits that are set in one of two words alone.
pub fn bits_of_one(a: u64, b: u64) -> u64
    ensures { (k : ℕ) → has_bit result k ≡ cond (has_bit a k) (not (has_bit b k)) (has_bit b k) }
{
    a ^ b
}

/// The least bit at i or above that is set; None where none is.
pub fn first_bit_from(word: u64, i: u32) -> Option<u32>
    ensures set { IfSome result (λ k. has_bit word k ≡ true) }
    ensures from { IfSome result (λ k. i ≤ k) }
    ensures range { IfSome result (λ k. k < 64) }
    ensures least { IfSome result (λ k. (j : ℕ) → i ≤ j → j < k → has_bit word j ≡ false) }
    ensures none { IfNone result ((j : ℕ) → i ≤ j → has_bit word j ≡ false) }
{
    if i >= BITS {
        return None;
    }
    let rest = word >> i;
    if rest == 0 {
        return None;
    }
    Some(i + rest.trailing_zeros())
}

/// The word without its least bit. It has one.
pub fn without_least(word: u64) -> u64
    requires some { (i : ℕ) × (has_bit word i ≡ true) }
    ensures gone { (i : ℕ) → has_bit word i ≡ true → ((j : ℕ) → j < i → has_bit word j ≡ false) → has_bit result i ≡ false }
    ensures others { (i k : ℕ) → has_bit word i ≡ true → ((j : ℕ) → j < i → has_bit word j ≡ false) → (k ≡ i → ⊥) → has_bit result k ≡ has_bit word k }
{
    word & (word - 1)
}
