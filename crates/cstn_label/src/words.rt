// Words as sets of their bits.
ghost use Rattle.std.specs.Prelude.{ℕ, ◌≡◌, ◌<◌, ◌≤◌, ◌^◌, ◌==◌, true, false, cond, ◌↔◌, IsTrue, IfSome, IfNone};
ghost use Rattle.cstn_label.specs.Words.{has_bit, IsApart, IsInside};

use crate::Prop;

// The bits of the 52 propositions.
pub const MEANT: u64 = 0xf_ffff_ffff_ffff;

// No bit is set in both words.
pub fn are_apart(a: u64, b: u64) -> bool
    ensures { IsTrue result ↔ IsApart a b }
{
    a & b == 0
}

// Each bit that is set in a is set in b.
pub fn is_inside(a: u64, b: u64) -> bool
    ensures { IsTrue result ↔ IsInside a b }
{
    a & !b == 0
}

// Each bit that is set in a is set in b, and each that is set in c is set in d.
pub fn are_inside(a: u64, b: u64, c: u64, d: u64) -> bool
    ensures { IsTrue result ↔ (IsInside a b × IsInside c d) }
{
    (a & !b) | (c & !d) == 0
}

// Bit i is set.
pub fn has_bit(word: u64, i: u8) -> bool
    requires { i < 52 }
    ensures { result ≡ has_bit word i }
{
    word >> i & 1 == 1
}

// The word with bit i set where `on` is true, and clear where it is false.
pub fn with_bit(word: u64, i: u8, on: bool) -> u64
    requires { i < 52 }
    ensures bits { (k : ℕ) → has_bit result k ≡ cond (k == i) on (has_bit word k) }
    ensures range { word < 2 ^ 52 → result < 2 ^ 52 }
{
    if on { word | 1 << i } else { word & !(1 << i) }
}

// The least bit at i or above that is set; none where none is.
pub fn first_bit_from(word: u64, i: u8) -> Option<u8>
    requires { word < 2 ^ 52 }
    ensures set { IfSome result (λ k. has_bit word k ≡ true) }
    ensures from { IfSome result (λ k. i ≤ k) }
    ensures range { IfSome result (λ k. k < 52) }
    ensures least { IfSome result (λ k. (j : ℕ) → i ≤ j → j < k → has_bit word j ≡ false) }
    ensures none { IfNone result ((j : ℕ) → i ≤ j → has_bit word j ≡ false) }
{
    if i >= Prop::COUNT {
        return None;
    }
    let rest = word >> i;
    if rest == 0 {
        return None;
    }
    Some(i + rest.trailing_zeros() as u8)
}
