//! Numbers and values.

ghost use Rattle.std.specs.Prelude.{◌≡◌, ◌≤◌, ◌++◌, ◌&&◌, ◌||◌, not, ◌==◌, ◌^◌, IfSome, OnOk, OnErr, length, nat_le, nat_lt, pos, neg_ℤ, string_bytes, Some};
ghost use Rattle.std.specs.Prelude.{None, if◌then◌else◌};
ghost use Rattle.std.specs.Char.{is_ascii_digit};
ghost use Rattle.std.specs.List.{list_all};
ghost use Rattle.cstn_text.specs.Numbers.{is_numeral, number_read, number_within, value_read, printed_number, printed_value};

use itoa::Buffer;
use std::alloc::AllocError;

/// Reads a text as a number below 2^64: `0`, or digits that don't begin with `0`. None where the text is no such number.
pub fn read_number(bytes: &[u8]) -> Option<u64>
    ensures read { result ≡ number_read bytes.now }
{
    if !is_numeral(bytes) {
        return None;
    }
    let Ok(text) = str::from_utf8(bytes) else {
        return None;
    };
    text.parse().ok()
}

/// Reads a text as a number from `low` to `high`; none where it is no such number. Ids, places and moments are read with the
/// range from 0 to `u32::MAX`.
pub fn read_number_within(low: u32, high: u32, bytes: &[u8]) -> Option<u32>
    ensures read { result ≡ number_within low high bytes.now }
    ensures low { IfSome result (λ n. low ≤ n) }
    ensures high { IfSome result (λ n. n ≤ high) }
{
    let n = read_number(bytes)?;
    if n < low as u64 || n > high as u64 {
        return None;
    }
    Some(n as u32)
}

/// Appends the decimal digits of a number. It takes memory only for room in `text`. Where that is refused, `text` stays as it
/// was.
pub fn push_number(text: &mut String, n: u64) -> Result<(), AllocError>
    ensures pushed { OnOk result (string_bytes text.new ≡ string_bytes text.old ++ printed_number n) }
    ensures refused { OnErr result (string_bytes text.new ≡ string_bytes text.old) }
{
    let mut digits = Buffer::new();
    text.push_str(digits.format(n))
}

/// Appends the decimal digits of a value, after `-` where it is below 0. It takes memory only for room in `text`. Where that
/// is refused, `text` stays as it was.
pub fn push_value(text: &mut String, v: i32) -> Result<(), AllocError>
    ensures pushed { OnOk result (string_bytes text.new ≡ string_bytes text.old ++ printed_value v) }
    ensures refused { OnErr result (string_bytes text.new ≡ string_bytes text.old) }
{
    let mut digits = Buffer::new();
    text.push_str(digits.format(v))
}

/// Reads a text as a value from -2,147,483,648 to 2,147,483,647: `0`, or a number above 0 with or without `-` before it. None
/// where the text is no such value.
pub fn read_value(bytes: &[u8]) -> Option<i32>
    ensures read { result ≡ value_read bytes.now }
{
    match bytes {
        [] => None,
        [b'-', digits @ ..] => below_zero(read_number(digits)?),
        _ => from_zero(read_number(bytes)?),
    }
}

fn below_zero(n: u64) -> Option<i32>
    ensures { result ≡ (if nat_le 1 n && nat_le n (2 ^ 31) then Some (neg_ℤ (pos n)) else None) }
{
    if n < 1 || n > 2_147_483_648 {
        return None;
    }
    Some((-(n as i64)) as i32)
}

fn from_zero(n: u64) -> Option<i32>
    ensures { result ≡ (if nat_lt n (2 ^ 31) then Some (pos n) else None) }
{
    if n >= 2_147_483_648 {
        return None;
    }
    Some(n as i32)
}

fn is_numeral(bytes: &[u8]) -> bool
    ensures { result ≡ is_numeral bytes.now }
{
    match bytes {
        [] => false,
        [first, rest @ ..] => are_digits(bytes) && (*first != b'0' || rest.is_empty()),
    }
}

fn are_digits(bytes: &[u8]) -> bool
    ensures { result ≡ list_all is_ascii_digit bytes.now }
{
    bytes.iter().all(|b| b.is_ascii_digit())
}
