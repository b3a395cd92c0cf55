//! Numbers as texts.

ghost use Rattle.std.specs.Prelude.{◌≡◌};
ghost use Rattle.cstn_element.specs.NumberTexts.{short_number, integer_text};

use cstn_markup::number;

/// The number that 1 to 10 decimal digits write, below the limit. None for any other text.
pub(crate) fn short_number(limit: u64, digits: &[u8]) -> Option<u64>
    ensures { result ≡ short_number limit digits.now }
{
    if digits.is_empty() || digits.len() > 10 {
        return None;
    }
    let n = number(10, digits)?;
    if n >= limit {
        return None;
    }
    Some(n)
}

/// The integer of 32 bits that 1 to 10 digits write, with `-` or U+2212 before them or no sign. None for any other text.
pub(crate) fn integer_text(bytes: &[u8]) -> Option<i32>
    ensures { result ≡ integer_text bytes.now }
{
    if let Some(digits) = bytes.strip_prefix(b"-") {
        let n = short_number(2147483649, digits)?;
        return Some((-(n as i64)) as i32);
    }
    if let Some(digits) = bytes.strip_prefix(&[226, 136, 146]) {
        let n = short_number(2147483649, digits)?;
        return Some((-(n as i64)) as i32);
    }
    let n = short_number(2147483648, bytes)?;
    Some(n as i32)
}
