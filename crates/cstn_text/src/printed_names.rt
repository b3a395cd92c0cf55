//! Names as they stand in lines: what a line can't hold is written as `%` and two hexadecimal digits.

ghost use Rattle.std.specs.Prelude.{◌≡◌, ◌<◌, ◌++◌, ◌∷◌, [], ℕ, List, string_bytes, IfOk, OnOk, IfSome, IfNone, None, true};
ghost use Rattle.std.specs.Fmt.{digit_glyph};
ghost use Rattle.std.specs.Option.{option_map};
ghost use Rattle.cstn_text.specs.Names.{IsName};
ghost use Rattle.cstn_text.specs.PrintedNames.{is_plain_byte, printed_byte, printed_name, hex_value, name_read};

use crate::names::has_shape;
use arrayvec::ArrayVec;
use std::alloc::{AllocError, Global};

/// The printed form of a name, or of any other text.
pub fn print_name(alloc: Global, name: &str) -> Result<String, AllocError>
    ensures printed { IfOk result (λ text. string_bytes text ≡ printed_name name.now) }
{
    let mut bytes = Vec::with_capacity(alloc, name.len())?;
    for b in name.as_bytes() {
        push_byte(&mut bytes, *b)?;
    }
    Ok(String::from_utf8(bytes).unwrap())
}

/// The name whose printed form the bytes are; none where they are no name's. It looks at 195 bytes at most, 3 for each byte
/// of a name and 3 past them, and takes memory for the name alone.
pub fn read_name(alloc: Global, bytes: &[u8]) -> Result<Option<String>, AllocError>
    ensures read { IfOk result (λ name. option_map string_bytes name ≡ name_read bytes.now) }
{
    let Some(text) = unprinted(bytes) else {
        return Ok(None);
    };
    let Some(name) = as_name(text.as_slice()) else {
        return Ok(None);
    };
    Ok(Some(String::from_str(alloc, name)?))
}

/// The text as a name; none where it isn't UTF-8 of 1 to 64 bytes.
pub(crate) fn as_name(text: &[u8]) -> Option<&str>
    ensures some { IfSome result (λ name. (name.now ≡ text.now) × IsName text.now) }
    ensures none { IfNone result (IsName text.now → ⊥) }
{
    let Ok(name) = str::from_utf8(text) else {
        return None;
    };
    if !has_shape(name) {
        return None;
    }
    Some(name)
}

/// The text whose printed form these bytes are; none where there is no such text of at most 64 bytes.
pub(crate) fn unprinted(bytes: &[u8]) -> Option<ArrayVec<u8, 64>>
    ensures printed { IfSome result (λ text. printed_name text.items ≡ bytes.now) }
    ensures none { IfNone result (name_read bytes.now ≡ None) }
{
    let mut text = ArrayVec::new();
    let mut left = bytes;
    while !left.is_empty() {
        let (b, rest) = first_printed(left)?;
        if text.is_full() {
            return None;
        }
        text.push(b);
        left = rest;
    }
    Some(text)
}

// The byte whose printed form stands first, and what follows it; none where no byte's printed form stands first.
fn first_printed(bytes: &[u8]) -> Option<(u8, &[u8])>
    ensures first { IfSome result (λ r. bytes.now ≡ printed_byte r.0 ++ r.1.now) }
    ensures none { IfNone result ((b : ℕ) (rest : List ℕ) → bytes.now ≡ printed_byte b ++ rest → ⊥) }
{
    match bytes {
        [b'%', high, low, rest @ ..] => Some((escaped_byte(*high, *low)?, rest)),
        [b, rest @ ..] if is_plain_byte(*b) => Some((*b, rest)),
        _ => None,
    }
}

// The byte that is printed as `%` and these two digits; none where no byte is.
fn escaped_byte(high: u8, low: u8) -> Option<u8>
    ensures byte { IfSome result (λ b. printed_byte b ≡ 37 ∷ high ∷ low ∷ []) }
    ensures none { IfNone result ((b : ℕ) → printed_byte b ≡ 37 ∷ high ∷ low ∷ [] → ⊥) }
{
    let b = 16 * hex_value(high) + hex_value(low);
    if is_plain_byte(b) || hex_digit(b / 16) != high || hex_digit(b % 16) != low {
        return None;
    }
    Some(b)
}

fn is_plain_byte(b: u8) -> bool
    ensures { result ≡ is_plain_byte b }
{
    b >= 0x21 && b <= 0x7E && b != b'%' || b >= 0x80
}

fn hex_digit(n: u8) -> u8
    requires { n < 16 }
    ensures { result ≡ digit_glyph true n }
{
    if n < 10 { b'0' + n } else { b'A' + (n - 10) }
}

fn push_byte(text: &mut Vec<u8>, b: u8) -> Result<(), AllocError>
    ensures { OnOk result (text.new.items ≡ text.old.items ++ printed_byte b) }
{
    if is_plain_byte(b) {
        text.push(b)?;
        return Ok(());
    }
    let escape = [b'%', hex_digit(b / 16), hex_digit(b % 16)];
    text.extend_from_slice(&escape)
}

fn hex_value(b: u8) -> u8
    ensures value { result ≡ hex_value b }
    ensures small { result < 16 }
{
    match b {
        b'0'..=b'9' => b - b'0',
        b'A'..=b'F' => b - b'A' + 10,
        _ => 0,
    }
}
