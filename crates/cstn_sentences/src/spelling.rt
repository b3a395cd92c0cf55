//! How names and propositions are spelled.

ghost use Rattle.std.specs.Prelude.{◌≡◌, ◌<◌, ◌++◌, ◌||◌, ◌==◌, IfOk, OnOk, true, ◌&&◌, length, nat_lt, nat_le, slice_index, string_bytes, drop};
ghost use Rattle.std.specs.Char.{is_ascii_alphanumeric};
ghost use Rattle.std.specs.Fmt.{digit_glyph};
ghost use Rattle.std.specs.List.{list_all};
ghost use Rattle.cstn_text.specs.PrintedNames.{is_plain_byte, hex_value, unescaped_byte, printed_byte, unprinted};
ghost use Rattle.cstn_sentences.specs.Spelling.{begins_line, is_of_rule, is_between, is_keyword, begins_with, needs_quotes};
ghost use Rattle.cstn_sentences.specs.Spelling.{quoted_byte, quoted, between_quotes, begins_with_letter, has_space_or_quote};
ghost use Rattle.cstn_sentences.specs.Spelling.{is_quoted_as, quoted_as, quoted_name, bare_name, name_spelled, is_letter_word, is_word, is_prop_word};

use crate::lines::Name;
use cstn_text::read_name;
use std::alloc::{AllocError, Global};

fn begins_line(word: &[u8]) -> bool
    ensures { result ≡ begins_line word.now }
{
    word == b"deadline".as_slice()
        || word == b"start".as_slice()
        || word == b"step".as_slice()
        || word == b"task".as_slice()
        || word == b"end".as_slice()
}

fn is_of_rule(word: &[u8]) -> bool
    ensures { result ≡ is_of_rule word.now }
{
    word == b"at".as_slice()
        || word == b"by".as_slice()
        || word == b"within".as_slice()
        || word == b"with".as_slice()
        || word == b"after".as_slice()
}

fn is_between(word: &[u8]) -> bool
    ensures { result ≡ is_between word.now }
{
    word == b"observes".as_slice()
        || word == b"as".as_slice()
        || word == b"if".as_slice()
        || word == b"and".as_slice()
        || word == b"not".as_slice()
        || word == b"result".as_slice()
        || word == b"of".as_slice()
}

fn is_keyword(word: &[u8]) -> bool
    ensures { result ≡ is_keyword word.now }
{
    begins_line(word) || is_of_rule(word) || is_between(word)
}

fn begins_with(byte: u8, bytes: &[u8]) -> bool
    ensures { result ≡ begins_with byte bytes.now }
{
    match bytes {
        [] => false,
        [first, ..] => *first == byte,
    }
}

fn has_space_or_quote(name: &[u8]) -> bool
    ensures { result ≡ has_space_or_quote name.now }
{
    name.iter().any(|b| *b == b' ' || *b == b'"')
}

// Whether a name stands in quotes: it has a space or `"`, begins with `#`, or is a keyword.
pub(crate) fn needs_quotes(name: &[u8]) -> bool
    ensures { result ≡ needs_quotes name.now }
{
    has_space_or_quote(name) || begins_with(b'#', name) || is_keyword(name)
}

/// The name that a bare word spells, if it spells one.
fn read_bare_name(alloc: Global, word: &[u8]) -> Result<Option<Name>, AllocError>
    ensures { IfOk result (λ name. name ≡ bare_name word.now) }
{
    let Some(name) = read_name(alloc, word)? else {
        return Ok(None);
    };
    if needs_quotes(name.as_bytes()) {
        return Ok(None);
    }
    Ok(Some(Name::new(name)))
}

fn hex_value(b: u8) -> u8
    ensures value { result ≡ hex_value b }
    ensures small { result < 16 }
{
    match b {
        b'0'..=b'9' => b - b'0',
        b'A'..=b'F' => b - b'A' + 10,
        _ => 0,
    }
}

fn byte_at(bytes: &[u8], at: usize) -> u8
    ensures { result ≡ slice_index bytes.now at }
{
    match bytes.get(at) {
        Some(b) => *b,
        None => 0,
    }
}

/// The byte that two digits write, where 0 stands for each that is missing.
fn escaped_byte(digits: &[u8]) -> u8
    ensures { result ≡ unescaped_byte digits.now }
{
    16 * hex_value(byte_at(digits, 0)) + hex_value(byte_at(digits, 1))
}

fn past_two(bytes: &[u8]) -> &[u8]
    ensures { result.now ≡ drop 2 bytes.now }
{
    match bytes {
        [_, _, rest @ ..] => rest,
        _ => &bytes[..0],
    }
}

/// The text in which each `%` with two digits is read as the byte that they write.
fn unprinted(alloc: Global, bytes: &[u8]) -> Result<Vec<u8>, AllocError>
    ensures { IfOk result (λ text. text.items ≡ unprinted bytes.now) }
{
    let mut text = Vec::with_capacity(alloc, bytes.len())?;
    let mut left = bytes;
    while let Some((b, rest)) = left.split_first() {
        if *b == b'%' {
            text.push(escaped_byte(rest))?;
            left = past_two(rest);
        } else {
            text.push(*b)?;
            left = rest;
        }
    }
    Ok(text)
}

fn hex_digit(n: u8) -> u8
    requires { n < 16 }
    ensures { result ≡ digit_glyph true n }
{
    if n < 10 { b'0' + n } else { b'A' + (n - 10) }
}

fn is_plain_byte(b: u8) -> bool
    ensures { result ≡ is_plain_byte b }
{
    b >= 0x21 && b <= 0x7E && b != b'%' || b >= 0x80
}

pub(crate) fn push_printed_byte(text: &mut Vec<u8>, b: u8) -> Result<(), AllocError>
    ensures { OnOk result (text.new.items ≡ text.old.items ++ printed_byte b) }
{
    if is_plain_byte(b) {
        text.push(b)?;
        return Ok(());
    }
    let escape = [b'%', hex_digit(b / 16), hex_digit(b % 16)];
    text.extend_from_slice(&escape)
}

pub(crate) fn push_quoted_byte(text: &mut Vec<u8>, b: u8) -> Result<(), AllocError>
    ensures { OnOk result (text.new.items ≡ text.old.items ++ quoted_byte b) }
{
    if b == b' ' {
        text.push(b' ')?;
        return Ok(());
    }
    if b == b'"' {
        return text.extend_from_slice(b"%22");
    }
    push_printed_byte(text, b)
}

/// The spelling of a name in quotes.
fn quoted(alloc: Global, name: &[u8]) -> Result<Vec<u8>, AllocError>
    ensures { IfOk result (λ text. text.items ≡ quoted name.now) }
{
    let mut text = Vec::new(alloc);
    text.push(b'"')?;
    for b in name {
        push_quoted_byte(&mut text, *b)?;
    }
    text.push(b'"')?;
    Ok(text)
}

fn between_quotes(word: &[u8]) -> &[u8]
    ensures { result.now ≡ between_quotes word.now }
{
    match word {
        [] => word,
        [_, rest @ ..] => &rest[..rest.len().saturating_sub(1)],
    }
}

/// Whether a text has 1 to 64 bytes.
fn is_short(name: &str) -> bool
    ensures { result ≡ (nat_lt 0 (length name.now) && nat_le (length name.now) 64) }
{
    !name.is_empty() && name.len() <= 64
}

/// Whether the word is the spelling of the name in quotes, which the name needs.
fn is_quoted_as(alloc: Global, name: &str, word: &[u8]) -> Result<bool, AllocError>
    ensures { IfOk result (λ b. b ≡ is_quoted_as name.now word.now) }
{
    if !is_short(name) {
        return Ok(false);
    }
    if !needs_quotes(name.as_bytes()) {
        return Ok(false);
    }
    let spelled = quoted(alloc, name.as_bytes())?;
    Ok(spelled.as_slice() == word)
}

/// The name of a text, where the word is its spelling in quotes.
fn quoted_as(alloc: Global, name: String, word: &[u8]) -> Result<Option<Name>, AllocError>
    ensures { IfOk result (λ n. n ≡ quoted_as (string_bytes name) word.now) }
{
    if !is_quoted_as(alloc, name.as_str(), word)? {
        return Ok(None);
    }
    Ok(Some(Name::new(name)))
}

/// The name that a quoted word spells, if it spells one.
fn read_quoted_name(alloc: Global, word: &[u8]) -> Result<Option<Name>, AllocError>
    ensures { IfOk result (λ name. name ≡ quoted_name word.now) }
{
    let text = unprinted(alloc, between_quotes(word))?;
    let Ok(name) = String::from_utf8(text) else {
        return Ok(None);
    };
    quoted_as(alloc, name, word)
}

/// The name that a word spells, if it spells one.
pub fn read_name_word(alloc: Global, word: &[u8]) -> Result<Option<Name>, AllocError>
    ensures { IfOk result (λ name. name ≡ name_spelled word.now) }
{
    if begins_with(b'"', word) {
        return read_quoted_name(alloc, word);
    }
    read_bare_name(alloc, word)
}

/// Whether a word is a letter.
pub fn is_letter_word(word: &[u8]) -> bool
    ensures { result ≡ is_letter_word word.now }
{
    match word {
        [] => false,
        [b, rest @ ..] => b.is_ascii_alphabetic() && rest.is_empty(),
    }
}

fn begins_with_letter(word: &[u8]) -> bool
    ensures { result ≡ begins_with_letter word.now }
{
    match word {
        [] => false,
        [b, ..] => b.is_ascii_alphabetic(),
    }
}

fn are_of_word(word: &[u8]) -> bool
    ensures { result ≡ list_all (λ b. is_ascii_alphanumeric b || b == 95 || b == 45) word.now }
{
    word.iter()
        .all(|b| b.is_ascii_alphanumeric() || *b == b'_' || *b == b'-')
}

/// Whether a word may stand for a letter.
pub fn is_word(word: &[u8]) -> bool
    ensures { result ≡ is_word word.now }
{
    2 <= word.len()
        && word.len() <= 64
        && begins_with_letter(word)
        && are_of_word(word)
        && !is_keyword(word)
}

/// Whether a word is a proposition.
pub fn is_prop_word(word: &[u8]) -> bool
    ensures { result ≡ is_prop_word word.now }
{
    is_letter_word(word) || is_word(word)
}
