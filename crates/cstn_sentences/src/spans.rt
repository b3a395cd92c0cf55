//! Times, spans and ranges.

ghost use Rattle.std.specs.Prelude.{◌≡◌, ◌<◌, ◌≤◌, true, IfSome, length, min, option_map};
ghost use Rattle.std.specs.Char.{is_ascii_digit};
ghost use Rattle.std.specs.List.{list_all};
ghost use Rattle.std.specs.Str.Parse.{digits_value};
ghost use Rattle.cstn_text.specs.Numbers.{is_numeral};
ghost use Rattle.cstn_sentences.specs.Spans.{digits_read, ticks_read, minutes_read, time_read, negated, span_read, range_to, past_point, range_read};

use crate::lines::{Range, Span};
use cstn_text::cut_at;

/// What counts for all numbers beyond 1,000,000,000.
const BEYOND: u32 = 1_000_000_001;

fn are_digits(bytes: &[u8]) -> bool
    ensures { result ≡ list_all is_ascii_digit bytes.now }
{
    bytes.iter().all(|b| b.is_ascii_digit())
}

/// The value of digits, in which all values beyond 1,000,000,000 count as one.
fn value_of(digits: &[u8]) -> u32
    requires some { 0 < length digits.now }
    requires digits { list_all is_ascii_digit digits.now ≡ true }
    ensures { result ≡ min (digits_value 10 digits.now) 1000000001 }
{
    let Ok(text) = str::from_utf8(digits) else {
        return BEYOND;
    };
    let Ok(value) = text.parse::<u64>() else {
        return BEYOND;
    };
    if value > BEYOND as u64 {
        return BEYOND;
    }
    value as u32
}

/// The value of digits; none where there are none, or another byte.
fn read_digits(digits: &[u8]) -> Option<u32>
    ensures read { result ≡ digits_read digits.now }
    ensures most { IfSome result (λ n. n ≤ 1000000001) }
{
    if digits.is_empty() || !are_digits(digits) {
        return None;
    }
    Some(value_of(digits))
}

fn is_numeral(bytes: &[u8]) -> bool
    ensures { result ≡ is_numeral bytes.now }
{
    match bytes {
        [] => false,
        [first, rest @ ..] => are_digits(bytes) && (*first != b'0' || rest.is_empty()),
    }
}

/// A number of ticks.
fn read_ticks(digits: &[u8]) -> Option<u32>
    ensures read { result ≡ ticks_read digits.now }
    ensures most { IfSome result (λ n. n ≤ 1000000001) }
{
    if !is_numeral(digits) {
        return None;
    }
    read_digits(digits)
}

/// Hours of one to four digits, and minutes of two, from 00 to 59, in minutes.
fn read_minutes(hours: &[u8], minutes: &[u8]) -> Option<u32>
    ensures read { result ≡ minutes_read hours.now minutes.now }
    ensures most { IfSome result (λ n. n ≤ 1000000001) }
{
    if hours.len() > 4 {
        return None;
    }
    let h = read_digits(hours)?;
    if minutes.len() != 2 {
        return None;
    }
    let m = read_digits(minutes)?;
    if h > 9999 || m > 59 {
        return None;
    }
    Some(60 * h + m)
}

/// A time: a number of ticks, or `H:MM`.
pub fn read_time(word: &[u8]) -> Option<Span>
    ensures { result ≡ time_read word.now }
{
    match cut_at(word, b':') {
        None => {
            let ticks = read_ticks(word)? as i32;
            Some(Span {
                ticks,
                clock: false,
            })
        }
        Some((hours, minutes)) => {
            let ticks = read_minutes(hours, minutes)? as i32;
            Some(Span { ticks, clock: true })
        }
    }
}

fn negated(span: Span) -> Option<Span>
    ensures { result ≡ negated span }
{
    if span.ticks <= 0 {
        return None;
    }
    Some(Span {
        ticks: -span.ticks,
        clock: false,
    })
}

/// A span: a time, or `-` and a time above 0.
pub fn read_span(word: &[u8]) -> Option<Span>
    ensures { result ≡ span_read word.now }
{
    match word {
        [] => None,
        [b'-', time @ ..] => negated(read_time(time)?),
        _ => read_time(word),
    }
}

fn past_point(bytes: &[u8]) -> Option<&[u8]>
    ensures { option_map (λ r. r.now) result ≡ past_point bytes.now }
{
    match bytes {
        [b'.', rest @ ..] => Some(rest),
        _ => None,
    }
}

/// The range from a span on, up to the one that is written, if one is.
fn range_to(least: Span, bytes: &[u8]) -> Option<Range>
    ensures { result ≡ range_to least bytes.now }
{
    if bytes.is_empty() {
        return Some(Range { least, most: None });
    }
    let most = read_span(bytes)?;
    Some(Range {
        least,
        most: Some(most),
    })
}

/// A range: `A..B`, `A..`, or `A` for `A..A`.
pub fn read_range(word: &[u8]) -> Option<Range>
    ensures { result ≡ range_read word.now }
{
    match cut_at(word, b'.') {
        None => {
            let span = read_span(word)?;
            Some(Range {
                least: span,
                most: Some(span),
            })
        }
        Some((least, rest)) => {
            let least = read_span(least)?;
            range_to(least, past_point(rest)?)
        }
    }
}
