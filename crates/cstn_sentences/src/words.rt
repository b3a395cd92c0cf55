//! The words of a line.

ghost use Rattle.std.specs.Prelude.{◌≡◌, ◌<◌, ◌≤◌, ◌∷◌, ◌==◌, not, [], length, IfSome, MatchOption};
ghost use Rattle.std.specs.List.{prefix_len, list_all};
ghost use Rattle.cstn_markup.specs.Bytes.{is_white};
ghost use Rattle.cstn_sentences.specs.Words.{without_mark, word_len, words_of, is_closed, is_of_words};

use cstn_markup::{is_white, past_white};

/// The most bytes of a line.
const MAX_LINE: usize = 4096;

/// The text without the byte order mark at its beginning.
pub fn without_mark(text: &[u8]) -> &[u8]
    ensures mark { result.now ≡ without_mark text.now }
    ensures shorter { length result.now ≤ length text.now }
{
    match text.strip_prefix([0xEF, 0xBB, 0xBF].as_slice()) {
        Some(rest) => rest,
        None => text,
    }
}

/// How many bytes stand before the first quote; all of them where there is none.
fn before_quote(bytes: &[u8]) -> usize
    ensures value { result ≡ prefix_len (λ c. not (c == 34)) bytes.now }
    ensures within { result ≤ length bytes.now }
{
    bytes.iter().take_while(|b| !(**b == b'"')).count()
}

/// How many bytes stand before the first white space; all of them where there is none.
fn before_white(bytes: &[u8]) -> usize
    ensures value { result ≡ prefix_len (λ c. not (is_white c)) bytes.now }
    ensures within { result ≤ length bytes.now }
{
    bytes.iter().take_while(|b| !is_white(**b)).count()
}

/// How many bytes the word at the front has.
fn word_len(bytes: &[u8]) -> usize
    ensures value { result ≡ word_len bytes.now }
    ensures within { result ≤ length bytes.now }
{
    match bytes {
        [] => 0,
        [b'"', quoted @ ..] => {
            let n = before_quote(quoted);
            if n < quoted.len() { n + 2 } else { n + 1 }
        }
        _ => before_white(bytes),
    }
}

/// The first word, and what stands behind it; none where no word is left.
pub fn next_word(left: &[u8]) -> Option<(&[u8], &[u8])>
    ensures words { MatchOption result (words_of left.now ≡ []) (λ r. words_of left.now ≡ r.0.now ∷ words_of r.1.now) }
    ensures shorter { IfSome result (λ r. length r.1.now < length left.now) }
{
    let left = past_white(left);
    let Some((first, _)) = left.split_first() else {
        return None;
    };
    if *first == b'#' {
        return None;
    }
    let n = word_len(left);
    Some((&left[..n], &left[n..]))
}

/// How many words are left.
pub fn count_words(left: &[u8]) -> usize
    ensures count { result ≡ length (words_of left.now) }
    ensures within { result ≤ length left.now }
{
    let mut count = 0;
    let mut left = left;
    while let Some((_, rest)) = next_word(left) {
        count += 1;
        left = rest;
    }
    count
}

/// Whether a word that begins with a quote has its end.
fn is_closed(word: &[u8]) -> bool
    ensures { result ≡ is_closed word.now }
{
    match word {
        [b'"', quoted @ ..] => quoted.contains(&b'"'),
        _ => true,
    }
}

/// Whether each word that begins with a quote has its end.
fn are_closed(left: &[u8]) -> bool
    ensures { result ≡ list_all is_closed (words_of left.now) }
{
    if !left.contains(&b'"') {
        return true;
    }
    let mut left = left;
    while let Some((word, rest)) = next_word(left) {
        if !is_closed(word) {
            return false;
        }
        left = rest;
    }
    true
}

/// Whether a line is of words: not too long, UTF-8, and each quote has its end.
pub fn is_of_words(line: &[u8]) -> bool
    ensures { result ≡ is_of_words line.now }
{
    if line.len() > MAX_LINE {
        return false;
    }
    let Ok(_) = str::from_utf8(line) else {
        return false;
    };
    are_closed(line)
}
