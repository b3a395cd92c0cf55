//! Texts of values.

ghost use Rattle.std.specs.Prelude.{◌≡◌, ◌≤◌, ◌+◌, [], ◌∷◌, length, option_map, is_some, false, IfSome, MatchOption};
ghost use Rattle.std.specs.List.{prefix_len};
ghost use Rattle.cstn_element.specs.ValueTexts.{is_of_part, is_separator, part_len, paired, pair_at, pairs_by, pairs_after, values_of};
ghost use Rattle.cstn_element.specs.TextsSeen.{pair_seen};
ghost use Rattle.cstn_element.specs.PairsLeft.{HasNoPairs, first_seen, pairs_left, IsShorter};

use crate::label_texts::label_of;
use crate::number_texts::integer_text;
use crate::white_space::trimmed;
use cstn_label::Label;
use cstn_markup::is_white;
use std::marker::Model;

/// A pair of a text of values: its integer, and its label, which is None where its text isn't a label text.
#[derive(Clone, Copy, Default)]
pub struct Pair {
    pub most: i32,
    pub label: Option<Label>,
}

fn is_of_part(b: u8) -> bool
    ensures { result ≡ is_of_part b }
{
    !(b == b'(' || b == b')' || b == b'{' || b == b'}' || b == b',')
}

fn is_separator(b: u8) -> bool
    ensures { result ≡ is_separator b }
{
    is_white(b) || b == b','
}

/// How many bytes at the front may stand in a part of a pair.
fn part_len(bytes: &[u8]) -> usize
    ensures value { result ≡ part_len bytes.now }
    ensures within { result ≤ length bytes.now }
{
    bytes.iter().take_while(|b| is_of_part(**b)).count()
}

/// The pair of two parts, of which exactly one is an integer text and the other one is the label. None for any other parts.
fn paired(first: &[u8], second: &[u8]) -> Option<Pair>
    ensures { option_map pair_seen result ≡ paired first.now second.now }
{
    match (integer_text(first), integer_text(second)) {
        (Some(most), None) => {
            let label = label_of(second);
            Some(Pair { most, label })
        }
        (None, Some(most)) => {
            let label = label_of(first);
            Some(Pair { most, label })
        }
        (Some(_), Some(_)) => None,
        (None, None) => None,
    }
}

/// The pair whose opening bracket stands before the bytes, and how many bytes it takes behind that bracket. None where the
/// bytes aren't of this form.
fn pair_at(bytes: &[u8]) -> Option<(Pair, usize)>
    ensures value { option_map (λ x. (pair_seen x.0, x.1)) result ≡ pair_at bytes.now }
    ensures within { IfSome result (λ x. x.1 ≤ length bytes.now) }
{
    let n = part_len(bytes);
    let behind = bytes[n..].strip_prefix(b",")?;
    let m = part_len(behind);
    behind[m..].strip_prefix(b")")?;
    let pair = paired(trimmed(&bytes[..n]), trimmed(&behind[..m]))?;
    Some((pair, n + m + 2))
}

/// What the pairs of a text begin with: the first pair with the bytes behind it, the closing brace that ends the text, or what
/// isn't of the form.
#[derive(Clone, Copy)]
pub enum First<'a> {
    Pair { pair: Pair, rest: &'a [u8] },
    End,
    Wrong,
}

/// What a byte that is no separator begins.
fn begun_by(b: u8, bytes: &[u8]) -> First
    ensures value { first_seen result ≡ pairs_by false b bytes.now [] (λ skip found. pairs_after skip found bytes.now) }
    ensures shorter { IsShorter (b ∷ bytes.now) result }
{
    if b == b'}' {
        if bytes.is_empty() {
            return First::End;
        }
        return First::Wrong;
    }
    if b != b'(' {
        return First::Wrong;
    }
    let Some((pair, n)) = pair_at(bytes) else {
        return First::Wrong;
    };
    let rest = &bytes[n..];
    First::Pair { pair, rest }
}

/// What the pairs begin with, behind separators.
#[tactic(auto, unfolding(crate::specs::ValueTexts::pairs_after))]
fn first_of(bytes: &[u8]) -> First
    ensures value { first_seen result ≡ pairs_after 0 [] bytes.now }
    ensures shorter { IsShorter bytes.now result }
{
    let mut rest = bytes;
    while let Some((b, next)) = rest.split_first() {
        if !is_separator(*b) {
            return begun_by(*b, next);
        }
        rest = next;
    }
    First::Wrong
}

/// Whether these are pairs up to the closing brace, which ends the text.
fn are_pairs(bytes: &[u8]) -> bool
    ensures { result ≡ is_some (pairs_after 0 [] bytes.now) }
{
    let mut rest = bytes;
    loop {
        match first_of(rest) {
            First::Pair {
                pair: _,
                rest: next,
            } => rest = next,
            First::End => return true,
            First::Wrong => return false,
        }
    }
}

/// The pairs of a text of values, which are taken one after the other. It is seen as the bytes that are left.
#[derive(Drop)]
pub struct Pairs<'a> {
    rest: &'a [u8],
}

impl<'a> Model for Pairs<'a> {
    ghost use Rattle.std.specs.Prelude.{◌≡◌, ℕ, List, [], is_some, true};
    ghost use Rattle.cstn_element.specs.ValueTexts.{pairs_after};

    ghost Value = { List ℕ };

    ghost view = { λ p. p.rest.now };

    ghost invariant = { λ p. is_some (pairs_after 0 [] p.rest.now) ≡ true };
}

impl<'a> Pairs<'a> {
    /// Takes the next pair. None where no pair is left.
    pub fn next_pair(&mut self) -> Option<Pair>
        ensures taken { MatchOption result (HasNoPairs self.old self.new) (λ pair. pairs_left self.old ≡ pair_seen pair ∷ pairs_left self.new) }
    {
        match first_of(self.rest) {
            First::Pair { pair, rest } => {
                self.rest = rest;
                Some(pair)
            }
            First::End => None,
            First::Wrong => unreachable!(),
        }
    }
}

/// The pairs of a text of values, to be taken one after the other. An empty text has none. None where a text isn't of the form.
#[tactic(auto, unfolding(crate::specs::ValueTexts::pairs_after))]
pub fn values_of(bytes: &[u8]) -> Option<Pairs>
    ensures { option_map pairs_left result ≡ values_of bytes.now }
{
    let Some((b, inside)) = bytes.split_first() else {
        let rest = b"}".as_slice();
        return Some(Pairs { rest });
    };
    if *b != b'{' || !are_pairs(inside) {
        return None;
    }
    Some(Pairs { rest: inside })
}
