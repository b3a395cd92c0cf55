//! The first line of a listing: a word and a load.
ghost use Rattle.std.specs.Prelude.{◌≡◌, ◌≤◌, ◌+◌, ◌++◌, ◌∷◌, [], length, string_bytes, IfSome, OnOk};
ghost use Rattle.std.specs.Option.{option_map};
ghost use Rattle.cstn_text.specs.Numbers.{printed_number};
ghost use Rattle.cstn_text.specs.Listings.{load_read, start_read};

use crate::cuts::cut_at;
use crate::numbers::{push_number, read_number_within};
use crate::parts::part;
use std::alloc::AllocError;

/// The load on the first line of a listing, from 1 to `most`, behind the word of its kind and a space, and what stands after
/// that line; none where the text has no such line.
#[tactic(auto, using(crate::proofs::ListingLemmas::start_shorter))]
pub fn read_start<'a>(word: &str, most: u32, bytes: &'a [u8]) -> Option<(u32, &'a [u8])>
    ensures start { option_map (λ it. (it.0, it.1.now)) result ≡ start_read word.now most bytes.now }
    ensures shorter { IfSome result (λ it. length it.1.now + 2 ≤ length bytes.now) }
{
    let (line, rest) = cut_at(bytes, b'\n')?;
    let load = read_load(word, most, line)?;
    Some((load, rest))
}

// The load on the first line of a listing; none where the line isn't of the form.
fn read_load(word: &str, most: u32, line: &[u8]) -> Option<u32>
    ensures load { result ≡ load_read word.now most line.now }
{
    let (found, rest) = part(line)?;
    if found != word.as_bytes() {
        return None;
    }
    read_number_within(1, most, rest)
}

/// Appends the first line of a listing, with its LF. Fails for want of memory alone.
pub fn push_load(text: &mut String, word: &str, load: u32) -> Result<(), AllocError>
    ensures pushed { OnOk result (string_bytes text.new ≡ string_bytes text.old ++ (word.now ++ 32 ∷ printed_number load ++ 10 ∷ [])) }
{
    text.push_str(word)?;
    text.push(' ')?;
    push_number(text, load as u64)?;
    text.push('\n')
}
