// Live lines.
ghost use Rattle.std.specs.Prelude.{◌≡◌, None, Some};
ghost use Rattle.std.specs.Option.{option_map};
ghost use Rattle.cstn_lines.specs.LiveLines.{the_live, cut_at_space, moment_read, prop_read, truth_read, seen_read, live_read};

use crate::places::first_place;
use cstn_label::Prop;
use cstn_text::read_number;

/// What a live line says: which moment it is, the value that an observation shows, or the question what is due.
#[derive(Clone, Copy, Debug, PartialEq, Eq)]
pub enum LiveLine {
    /// `moment T`, with T in ticks, a number of at most 4,294,967,295.
    Moment { t: u32 },
    /// `see P true` or `see P false`, with P an ASCII letter.
    See { prop: Prop, value: bool },
    /// `due`.
    Due,
}

/// The live line that these bytes are, without its LF: exactly a form of `LiveLine`, with one space between the
/// parts and no other. None where they are no live line.
pub fn read_live(bytes: &[u8]) -> Option<LiveLine>
    ensures read { option_map the_live result ≡ live_read bytes.now }
{
    if bytes == b"due".as_slice() {
        return Some(LiveLine::Due);
    }
    let (word, operands) = cut_at_space(bytes)?;
    if word == b"moment".as_slice() {
        return read_moment(operands);
    }
    if word == b"see".as_slice() {
        return read_seen(operands);
    }
    None
}

// What stands before the first space, and what stands after it; none where there is no space.
pub fn cut_at_space(bytes: &[u8]) -> Option<(&[u8], &[u8])>
    ensures { option_map (λ parts. (parts.0.now, parts.1.now)) result ≡ cut_at_space bytes.now }
{
    let Some(i) = first_place(bytes, b' ') else {
        return None;
    };
    Some((&bytes[..i], &bytes[i + 1..]))
}

fn read_moment(bytes: &[u8]) -> Option<LiveLine>
    ensures { option_map the_live result ≡ moment_read bytes.now }
{
    let t = read_number(bytes)?;
    if t > 4_294_967_295 {
        return None;
    }
    Some(LiveLine::Moment { t: t as u32 })
}

fn read_seen(bytes: &[u8]) -> Option<LiveLine>
    ensures { option_map the_live result ≡ seen_read bytes.now }
{
    let (letter, value) = cut_at_space(bytes)?;
    let prop = read_prop(letter)?;
    let value = read_truth(value)?;
    Some(LiveLine::See { prop, value })
}

// The proposition of one letter.
pub fn read_prop(bytes: &[u8]) -> Option<Prop>
    ensures { option_map (λ p. p.index) result ≡ prop_read bytes.now }
{
    match bytes {
        [letter] => Prop::from_letter(*letter),
        _ => None,
    }
}

// `true` or `false`.
pub fn read_truth(bytes: &[u8]) -> Option<bool>
    ensures { result ≡ truth_read bytes.now }
{
    if bytes == b"true".as_slice() {
        return Some(true);
    }
    if bytes == b"false".as_slice() {
        return Some(false);
    }
    None
}
