// Lines of a session that follows a plan.
ghost use Rattle.std.specs.Prelude.{◌≡◌, ◌||◌, true, IfOk, OnErr, codes, bytes_eq};
ghost use Rattle.std.specs.Option.{option_map};
ghost use Rattle.cstn_net.specs.Limits.{most_deadline};
ghost use Rattle.cstn_text.specs.SmallNumbers.{u32_read};
ghost use Rattle.cstn_text.specs.Numbers.{number_within};
ghost use Rattle.cstn_text.specs.PrintedNames.{name_read};
ghost use Rattle.cstn_lines.specs.EditLines.{edited_read};
ghost use Rattle.cstn_lines.specs.FollowLines.{the_follow, now_at, edits, ends_by, asks_by, names_read, done_read, outcome_read, came_read};
ghost use Rattle.cstn_lines.specs.FollowLines.{awaited_read, ready_read, followed_read, follow_read, IsNaming};

use crate::edits::{EditLine, NameText, read_edited, read_name_text};
use crate::live::{cut_at_space, read_prop, read_truth};
use cstn_label::Prop;
use cstn_net::MAX_DEADLINE;
use cstn_text::read_number_within;
use std::alloc::{AllocError, Global};

/// What a line of a session that follows a plan says.
#[derive(Debug, Drop)]
pub enum FollowLine {
    /// `did T NAME NAME ..`: a moment in ticks, a number of at most 4,294,967,295, and one printed name or more.
    Did { t: u32, names: Vec<NameText> },
    /// `saw T P true` or `saw T P false`, with T as in `did`, and P an ASCII letter.
    Saw { t: u32, prop: Prop, value: bool },
    /// `now T`, with T as in `did`.
    Now { t: u32 },
    /// `await T P`, with T as in `did`, and P an ASCII letter.
    Await { t: u32, prop: Prop },
    /// `expect T NAME`, with T as in `did`, and a printed name.
    Expect { t: u32, name: NameText },
    /// A line of an edit session: `add FROM TO W LABEL`, `remove ID`, `change ID W` or `check`.
    Edit(EditLine),
    /// `deadline N`, with N in ticks, a number of at most 1,000,000.
    Deadline { ticks: u32 },
    /// `next`.
    Next,
    /// `by NAME`, a printed name.
    By { name: NameText },
    /// `blame`.
    Blame,
    /// `rest`.
    Rest,
}

/// The line that these bytes are, without its LF: exactly a form of `FollowLine`, with one space between the parts and no
/// other. None where they are no such line. Fails for want of memory alone, and only at a line that begins with `did`, `expect`,
/// `by` or `add`.
pub fn read_follow(alloc: Global, bytes: &[u8]) -> Result<Option<FollowLine>, AllocError>
    ensures read { IfOk result (λ line. option_map the_follow line ≡ follow_read bytes.now) }
    ensures memory { OnErr result (IsNaming bytes.now) }
{
    if bytes == b"next".as_slice() {
        return Ok(Some(FollowLine::Next));
    }
    if bytes == b"blame".as_slice() {
        return Ok(Some(FollowLine::Blame));
    }
    if bytes == b"rest".as_slice() {
        return Ok(Some(FollowLine::Rest));
    }
    if bytes == b"check".as_slice() {
        return Ok(Some(FollowLine::Edit(EditLine::Check)));
    }
    match cut_at_space(bytes) {
        Some((word, operands)) => read_followed(alloc, word, operands),
        None => Ok(None),
    }
}

fn read_followed(
    alloc: Global,
    word: &[u8],
    operands: &[u8],
) -> Result<Option<FollowLine>, AllocError>
    ensures read { IfOk result (λ line. option_map the_follow line ≡ followed_read (word.now, operands.now)) }
    ensures memory { OnErr result ((bytes_eq word.now (codes "did") || bytes_eq word.now (codes "expect") || bytes_eq word.now (codes "by")
        || bytes_eq word.now (codes "add")) ≡ true) }
{
    if word == b"did".as_slice() {
        return read_did(alloc, operands);
    }
    if word == b"saw".as_slice() {
        return Ok(read_saw(operands));
    }
    if word == b"now".as_slice() {
        return Ok(read_now(operands));
    }
    if word == b"await".as_slice() {
        return Ok(read_await(operands));
    }
    if word == b"expect".as_slice() {
        return read_expect(alloc, operands);
    }
    if word == b"deadline".as_slice() {
        return Ok(read_deadline(operands));
    }
    if word == b"by".as_slice() {
        return read_by(alloc, operands);
    }
    read_edit_of(alloc, word, operands)
}

// A line that an edit session has too.
fn read_edit_of(
    alloc: Global,
    word: &[u8],
    operands: &[u8],
) -> Result<Option<FollowLine>, AllocError>
    ensures read { IfOk result (λ line. option_map the_follow line ≡ option_map edits (edited_read (word.now, operands.now))) }
    ensures memory { OnErr result (bytes_eq word.now (codes "add") ≡ true) }
{
    match read_edited(alloc, word, operands)? {
        Some(line) => Ok(Some(FollowLine::Edit(line))),
        None => Ok(None),
    }
}

fn read_did(alloc: Global, bytes: &[u8]) -> Result<Option<FollowLine>, AllocError>
    ensures { IfOk result (λ line. option_map the_follow line ≡ done_read bytes.now) }
{
    let Some((moment, rest)) = cut_at_space(bytes) else {
        return Ok(None);
    };
    let Some(t) = read_moment(moment) else {
        return Ok(None);
    };
    match read_names(alloc, rest)? {
        Some(names) => Ok(Some(FollowLine::Did { t, names })),
        None => Ok(None),
    }
}

// The names of a text of one printed name or more, with a space between names; none where it isn't of that form.
fn read_names(alloc: Global, bytes: &[u8]) -> Result<Option<Vec<NameText>>, AllocError>
    ensures { IfOk result (λ names. option_map (λ n. n.items) names ≡ names_read bytes.now) }
{
    let mut names = Vec::new(alloc);
    let mut left = bytes;
    while let Some((name, rest)) = cut_at_space(left) {
        let Some(name) = read_name_text(alloc, name)? else {
            return Ok(None);
        };
        names.push(name)?;
        left = rest;
    }
    let Some(name) = read_name_text(alloc, left)? else {
        return Ok(None);
    };
    names.push(name)?;
    Ok(Some(names))
}

fn read_saw(bytes: &[u8]) -> Option<FollowLine>
    ensures { option_map the_follow result ≡ came_read bytes.now }
{
    let (moment, rest) = cut_at_space(bytes)?;
    let t = read_moment(moment)?;
    read_outcome(t, rest)
}

fn read_outcome(t: u32, bytes: &[u8]) -> Option<FollowLine>
    ensures { option_map the_follow result ≡ outcome_read t bytes.now }
{
    let (letter, value) = cut_at_space(bytes)?;
    let prop = read_prop(letter)?;
    let value = read_truth(value)?;
    Some(FollowLine::Saw { t, prop, value })
}

fn read_now(bytes: &[u8]) -> Option<FollowLine>
    ensures { option_map the_follow result ≡ option_map now_at (u32_read bytes.now) }
{
    let t = read_moment(bytes)?;
    Some(FollowLine::Now { t })
}

fn read_await(bytes: &[u8]) -> Option<FollowLine>
    ensures { option_map the_follow result ≡ awaited_read bytes.now }
{
    let (moment, letter) = cut_at_space(bytes)?;
    let t = read_moment(moment)?;
    let prop = read_prop(letter)?;
    Some(FollowLine::Await { t, prop })
}

fn read_expect(alloc: Global, bytes: &[u8]) -> Result<Option<FollowLine>, AllocError>
    ensures { IfOk result (λ line. option_map the_follow line ≡ ready_read bytes.now) }
{
    let Some((moment, name)) = cut_at_space(bytes) else {
        return Ok(None);
    };
    let Some(t) = read_moment(moment) else {
        return Ok(None);
    };
    match read_name_text(alloc, name)? {
        Some(name) => Ok(Some(FollowLine::Expect { t, name })),
        None => Ok(None),
    }
}

fn read_deadline(bytes: &[u8]) -> Option<FollowLine>
    ensures { option_map the_follow result ≡ option_map ends_by (number_within 0 most_deadline bytes.now) }
{
    let ticks = read_number_within(0, MAX_DEADLINE, bytes)?;
    Some(FollowLine::Deadline { ticks })
}

fn read_by(alloc: Global, bytes: &[u8]) -> Result<Option<FollowLine>, AllocError>
    ensures { IfOk result (λ line. option_map the_follow line ≡ option_map asks_by (name_read bytes.now)) }
{
    match read_name_text(alloc, bytes)? {
        Some(name) => Ok(Some(FollowLine::By { name })),
        None => Ok(None),
    }
}

// A moment in ticks, from 0 to 4,294,967,295.
fn read_moment(bytes: &[u8]) -> Option<u32>
    ensures { result ≡ u32_read bytes.now }
{
    read_number_within(0, u32::MAX, bytes)
}
