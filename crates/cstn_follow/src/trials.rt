// Lines of a session that can be tried.
ghost use Rattle.std.specs.Prelude.{◌≡◌, IfOk, OnErr};
ghost use Rattle.std.specs.Option.{option_map};
ghost use Rattle.cstn_follow.specs.Asking.{NamesPoints};
ghost use Rattle.cstn_follow.specs.Trials.{sets_cap, the_triable, cap_read, triable_read, is_replanning, is_plan_line, is_refusal};
ghost use Rattle.cstn_lines.specs.FollowLines.{the_follow};

use crate::asking::{Spoken, behind_word, read_spoken};
use cstn_lines::{EditLine, FollowLine};
use cstn_log::Cap;
use cstn_net::MAX_LOAD;
use cstn_text::read_number_within;
use std::alloc::{AllocError, Global};

/// A line of a session that can be tried: any, but one that tries a line, sets a mark or goes back.
#[derive(Drop)]
pub enum Triable {
    /// A line that tells, edits or asks.
    Line(Spoken),
    /// `cap N`, with N from 1 to 4,194,304.
    Cap(Cap),
}

/// What the line of these bytes, without its LF, says, where it can be tried: exactly a form of `Triable`, with one space between the
/// parts and no other. None where they are no such line. Fails for want of memory alone, and only at a line that names time-points.
pub fn read_triable(alloc: Global, bytes: &[u8]) -> Result<Option<Triable>, AllocError>
    ensures read { IfOk result (λ line. option_map the_triable line ≡ triable_read bytes.now) }
    ensures memory { OnErr result (NamesPoints bytes.now) }
{
    match read_spoken(alloc, bytes)? {
        Some(line) => Ok(Some(Triable::Line(line))),
        None => Ok(read_other_cap(bytes)),
    }
}

// The line that sets the cap which the bytes say.
fn read_other_cap(bytes: &[u8]) -> Option<Triable>
    ensures { option_map the_triable result ≡ option_map sets_cap (cap_read bytes.now) }
{
    let cap = read_cap(bytes)?;
    Some(Triable::Cap(cap))
}

// `cap N`.
fn read_cap(bytes: &[u8]) -> Option<Cap>
    ensures { option_map (λ cap. cap.entries) result ≡ cap_read bytes.now }
{
    let number = behind_word(bytes, b"cap ")?;
    let entries = read_number_within(1, MAX_LOAD, number)?;
    Some(Cap { entries })
}

impl Triable {
    /// Whether the line is an edit, a deadline or an amendment.
    pub fn is_replanning(&self) -> bool
        ensures { result ≡ is_replanning (the_triable self.now) }
    {
        match self {
            Triable::Line(Spoken::Line(line)) => is_plan_line(line),
            Triable::Line(Spoken::Ask(_)) => false,
            Triable::Line(Spoken::Amend(_)) => true,
            Triable::Line(Spoken::Digest) => false,
            Triable::Cap(_) => false,
        }
    }
}

// Whether a line is an edit or a deadline.
fn is_plan_line(line: &FollowLine) -> bool
    ensures { result ≡ is_plan_line (the_follow line.now) }
{
    match line {
        FollowLine::Edit(EditLine::Check) => false,
        FollowLine::Edit(_) => true,
        FollowLine::Deadline { .. } => true,
        _ => false,
    }
}

/// Whether a text refuses a line.
pub fn is_refusal(text: &[u8]) -> bool
    ensures { result ≡ is_refusal text.now }
{
    text.starts_with(b"refused ".as_slice())
}
