// Lines of a session that amend its plan.
ghost use Rattle.std.specs.Prelude.{◌≡◌, IfOk, OnErr};
ghost use Rattle.std.specs.Option.{option_map};
ghost use Rattle.cstn_text.specs.PrintedNames.{name_read};
ghost use Rattle.cstn_follow.specs.Amending.{the_amendment, steps, amendment_read, IsStepping};

use crate::asking::behind_word;
use cstn_lines::{NameText, read_name_text};
use std::alloc::{AllocError, Global};

/// What a line amends beside the edits of `FollowLine`.
#[derive(Debug, Drop)]
pub enum Amendment {
    /// `forgive`.
    Forgive,
    /// `step NAME`, a printed name.
    Step { name: NameText },
}

/// What the line of these bytes, without its LF, amends. Fails for want of memory alone, and only at a line that begins with `step`.
pub(crate) fn read_amendment(alloc: Global, bytes: &[u8]) -> Result<Option<Amendment>, AllocError>
    ensures read { IfOk result (λ o. option_map the_amendment o ≡ amendment_read bytes.now) }
    ensures memory { OnErr result (IsStepping bytes.now) }
{
    if bytes == b"forgive".as_slice() {
        return Ok(Some(Amendment::Forgive));
    }
    match behind_word(bytes, b"step ") {
        Some(rest) => read_step(alloc, rest),
        None => Ok(None),
    }
}

// The further time-point that these bytes name.
fn read_step(alloc: Global, bytes: &[u8]) -> Result<Option<Amendment>, AllocError>
    ensures { IfOk result (λ o. option_map the_amendment o ≡ option_map steps (name_read bytes.now)) }
{
    match read_name_text(alloc, bytes)? {
        Some(name) => Ok(Some(Amendment::Step { name })),
        None => Ok(None),
    }
}
