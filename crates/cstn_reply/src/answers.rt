// What is said of the texts that are handed in.
ghost use Rattle.std.specs.Prelude.{◌≡◌, ◌++◌, IfOk, codes, decimal};
ghost use Rattle.cstn_reply.specs.Read.{the_said};
ghost use Rattle.cstn_reply.specs.Sessions.{script};
ghost use Rattle.cstn_reply.specs.Texts.{say};

use crate::{Outcome, Said};
use std::alloc::{AllocError, Global};

/// What is said of a text that is accepted. Fails for want of memory alone.
pub fn accepted(alloc: Global) -> Result<Said, AllocError>
    ensures said { IfOk result (λ said. the_said said ≡ say Outcome.Good (codes "accepted")) }
{
    let text = b"accepted\n".to_vec(alloc)?;
    Ok(Said {
        outcome: Outcome::Good,
        text,
    })
}

/// What is said of a text whose first line of no grammar has this number, counted from 1. Fails for want of memory alone.
pub fn wrong_line(alloc: Global, line: u32) -> Result<Said, AllocError>
    ensures said { IfOk result (λ said. the_said said ≡ script line) }
{
    let text = format!(in alloc; "script {line}\n")?;
    Ok(Said {
        outcome: Outcome::Script,
        text: text.into_bytes(),
    })
}
