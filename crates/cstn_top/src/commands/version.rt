// `--version`
ghost use Rattle.std.specs.Prelude.{◌≡◌, IfOk};
ghost use Rattle.cstn_reply.specs.Read.{the_said};
ghost use Rattle.cstn_top.specs.commands.Version.{release_lines, versioned};

use cstn_reply::{Outcome, Said};
use cstn_request::Release;
use std::alloc::{AllocError, Global};

/// What is said of a release: its number, and the version of its lines. Fails for want of memory alone.
pub(crate) fn version_text(alloc: Global, release: Release) -> Result<Said, AllocError>
    ensures said { IfOk result (λ said. the_said said ≡ versioned release) }
{
    let Release { number, lines } = release;
    let text = format!(in alloc; "release {number}\nlines {lines}\n")?;
    Ok(Said {
        outcome: Outcome::Good,
        text: text.into_bytes(),
    })
}
