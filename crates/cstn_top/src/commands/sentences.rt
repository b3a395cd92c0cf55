// `sentences FILE [--deadline N]`
ghost use Rattle.std.specs.Prelude.{◌≡◌, IfOk, length};
ghost use Rattle.cstn_net.specs.Networks.{count};
ghost use Rattle.cstn_net.specs.Read.{the_network};
ghost use Rattle.cstn_lift.specs.Read.{the_labelled};
ghost use Rattle.cstn_reply.specs.Read.{the_said};
ghost use Rattle.cstn_top.specs.commands.Sentences.{worded};

use cstn_lift::Labelled;
use cstn_reply::{Outcome, Said};
use cstn_sentences::sentences;
use cstn_text::Names;
use std::alloc::{AllocError, Global};

/// A labelled network in sentences. Fails for want of memory alone.
pub(crate) fn sentences_text(
    alloc: Global,
    labelled: &Labelled,
    names: &Names,
) -> Result<Said, AllocError>
    requires named { length names.now ≡ count (the_network labelled.now.base) }
    ensures said { IfOk result (λ said. the_said said ≡ worded names.now (the_labelled labelled.now)) }
{
    let text = sentences(alloc, labelled, names)?;
    Ok(Said {
        outcome: Outcome::Good,
        text,
    })
}
