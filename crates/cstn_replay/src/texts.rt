// The replay of a refutation's text.
ghost use Rattle.std.specs.Prelude.{◌≡◌, ◌≤◌, ◌++◌, ℕ, List, length, IfOk, codes, decimal};
ghost use Rattle.cstn_label.specs.Limits.{most_ids};
ghost use Rattle.cstn_net.specs.Read.{the_network};
ghost use Rattle.cstn_text.specs.Limits.{most_text};
ghost use Rattle.cstn_refute.specs.Refutations.{the_steps};
ghost use Rattle.cstn_reply.specs.Read.{the_said};
ghost use Rattle.cstn_reply.specs.Texts.{say};
ghost use Rattle.cstn_replay.specs.Texts.{IsReplay, IsReplayOf};

use crate::{Answer, replay};
use cstn_net::Network;
use cstn_refute::{Refutation, RefuteError};
use cstn_reply::{Outcome, Said, accepted, wrong_line};
use cstn_text::Names;
use std::alloc::{AllocError, Global};

/// Says that the steps of a text refute the network, or which of them is the first wrong one; of a text that isn't of the form,
/// the first line that is wrong. Fails for want of memory alone.
pub fn replay_text(
    alloc: Global,
    network: &Network,
    names: &Names,
    text: &[u8],
) -> Result<Said, AllocError>
    requires few { length names.now ≤ most_ids }
    requires short { length text.now ≤ most_text }
    ensures said { IfOk result (λ said. IsReplayOf names.now text.now (the_network network.now) (the_said said)) }
{
    match Refutation::read(alloc, names, text) {
        Ok(refutation) => replay_steps(alloc, network, &refutation),
        Err(RefuteError::Line { line }) => wrong_line(alloc, line),
        Err(RefuteError::Memory(error)) => Err(error),
    }
}

// The replay of steps on a network.
fn replay_steps(
    alloc: Global,
    network: &Network,
    refutation: &Refutation,
) -> Result<Said, AllocError>
    ensures said { IfOk result (λ said. IsReplay (the_steps refutation.now) (the_network network.now) (the_said said)) }
{
    match replay(network, refutation) {
        Answer::Accepted => accepted(alloc),
        Answer::Rejected { step } => rejected(alloc, step),
    }
}

fn rejected(alloc: Global, step: u32) -> Result<Said, AllocError>
    ensures said { IfOk result (λ said. the_said said ≡ say Outcome.Bad (codes "rejected " ++ decimal step)) }
{
    let text = format!(in alloc; "rejected {step}\n")?;
    Ok(Said {
        outcome: Outcome::Bad,
        text: text.into_bytes(),
    })
}
