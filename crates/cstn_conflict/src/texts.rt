// The constraints to blame for a no.
ghost use Rattle.std.specs.Prelude.{◌≡◌, ◌<◌, ◌++◌, ◌∷◌, IfOk, length, flat_map, decimal, OnOk};
ghost use Rattle.std.specs.List.{All};
ghost use Rattle.cstn_net.specs.Networks.{IsWellFormed, count};
ghost use Rattle.cstn_net.specs.Read.{the_network};
ghost use Rattle.cstn_refute.specs.Refutations.{the_steps};
ghost use Rattle.cstn_refute.specs.Texts.{refutation_shown};
ghost use Rattle.cstn_reply.specs.Texts.{yes_line};
ghost use Rattle.cstn_reply.specs.Read.{the_said};
ghost use Rattle.cstn_conflict.specs.Texts.{ids_line, blamed};

use crate::{Conflict, ConflictError, smallest};
use cstn_check::{full, yes_line};
use cstn_log::Cap;
use cstn_net::Network;
use cstn_reply::{Outcome, Said};
use cstn_text::Names;
use itoa::Buffer;
use std::alloc::{AllocError, Global};

/// Says the conflict set of a network that isn't consistent, with what refutes the network of these constraints alone, or the
/// load of a network that is. Each log may have `cap` entries: where one has more, the cap is said. Fails for want of memory
/// alone.
pub fn conflict_text(
    alloc: Global,
    network: Network,
    names: &Names,
    cap: Cap,
) -> Result<Said, AllocError>
    requires well_formed { IsWellFormed (the_network network) }
    requires named { length names.now ≡ count (the_network network) }
    ensures said { IfOk result (λ said. the_said said ≡ blamed cap.entries names.now (the_network network)) }
{
    match smallest(alloc, network, cap) {
        Ok(conflict) => conflict_said(alloc, &conflict, names),
        Err(ConflictError::Consistent { load }) => consistent(alloc, load),
        Err(ConflictError::Full) => full(alloc, cap),
        Err(ConflictError::Memory(error)) => Err(error),
    }
}

fn consistent(alloc: Global, load: u32) -> Result<Said, AllocError>
    ensures said { IfOk result (λ said. the_said said ≡ record { outcome = Outcome.Good; text = yes_line load }) }
{
    let text = yes_line(alloc, load)?;
    Ok(Said {
        outcome: Outcome::Good,
        text,
    })
}

fn conflict_said(alloc: Global, conflict: &Conflict, names: &Names) -> Result<Said, AllocError>
    requires named { All (λ e. e.bound.node.0 < length names.now) conflict.now.refutation.steps }
    ensures said { IfOk result (λ said. the_said said
        ≡ record {
          outcome = Outcome.Bad;
          text = ids_line conflict.now.ids
              ++ refutation_shown names.now conflict.now.refutation.load (the_steps conflict.now.refutation);
        }) }
{
    let refutation = conflict.refutation.print(alloc, names)?;
    let mut text = ids_line(alloc, conflict.ids.as_slice())?;
    text.extend_from_slice(refutation.as_bytes())?;
    Ok(Said {
        outcome: Outcome::Bad,
        text,
    })
}

// The line `conflict`, with each id after a space.
fn ids_line(alloc: Global, ids: &[u32]) -> Result<Vec<u8>, AllocError>
    ensures line { IfOk result (λ text. text.items ≡ ids_line ids.now) }
{
    let mut text = b"conflict".to_vec(alloc)?;
    push_ids(&mut text, ids)?;
    text.push(b'\n')?;
    Ok(text)
}

// Puts the ids, each after a space.
fn push_ids(text: &mut Vec<u8>, ids: &[u32]) -> Result<(), AllocError>
    ensures pushed { OnOk result (text.new.items ≡ text.old.items ++ flat_map (λ id. 32 ∷ decimal id) ids.now) }
{
    for id in ids {
        let mut digits = Buffer::new();
        text.push(b' ')?;
        text.extend_from_slice(digits.format(*id).as_bytes())?;
    }
    Ok(())
}
