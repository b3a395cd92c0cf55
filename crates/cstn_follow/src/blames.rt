// Which constraints are to blame where a history can't go on.
ghost use Rattle.std.specs.Prelude.{ℕ, ◌≡◌, ◌<◌, ◌≤◌, None, Some, option_map, IfOk, IsErrOf};
ghost use Rattle.std.specs.List.{All, AllPairs, Contains};
ghost use Rattle.cstn_net.specs.Read.{the_network};
ghost use Rattle.cstn_check.specs.Givers.{is_of, but, IsPart};
ghost use Rattle.cstn_check.specs.Needs.{answer, IfNo, Stands};
ghost use Rattle.cstn_lift.specs.Read.{the_labelled};
ghost use Rattle.cstn_history.specs.Continuations.{Can};
ghost use Rattle.cstn_history.specs.Rest.{rest};
ghost use Rattle.cstn_history.specs.Read.{the_history, IsKeptFor};
ghost use Rattle.cstn_history.specs.Handed.{HasFewConstraints};
ghost use Rattle.cstn_follow.specs.Blame.{TakesTries, network_alone, said_by_network, ids_to_blame};

use crate::errors::BlameError;
use crate::laws::{blame_is_found, parts_are_labelled};
use crate::needs::{find_by_sources, sources};
use crate::tries::with_base;
use cstn_check::{Finding, Trial, ids_of, leave_out};
use cstn_history::{History, RestError, edits_keep_histories, rest};
use cstn_lift::Labelled;
use cstn_log::Cap;
use cstn_net::Network;
use std::alloc::{AllocError, Global};

/// The ids of the constraints that are to blame where a history can't go on, in ascending order: those that are left when, of all
/// constraints, each is left out for good without which the history can't go on either, in ascending order of their ids. None
/// where what has happened can't be gone on with even without constraints. Takes a check of what is left, and one more for each
/// constraint that gave a step of the last refutation, or, where a log can be full, an entry of the last log: without any other one
/// there is a no as well. A log may have `cap` entries. The ids of the network are below `fresh`, which is at most 4,294,000,000.
pub fn blame(
    alloc: Global,
    network: &Labelled,
    history: &History,
    fresh: u32,
    cap: Cap,
) -> Result<Vec<u32>, BlameError>
    requires kept { IsKeptFor (the_labelled network.now) history.now }
    requires above { All (λ c. c.id < fresh) (the_labelled network.now).base.constraints }
    requires low { fresh ≤ 4294000000 }
    requires room { HasFewConstraints (rest (the_labelled network.now) (the_history history.now) fresh) }
    requires cannot { Can (the_labelled network.now) (the_history history.now) → ⊥ }

    // By these constraints alone the history can't go on, and without any one of them it can.
    ensures cannot { IfOk result (λ ids. Can (network_alone (the_labelled network.now) (is_of ids.items)) (the_history history.now) → ⊥) }
    ensures needed { IfOk result (λ ids. (id : ℕ) → Contains ids.items id
        → Can (network_alone (the_labelled network.now) (but id (is_of ids.items))) (the_history history.now)) }
    ensures ascending { IfOk result (λ ids. AllPairs (λ a b. a < b) ids.items) }

    // Unless memory is refused, it is refused exactly where a log that is tried is full.
    ensures blamed { IfOk result (λ ids. ids_to_blame (the_labelled network.now) (the_history history.now) fresh cap.entries ≡ Some ids.items) }
    ensures full { IsErrOf result BlameError.Full → ids_to_blame (the_labelled network.now) (the_history history.now) fresh cap.entries ≡ None }
{
    blame_is_found();
    network.base();
    match blamed(alloc, network, history, fresh, cap) {
        Ok(Some(ids)) => Ok(ids),
        Ok(None) => Err(BlameError::Full),
        Err(e) => Err(BlameError::Memory(e)),
    }
}

// The ids that are left once each constraint was tried; none where a log that is tried is full.
fn blamed(
    alloc: Global,
    network: &Labelled,
    history: &History,
    fresh: u32,
    cap: Cap,
) -> Result<Option<Vec<u32>>, AllocError>
    requires tries { TakesTries (the_labelled network.now) history.now fresh }
    ensures { IfOk result (λ o. option_map (λ ids. ids.items) o ≡ ids_to_blame (the_labelled network.now) (the_history history.now) fresh cap.entries) }
{
    let blaming = Blaming {
        network,
        history,
        fresh,
        cap,
    };
    let whole = network.base().copy(alloc)?;
    let first = blaming.find(alloc, whole)?;
    let whole = network.base().copy(alloc)?;
    let Some(left) = leave_out(alloc, &blaming, whole, first)? else {
        return Ok(None);
    };
    let ids = ids_of(alloc, &left)?;
    Ok(Some(ids))
}

// What a check says of what is left by some of the constraints of a labelled network.
#[derive(Clone, Copy)]
struct Blaming<'a> {
    network: &'a Labelled,
    history: &'a History,
    fresh: u32,
    cap: Cap,
}

impl<'a> Trial for Blaming<'a> {
    ghost may = { λ b net. TakesTries (the_labelled b.network.now) b.history.now b.fresh × IsPart (the_labelled b.network.now).base net };

    ghost says = { λ b. said_by_network (the_labelled b.network.now) (the_history b.history.now) b.fresh b.cap.entries };

    fn find(&self, alloc: Global, net: Network) -> Result<Finding, AllocError> {
        said_by(alloc, self.network, self.history, self.fresh, net, self.cap)
    }
}

// What a check says of what is left by the constraints of this network.
fn said_by(
    alloc: Global,
    network: &Labelled,
    history: &History,
    fresh: u32,
    base: Network,
    cap: Cap,
) -> Result<Finding, AllocError>
    requires tries { TakesTries (the_labelled network.now) history.now fresh }
    requires part { IsPart (the_labelled network.now).base (the_network base) }
    ensures said { IfOk result (λ o. answer o ≡ said_by_network (the_labelled network.now) (the_history history.now) fresh cap.entries (the_network base)) }
    ensures stands { IfOk result (λ o. IfNo o (Stands (said_by_network (the_labelled network.now) (the_history history.now) fresh cap.entries)
        (the_network base))) }
{
    parts_are_labelled();
    edits_keep_histories();
    network.base();
    network.lowered();
    let less = with_base(alloc, network, base)?;
    let remaining = match rest(alloc, &less, history, fresh) {
        Ok(remaining) => remaining,
        Err(RestError::Memory(e)) => return Err(e),
        Err(RestError::TooManyConstraints) => unreachable!(),
    };
    let sources = sources(alloc, &remaining)?;
    let (net, _) = remaining.split();
    let said = find_by_sources(alloc, net, &sources, cap)?;
    Ok(said)
}
