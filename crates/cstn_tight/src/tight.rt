// The least deadline of a network, with its evidence.
ghost use Rattle.std.specs.Prelude.{ℕ, ◌≡◌, ◌<◌, ◌≤◌, ◌-◌, ◌↔◌, Some, pos, ◌≤ℤ◌, IfOk, IfSome, IsNone, IsOk, IsErrOf};
ghost use Rattle.cstn_net.specs.Limits.{most_load};
ghost use Rattle.cstn_net.specs.Networks.{IsWellFormed};
ghost use Rattle.cstn_net.specs.Strategies.{IsConsistent};
ghost use Rattle.cstn_net.specs.Read.{the_network};
ghost use Rattle.cstn_refute.specs.Refutations.{RefutationParts};
ghost use Rattle.cstn_check.specs.Growth.{log_of, load_of, most_entries};
ghost use Rattle.cstn_check.specs.Verdicts.{IsRefutationOf};
ghost use Rattle.cstn_check.specs.declared.verdicts.Verdict.{Verdict};
ghost use Rattle.cstn_tight.specs.Deadlines.{at_deadline};
ghost use Rattle.cstn_tight.specs.Evidence.{IsTightOf};
ghost use Rattle.cstn_tight.specs.Greatest.{IsFirstGreatest};

use crate::errors::TightError;
use crate::greatest::first_greatest;
use cstn_check::{Check, Verdict};
use cstn_closed::{Closed, closed_lists_are_accepted};
use cstn_log::Cap;
use cstn_net::{Network, network_is_well_formed};
use cstn_refute::Refutation;
use std::alloc::{AllocError, Global};

/// A least deadline, in ticks, the list of bounds that the yes at this deadline rests on, and the refutation of the network at
/// one tick less, which is none where the deadline is 0.
#[derive(Debug, Drop)]
pub struct Tight {
    pub deadline: u32,
    pub closed: Closed,
    pub refutation: Option<Refutation>,
}

/// The least deadline, up to the network's own, at which the network has a strategy. One check at the network's own deadline, of
/// a log that may have `cap` entries, tells all: this log holds those at all lower deadlines. The least deadline is the greatest
/// least value in it, the list of bounds that of its live entries, and the refutation is that of the check at one tick less: the
/// first entry with the greatest least value, and its ancestors. The network is dropped, also on failure.
pub fn least(alloc: Global, net: Network, cap: Cap) -> Result<Tight, TightError>
    // But for want of memory, it fails exactly where the network isn't consistent or its log is full.
    ensures no { (r : RefutationParts) → IsErrOf result (TightError.No r)
        → (load_of (the_network net) ≤ cap.entries) × (IsConsistent (the_network net) → ⊥) × IsRefutationOf (the_network net) r }
    ensures full { IsErrOf result TightError.Full → cap.entries < load_of (the_network net) }
    ensures bounded { IsErrOf result TightError.Full → cap.entries < most_entries (the_network net) }
    ensures refused { IsOk result → IsConsistent (the_network net) × (load_of (the_network net) ≤ cap.entries) }

    // It is the least deadline, with the list of bounds at it, and the refutation at one tick less.
    ensures tight { IfOk result (IsTightOf (the_network net)) }
    ensures upto { IfOk result (λ tight. tight.deadline ≤ net.deadline) }
{
    network_is_well_formed(&net);
    let mut check = Check::start(alloc, net, cap)?;
    match check.run() {
        Verdict::Yes { .. } => Ok(tight_of(alloc, check)?),
        Verdict::No { .. } => Err(TightError::No(check.refutation(alloc)?)),
        Verdict::Full => Err(TightError::Full),
    }
}

/// What a check that has answered yes says of the least deadline. Fails for want of memory alone.
pub(crate) fn tight_of(alloc: Global, check: Check) -> Result<Tight, AllocError>
    requires yes { (load : ℕ) × (check.verdict ≡ Some (Verdict.Yes load)) }
    requires consistent { IsConsistent (the_network check.net) }
    ensures tight { IfOk result (IsTightOf (the_network check.net)) }
{
    closed_lists_are_accepted();
    network_is_well_formed(check.network());
    let place = first_greatest(check.kept());
    let deadline = ticks(check.kept().entry(place).bound.least);
    let refutation = refutation_before(alloc, &check, place, deadline)?;
    let load = check.kept().len();
    let plan = check.into_plan();
    let closed = Closed::of(alloc, &plan, load)?;
    Ok(Tight {
        deadline,
        closed,
        refutation,
    })
}

// A least value that isn't below 0, in ticks.
fn ticks(least: i32) -> u32
    requires low { pos 0 ≤ℤ least }
    ensures ticks { pos result ≡ least }
{
    least as u32
}

// The refutation of the network at one tick less than the least deadline, which the first entry with the greatest least value
// has; none where it is 0.
fn refutation_before(
    alloc: Global,
    check: &Check,
    place: u32,
    deadline: u32,
) -> Result<Option<Refutation>, AllocError>
    requires yes { (load : ℕ) × (check.now.verdict ≡ Some (Verdict.Yes load)) }
    requires consistent { IsConsistent (the_network check.now.net) }
    requires few { place < most_load }
    requires first { (f : IsFirstGreatest (log_of (the_network check.now.net)) (load_of (the_network check.now.net)) place)
        × (f.entry.bound.least ≡ pos deadline) }
    ensures none { IfOk result (λ r. IsNone r ↔ (deadline ≡ 0)) }
    ensures some { IfOk result (λ r. IfSome r (IsRefutationOf (at_deadline (the_network check.now.net) (deadline - 1)))) }
{
    if deadline == 0 {
        return Ok(None);
    }
    network_is_well_formed(check.network());
    let load = place + 1;
    let steps = check.kept().part_upto(alloc, load)?;
    Ok(Some(Refutation::new(load, steps)))
}
