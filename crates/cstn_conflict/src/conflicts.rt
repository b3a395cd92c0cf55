// The conflict set of a network.
ghost use Rattle.std.specs.Prelude.{ℕ, ◌≡◌, ◌<◌, ◌≤◌, false, Some, None, IfOk, IfSome, IsNone, IsOk, IsErrOf, length};
ghost use Rattle.std.specs.List.{AllPairs, Contains};
ghost use Rattle.cstn_net.specs.Strategies.{IsConsistent};
ghost use Rattle.cstn_net.specs.Read.{the_network};
ghost use Rattle.cstn_rules.specs.Derivations.{IsRefutation};
ghost use Rattle.cstn_refute.specs.Refutations.{the_steps};
ghost use Rattle.cstn_check.specs.Givers.{with_ids, network_without};
ghost use Rattle.cstn_check.specs.Growth.{load_of, most_entries};
ghost use Rattle.cstn_check.specs.Needs.{said, IfNo, Stands};
ghost use Rattle.cstn_check.specs.Verdicts.{IsRefutationOf};
ghost use Rattle.cstn_conflict.specs.Conflicts.{conflict_set, IsConflictFull, IsConflictOf};

use crate::errors::ConflictError;
use crate::ids::Ids;
use cstn_check::{Check, Finding, Trial, Verdict, find, ids_of, leave_out};
use cstn_log::Cap;
use cstn_net::{Network, network_is_well_formed};
use cstn_refute::Refutation;
use std::alloc::{AllocError, Global};

/// Ids of constraints that can't be met together, and a refutation of the network with these constraints alone.
#[derive(Debug, Drop)]
pub struct Conflict {
    pub ids: Ids,
    pub refutation: Refutation,
}

/// The conflict set of a network that isn't consistent: the constraints are tried in ascending order of their ids, and each is
/// left out for good where what is left isn't consistent without it. Each set is tried by a check whose log may have `cap`
/// entries. A constraint that gave no entry of the last no's log is left out with no check, for the log without it is the same;
/// and where no log can be full, so is one that gave no step of the last refutation, which still refutes the network without it.
/// The refutation is that of the check of the network with the conflict set. The network is dropped, also on failure.
pub fn smallest(alloc: Global, net: Network, cap: Cap) -> Result<Conflict, ConflictError>
    // But for want of memory, it fails exactly where the network is consistent or a log is full.
    ensures consistent { (load : ℕ) → IsErrOf result (ConflictError.Consistent load)
        → (load ≡ load_of (the_network net)) × (load_of (the_network net) ≤ cap.entries) × IsConsistent (the_network net) }
    ensures full { IsErrOf result ConflictError.Full → IsConflictFull cap.entries (the_network net) }
    ensures bounded { IsErrOf result ConflictError.Full → cap.entries < most_entries (the_network net) }
    ensures refused { IsOk result → (IsConsistent (the_network net) → ⊥) × (load_of (the_network net) ≤ cap.entries) }

    ensures ids { IfOk result (λ conflict. conflict_set cap.entries (the_network net) ≡ Some conflict.ids) }
    ensures ascending { IfOk result (λ conflict. AllPairs (λ a b. a < b) conflict.ids) }
    ensures some { IfOk result (λ conflict. 1 ≤ length conflict.ids) }

    // The constraints can't be met together, and without any one of them they can.
    ensures inconsistent { IfOk result (λ conflict. IsConsistent (with_ids (the_network net) conflict.ids) → ⊥) }
    ensures needed { IfOk result (λ conflict. (id : ℕ) → Contains conflict.ids id →
        IsConsistent (network_without id (with_ids (the_network net) conflict.ids))) }

    ensures refutation { IfOk result (λ conflict. IsRefutationOf (with_ids (the_network net) conflict.ids) conflict.refutation) }
    ensures refutes_all { IfOk result (λ conflict. IsRefutation (the_network net) (the_steps conflict.refutation)) }
{
    network_is_well_formed(&net);
    let whole = net.copy(alloc)?;
    match find(alloc, whole, cap)? {
        Finding::Yes { load } => Err(ConflictError::Consistent { load }),
        Finding::Full => Err(ConflictError::Full),
        Finding::No(needed) => match conflict_of(alloc, net, Finding::No(needed), cap)? {
            Some(conflict) => Ok(conflict),
            None => Err(ConflictError::Full),
        },
    }
}

// What a check says, whose log may have `cap` entries.
#[derive(Clone, Copy)]
struct Checks {
    cap: Cap,
}

impl Trial for Checks {
    ghost may = { λ c net. Unit };

    ghost says = { λ c. said c.cap.entries };

    fn find(&self, alloc: Global, net: Network) -> Result<Finding, AllocError> {
        find(alloc, net, self.cap)
    }
}

// The conflict set of a network of which a check said no, by what it found; none where a log that is tried is full.
fn conflict_of(
    alloc: Global,
    net: Network,
    first: Finding,
    cap: Cap,
) -> Result<Option<Conflict>, AllocError>
    requires no { said cap.entries (the_network net) ≡ Some false }
    requires stands { IfNo first (Stands (said cap.entries) (the_network net)) }
    ensures full { IfOk result (λ o. IsNone o → conflict_set cap.entries (the_network net) ≡ None) }
    ensures found { IfOk result (λ o. IfSome o (IsConflictOf cap.entries (the_network net))) }
{
    let checks = Checks { cap };
    let Some(left) = leave_out(alloc, &checks, net, first)? else {
        return Ok(None);
    };
    let ids = ids_of(alloc, &left)?;
    let refutation = refutation_of(alloc, left, cap)?;
    Ok(Some(Conflict {
        ids: Ids::of(ids),
        refutation,
    }))
}

// The refutation of a network of which a check says no. The network is dropped.
fn refutation_of(alloc: Global, net: Network, cap: Cap) -> Result<Refutation, AllocError>
    requires no { said cap.entries (the_network net) ≡ Some false }
    ensures refutation { IfOk result (IsRefutationOf (the_network net)) }
{
    network_is_well_formed(&net);
    let mut check = Check::start(alloc, net, cap)?;
    match check.run() {
        Verdict::No { .. } => {
            let refutation = check.refutation(alloc)?;
            Ok(refutation)
        }
        Verdict::Yes { .. } => unreachable!(),
        Verdict::Full => unreachable!(),
    }
}
