// What a check says of what would be left.
ghost use Rattle.std.specs.Prelude.{◌≡◌, ◌≤◌, length, IfOk};
ghost use Rattle.cstn_net.specs.Limits.{most_constraints};
ghost use Rattle.cstn_net.specs.Read.{the_network};
ghost use Rattle.cstn_lift.specs.Lowered.{lowered};
ghost use Rattle.cstn_lift.specs.Read.{the_labelled};
ghost use Rattle.cstn_lift.specs.WellFormed.{IsLabelled};
ghost use Rattle.cstn_check.specs.Needs.{said};
ghost use Rattle.cstn_follow.specs.Tries.{with_base};

use cstn_change::labels_of;
use cstn_check::{Check, Verdict, growth_decides};
use cstn_lift::{Labelled, LiftError, labelled_networks_have_no_fault, lift};
use cstn_log::Cap;
use cstn_net::{Network, network_is_well_formed};
use std::alloc::{AllocError, Global};

/// What a check says of a network, whose log may have `cap` entries; none where the log is full. Fails for want of memory alone.
pub(crate) fn said(alloc: Global, net: Network, cap: Cap) -> Result<Option<bool>, AllocError>
    ensures said { IfOk result (λ o. o ≡ said cap.entries (the_network net)) }
{
    growth_decides();
    network_is_well_formed(&net);
    let mut check = Check::start(alloc, net, cap)?;
    match check.run() {
        Verdict::Yes { .. } => Ok(Some(true)),
        Verdict::No { .. } => Ok(Some(false)),
        Verdict::Full => Ok(None),
    }
}

/// The labels of the labelled network on the time-points of another network, which has the same. Fails for want of memory alone.
pub(crate) fn with_base(
    alloc: Global,
    network: &Labelled,
    base: Network,
) -> Result<Labelled, AllocError>
    requires labelled { IsLabelled (with_base (the_labelled network.now) (the_network base)) }
    requires few { length (lowered (with_base (the_labelled network.now) (the_network base))).constraints ≤ most_constraints }
    ensures base { IfOk result (λ l. the_labelled l ≡ with_base (the_labelled network.now) (the_network base)) }
{
    labelled_networks_have_no_fault();
    let labels = labels_of(alloc, network)?;
    match lift(alloc, base, labels) {
        Ok(labelled) => Ok(labelled),
        Err(LiftError::Memory(e)) => Err(e),
        Err(_) => unreachable!(),
    }
}
