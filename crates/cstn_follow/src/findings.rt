// What a check of what is left finds.
ghost use Rattle.std.specs.Prelude.{◌≡◌, ◌<◌, ◌≤◌, Some, None, length, IfOk, IsErrOf};
ghost use Rattle.std.specs.List.{All};
ghost use Rattle.cstn_net.specs.Limits.{most_constraints};
ghost use Rattle.cstn_net.specs.Networks.{IsWellFormed};
ghost use Rattle.cstn_net.specs.Read.{the_network};
ghost use Rattle.cstn_lift.specs.Lowered.{lowered};
ghost use Rattle.cstn_lift.specs.Read.{the_labelled};
ghost use Rattle.cstn_lift.specs.WellFormed.{IsLabelled};
ghost use Rattle.cstn_history.specs.Read.{the_history, IsKeptFor};
ghost use Rattle.cstn_history.specs.Rest.{rest};
ghost use Rattle.cstn_follow.specs.Copied.{IsSameFinding};
ghost use Rattle.cstn_follow.specs.Findings.{verdict_of, IsFindingOn};
ghost use Rattle.cstn_follow.specs.Following.{verdict_left};

use cstn_check::{Check, Verdict};
use cstn_history::{History, RestError, rest};
use cstn_lift::Labelled;
use cstn_log::Cap;
use cstn_net::Network;
use cstn_plan::SoundPlan;
use cstn_refute::Refutation;
use std::alloc::{AllocError, Global};

/// What a check of what is left found.
#[derive(Drop)]
pub enum Finding {
    /// It can be carried out by this plan; the log has `load` entries.
    Planned { load: u32, plan: SoundPlan },
    /// It can't be carried out.
    Refuted(Refutation),
    /// The log is full.
    Unknown,
}

impl Finding {
    /// The verdict of the check.
    pub fn verdict(&self) -> Verdict
        ensures { result ≡ verdict_of self.now }
    {
        match self {
            Finding::Planned { load, .. } => Verdict::Yes { load: *load },
            Finding::Refuted(refutation) => Verdict::No {
                load: refutation.load(),
            },
            Finding::Unknown => Verdict::Full,
        }
    }

    /// A copy of the finding. Fails for want of memory alone.
    pub fn copy(&self, alloc: Global) -> Result<Finding, AllocError>
        ensures same { IfOk result (IsSameFinding self.now) }
    {
        match self {
            Finding::Planned { load, plan } => {
                let plan = plan.copy(alloc)?;
                Ok(Finding::Planned { load: *load, plan })
            }
            Finding::Refuted(refutation) => {
                let steps = Vec::from_slice(alloc, refutation.steps())?;
                let copy = Refutation::new(refutation.load(), steps);
                Ok(Finding::Refuted(copy))
            }
            Finding::Unknown => Ok(Finding::Unknown),
        }
    }
}

/// A labelled network is in order, and its lowered network has no more constraints than it may.
pub fn labelled_network_is_in_order(network: &Labelled)
    ensures labelled { IsLabelled (the_labelled network.now) }
    ensures few { length (lowered (the_labelled network.now)).constraints ≤ most_constraints }
{
    network.base();
    network.lowered();
}

/// What a check finds of what is left. Refused where there are too many constraints.
pub fn finding_left(
    alloc: Global,
    network: &Labelled,
    history: &History,
    fresh: u32,
    cap: Cap,
) -> Result<Finding, RestError>
    requires kept { IsKeptFor (the_labelled network.now) history.now }
    requires above { All (λ c. c.id < fresh) (the_labelled network.now).base.constraints }
    requires low { fresh ≤ 4294000000 }
    ensures finding { IfOk result (IsFindingOn cap.entries (lowered (rest (the_labelled network.now) (the_history history.now) fresh))) }
    ensures verdict { IfOk result (λ f. verdict_left (the_labelled network.now) (the_history history.now) fresh cap.entries ≡ Some (verdict_of f)) }
    ensures many { IsErrOf result RestError.TooManyConstraints
        → verdict_left (the_labelled network.now) (the_history history.now) fresh cap.entries ≡ None }
{
    labelled_network_is_in_order(network);
    let remaining = match rest(alloc, network, history, fresh) {
        Ok(remaining) => remaining,
        Err(e) => return Err(e),
    };
    let (net, _) = remaining.split();
    match finding_on(alloc, net, cap) {
        Ok(finding) => Ok(finding),
        Err(e) => Err(RestError::Memory(e)),
    }
}

// What a check finds of a network.
fn finding_on(alloc: Global, net: Network, cap: Cap) -> Result<Finding, AllocError>
    requires { IsWellFormed (the_network net) }
    ensures { IfOk result (IsFindingOn cap.entries (the_network net)) }
{
    let mut check = Check::start(alloc, net, cap)?;
    match check.run() {
        Verdict::Yes { load } => Ok(Finding::Planned {
            load,
            plan: check.into_plan(),
        }),
        Verdict::No { .. } => {
            let refutation = check.refutation(alloc)?;
            Ok(Finding::Refuted(refutation))
        }
        Verdict::Full => Ok(Finding::Unknown),
    }
}
