// `run FILE [--deadline N] [--cap CAP]`
ghost use Rattle.std.specs.Prelude.{ℕ, ◌≡◌, ◌≤◌, length, IfOk, Some};
ghost use Rattle.cstn_net.specs.Limits.{most_time_points};
ghost use Rattle.cstn_net.specs.Networks.{count};
ghost use Rattle.cstn_net.specs.Read.{the_network};
ghost use Rattle.cstn_lift.specs.Lowered.{lowered};
ghost use Rattle.cstn_lift.specs.Read.{the_labelled};
ghost use Rattle.cstn_check.specs.Decisions.{verdict};
ghost use Rattle.cstn_check.specs.Growth.{load_of};
ghost use Rattle.cstn_check.specs.declared.verdicts.Verdict.TheVariants.{Yes};
ghost use Rattle.cstn_top.specs.Plans.{ComesTo};
ghost use Rattle.cstn_top.specs.Prepared.{the_plan, FitsKind};
ghost use Rattle.cstn_top.specs.Kinds.{a_run};
ghost use Rattle.cstn_top.specs.commands.Run.{run_answer};

use super::Prepared;
use cstn_check::{Check, Judged, judge, yes_line};
use cstn_exec::Guide;
use cstn_lift::{Labelled, Labels};
use cstn_log::Cap;
use cstn_run::RunSession;
use cstn_text::Names;
use std::alloc::{AllocError, Global};

/// What is said of a labelled network: the verdict on the network that it is lowered to, and after yes the session that carries
/// its plan out. Fails for want of memory alone.
pub(crate) fn run_session(
    alloc: Global,
    labelled: Labelled,
    names: &Names,
    cap: Cap,
) -> Result<Prepared, AllocError>
    requires named { length names.now ≡ count (the_network labelled.base) }
    ensures comes { IfOk result (λ prepared. ComesTo (run_answer cap.entries names.now (the_labelled labelled)) (the_plan prepared)) }
    ensures fits { IfOk result (FitsKind a_run) }
{
    let (network, labels) = labelled.split();
    match judge(alloc, network, names, cap)? {
        Judged::Yes { load, check } => begin(alloc, load, check, labels, names, cap),
        Judged::Told(said) => Ok(Prepared::Says(said)),
    }
}

// The session of the plan that a yes leaves. All memory that its answers want, but for the room for their text, is taken here.
fn begin(
    alloc: Global,
    load: u32,
    check: Check,
    labels: Labels,
    names: &Names,
    cap: Cap,
) -> Result<Prepared, AllocError>
    requires yes { (load : ℕ) × (check.verdict ≡ Some (Yes load)) }
    requires lowered { the_network check.net ≡ lowered (the_labelled labels) }
    requires verdict { verdict cap.entries (the_network check.net) ≡ Yes (load_of (the_network check.net)) }
    requires load { load ≡ load_of (the_network check.net) }
    requires named { length names.now ≡ count (the_network labels.base) }
    requires few { length names.now ≤ most_time_points }
    ensures comes { IfOk result (λ prepared. ComesTo (run_answer cap.entries names.now (the_labelled labels)) (the_plan prepared)) }
    ensures fits { IfOk result (FitsKind a_run) }
{
    let opening = yes_line(alloc, load)?;
    let guide = Guide::start(alloc, check.into_plan(), labels)?;
    let session = RunSession::start(alloc, guide, names)?;
    Ok(Prepared::Runs { opening, session })
}
