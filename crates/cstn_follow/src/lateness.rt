// Until when the outcome of a proposition may be late.
ghost use Rattle.std.specs.Prelude.{◌≡◌, ◌≤◌, IfOk};
ghost use Rattle.cstn_net.specs.Limits.{most_deadline};
ghost use Rattle.cstn_lift.specs.Read.{the_labelled};
ghost use Rattle.cstn_check.specs.Search.{halving};
ghost use Rattle.cstn_check.specs.declared.halving.Span.{Span as TheSpan};
ghost use Rattle.cstn_history.specs.Read.{the_history};
ghost use Rattle.cstn_follow.specs.Lateness.{late_most, said_late};

use crate::executions::Execution;
use cstn_check::{MomentTrial, Span, halve};
use cstn_label::Prop;
use cstn_lift::{Labelled, observers_are_found};
use cstn_log::Cap;
use cstn_net::{MAX_DEADLINE, MAX_REACTION};
use std::alloc::{AllocError, Global};

/// The last moment from `low` on at which the outcome of a proposition can be expected so that what has happened can go on; none where
/// a log that is tried is full. Found by at most 20 checks of what is left, each of a log that may have `cap` entries. Fails for want
/// of memory alone.
pub(crate) fn last_expected(
    alloc: Global,
    execution: &Execution,
    p: Prop,
    low: u32,
    cap: Cap,
) -> Result<Option<u32>, AllocError>
    ensures { IfOk result (λ o. o
        ≡ halving (said_late (the_labelled execution.now.network) (the_history execution.now.history) execution.now.fresh cap.entries p.index) 20
        (record { low = low; high = late_most (the_labelled execution.now.network) p.index })) }
{
    let span = Span {
        low,
        high: late_most(execution.network(), p),
    };
    halve(alloc, &Expecting { execution, p, cap }, span)
}

/// The latest moment at which the outcome of a proposition may be expected, in ticks.
pub(crate) fn late_most(network: &Labelled, p: Prop) -> u32
    ensures most { result ≡ late_most (the_labelled network.now) p.index }
    ensures range { result ≤ most_deadline }
{
    observers_are_found();
    let Some(x) = network.base().observer(p) else {
        return MAX_DEADLINE;
    };
    if x.0 == 0 { MAX_REACTION } else { MAX_DEADLINE }
}

// What a check says of what is left when an outcome is expected at some moment.
#[derive(Clone, Copy)]
struct Expecting<'a> {
    execution: &'a Execution,
    p: Prop,
    cap: Cap,
}

impl<'a> MomentTrial for Expecting<'a> {
    ghost may = { λ e. Unit };

    ghost says = { λ e. said_late (the_labelled e.execution.now.network) (the_history e.execution.now.history) e.execution.now.fresh e.cap.entries e.p.index };

    fn says(&self, alloc: Global, moment: u32) -> Result<Option<bool>, AllocError> {
        self.execution.said_late(alloc, self.p, moment, self.cap)
    }
}
