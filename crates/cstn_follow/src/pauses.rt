// Until when nothing at all may happen.
ghost use Rattle.std.specs.Prelude.{◌≡◌, ◌≤◌, IfOk};
ghost use Rattle.cstn_net.specs.Limits.{most_deadline};
ghost use Rattle.cstn_lift.specs.Read.{the_labelled};
ghost use Rattle.cstn_check.specs.Search.{halving};
ghost use Rattle.cstn_check.specs.declared.halving.Span.{Span as TheSpan};
ghost use Rattle.cstn_history.specs.Read.{the_history};
ghost use Rattle.cstn_follow.specs.Pauses.{said_at};

use crate::executions::Execution;
use cstn_check::{MomentTrial, Span, halve};
use cstn_log::Cap;
use std::alloc::{AllocError, Global};

/// The last moment from now on, and up to the deadline, at which what has happened can go on; none where a log that is tried is full.
/// Found by at most 20 checks of what is left, each of a log that may have `cap` entries. Fails for want of memory alone.
pub(crate) fn last_now(
    alloc: Global,
    execution: &Execution,
    cap: Cap,
) -> Result<Option<u32>, AllocError>
    ensures { IfOk result (λ o. o
        ≡ halving (said_at (the_labelled execution.now.network) (the_history execution.now.history) execution.now.fresh cap.entries) 20
        (record { low = execution.now.history.time; high = execution.now.network.base.deadline })) }
{
    let span = Span {
        low: execution.history().now(),
        high: execution.network().base().deadline(),
    };
    halve(alloc, &Pausing { execution, cap }, span)
}

// What a check says of what is left at some moment.
#[derive(Clone, Copy)]
struct Pausing<'a> {
    execution: &'a Execution,
    cap: Cap,
}

impl<'a> MomentTrial for Pausing<'a> {
    ghost may = { λ p. Unit };

    ghost says = { λ p. said_at (the_labelled p.execution.now.network) (the_history p.execution.now.history) p.execution.now.fresh p.cap.entries };

    fn says(&self, alloc: Global, moment: u32) -> Result<Option<bool>, AllocError> {
        self.execution.said_at(alloc, moment, self.cap)
    }
}
