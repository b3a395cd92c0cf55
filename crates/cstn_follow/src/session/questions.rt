// Questions to a session.
ghost use Rattle.std.specs.Prelude.{◌≡◌, ◌<◌, None, IsTrue, IfOk, IfSome, IfNone};
ghost use Rattle.std.specs.Option.{option_map};
ghost use Rattle.cstn_net.specs.Networks.{count};
ghost use Rattle.cstn_net.specs.Read.{the_network};
ghost use Rattle.cstn_lift.specs.Lowered.{lowered};
ghost use Rattle.cstn_lift.specs.Read.{the_labelled};
ghost use Rattle.cstn_plan.specs.Plans.{the_bounds};
ghost use Rattle.cstn_check.specs.Growth.{log_of, live_bounds};
ghost use Rattle.cstn_history.specs.Facts.{wait_refusal};
ghost use Rattle.cstn_history.specs.Read.{the_history, the_fact_refusal};
ghost use Rattle.cstn_follow.specs.Answers.{IsRightOutlook, TellsOutlook, IsLeftRefuted, IsRightLatest, TellsLatest, IsRightBlame, TellsBlame};
ghost use Rattle.cstn_follow.specs.Answers.{SaidNo, SaidYes, HasRoomLeftToWait, CanAskWaits, wait_found};
ghost use Rattle.cstn_follow.specs.Executions.{execution_left};
ghost use Rattle.cstn_follow.specs.Pauses.{is_undone};
ghost use Rattle.cstn_follow.specs.Sessions.{execution_of};

use super::Session;
use crate::answers::{Latest, Outlook, ToBlame};
use crate::errors::{BlameError, WaitError};
use crate::findings::Finding;
use crate::waits::has_room;
use cstn_check::Verdict;
use cstn_history::{FactError, RestError};
use cstn_label::NodeId;
use cstn_lift::Labelled;
use cstn_next::next;
use cstn_plan::SoundPlan;
use cstn_refute::Refutation;
use std::alloc::AllocError;

impl Session {
    /// What is next. Takes no check, but one pass over the bounds of the plan that the last one left. Fails for want of memory alone.
    pub fn next(&self) -> Result<Outlook, AllocError>
        ensures right { IfOk result (IsRightOutlook (the_labelled self.now.network) (the_history self.now.history)) }
        ensures told { IfOk result (TellsOutlook self.now) }
    {
        match &self.finding {
            Finding::Planned { plan, .. } => self.next_planned(plan),
            Finding::Refuted(_) => Ok(Outlook::Impossible),
            Finding::Unknown => Ok(Outlook::Unknown),
        }
    }

    // What is next by this plan of what is left.
    fn next_planned(&self, plan: &SoundPlan) -> Result<Outlook, AllocError>
        requires yes { SaidYes self.now }
        requires planned { the_network plan.now.net ≡ lowered (execution_left (execution_of self.now)) }
        requires live { the_bounds plan.now.bounds ≡ live_bounds (log_of (lowered (execution_left (execution_of self.now)))) }
        ensures right { IfOk result (IsRightOutlook (the_labelled self.now.network) (the_history self.now.history)) }
        ensures told { IfOk result (TellsOutlook self.now) }
    {
        let found = next(self.alloc, self.network(), self.history(), plan)?;
        match found {
            Some(moment) => Ok(Outlook::Next(moment)),
            None => Ok(Outlook::Finished),
        }
    }

    /// After a no the refutation of what is left, lowered.
    pub fn refutation(&self) -> Option<&Refutation>
        ensures refuted { IfSome result (λ r. IsLeftRefuted self.now r.now) }
        ensures none { IfNone result (SaidNo self.now → ⊥) }
    {
        match &self.finding {
            Finding::Refuted(refutation) => Some(refutation),
            _ => None,
        }
    }

    /// What is left. Fails for want of memory alone.
    pub fn rest(&self) -> Result<Labelled, AllocError>
        ensures rest { IfOk result (λ l. the_labelled l ≡ execution_left (execution_of self.now)) }
    {
        match self.execution.rest(self.alloc) {
            Ok(rest) => Ok(rest),
            Err(RestError::Memory(e)) => Err(e),
            Err(RestError::TooManyConstraints) => unreachable!(),
        }
    }

    /// Until when a time-point can wait: the greatest moment at which or after which it can still be executed, wherever it is
    /// executed, so that what has happened can go on. Takes up to 20 checks. Fails for want of memory alone.
    pub fn latest(&self, x: NodeId) -> Result<Latest, AllocError>
        ensures right { IfOk result (IsRightLatest (the_labelled self.now.network) (the_history self.now.history) x) }
        ensures told { IfOk result (TellsLatest self.now x) }
    {
        if let Some(error) = self.wait_refusal(x) {
            return Ok(Latest::Refused(error));
        }
        if !has_room(&self.rest()?) {
            return Ok(Latest::TooManyConstraints);
        }
        self.latest_left(x)
    }

    // Why it isn't told until when a time-point can wait.
    fn wait_refusal(&self, x: NodeId) -> Option<FactError>
        ensures { option_map the_fact_refusal result ≡ wait_refusal (the_labelled self.now.network) (the_history self.now.history) x.0 }
    {
        self.history().wait_refusal(self.network(), x)
    }

    // Until when a time-point that is left can wait, for which there is room.
    fn latest_left(&self, x: NodeId) -> Result<Latest, AllocError>
        requires left { wait_refusal (the_labelled self.now.network) (the_history self.now.history) x.0 ≡ None }
        requires room { HasRoomLeftToWait self.now }
        ensures right { IfOk result (IsRightLatest (the_labelled self.now.network) (the_history self.now.history) x) }
        ensures told { IfOk result (TellsLatest self.now x) }
    {
        match self.verdict() {
            Verdict::Yes { .. } => self.latest_possible(x),
            Verdict::No { .. } => Ok(Latest::Impossible),
            Verdict::Full => Ok(Latest::Unknown),
        }
    }

    // Until when it can wait, where what has happened can go on.
    fn latest_possible(&self, x: NodeId) -> Result<Latest, AllocError>
        requires left { wait_refusal (the_labelled self.now.network) (the_history self.now.history) x.0 ≡ None }
        requires room { HasRoomLeftToWait self.now }
        requires yes { SaidYes self.now }
        ensures right { IfOk result (IsRightLatest (the_labelled self.now.network) (the_history self.now.history) x) }
        ensures told { IfOk result (TellsLatest self.now x) }
    {
        match self.execution.latest(self.alloc, x, self.cap) {
            Ok(moment) => Ok(Latest::Until(moment)),
            Err(WaitError::Full) => Ok(Latest::Unknown),
            Err(WaitError::TooManyConstraints) => unreachable!(),
            Err(WaitError::Memory(e)) => Err(e),
        }
    }

    /// Until when a time-point that is left to be done can wait, in ticks, where what has happened can go on and there is room for one
    /// constraint more; none where a log that is tried is full. Takes up to 20 checks. Fails for want of memory alone.
    pub(crate) fn wait_found(&self, x: NodeId) -> Result<Option<u32>, AllocError>
        requires inside { x.0 < count (the_labelled self.now.network).base }
        requires undone { IsTrue (is_undone (the_labelled self.now.network) (the_history self.now.history) x.0) }
        requires asks { CanAskWaits self.now }
        ensures found { IfOk result (λ o. o ≡ wait_found self.now x.0) }
    {
        match self.execution.latest(self.alloc, x, self.cap) {
            Ok(moment) => Ok(Some(moment)),
            Err(WaitError::Full) => Ok(None),
            Err(WaitError::TooManyConstraints) => unreachable!(),
            Err(WaitError::Memory(e)) => Err(e),
        }
    }

    /// Which constraints are to blame where what has happened can't go on. Takes a check, and one more for each constraint that the
    /// last refutation needs. Fails for want of memory alone.
    pub fn blame(&self) -> Result<ToBlame, AllocError>
        ensures right { IfOk result (IsRightBlame (the_labelled self.now.network) (the_history self.now.history)) }
        ensures told { IfOk result (TellsBlame self.now) }
    {
        match self.verdict() {
            Verdict::Yes { .. } => Ok(ToBlame::Nothing),
            Verdict::No { .. } => self.blame_stuck(),
            Verdict::Full => Ok(ToBlame::Unknown),
        }
    }

    // Which constraints are to blame, where what has happened can't go on.
    fn blame_stuck(&self) -> Result<ToBlame, AllocError>
        requires no { SaidNo self.now }
        ensures right { IfOk result (IsRightBlame (the_labelled self.now.network) (the_history self.now.history)) }
        ensures told { IfOk result (TellsBlame self.now) }
    {
        match self.execution.blame(self.alloc, self.cap) {
            Ok(ids) => Ok(ToBlame::Constraints(ids)),
            Err(BlameError::Full) => Ok(ToBlame::Unknown),
            Err(BlameError::Memory(e)) => Err(e),
        }
    }
}
