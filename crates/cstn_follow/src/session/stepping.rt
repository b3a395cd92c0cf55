// A further time-point in a session.
ghost use Rattle.std.specs.Prelude.{◌≡◌, ◌<◌, ◌+◌, None, Some, IfOk, IfErr, IfNone, OnErr};
ghost use Rattle.cstn_net.specs.Limits.{most_edits, most_time_points};
ghost use Rattle.cstn_net.specs.Networks.{count};
ghost use Rattle.cstn_lift.specs.Read.{the_labelled};
ghost use Rattle.cstn_history.specs.Steps.{with_place};
ghost use Rattle.cstn_follow.specs.Sessions.{IsRightNow};
ghost use Rattle.cstn_follow.specs.Stepping.{stepped_now, verdict_stepped, unstepped, no_room_now, IsStepRefusal};

use super::Session;
use crate::errors::StepError;
use cstn_check::Verdict;
use cstn_history::RestError;
use cstn_net::{MAX_EDITS, MAX_NODES};

impl Session {
    /// Puts a further time-point behind the last one, which observes nothing and has no label, and which nothing ties to the others yet.
    /// It counts as an edit. Gives the verdict on what is left then, or refuses, and then nothing has changed: with `EditLimit` (S6) where
    /// 1,000,000 edits were accepted, `NoPlace` (S9) where there are 1,024 time-points, and `TooManyConstraints` (F8).
    pub fn step(&mut self) -> Result<Verdict, StepError>
        ensures network { IfOk result (λ _. the_labelled self.new.network ≡ stepped_now self.old) }
        ensures history { IfOk result (λ _. self.new.history ≡ with_place self.old.history) }
        ensures others { IfOk result (λ v. self.new ≡ record self.old {
          network = self.new.network;
          history = self.new.history;
          edits = self.old.edits + 1;
          verdict = v;
        }) }
        ensures verdict { IfOk result (λ v. verdict_stepped self.old ≡ Some v) }
        ensures right { IfOk result (IsRightNow self.new) }
        ensures room { IfOk result (λ _. no_room_now self.old ≡ None) }
        ensures refused { IfErr result (IsStepRefusal self.old) }
        ensures same { OnErr result (self.new ≡ self.old) }
    {
        if let Some(error) = self.no_room() {
            return Err(error);
        }
        let execution = match self.execution.stepped(self.alloc) {
            Ok(execution) => execution,
            Err(error) => return Err(unstepped(error)),
        };
        let finding = match execution.finding(self.alloc, self.cap) {
            Ok(finding) => finding,
            Err(error) => return Err(unstepped(error)),
        };
        let verdict = finding.verdict();
        self.execution = execution;
        self.edits += 1;
        self.finding = finding;
        Ok(verdict)
    }

    // Why there is no room for a further time-point.
    fn no_room(&self) -> Option<StepError>
        ensures room { result ≡ no_room_now self.now }
        ensures edits { IfNone result (self.now.edits < most_edits) }
        ensures place { IfNone result (count (the_labelled self.now.network).base < most_time_points) }
    {
        if self.edits >= MAX_EDITS {
            return Some(StepError::EditLimit);
        }
        if self.network().base().count() as usize >= MAX_NODES {
            return Some(StepError::NoPlace);
        }
        None
    }
}

// Why no time-point is put in, by why there is no network of what would be left.
fn unstepped(error: RestError) -> StepError
    ensures { result ≡ unstepped error }
{
    match error {
        RestError::TooManyConstraints => StepError::TooManyConstraints,
        RestError::Memory(e) => StepError::Memory(e),
    }
}
