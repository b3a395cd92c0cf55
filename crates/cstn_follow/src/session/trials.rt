// Copies of a session, and another cap.
ghost use Rattle.std.specs.Prelude.{◌≡◌, IfOk, OnErr};
ghost use Rattle.cstn_lift.specs.Lowered.{lowered};
ghost use Rattle.cstn_lift.specs.Read.{the_labelled};
ghost use Rattle.cstn_check.specs.Decisions.{verdict};
ghost use Rattle.cstn_follow.specs.Copied.{IsSameSession};
ghost use Rattle.cstn_follow.specs.Executions.{execution_left};
ghost use Rattle.cstn_follow.specs.Sessions.{IsRightNow, execution_of};

use super::Session;
use cstn_check::Verdict;
use cstn_history::RestError;
use cstn_lift::Labelled;
use cstn_log::Cap;
use std::alloc::AllocError;

impl Session {
    /// A copy of the session. Fails for want of memory alone.
    pub fn copy(&self) -> Result<Session, AllocError>
        ensures same { IfOk result (IsSameSession self.now) }
    {
        let execution = self.execution.copy(self.alloc)?;
        let finding = self.finding.copy(self.alloc)?;
        Ok(Session {
            alloc: self.alloc,
            execution,
            cap: self.cap,
            edits: self.edits,
            finding,
        })
    }

    /// The labelled network as edited, as a value of its own. Fails for want of memory alone.
    pub fn plan(&self) -> Result<Labelled, AllocError>
        ensures plan { IfOk result (λ plan. the_labelled plan ≡ the_labelled self.now.network) }
    {
        let execution = self.execution.copy(self.alloc)?;
        Ok(execution.into_network())
    }

    /// Sets how many entries a log may have, as if the session had been started with it. Gives the verdict on what is left with this cap.
    /// Takes one check. Fails for want of memory alone, and then nothing has changed.
    pub fn set_cap(&mut self, cap: Cap) -> Result<Verdict, AllocError>
        ensures verdict { IfOk result (λ v. v ≡ verdict cap.entries (lowered (execution_left (execution_of self.old)))) }
        ensures capped { IfOk result (λ v. self.new ≡ record self.old { cap = cap.entries; verdict = v }) }
        ensures right { IfOk result (IsRightNow self.new) }
        ensures same { OnErr result (self.new ≡ self.old) }
    {
        let finding = match self.execution.finding(self.alloc, cap) {
            Ok(finding) => finding,
            Err(RestError::Memory(e)) => return Err(e),
            Err(RestError::TooManyConstraints) => unreachable!(),
        };
        let verdict = finding.verdict();
        self.cap = cap;
        self.finding = finding;
        Ok(verdict)
    }
}
