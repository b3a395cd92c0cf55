// Forgiving what was done has broken, in a session.
ghost use Rattle.std.specs.Prelude.{◌≡◌, ◌<◌, ◌≤◌, ◌+◌, length, Ok, IfOk, OnErr, IsErrOf};
ghost use Rattle.cstn_net.specs.Limits.{most_edits};
ghost use Rattle.cstn_follow.specs.Forgiving.{broken_now, forgiven_now};
ghost use Rattle.cstn_follow.specs.Replans.{Replans};
ghost use Rattle.cstn_follow.specs.Sessions.{IsRightNow};

use super::Session;
use crate::errors::ForgiveError;
use crate::forgiving::{broken_ids, without_ids};
use crate::laws::parts_are_labelled;
use crate::tries::with_base;
use cstn_check::Verdict;
use cstn_history::{RestError, edits_keep_histories};
use cstn_net::MAX_EDITS;
use std::alloc::AllocError;

impl Session {
    /// The ids of the constraints that what was done has broken, in ascending order: both ends are done, at moments that don't meet it,
    /// and it is in force in some case that is left. Fails for want of memory alone.
    pub fn broken(&self) -> Result<Vec<u32>, AllocError>
        ensures broken { IfOk result (λ ids. ids.items ≡ broken_now self.now) }
    {
        broken_ids(self.alloc, self.network(), self.history())
    }

    /// Removes each constraint that what was done has broken, and gives their ids, in ascending order. Each counts as an edit. Refuses
    /// where more than 1,000,000 would be counted (S6), and then nothing has changed.
    pub fn forgive(&mut self) -> Result<Vec<u32>, ForgiveError>
        ensures broken { IfOk result (λ ids. ids.items ≡ broken_now self.old) }
        ensures few { IfOk result (λ _. self.old.edits + length (broken_now self.old) ≤ most_edits) }
        ensures forgiven { IfOk result (λ _. Replans (forgiven_now self.old) self.old self.new (Ok self.new.verdict)) }
        ensures right { IfOk result (λ _. IsRightNow self.new self.new.verdict) }
        ensures limit { IsErrOf result ForgiveError.EditLimit → most_edits < self.old.edits + length (broken_now self.old) }
        ensures same { OnErr result (self.new ≡ self.old) }
    {
        let ids = self.broken()?;
        if ids.len() as u32 > MAX_EDITS - self.edits {
            return Err(ForgiveError::EditLimit);
        }
        self.remove_all(&ids)?;
        Ok(ids)
    }

    // Removes the constraints of the ids of what is broken, which are few enough.
    fn remove_all(&mut self, ids: &[u32]) -> Result<Verdict, AllocError>
        requires broken { ids.now ≡ broken_now self.old }
        requires few { self.old.edits + length ids.now ≤ most_edits }
        ensures forgiven { IfOk result (λ v. Replans (forgiven_now self.old) self.old self.new (Ok v)) }
        ensures right { IfOk result (IsRightNow self.new) }
        ensures same { OnErr result (self.new ≡ self.old) }
    {
        parts_are_labelled();
        edits_keep_histories();
        let base = without_ids(self.alloc, self.network().base(), ids)?;
        let network = with_base(self.alloc, self.network(), base)?;
        let edits = self.edits + ids.len() as u32;
        match self.replan(network, self.fresh(), edits) {
            Ok(verdict) => Ok(verdict),
            Err(RestError::Memory(e)) => Err(e),
            Err(RestError::TooManyConstraints) => unreachable!(),
        }
    }
}
