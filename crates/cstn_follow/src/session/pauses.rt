// Until when nothing at all may happen in a session.
ghost use Rattle.std.specs.Prelude.{◌≡◌, IfOk};
ghost use Rattle.cstn_lift.specs.Read.{the_labelled};
ghost use Rattle.cstn_history.specs.Read.{the_history};
ghost use Rattle.cstn_follow.specs.Pauses.{pause_found, pause_until, pause_of, pause_by, pause_after, IsRightPause};

use super::Session;
use crate::answers::Pause;
use crate::pauses::last_now;
use cstn_check::Verdict;
use cstn_net::MAX_DEADLINE;
use std::alloc::AllocError;

impl Session {
    /// Until when nothing at all may happen: the greatest moment from now on, up to 1,000,000, such that what has happened can go on
    /// when time has passed up to it. Takes up to 20 checks. Fails for want of memory alone.
    pub fn until(&self) -> Result<Pause, AllocError>
        ensures right { IfOk result (IsRightPause (the_labelled self.now.network) (the_history self.now.history) self.now.fresh self.now.cap) }
        ensures told { IfOk result (λ p. p
            ≡ pause_of (the_labelled self.now.network) (the_history self.now.history) self.now.fresh self.now.cap self.now.verdict) }
    {
        let pause = self.pause()?;
        self.verdict();
        Ok(pause)
    }

    // Until when nothing at all may happen, unless a later moment is refused.
    fn pause(&self) -> Result<Pause, AllocError>
        ensures told { IfOk result (λ p. p
            ≡ pause_of (the_labelled self.now.network) (the_history self.now.history) self.now.fresh self.now.cap self.now.verdict) }
    {
        if !self.execution.has_room_later(self.alloc)? {
            return Ok(Pause::TooManyConstraints);
        }
        self.pause_by(self.verdict())
    }

    // By this verdict, until when nothing at all may happen.
    fn pause_by(&self, verdict: Verdict) -> Result<Pause, AllocError>
        ensures told { IfOk result (λ p. p
            ≡ pause_by (the_labelled self.now.network) (the_history self.now.history) self.now.fresh self.now.cap verdict) }
    {
        match verdict {
            Verdict::Yes { .. } => self.pause_possible(),
            Verdict::No { .. } => Ok(Pause::Impossible),
            Verdict::Full => Ok(Pause::Unknown),
        }
    }

    // Until when nothing at all may happen, where what has happened can go on.
    fn pause_possible(&self) -> Result<Pause, AllocError>
        ensures told { IfOk result (λ p. p
            ≡ pause_after (the_labelled self.now.network) (the_history self.now.history) self.now.fresh self.now.cap) }
    {
        if !self.is_anything_left() {
            return Ok(Pause::Finished);
        }
        let found = self.pause_found()?;
        Ok(pause_until(found))
    }

    // The last moment at which what has happened can go on when time has passed up to it; none where a log that is tried is full.
    fn pause_found(&self) -> Result<Option<u32>, AllocError>
        ensures found { IfOk result (λ o. o
            ≡ pause_found (the_labelled self.now.network) (the_history self.now.history) self.now.fresh self.now.cap) }
    {
        if !self.is_anything_undone() {
            return Ok(Some(MAX_DEADLINE));
        }
        last_now(self.alloc, &self.execution, self.cap)
    }
}

fn pause_until(found: Option<u32>) -> Pause
    ensures { result ≡ pause_until found }
{
    match found {
        Some(moment) => Pause::Until(moment),
        None => Pause::Unknown,
    }
}
