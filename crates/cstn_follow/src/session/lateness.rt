// Until when an outcome may be late in a session.
ghost use Rattle.std.specs.Prelude.{◌≡◌, ◌≤◌, IfOk};
ghost use Rattle.cstn_net.specs.Limits.{most_deadline};
ghost use Rattle.cstn_lift.specs.Read.{the_labelled};
ghost use Rattle.cstn_history.specs.Read.{the_history};
ghost use Rattle.cstn_follow.specs.Lateness.{the_late, late_found, late_from, late_possible, late_first, late_stuck, late_by, late_of, IsRightLate};

use super::Session;
use crate::answers::Lateness;
use crate::lateness::{last_expected, late_most};
use cstn_check::Verdict;
use cstn_history::{FactError, known_at};
use cstn_label::Prop;
use std::alloc::AllocError;

impl Session {
    /// Until when the outcome of a proposition may be late: the greatest moment, up to 1,000,000, or up to 1,000 where the origin observes
    /// it, such that what has happened can go on when the outcome is expected at it, whatever was expected of it before. Refused with
    /// `NotObserved` and `Told`. Takes up to 21 checks. Fails for want of memory alone.
    pub fn late(&self, p: Prop) -> Result<Lateness, AllocError>
        ensures right { IfOk result (λ l. IsRightLate (the_labelled self.now.network) (the_history self.now.history)
            self.now.fresh self.now.cap p.index (the_late l)) }
        ensures told { IfOk result (λ l. the_late l
            ≡ late_of (the_labelled self.now.network) (the_history self.now.history) self.now.fresh self.now.cap p.index self.now.verdict) }
    {
        let late = self.lateness(p)?;
        self.verdict();
        Ok(late)
    }

    // Until when it may be late, unless that isn't told.
    fn lateness(&self, p: Prop) -> Result<Lateness, AllocError>
        ensures told { IfOk result (λ l. the_late l
            ≡ late_of (the_labelled self.now.network) (the_history self.now.history) self.now.fresh self.now.cap p.index self.now.verdict) }
    {
        let Some(since) = self.history().observed_since(self.network(), p) else {
            return Ok(Lateness::Refused(FactError::NotObserved { prop: p }));
        };
        if let Some(value) = self.history().told(p) {
            return Ok(Lateness::Refused(FactError::Told { prop: p, value }));
        }
        self.late_by(p, since, self.verdict())
    }

    // By this verdict, until when it may be late, where its observer was done at this moment.
    fn late_by(&self, p: Prop, since: u32, verdict: Verdict) -> Result<Lateness, AllocError>
        requires range { since ≤ most_deadline }
        ensures told { IfOk result (λ l. the_late l
            ≡ late_by (the_labelled self.now.network) (the_history self.now.history) self.now.fresh self.now.cap p.index since verdict) }
    {
        match verdict {
            Verdict::Yes { .. } => self.late_possible(p, since),
            Verdict::No { .. } => self.late_stuck(p, since),
            Verdict::Full => Ok(Lateness::Unknown),
        }
    }

    // Where what has happened can go on, it may come now, or when it is known anyhow.
    fn late_possible(&self, p: Prop, since: u32) -> Result<Lateness, AllocError>
        requires range { since ≤ most_deadline }
        ensures told { IfOk result (λ l. the_late l
            ≡ late_possible (the_labelled self.now.network) (the_history self.now.history) self.now.fresh self.now.cap p.index since) }
    {
        let known = known_at(self.network(), self.history(), p, since);
        let low = late_most(self.network(), p).min(self.history().now().max(known));
        self.late_from(p, low)
    }

    // Where what has happened can't go on, the first moment is tried at which it may be expected.
    fn late_stuck(&self, p: Prop, since: u32) -> Result<Lateness, AllocError>
        requires range { since ≤ most_deadline }
        ensures told { IfOk result (λ l. the_late l
            ≡ late_stuck (the_labelled self.now.network) (the_history self.now.history) self.now.fresh self.now.cap p.index since) }
    {
        let first = self.history().now().max(since + 1);
        if late_most(self.network(), p) < first {
            return Ok(Lateness::Never);
        }
        let said = self.execution.said_late(self.alloc, p, first, self.cap)?;
        self.late_first(p, first, said)
    }

    // By what is said of the first moment at which it may be expected, until when it may be late.
    fn late_first(&self, p: Prop, first: u32, said: Option<bool>) -> Result<Lateness, AllocError>
        ensures told { IfOk result (λ l. the_late l
            ≡ late_first (the_labelled self.now.network) (the_history self.now.history) self.now.fresh self.now.cap p.index first said) }
    {
        match said {
            None => Ok(Lateness::Unknown),
            Some(true) => self.late_from(p, first),
            Some(false) => Ok(Lateness::Never),
        }
    }

    // The last moment from one on at which it may come.
    fn late_from(&self, p: Prop, low: u32) -> Result<Lateness, AllocError>
        ensures told { IfOk result (λ l. the_late l
            ≡ late_from (the_labelled self.now.network) (the_history self.now.history) self.now.fresh self.now.cap p.index low) }
    {
        let found = last_expected(self.alloc, &self.execution, p, low, self.cap)?;
        Ok(late_found(found))
    }
}

fn late_found(found: Option<u32>) -> Lateness
    ensures { the_late result ≡ late_found found }
{
    match found {
        Some(moment) => Lateness::Until(moment),
        None => Lateness::Unknown,
    }
}
