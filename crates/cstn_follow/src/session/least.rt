// The least deadline of a session.
ghost use Rattle.std.specs.Prelude.{◌≡◌, Some, IfOk};
ghost use Rattle.cstn_net.specs.Limits.{most_deadline};
ghost use Rattle.cstn_lift.specs.Lowered.{lowered};
ghost use Rattle.cstn_lift.specs.Read.{the_labelled};
ghost use Rattle.cstn_history.specs.Read.{the_history, IsKeptFor};
ghost use Rattle.cstn_history.specs.Rest.{rest};
ghost use Rattle.cstn_follow.specs.Findings.{verdict_of, IsFindingOn};
ghost use Rattle.cstn_follow.specs.LeastDeadline.{by_deadline, least_by, least_of, IsRightLeast};

use super::Session;
use crate::answers::LeastDeadline;
use crate::deadlines::deadline_by;
use crate::findings::Finding;
use cstn_change::with_deadline;
use cstn_history::RestError;
use cstn_lift::Labelled;
use cstn_net::MAX_DEADLINE;
use std::alloc::AllocError;

impl Session {
    /// The least deadline, in ticks and up to 1,000,000, by which what has happened can go on, whatever the deadline is. Takes one check,
    /// of what is left by the deadline 1,000,000. Fails for want of memory alone.
    pub fn least(&self) -> Result<LeastDeadline, AllocError>
        ensures right { IfOk result (IsRightLeast (the_labelled self.now.network) (the_history self.now.history) self.now.fresh self.now.cap) }
        ensures told { IfOk result (λ l. l ≡ least_of (the_labelled self.now.network) (the_history self.now.history) self.now.fresh self.now.cap) }
    {
        let least = self.least_found()?;
        self.verdict();
        Ok(least)
    }

    // The least deadline by the check of what is left by the latest one.
    fn least_found(&self) -> Result<LeastDeadline, AllocError>
        ensures told { IfOk result (λ l. l ≡ least_of (the_labelled self.now.network) (the_history self.now.history) self.now.fresh self.now.cap) }
    {
        let made = with_deadline(self.alloc, self.network(), MAX_DEADLINE)?;
        let Some(network) = made else {
            return Ok(LeastDeadline::Unknown);
        };
        match self
            .execution
            .finding_replanned(self.alloc, &network, self.fresh(), self.cap)
        {
            Ok(finding) => self.least_by(&network, &finding),
            Err(RestError::TooManyConstraints) => Ok(LeastDeadline::Unknown),
            Err(RestError::Memory(e)) => Err(e),
        }
    }

    // The least deadline by what was found of what is left of this network.
    fn least_by(&self, network: &Labelled, finding: &Finding) -> Result<LeastDeadline, AllocError>
        requires kept { IsKeptFor (the_labelled network.now) self.now.history }
        requires found { IsFindingOn self.now.cap (lowered (rest (the_labelled network.now) (the_history self.now.history) self.now.fresh)) finding.now }
        ensures told { IfOk result (λ l. l ≡ least_by (the_labelled network.now) (the_history self.now.history) self.now.fresh
            (Some (verdict_of finding.now))) }
    {
        match finding {
            Finding::Planned { plan, .. } => {
                let deadline = deadline_by(self.alloc, network, self.history(), plan)?;
                Ok(LeastDeadline::At(deadline))
            }
            Finding::Refuted(_) => Ok(LeastDeadline::Never),
            Finding::Unknown => Ok(LeastDeadline::Unknown),
        }
    }
}
