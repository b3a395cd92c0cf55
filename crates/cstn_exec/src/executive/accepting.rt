// Which moments are accepted.
ghost use Rattle.std.specs.Prelude.{◌≡◌, Some, IfOk};
ghost use Rattle.cstn_net.specs.Read.{the_network};
ghost use Rattle.cstn_plan.specs.Plans.{the_bounds};
ghost use Rattle.cstn_exec.specs.Runs.{AreAskedUnlessAwaited, due};
ghost use Rattle.cstn_exec.specs.Moves.{moment_refusal};
ghost use Rattle.cstn_exec.specs.Read.{event_refusal};

use super::Executive;
use super::search::Due;
use crate::errors::ExecError;

impl Executive {
    // The due moment, where t is accepted, and else why t is refused.
    pub(super) fn due_if_accepted(&self, t: u32) -> Result<Due, ExecError>
        ensures refused { event_refusal result ≡ moment_refusal (the_network self.now.net) (the_bounds self.now.bounds) self.now.run t }
        ensures due { IfOk result (λ d. due (the_network self.now.net) (the_bounds self.now.bounds) self.now.run ≡ Some d.moment) }
        ensures asked { IfOk result (λ d. AreAskedUnlessAwaited (the_network self.now.net) (the_bounds self.now.bounds) self.now.run d.moment d.asked) }
    {
        if self.is_done() {
            return Err(ExecError::Done);
        }
        if let Some(now) = self.last() {
            if t <= now {
                return Err(ExecError::Past { now });
            }
        }
        if let Some(prop) = self.awaited(t) {
            return Err(ExecError::Awaiting { prop });
        }
        let due = self.first_due();
        if due.moment < t {
            return Err(ExecError::Late { due: due.moment });
        }
        Ok(due)
    }
}
