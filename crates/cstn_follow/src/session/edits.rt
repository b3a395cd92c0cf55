// Edits of the network that a session carries out.
ghost use Rattle.std.specs.Prelude.{◌≡◌, ◌<◌, ◌≤◌, ◌+◌, ◌^◌, IfOk, IfNone};
ghost use Rattle.std.specs.List.{All};
ghost use Rattle.std.specs.Option.{option_map};
ghost use Rattle.cstn_net.specs.Limits.{most_constraints, most_deadline, most_edits};
ghost use Rattle.cstn_lift.specs.Read.{the_labelled};
ghost use Rattle.cstn_history.specs.Read.{IsKeptFor};
ghost use Rattle.cstn_change.specs.Changes.{HasTimePointEnds, CanChange, edited_by, edited_base};
ghost use Rattle.cstn_change.specs.Read.{the_change, the_change_refusal};
ghost use Rattle.cstn_follow.specs.Sessions.{IsRightNow};
ghost use Rattle.cstn_follow.specs.Replans.{MakesChange, Replans, edited_now, with_due, change_refused, unreplanned};

use super::Session;
use crate::errors::ReplanError;
use cstn_change::{Change, EditError, changed, ids_stay_below, refusal, with_deadline};
use cstn_check::Verdict;
use cstn_history::RestError;
use cstn_lift::Labelled;
use cstn_net::MAX_CONSTRAINTS;

impl Session {
    /// Makes a change of the constraints, where one that is added gets an id that was never used, `fresh`. Gives the verdict on what
    /// is left then, or refuses, and then nothing has changed: with `Refused` for the first that applies of `EditLimit` (S6), `NoRoom`
    /// (S1) and `NoSuch` (S2), `ValueRange` (S3), `NotPlain` (S4) and `NotObserved` (S5), and else with `TooManyConstraints` (F8).
    pub fn edit(&mut self, change: Change) -> Result<Verdict, ReplanError>
        requires between { HasTimePointEnds (the_labelled self.old.network).base (the_change change) }
        ensures edited { MakesChange (the_change change) self.old self.new result }
        ensures right { IfOk result (IsRightNow self.new) }
    {
        if let Some(error) = self.change_refused(change) {
            return Err(ReplanError::Refused(error));
        }
        match self.apply(change) {
            Ok(verdict) => Ok(verdict),
            Err(error) => Err(unreplanned(error)),
        }
    }

    /// Sets the deadline, in ticks, which is no counted edit. Gives the verdict on what is left then, or refuses, and then nothing has
    /// changed: with `TooManyConstraints` (F8) where the network, lowered, or what is left of it then, or that lowered, has more than
    /// 16,384 constraints.
    pub fn deadline(&mut self, deadline: u32) -> Result<Verdict, RestError>
        requires range { deadline ≤ most_deadline }
        ensures due { Replans (with_due (edited_now self.old) deadline) self.old self.new result }
        ensures right { IfOk result (IsRightNow self.new) }
    {
        let network = match with_deadline(self.alloc, self.network(), deadline) {
            Ok(network) => network,
            Err(e) => return Err(RestError::Memory(e)),
        };
        let Some(network) = network else {
            return Err(RestError::TooManyConstraints);
        };
        self.replan(network, self.fresh(), self.edits)
    }

    // Why a change is refused.
    fn change_refused(&self, change: Change) -> Option<EditError>
        ensures refusal { option_map the_change_refusal result ≡ change_refused self.now (the_change change) }
        ensures below { IfNone result (self.now.edits < most_edits) }
        ensures possible { IfNone result (CanChange most_constraints (the_labelled self.now.network).base (the_change change)) }
    {
        refusal(
            self.network().base(),
            self.edits,
            MAX_CONSTRAINTS as u32,
            change,
        )
    }

    // Makes a change that isn't refused.
    fn apply(&mut self, change: Change) -> Result<Verdict, RestError>
        requires between { HasTimePointEnds (the_labelled self.old.network).base (the_change change) }
        requires possible { CanChange most_constraints (the_labelled self.old.network).base (the_change change) }
        requires few { self.old.edits < most_edits }
        ensures edited { Replans (edited_by (edited_now self.old) (the_change change)) self.old self.new result }
        ensures right { IfOk result (IsRightNow self.new) }
    {
        ids_stay_below();
        let network = match changed(self.alloc, self.network(), self.fresh(), change) {
            Ok(network) => network,
            Err(e) => return Err(RestError::Memory(e)),
        };
        let Some(network) = network else {
            return Err(RestError::TooManyConstraints);
        };
        let fresh = change.fresh_after(self.fresh());
        self.replan(network, fresh, self.edits + 1)
    }

    // Puts this network in the place of that of the session, unless too many constraints are left then.
    pub(super) fn replan(
        &mut self,
        network: Labelled,
        fresh: u32,
        edits: u32,
    ) -> Result<Verdict, RestError>
        requires kept { IsKeptFor (the_labelled network) self.old.history }
        requires above { All (λ c. c.id < fresh) (the_labelled network).base.constraints }
        requires few { edits ≤ most_edits }
        requires low { fresh ≤ 2 ^ 31 + edits }
        requires labels { (the_labelled network).labels ≡ (the_labelled self.old.network).labels }
        ensures replanned { Replans (edited_base (the_labelled network) fresh edits) self.old self.new result }
        ensures right { IfOk result (IsRightNow self.new) }
    {
        let finding = match self
            .execution
            .finding_replanned(self.alloc, &network, fresh, self.cap)
        {
            Ok(finding) => finding,
            Err(error) => return Err(error),
        };
        let verdict = finding.verdict();
        self.execution.replan(network, fresh);
        self.edits = edits;
        self.finding = finding;
        Ok(verdict)
    }
}

// Why a change isn't made, by why there is no network of what would be left.
fn unreplanned(error: RestError) -> ReplanError
    ensures { result ≡ unreplanned error }
{
    match error {
        RestError::TooManyConstraints => ReplanError::TooManyConstraints,
        RestError::Memory(e) => ReplanError::Memory(e),
    }
}
