// Facts that a session is told.
ghost use Rattle.std.specs.Prelude.{◌≡◌, Ok, Err, IfOk, IfErr};
ghost use Rattle.cstn_lift.specs.Read.{the_labelled};
ghost use Rattle.cstn_history.specs.Facts.{told_refusal, expected_refusal, ready_refusal, now_refusal, at_now, with_told, with_expected, with_ready};
ghost use Rattle.cstn_history.specs.Read.{the_history, IsKeptFor, the_fact_refusal};
ghost use Rattle.cstn_follow.specs.FactLines.{all_done, unless_fact_refused};
ghost use Rattle.cstn_follow.specs.Sessions.{IsRightNow, Records, unrecorded};

use super::Session;
use crate::errors::FollowError;
use cstn_check::Verdict;
use cstn_history::{FactError, History, RestError};
use cstn_label::{NodeId, Prop};
use cstn_lift::Labelled;

impl Session {
    /// Records that these time-points were done at this moment, in ticks, which may be past; where it is above now, it is that moment
    /// now. Gives the verdict on what is left then, or refuses, and then nothing has changed: for a time-point with the first that
    /// applies of `OutOfRange`, `NoSuch`, `Done` and `Undecided`, in turn, and with `TooManyConstraints`.
    pub fn did(&mut self, moment: u32, nodes: &[NodeId]) -> Result<Verdict, FollowError>
        ensures recorded { Records (all_done (the_labelled self.old.network) moment (the_history self.old.history) nodes.now) self.old self.new result }
        ensures right { IfOk result (IsRightNow self.new) }
    {
        let mut later = self.history().copy(self.alloc)?;
        if let Err(error) = execute_all(&mut later, self.execution.network(), moment, nodes) {
            return Err(FollowError::Refused(error));
        }
        self.record(later)
    }

    /// Records that the outcome of a proposition came at this moment, in ticks, which may be past; where it is above now, it is that
    /// moment now. Else as `did`, but for the refusals: the first that applies of `OutOfRange` for a moment above 1,000,000,
    /// `NotObserved`, `Told`, `OutOfRange` for a moment before its observer was done, and `TooManyConstraints`.
    pub fn saw(&mut self, moment: u32, p: Prop, value: bool) -> Result<Verdict, FollowError>
        ensures recorded { Records (unless_fact_refused (told_refusal (the_labelled self.old.network) (the_history self.old.history) moment p.index)
            (Ok (with_told (the_history self.old.history) moment p.index value))) self.old self.new result }
        ensures right { IfOk result (IsRightNow self.new) }
    {
        let mut later = self.history().copy(self.alloc)?;
        if let Err(error) = later.observe(self.execution.network(), moment, p, value) {
            return Err(FollowError::Refused(error));
        }
        self.record(later)
    }

    /// Records that it is this moment, in ticks, and that nothing else has happened. Else as `did`, but for the refusals: the first that
    /// applies of `Past`, `OutOfRange` and `TooManyConstraints`.
    pub fn now(&mut self, moment: u32) -> Result<Verdict, FollowError>
        ensures recorded { Records (unless_fact_refused (now_refusal (the_history self.old.history) moment) (Ok (at_now (the_history self.old.history) moment)))
            self.old self.new result }
        ensures right { IfOk result (IsRightNow self.new) }
    {
        let mut later = self.history().copy(self.alloc)?;
        if let Err(error) = later.pass(moment) {
            return Err(FollowError::Refused(error));
        }
        self.record(later)
    }

    /// Records that the outcome of a proposition is expected at this moment, in ticks, and not before. Else as `did`, but for the
    /// refusals: the first that applies of `NotObserved`, `Told`, `OutOfRange` and `TooManyConstraints`.
    pub fn expect(&mut self, moment: u32, p: Prop) -> Result<Verdict, FollowError>
        ensures recorded { Records (unless_fact_refused (expected_refusal (the_labelled self.old.network) (the_history self.old.history) moment p.index)
            (Ok (with_expected (the_history self.old.history) moment p.index))) self.old self.new result }
        ensures right { IfOk result (IsRightNow self.new) }
    {
        let mut later = self.history().copy(self.alloc)?;
        if let Err(error) = later.expect(self.execution.network(), moment, p) {
            return Err(FollowError::Refused(error));
        }
        self.record(later)
    }

    /// Records that a time-point can't be done before this moment, in ticks, whatever was recorded of this before; 0 takes it back. Else
    /// as `did`, but for the refusals: the first that applies of `OutOfRange`, `NoSuch`, `Done`, `Undecided` where it is ruled out, and
    /// `TooManyConstraints`.
    pub fn make_ready(&mut self, moment: u32, x: NodeId) -> Result<Verdict, FollowError>
        ensures recorded { Records (unless_fact_refused (ready_refusal (the_labelled self.old.network) (the_history self.old.history) moment x.0)
            (Ok (with_ready (the_history self.old.history) moment x.0))) self.old self.new result }
        ensures right { IfOk result (IsRightNow self.new) }
    {
        let mut later = self.history().copy(self.alloc)?;
        if let Err(error) = later.make_ready(self.execution.network(), moment, x) {
            return Err(FollowError::Refused(error));
        }
        self.record(later)
    }

    // Makes this what has happened, unless too many constraints are left then.
    fn record(&mut self, later: History) -> Result<Verdict, FollowError>
        requires kept { IsKeptFor (the_labelled self.old.network) later }
        ensures recorded { Records (Ok (the_history later)) self.old self.new result }
        ensures right { IfOk result (IsRightNow self.new) }
    {
        let finding = match self.execution.finding_after(self.alloc, &later, self.cap) {
            Ok(finding) => finding,
            Err(error) => return Err(unrecorded(error)),
        };
        let verdict = finding.verdict();
        self.execution.record(later);
        self.finding = finding;
        Ok(verdict)
    }
}

// Why facts aren't recorded, by why there is no network of what is left.
fn unrecorded(error: RestError) -> FollowError
    ensures { result ≡ unrecorded error }
{
    match error {
        RestError::TooManyConstraints => FollowError::TooManyConstraints,
        RestError::Memory(e) => FollowError::Memory(e),
    }
}

// Records that these time-points were done at this moment, one after the other, up to the first that can't be.
fn execute_all(
    history: &mut History,
    network: &Labelled,
    moment: u32,
    nodes: &[NodeId],
) -> Result<(), FactError>
    requires kept { IsKeptFor (the_labelled network.now) history.old }
    ensures done { IfOk result (λ _. all_done (the_labelled network.now) moment (the_history history.old) nodes.now ≡ Ok (the_history history.new)) }
    ensures refused { IfErr result (λ e. all_done (the_labelled network.now) moment (the_history history.old) nodes.now ≡ Err (the_fact_refusal e)) }
    ensures kept { IsKeptFor (the_labelled network.now) history.new }
{
    for x in nodes {
        if let Err(error) = history.execute(network, moment, *x) {
            return Err(error);
        }
    }
    Ok(())
}
