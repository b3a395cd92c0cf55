// Labelled networks that are carried out.
ghost use Rattle.std.specs.Prelude.{ℕ, ◌≡◌, ◌<◌, ◌≤◌, ◌^◌, None, Some, IsTrue, IfOk, IfErr, IsOk, IsErrOf, length, max};
ghost use Rattle.std.specs.List.{All, AllPairs, Contains};
ghost use Rattle.cstn_net.specs.Limits.{most_constraints, most_deadline, most_time_points};
ghost use Rattle.cstn_net.specs.Networks.{IsValue, count};
ghost use Rattle.cstn_lift.specs.Lowered.{lowered};
ghost use Rattle.cstn_lift.specs.Read.{the_labelled};
ghost use Rattle.cstn_history.specs.Continuations.{Can, CanWait};
ghost use Rattle.cstn_history.specs.Facts.{at_now};
ghost use Rattle.cstn_history.specs.Handed.{HasFewConstraints, IsRestRefusal};
ghost use Rattle.cstn_history.specs.Histories.{nothing_yet};
ghost use Rattle.cstn_history.specs.Read.{the_history, IsKeptFor};
ghost use Rattle.cstn_history.specs.Rest.{is_left, rest};
ghost use Rattle.cstn_history.specs.Steps.{stepped, with_place};
ghost use Rattle.cstn_change.specs.Changes.{id_above};
ghost use Rattle.cstn_check.specs.Givers.{but, is_of};
ghost use Rattle.cstn_follow.specs.Blame.{network_alone, ids_to_blame};
ghost use Rattle.cstn_follow.specs.Copied.{IsSameExecution};
ghost use Rattle.cstn_follow.specs.Executions.{IsExecution, execution_left};
ghost use Rattle.cstn_follow.specs.Findings.{verdict_of, IsFindingOn};
ghost use Rattle.cstn_follow.specs.Following.{verdict_left};
ghost use Rattle.cstn_follow.specs.Lateness.{said_late};
ghost use Rattle.cstn_follow.specs.Pauses.{said_of, said_at, has_room_later};
ghost use Rattle.cstn_follow.specs.Raises.{said_raised};
ghost use Rattle.cstn_follow.specs.Waiting.{HasRoomToWait, waits_until};

use crate::blames::blame;
use crate::errors::{BlameError, WaitError};
use crate::findings::{Finding, finding_left, labelled_network_is_in_order};
use crate::waits::by;
use cstn_change::{Change, changed, id_above, with_deadline};
use cstn_check::Verdict;
use cstn_history::{History, RestError, rest, stepped, steps_keep_histories};
use cstn_label::{NodeId, Prop};
use cstn_lift::Labelled;
use cstn_log::Cap;
use std::alloc::{AllocError, Global};
use std::marker::Model;

/// A labelled network that is carried out: the network, what has happened so far, and an id above all that its constraints ever
/// had.
#[derive(Drop)]
pub struct Execution {
    network: Labelled,
    history: History,
    fresh: u32,
}

impl Model for Execution {
    ghost use Rattle.cstn_follow.specs.Executions.{ExecutionParts, IsExecution};

    ghost Value = { ExecutionParts };

    ghost view = { λ e. record { network = e.network; history = e.history; fresh = e.fresh } };

    ghost invariant = { λ e. IsExecution (record { network = e.network; history = e.history; fresh = e.fresh }) };
}

impl Execution {
    /// The execution of a labelled network of which nothing has happened yet. Fails for want of memory alone.
    pub fn start(alloc: Global, network: Labelled) -> Result<Execution, AllocError>
        requires ids { All (λ c. c.id < 2 ^ 31) (the_labelled network).base.constraints }
        ensures network { IfOk result (λ e. e.network ≡ network) }
        ensures nothing { IfOk result (λ e. the_history e.history ≡ nothing_yet) }
        ensures fresh { IfOk result (λ e. e.fresh ≡ id_above (the_labelled network).base.constraints) }
        ensures small { IfOk result (λ e. e.fresh ≤ 2 ^ 31) }
        ensures execution { IfOk result IsExecution }
    {
        labelled_network_is_in_order(&network);
        let history = History::new(alloc, &network)?;
        let fresh = id_above(network.base());
        Ok(Execution {
            network,
            history,
            fresh,
        })
    }

    /// A copy of the execution. Fails for want of memory alone.
    pub fn copy(&self, alloc: Global) -> Result<Execution, AllocError>
        ensures same { IfOk result (IsSameExecution self.now) }
        ensures execution { IfOk result IsExecution }
    {
        let deadline = self.network.base().deadline();
        let Some(network) = with_deadline(alloc, &self.network, deadline)? else {
            unreachable!();
        };
        labelled_network_is_in_order(&network);
        let history = self.history.copy(alloc)?;
        Ok(Execution {
            network,
            history,
            fresh: self.fresh,
        })
    }

    /// The network.
    pub fn network(&self) -> &Labelled
        ensures network { result.now ≡ self.now.network }
    {
        &self.network
    }

    /// The network, as a value of its own.
    pub fn into_network(self) -> Labelled
        ensures network { result ≡ self.network }
    {
        self.network
    }

    /// What has happened.
    pub fn history(&self) -> &History
        ensures history { result.now ≡ self.now.history }
    {
        &self.history
    }

    /// An id above all that constraints ever had, which the next one gets.
    pub fn fresh(&self) -> u32
        ensures fresh { result ≡ self.now.fresh }
    {
        self.fresh
    }

    /// What is left. Refused where there are too many constraints.
    pub fn rest(&self, alloc: Global) -> Result<Labelled, RestError>
        ensures rest { IfOk result (λ l. the_labelled l ≡ execution_left self.now) }
        ensures refused { IfErr result (IsRestRefusal (execution_left self.now)) }
    {
        rest(alloc, &self.network, &self.history, self.fresh)
    }

    /// What a check finds of what is left. Refused where there are too many constraints.
    pub fn finding(&self, alloc: Global, cap: Cap) -> Result<Finding, RestError>
        ensures finding { IfOk result (IsFindingOn cap.entries (lowered (execution_left self.now))) }
        ensures verdict { IfOk result (λ f. verdict_left (the_labelled self.now.network) (the_history self.now.history) self.now.fresh cap.entries
            ≡ Some (verdict_of f)) }
        ensures many { IsErrOf result RestError.TooManyConstraints
            → verdict_left (the_labelled self.now.network) (the_history self.now.history) self.now.fresh cap.entries ≡ None }
    {
        finding_left(alloc, &self.network, &self.history, self.fresh, cap)
    }

    /// What a check would find of what is left after another history. Refused where there would be too many constraints.
    pub fn finding_after(
        &self,
        alloc: Global,
        later: &History,
        cap: Cap,
    ) -> Result<Finding, RestError>
        requires kept { IsKeptFor (the_labelled self.now.network) later.now }
        ensures finding { IfOk result (IsFindingOn cap.entries (lowered (execution_left (record self.now { history = later.now })))) }
        ensures verdict { IfOk result (λ f. verdict_left (the_labelled self.now.network) (the_history later.now) self.now.fresh cap.entries
            ≡ Some (verdict_of f)) }
        ensures many { IsErrOf result RestError.TooManyConstraints
            → verdict_left (the_labelled self.now.network) (the_history later.now) self.now.fresh cap.entries ≡ None }
    {
        finding_left(alloc, &self.network, later, self.fresh, cap)
    }

    /// What a check would find of what is left of another network, whose ids are below `fresh`. Refused where there would be too many
    /// constraints.
    pub fn finding_replanned(
        &self,
        alloc: Global,
        network: &Labelled,
        fresh: u32,
        cap: Cap,
    ) -> Result<Finding, RestError>
        requires kept { IsKeptFor (the_labelled network.now) self.now.history }
        requires above { All (λ c. c.id < fresh) (the_labelled network.now).base.constraints }
        requires low { fresh ≤ 4294000000 }
        ensures finding { IfOk result (IsFindingOn cap.entries (lowered (rest (the_labelled network.now) (the_history self.now.history) fresh))) }
        ensures verdict { IfOk result (λ f. verdict_left (the_labelled network.now) (the_history self.now.history) fresh cap.entries
            ≡ Some (verdict_of f)) }
        ensures many { IsErrOf result RestError.TooManyConstraints
            → verdict_left (the_labelled network.now) (the_history self.now.history) fresh cap.entries ≡ None }
    {
        finding_left(alloc, network, &self.history, fresh, cap)
    }

    /// What a check says of what would be left after another history: whether it can go on; none where the log is full, or there would
    /// be too many constraints.
    pub fn said_after(
        &self,
        alloc: Global,
        later: &History,
        cap: Cap,
    ) -> Result<Option<bool>, AllocError>
        requires kept { IsKeptFor (the_labelled self.now.network) later.now }
        ensures said { IfOk result (λ o. o
            ≡ said_of (verdict_left (the_labelled self.now.network) (the_history later.now) self.now.fresh cap.entries)) }
    {
        match self.finding_after(alloc, later, cap) {
            Ok(finding) => Ok(said_by(finding.verdict())),
            Err(RestError::TooManyConstraints) => Ok(None),
            Err(RestError::Memory(e)) => Err(e),
        }
    }

    /// What a check says of what is left when it is this moment now, in ticks, or when it is now where that is later.
    pub fn said_at(&self, alloc: Global, moment: u32, cap: Cap) -> Result<Option<bool>, AllocError>
        requires range { moment ≤ most_deadline }
        ensures said { IfOk result (λ o. o
            ≡ said_at (the_labelled self.now.network) (the_history self.now.history) self.now.fresh cap.entries moment) }
    {
        let later = self.history_at(alloc, moment)?;
        self.said_after(alloc, &later, cap)
    }

    /// What a check says of what is left when the outcome of a proposition is expected at this moment, in ticks; none where that is refused,
    /// or where the log is full, or there would be too many constraints.
    pub fn said_late(
        &self,
        alloc: Global,
        p: Prop,
        moment: u32,
        cap: Cap,
    ) -> Result<Option<bool>, AllocError>
        ensures said { IfOk result (λ o. o
            ≡ said_late (the_labelled self.now.network) (the_history self.now.history) self.now.fresh cap.entries p.index moment) }
    {
        let mut later = self.history.copy(alloc)?;
        match later.expect(&self.network, moment, p) {
            Ok(()) => self.said_after(alloc, &later, cap),
            Err(_) => Ok(None),
        }
    }

    /// What a check says of what is left when the constraint with this id has this value, in ticks; none where the log is full, or there
    /// would be too many constraints.
    pub fn said_raised(
        &self,
        alloc: Global,
        id: u32,
        most: i32,
        cap: Cap,
    ) -> Result<Option<bool>, AllocError>
        requires value { IsValue most }
        ensures said { IfOk result (λ o. o
            ≡ said_raised (the_labelled self.now.network) (the_history self.now.history) self.now.fresh cap.entries id most) }
    {
        let made = changed(
            alloc,
            &self.network,
            self.fresh,
            Change::Revalue { id, most },
        )?;
        let Some(network) = made else {
            return Ok(None);
        };
        match self.finding_replanned(alloc, &network, self.fresh, cap) {
            Ok(finding) => Ok(said_by(finding.verdict())),
            Err(RestError::TooManyConstraints) => Ok(None),
            Err(RestError::Memory(e)) => Err(e),
        }
    }

    // What has happened when it is this moment now, in ticks, or when it is now where that is later.
    fn history_at(&self, alloc: Global, moment: u32) -> Result<History, AllocError>
        requires range { moment ≤ most_deadline }
        ensures later { IfOk result (λ h. the_history h ≡ at_now (the_history self.now.history) (max self.now.history.time moment)) }
        ensures kept { IfOk result (λ h. IsKeptFor (the_labelled self.now.network) h) }
    {
        let mut later = self.history.copy(alloc)?;
        let last = later.now().max(moment);
        match later.pass(last) {
            Ok(()) => Ok(later),
            Err(_) => unreachable!(),
        }
    }

    /// Whether what is left at a later moment has no more constraints than it may.
    pub fn has_room_later(&self, alloc: Global) -> Result<bool, AllocError>
        ensures room { IfOk result (λ b. b ≡ has_room_later (the_labelled self.now.network) (the_history self.now.history) self.now.fresh) }
    {
        let later = self.history_at(alloc, 1)?;
        match rest(alloc, &self.network, &later, self.fresh) {
            Ok(_) => Ok(true),
            Err(RestError::TooManyConstraints) => Ok(false),
            Err(RestError::Memory(e)) => Err(e),
        }
    }

    /// Makes this what has happened.
    pub fn record(&mut self, later: History)
        requires kept { IsKeptFor (the_labelled self.old.network) later }
        ensures recorded { self.new ≡ record self.old { history = later } }
        ensures execution { IsExecution self.new }
    {
        self.history = later;
    }

    /// The same with a further time-point behind the last one, which observes nothing, has no label and isn't done. Refused where there
    /// would be too many constraints.
    pub fn stepped(&self, alloc: Global) -> Result<Execution, RestError>
        requires place { count (the_labelled self.now.network).base < most_time_points }
        ensures network { IfOk result (λ e. the_labelled e.network ≡ stepped (the_labelled self.now.network)) }
        ensures history { IfOk result (λ e. e.history ≡ with_place self.now.history) }
        ensures fresh { IfOk result (λ e. e.fresh ≡ self.now.fresh) }
        ensures execution { IfOk result IsExecution }
        ensures many { IsErrOf result RestError.TooManyConstraints
            → most_constraints < length (lowered (stepped (the_labelled self.now.network))).constraints }
    {
        steps_keep_histories();
        labelled_network_is_in_order(&self.network);
        let network = match stepped(alloc, &self.network) {
            Ok(network) => network,
            Err(e) => return Err(e),
        };
        let history = match self.history.with_place(alloc) {
            Ok(history) => history,
            Err(e) => return Err(RestError::Memory(e)),
        };
        labelled_network_is_in_order(&network);
        let fresh = self.fresh;
        Ok(Execution {
            network,
            history,
            fresh,
        })
    }

    /// Puts another network, whose ids are below `fresh`, in the place of the network.
    pub fn replan(&mut self, network: Labelled, fresh: u32)
        requires kept { IsKeptFor (the_labelled network) self.old.history }
        requires above { All (λ c. c.id < fresh) (the_labelled network).base.constraints }
        requires low { fresh ≤ 4294000000 }
        ensures replanned { self.new ≡ record self.old { network = network; fresh = fresh } }
        ensures execution { IsExecution self.new }
    {
        labelled_network_is_in_order(&network);
        self.network = network;
        self.fresh = fresh;
    }

    /// Until when a time-point that is left and isn't done can wait, in ticks, where what has happened can go on.
    pub fn latest(&self, alloc: Global, x: NodeId, cap: Cap) -> Result<u32, WaitError>
        requires inside { x.0 < count (the_labelled self.now.network).base }
        requires coming { (the_history self.now.history).done x.0 ≡ None }
        requires left { IsTrue (is_left (the_labelled self.now.network) (the_history self.now.history) x.0) }
        requires can { Can (the_labelled self.now.network) (the_history self.now.history) }
        ensures until { IfOk result (λ t. waits_until (the_labelled self.now.network) (the_history self.now.history) self.now.fresh x.0 cap.entries ≡ Some t) }
        ensures waits { IfOk result (λ t. CanWait (the_labelled self.now.network) (the_history self.now.history) x.0 t) }
        ensures last { IfOk result (λ t. (u : ℕ) → CanWait (the_labelled self.now.network) (the_history self.now.history) x.0 u → u ≤ t) }
        ensures few { IsOk result → HasRoomToWait (the_labelled self.now.network) (the_history self.now.history) self.now.fresh }
        ensures many { IsErrOf result WaitError.TooManyConstraints
            → HasRoomToWait (the_labelled self.now.network) (the_history self.now.history) self.now.fresh → ⊥ }
        ensures full { IsErrOf result WaitError.Full → HasRoomToWait (the_labelled self.now.network) (the_history self.now.history) self.now.fresh
            × (waits_until (the_labelled self.now.network) (the_history self.now.history) self.now.fresh x.0 cap.entries ≡ None) }
    {
        by(alloc, &self.network, &self.history, self.fresh, x, cap)
    }

    /// The ids of the constraints that are to blame where what has happened can't go on.
    pub fn blame(&self, alloc: Global, cap: Cap) -> Result<Vec<u32>, BlameError>
        requires room { HasFewConstraints (execution_left self.now) }
        requires cannot { Can (the_labelled self.now.network) (the_history self.now.history) → ⊥ }
        ensures cannot { IfOk result (λ ids. Can (network_alone (the_labelled self.now.network) (is_of ids.items)) (the_history self.now.history) → ⊥) }
        ensures needed { IfOk result (λ ids. (id : ℕ) → Contains ids.items id
            → Can (network_alone (the_labelled self.now.network) (but id (is_of ids.items))) (the_history self.now.history)) }
        ensures ascending { IfOk result (λ ids. AllPairs (λ a b. a < b) ids.items) }
        ensures blamed { IfOk result (λ ids. ids_to_blame (the_labelled self.now.network) (the_history self.now.history) self.now.fresh cap.entries
            ≡ Some ids.items) }
        ensures full { IsErrOf result BlameError.Full
            → ids_to_blame (the_labelled self.now.network) (the_history self.now.history) self.now.fresh cap.entries ≡ None }
    {
        blame(alloc, &self.network, &self.history, self.fresh, cap)
    }
}

// Whether a verdict says that what has happened can go on; none where it says nothing.
fn said_by(verdict: Verdict) -> Option<bool>
    ensures { result ≡ said_of (Some verdict) }
{
    match verdict {
        Verdict::Yes { .. } => Some(true),
        Verdict::No { .. } => Some(false),
        Verdict::Full => None,
    }
}
