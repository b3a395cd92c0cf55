ghost use Rattle.std.specs.Prelude.{ℕ, ◌≡◌, ◌<◌, ◌≤◌, ◌↔◌, map, None, Some, [], IsNone, IfOk, IfSome, IfNone, OnOk, OnErr};
ghost use Rattle.std.specs.List.{Contains};
ghost use Rattle.std.specs.List.Sorted.{IsStrictlyIncreasing};
ghost use Rattle.std.specs.Option.{option_map};
ghost use Rattle.cstn_net.specs.Networks.{IsWellFormed, count};
ghost use Rattle.cstn_net.specs.Strategies.{Table};
ghost use Rattle.cstn_net.specs.Read.{the_network};
ghost use Rattle.cstn_plan.specs.Plans.{IsEarliest, the_bounds};
ghost use Rattle.cstn_exec.specs.Runs.{start_of_run, due};
ghost use Rattle.cstn_exec.specs.Moves.{moment_refusal, outcome_refusal, handed};
ghost use Rattle.cstn_exec.specs.Right.{IsRightRun, IsCalled, IsDue, IsDone, IsFulfilled};
ghost use Rattle.cstn_exec.specs.Read.{moved_on, event_refusal, the_event_refusal};

mod accepting;
mod asked;
mod known;
mod naming;
mod parts;
mod search;
mod snapshots;

use crate::errors::ExecError;
pub use asked::is_possible;
use cstn_label::{NodeId, Prop};
use cstn_net::Network;
use cstn_plan::SoundPlan;
pub use naming::Names;
use naming::execute;
use smallvec::SmallVec;
pub use snapshots::Snapshot;
use std::alloc::{AllocError, Global};
use std::marker::Model;

/// Carries out a plan: takes moments and outcomes one at a time, and names at each moment the time-points to be executed.
/// It never sees a scenario.
///
/// All memory is taken by [`Executive::start`].
#[derive(Drop)]
pub struct Executive {
    plan: SoundPlan,
    last: Option<u32>,
    moments: Vec<Option<u32>>,
    outcomes: [Option<bool>; 52],
    named: Names,
}

impl Model for Executive {
    ghost use Rattle.std.specs.Prelude.{map};
    ghost use Rattle.cstn_net.specs.Read.{the_network};
    ghost use Rattle.cstn_exec.specs.Read.{ExecParts, run_of, IsExecutive};

    ghost Value = { ExecParts };

    ghost view = { λ e. record {
      net = e.plan.net;
      bounds = e.plan.bounds;
      run = run_of e.last e.moments.items e.outcomes;
      named = map (λ x. x.0) e.named.items;
    } };

    ghost invariant = { λ e. IsExecutive (the_network e.plan.net) (run_of e.last e.moments.items e.outcomes) e.named.capacity };
}

impl Executive {
    /// An executive of the plan, with nothing executed yet. All memory is taken here, also for an answer that names every
    /// time-point. Fails only where memory is refused, and drops the plan then.
    pub fn start(alloc: Global, plan: SoundPlan) -> Result<Executive, AllocError>
        ensures start { IfOk result (λ e. e ≡ record { net = plan.net; bounds = plan.bounds; run = start_of_run (count (the_network plan.net)); named = [] }) }
    {
        let count = plan.network().count() as usize;
        let mut moments = Vec::with_capacity(alloc, count)?;
        moments.resize(count, None)?;
        let named = SmallVec::with_capacity(alloc, count)?;
        Ok(Executive {
            plan,
            last: None,
            moments,
            outcomes: [None; 52],
            named,
        })
    }

    /// Begins again: nothing is executed, and no outcome is kept. The network and the plan stay.
    pub fn restart(&mut self)
        ensures started { self.new ≡ record self.old { run = start_of_run (count (the_network self.old.net)); named = [] } }
    {
        self.is_right();
        self.last = None;
        self.moments.fill(None);
        self.outcomes = [None; 52];
        self.named.clear();
    }

    /// The network. The bounds of the plan determine a strategy that executes each time-point at its least moment in every
    /// scenario.
    pub fn network(&self) -> &Network
        ensures network { result.now ≡ self.now.net }
        ensures right { IsRightRun (the_network self.now.net) self.now.run }
        ensures well_formed { IsWellFormed (the_network self.now.net) }
        ensures earliest { (table : Table) × IsEarliest (the_network self.now.net) (the_bounds self.now.bounds) table }
    {
        self.plan.network()
    }

    /// The time-points that were named at the last accepted moment, in ascending number.
    pub fn named(&self) -> &[NodeId]
        ensures named { map (λ x. x.0) result.now ≡ self.now.named }
    {
        self.named.as_slice()
    }

    /// The first moment, in ticks, at which an outcome is awaited or a time-point is to be executed; none where all is executed.
    /// Takes at most one pass over the plan's bounds for the first moment that may be accepted, and one for each later moment,
    /// up to the due one, at which another outcome becomes known. Where each reaction is 1 there is no such later moment.
    pub fn due(&self) -> Option<u32>
        ensures due { result ≡ due (the_network self.now.net) (the_bounds self.now.bounds) self.now.run }
        ensures none { IsNone result ↔ IsDone (the_network self.now.net) self.now.run }
        ensures first { IfSome result (λ t. IsDue (the_network self.now.net) self.now.run t) }
        ensures in_time { IfSome result (λ t. t ≤ self.now.net.deadline) }
        ensures carried_out { IfNone result (IsFulfilled (the_network self.now.net) self.now.run) }
    {
        self.is_right();
        if self.is_done() {
            None
        } else {
            Some(self.first_due().moment)
        }
    }

    /// Why `moment` would refuse t, in ticks; none exactly where it would accept t.
    pub fn can(&self, t: u32) -> Option<ExecError>
        ensures { option_map the_event_refusal result ≡ moment_refusal (the_network self.now.net) (the_bounds self.now.bounds) self.now.run t }
    {
        match self.due_if_accepted(t) {
            Ok(_) => None,
            Err(refusal) => Some(refusal),
        }
    }

    /// Accepts a moment, in ticks, and executes the time-points whose least moment it is; `named` then returns them. Refused
    /// with the first that applies of `Done`, `Past`, `Awaiting` and `Late`. Takes at most as many passes over the plan's
    /// bounds as `due`.
    pub fn moment(&mut self, t: u32) -> Result<(), ExecError>
        ensures refused { event_refusal result ≡ moment_refusal (the_network self.old.net) (the_bounds self.old.bounds) self.old.run t }
        ensures moved { OnOk result (self.new ≡ moved_on self.old t) }
        ensures same { OnErr result (self.new ≡ self.old) }

        ensures named { OnOk result ((x : ℕ) → Contains self.new.named x ↔ IsCalled (the_network self.old.net) self.old.run t x) }
        ensures ascending { OnOk result (IsStrictlyIncreasing self.new.named) }
    {
        let due = match self.due_if_accepted(t) {
            Ok(due) => due,
            Err(refusal) => return Err(refusal),
        };
        self.is_right();
        self.name(t, &due);
        execute(&mut self.moments, self.named.as_slice(), t);
        self.last = Some(t);
        Ok(())
    }

    /// Keeps the outcome of a proposition. It is known once the reaction of the proposition has passed after its observer was
    /// executed. Refused with the first that applies of `NotExecuted` and `Known`.
    pub fn see(&mut self, p: Prop, value: bool) -> Result<(), ExecError>
        ensures refused { event_refusal result ≡ outcome_refusal (the_network self.old.net) self.old.run p.index }
        ensures handed { OnOk result (self.new ≡ record self.old { run = handed self.old.run p.index value }) }
        ensures same { OnErr result (self.new ≡ self.old) }
    {
        let Some(_) = self.observed_at(p) else {
            return Err(ExecError::NotExecuted { prop: p });
        };
        if let Some(value) = self.outcome(p) {
            return Err(ExecError::Known { prop: p, value });
        }
        self.is_right();
        self.outcomes[p.index as usize] = Some(value);
        Ok(())
    }
}
