ghost use Rattle.std.specs.Prelude.{ℕ, ◌≡◌, ◌≤◌, ◌↔◌, map, None, Some, [], IsNone, IsTrue, IfOk, IfSome, IfNone, OnOk, OnErr};
ghost use Rattle.std.specs.List.{Contains};
ghost use Rattle.std.specs.List.Sorted.{IsStrictlyIncreasing};
ghost use Rattle.cstn_net.specs.Networks.{count};
ghost use Rattle.cstn_net.specs.Read.{the_network};
ghost use Rattle.cstn_plan.specs.Plans.{the_bounds};
ghost use Rattle.cstn_lift.specs.Lowered.{lowered};
ghost use Rattle.cstn_lift.specs.Read.{the_labelled};
ghost use Rattle.cstn_exec.specs.Runs.{due};
ghost use Rattle.cstn_exec.specs.Moves.{moment_refusal};
ghost use Rattle.cstn_exec.specs.Right.{IsDue, IsDone};
ghost use Rattle.cstn_exec.specs.Read.{event_refusal};
ghost use Rattle.cstn_exec.specs.Guides.{guide_begun, was_left_out, is_denied, see_refusal, outcome_noted};
ghost use Rattle.cstn_exec.specs.Sound.{IsPlanned, IsNamedAt, IsLeftAt, IsGuided, IsOnTime, IsLed};
ghost use Rattle.cstn_exec.specs.GuideRead.{guide_parts, advanced_on};

mod sorting;

use crate::executive::Names;
use crate::{ExecError, Executive};
use cstn_label::{NodeId, Prop};
use cstn_lift::{Labels, observers_are_found};
use cstn_net::observers_are_time_points;
use cstn_plan::SoundPlan;
use smallvec::SmallVec;
use sorting::sort_out;
use std::alloc::{AllocError, Global};
use std::marker::Model;

/// Carries out the plan of a lowered network: takes moments and outcomes one at a time, and names at each moment the
/// time-points whose least moment it is and whose completed labels hold. The other time-points whose least moment it is are
/// left out, and the outcome of what they observe is false.
///
/// All memory is taken by [`Guide::start`].
#[derive(Drop)]
pub struct Guide {
    executive: Executive,
    labels: Labels,
    left: Vec<bool>,
    named: Names,
}

impl Model for Guide {
    ghost use Rattle.std.specs.Prelude.{map};
    ghost use Rattle.cstn_exec.specs.GuideRead.{GuideParts, guide_parts, IsGuide};

    ghost Value = { GuideParts };

    ghost view = { λ g. guide_parts g.labels g.executive.bounds (record { run = g.executive.run; left = g.left.items }) (map (λ x. x.0) g.named.items) };

    ghost invariant = { λ g. IsGuide g.executive.net g.labels (record { run = g.executive.run; left = g.left.items }) g.named.capacity };
}

impl Guide {
    /// A guide by the plan, with nothing named or left out. All memory is taken here, also for an answer that names every
    /// time-point. Fails only where memory is refused, and drops the plan and the labels then.
    pub fn start(alloc: Global, plan: SoundPlan, labels: Labels) -> Result<Guide, AllocError>
        requires lowered { the_network plan.net ≡ lowered (the_labelled labels) }
        ensures start { IfOk result (λ g. g ≡ guide_parts labels plan.bounds (guide_begun (count (the_labelled labels).base)) []) }
    {
        let count = labels.base().count() as usize;
        let mut left = Vec::with_capacity(alloc, count)?;
        left.resize(count, false)?;
        let named = SmallVec::with_capacity(alloc, count)?;
        let executive = Executive::start(alloc, plan)?;
        // For its contract: the run is right, and the bounds of the plan are those of a strategy with all least moments.
        executive.network();
        Ok(Guide {
            executive,
            labels,
            left,
            named,
        })
    }

    /// The time-points that were named at the last accepted moment, in ascending number.
    pub fn named(&self) -> &[NodeId]
        ensures named { map (λ x. x.0) result.now ≡ self.now.named }
    {
        self.named.as_slice()
    }

    /// The labels of the time-points. For the use of proofs, the contract also says that the state is right, and that the bounds
    /// are those of a plan.
    pub fn labels(&self) -> &Labels
        ensures labels { result.now ≡ self.now.labelled }
        ensures guided { IsGuided (the_labelled self.now.labelled) self.now.state }
        ensures planned { IsPlanned (the_labelled self.now.labelled) (the_bounds self.now.bounds) }
    {
        self.is_guided();
        &self.labels
    }

    /// The first moment, in ticks, at which an outcome is awaited or a time-point is to be executed or left out; none where
    /// each time-point has been executed or left out. The due moment names nothing if all time-points whose least moment it
    /// is are left out.
    pub fn due(&self) -> Option<u32>
        ensures due { result ≡ due (lowered (the_labelled self.now.labelled)) (the_bounds self.now.bounds) self.now.state.run }
        ensures none { IsNone result ↔ IsDone (lowered (the_labelled self.now.labelled)) self.now.state.run }
        ensures first { IfSome result (λ t. IsDue (lowered (the_labelled self.now.labelled)) self.now.state.run t) }
        ensures in_time { IfSome result (λ t. t ≤ (the_labelled self.now.labelled).base.deadline) }

        ensures on_time { IsOnTime (the_labelled self.now.labelled) self.now.state }
        ensures led { IfNone result (IsLed (the_labelled self.now.labelled) self.now.state) }
    {
        self.is_guided();
        self.executive.due()
    }

    /// Accepts a moment, in ticks: of the time-points whose least moment it is, those whose completed labels hold by what is
    /// known are named, and the others are left out; `named` then returns the named ones. Refused as [`Executive::moment`] is,
    /// with the first that applies of `Done`, `Past`, `Awaiting` and `Late`.
    pub fn moment(&mut self, t: u32) -> Result<(), ExecError>
        ensures refused { event_refusal result ≡ moment_refusal (lowered (the_labelled self.old.labelled)) (the_bounds self.old.bounds) self.old.state.run t }
        ensures advanced { OnOk result (self.new ≡ advanced_on self.old t) }
        ensures same { OnErr result (self.new ≡ self.old) }

        ensures named { OnOk result ((x : ℕ) → Contains self.new.named x ↔ IsNamedAt (the_labelled self.old.labelled) self.old.state.run t x) }
        ensures ascending { OnOk result (IsStrictlyIncreasing self.new.named) }
        ensures left { OnOk result ((x : ℕ) → IsLeftAt (the_labelled self.old.labelled) self.old.state.run t x → IsTrue (was_left_out self.new.state x)) }
        ensures on_time { IsOnTime (the_labelled self.old.labelled) self.new.state }
    {
        self.is_guided();
        let known = self.executive.known(t);
        if let Err(refusal) = self.executive.moment(t) {
            return Err(refusal);
        }
        sort_out(
            &mut self.executive,
            &mut self.left,
            &mut self.named,
            &self.labels,
            &known,
        );
        Ok(())
    }

    /// Keeps the outcome of a proposition. Refused with the first that applies of `NotExecuted`, also where the observer was left
    /// out, and `Known`.
    pub fn see(&mut self, p: Prop, value: bool) -> Result<(), ExecError>
        ensures refused { event_refusal result ≡ see_refusal (the_labelled self.old.labelled) self.old.state p.index }
        ensures noted { OnOk result (self.new ≡ record self.old { state = outcome_noted self.old.state p.index value }) }
        ensures same { OnErr result (self.new ≡ self.old) }
        ensures on_time { IsOnTime (the_labelled self.old.labelled) self.new.state }
    {
        self.is_guided();
        if self.is_denied(p) {
            return Err(ExecError::NotExecuted { prop: p });
        }
        self.executive.see(p, value)
    }

    // Whether the observer of p was left out.
    fn is_denied(&self, p: Prop) -> bool
        ensures { result ≡ is_denied (lowered (the_labelled self.now.labelled)) self.now.state p.index }
    {
        observers_are_time_points();
        observers_are_found();
        match self.labels.base().observer(p) {
            Some(x) => self.left[x.index()],
            None => false,
        }
    }

    // Does nothing: its contract says that the state is right, and that the bounds are those of a plan.
    fn is_guided(&self)
        ensures guided { IsGuided (the_labelled self.now.labelled) self.now.state }
        ensures planned { IsPlanned (the_labelled self.now.labelled) (the_bounds self.now.bounds) }
    {
        self.executive.network();
    }
}
