ghost use Rattle.std.specs.Prelude.{ℕ, ◌≡◌, ◌<◌, ◌≤◌, ◌-◌, ◌^◌, ◌++◌, ◌∷◌, [], length, map, IfOk, IfErr, OnErr, MatchOption};
ghost use Rattle.std.specs.List.{All};
ghost use Rattle.cstn_net.specs.declared.errors.NetError.{NetError};
ghost use Rattle.cstn_net.specs.Networks.{IsWellFormed};
ghost use Rattle.cstn_net.specs.Read.{the_network, observed};
ghost use Rattle.cstn_net.specs.Observers.{KnowsObservers};
ghost use Rattle.cstn_net.specs.Drafts.{IsSized, IsSound, IsLowestNetFault, IsNetRefusal, HasNetFault, constraints_from, with_draft, with_reaction};

use crate::drafts::{Draft, constraints_of};
use crate::errors::NetError;
use crate::limits::{MAX_CONSTRAINTS, MAX_DEADLINE, MAX_NODES};
use crate::links::Links;
use crate::networks::Network;
use crate::observers::{Observers, observers_of};
use crate::points::TimePoint;
use crate::scans::{
    first_not_plain, first_out_of_range, first_twins, first_unobserved, first_untimely,
};
use cstn_label::{Label, Prop};
use std::alloc::{AllocError, Global};
use std::marker::Model;

/// A network in the making: its deadline, its time-points and its constraints, as they were handed in.
#[derive(Drop)]
pub struct Builder {
    alloc: Global,
    deadline: u32,
    points: Vec<TimePoint>,
    drafts: Vec<Draft>,
}

impl Model for Builder {
    ghost use Rattle.std.specs.Prelude.{length};
    ghost use Rattle.std.specs.List.{All};
    ghost use Rattle.cstn_net.specs.Drafts.{BuilderParts, IsDraftAmong};

    ghost Value = { BuilderParts };

    ghost view = { λ b. record { deadline = b.deadline; points = b.points.items; drafts = b.drafts.items } };

    ghost invariant = { λ b. All (IsDraftAmong (length b.points.items)) b.drafts.items };
}

impl Builder {
    /// A builder with this deadline, in ticks, and no time-points or constraints yet.
    pub fn new(alloc: Global, deadline: u32) -> Builder
        ensures new { result ≡ record { deadline = deadline; points = []; drafts = [] } }
    {
        Builder {
            alloc,
            deadline,
            points: Vec::new(alloc),
            drafts: Vec::new(alloc),
        }
    }

    /// Adds a time-point that observes this proposition, if any, with a reaction of one tick, and answers its number.
    pub fn node(&mut self, observes: Option<Prop>) -> Result<u32, AllocError>
        requires { length self.old.points < 2 ^ 32 - 1 }
        ensures number { IfOk result (λ n. n ≡ length self.old.points) }
        ensures appended { IfOk result (λ _. self.new ≡ record self.old { points = self.old.points ++ record { observes = observes; reaction = 1 } ∷ [] }) }
        ensures refused { OnErr result (self.new ≡ self.old) }
    {
        let number = self.points.len() as u32;
        self.points.push(TimePoint {
            observes,
            reaction: 1,
        })?;
        Ok(number)
    }

    /// Sets the reaction of the time-point with this number, in ticks. `close` checks its range.
    pub fn react(&mut self, node: u32, ticks: u32)
        requires { node < length self.old.points }
        ensures react { self.new ≡ record self.old { points = with_reaction node ticks self.old.points } }
    {
        self.points[node as usize].reaction = ticks;
    }

    /// Adds a constraint between two time-points by their numbers, and answers its id. `most` is in ticks; `close` checks it
    /// and the label.
    pub fn constrain(
        &mut self,
        from: u32,
        to: u32,
        most: i32,
        label: Label,
    ) -> Result<u32, AllocError>
        requires from { from < length self.old.points }
        requires to { to < length self.old.points }
        requires room { length self.old.drafts < 2 ^ 32 - 1 }
        ensures id { IfOk result (λ id. id ≡ length self.old.drafts) }
        ensures appended { IfOk result (λ _. self.new ≡ with_draft (record { from = from; to = to; most = most; label = label }) self.old) }
        ensures refused { OnErr result (self.new ≡ self.old) }
    {
        let id = self.drafts.len() as u32;
        self.drafts.push(Draft {
            from,
            to,
            most,
            label,
        })?;
        Ok(id)
    }

    /// Makes the network of exactly what was handed in, with ids from 0 in the order of the constraints. Refuses a builder
    /// that has a fault.
    pub fn close(self) -> Result<Network, NetError>
        ensures deadline { IfOk result (λ n. n.deadline ≡ self.deadline) }
        ensures points { IfOk result (λ n. n.points ≡ self.points) }
        ensures constraints { IfOk result (λ n. n.constraints ≡ constraints_from 0 self.drafts) }
        ensures spare { IfOk result (λ n. n.spare ≡ 0) }
        ensures well_formed { IfOk result (λ n. IsWellFormed (the_network n)) }

        // Unless memory is refused, a builder is refused exactly where it has a fault, and then for the one with the lowest
        // number.
        ensures faultless { IfOk result (λ _. (e : NetError) → HasNetFault self e → ⊥) }
        ensures refused { IfErr result (IsNetRefusal self) }
    {
        if let Some(fault) = self.size_fault() {
            return Err(fault);
        }
        let observers = observers_of(&self.points);
        if let Some(fault) = self.other_fault(&observers) {
            return Err(fault);
        }
        let count = self.points.len() as u16;
        let constraints = match constraints_of(self.alloc, count, &self.drafts) {
            Ok(constraints) => constraints,
            Err(e) => return Err(NetError::Memory(e)),
        };
        match Links::of(self.alloc, self.points.len(), &constraints) {
            Ok(links) => Ok(Network::new(
                self.deadline,
                self.points,
                observers,
                constraints,
                links,
            )),
            Err(e) => Err(NetError::Memory(e)),
        }
    }

    // The lowest fault among N1 to N4, of the counts and the deadline; none where the builder has none of these.
    fn size_fault(&self) -> Option<NetError>
        ensures { MatchOption result (IsSized self.now) (IsLowestNetFault self.now) }
    {
        if self.points.len() > MAX_NODES {
            return Some(NetError::TooManyNodes);
        }
        if self.points.is_empty() {
            return Some(NetError::NoOrigin);
        }
        if self.drafts.len() > MAX_CONSTRAINTS {
            return Some(NetError::TooManyConstraints);
        }
        if self.deadline > MAX_DEADLINE {
            return Some(NetError::DeadlineRange {
                deadline: self.deadline,
            });
        }
        None
    }

    // The lowest fault among N5 to N9, of the constraints, the observers and the reactions; none where the builder has none.
    fn other_fault(&self, observers: &Observers) -> Option<NetError>
        requires sized { IsSized self.now }
        requires observers { KnowsObservers (map observed self.now.points) observers.now }
        ensures { MatchOption result (IsSound self.now) (IsLowestNetFault self.now) }
    {
        if let Some(constraint) = first_out_of_range(&self.drafts) {
            return Some(NetError::ValueRange { constraint });
        }
        if let Some(prop) = first_unobserved(observers, &self.drafts) {
            return Some(NetError::NotObserved { prop });
        }
        if let Some((prop, first, second)) = first_twins(observers, &self.points) {
            return Some(NetError::TwoObservers {
                prop,
                first,
                second,
            });
        }
        if let Some(constraint) = first_not_plain(&self.drafts) {
            return Some(NetError::NotPlain { constraint });
        }
        if let Some(node) = first_untimely(&self.points) {
            return Some(NetError::ReactionRange { node });
        }
        None
    }
}
