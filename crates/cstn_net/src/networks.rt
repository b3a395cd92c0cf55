ghost use Rattle.std.specs.Prelude.{ℕ, ◌≡◌, ◌≢◌, ◌<◌, ◌≤◌, ◌+◌, ◌-◌, ◌++◌, ◌∷◌, [], ◌↔◌, ◌≤ℤ◌, pos, length, map, None, IsNone, IfNone, IfSome, IsSome, IfOk};
ghost use Rattle.std.specs.Prelude.{OnOk, OnErr, MatchOption, slice_index, slice_index_or, max, vec_capacity, false};
ghost use Rattle.std.specs.List.{All, AllPairs, Contains, HoldsAt};
ghost use Rattle.std.specs.Option.{option_map};
ghost use Rattle.cstn_label.specs.Read.{marks};
ghost use Rattle.cstn_net.specs.Limits.{most_constraints, most_deadline, most_reaction};
ghost use Rattle.cstn_net.specs.Networks.{Network, IsWellFormed, IsConstraint, IsLeastUnobserved, IsOnObserved, IsValue, Observes, count, limit};
ghost use Rattle.cstn_net.specs.Observers.{KnowsObservers};
ghost use Rattle.cstn_net.specs.Links.{AreLinked, IsNextPlace, ends};
ghost use Rattle.cstn_net.specs.Read.{the_network, the_constraint, observed, IsInRange, without_id, with_most};

use crate::constraints::Constraint;
use crate::links::Links;
use crate::observers::{Observers, unobserved};
use crate::points::TimePoint;
use cstn_label::{Label, NodeId, Prop};
use std::alloc::{AllocError, Global};
use std::marker::Model;

/// A well-formed network. A time-point that is handed to it has a number below `count`.
#[derive(Drop)]
pub struct Network {
    deadline: u32,
    points: Vec<TimePoint>,
    observers: Observers,
    constraints: Vec<Constraint>,
    links: Links,
}

impl Model for Network {
    ghost use Rattle.std.specs.Prelude.{◌-◌, ◌≤◌, vec_len, vec_capacity};
    ghost use Rattle.cstn_net.specs.Links.{AreLinked, IsNextPlace, ends};
    ghost use Rattle.cstn_net.specs.Read.{NetworkParts};

    ghost Value = { NetworkParts };

    ghost view = { λ n. record {
      deadline = n.deadline;
      points = n.points.items;
      constraints = n.constraints.items;
      spare = vec_capacity n.links.nexts - vec_len n.constraints;
    } };

    ghost use Rattle.cstn_net.specs.Observers.{IsKept};

    ghost invariant = { λ n. IsKept n.deadline n.points.items n.observers n.constraints.items n.links.chains.items n.links.nexts.items
        × (vec_capacity n.links.nexts ≤ vec_capacity n.constraints) };
}

impl Network {
    pub(crate) fn new(
        deadline: u32,
        points: Vec<TimePoint>,
        observers: Observers,
        constraints: Vec<Constraint>,
        links: Links,
    ) -> Network
        requires observers { KnowsObservers (map observed points.items) observers }
        requires well_formed { IsWellFormed (the_network (record { deadline = deadline; points = points.items; constraints = constraints.items; spare = 0 })) }
        requires linked { AreLinked (ends constraints.items) links.chains.items links.nexts.items }
        requires wide { length links.chains.items ≡ length points.items }
        requires room { vec_capacity links.nexts ≡ length constraints.items }
        ensures { result ≡ record { deadline = deadline; points = points.items; constraints = constraints.items; spare = 0 } }
    {
        Network {
            deadline,
            points,
            observers,
            constraints,
            links,
        }
    }

    /// How many time-points there are, from 1 to 1,024.
    pub fn count(&self) -> u16
        ensures count { result ≡ count (the_network self.now) }
        ensures well_formed { IsWellFormed (the_network self.now) }
    {
        self.points.len() as u16
    }

    /// The deadline, in ticks, at most 1,000,000.
    pub fn deadline(&self) -> u32
        ensures deadline { result ≡ self.now.deadline }
        ensures range { result ≤ most_deadline }
    {
        self.deadline
    }

    /// The last moment of a time-point, in ticks: 0 for the origin, the deadline for every other.
    pub fn limit(&self, x: NodeId) -> i32
        requires { x.0 < count (the_network self.now) }
        ensures limit { result ≡ pos (limit (the_network self.now) x.0) }
        ensures range { result ≤ℤ pos most_deadline }
    {
        if x.0 == 0 { 0 } else { self.deadline as i32 }
    }

    /// The proposition that a time-point observes; none where it observes nothing.
    pub fn observes(&self, x: NodeId) -> Option<Prop>
        requires { x.0 < count (the_network self.now) }
        ensures observes { option_map (λ p. p.index) result ≡ slice_index_or (the_network self.now).observes x.0 None }
    {
        self.points[x.index()].observes
    }

    /// The one time-point that observes a proposition; none where nothing does.
    pub fn observer(&self, p: Prop) -> Option<NodeId>
        ensures observer { MatchOption result ((x : ℕ) → Observes (the_network self.now) x p.index → ⊥) (λ x. Observes (the_network self.now) x.0 p.index) }
    {
        self.observers[p.index as usize]
    }

    /// How many ticks after its observer is executed a proposition is known, from 1 to 1,000; 1 where nothing observes it.
    pub fn reaction(&self, p: Prop) -> u32
        ensures reaction { result ≡ (the_network self.now).reaction p.index }
        ensures range { (1 ≤ result) × (result ≤ most_reaction) }
        ensures unobserved { ((x : ℕ) → Observes (the_network self.now) x p.index → ⊥) → result ≡ 1 }
    {
        match self.observers[p.index as usize] {
            Some(x) => self.points[x.index()].reaction,
            None => 1,
        }
    }

    /// The constraints, in ascending id.
    pub fn constraints(&self) -> &[Constraint]
        ensures constraints { result.now ≡ self.now.constraints }
        ensures ranges { All (IsInRange (count (the_network self.now))) result.now }
        ensures well_formed { IsWellFormed (the_network self.now) }
    {
        &self.constraints
    }

    /// The least proposition that a label names and nothing observes; none where the label names observed propositions alone.
    pub fn unobserved(&self, label: Label) -> Option<Prop>
        ensures { MatchOption result (IsOnObserved (the_network self.now) (marks label)) (λ p. IsLeastUnobserved (the_network self.now) (marks label) p.index) }
    {
        unobserved(&self.observers, label)
    }

    /// The place in `constraints` of the constraint with this id, found by binary search; none where no constraint has it.
    pub fn place_of(&self, id: u32) -> Option<usize>
        ensures none { IsNone result ↔ All (λ c. c.id ≢ id) self.now.constraints }
        ensures place { IfSome result (λ k. (k < length self.now.constraints) × HoldsAt (λ c. c.id ≡ id) self.now.constraints k) }
    {
        place_in(&self.constraints, id)
    }

    /// The place in `constraints` of the first constraint that ends at a time-point; none where no constraint does.
    pub fn first_to(&self, x: NodeId) -> Option<usize>
        requires { x.0 < count (the_network self.now) }
        ensures first { IsNextPlace x.0 0 (ends self.now.constraints) result }
    {
        match self.links.chains[x.index()] {
            Some(chain) => Some(chain.first as usize),
            None => None,
        }
    }

    /// The place of the next constraint that ends where the one at this place does; none where no later one does.
    pub fn next_to(&self, place: usize) -> Option<usize>
        requires { place < length self.now.constraints }
        ensures next { IsNextPlace (slice_index (ends self.now.constraints) place) (place + 1) (ends self.now.constraints) result }
    {
        match self.links.nexts[place] {
            Some(next) => Some(next as usize),
            None => None,
        }
    }

    /// An equal network with no room for more constraints. Fails where memory is refused.
    pub fn copy(&self, alloc: Global) -> Result<Network, AllocError>
        ensures equal { IfOk result (λ n. n ≡ record self.now { spare = 0 }) }
        ensures well_formed { IsWellFormed (the_network self.now) }
    {
        let points = Vec::from_slice(alloc, &self.points)?;
        let constraints = Vec::from_slice(alloc, &self.constraints)?;
        let links = Links::of(alloc, points.len(), &constraints)?;
        Ok(Network::new(self.deadline, points, self.observers, constraints, links))
    }

    /// Sets the deadline, in ticks, at most 1,000,000.
    pub fn set_deadline(&mut self, deadline: u32)
        requires { deadline ≤ most_deadline }
        ensures set { self.new ≡ record self.old { deadline = deadline } }
        ensures well_formed { IsWellFormed (the_network self.new) }
    {
        self.deadline = deadline;
    }

    /// Makes room for `room` constraints in all, so that inserting up to that number takes no memory. Where memory is
    /// refused, the network stays as it is.
    pub fn reserve(&mut self, room: u32) -> Result<(), AllocError>
        ensures room { OnOk result (room - length self.old.constraints ≤ self.new.spare) }
        ensures exact { OnOk result (self.new.spare ≡ max self.old.spare (room - length self.old.constraints)) }
        ensures same { self.new ≡ record self.old { spare = self.new.spare } }
        ensures spare { self.old.spare ≤ self.new.spare }
        ensures refused { OnErr result (self.new ≡ self.old) }
        ensures well_formed { IsWellFormed (the_network self.new) }
    {
        let missing = (room as usize).saturating_sub(self.constraints.len());
        self.constraints.reserve_exact(missing)?;
        self.links.nexts.reserve_exact(missing)
    }

    /// Adds a constraint behind the others. There must be room for it, and its id must be above theirs.
    pub fn insert(&mut self, c: Constraint)
        requires room { 0 < self.old.spare }
        requires few { length self.old.constraints < most_constraints }
        requires above { All (λ d. d.id < c.id) self.old.constraints }
        requires constraint { IsConstraint (the_network self.old) (the_constraint c) }
        requires value { IsValue c.most }
        ensures insert { self.new ≡ record self.old { constraints = self.old.constraints ++ c ∷ []; spare = self.new.spare } }
        ensures spare { self.new.spare + 1 ≡ self.old.spare }
        ensures well_formed { IsWellFormed (the_network self.new) }
    {
        self.links.append(c.to);
        self.constraints.push_reserved(c);
    }

    /// Takes out the constraint with this id and answers it; none where no constraint has it.
    pub fn take_out(&mut self, id: u32) -> Option<Constraint>
        ensures none { IsNone result ↔ All (λ c. c.id ≢ id) self.old.constraints }
        ensures same { IfNone result (self.new ≡ self.old) }
        ensures taken { IfSome result (λ c. (c.id ≡ id) × Contains self.old.constraints c) }
        ensures gone { IfSome result (λ _. self.new ≡ record self.old { constraints = without_id id self.old.constraints; spare = self.old.spare + 1 }) }
        ensures well_formed { IsWellFormed (the_network self.new) }
    {
        let Some(at) = place_in(&self.constraints, id) else {
            return None;
        };
        let taken = self.constraints.remove(at);
        self.links.rebuild(&self.constraints);
        Some(taken)
    }

    /// Sets the value of the constraint with this id, in ticks; false where no constraint has it.
    pub fn set_most(&mut self, id: u32, most: i32) -> bool
        requires { IsValue most }
        ensures absent { (result ≡ false) ↔ All (λ c. c.id ≢ id) self.old.constraints }
        ensures same { result ≡ false → self.new ≡ self.old }
        ensures set { self.new ≡ record self.old { constraints = map (with_most id most) self.old.constraints } }
        ensures well_formed { IsWellFormed (the_network self.new) }
    {
        let Some(at) = place_in(&self.constraints, id) else {
            return false;
        };
        self.constraints[at].most = most;
        true
    }
}

fn place_in(constraints: &[Constraint], id: u32) -> Option<usize>
    requires { AllPairs (λ b c. b.id < c.id) constraints.now }
    ensures { MatchOption result (All (λ c. c.id ≢ id) constraints.now) (λ k. (k < length constraints.now) × HoldsAt (λ c. c.id ≡ id) constraints.now k) }
{
    match constraints.binary_search_by_key(&id, |c| c.id) {
        Ok(place) => Some(place),
        Err(_) => None,
    }
}

/// Does nothing: its contract says that every network is well-formed, as that of each call that reads one does.
pub fn network_is_well_formed(net: &Network)
    ensures { IsWellFormed (the_network net.now) }
{
    let _ = net.count();
}
