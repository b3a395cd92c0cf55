ghost use Rattle.std.specs.Prelude.{◌≡◌, ◌<◌, ◌^◌, Some, length, slice_get, IfOk};
ghost use Rattle.cstn_label.specs.Read.{marks, the_bound};
ghost use Rattle.cstn_net.specs.Networks.{IsOnObserved, IsWellFormed, count};
ghost use Rattle.cstn_net.specs.Strategies.{Table, IsStrategy, IsConsistent};
ghost use Rattle.cstn_net.specs.Bounds.{HoldsIn};
ghost use Rattle.cstn_net.specs.Read.{the_network};
ghost use Rattle.cstn_rules.specs.Closed.{IsClosed};
ghost use Rattle.cstn_plan.specs.Asked.{AllSound};
ghost use Rattle.cstn_plan.specs.Plans.{PlanParts, the_bounds, IsEarliest};

use cstn_label::Bound;
use cstn_net::Network;
use std::alloc::{AllocError, Global};
use std::marker::Model;

/// A network and a list of bounds that is closed for it: whatever a rule gives from them is
/// dominated by one of them, and none refutes. So the network is consistent.
#[derive(Drop)]
pub struct Plan {
    net: Network,
    bounds: Vec<Bound>,
}

impl Model for Plan {
    ghost use Rattle.cstn_plan.specs.Plans.{PlanParts, IsPlan};

    ghost Value = { PlanParts };

    ghost view = { λ p. record { net = p.net; bounds = p.bounds.items } };

    ghost invariant = { λ p. IsPlan p.net p.bounds.items };
}

impl Plan {
    /// The plan of a network and a list of bounds that is closed for it.
    pub fn adopt(net: Network, bounds: Vec<Bound>) -> Plan
        requires closed { IsClosed (the_network net) (the_bounds bounds.items) }
        requires few { length bounds.items < 2 ^ 32 }
        ensures adopt { result ≡ record { net = net; bounds = bounds.items } }
    {
        // Every network is well-formed.
        prove!(0 < net.count());
        Plan { net, bounds }
    }

    /// The network. It is consistent.
    pub fn network(&self) -> &Network
        ensures network { result.now ≡ self.now.net }
        ensures consistent { IsConsistent (the_network result.now) }
        ensures well_formed { IsWellFormed (the_network result.now) }
        ensures closed { IsClosed (the_network result.now) (the_bounds self.now.bounds) }
    {
        &self.net
    }

    // A copy of the bounds.
    fn copy_bounds(&self, alloc: Global) -> Result<Vec<Bound>, AllocError>
        ensures equal { IfOk result (λ bounds. bounds.items ≡ self.now.bounds) }
        ensures few { length self.now.bounds < 2 ^ 32 }
    {
        Vec::from_slice(alloc, &self.bounds)
    }

    /// How many bounds there are.
    pub fn count(&self) -> u32
        ensures count { result ≡ length self.now.bounds }
    {
        self.bounds.len() as u32
    }

    /// The bound at a place, from 0. It is at a time-point of the network, and marks observed
    /// propositions alone.
    pub fn bound(&self, k: u32) -> Bound
        requires { k < length self.now.bounds }
        ensures bound { slice_get self.now.bounds k ≡ Some result }
        ensures node { result.node.0 < count (the_network self.now.net) }
        ensures observed { IsOnObserved (the_network self.now.net) (marks result.label) }
    {
        self.bounds[k as usize]
    }
}

/// A plan each of whose bounds holds in every strategy of its network. So a time-point that is executed as soon as no bound
/// holds it back is executed at its least moment.
#[derive(Drop)]
pub struct SoundPlan {
    plan: Plan,
}

impl Model for SoundPlan {
    ghost use Rattle.cstn_net.specs.Read.{the_network};
    ghost use Rattle.cstn_plan.specs.Asked.{AllSound};
    ghost use Rattle.cstn_plan.specs.Plans.{PlanParts, the_bounds};

    ghost Value = { PlanParts };

    ghost view = { λ p. p.plan };

    ghost invariant = { λ p. AllSound (the_network p.plan.net) (the_bounds p.plan.bounds) };
}

impl SoundPlan {
    /// The plan of a network and a list of bounds that is closed for it and holds in every strategy.
    pub fn new(net: Network, bounds: Vec<Bound>) -> SoundPlan
        requires closed { IsClosed (the_network net) (the_bounds bounds.items) }
        requires sound { AllSound (the_network net) (the_bounds bounds.items) }
        requires few { length bounds.items < 2 ^ 32 }
        ensures new { result ≡ record { net = net; bounds = bounds.items } }
    {
        SoundPlan {
            plan: Plan::adopt(net, bounds),
        }
    }

    /// A copy of the plan, whose network has no room for more constraints. Fails for want of memory alone.
    pub fn copy(&self, alloc: Global) -> Result<SoundPlan, AllocError>
        ensures equal { IfOk result (λ p. p ≡ record { net = record self.now.net { spare = 0 }; bounds = self.now.bounds }) }
    {
        let net = self.network().copy(alloc)?;
        let bounds = self.plan.copy_bounds(alloc)?;
        Ok(SoundPlan::new(net, bounds))
    }

    /// The network. It is consistent: one strategy has each time-point at its least moment in every scenario, and a bound of
    /// the plan holds the time-point back at just the moments before.
    pub fn network(&self) -> &Network
        ensures network { result.now ≡ self.now.net }
        ensures consistent { IsConsistent (the_network result.now) }
        ensures well_formed { IsWellFormed (the_network result.now) }
        ensures closed { IsClosed (the_network result.now) (the_bounds self.now.bounds) }
        ensures sound { AllSound (the_network result.now) (the_bounds self.now.bounds) }
        ensures earliest { (table : Table) × IsEarliest (the_network result.now) (the_bounds self.now.bounds) table }
    {
        self.plan.network()
    }

    /// How many bounds there are.
    pub fn count(&self) -> u32
        ensures count { result ≡ length self.now.bounds }
    {
        self.plan.count()
    }

    /// The bound at a place, from 0. It is at a time-point of the network, marks observed
    /// propositions alone, and holds in every strategy.
    pub fn bound(&self, k: u32) -> Bound
        requires { k < length self.now.bounds }
        ensures bound { slice_get self.now.bounds k ≡ Some result }
        ensures node { result.node.0 < count (the_network self.now.net) }
        ensures observed { IsOnObserved (the_network self.now.net) (marks result.label) }
        ensures holds { (table : Table) → IsStrategy (the_network self.now.net) table → HoldsIn (the_network self.now.net) table (the_bound result) }
    {
        self.plan.bound(k)
    }
}
