// Lists of the bounds of plans, and plans of lists of bounds.
ghost use Rattle.std.specs.Prelude.{◌≡◌, ◌≤◌, map, IfOk};
ghost use Rattle.std.specs.List.{Contains};
ghost use Rattle.cstn_label.specs.Bounds.{Bound as TheBound};
ghost use Rattle.cstn_label.specs.Read.{the_bound};
ghost use Rattle.cstn_net.specs.Limits.{most_load};
ghost use Rattle.cstn_net.specs.Read.{the_network};
ghost use Rattle.cstn_rules.specs.Closed.{IsClosed};
ghost use Rattle.cstn_rules.specs.Rules.{IsBoundOf};
ghost use Rattle.cstn_closed.specs.Closed.{the_listed_bounds};
ghost use Rattle.cstn_closed.specs.Faults.{IsFaultless};

use crate::lists::Closed;
use cstn_net::Network;
use cstn_plan::{Plan, SoundPlan};
use std::alloc::{AllocError, Global};

impl Closed {
    /// The list of a plan's bounds, in order, with the load of its check. Fails where memory is refused.
    ///
    /// Where the least values are from 0 to the limit + 1, as those of a check are, the list has no fault.
    pub fn of(alloc: Global, plan: &SoundPlan, load: u32) -> Result<Closed, AllocError>
        requires low { 1 ≤ load }
        requires high { load ≤ most_load }
        ensures of { IfOk result (λ c. c ≡ record { load = load; bounds = plan.now.bounds }) }
        ensures accepted { ((b : TheBound) → Contains (map the_bound plan.now.bounds) b → IsBoundOf (the_network plan.now.net) b)
            → IfOk result (λ c. IsFaultless (the_network plan.now.net) (the_listed_bounds c)) }
    {
        is_closed(plan);
        let mut bounds = Vec::with_capacity(alloc, plan.count() as usize)?;
        for k in 0..plan.count() {
            bounds.push(plan.bound(k))?;
        }
        Ok(Closed::new(load, bounds))
    }
}

// Does nothing: its contract says that the bounds of a plan are closed for its network.
fn is_closed(plan: &SoundPlan)
    ensures closed { IsClosed (the_network plan.now.net) (map the_bound plan.now.bounds) }
{
    // The contract of `network` says it.
    let _ = plan.network();
}

/// The plan of a network and a list that is closed for it, as a list is that `check` accepts. Its bounds need not hold in every
/// strategy, so it isn't a sound plan.
pub fn adopt(net: Network, closed: Closed) -> Plan
    requires closed { IsClosed (the_network net) (the_listed_bounds closed) }
    ensures adopt { result ≡ record { net = net; bounds = closed.bounds } }
{
    Plan::adopt(net, closed.into_bounds())
}
