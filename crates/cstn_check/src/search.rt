// A search that leaves out constraints.
ghost use Rattle.std.specs.Prelude.{◌≡◌, ℕ, Bool, Option, option_map, IfOk, IfSome};
ghost use Rattle.cstn_net.specs.Networks.{Network as TheNetwork};
ghost use Rattle.cstn_net.specs.Read.{the_network};
ghost use Rattle.cstn_check.specs.Givers.{ids_of, with_some, network_without};
ghost use Rattle.cstn_check.specs.Needs.{answer, IfNo, Stands, is_idle};
ghost use Rattle.cstn_check.specs.Search.{narrowed, left_over};

use crate::needs::Finding;
use cstn_net::Network;
use std::alloc::{AllocError, Global};

/// What a search asks of a network with some of the constraints of another.
pub trait Trial {
    /// Of which networks it may be asked.
    ghost may: { Self → TheNetwork → Type 0 };

    /// What is said of a network: yes, no, or nothing.
    ghost says: { Self → TheNetwork → Option Bool };

    /// What is found of a network, and which constraints a no needs. Fails for want of memory alone.
    fn find(&self, alloc: Global, net: Network) -> Result<Finding, AllocError>
        requires may { may self.now (the_network net) }
        ensures said { IfOk result (λ o. answer o ≡ says self.now (the_network net)) }
        ensures stands { IfOk result (λ o. IfNo o (Stands (says self.now) (the_network net))) };
}

/// The network that is left when each constraint, in ascending order of the ids, was left out for good where no is said without it,
/// too; none where nothing is said of a network that is tried. `first` is what was found of the whole network. A constraint that the
/// last no doesn't need is left out without a trial. Fails for want of memory alone.
pub fn leave_out<T: Trial>(
    alloc: Global,
    trial: &T,
    net: Network,
    first: Finding,
) -> Result<Option<Network>, AllocError>
    requires may { (test : ℕ → Bool) → T.may trial.now (with_some (the_network net) test) }
    requires stands { IfNo first (Stands (T.says trial.now) (the_network net)) }
    ensures left { IfOk result (λ o. option_map (λ n. the_network n) o ≡ left_over (T.says trial.now) (the_network net)) }
{
    let ids = ids_of(alloc, &net)?;
    let mut left = Left { net, last: first };
    for k in 0..ids.len() {
        let Some(less) = narrowed(alloc, trial, left, ids[k])? else {
            return Ok(None);
        };
        left = less;
    }
    Ok(Some(left.net))
}

/// The ids of the constraints, in order. Fails for want of memory alone.
pub fn ids_of(alloc: Global, net: &Network) -> Result<Vec<u32>, AllocError>
    ensures { IfOk result (λ v. v.items ≡ ids_of (the_network net.now)) }
{
    let constraints = net.constraints();
    let mut ids = Vec::with_capacity(alloc, constraints.len())?;
    for constraint in constraints {
        ids.push(constraint.id)?;
    }
    Ok(ids)
}

// How far the search has come.
#[derive(Drop)]
struct Left {
    // The network that is left.
    net: Network,
    // The last no, or what was found at first, where that wasn't no.
    last: Finding,
}

impl Left {
    // Whether the last no is known to stand without the constraint of the id.
    fn is_idle(&self, id: u32) -> bool
        ensures { result ≡ is_idle self.now.last id }
    {
        match &self.last {
            Finding::No(needed) => !needed.contains(&id),
            _ => false,
        }
    }

    // What is left without the constraint of the id.
    fn without(self, id: u32) -> Left
        ensures net { the_network result.net ≡ network_without id (the_network self.net) }
        ensures last { result.last ≡ self.last }
    {
        let mut less = self;
        less.net.take_out(id);
        less
    }
}

// What is left without the constraint of the id where no is said without it, too, and else all; none where nothing is said.
fn narrowed<T: Trial>(
    alloc: Global,
    trial: &T,
    left: Left,
    id: u32,
) -> Result<Option<Left>, AllocError>
    requires may { T.may trial.now (network_without id (the_network left.net)) }
    requires stands { IfNo left.last (Stands (T.says trial.now) (the_network left.net)) }
    ensures narrowed { IfOk result (λ o. option_map (λ l. the_network l.net) o
        ≡ narrowed (T.says trial.now (network_without id (the_network left.net))) id (the_network left.net)) }
    ensures stands { IfOk result (λ o. IfSome o (λ l. IfNo l.last (Stands (T.says trial.now) (the_network l.net)))) }
{
    if left.is_idle(id) {
        return Ok(Some(left.without(id)));
    }
    let less = without(alloc, &left.net, id)?;
    match trial.find(alloc, less)? {
        Finding::Full => Ok(None),
        Finding::Yes { .. } => Ok(Some(left)),
        Finding::No(needed) => {
            let less = left.without(id);
            Ok(Some(Left {
                net: less.net,
                last: Finding::No(needed),
            }))
        }
    }
}

// The network without the constraint of the id.
fn without(alloc: Global, net: &Network, id: u32) -> Result<Network, AllocError>
    ensures without { IfOk result (λ n. the_network n ≡ network_without id (the_network net.now)) }
{
    let mut less = net.copy(alloc)?;
    less.take_out(id);
    Ok(less)
}
