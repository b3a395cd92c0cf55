// Constraints that what was done has broken, and networks without them.
ghost use Rattle.std.specs.Prelude.{◌≡◌, ◌<◌, not, IfOk};
ghost use Rattle.cstn_net.specs.Networks.{count};
ghost use Rattle.cstn_net.specs.Read.{the_network, the_constraint, IsInRange};
ghost use Rattle.cstn_check.specs.Givers.{is_of, with_some};
ghost use Rattle.cstn_lift.specs.Completion.{full_label};
ghost use Rattle.cstn_lift.specs.Kept.{IsConstraintOf};
ghost use Rattle.cstn_lift.specs.Read.{the_labelled};
ghost use Rattle.cstn_history.specs.Histories.{allows};
ghost use Rattle.cstn_history.specs.Read.{the_history, IsKeptFor};
ghost use Rattle.cstn_follow.specs.Forgiving.{is_unmet, is_in_some_case, is_broken_by, broken_ids};

use crate::needs::{is_plain, push_if};
use cstn_history::{History, completed};
use cstn_lift::Labelled;
use cstn_net::{Constraint, Network};
use std::alloc::{AllocError, Global};

/// The ids of the constraints that what was done has broken, in ascending order. Fails for want of memory alone.
pub(crate) fn broken_ids(
    alloc: Global,
    network: &Labelled,
    history: &History,
) -> Result<Vec<u32>, AllocError>
    requires kept { IsKeptFor (the_labelled network.now) history.now }
    ensures broken { IfOk result (λ ids. ids.items ≡ broken_ids (the_labelled network.now) (the_history history.now)) }
{
    let mut ids = Vec::new(alloc);
    for c in network.base().constraints() {
        push_if(&mut ids, c.id, is_broken_by(network, history, c))?;
    }
    Ok(ids)
}

// Whether a constraint is broken.
fn is_broken_by(network: &Labelled, history: &History, c: &Constraint) -> bool
    requires range { IsInRange (count (the_labelled network.now).base) c.now }
    requires given { IsConstraintOf (the_labelled network.now) (the_constraint c.now) }
    requires kept { IsKeptFor (the_labelled network.now) history.now }
    ensures { result ≡ is_broken_by (the_labelled network.now) (the_history history.now) (the_constraint c.now) }
{
    is_unmet(history.done(c.from), history.done(c.to), c.most)
        && is_in_some_case(network, history, c)
}

// Whether ends that were done at these moments, in ticks, don't meet the value.
fn is_unmet(begun: Option<u32>, ended: Option<u32>, most: i32) -> bool
    ensures { result ≡ is_unmet begun ended most }
{
    let Some(begun) = begun else {
        return false;
    };
    let Some(ended) = ended else {
        return false;
    };
    most as i64 + (begun as i64) < ended as i64
}

// Whether a constraint is in force in some case that is left.
fn is_in_some_case(network: &Labelled, history: &History, c: &Constraint) -> bool
    requires range { IsInRange (count (the_labelled network.now).base) c.now }
    requires given { IsConstraintOf (the_labelled network.now) (the_constraint c.now) }
    ensures { result ≡ is_in_some_case (the_labelled network.now) (the_history history.now) (the_constraint c.now) }
{
    is_plain(network, c) && is_allowed(network, history, c)
}

// Whether what is told doesn't contradict the full label of a constraint.
fn is_allowed(network: &Labelled, history: &History, c: &Constraint) -> bool
    requires range { IsInRange (count (the_labelled network.now).base) c.now }
    ensures { result ≡ allows (the_history history.now) (full_label (the_labelled network.now) (the_constraint c.now)) }
{
    let ends = network.label(c.from).join(network.label(c.to));
    history.allows(completed(network, c.label.join(ends)))
}

/// The network without the constraints of these ids. Fails for want of memory alone.
pub(crate) fn without_ids(alloc: Global, net: &Network, ids: &[u32]) -> Result<Network, AllocError>
    ensures without { IfOk result (λ n. the_network n ≡ with_some (the_network net.now) (λ i. not (is_of ids.now i))) }
{
    let mut base = net.copy(alloc)?;
    for id in ids {
        base.take_out(*id);
    }
    Ok(base)
}
