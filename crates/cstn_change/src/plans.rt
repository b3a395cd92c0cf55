// Labelled networks that are edited as copies.
ghost use Rattle.std.specs.Prelude.{◌≡◌, ◌≢◌, ◌<◌, ◌≤◌, ◌++◌, ◌∷◌, [], length, map, None, IfOk, IfSome, IfNone};
ghost use Rattle.std.specs.List.{All};
ghost use Rattle.cstn_label.specs.Read.{marks};
ghost use Rattle.cstn_net.specs.Limits.{most_constraints, most_deadline};
ghost use Rattle.cstn_net.specs.Networks.{IsConstraint, IsValue};
ghost use Rattle.cstn_net.specs.Read.{the_network, the_constraint};
ghost use Rattle.cstn_lift.specs.Faults.{lift_number};
ghost use Rattle.cstn_lift.specs.Read.{the_labelled};
ghost use Rattle.cstn_lift.specs.WellFormed.{IsLabelled};
ghost use Rattle.cstn_lift.specs.Lowered.{lowered};
ghost use Rattle.cstn_history.specs.Histories.{edited};
ghost use Rattle.cstn_change.specs.Changes.{CanChange, HasTimePointEnds, constraints_after, fresh_after, constraints_without, with_value};
ghost use Rattle.cstn_change.specs.Read.{OnlyConstraintsDiffer, the_change};

use crate::changes::Change;
use crate::laws::ids_stay_below;
use cstn_label::{Label, NodeId};
use cstn_lift::{Labelled, LiftError, labelled_networks_have_no_fault, lift};
use cstn_net::{Constraint, Network, network_is_well_formed};
use std::alloc::{AllocError, Global};

/// The labelled network after a change, where an added constraint gets the id `fresh`; none where it has more than 16,384
/// constraints, lowered. Fails for want of memory alone.
pub fn changed(
    alloc: Global,
    network: &Labelled,
    fresh: u32,
    change: Change,
) -> Result<Option<Labelled>, AllocError>
    requires between { HasTimePointEnds (the_labelled network.now).base (the_change change) }
    requires possible { CanChange most_constraints (the_labelled network.now).base (the_change change) }
    requires above { All (λ c. c.id < fresh) (the_labelled network.now).base.constraints }
    ensures edited { IfOk result (λ o. IfSome o (λ l. the_labelled l
        ≡ edited (the_labelled network.now) network.now.base.deadline
        (constraints_after (the_labelled network.now).base.constraints fresh (the_change change)))) }
    ensures labelled { IfOk result (λ o. IfSome o (λ l. IsLabelled (the_labelled l))) }
    ensures above { IfOk result (λ o. IfSome o (λ l. All (λ c. c.id < fresh_after fresh (the_change change)) (the_labelled l).base.constraints)) }
    ensures many { IfOk result (λ o. IfNone o (most_constraints < length (lowered (edited (the_labelled network.now) network.now.base.deadline
        (constraints_after (the_labelled network.now).base.constraints fresh (the_change change)))).constraints)) }
{
    ids_stay_below();
    let base = changed_network(alloc, network.base(), fresh, change)?;
    relabelled(alloc, network, base)
}

/// The labelled network with another deadline, in ticks; none where it has more than 16,384 constraints, lowered. Fails for want of
/// memory alone.
pub fn with_deadline(
    alloc: Global,
    network: &Labelled,
    deadline: u32,
) -> Result<Option<Labelled>, AllocError>
    requires range { deadline ≤ most_deadline }
    ensures edited { IfOk result (λ o. IfSome o (λ l. the_labelled l
        ≡ edited (the_labelled network.now) deadline (the_labelled network.now).base.constraints)) }
    ensures labelled { IfOk result (λ o. IfSome o (λ l. IsLabelled (the_labelled l))) }
    ensures many { IfOk result (λ o. IfNone o (most_constraints < length (lowered
        (edited (the_labelled network.now) deadline (the_labelled network.now).base.constraints)).constraints)) }
{
    let mut base = network.base().copy(alloc)?;
    base.set_deadline(deadline);
    relabelled(alloc, network, base)
}

/// The labelled network with the deadline and the constraints of another network, which has the same time-points; none where it has
/// more than 16,384 constraints, lowered. Fails for want of memory alone.
pub fn relabelled(
    alloc: Global,
    network: &Labelled,
    base: Network,
) -> Result<Option<Labelled>, AllocError>
    requires points { base.points ≡ network.now.base.points }
    ensures edited { IfOk result (λ o. IfSome o (λ l. the_labelled l ≡ edited (the_labelled network.now) base.deadline (the_network base).constraints)) }
    ensures labelled { IfOk result (λ o. IfSome o (λ l. IsLabelled (the_labelled l))) }
    ensures many { IfOk result (λ o. IfNone o
        (most_constraints < length (lowered (edited (the_labelled network.now) base.deadline (the_network base).constraints)).constraints)) }
{
    network_is_well_formed(&base);
    labelled_networks_have_no_fault();
    network.base();
    let labels = labels_of(alloc, network)?;
    match lift(alloc, base, labels) {
        Ok(network) => Ok(Some(network)),
        Err(fault) => none_unless_memory(fault),
    }
}

/// The labels of the time-points, in order. Fails for want of memory alone.
pub fn labels_of(alloc: Global, network: &Labelled) -> Result<Vec<Label>, AllocError>
    ensures { IfOk result (λ v. map marks v.items ≡ (the_labelled network.now).labels) }
{
    let mut labels = Vec::new(alloc);
    for x in 0..network.base().count() {
        labels.push(network.label(NodeId(x)))?;
    }
    Ok(labels)
}

// The network after a change.
fn changed_network(
    alloc: Global,
    net: &Network,
    fresh: u32,
    change: Change,
) -> Result<Network, AllocError>
    requires between { HasTimePointEnds (the_network net.now) (the_change change) }
    requires possible { CanChange most_constraints (the_network net.now) (the_change change) }
    requires above { All (λ c. c.id < fresh) net.now.constraints }
    ensures edited { IfOk result (λ n. OnlyConstraintsDiffer net.now n (constraints_after (the_network net.now).constraints fresh (the_change change))) }
{
    match change {
        Change::Add {
            from,
            to,
            most,
            label,
        } => with_constraint(
            alloc,
            net,
            Constraint {
                id: fresh,
                from,
                to,
                most,
                label,
            },
        ),
        Change::Remove { id } => without_constraint(alloc, net, id),
        Change::Revalue { id, most } => with_value(alloc, net, id, most),
    }
}

// The network with a constraint more, behind the others.
fn with_constraint(alloc: Global, net: &Network, c: Constraint) -> Result<Network, AllocError>
    requires few { length net.now.constraints < most_constraints }
    requires above { All (λ d. d.id < c.id) net.now.constraints }
    requires constraint { IsConstraint (the_network net.now) (the_constraint c) }
    requires value { IsValue c.most }
    ensures edited { IfOk result (λ n. OnlyConstraintsDiffer net.now n ((the_network net.now).constraints ++ the_constraint c ∷ [])) }
{
    let mut base = net.copy(alloc)?;
    base.reserve(net.constraints().len() as u32 + 1)?;
    base.insert(c);
    Ok(base)
}

// The network without the constraint of this id.
fn without_constraint(alloc: Global, net: &Network, id: u32) -> Result<Network, AllocError>
    ensures edited { IfOk result (λ n. OnlyConstraintsDiffer net.now n (constraints_without id (the_network net.now).constraints)) }
{
    let mut base = net.copy(alloc)?;
    base.take_out(id);
    Ok(base)
}

// The network in which the constraint of this id has this value.
fn with_value(alloc: Global, net: &Network, id: u32, most: i32) -> Result<Network, AllocError>
    requires value { IsValue most }
    ensures edited { IfOk result (λ n. OnlyConstraintsDiffer net.now n (map (with_value id most) (the_network net.now).constraints)) }
{
    let mut base = net.copy(alloc)?;
    base.set_most(id, most);
    Ok(base)
}

// No labelled network, for a fault; fails where it is want of memory.
fn none_unless_memory(fault: LiftError) -> Result<Option<Labelled>, AllocError>
    ensures none { IfOk result (λ o. o ≡ None) }
    ensures other { IfOk result (λ _. lift_number fault ≢ 0) }
{
    match fault {
        LiftError::Memory(e) => Err(e),
        _ => Ok(None),
    }
}
