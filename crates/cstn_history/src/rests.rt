// The labelled network of what is left.
ghost use Rattle.std.specs.Prelude.{ℕ, ◌≡◌, ◌≢◌, ◌<◌, ◌≤◌, ◌+◌, ◌++◌, ◌∷◌, [], map, length, slice_index_or, if◌then◌else◌, IfOk, IfErr};
ghost use Rattle.std.specs.List.{All, cons_option};
ghost use Rattle.cstn_label.specs.Read.{marks};
ghost use Rattle.cstn_net.specs.Limits.{most_constraints};
ghost use Rattle.cstn_net.specs.Networks.{Observes, IsWellFormed, AreConstraintsFor, count};
ghost use Rattle.cstn_net.specs.Read.{the_network, the_constraint};
ghost use Rattle.cstn_net.specs.Drafts.{net_number};
ghost use Rattle.cstn_lift.specs.Faults.{lift_number};
ghost use Rattle.cstn_lift.specs.Read.{the_labelled};
ghost use Rattle.cstn_lift.specs.WellFormed.{IsLabelled};
ghost use Rattle.cstn_history.specs.Rest.{left, constraints_left, reaction_after, rest};
ghost use Rattle.cstn_history.specs.Read.{the_history, IsKeptFor};
ghost use Rattle.cstn_history.specs.Handed.{AreNumbers, HasLeft, HasAllLeft, bared, rest_number, IsBaseRefusal, IsRestRefusal, HasFewConstraints};

use crate::adding::added;
use crate::errors::RestError;
use crate::histories::History;
use crate::leaving::{constraint_left, is_left, known_at, reaction_watched, sight_left};
use cstn_label::{Label, NodeId, Prop};
use cstn_lift::{Labelled, LiftError, labelled_networks_have_no_fault, lift};
use cstn_net::{
    Builder, Constraint, MAX_CONSTRAINTS, NetError, Network, handed_networks_are_closed,
    network_is_well_formed,
};
use std::alloc::{AllocError, Global};

/// The time-points that are left, and the number of each time-point among them.
#[derive(Drop)]
pub(crate) struct Left {
    pub(crate) points: Vec<NodeId>,
    numbers: Vec<u16>,
}

/// The time-points that are left.
pub(crate) fn left_of(
    alloc: Global,
    network: &Labelled,
    history: &History,
) -> Result<Left, AllocError>
    requires kept { IsKeptFor (the_labelled network.now) history.now }
    ensures points { IfOk result (λ l. map (λ x. x.0) l.points.items ≡ left (the_labelled network.now) (the_history history.now)) }
    ensures numbers { IfOk result (λ l. AreNumbers (the_labelled network.now) (the_history history.now) l.numbers.items) }
    ensures labelled { IsLabelled (the_labelled network.now) }
{
    let base = network.base();
    let mut points = Vec::new(alloc);
    let mut numbers = Vec::new(alloc);
    for x in 0..base.count() {
        numbers.push(points.len() as u16)?;
        push_if(&mut points, NodeId(x), is_left(network, history, NodeId(x)))?;
    }
    Ok(Left { points, numbers })
}

/// The number that each time-point has among those that are left, which is that of the next one that is left where it isn't left
/// itself. Fails where memory is refused.
pub fn numbers_left(
    alloc: Global,
    network: &Labelled,
    history: &History,
) -> Result<Vec<u16>, AllocError>
    requires kept { IsKeptFor (the_labelled network.now) history.now }
    ensures numbers { IfOk result (λ v. AreNumbers (the_labelled network.now) (the_history history.now) v.items) }
{
    let left = left_of(alloc, network, history)?;
    Ok(left.numbers)
}

fn push_if(points: &mut Vec<NodeId>, x: NodeId, is_kept: bool) -> Result<(), AllocError>
    ensures { IfOk result (λ _. points.new.items ≡ points.old.items ++ (if is_kept then x ∷ [] else [])) }
{
    if is_kept {
        points.push(x)?;
    }
    Ok(())
}

// What is left of the constraints.
fn kept(
    alloc: Global,
    network: &Labelled,
    history: &History,
    numbers: &[u16],
) -> Result<Vec<Constraint>, AllocError>
    requires kept { IsKeptFor (the_labelled network.now) history.now }
    requires numbers { AreNumbers (the_labelled network.now) (the_history history.now) numbers.now }
    ensures kept { IfOk result (λ v. map the_constraint v.items ≡ constraints_left (the_labelled network.now) (the_history history.now)) }
    ensures few { IfOk result (λ v. length v.items ≤ most_constraints) }
{
    let mut kept = Vec::new(alloc);
    for c in network.base().constraints() {
        push_some(&mut kept, constraint_left(network, history, numbers, c))?;
    }
    Ok(kept)
}

fn push_some(kept: &mut Vec<Constraint>, c: Option<Constraint>) -> Result<(), AllocError>
    ensures { IfOk result (λ _. kept.new.items ≡ kept.old.items ++ cons_option c []) }
{
    if let Some(c) = c {
        kept.push(c)?;
    }
    Ok(())
}

/// The labels that are left.
pub(crate) fn labels_left(
    alloc: Global,
    network: &Labelled,
    history: &History,
    points: &[NodeId],
) -> Result<Vec<Label>, AllocError>
    requires labelled { IsLabelled (the_labelled network.now) }
    requires kept { IsKeptFor (the_labelled network.now) history.now }
    requires points { map (λ x. x.0) points.now ≡ left (the_labelled network.now) (the_history history.now) }
    ensures { IfOk result (λ v. map marks v.items ≡ (rest (the_labelled network.now) (the_history history.now) 0).labels) }
{
    let mut labels = Vec::new(alloc);
    for x in points {
        labels.push(history.label_left(network.label(*x)))?;
    }
    Ok(labels)
}

// The network of the time-points that are left, without constraints.
fn points_left(
    alloc: Global,
    network: &Labelled,
    history: &History,
    points: &[NodeId],
) -> Result<Network, RestError>
    requires kept { IsKeptFor (the_labelled network.now) history.now }
    requires points { map (λ x. x.0) points.now ≡ left (the_labelled network.now) (the_history history.now) }
    ensures bared { IfOk result (λ n. the_network n ≡ bared (the_labelled network.now) (the_history history.now)) }
    ensures none { IfOk result (λ n. n.constraints ≡ []) }
    ensures refused { IfErr result (λ e. rest_number e ≡ 0) }
{
    handed_networks_are_closed();
    let mut builder = Builder::new(alloc, network.base().deadline());
    if let Err(e) = add_points(&mut builder, network, history, points) {
        return Err(RestError::Memory(e));
    }
    match builder.close() {
        Ok(net) => Ok(net),
        Err(e) => Err(error_of(e)),
    }
}

/// The refusal that a builder's error stands for, which is want of memory.
pub(crate) fn error_of(error: NetError) -> RestError
    ensures memory { net_number error ≡ 0 → rest_number result ≡ 0 }
{
    match error {
        NetError::Memory(e) => RestError::Memory(e),
        _ => RestError::TooManyConstraints,
    }
}

/// Adds the time-points that are left, with what they observe and their reactions.
pub(crate) fn add_points(
    builder: &mut Builder,
    network: &Labelled,
    history: &History,
    points: &[NodeId],
) -> Result<(), AllocError>
    requires labelled { IsLabelled (the_labelled network.now) }
    requires kept { IsKeptFor (the_labelled network.now) history.now }
    requires points { map (λ x. x.0) points.now ≡ left (the_labelled network.now) (the_history history.now) }
    requires none { builder.old.points ≡ [] }
    ensures points { IfOk result (λ _. HasAllLeft (the_labelled network.now) (the_history history.now) builder.new.points) }
    ensures same { (builder.new.deadline ≡ builder.old.deadline) × (builder.new.drafts ≡ builder.old.drafts) }
{
    for x in points {
        add_point(builder, network, history, *x)?;
    }
    Ok(())
}

// Adds a time-point that is left, which is the next.
fn add_point(
    builder: &mut Builder,
    network: &Labelled,
    history: &History,
    x: NodeId,
) -> Result<(), AllocError>
    requires labelled { IsLabelled (the_labelled network.now) }
    requires kept { IsKeptFor (the_labelled network.now) history.now }
    requires place { length builder.old.points < count (bared (the_labelled network.now) (the_history history.now)) }
    requires next { x.0 ≡ slice_index_or (left (the_labelled network.now) (the_history history.now)) (length builder.old.points) 0 }
    requires before { HasLeft (the_labelled network.now) (the_history history.now) (length builder.old.points) builder.old.points }
    ensures added { IfOk result (λ _. HasLeft (the_labelled network.now) (the_history history.now) (length builder.old.points + 1) builder.new.points) }
    ensures longer { IfOk result (λ _. length builder.new.points ≡ length builder.old.points + 1) }
    ensures same { (builder.new.deadline ≡ builder.old.deadline) × (builder.new.drafts ≡ builder.old.drafts) }
{
    let observes = sight_left(network, history, x);
    let node = builder.node(observes)?;
    if let Some(p) = observes {
        builder.react(node, reaction_left(network, history, x, p));
    }
    Ok(())
}

// The reaction of a proposition that isn't told and whose observer is left.
fn reaction_left(network: &Labelled, history: &History, x: NodeId, p: Prop) -> u32
    requires inside { x.0 < count (the_labelled network.now).base }
    requires kept { IsKeptFor (the_labelled network.now) history.now }
    ensures { result ≡ reaction_after (the_labelled network.now) (the_history history.now) p.index x.0 ((the_history history.now).done x.0) }
{
    let Some(done) = history.done(x) else {
        return network.base().reaction(p);
    };
    if x.0 == 0 {
        known_at(network, history, p, done)
    } else {
        reaction_watched(network, history, p, done)
    }
}

/// Puts these constraints in behind those of the network.
pub(crate) fn insert_all(net: &mut Network, more: &[Constraint])
    requires room { length more.now ≤ net.old.spare }
    requires fit { AreConstraintsFor (the_network net.old) (map the_constraint (net.old.constraints ++ more.now)) }
    ensures inserted { net.new.constraints ≡ net.old.constraints ++ more.now }
    ensures spare { net.new.spare + length more.now ≡ net.old.spare }
    ensures same { (net.new.deadline ≡ net.old.deadline) × (net.new.points ≡ net.old.points) }
{
    for c in more {
        net.insert(*c);
    }
}

// The network of what is left, without labels on time-points.
fn base_left(
    alloc: Global,
    network: &Labelled,
    history: &History,
    remaining: &Left,
    fresh: u32,
) -> Result<Network, RestError>
    requires labelled { IsLabelled (the_labelled network.now) }
    requires kept { IsKeptFor (the_labelled network.now) history.now }
    requires points { map (λ x. x.0) remaining.now.points.items ≡ left (the_labelled network.now) (the_history history.now) }
    requires numbers { AreNumbers (the_labelled network.now) (the_history history.now) remaining.now.numbers.items }
    requires above { All (λ c. c.id < fresh) (the_labelled network.now).base.constraints }
    requires room { fresh ≤ 4294000000 }
    ensures base { IfOk result (λ n. the_network n ≡ (rest (the_labelled network.now) (the_history history.now) fresh).base) }
    ensures refused { IfErr result (IsBaseRefusal (rest (the_labelled network.now) (the_history history.now) fresh)) }
{
    let kept = match kept(alloc, network, history, &remaining.numbers) {
        Ok(kept) => kept,
        Err(e) => return Err(RestError::Memory(e)),
    };
    let added = match added(alloc, network, history, &remaining.numbers, fresh) {
        Ok(added) => added,
        Err(e) => return Err(RestError::Memory(e)),
    };
    let count = kept.len() + added.len();
    if count > MAX_CONSTRAINTS {
        return Err(RestError::TooManyConstraints);
    }
    let mut base = match points_left(alloc, network, history, &remaining.points) {
        Ok(base) => base,
        Err(e) => return Err(e),
    };
    if let Err(e) = base.reserve(count as u32) {
        return Err(RestError::Memory(e));
    }
    insert_all(&mut base, &kept);
    insert_all(&mut base, &added);
    Ok(base)
}

/// The labelled network of what is left of a labelled network after what has happened. Its constraints keep their ids, and those
/// that are added have ids from `fresh` on, which is above all ids of the network and at most 4,294,000,000. Refused where it, or
/// its lowered network, has more than 16,384 constraints, or where memory is refused.
pub fn rest(
    alloc: Global,
    network: &Labelled,
    history: &History,
    fresh: u32,
) -> Result<Labelled, RestError>
    requires kept { IsKeptFor (the_labelled network.now) history.now }
    requires above { All (λ c. c.id < fresh) (the_labelled network.now).base.constraints }
    requires room { fresh ≤ 4294000000 }
    ensures rest { IfOk result (λ l. the_labelled l ≡ rest (the_labelled network.now) (the_history history.now) fresh) }
    ensures labelled { IfOk result (λ l. IsLabelled (the_labelled l)) }

    // Unless memory is refused, it is refused exactly where there are too many constraints.
    ensures few { IfOk result (λ _. HasFewConstraints (rest (the_labelled network.now) (the_history history.now) fresh)) }
    ensures refused { IfErr result (IsRestRefusal (rest (the_labelled network.now) (the_history history.now) fresh)) }
{
    labelled_networks_have_no_fault();
    let left = match left_of(alloc, network, history) {
        Ok(left) => left,
        Err(e) => return Err(RestError::Memory(e)),
    };
    let base = match base_left(alloc, network, history, &left, fresh) {
        Ok(base) => base,
        Err(e) => return Err(e),
    };
    let labels = match labels_left(alloc, network, history, &left.points) {
        Ok(labels) => labels,
        Err(e) => return Err(RestError::Memory(e)),
    };
    network_is_well_formed(&base);
    match lift(alloc, base, labels) {
        Ok(rest) => Ok(rest),
        Err(fault) => Err(refusal_of(fault)),
    }
}

/// The refusal that a fault stands for, which is want of memory or that there are too many constraints.
pub(crate) fn refusal_of(fault: LiftError) -> RestError
    ensures memory { lift_number fault ≡ 0 → rest_number result ≡ 0 }
    ensures constraints { lift_number fault ≢ 0 → result ≡ RestError.TooManyConstraints }
{
    match fault {
        LiftError::Memory(e) => RestError::Memory(e),
        _ => RestError::TooManyConstraints,
    }
}
