// The plain network that a labelled network is lowered to. On the way the builder holds at most 16,384 constraints with their full
// labels and 52 guards for each of 1,024 time-points, 69,632 in all. What a step requires of it is a round number above that.
ghost use Rattle.std.specs.Prelude.{ℕ, ◌≡◌, ◌≢◌, ◌<◌, ◌≤◌, ◌+◌, ◌^◌, ◌-◌, ◌++◌, ◌∷◌, ◌⊎◌, [], List, length, map, IfOk, IfErr};
ghost use Rattle.cstn_label.specs.Labels.{IsMarked};
ghost use Rattle.cstn_label.specs.Read.{marks};
ghost use Rattle.cstn_net.specs.Limits.{most_constraints};
ghost use Rattle.cstn_net.specs.Networks.{IsWellFormed, count};
ghost use Rattle.cstn_net.specs.Read.{the_network, the_constraint, IsInRange};
ghost use Rattle.cstn_net.specs.Drafts.{constraints_from, net_number};
ghost use Rattle.cstn_lift.specs.Completion.{full_label};
ghost use Rattle.cstn_lift.specs.WellFormed.{IsLabelled};
ghost use Rattle.cstn_lift.specs.Lowered.{lowered, full_constraints, full_of, guards_for, all_guards, guards_of};
ghost use Rattle.cstn_lift.specs.Faults.{IsTooMany, lift_number};
ghost use Rattle.cstn_lift.specs.Read.{with_labels, AreCompleted};
ghost use Rattle.cstn_lift.specs.Handed.{HasPoints, HasConstraints, AddsConstraints};

use crate::completion::completed;
use crate::errors::LiftError;
use cstn_label::{Label, NodeId, Prop, labels_are_their_marks};
use cstn_net::{
    Builder, Constraint, NetError, Network, drafts_are_numbered, handed_networks_are_closed,
};
use std::alloc::{AllocError, Global};

/// The lowered network of a network with these labels, whose completed labels are `whole`. Refused only where it has more than
/// 16,384 constraints, or where memory is refused.
pub fn lowered(
    alloc: Global,
    net: &Network,
    labels: &[Label],
    whole: &[Label],
) -> Result<Network, LiftError>
    requires labelled { IsLabelled (with_labels net.now labels.now) }
    requires completed { AreCompleted (with_labels net.now labels.now) whole.now }
    ensures lowered { IfOk result (λ n. the_network n ≡ lowered (with_labels net.now labels.now)) }
    ensures few { IfOk result (λ _. length (lowered (with_labels net.now labels.now)).constraints ≤ most_constraints) }
    ensures well_formed { IfOk result (λ n. IsWellFormed (the_network n)) }
    ensures refused { IfErr result (λ e. (lift_number e ≡ 0) ⊎ IsTooMany (with_labels net.now labels.now) e) }
{
    drafts_are_numbered();
    handed_networks_are_closed();
    let builder = match handed(alloc, net, labels, whole) {
        Ok(builder) => builder,
        Err(e) => return Err(LiftError::Memory(e)),
    };
    match builder.close() {
        Ok(network) => Ok(network),
        Err(error) => Err(error_of(error)),
    }
}

// The refusal that a builder's error stands for. The lowered network is well-formed but for the number of its constraints, so
// an error other than want of memory says that there are too many.
fn error_of(error: NetError) -> LiftError
    ensures memory { net_number error ≡ 0 → lift_number result ≡ 0 }
    ensures constraints { net_number error ≢ 0 → result ≡ LiftError.TooManyConstraints }
{
    match error {
        NetError::Memory(e) => LiftError::Memory(e),
        _ => LiftError::TooManyConstraints,
    }
}

// A builder that was handed the lowered network.
fn handed(
    alloc: Global,
    net: &Network,
    labels: &[Label],
    whole: &[Label],
) -> Result<Builder, AllocError>
    requires labelled { IsLabelled (with_labels net.now labels.now) }
    requires completed { AreCompleted (with_labels net.now labels.now) whole.now }
    ensures deadline { IfOk result (λ b. b.deadline ≡ net.now.deadline) }
    ensures points { IfOk result (λ b. HasPoints (the_network net.now) (count (the_network net.now)) b.points) }
    ensures constraints { IfOk result (λ b. map the_constraint (constraints_from 0 b.drafts) ≡ (lowered (with_labels net.now labels.now)).constraints) }
{
    let mut builder = Builder::new(alloc, net.deadline());
    add_points(&mut builder, net)?;
    add_full(&mut builder, net, labels)?;
    add_guards(&mut builder, net, whole)?;
    Ok(builder)
}

// Adds the time-points of the network, with what they observe and their reactions.
fn add_points(builder: &mut Builder, net: &Network) -> Result<(), AllocError>
    requires none { builder.old.points ≡ [] }
    ensures points { IfOk result (λ _. HasPoints (the_network net.now) (count (the_network net.now)) builder.new.points) }
    ensures rest { (builder.new.deadline ≡ builder.old.deadline) × (builder.new.drafts ≡ builder.old.drafts) }
{
    for x in 0..net.count() {
        add_point(builder, net, NodeId(x))?;
    }
    Ok(())
}

// Adds the next time-point of the network.
fn add_point(builder: &mut Builder, net: &Network, x: NodeId) -> Result<(), AllocError>
    requires inside { x.0 < count (the_network net.now) }
    requires before { HasPoints (the_network net.now) x.0 builder.old.points }
    ensures added { IfOk result (λ _. HasPoints (the_network net.now) (x.0 + 1) builder.new.points) }
    ensures rest { (builder.new.deadline ≡ builder.old.deadline) × (builder.new.drafts ≡ builder.old.drafts) }
{
    let observes = net.observes(x);
    let node = builder.node(observes)?;
    if let Some(p) = observes {
        builder.react(node, net.reaction(p));
    }
    Ok(())
}

// Adds the constraints of the network with their full labels, where these are plain.
fn add_full(builder: &mut Builder, net: &Network, labels: &[Label]) -> Result<(), AllocError>
    requires one_each { length labels.now ≡ count (the_network net.now) }
    requires points { length builder.old.points ≡ count (the_network net.now) }
    requires none { builder.old.drafts ≡ [] }
    ensures added { IfOk result (λ _. HasConstraints (full_constraints (with_labels net.now labels.now)) builder.new.drafts) }
    ensures few { IfOk result (λ _. length builder.new.drafts ≤ most_constraints) }
    ensures rest { (builder.new.deadline ≡ builder.old.deadline) × (builder.new.points ≡ builder.old.points) }
{
    for c in net.constraints() {
        add_one_full(builder, net, labels, c)?;
    }
    Ok(())
}

// Adds a constraint with its full label, where this is plain.
fn add_one_full(
    builder: &mut Builder,
    net: &Network,
    labels: &[Label],
    c: &Constraint,
) -> Result<(), AllocError>
    requires one_each { length labels.now ≡ count (the_network net.now) }
    requires points { length builder.old.points ≡ count (the_network net.now) }
    requires range { IsInRange (count (the_network net.now)) c.now }
    requires few { length builder.old.drafts ≤ 100000 }
    ensures added { IfOk result (λ _. AddsConstraints builder.old.drafts builder.new.drafts
        (full_of (with_labels net.now labels.now) (the_constraint c.now ∷ []))) }
    ensures few { length builder.new.drafts ≤ length builder.old.drafts + 1 }
    ensures rest { (builder.new.deadline ≡ builder.old.deadline) × (builder.new.points ≡ builder.old.points) }
{
    labels_are_their_marks();
    drafts_are_numbered();
    let label = full_label(net, labels, c);
    if !label.is_plain() {
        return Ok(());
    }
    builder.constrain(c.from.number(), c.to.number(), c.most, label)?;
    Ok(())
}

// The label of a constraint and those of its ends, joined and completed.
fn full_label(net: &Network, labels: &[Label], c: &Constraint) -> Label
    requires one_each { length labels.now ≡ count (the_network net.now) }
    requires from { c.now.from.0 < count (the_network net.now) }
    requires to { c.now.to.0 < count (the_network net.now) }
    ensures full { marks result ≡ full_label (with_labels net.now labels.now) (the_constraint c.now) }
{
    let ends = labels[c.from.index()].join(labels[c.to.index()]);
    completed(net, labels, c.label.join(ends))
}

// Adds, for each time-point, the constraints by which it waits for what its completed label marks.
fn add_guards(builder: &mut Builder, net: &Network, whole: &[Label]) -> Result<(), AllocError>
    requires one_each { length whole.now ≡ count (the_network net.now) }
    requires points { length builder.old.points ≡ count (the_network net.now) }
    requires few { length builder.old.drafts ≤ most_constraints }
    ensures added { IfOk result (λ _. AddsConstraints builder.old.drafts builder.new.drafts (all_guards (the_network net.now) (map marks whole.now))) }
    ensures rest { (builder.new.deadline ≡ builder.old.deadline) × (builder.new.points ≡ builder.old.points) }
{
    for x in 0..net.count() {
        let node = NodeId(x);
        add_guards_of(builder, net, node, whole[node.index()])?;
    }
    Ok(())
}

// Adds the constraints by which a time-point waits for what its completed label marks.
fn add_guards_of(
    builder: &mut Builder,
    net: &Network,
    x: NodeId,
    label: Label,
) -> Result<(), AllocError>
    requires inside { x.0 < count (the_network net.now) }
    requires well_formed { IsWellFormed (the_network net.now) }
    requires points { length builder.old.points ≡ count (the_network net.now) }
    requires few { length builder.old.drafts ≤ 90000 }
    ensures added { IfOk result (λ _. AddsConstraints builder.old.drafts builder.new.drafts (guards_of (the_network net.now) x.0 (marks label))) }
    ensures few { IfOk result (λ _. length builder.new.drafts ≤ length builder.old.drafts + 52) }
    ensures rest { (builder.new.deadline ≡ builder.old.deadline) × (builder.new.points ≡ builder.old.points) }
{
    let mut from = 0;
    while let Some(p) = label.first_marked_from(from) {
        add_guard(builder, net, x, label, p)?;
        from = p.index + 1;
    }
    Ok(())
}

// Adds the constraint by which a time-point waits for a proposition that its completed label marks.
fn add_guard(
    builder: &mut Builder,
    net: &Network,
    x: NodeId,
    label: Label,
    p: Prop,
) -> Result<(), AllocError>
    requires inside { x.0 < count (the_network net.now) }
    requires well_formed { IsWellFormed (the_network net.now) }
    requires marked { IsMarked (marks label) p.index }
    requires points { length builder.old.points ≡ count (the_network net.now) }
    requires few { length builder.old.drafts ≤ 100000 }
    ensures added { IfOk result (λ _. AddsConstraints builder.old.drafts builder.new.drafts
        (guards_for (the_network net.now) x.0 (marks label) (p.index ∷ []))) }
    ensures few { length builder.new.drafts ≤ length builder.old.drafts + 1 }
    ensures rest { (builder.new.deadline ≡ builder.old.deadline) × (builder.new.points ≡ builder.old.points) }
{
    drafts_are_numbered();
    let Some(observer) = net.observer(p) else {
        return Ok(());
    };
    let most = -(net.reaction(p) as i32);
    builder.constrain(x.number(), observer.number(), most, label)?;
    Ok(())
}
