// The constraints that are added in the rest.
ghost use Rattle.std.specs.Prelude.{◌≡◌, ◌<◌, ◌≤◌, ◌+◌, ◌*◌, [], ◌∷◌, length, IfOk};
ghost use Rattle.cstn_net.specs.Networks.{count};
ghost use Rattle.cstn_lift.specs.Read.{the_labelled};
ghost use Rattle.cstn_history.specs.Rest.{bare, added};
ghost use Rattle.cstn_history.specs.Read.{the_history, IsKeptFor};
ghost use Rattle.cstn_history.specs.Handed.{AreNumbers, HasAdded, AreAddedBehind, added_for, added_for_all};

use crate::histories::History;
use crate::leaving::{is_left, moment_watched, sight_left};
use cstn_label::{Label, NodeId};
use cstn_lift::Labelled;
use cstn_net::Constraint;
use std::alloc::{AllocError, Global};

/// Why a constraint is added: a time-point was done above its limit, is watched, or isn't to be before now or before it is ready.
#[derive(Clone, Copy, Debug, PartialEq, Eq)]
pub enum Kind {
    Late,
    Watched,
    Coming,
}

/// The constraints that are added, under ids from `fresh` on.
pub fn added(
    alloc: Global,
    network: &Labelled,
    history: &History,
    numbers: &[u16],
    fresh: u32,
) -> Result<Vec<Constraint>, AllocError>
    requires kept { IsKeptFor (the_labelled network.now) history.now }
    requires numbers { AreNumbers (the_labelled network.now) (the_history history.now) numbers.now }
    requires room { fresh ≤ 4294000000 }
    ensures added { IfOk result (λ v. HasAdded fresh (added (the_labelled network.now) (the_history history.now)) v.items) }
    ensures few { IfOk result (λ v. length v.items ≤ 6144) }
{
    let mut added = Vec::new(alloc);
    add_kind(&mut added, network, history, numbers, fresh, Kind::Late)?;
    add_kind(&mut added, network, history, numbers, fresh, Kind::Watched)?;
    add_kind(&mut added, network, history, numbers, fresh, Kind::Coming)?;
    Ok(added)
}

// Adds the constraints of one kind for all time-points.
fn add_kind(
    added: &mut Vec<Constraint>,
    network: &Labelled,
    history: &History,
    numbers: &[u16],
    fresh: u32,
    kind: Kind,
) -> Result<(), AllocError>
    requires kept { IsKeptFor (the_labelled network.now) history.now }
    requires numbers { AreNumbers (the_labelled network.now) (the_history history.now) numbers.now }
    requires room { fresh ≤ 4294000000 }
    requires few { length added.old.items ≤ 4096 }
    ensures added { IfOk result (λ _. AreAddedBehind fresh added.old.items added.new.items
        (added_for_all (the_labelled network.now) (the_history history.now) kind)) }
    ensures few { IfOk result (λ _. length added.new.items ≤ length added.old.items + 2048) }
{
    for x in 0..network.base().count() {
        add_one(added, network, history, numbers, fresh, kind, NodeId(x))?;
    }
    Ok(())
}

// Adds the constraints of one kind for a time-point.
fn add_one(
    added: &mut Vec<Constraint>,
    network: &Labelled,
    history: &History,
    numbers: &[u16],
    fresh: u32,
    kind: Kind,
    x: NodeId,
) -> Result<(), AllocError>
    requires inside { x.0 < count (the_labelled network.now).base }
    requires kept { IsKeptFor (the_labelled network.now) history.now }
    requires numbers { AreNumbers (the_labelled network.now) (the_history history.now) numbers.now }
    requires room { fresh ≤ 4294000000 }
    requires few { length added.old.items ≤ 10000 }
    ensures added { IfOk result (λ _. AreAddedBehind fresh added.old.items added.new.items
        (added_for (the_labelled network.now) (the_history history.now) kind x.0)) }
    ensures few { IfOk result (λ _. length added.new.items ≤ length added.old.items + 2) }
{
    match kind {
        Kind::Late => add_late(added, network, history, fresh, x),
        Kind::Watched => add_watched(added, network, history, numbers, fresh, x),
        Kind::Coming => add_coming(added, network, history, numbers, fresh, x),
    }
}

// Adds a constraint that nothing meets, where a time-point was done above its limit.
fn add_late(
    added: &mut Vec<Constraint>,
    network: &Labelled,
    history: &History,
    fresh: u32,
    x: NodeId,
) -> Result<(), AllocError>
    requires inside { x.0 < count (the_labelled network.now).base }
    requires kept { IsKeptFor (the_labelled network.now) history.now }
    requires room { fresh ≤ 4294000000 }
    requires few { length added.old.items ≤ 10000 }
    ensures added { IfOk result (λ _. AreAddedBehind fresh added.old.items added.new.items
        (added_for (the_labelled network.now) (the_history history.now) Kind.Late x.0)) }
    ensures few { IfOk result (λ _. length added.new.items ≤ length added.old.items + 2) }
{
    let limit = network.base().limit(x);
    let Some(done) = history.done(x) else {
        return Ok(());
    };
    let most = limit - done as i32;
    if most >= 0 {
        return Ok(());
    }
    add_bare(added, fresh, 0, 0, most)?;
    Ok(())
}

// Adds the constraints by which a watched time-point stands where it is watched from.
fn add_watched(
    added: &mut Vec<Constraint>,
    network: &Labelled,
    history: &History,
    numbers: &[u16],
    fresh: u32,
    x: NodeId,
) -> Result<(), AllocError>
    requires inside { x.0 < count (the_labelled network.now).base }
    requires kept { IsKeptFor (the_labelled network.now) history.now }
    requires numbers { AreNumbers (the_labelled network.now) (the_history history.now) numbers.now }
    requires room { fresh ≤ 4294000000 }
    requires few { length added.old.items ≤ 10000 }
    ensures added { IfOk result (λ _. AreAddedBehind fresh added.old.items added.new.items
        (added_for (the_labelled network.now) (the_history history.now) Kind.Watched x.0)) }
    ensures few { IfOk result (λ _. length added.new.items ≤ length added.old.items + 2) }
{
    if x.0 == 0 {
        return Ok(());
    }
    let Some(done) = history.done(x) else {
        return Ok(());
    };
    let Some(p) = sight_left(network, history, x) else {
        return Ok(());
    };
    let number = numbers[x.index()];
    let moment = moment_watched(network, history, p, done) as i32;
    add_bare(added, fresh, number, 0, -moment)?;
    add_bare(added, fresh, 0, number, moment)?;
    Ok(())
}

// Adds the constraint by which a time-point that isn't done isn't before now or before it is ready.
fn add_coming(
    added: &mut Vec<Constraint>,
    network: &Labelled,
    history: &History,
    numbers: &[u16],
    fresh: u32,
    x: NodeId,
) -> Result<(), AllocError>
    requires inside { x.0 < count (the_labelled network.now).base }
    requires kept { IsKeptFor (the_labelled network.now) history.now }
    requires numbers { AreNumbers (the_labelled network.now) (the_history history.now) numbers.now }
    requires room { fresh ≤ 4294000000 }
    requires few { length added.old.items ≤ 10000 }
    ensures added { IfOk result (λ _. AreAddedBehind fresh added.old.items added.new.items
        (added_for (the_labelled network.now) (the_history history.now) Kind.Coming x.0)) }
    ensures few { IfOk result (λ _. length added.new.items ≤ length added.old.items + 2) }
{
    let soonest = history.soonest(x);
    if soonest > 0 && is_left(network, history, x) && history.done(x).is_none() {
        add_bare(added, fresh, numbers[x.index()], 0, -(soonest as i32))?;
    }
    Ok(())
}

// Adds a constraint without a label, under the next id.
fn add_bare(
    added: &mut Vec<Constraint>,
    fresh: u32,
    from: u16,
    to: u16,
    most: i32,
) -> Result<(), AllocError>
    requires room { fresh ≤ 4294000000 }
    requires few { length added.old.items ≤ 100000 }
    ensures added { IfOk result (λ _. AreAddedBehind fresh added.old.items added.new.items (bare from to most ∷ [])) }
    ensures few { IfOk result (λ _. length added.new.items ≡ length added.old.items + 1) }
{
    let id = fresh + added.len() as u32;
    added.push(Constraint {
        id,
        from: NodeId(from),
        to: NodeId(to),
        most,
        label: Label::empty(),
    })?;
    Ok(())
}
