// What is left of time-points and of constraints.
ghost use Rattle.std.specs.Prelude.{◌≡◌, ◌+◌, ◌<◌, ◌≤◌, length};
ghost use Rattle.std.specs.Option.{option_map};
ghost use Rattle.cstn_label.specs.Read.{marks};
ghost use Rattle.cstn_net.specs.Limits.{most_deadline};
ghost use Rattle.cstn_net.specs.Networks.{count};
ghost use Rattle.cstn_net.specs.Read.{prop_number, the_constraint, IsInRange};
ghost use Rattle.cstn_lift.specs.Completion.{full_label};
ghost use Rattle.cstn_lift.specs.Read.{the_labelled};
ghost use Rattle.cstn_history.specs.Histories.{allows, known_at};
ghost use Rattle.cstn_history.specs.Rest.{sight_left, is_left, end_left, moment_done, value_left, value_cut, is_over, constraint_left, awaited_at};
ghost use Rattle.cstn_history.specs.Rest.{reaction_watched, moment_watched};
ghost use Rattle.cstn_history.specs.Read.{the_history, IsKeptFor};
ghost use Rattle.cstn_history.specs.Handed.{AreNumbers};

use crate::completion::completed;
use crate::histories::History;
use cstn_label::{NodeId, Prop};
use cstn_lift::Labelled;
use cstn_net::{Constraint, MAX_MOST, MAX_REACTION};

/// What a time-point observes, if that isn't told.
pub fn sight_left(network: &Labelled, history: &History, x: NodeId) -> Option<Prop>
    requires inside { x.0 < count (the_labelled network.now).base }
    ensures { prop_number result ≡ sight_left (the_labelled network.now) (the_history history.now) x.0 }
{
    let p = network.base().observes(x)?;
    if history.told(p).is_some() {
        None
    } else {
        Some(p)
    }
}

/// Whether a time-point is left.
pub fn is_left(network: &Labelled, history: &History, x: NodeId) -> bool
    requires inside { x.0 < count (the_labelled network.now).base }
    requires kept { IsKeptFor (the_labelled network.now) history.now }
    ensures { result ≡ is_left (the_labelled network.now) (the_history history.now) x.0 }
{
    if x.0 == 0 {
        return true;
    }
    if history.done(x).is_some() {
        sight_left(network, history, x).is_some()
    } else {
        history.allows(completed(network, network.label(x)))
    }
}

/// When the outcome of a proposition is known, whose observer was done at this moment, in ticks.
pub fn known_at(network: &Labelled, history: &History, p: Prop, done: u32) -> u32
    requires early { done ≤ most_deadline }
    ensures { result ≡ known_at (the_labelled network.now) (the_history history.now) p.index done }
{
    let reaction = network.base().reaction(p);
    match history.expected(p) {
        Some(moment) => moment,
        None => done + reaction,
    }
}

/// When the outcome of a proposition is known, whose observer was done at this moment, or the moment after the deadline where
/// that is earlier.
fn awaited_at(network: &Labelled, history: &History, p: Prop, done: u32) -> u32
    requires early { done ≤ most_deadline }
    ensures awaited { result ≡ awaited_at (the_labelled network.now) (the_history history.now) p.index done }
    ensures range { result ≤ most_deadline + 1 }
{
    known_at(network, history, p, done).min(network.base().deadline() + 1)
}

/// The reaction that is left of a proposition, whose observer is watched.
pub fn reaction_watched(network: &Labelled, history: &History, p: Prop, done: u32) -> u32
    requires early { done ≤ most_deadline }
    ensures { result ≡ reaction_watched (the_labelled network.now) (the_history history.now) p.index done }
{
    awaited_at(network, history, p, done).min(MAX_REACTION)
}

/// The moment at which the observer of a proposition stands while it is watched.
pub fn moment_watched(network: &Labelled, history: &History, p: Prop, done: u32) -> u32
    requires early { done ≤ most_deadline }
    ensures moment { result ≡ moment_watched (the_labelled network.now) (the_history history.now) p.index done }
    ensures range { result ≤ most_deadline + 1 }
{
    awaited_at(network, history, p, done) - reaction_watched(network, history, p, done)
}

/// The end of a constraint in the rest: the origin where the time-point is done, and otherwise its number there.
fn end_left(network: &Labelled, history: &History, numbers: &[u16], x: NodeId) -> NodeId
    requires inside { x.0 < count (the_labelled network.now).base }
    requires kept { IsKeptFor (the_labelled network.now) history.now }
    requires numbers { AreNumbers (the_labelled network.now) (the_history history.now) numbers.now }
    ensures { result.0 ≡ end_left (the_labelled network.now) (the_history history.now) x.0 }
{
    if history.done(x).is_some() {
        NodeId(0)
    } else {
        NodeId(numbers[x.index()])
    }
}

/// The moment at which a time-point was done, and 0 where it isn't done.
fn moment_done(network: &Labelled, history: &History, x: NodeId) -> u32
    requires inside { x.0 < count (the_labelled network.now).base }
    requires kept { IsKeptFor (the_labelled network.now) history.now }
    ensures moment { result ≡ moment_done (the_history history.now) x.0 }
    ensures range { result ≤ most_deadline }
{
    match history.done(x) {
        Some(moment) => moment,
        None => 0,
    }
}

/// The value of a constraint when those of its ends that are done are put at the origin.
fn value_left(network: &Labelled, history: &History, c: &Constraint) -> i32
    requires range { IsInRange (count (the_labelled network.now).base) c.now }
    requires kept { IsKeptFor (the_labelled network.now) history.now }
    ensures { result ≡ value_left (the_history history.now) (the_constraint c.now) }
{
    let from = moment_done(network, history, c.from);
    let to = moment_done(network, history, c.to);
    c.most + from as i32 - to as i32
}

/// Whether both ends of a constraint are done, not both are the origin, and the constraint, whose value is left so, is met.
fn is_over(history: &History, c: &Constraint, value: i32) -> bool
    requires from { c.now.from.0 < length history.now.done }
    requires to { c.now.to.0 < length history.now.done }
    requires value { value ≡ value_left (the_history history.now) (the_constraint c.now) }
    ensures { result ≡ is_over (the_history history.now) (the_constraint c.now) }
{
    history.done(c.from).is_some()
        && history.done(c.to).is_some()
        && !(c.from.0 == 0 && c.to.0 == 0)
        && value >= 0
}

/// What is left of a constraint; none where what is told contradicts its full label, or where it is over.
pub fn constraint_left(
    network: &Labelled,
    history: &History,
    numbers: &[u16],
    c: &Constraint,
) -> Option<Constraint>
    requires range { IsInRange (count (the_labelled network.now).base) c.now }
    requires kept { IsKeptFor (the_labelled network.now) history.now }
    requires numbers { AreNumbers (the_labelled network.now) (the_history history.now) numbers.now }
    ensures { option_map the_constraint result ≡ constraint_left (the_labelled network.now) (the_history history.now) (the_constraint c.now) }
{
    let value = value_left(network, history, c);
    if !is_possible(network, history, c) || is_over(history, c, value) {
        return None;
    }
    Some(Constraint {
        id: c.id,
        from: end_left(network, history, numbers, c.from),
        to: end_left(network, history, numbers, c.to),
        most: cut(value),
        label: history.label_left(c.label),
    })
}

// Whether what is told contradicts no mark of the full label of a constraint.
fn is_possible(network: &Labelled, history: &History, c: &Constraint) -> bool
    requires from { c.now.from.0 < count (the_labelled network.now).base }
    requires to { c.now.to.0 < count (the_labelled network.now).base }
    ensures { result ≡ allows (the_history history.now) (full_label (the_labelled network.now) (the_constraint c.now)) }
{
    let ends = network.label(c.from).join(network.label(c.to));
    history.allows(completed(network, c.label.join(ends)))
}

// The value, cut to the range of values.
fn cut(value: i32) -> i32
    ensures { result ≡ value_cut value }
{
    value.min(MAX_MOST).max(-MAX_MOST)
}
