// By how much a limit has to give way.
ghost use Rattle.std.specs.Prelude.{ℕ, ◌≡◌, ◌<◌, ◌≤◌, ◌*◌, pos, ◌+ℤ◌, ◌-ℤ◌, ◌≤ℤ◌, ◌<ℤ◌, IfOk};
ghost use Rattle.cstn_net.specs.Limits.{most_deadline};
ghost use Rattle.cstn_net.specs.Networks.{IsValue};
ghost use Rattle.cstn_net.specs.Read.{the_network};
ghost use Rattle.cstn_plan.specs.Asked.{moment_of};
ghost use Rattle.cstn_lift.specs.Read.{the_labelled};
ghost use Rattle.cstn_history.specs.Read.{the_history};
ghost use Rattle.cstn_follow.specs.Raises.{value_among, said_raised, middle_value, least_between};

use crate::executions::Execution;
use cstn_check::{MomentTrial, Span, halve};
use cstn_log::Cap;
use cstn_net::Network;
use std::alloc::{AllocError, Global};

/// The value of the constraint with this id, in ticks; none where no constraint has it.
pub(crate) fn value_of(network: &Network, id: u32) -> Option<i32>
    ensures value { result ≡ value_among id (the_network network.now).constraints }
{
    let Some(place) = network.place_of(id) else {
        return None;
    };
    Some(network.constraints()[place].most)
}

/// The least value, in ticks, from `low` up to `high` with which what has happened can go on, where it can with `high`; none where a log
/// that is tried is full. Found by at most 21 checks of what is left, each of a log that may have `cap` entries. Fails for want of
/// memory alone.
pub(crate) fn least_raise(
    alloc: Global,
    execution: &Execution,
    id: u32,
    low: i32,
    high: i32,
    cap: Cap,
) -> Result<Option<i32>, AllocError>
    requires order { low ≤ℤ high }
    requires low { (pos 0 -ℤ pos most_deadline) ≤ℤ low }
    requires high { high ≤ℤ pos most_deadline }
    ensures { IfOk result (λ o. o ≡ least_between (said_raised (the_labelled execution.now.network) (the_history execution.now.history)
        execution.now.fresh cap.entries id) 21 low high) }
{
    if low < high {
        return least_step(alloc, execution, id, low, high, cap);
    }
    Ok(Some(high))
}

// The same of several values: one try brings 2,000,001 down to as many as there are moments.
fn least_step(
    alloc: Global,
    execution: &Execution,
    id: u32,
    low: i32,
    high: i32,
    cap: Cap,
) -> Result<Option<i32>, AllocError>
    requires order { low <ℤ high }
    requires low { (pos 0 -ℤ pos most_deadline) ≤ℤ low }
    requires high { high ≤ℤ pos most_deadline }
    ensures { IfOk result (λ o. o ≡ least_between (said_raised (the_labelled execution.now.network) (the_history execution.now.history)
        execution.now.fresh cap.entries id) 21 low high) }
{
    let middle = middle_value(low, high);
    let said = execution.said_raised(alloc, id, middle, cap)?;
    match said {
        None => Ok(None),
        Some(true) => least_below(alloc, execution, id, low, middle, cap),
        Some(false) => least_below(alloc, execution, id, next_value(middle), high, cap),
    }
}

// The value half-way, rounded down.
fn middle_value(low: i32, high: i32) -> i32
    requires order { low <ℤ high }
    requires low { (pos 0 -ℤ pos most_deadline) ≤ℤ low }
    requires high { high ≤ℤ pos most_deadline }
    ensures middle { result ≡ middle_value low high }
    ensures value { IsValue result }
    ensures from { low ≤ℤ result }
    ensures before { result <ℤ high }
    ensures below { (result -ℤ low) ≤ℤ pos most_deadline }
    ensures above { (high -ℤ (result +ℤ pos 1)) ≤ℤ pos most_deadline }
{
    value_below(high, (ticks_between(low, high) + 1) / 2)
}

// The value after another.
fn next_value(value: i32) -> i32
    requires low { (pos 0 -ℤ pos most_deadline) ≤ℤ value }
    requires high { value <ℤ pos most_deadline }
    ensures next { result ≡ (value +ℤ pos 1) }
    ensures value { IsValue result }
{
    value + 1
}

// The least value with which what has happened can go on, by at most 20 checks.
fn least_below(
    alloc: Global,
    execution: &Execution,
    id: u32,
    low: i32,
    high: i32,
    cap: Cap,
) -> Result<Option<i32>, AllocError>
    requires order { low ≤ℤ high }
    requires low { (pos 0 -ℤ pos most_deadline) ≤ℤ low }
    requires high { high ≤ℤ pos most_deadline }
    requires short { (high -ℤ low) ≤ℤ pos most_deadline }
    ensures { IfOk result (λ o. o ≡ least_between (said_raised (the_labelled execution.now.network) (the_history execution.now.history)
        execution.now.fresh cap.entries id) 20 low high) }
{
    let span = Span {
        low: 0,
        high: ticks_between(low, high),
    };
    let raising = Raising {
        execution,
        id,
        high,
        cap,
    };
    let found = halve(alloc, &raising, span)?;
    match found {
        Some(ticks) => Ok(Some(value_below(high, ticks))),
        None => Ok(None),
    }
}

// How far a value is below another, in ticks.
fn ticks_between(low: i32, high: i32) -> u32
    requires order { low ≤ℤ high }
    requires low { (pos 0 -ℤ pos most_deadline) ≤ℤ low }
    requires high { high ≤ℤ pos most_deadline }
    ensures ticks { result ≡ moment_of (high -ℤ low) }
    ensures range { result ≤ 2 * most_deadline }
    ensures short { (high -ℤ low) ≤ℤ pos most_deadline → result ≤ most_deadline }
{
    (high - low) as u32
}

// The value that is so much below another.
fn value_below(high: i32, ticks: u32) -> i32
    requires range { ticks ≤ 2 * most_deadline }
    requires low { (pos 0 -ℤ pos most_deadline) ≤ℤ high }
    requires high { high ≤ℤ pos most_deadline }
    ensures value { result ≡ (high -ℤ pos ticks) }
    ensures range { IsValue result }
{
    high - ticks as i32
}

// What a check says of what is left when a constraint has some value, which is told by how far it is below the highest one.
#[derive(Clone, Copy)]
struct Raising<'a> {
    execution: &'a Execution,
    id: u32,
    high: i32,
    cap: Cap,
}

impl<'a> MomentTrial for Raising<'a> {
    ghost may = { λ r. ((pos 0 -ℤ pos most_deadline) ≤ℤ r.high) × (r.high ≤ℤ pos most_deadline) };

    ghost says = { λ r u. said_raised (the_labelled r.execution.now.network) (the_history r.execution.now.history) r.execution.now.fresh r.cap.entries r.id
        (r.high -ℤ pos u) };

    fn says(&self, alloc: Global, moment: u32) -> Result<Option<bool>, AllocError> {
        let most = value_below(self.high, moment);
        self.execution.said_raised(alloc, self.id, most, self.cap)
    }
}
