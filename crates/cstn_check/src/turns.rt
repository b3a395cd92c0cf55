ghost use Rattle.std.specs.Prelude.{ℕ, ◌≡◌, ◌+◌, ◌*◌, ◌<◌, ◌≤◌, length, map, slice_index_or, cond};
ghost use Rattle.std.specs.List.{Contains};
ghost use Rattle.cstn_net.specs.Networks.{IsWellFormed, count};
ghost use Rattle.cstn_net.specs.Links.{ends};
ghost use Rattle.cstn_net.specs.Read.{the_network, the_constraint};
ghost use Rattle.cstn_log.specs.Entries.{the_entries};
ghost use Rattle.cstn_check.specs.Growth.{step, tried, waits_below, turn, chains_at};
ghost use Rattle.cstn_check.specs.Growth.Instance.{chain_at};
ghost use Rattle.cstn_check.specs.Tries.{concludes_upto};
ghost use Rattle.cstn_check.specs.Turns.{IsOpen};
ghost use Rattle.cstn_check.specs.Steps.{IsStepTo, IsCounted};
ghost use Rattle.cstn_check.specs.Spent.{AreSpent, is_fresh, fresh_count};

use crate::puts::put;
use crate::steps::{Step, count_is_in_range};
use crate::waits::try_waits;
use cstn_label::NodeId;
use cstn_log::Log;
use cstn_net::{Constraint, Network, network_is_well_formed};
use cstn_pool::Full;
use cstn_rules::{Entry, Tries, Why, chain};

// Tries chain of a constraint with the entry at a place.
fn try_chain(
    net: &Network,
    log: &mut Log,
    c: &Constraint,
    j: u32,
    tries: &mut Tries,
) -> Result<Step, Full>
    requires ready { IsOpen (the_network net.now) log.old }
    requires constraint { Contains net.now.constraints c.now }
    requires place { j < length log.old.entries }
    ensures outcome { IsStepTo (the_network net.now) log.old log.new
        (step (the_network net.now) (the_entries log.old.entries) (chain_at (the_constraint c.now) j)) result }
    ensures counted { IsCounted tries.old.count tries.new.count 1 }
{
    constraint_is_of_network(net, c);
    count_is_in_range(tries);
    if !log.live(j) {
        return Ok(Step::Open);
    }
    let premise = log.bound(j);
    let Some(bound) = chain(net, c, &premise, tries) else {
        return Ok(Step::Open);
    };
    let why = Why::Chain {
        constraint: c.id,
        premise: j,
    };
    put(net, log, Entry { bound, why })
}

// Does nothing. A constraint of a network in memory stands for one of the network that the definitions speak of.
fn constraint_is_of_network(net: &Network, c: &Constraint)
    requires { Contains net.now.constraints c.now }
    ensures network { IsWellFormed (the_network net.now) }
    ensures constraint { Contains (the_network net.now).constraints (the_constraint c.now) }
{
    let _ = net.constraints();
}

/// Whether the id is one of the fresh ones.
pub fn is_fresh(fresh: &[u32], id: u32) -> bool
    ensures { result ≡ is_fresh fresh.now id }
{
    fresh.iter().any(|known| *known == id)
}

// Tries chain of a constraint with the entry at the place j. Where j is below `old` and the constraint isn't fresh, that chain
// is spent, and it isn't tried.
fn try_fresh(
    net: &Network,
    log: &mut Log,
    fresh: &[u32],
    old: u32,
    c: &Constraint,
    j: u32,
    tries: &mut Tries,
) -> Result<Step, Full>
    requires ready { IsOpen (the_network net.now) log.old }
    requires spent { AreSpent (the_network net.now) (the_entries log.old.entries) fresh.now old }
    requires constraint { Contains net.now.constraints c.now }
    requires place { j < length log.old.entries }
    ensures outcome { IsStepTo (the_network net.now) log.old log.new
        (step (the_network net.now) (the_entries log.old.entries) (chain_at (the_constraint c.now) j)) result }
    ensures counted { IsCounted tries.old.count tries.new.count 1 }
    ensures most_fresh { j < old → tries.new.count ≤ tries.old.count + cond (is_fresh fresh.now c.now.id) 1 0 }
{
    if old <= j {
        return try_chain(net, log, c, j, tries);
    }
    if is_fresh(fresh, c.id) {
        return try_chain(net, log, c, j, tries);
    }
    constraint_is_of_network(net, c);
    Ok(Step::Open)
}

// Tries chain of each constraint that ends at the time-point of the entry at the place j with that entry, unless it is spent.
// Chain of other constraints with it has no conclusion.
fn try_chains(
    net: &Network,
    log: &mut Log,
    fresh: &[u32],
    old: u32,
    j: u32,
    tries: &mut Tries,
) -> Result<Step, Full>
    requires ready { IsOpen (the_network net.now) log.old }
    requires front { old ≤ length log.old.entries }
    requires spent { AreSpent (the_network net.now) (the_entries log.old.entries) fresh.now old }
    requires place { j < length log.old.entries }
    ensures outcome { IsStepTo (the_network net.now) log.old log.new
        (tried (the_network net.now) (the_entries log.old.entries) (chains_at (map the_constraint net.now.constraints) j)) result }
    ensures counted { IsCounted tries.old.count tries.new.count (length net.now.constraints) }
    ensures most_fresh { j < old → tries.new.count ≤ tries.old.count + fresh_count fresh.now (the_network net.now).constraints }
{
    network_is_well_formed(net);
    let x = log.bound(j).node;
    let mut place = first_ending(net, x);
    while place < constraint_count(net) {
        match try_fresh(net, log, fresh, old, constraint_at(net, place), j, tries)? {
            Step::Refuted => return Ok(Step::Refuted),
            Step::Open => place = next_ending(net, place),
        }
    }
    Ok(Step::Open)
}

fn constraint_count(net: &Network) -> usize
    ensures { result ≡ length net.now.constraints }
{
    net.constraints().len()
}

fn constraint_at(net: &Network, place: usize) -> &Constraint
    requires { place < length net.now.constraints }
    ensures at { result.now ≡ slice_index_or net.now.constraints place result.now }
    ensures has { Contains net.now.constraints result.now }
{
    &net.constraints()[place]
}

// The place of the first constraint that ends at the time-point, or the number of constraints where none does.
fn first_ending(net: &Network, x: NodeId) -> usize
    requires { x.0 < count (the_network net.now) }
    ensures upto { result ≤ length net.now.constraints }
    ensures here { result < length net.now.constraints → slice_index_or (ends net.now.constraints) result 0 ≡ x.0 }
    ensures none { (k : ℕ) → k < result → k < length net.now.constraints → slice_index_or (ends net.now.constraints) k 0 ≡ x.0 → ⊥ }
{
    match net.first_to(x) {
        None => net.constraints().len(),
        Some(place) => place,
    }
}

// The place of the next constraint that ends where the one at this place does, or the number of constraints where none does.
fn next_ending(net: &Network, at: usize) -> usize
    requires { at < length net.now.constraints }
    ensures upto { (at + 1 ≤ result) × (result ≤ length net.now.constraints) }
    ensures here { result < length net.now.constraints → slice_index_or (ends net.now.constraints) result 0 ≡ slice_index_or (ends net.now.constraints) at 0 }
    ensures none { (k : ℕ) → at + 1 ≤ k → k < result → k < length net.now.constraints
        → slice_index_or (ends net.now.constraints) k 0 ≡ slice_index_or (ends net.now.constraints) at 0 → ⊥ }
{
    match net.next_to(at) {
        None => net.constraints().len(),
        Some(place) => place,
    }
}

// Tries these waits unless j is below `old`, where they are spent.
fn try_new_waits(
    net: &Network,
    log: &mut Log,
    fresh: &[u32],
    old: u32,
    j: u32,
    tries: &mut Tries,
) -> Result<Step, Full>
    requires ready { IsOpen (the_network net.now) log.old }
    requires spent { AreSpent (the_network net.now) (the_entries log.old.entries) fresh.now old }
    requires place { j < length log.old.entries }
    ensures outcome { IsStepTo (the_network net.now) log.old log.new
        (tried (the_network net.now) (the_entries log.old.entries) (waits_below (j + 1) j)) result }
    ensures counted { IsCounted tries.old.count tries.new.count (concludes_upto (the_network net.now) (the_entries log.old.entries) j) }
    ensures most_fresh { j < old → tries.new.count ≡ tries.old.count }
{
    if j < old {
        return Ok(Step::Open);
    }
    try_waits(net, log, j, tries)
}

// Takes the turn of the entry at the place j. On the first `old` entries all rules but chains of fresh constraints are spent,
// and no spent rule on them is tried.
pub(crate) fn take_turn(
    net: &Network,
    log: &mut Log,
    fresh: &[u32],
    old: u32,
    j: u32,
    tries: &mut Tries,
) -> Result<Step, Full>
    requires ready { IsOpen (the_network net.now) log.old }
    requires front { old ≤ length log.old.entries }
    requires spent { AreSpent (the_network net.now) (the_entries log.old.entries) fresh.now old }
    requires place { j < length log.old.entries }
    ensures outcome { IsStepTo (the_network net.now) log.old log.new
        (tried (the_network net.now) (the_entries log.old.entries) (turn (the_network net.now) j)) result }
    ensures counted { IsCounted tries.old.count tries.new.count (length net.now.constraints
        + concludes_upto (the_network net.now) (the_entries log.old.entries) j) }
    ensures most_fresh { j < old → tries.new.count ≤ tries.old.count + fresh_count fresh.now (the_network net.now).constraints }
{
    network_is_well_formed(net);
    match try_chains(net, log, fresh, old, j, tries)? {
        Step::Refuted => Ok(Step::Refuted),
        Step::Open => try_new_waits(net, log, fresh, old, j, tries),
    }
}
