// Tries wait of the entry whose turn it is with the entries up to it.
ghost use Rattle.std.specs.Prelude.{ℕ, ◌≡◌, ◌+◌, ◌<◌, ◌≤◌, [], ◌∷◌, length, IsTrue, ◌↔◌};
ghost use Rattle.cstn_label.specs.Read.{the_bound};
ghost use Rattle.cstn_net.specs.Networks.{Network as TheNetwork, count};
ghost use Rattle.cstn_net.specs.Read.{the_network};
ghost use Rattle.cstn_log.specs.Entries.{the_entries};
ghost use Rattle.cstn_check.specs.Growth.{step, tried, waits_below};
ghost use Rattle.cstn_check.specs.Growth.Instance.{wait_at};
ghost use Rattle.cstn_check.specs.Tries.{concludes, concludes_with, concludes_upto};
ghost use Rattle.cstn_check.specs.Turns.{IsOpen};
ghost use Rattle.cstn_check.specs.Steps.{IsStepTo, IsCounted};
ghost use Rattle.cstn_check.specs.Waits.{HasBound, Waits, IsAhead, IsNextOnAgenda};

use crate::puts::put;
use crate::sifting::sift;
use crate::steps::{Step, count_is_in_range};
use cstn_label::{Bound, Mark};
use cstn_log::{Log, log_is_well_formed};
use cstn_net::{Network, network_is_well_formed};
use cstn_pool::Full;
use cstn_rules::{Entry, Tries, Why, wait};

// The place of an entry, and its bound.
#[derive(Clone, Copy)]
struct Placed {
    place: u32,
    bound: Bound,
}

// Tries wait of the entry `seen`, as the one at the observer, and the entry `premise`.
fn try_wait(
    net: &Network,
    log: &mut Log,
    seen: Placed,
    premise: Placed,
    tries: &mut Tries,
) -> Result<Step, Full>
    requires ready { IsOpen (the_network net.now) log.old }
    requires seen { seen.place < length log.old.entries }
    requires place { premise.place < length log.old.entries }
    requires node { seen.bound.node.0 < count (the_network net.now) }
    requires seen_bound { HasBound log.old.entries seen.place (the_bound seen.bound) }
    requires bound { HasBound log.old.entries premise.place (the_bound premise.bound) }
    ensures outcome { IsStepTo (the_network net.now) log.old log.new
        (step (the_network net.now) (the_entries log.old.entries) (wait_at seen.place premise.place)) result }
    ensures counted { IsCounted tries.old.count tries.new.count (concludes (the_network net.now) (the_entries log.old.entries) seen.place premise.place) }
    ensures agenda { log.new.agenda ≡ log.old.agenda }
{
    if !waits(net, &seen.bound, &premise.bound) {
        network_is_well_formed(net);
        return Ok(Step::Open);
    }
    try_concluding(net, log, seen, premise, tries)
}

// Tries wait of two entries of which it has a conclusion, if they are live.
fn try_concluding(
    net: &Network,
    log: &mut Log,
    seen: Placed,
    premise: Placed,
    tries: &mut Tries,
) -> Result<Step, Full>
    requires waits { Waits (the_network net.now) (the_bound seen.bound) (the_bound premise.bound) }
    requires ready { IsOpen (the_network net.now) log.old }
    requires seen { seen.place < length log.old.entries }
    requires place { premise.place < length log.old.entries }
    requires node { seen.bound.node.0 < count (the_network net.now) }
    requires seen_bound { HasBound log.old.entries seen.place (the_bound seen.bound) }
    requires bound { HasBound log.old.entries premise.place (the_bound premise.bound) }
    ensures outcome { IsStepTo (the_network net.now) log.old log.new
        (step (the_network net.now) (the_entries log.old.entries) (wait_at seen.place premise.place)) result }
    ensures counted { IsCounted tries.old.count tries.new.count (concludes (the_network net.now) (the_entries log.old.entries) seen.place premise.place) }
    ensures agenda { log.new.agenda ≡ log.old.agenda }
{
    network_is_well_formed(net);
    count_is_in_range(tries);
    if !log.live(seen.place) {
        return Ok(Step::Open);
    }
    if !log.live(premise.place) {
        return Ok(Step::Open);
    }
    let mut counted = *tries;
    let Some(bound) = wait(net, &seen.bound, &premise.bound, &mut counted) else {
        return Ok(Step::Open);
    };
    *tries = counted;
    let why = Why::Wait {
        seen: seen.place,
        premise: premise.place,
    };
    put(net, log, Entry { bound, why })
}

// Whether the first bound is at the observer of a proposition that the second marks.
fn waits(net: &Network, seen: &Bound, b: &Bound) -> bool
    requires { seen.now.node.0 < count (the_network net.now) }
    ensures waits { IsTrue result ↔ Waits (the_network net.now) (the_bound seen.now) (the_bound b.now) }
{
    match net.observes(seen.node) {
        None => false,
        Some(p) => b.label.mark(p) != Mark::Absent,
    }
}

// Tries wait of the entry at a place and the entry whose turn it is, either way round.
fn try_both(
    net: &Network,
    log: &mut Log,
    i: u32,
    own: Placed,
    tries: &mut Tries,
) -> Result<Step, Full>
    requires ready { IsOpen (the_network net.now) log.old }
    requires first { i < length log.old.entries }
    requires place { own.place < length log.old.entries }
    requires bound { HasBound log.old.entries own.place (the_bound own.bound) }
    ensures outcome { IsStepTo (the_network net.now) log.old log.new
        (tried (the_network net.now) (the_entries log.old.entries) (wait_at i own.place ∷ (wait_at own.place i ∷ []))) result }
    ensures counted { IsCounted tries.old.count tries.new.count (concludes_with (the_network net.now) (the_entries log.old.entries) own.place i) }
    ensures agenda { log.new.agenda ≡ log.old.agenda }
{
    network_is_well_formed(net);
    let other = Placed {
        place: i,
        bound: log.bound(i),
    };
    match try_wait(net, log, other, own, tries)? {
        Step::Refuted => Ok(Step::Refuted),
        Step::Open => try_wait(net, log, own, other, tries),
    }
}

// Tries wait of the entry at the place j with each entry up to it, in both orders, unless it adds nothing.
pub fn try_waits(net: &Network, log: &mut Log, j: u32, tries: &mut Tries) -> Result<Step, Full>
    requires ready { IsOpen (the_network net.now) log.old }
    requires place { j < length log.old.entries }
    ensures outcome { IsStepTo (the_network net.now) log.old log.new
        (tried (the_network net.now) (the_entries log.old.entries) (waits_below (j + 1) j)) result }
    ensures counted { IsCounted tries.old.count tries.new.count (concludes_upto (the_network net.now) (the_entries log.old.entries) j) }
{
    network_is_well_formed(net);
    log_is_well_formed(log);
    if !log.live(j) {
        return Ok(Step::Open);
    }
    let own = Placed {
        place: j,
        bound: log.bound(j),
    };
    sift(net, log, j);
    let mut i = next_place(log, j);
    while i <= j {
        match try_both(net, log, i, own, tries)? {
            Step::Refuted => return Ok(Step::Refuted),
            Step::Open => i = next_place(log, j),
        }
    }
    Ok(Step::Open)
}

// Takes the next place at which to try wait with the entry at `j` off the agenda. It is `j + 1` where none is left, or where that
// entry has died.
fn next_place(log: &mut Log, j: u32) -> u32
    requires place { j < length log.old.entries }
    ensures next { (net : TheNetwork) (from : ℕ) → from ≤ j + 1 → IsAhead net log.old j from → IsNextOnAgenda net log.old log.new j from result }
{
    log_is_well_formed(log);
    if !log.live(j) {
        log.clear_agenda();
        return j + 1;
    }
    match log.take_next() {
        Some(i) => i,
        None => j + 1,
    }
}
