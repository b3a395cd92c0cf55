// Each log and network is dropped by a call, since a drop at the end of a function is proved as a part of it.
ghost use Rattle.std.specs.Prelude.{◌≡◌, ◌<◌, ◌≤◌, ◌+◌, length};
ghost use Rattle.std.specs.List.{Contains};
ghost use Rattle.cstn_net.specs.Networks.{count};
ghost use Rattle.cstn_net.specs.Read.{the_network};

use crate::networks::{bound, by_chain, by_wait, crossed, p, q, twice_late_branch};
use crate::plain::is_bound_of;
use cstn_label::{Bound, Label, Mark};
use cstn_log::{Cap, Log};
use cstn_net::{Constraint, Network};
use cstn_pool::SlotId;
use cstn_rules::{Entry, Tries, Why, chain, wait};
use std::alloc::Global;
use std::process::Abort;

fn started(rt: &impl Abort, alloc: Global, net: &Network, entries: u32) -> Log
    ensures nodes { result.nodes ≡ count (the_network net.now) }
    ensures births { result.births ≤ 1024 }
{
    let count = net.count();
    prove!(count <= 1024);
    let cap = Cap::new(entries).expect(rt, "a cap");
    Log::start(alloc, net, cap).expect(rt, "memory")
}

fn constraint_at(net: &Network, place: usize) -> Constraint
    requires { place < length net.now.constraints }
    ensures { Contains net.now.constraints result }
{
    net.constraints()[place]
}

// Pushes what chain gives from the constraint at a place and the entry at another, and tells whether it did.
fn push_chain(net: &Network, log: &mut Log, place: usize, premise: u32) -> bool
    requires nodes { log.old.nodes ≡ count (the_network net.now) }
    requires births { log.old.births < 2000 }
    ensures nodes { log.new.nodes ≡ log.old.nodes }
    ensures births { log.new.births ≤ log.old.births + 1 }
{
    if place >= net.constraints().len() || premise >= log.len() {
        return false;
    }
    let c = constraint_at(net, place);
    let b = log.entry(premise).bound;
    if !is_bound_of(net, &b) {
        return false;
    }
    let mut tries = Tries { count: 0 };
    let Some(bound) = chain(net, &c, &b, &mut tries) else {
        return false;
    };
    let why = Why::Chain {
        constraint: c.id,
        premise,
    };
    !log.covered(&bound) && log.push(net, Entry { bound, why }).is_ok()
}

// Pushes what wait gives from the entries at two places, and tells whether it did.
fn push_wait(net: &Network, log: &mut Log, seen: u32, premise: u32) -> bool
    requires nodes { log.old.nodes ≡ count (the_network net.now) }
    requires births { log.old.births < 2000 }
    ensures nodes { log.new.nodes ≡ log.old.nodes }
    ensures births { log.new.births ≤ log.old.births + 1 }
{
    if seen >= log.len() || premise >= log.len() {
        return false;
    }
    let s = log.entry(seen).bound;
    let b = log.entry(premise).bound;
    if !is_bound_of(net, &s) || !is_bound_of(net, &b) {
        return false;
    }
    let mut tries = Tries { count: 0 };
    let Some(bound) = wait(net, &s, &b, &mut tries) else {
        return false;
    };
    let why = Why::Wait { seen, premise };
    !log.covered(&bound) && log.push(net, Entry { bound, why }).is_ok()
}

// Pushes what a rule gives from the entries that it names, and tells whether it did.
fn push(net: &Network, log: &mut Log, why: Why) -> bool
    requires nodes { log.old.nodes ≡ count (the_network net.now) }
    requires births { log.old.births < 2000 }
    ensures nodes { log.new.nodes ≡ log.old.nodes }
    ensures births { log.new.births ≤ log.old.births + 1 }
{
    match why {
        Why::Base => false,
        Why::Chain {
            constraint,
            premise,
        } => push_chain(net, log, constraint as usize, premise),
        Why::Wait { seen, premise } => push_wait(net, log, seen, premise),
    }
}

// Pushes what a rule gives.
fn pushes(rt: &impl Abort, net: &Network, log: &mut Log, why: Why)
    requires nodes { log.old.nodes ≡ count (the_network net.now) }
    requires births { log.old.births < 2000 }
    ensures nodes { log.new.nodes ≡ log.old.nodes }
    ensures births { log.new.births ≤ log.old.births + 1 }
{
    assert!(rt; push(net, log, why), "push {why:?}");
}

// Whether the entries at these places are live, and no others.
fn are_live(log: &Log, places: &[u32]) -> bool {
    for k in 0..log.len() {
        if log.live(k) != places.contains(&k) {
            return false;
        }
    }
    true
}

// The last entry has this bound, and the entries at these places are live, and no others.
fn is_at(rt: &impl Abort, log: &Log, last: Bound, live: &[u32]) {
    let len = log.len();
    assert!(rt;
        len > 0 && log.entry(len - 1).bound == last,
        "the last of {len}"
    );
    assert!(rt; are_live(log, live), "the live of {len}");
}

// Pushes what a rule gives: this bound, after which the entries at these places are live.
fn grows(rt: &impl Abort, net: &Network, log: &mut Log, why: Why, gives: Bound, live: &[u32])
    requires nodes { log.old.nodes ≡ count (the_network net.now) }
    requires births { log.old.births < 2000 }
    ensures nodes { log.new.nodes ≡ log.old.nodes }
    ensures births { log.new.births ≤ log.old.births + 1 }
{
    pushes(rt, net, log, why);
    is_at(rt, log, gives, live);
}

#[test]
fn the_log_of_the_crossed_observers(rt: HostRuntime) {
    let net = crossed(&rt, rt.alloc());
    let mut log = started(&rt, rt.alloc(), &net, 8);
    let plain = Label::empty();
    let late_p = bound(1, 5, q(Mark::Yes));
    let late_q = bound(2, 5, p(Mark::Yes));
    is_at(&rt, &log, bound(2, 0, plain), &[0, 1, 2]);
    grows(&rt, &net, &mut log, by_chain(0, 0), late_p, &[0, 1, 2, 3]);
    grows(
        &rt,
        &net,
        &mut log,
        by_chain(1, 0),
        late_q,
        &[0, 1, 2, 3, 4],
    );
    grows(
        &rt,
        &net,
        &mut log,
        by_wait(2, 3),
        bound(1, 1, plain),
        &[0, 2, 3, 4, 5],
    );
    grows(
        &rt,
        &net,
        &mut log,
        by_wait(3, 4),
        bound(2, 5, plain),
        &[0, 3, 5, 6],
    );
    grows(
        &rt,
        &net,
        &mut log,
        by_wait(6, 3),
        bound(1, 5, plain),
        &[0, 6, 7],
    );
    drop(log);
    drop(net);
}

fn has_len(rt: &impl Abort, log: &Log, len: u32) {
    assert!(rt; log.len() == len, "{len} entries");
}

// A log of this cap starts with `bases` entries, and has `len` after two more were pushed, of which the second has no room.
fn fills(rt: &impl Abort, alloc: Global, net: &Network, cap: u32, bases: u32, len: u32) {
    let mut log = started(rt, alloc, net, cap);
    has_len(rt, &log, bases);
    assert!(rt;
        push(net, &mut log, by_chain(0, 0)) == (bases < len),
        "cap {cap}"
    );
    assert!(rt; !push(net, &mut log, by_chain(1, 0)), "cap {cap}");
    has_len(rt, &log, len);
    log.restart(net);
    has_len(rt, &log, bases);
    drop(log);
}

#[test]
fn a_log_that_is_full_or_too_small(rt: HostRuntime) {
    let net = crossed(&rt, rt.alloc());
    fills(&rt, rt.alloc(), &net, 2, 0, 0);
    fills(&rt, rt.alloc(), &net, 3, 3, 3);
    fills(&rt, rt.alloc(), &net, 4, 3, 4);
    drop(net);
}

// The log of the branch up to what refutes it: the bases, X at 10, P at 2 and at 3, X at 4, and Z at 1.
fn refuted(rt: &impl Abort, alloc: Global, net: &Network) -> Log
    ensures nodes { result.nodes ≡ count (the_network net.now) }
    ensures births { result.births ≤ 1029 }
{
    let mut log = started(rt, alloc, net, 8);
    pushes(rt, net, &mut log, by_chain(0, 0));
    pushes(rt, net, &mut log, by_chain(2, 0));
    pushes(rt, net, &mut log, by_chain(3, 0));
    pushes(rt, net, &mut log, by_wait(5, 3));
    pushes(rt, net, &mut log, by_chain(1, 6));
    log
}

// Takes out what a constraint gave, which is this many entries.
fn loses(rt: &impl Abort, log: &mut Log, constraint: u32, entries: u32)
    requires births { log.old.births < 2000 }
    ensures nodes { log.new.nodes ≡ log.old.nodes }
    ensures births { log.new.births ≡ log.old.births }
{
    assert!(rt; log.retract(constraint) == entries, "without {constraint}");
}

fn slot_at(rt: &impl Abort, log: &Log, k: u32) -> SlotId {
    assert!(rt; k < log.len());
    log.slot(k)
}

// The entry with this id is at this place, or nowhere.
fn is_placed(rt: &impl Abort, log: &Log, id: SlotId, place: Option<u32>) {
    assert!(rt; log.place(id) == place, "{id:?}");
    assert!(rt; log.holds(id) == place.is_some(), "{id:?}");
}

fn has_part(rt: &impl Abort, alloc: Global, log: &Log, steps: usize) {
    assert!(rt; log.len() > 0);
    assert!(rt; log.part(alloc).expect(rt, "memory").len() == steps);
}

#[test]
fn what_is_left_without_a_constraint(rt: HostRuntime) {
    let net = twice_late_branch(&rt, rt.alloc());
    let mut log = refuted(&rt, rt.alloc(), &net);
    has_part(&rt, rt.alloc(), &log, 5);
    let (staying, going) = (slot_at(&rt, &log, 4), slot_at(&rt, &log, 5));
    loses(&rt, &mut log, 9, 0);
    is_placed(&rt, &log, going, Some(5));
    loses(&rt, &mut log, 3, 3);
    is_placed(&rt, &log, staying, Some(4));
    is_placed(&rt, &log, going, None);
    is_at(&rt, &log, bound(1, 2, Label::empty()), &[0, 2, 3, 4]);
    log.restart(&net);
    has_len(&rt, &log, 3);
    drop(log);
    drop(net);
}

// There are seven entries, and these rules gave the last two.
fn ends_by(rt: &impl Abort, log: &Log, before: Why, last: Why) {
    assert!(rt; log.len() == 7);
    assert!(rt; log.entry(5).why == before && log.entry(6).why == last);
}

#[test]
fn premises_keep_to_their_entries(rt: HostRuntime) {
    let net = twice_late_branch(&rt, rt.alloc());
    let mut log = refuted(&rt, rt.alloc(), &net);
    let (going, staying) = (slot_at(&rt, &log, 4), slot_at(&rt, &log, 6));
    loses(&rt, &mut log, 2, 1);
    is_placed(&rt, &log, going, None);
    is_placed(&rt, &log, staying, Some(5));
    ends_by(&rt, &log, by_wait(4, 3), by_chain(1, 5));
    loses(&rt, &mut log, 1, 1);
    pushes(&rt, &net, &mut log, by_chain(1, 5));
    ends_by(&rt, &log, by_wait(4, 3), by_chain(1, 5));
    drop(log);
    drop(net);
}
