// Growth by its definition, without an index: the turn of an entry tries every constraint and then every entry up to it.
ghost use Rattle.std.specs.Prelude.{IfSome, IsTrue};
ghost use Rattle.cstn_label.specs.Read.{the_bound};
ghost use Rattle.cstn_net.specs.Read.{the_network};
ghost use Rattle.cstn_rules.specs.Rules.{IsBoundOf};

use crate::networks::{base, by_chain, by_wait};
use cstn_label::Bound;
use cstn_net::Network;
use cstn_rules::{Entry, Tries, chain, refutes, wait};
use std::alloc::Global;
use std::process::Abort;

/// The list after this many turns, or after the entry that refutes the network.
pub(super) fn grown(rt: &impl Abort, alloc: Global, net: &Network, turns: u32) -> Vec<Entry> {
    let mut list = bases(rt, alloc, net.count());
    for j in 0..turns {
        if turn(rt, net, &mut list, j) {
            return list;
        }
    }
    list
}

fn bases(rt: &impl Abort, alloc: Global, count: u16) -> Vec<Entry> {
    let mut list = Vec::new(alloc);
    for node in 0..count {
        list.push(base(node)).expect(rt, "memory");
    }
    list
}

// Takes the turn j, up to the first entry that refutes the network, and says whether there was one. The functions below say the
// same after their rules.
fn turn(rt: &impl Abort, net: &Network, list: &mut Vec<Entry>, j: u32) -> bool {
    take_chains(rt, net, list, j) || take_waits(rt, net, list, j)
}

fn take_chains(rt: &impl Abort, net: &Network, list: &mut Vec<Entry>, j: u32) -> bool {
    for place in 0..net.constraints().len() {
        if take_chain(rt, net, list, place, j) {
            return true;
        }
    }
    false
}

fn take_waits(rt: &impl Abort, net: &Network, list: &mut Vec<Entry>, j: u32) -> bool {
    for i in 0..=j {
        if take_wait(rt, net, list, i, j) || take_wait(rt, net, list, j, i) {
            return true;
        }
    }
    false
}

fn take_chain(rt: &impl Abort, net: &Network, list: &mut Vec<Entry>, place: usize, j: u32) -> bool {
    let Some(c) = net.constraints().get(place) else {
        return false;
    };
    let Some(b) = live(net, list, j) else {
        return false;
    };
    let Some(bound) = chain(net, c, &b, &mut Tries { count: 0 }) else {
        return false;
    };
    let why = by_chain(c.id, j);
    put(rt, net, list, Entry { bound, why })
}

fn take_wait(rt: &impl Abort, net: &Network, list: &mut Vec<Entry>, i: u32, j: u32) -> bool {
    let Some(seen) = live(net, list, i) else {
        return false;
    };
    let Some(b) = live(net, list, j) else {
        return false;
    };
    let Some(bound) = wait(net, &seen, &b, &mut Tries { count: 0 }) else {
        return false;
    };
    let why = by_wait(i, j);
    put(rt, net, list, Entry { bound, why })
}

fn put(rt: &impl Abort, net: &Network, list: &mut Vec<Entry>, e: Entry) -> bool {
    if is_covered(list, &e.bound) {
        return false;
    }
    list.push(e).expect(rt, "memory");
    e.bound.node.0 < net.count() && refutes(net, &e.bound)
}

fn is_covered(list: &[Entry], b: &Bound) -> bool {
    list.iter().any(|e| e.bound.dominates(b))
}

// The bound of the entry at a place, where no later one dominates it.
fn live(net: &Network, list: &[Entry], k: u32) -> Option<Bound>
    ensures { IfSome result (λ b. IsBoundOf (the_network net.now) (the_bound b)) }
{
    let place = k as usize;
    if place >= list.len() {
        return None;
    }
    let bound = list[place].bound;
    if is_covered(&list[place + 1..], &bound) || !is_bound_of(net, &bound) {
        return None;
    }
    Some(bound)
}

/// Whether the bound is at a time-point of the network, with a least value from 0 to the limit + 1.
pub(super) fn is_bound_of(net: &Network, b: &Bound) -> bool
    ensures { IsTrue result → IsBoundOf (the_network net.now) (the_bound b.now) }
{
    b.node.0 < net.count() && 0 <= b.least && b.least <= net.limit(b.node) + 1
}
