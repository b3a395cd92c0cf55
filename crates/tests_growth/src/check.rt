// Each check is dropped by a call, since a drop at the end of a function is proved as a part of it.
use crate::networks::{
    awaited, base, chained, crossed, generated, late_branch, p, pair, q, unknown_mark,
};
use crate::plain;
use cstn_check::{Check, Verdict};
use cstn_label::{Label, Mark};
use cstn_log::{Cap, Log};
use cstn_net::Network;
use cstn_rules::Entry;
use std::alloc::Global;
use std::process::Abort;

// A check of the network, whose log may have this many entries.
fn started(rt: &impl Abort, alloc: Global, net: Network, entries: u32) -> Check {
    let cap = Cap::new(entries).expect(rt, "a cap");
    Check::start(alloc, net, cap).expect(rt, "memory")
}

// Running the check, once more too, gives this verdict.
fn runs(rt: &impl Abort, check: &mut Check, verdict: Verdict) {
    assert!(rt; check.run() == verdict, "run: {verdict:?}");
    assert!(rt; check.run() == verdict, "run again: {verdict:?}");
}

// A full check of a network with this cap keeps this many entries, before it runs and after.
fn keeps(rt: &impl Abort, alloc: Global, net: Network, cap: u32, bases: u32, entries: u32) {
    let mut check = started(rt, alloc, net, cap);
    assert!(rt; check.kept().len() == bases, "bases at cap {cap}");
    runs(rt, &mut check, Verdict::Full);
    assert!(rt; check.kept().len() == entries, "entries at cap {cap}");
    drop(check);
}

#[test]
fn keeps_what_the_cap_has_room_for(rt: HostRuntime) {
    let alloc = rt.alloc();
    keeps(&rt, alloc, pair(&rt, alloc, 5), 1, 0, 0);
    keeps(&rt, alloc, pair(&rt, alloc, 5), 2, 2, 2);
    keeps(&rt, alloc, unknown_mark(&rt, alloc), 13, 4, 13);
}

const NO: Verdict = Verdict::No { load: 14 };

#[test]
fn tries_few_rules(rt: HostRuntime) {
    let alloc = rt.alloc();
    let mut check = started(&rt, alloc, unknown_mark(&rt, alloc), 14);
    assert!(rt; check.tries() == 0 && check.run() == NO);
    assert!(rt; check.tries() == 14);
    assert!(rt; check.run() == NO && check.tries() == 14);
    drop(check);
}

// The log has these entries and no others.
fn are_logged(log: &Log, entries: &[Entry]) -> bool {
    if log.len() as usize != entries.len() {
        return false;
    }
    for k in 0..log.len() {
        if log.entry(k) != entries[k as usize] {
            return false;
        }
    }
    true
}

#[test]
fn keeps_the_log_of_crossed_observers(rt: HostRuntime) {
    let alloc = rt.alloc();
    let plain = Label::empty();
    let entries = [
        base(0),
        base(1),
        base(2),
        chained(0, 0, 1, 5, q(Mark::Yes)),
        chained(1, 0, 2, 5, p(Mark::Yes)),
        awaited(2, 3, 1, 1, plain),
        awaited(3, 4, 2, 5, plain),
        awaited(6, 3, 1, 5, plain),
    ];
    let mut check = started(&rt, alloc, crossed(&rt, alloc), 8);
    runs(&rt, &mut check, Verdict::Yes { load: 8 });
    assert!(rt; are_logged(check.kept(), &entries));
    drop(check);
}

// The log of the network is the list that growth by its definition gives.
fn grows_plainly(rt: &impl Abort, alloc: Global, net: Network, load: u32) {
    let mut check = started(rt, alloc, net, load);
    assert!(rt; check.run() != Verdict::Full, "load {load}");
    let list = plain::grown(rt, alloc, check.network(), load);
    assert!(rt; list.len() == load as usize, "load {load}");
    assert!(rt; are_logged(check.kept(), &list), "load {load}");
    drop(list);
    drop(check);
}

#[test]
fn grows_as_the_definition_does(rt: HostRuntime) {
    let alloc = rt.alloc();
    grows_plainly(&rt, alloc, crossed(&rt, alloc), 8);
    grows_plainly(&rt, alloc, late_branch(&rt, alloc, 3), 7);
    grows_plainly(&rt, alloc, unknown_mark(&rt, alloc), 14);
    grows_plainly(&rt, alloc, generated(&rt, alloc), 31);
}

#[test]
fn refutes_by_the_part_of_the_log(rt: HostRuntime) {
    let alloc = rt.alloc();
    let steps = [
        base(0),
        chained(0, 0, 2, 10, p(Mark::Yes)),
        chained(2, 0, 1, 3, Label::empty()),
        awaited(2, 1, 2, 4, Label::empty()),
        chained(1, 3, 0, 1, p(Mark::No)),
    ];
    let mut check = started(&rt, alloc, late_branch(&rt, alloc, 3), 7);
    let Verdict::No { .. } = check.run() else {
        panic!(rt; "a no");
    };
    let refutation = check.refutation(alloc).expect(&rt, "memory");
    assert!(rt; refutation.load() == 7 && refutation.steps() == steps.as_slice());
    drop(refutation);
    drop(check);
}
