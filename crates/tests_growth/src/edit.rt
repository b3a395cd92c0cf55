// Each session is dropped by a call, since a drop at the end of a function is proved as a part of it.
use crate::networks::{branch, late_branch};
use cstn_change::EditError;
use cstn_check::Verdict;
use cstn_edit::{Outcome, Session};
use cstn_label::{Label, NodeId};
use cstn_log::Cap;
use cstn_net::Network;
use std::alloc::Global;
use std::process::Abort;

fn started(rt: &impl Abort, alloc: Global, net: Network, entries: u32, room: u32) -> Session {
    let cap = Cap::new(entries).expect(rt, "a cap");
    assert!(rt; room <= 16_384 && net.constraints().len() <= room as usize);
    assert!(rt; net.constraints().iter().all(|c| c.id < 2_147_483_648));
    Session::start(alloc, net, cap, room).expect(rt, "memory")
}

// A session on the network `late_branch` with P at 2 or later.
fn late(rt: &impl Abort, alloc: Global) -> Session {
    started(rt, alloc, late_branch(rt, alloc, 2), 100, 10)
}

// Adding a constraint between these time-points gives this answer.
fn adds(
    rt: &impl Abort,
    session: &mut Session,
    ends: (u16, u16),
    most: i32,
    label: Label,
    answer: Result<u32, EditError>,
) {
    let (from, to) = ends;
    let count = session.network().count();
    assert!(rt; from < count && to < count);
    assert!(rt;
        session.add(NodeId(from), NodeId(to), most, label) == answer,
        "add {from} {to} {most}"
    );
}

fn judges(rt: &impl Abort, session: &mut Session, outcome: Outcome) {
    assert!(rt; session.verdict() == outcome, "{outcome:?}");
}

fn keeps(rt: &impl Abort, session: &Session, entries: u32) {
    assert!(rt; session.kept().len() == entries, "{entries} entries");
}

fn outcome(afresh: bool, verdict: Verdict) -> Outcome {
    Outcome { afresh, verdict }
}

fn yes(load: u32) -> Outcome {
    outcome(false, Verdict::Yes { load })
}

fn no(load: u32) -> Outcome {
    outcome(false, Verdict::No { load })
}

#[test]
fn nothing_follows_a_kept_refutation(rt: HostRuntime) {
    let alloc = rt.alloc();
    let mut session = late(&rt, alloc);
    adds(&rt, &mut session, (1, 0), -3, Label::empty(), Ok(3));
    judges(&rt, &mut session, no(8));
    adds(&rt, &mut session, (2, 0), -9, Label::empty(), Ok(4));
    judges(&rt, &mut session, no(8));
    keeps(&rt, &session, 8);
    let outcome = session.verdict();
    let Verdict::No { load: _ } = outcome.verdict else {
        panic!(rt; "a no");
    };
    let refutation = session.refutation(alloc).expect(&rt, "memory");
    assert!(rt; refutation.load() == 8 && refutation.steps().len() == 5);
    drop(refutation);
    drop(session);
}

// A session on `branch` with this cap and room: its first outcome, the answer to an added constraint, the outcome after that,
// and the length of the kept list then.
fn grows(
    rt: &impl Abort,
    alloc: Global,
    (cap, room): (u32, u32),
    first: Outcome,
    added: Result<u32, EditError>,
    second: Outcome,
    kept: u32,
) {
    let mut session = started(rt, alloc, branch(rt, alloc), cap, room);
    judges(rt, &mut session, first);
    adds(rt, &mut session, (1, 0), -2, Label::empty(), added);
    judges(rt, &mut session, second);
    keeps(rt, &session, kept);
    drop(session);
}

#[test]
fn caps_and_rooms(rt: HostRuntime) {
    let full = outcome(true, Verdict::Full);
    let six = outcome(true, Verdict::Yes { load: 6 });
    let no_room = Err(EditError::NoRoom { room: 2 });
    for (sizes, first, added, second, kept) in [
        ((100, 10), yes(5), Ok(2), yes(7), 7),
        ((100, 16_384), yes(5), Ok(2), yes(7), 7),
        ((6, 10), yes(5), Ok(2), six, 6),
        ((5, 10), yes(5), Ok(2), full, 3),
        ((3, 10), full, Ok(2), full, 3),
        ((2, 10), full, Ok(2), full, 0),
        ((100, 2), yes(5), no_room, yes(5), 5),
    ] {
        grows(&rt, rt.alloc(), sizes, first, added, second, kept);
    }
}

#[test]
fn what_was_tried_is_passed_over(rt: HostRuntime) {
    let alloc = rt.alloc();
    let mut session = started(&rt, alloc, branch(&rt, alloc), 100, 10);
    judges(&rt, &mut session, yes(5));
    let before = session.tries();
    adds(&rt, &mut session, (1, 0), -2, Label::empty(), Ok(2));
    judges(&rt, &mut session, yes(7));
    assert!(rt; session.tries().saturating_sub(before) <= 39);
    drop(session);
}

#[test]
fn what_was_taken_out_is_not_tried_again(rt: HostRuntime) {
    let mut session = late(&rt, rt.alloc());
    judges(&rt, &mut session, yes(6));
    let before = session.tries();
    adds(&rt, &mut session, (0, 2), 50, Label::empty(), Ok(3));
    assert!(rt; session.remove(3) == Ok(()));
    judges(&rt, &mut session, yes(6));
    assert!(rt; session.tries() == before);
    drop(session);
}
