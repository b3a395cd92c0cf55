// Each set is dropped by a call, since a drop at the end of a function is proved as a part of it.
ghost use Rattle.std.specs.Prelude.{◌≡◌, ◌<◌, ◌≤◌, ◌+◌, ℕ, None, length};
ghost use Rattle.cstn_minset.specs.Sets.{entry_at, AllBornBefore};

use crate::networks::{P, bound, p, pq};
use cstn_label::{Bound, Label, Mark, NodeId};
use cstn_minset::MinSet;
use cstn_pool::SlotId;
use std::alloc::Global;
use std::process::Abort;

// An empty set over 4 time-points and 16 slots.
fn started(rt: &impl Abort, alloc: Global) -> MinSet
    ensures nodes { result.nodes ≡ 4 }
    ensures size { length result.table ≡ 16 }
    ensures free { (u : ℕ) → entry_at result.table u ≡ None }
    ensures born { AllBornBefore result.table 0 }
{
    MinSet::start(alloc, 4, 16).expect(rt, "memory")
}

// Takes all bounds out.
fn cleared(set: &mut MinSet)
    ensures nodes { set.new.nodes ≡ set.old.nodes }
    ensures size { length set.new.table ≡ length set.old.table }
    ensures free { (u : ℕ) → entry_at set.new.table u ≡ None }
    ensures born { AllBornBefore set.new.table 0 }
{
    set.clear();
}

// Places a bound that no entry dominates. Its slot and its birth are above those of all entries.
fn add(rt: &impl Abort, set: &mut MinSet, b: Bound, slot: u32, birth: u64)
    requires nodes { set.old.nodes ≡ 4 }
    requires size { length set.old.table ≡ 16 }
    requires room { slot < 16 }
    requires free { (u : ℕ) → slot ≤ u → entry_at set.old.table u ≡ None }
    requires born { AllBornBefore set.old.table birth }
    ensures nodes { set.new.nodes ≡ 4 }
    ensures size { length set.new.table ≡ 16 }
    ensures free { (u : ℕ) → slot + 1 ≤ u → entry_at set.new.table u ≡ None }
    ensures born { AllBornBefore set.new.table (birth + 1) }
{
    assert!(rt; b.node.0 < 4);
    assert!(rt; !set.covers(&b), "a bound that is not covered");
    set.place(&b, SlotId { slot, birth });
}

// Places bounds in turn, each with its place in the list as slot and birth.
fn add_all(rt: &impl Abort, set: &mut MinSet, bounds: &[Bound])
    requires nodes { set.old.nodes ≡ 4 }
    requires size { length set.old.table ≡ 16 }
    requires room { length bounds.now ≤ 16 }
    requires free { (u : ℕ) → entry_at set.old.table u ≡ None }
    requires born { AllBornBefore set.old.table 0 }
    ensures nodes { set.new.nodes ≡ 4 }
    ensures size { length set.new.table ≡ 16 }
    ensures free { (u : ℕ) → length bounds.now ≤ u → entry_at set.new.table u ≡ None }
    ensures born { AllBornBefore set.new.table (length bounds.now) }
{
    for turn in 0..bounds.len() {
        add(rt, set, bounds[turn], turn as u32, turn as u64);
    }
}

fn id(slot: u32, birth: u64) -> SlotId {
    SlotId { slot, birth }
}

// The id of the bound that `add_all` places at this turn.
fn born(turn: u32) -> SlotId {
    id(turn, turn as u64)
}

fn covers(rt: &impl Abort, set: &MinSet, b: Bound, answer: bool) {
    assert!(rt; set.covers(&b) == answer, "covers {b:?}");
}

fn holds(rt: &impl Abort, set: &MinSet, id: SlotId, answer: bool) {
    assert!(rt; set.holds(id) == answer, "holds {id:?}");
}

// The first of the time-point's entries.
fn has_first(rt: &impl Abort, set: &MinSet, node: u16, answer: Option<SlotId>) {
    assert!(rt; set.first(NodeId(node)) == answer, "first of {node}");
}

// The first of the time-point's entries from this birth on.
fn has_first_from(rt: &impl Abort, set: &MinSet, node: u16, birth: u64, answer: Option<SlotId>) {
    assert!(rt;
        set.first_from(NodeId(node), birth) == answer,
        "first of {node} from {birth}"
    );
}

// The entry behind one that is placed.
fn has_next(rt: &impl Abort, set: &MinSet, id: SlotId, answer: Option<SlotId>) {
    assert!(rt; set.holds(id));
    assert!(rt; set.next(id) == answer, "next of {id:?}");
}

// The first entry from this birth on that marks p.
fn has_marked_from(rt: &impl Abort, set: &MinSet, birth: u64, answer: Option<SlotId>) {
    assert!(rt; set.marked_from(P, birth) == answer, "marked from {birth}");
}

// Taking the id out gives this answer.
fn lifts(rt: &impl Abort, set: &mut MinSet, id: SlotId, answer: bool)
    ensures nodes { set.new.nodes ≡ set.old.nodes }
    ensures size { length set.new.table ≡ length set.old.table }
{
    assert!(rt; set.lift(id) == answer, "lift {id:?}");
}

#[test]
fn the_bounds_of_the_branch_network(rt: HostRuntime) {
    let plain = Label::empty();
    let bounds = [
        bound(0, 0, plain),
        bound(1, 0, plain),
        bound(2, 0, plain),
        bound(2, 10, p(Mark::Yes)),
        bound(2, 1, plain),
    ];
    let (under_p, last) = (born(3), born(4));
    let mut set = started(&rt, rt.alloc());
    add_all(&rt, &mut set, &bounds);
    holds(&rt, &set, born(2), false);
    has_first(&rt, &set, 2, Some(under_p));
    has_next(&rt, &set, under_p, Some(last));
    has_next(&rt, &set, last, None);
    has_first_from(&rt, &set, 2, 3, Some(under_p));
    has_first_from(&rt, &set, 2, 4, Some(last));
    has_first_from(&rt, &set, 2, 5, None);
    covers(&rt, &set, bound(2, 1, p(Mark::Yes)), true);
    covers(&rt, &set, bound(2, 7, p(Mark::Yes)), true);
    covers(&rt, &set, bound(2, 2, plain), false);
    covers(&rt, &set, bound(2, 10, p(Mark::No)), false);
    lifts(&rt, &mut set, id(3, 2), false);
    lifts(&rt, &mut set, under_p, true);
    lifts(&rt, &mut set, under_p, false);
    has_first(&rt, &set, 2, Some(last));
    cleared(&mut set);
    has_first(&rt, &set, 2, None);
    add(&rt, &mut set, bound(2, 7, plain), 3, 20);
    holds(&rt, &set, under_p, false);
    has_first(&rt, &set, 2, Some(id(3, 20)));
    drop(set);
}

#[test]
fn the_bounds_of_the_unknown_mark_network(rt: HostRuntime) {
    let (absent, yes, no, unknown) = (Mark::Absent, Mark::Yes, Mark::No, Mark::Unknown);
    let plain = Label::empty();
    let bounds = [
        bound(0, 0, plain),
        bound(1, 0, plain),
        bound(2, 0, plain),
        bound(3, 0, plain),
        bound(3, 9, pq(yes, yes)),
        bound(2, 7, p(no)),
        bound(1, 7, plain),
        bound(3, 1, p(yes)),
        bound(3, 8, p(unknown)),
        bound(3, 8, pq(absent, yes)),
        bound(2, 7, plain),
        bound(3, 1, plain),
        bound(3, 8, plain),
        bound(0, 1, pq(no, no)),
    ];
    let mut set = started(&rt, rt.alloc());
    add_all(&rt, &mut set, &bounds);
    covers(&rt, &set, bound(3, 8, p(yes)), true);
    has_first_from(&rt, &set, 3, 4, Some(born(4)));
    has_first_from(&rt, &set, 3, 5, Some(born(12)));
    has_marked_from(&rt, &set, 0, Some(born(4)));
    has_marked_from(&rt, &set, 5, Some(born(13)));
    has_marked_from(&rt, &set, 14, None);
    add(&rt, &mut set, bound(1, 9, p(unknown)), 14, 14);
    has_marked_from(&rt, &set, 14, Some(born(14)));
    lifts(&rt, &mut set, id(4, 3), false);
    lifts(&rt, &mut set, born(4), true);
    lifts(&rt, &mut set, born(4), false);
    has_first_from(&rt, &set, 3, 4, Some(born(12)));
    has_marked_from(&rt, &set, 0, Some(born(13)));
    drop(set);
}
