// Labels, bounds and small networks that several of the tests use.
ghost use Rattle.std.specs.Prelude.{◌≡◌, ◌+◌, ◌≤◌, [], length};

use cstn_label::{Bound, Label, Mark, NodeId, Prop};
use cstn_net::{Builder, Network};
use cstn_rules::{Entry, Why};
use std::alloc::Global;
use std::process::Abort;

const A: Prop = Prop { index: 26 };

const B: Prop = Prop { index: 27 };

const C: Prop = Prop { index: 28 };

/// The proposition p.
pub(super) const P: Prop = Prop { index: 41 };

/// The proposition q.
pub(super) const Q: Prop = Prop { index: 42 };

// What a constraint is made of: its ends, its value and its label.
type Row = (u32, u32, i32, Label);

// The label that marks one proposition.
fn only(prop: Prop, mark: Mark) -> Label {
    Label::empty().with(prop, mark)
}

/// The label that marks p.
pub(super) fn p(mark: Mark) -> Label {
    only(P, mark)
}

/// The label that marks q.
pub(super) fn q(mark: Mark) -> Label {
    only(Q, mark)
}

/// The label that marks p and q.
pub(super) fn pq(of_p: Mark, of_q: Mark) -> Label {
    p(of_p).with(Q, of_q)
}

/// The bound that has a time-point at this least value where the label is possible.
pub(super) fn bound(node: u16, least: i32, label: Label) -> Bound
    ensures { result.node.0 ≡ node }
{
    let node = NodeId(node);
    Bound { node, least, label }
}

/// The entry of a time-point's base bound.
pub(super) fn base(node: u16) -> Entry {
    entry(Why::Base, node, 0, Label::empty())
}

/// The entry that chain gives.
pub(super) fn chained(constraint: u32, premise: u32, node: u16, least: i32, label: Label) -> Entry {
    entry(by_chain(constraint, premise), node, least, label)
}

/// The entry that wait gives.
pub(super) fn awaited(seen: u32, premise: u32, node: u16, least: i32, label: Label) -> Entry {
    entry(by_wait(seen, premise), node, least, label)
}

fn entry(why: Why, node: u16, least: i32, label: Label) -> Entry {
    let bound = bound(node, least, label);
    Entry { bound, why }
}

/// Chain of a constraint with the entry at a place.
pub(super) fn by_chain(constraint: u32, premise: u32) -> Why {
    Why::Chain {
        constraint,
        premise,
    }
}

/// Wait of the entries at two places.
pub(super) fn by_wait(seen: u32, premise: u32) -> Why {
    Why::Wait { seen, premise }
}

// Adds a time-point for each of `points`, which says what it observes.
fn add_points(rt: &impl Abort, net: &mut Builder, points: &[Option<Prop>])
    requires few { length points.now ≤ 60 }
    requires none { net.old.points ≡ [] }
    ensures points { length net.new.points ≡ length points.now }
    ensures drafts { net.new.drafts ≡ net.old.drafts }
{
    for observes in points {
        net.node(*observes).expect(rt, "memory");
    }
}

// Adds these constraints to a network of `count` time-points.
fn add_constraints(rt: &impl Abort, net: &mut Builder, count: u32, rows: &[Row])
    requires count { count ≤ length net.old.points }
    requires none { net.old.drafts ≡ [] }
{
    assert!(rt; rows.len() <= 60);
    for (from, to, most, label) in rows {
        assert!(rt; *from < count && *to < count);
        net.constrain(*from, *to, *most, *label)
            .expect(rt, "memory");
    }
}

// The network with these time-points and constraints.
fn network(
    rt: &impl Abort,
    alloc: Global,
    deadline: u32,
    points: &[Option<Prop>],
    rows: &[Row],
) -> Network {
    assert!(rt; points.len() <= 60);
    let mut net = Builder::new(alloc, deadline);
    add_points(rt, &mut net, points);
    add_constraints(rt, &mut net, points.len() as u32, rows);
    net.close().expect(rt, "a network")
}

/// Z alone.
pub(super) fn alone(rt: &impl Abort, alloc: Global, deadline: u32) -> Network {
    network(rt, alloc, deadline, &[None], &[])
}

/// Z and X, where X is at 5 or later.
pub(super) fn pair(rt: &impl Abort, alloc: Global, deadline: u32) -> Network {
    let rows = [(1, 0, -5, Label::empty())];
    network(rt, alloc, deadline, &[None, None], &rows)
}

/// Z, P and X, where X is at 10 or later where p is true, and at 3 or earlier where it is false.
pub(super) fn branch(rt: &impl Abort, alloc: Global) -> Network {
    let rows = [(2, 0, -10, p(Mark::Yes)), (0, 2, 3, p(Mark::No))];
    network(rt, alloc, 10, &[None, Some(P), None], &rows)
}

/// The network `branch`, with P at `least` or later.
pub(super) fn late_branch(rt: &impl Abort, alloc: Global, least: i32) -> Network {
    assert!(rt; 0 <= least && least <= 10);
    let rows = [
        (2, 0, -10, p(Mark::Yes)),
        (0, 2, 3, p(Mark::No)),
        (1, 0, -least, Label::empty()),
    ];
    network(rt, alloc, 10, &[None, Some(P), None], &rows)
}

/// The network `branch`, with P at 2 or later by one constraint and at 3 or later by another.
pub(super) fn twice_late_branch(rt: &impl Abort, alloc: Global) -> Network {
    let rows = [
        (2, 0, -10, p(Mark::Yes)),
        (0, 2, 3, p(Mark::No)),
        (1, 0, -2, Label::empty()),
        (1, 0, -3, Label::empty()),
    ];
    network(rt, alloc, 10, &[None, Some(P), None], &rows)
}

/// Z, P and Q, where each of P and Q is at 5 or later where the other's proposition is true.
pub(super) fn crossed(rt: &impl Abort, alloc: Global) -> Network {
    let rows = [(1, 0, -5, q(Mark::Yes)), (2, 0, -5, p(Mark::Yes))];
    network(rt, alloc, 5, &[None, Some(P), Some(Q)], &rows)
}

/// Z, P, Q and X, where X waits for both propositions, and Q for p, which is known too late.
pub(super) fn unknown_mark(rt: &impl Abort, alloc: Global) -> Network {
    let rows = [
        (3, 0, -9, pq(Mark::Yes, Mark::Yes)),
        (2, 0, -7, p(Mark::No)),
        (1, 0, -7, Label::empty()),
        (0, 3, 7, pq(Mark::No, Mark::No)),
    ];
    network(rt, alloc, 10, &[None, Some(P), Some(Q), None], &rows)
}

/// Z and six others, of which the first three observe, with the twelve constraints that are generated from the number 1.
pub(super) fn generated(rt: &impl Abort, alloc: Global) -> Network {
    let plain = Label::empty();
    let (c, not_b) = (only(C, Mark::Yes), only(B, Mark::No));
    let rows = [
        (4, 1, 0, plain),
        (3, 5, 14, only(A, Mark::Yes)),
        (1, 0, -2, c),
        (2, 0, -6, plain),
        (3, 0, -2, plain),
        (6, 0, -8, c.with(A, Mark::Yes)),
        (2, 0, -2, not_b),
        (6, 0, -2, c),
        (3, 0, -5, not_b),
        (6, 1, -1, only(B, Mark::Yes).with(A, Mark::No)),
        (6, 4, -8, only(C, Mark::No).with(A, Mark::No)),
        (2, 0, -9, not_b.with(C, Mark::No)),
    ];
    let points = [None, Some(A), Some(B), Some(C), None, None, None];
    network(rt, alloc, 22, &points, &rows)
}
