// Networks, names, bounds and plans that several modules share.
ghost use Rattle.std.specs.Prelude.{◌≡◌, ◌≤◌, [], length};

use cstn_check::{Check, Verdict};
use cstn_label::{Bound, Label, Mark, NodeId, Prop};
use cstn_log::Cap;
use cstn_net::{Builder, Network};
use cstn_plan::SoundPlan;
use cstn_text::{NameKey, Names};
use std::alloc::Global;
use std::process::Abort;

pub const P: Prop = Prop { index: 41 };

pub const Q: Prop = Prop { index: 42 };

pub fn p(mark: Mark) -> Label {
    Label::empty().with(P, mark)
}

pub fn q(mark: Mark) -> Label {
    Label::empty().with(Q, mark)
}

pub fn bound(node: u16, least: i32, label: Label) -> Bound {
    Bound {
        node: NodeId(node),
        least,
        label,
    }
}

// A builder with a time-point for each of `points`, which says what it observes.
fn builder(rt: &impl Abort, alloc: Global, deadline: u32, points: &[Option<Prop>]) -> Builder
    ensures points { length result.points ≡ length points.now }
    ensures drafts { result.drafts ≡ [] }
{
    assert!(rt; points.len() <= 60);
    let mut net = Builder::new(alloc, deadline);
    for observes in points {
        net.node(*observes).expect(rt, "memory");
    }
    net
}

// The network with a time-point for each of `points`, which says what it observes, and constraints with these ends, values and
// labels.
fn network(
    rt: &impl Abort,
    alloc: Global,
    deadline: u32,
    points: &[Option<Prop>],
    constraints: &[(u32, u32, i32, Label)],
) -> Network {
    let mut net = builder(rt, alloc, deadline, points);
    assert!(rt; constraints.len() <= 60);
    for (from, to, most, label) in constraints {
        assert!(rt; (*from as usize) < points.len() && (*to as usize) < points.len());
        net.constrain(*from, *to, *most, *label)
            .expect(rt, "memory");
    }
    net.close().expect(rt, "a network")
}

/// Z alone, and what it observes.
pub fn origin(rt: &impl Abort, alloc: Global, deadline: u32, observes: Option<Prop>) -> Network {
    network(rt, alloc, deadline, &[observes], &[])
}

/// Z and X, which is at 5 or later.
pub fn pair(rt: &impl Abort, alloc: Global, deadline: u32) -> Network {
    let constraints = [(1, 0, -5, Label::empty())];
    network(rt, alloc, deadline, &[None, None], &constraints)
}

/// Z and X, which is at 5 or later and at 9 or later, where 4 is the deadline.
pub fn twice(rt: &impl Abort, alloc: Global) -> Network {
    let constraints = [(1, 0, -5, Label::empty()), (1, 0, -9, Label::empty())];
    network(rt, alloc, 4, &[None, None], &constraints)
}

/// Z, P, which observes p, and X, with no constraint.
pub fn unconstrained(rt: &impl Abort, alloc: Global) -> Network {
    network(rt, alloc, 5_000, &[None, Some(P), None], &[])
}

/// Z, P, which observes p, and X: X is at 10 or later where p is true, and at 3 or earlier where it is false.
pub fn branch(rt: &impl Abort, alloc: Global) -> Network {
    network(
        rt,
        alloc,
        10,
        &[None, Some(P), None],
        &[(2, 0, -10, p(Mark::Yes)), (0, 2, 3, p(Mark::No))],
    )
}

/// The network `branch`, with P at 3 or later.
pub fn late(rt: &impl Abort, alloc: Global) -> Network {
    network(
        rt,
        alloc,
        10,
        &[None, Some(P), None],
        &[
            (2, 0, -10, p(Mark::Yes)),
            (0, 2, 3, p(Mark::No)),
            (1, 0, -3, Label::empty()),
        ],
    )
}

/// Up to 65,536 names.
pub fn names(rt: &impl Abort, alloc: Global, each: &[&str]) -> Names
    ensures few { length result ≤ 65536 }
{
    let mut names = Names::new(alloc, NameKey::new(b""));
    for name in each {
        assert!(rt; names.count() < 1000);
        names.push(name).expect(rt, "a name");
    }
    assert!(rt; names.count() <= 65536);
    names
}

/// The plan of a consistent network.
pub fn plan(rt: &impl Abort, alloc: Global, net: Network) -> SoundPlan {
    let mut check = Check::start(alloc, net, Cap { entries: 100 }).expect(rt, "memory");
    let Verdict::Yes { .. } = check.run() else {
        panic!(rt; "a consistent network");
    };
    check.into_plan()
}
