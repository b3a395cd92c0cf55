ghost use Rattle.std.specs.Prelude.{◌≡◌, ◌<◌, ◌≤◌, [], length};
ghost use Rattle.std.specs.List.{All};

use crate::fixtures::{P, Q, branch, constraint, draft, label, same, says};
use cstn_label::{Label, NodeId, Prop};
use cstn_net::{Builder, Constraint, NetError, Network};
use std::alloc::Global;
use std::process::Abort;

// Asserts that closing the builder is refused with this error, or not at all.
fn closes(rt: &impl Abort, row: &str, builder: Builder, refused: Option<NetError>) {
    same(rt, row, builder.close().err(), refused);
}

// A builder with `count` time-points, which observe nothing.
fn nodes(rt: &impl Abort, alloc: Global, deadline: u32, count: u32) -> Builder
    requires { count ≤ 2000 }
    ensures points { length result.points ≡ count }
    ensures drafts { result.drafts ≡ [] }
{
    let mut builder = Builder::new(alloc, deadline);
    for _ in 0..count {
        builder.node(None).expect(rt, "memory");
    }
    builder
}

// A builder with 1,024 time-points and `count` constraints of the value `most`.
fn constrained(rt: &impl Abort, alloc: Global, count: u32, most: i32) -> Builder
    requires { count ≤ 20000 }
{
    let mut builder = nodes(rt, alloc, 9, 1024);
    for _ in 0..count {
        builder
            .constrain(0, 1023, most, Label::empty())
            .expect(rt, "memory");
    }
    builder
}

// 1,024 time-points and 16,384 constraints are the most.
#[test]
fn the_largest_network(rt: HostRuntime) {
    let alloc = rt.alloc();
    let most = constrained(&rt, alloc, 16384, 1_000_000_000);
    let more = constrained(&rt, alloc, 16385, 0);
    closes(&rt, "most", most, None);
    closes(&rt, "more", more, Some(NetError::TooManyConstraints));
    closes(
        &rt,
        "none",
        nodes(&rt, alloc, 5, 0),
        Some(NetError::NoOrigin),
    );
}

// What two time-points behind Z observe, the reaction of the first, the values and labels of two constraints, and why the
// network is refused.
struct Faulty {
    name: &'static str,
    observes: [Option<Prop>; 2],
    reaction: u32,
    values: [i32; 2],
    labels: [&'static str; 2],
    refused: Option<NetError>,
}

const TWINS: Option<NetError> = Some(NetError::TwoObservers {
    prop: P,
    first: NodeId(1),
    second: NodeId(2),
});

const RANGE: Option<NetError> = Some(NetError::ValueRange { constraint: 1 });

const SECOND_RANGE: Option<NetError> = Some(NetError::ValueRange { constraint: 2 });

const P_UNSEEN: Option<NetError> = Some(NetError::NotObserved { prop: P });

const Q_UNSEEN: Option<NetError> = Some(NetError::NotObserved { prop: Q });

const NOT_PLAIN: Option<NetError> = Some(NetError::NotPlain { constraint: 1 });

const REACTION: Option<NetError> = Some(NetError::ReactionRange { node: NodeId(1) });

const FAULTY: [Faulty; 18] = [
    Faulty {
        name: "two values",
        observes: [Some(P), Some(P)],
        reaction: 1,
        values: [1_000_000_001, 1_000_000_001],
        labels: ["-", "-"],
        refused: RANGE,
    },
    Faulty {
        name: "p, a value",
        observes: [None, None],
        reaction: 1,
        values: [0, 1_000_000_001],
        labels: ["p!q", "-"],
        refused: SECOND_RANGE,
    },
    Faulty {
        name: "p, p",
        observes: [None, None],
        reaction: 1,
        values: [0, 0],
        labels: ["p!q", "p"],
        refused: P_UNSEEN,
    },
    Faulty {
        name: "twins, q",
        observes: [Some(P), Some(P)],
        reaction: 1,
        values: [0, 0],
        labels: ["p", "p!q"],
        refused: Q_UNSEEN,
    },
    Faulty {
        name: "twins",
        observes: [Some(P), Some(P)],
        reaction: 1,
        values: [0, 0],
        labels: ["p", "?p"],
        refused: TWINS,
    },
    Faulty {
        name: "two not plain",
        observes: [Some(P), Some(Q)],
        reaction: 1,
        values: [0, 0],
        labels: ["?p", "?p"],
        refused: NOT_PLAIN,
    },
    Faulty {
        name: "no fault",
        observes: [Some(P), Some(Q)],
        reaction: 1,
        values: [0, 0],
        labels: ["p!q", "p"],
        refused: None,
    },
    Faulty {
        name: "observed",
        observes: [None, Some(P)],
        reaction: 1,
        values: [0, 0],
        labels: ["!p", "-"],
        refused: None,
    },
    Faulty {
        name: "unobserved, not plain",
        observes: [None, None],
        reaction: 1,
        values: [0, 0],
        labels: ["?p", "-"],
        refused: P_UNSEEN,
    },
    Faulty {
        name: "unobserved",
        observes: [None, None],
        reaction: 1,
        values: [-5, 0],
        labels: ["p", "-"],
        refused: P_UNSEEN,
    },
    Faulty {
        name: "out of range, twins, not plain",
        observes: [Some(P), Some(P)],
        reaction: 1,
        values: [1_000_000_001, 0],
        labels: ["?p", "-"],
        refused: RANGE,
    },
    Faulty {
        name: "two twins",
        observes: [Some(P), Some(P)],
        reaction: 1,
        values: [0, 0],
        labels: ["-", "-"],
        refused: TWINS,
    },
    Faulty {
        name: "a reaction of 0",
        observes: [Some(P), None],
        reaction: 0,
        values: [0, 0],
        labels: ["-", "-"],
        refused: REACTION,
    },
    Faulty {
        name: "a reaction of 1001",
        observes: [Some(P), None],
        reaction: 1001,
        values: [0, 0],
        labels: ["p", "-"],
        refused: REACTION,
    },
    Faulty {
        name: "a reaction of 1000",
        observes: [Some(P), None],
        reaction: 1000,
        values: [0, 0],
        labels: ["!p", "-"],
        refused: None,
    },
    Faulty {
        name: "a reaction of 0, no observer",
        observes: [None, None],
        reaction: 0,
        values: [0, 0],
        labels: ["-", "-"],
        refused: None,
    },
    Faulty {
        name: "a reaction of 1001, no observer",
        observes: [None, None],
        reaction: 1001,
        values: [0, 0],
        labels: ["-", "-"],
        refused: None,
    },
    Faulty {
        name: "a reaction of 0, not plain",
        observes: [Some(P), None],
        reaction: 0,
        values: [0, 0],
        labels: ["?p", "-"],
        refused: NOT_PLAIN,
    },
];

// Behind a constraint without fault there are the two of the row.
fn judges(rt: &impl Abort, alloc: Global, row: &Faulty) {
    let points = [None, row.observes[0], row.observes[1]];
    let constraints = [
        (0, 1, 0, Label::empty()),
        (0, 1, row.values[0], label(row.labels[0])),
        (2, 1, row.values[1], label(row.labels[1])),
    ];
    let mut builder = draft(rt, alloc, 9, &points, &constraints);
    builder.react(1, row.reaction);
    closes(rt, row.name, builder, row.refused);
}

#[test]
fn the_lowest_of_several_faults_is_named(rt: HostRuntime) {
    for row in &FAULTY {
        judges(&rt, rt.alloc(), row);
    }
}

#[test]
fn the_branch_is_read(rt: HostRuntime) {
    let net = branch(&rt, rt.alloc(), 7);
    assert!(rt; net.count() == 3 && net.deadline() == 10);
    assert!(rt; net.limit(NodeId(0)) == 0 && net.limit(NodeId(2)) == 10);
    assert!(rt; net.observes(NodeId(0)).is_none() && net.observes(NodeId(1)) == Some(P));
    assert!(rt; net.reaction(P) == 7 && net.reaction(Q) == 1);
    assert!(rt; net.observer(P) == Some(NodeId(1)) && net.observer(Q).is_none());
    assert!(rt; net.unobserved(label("?q")) == Some(Q) && net.unobserved(label("p")).is_none());
}

// Makes room for all constraints, and inserts one from P to Z of -3 with the id 2.
fn insert_late(rt: &impl Abort, net: &mut Network)
    requires { All (λ c. c.id < 2) net.old.constraints }
{
    assert!(rt; net.count() == 3 && net.constraints().len() == 2);
    net.reserve(16384).expect(rt, "memory");
    net.insert(Constraint {
        id: 2,
        from: NodeId(1),
        to: NodeId(0),
        most: -3,
        label: Label::empty(),
    });
}

#[test]
fn constraints_are_changed(rt: HostRuntime) {
    let mut net = branch(&rt, rt.alloc(), 7);
    insert_late(&rt, &mut net);
    assert!(rt; net.count() == 3 && net.constraints().len() == 3);
    same(&rt, "first to Z", net.first_to(NodeId(0)), Some(0));
    same(&rt, "next to Z", net.next_to(0), Some(2));
    same(
        &rt,
        "taken out",
        net.take_out(0),
        Some(constraint(0, 2, 0, -10, "p")),
    );
    same(&rt, "now first to Z", net.first_to(NodeId(0)), Some(1));
    same(&rt, "taken out again", net.take_out(0), None);
    same(&rt, "place", net.place_of(2), Some(1));
    same(&rt, "set", net.set_most(2, 4), true);
    same(&rt, "not set", net.set_most(9, 1), false);
    same(
        &rt,
        "value",
        net.constraints().get(1).copied(),
        Some(constraint(2, 1, 0, 4, "-")),
    );
}

#[test]
fn a_copy_is_apart(rt: HostRuntime) {
    let net = branch(&rt, rt.alloc(), 7);
    let mut other = net.copy(rt.alloc()).expect(&rt, "memory");
    other.set_deadline(9);
    same(&rt, "deadline of the copy", other.deadline(), 9);
    same(&rt, "constraints", other.constraints(), net.constraints());
    same(&rt, "deadline", net.deadline(), 10);
}

// An error and its text.
struct Told {
    error: NetError,
    text: &'static str,
}

const TOLD: [Told; 5] = [
    Told {
        error: NetError::TooManyNodes,
        text: "more than 1024 time-points",
    },
    Told {
        error: NetError::TooManyConstraints,
        text: "more than 16384 constraints",
    },
    Told {
        error: NetError::NotObserved { prop: P },
        text: "nothing observes the proposition p",
    },
    Told {
        error: NetError::TwoObservers {
            prop: P,
            first: NodeId(1),
            second: NodeId(2),
        },
        text: "the time-points 1 and 2 observe the proposition p",
    },
    Told {
        error: NetError::ReactionRange { node: NodeId(3) },
        text: "the reaction of the time-point 3 is out of range",
    },
];

#[test]
fn errors_name_letters_and_numbers(rt: HostRuntime) {
    for row in &TOLD {
        says(&rt, rt.alloc(), &row.error, row.text);
    }
}
