ghost use Rattle.std.specs.Prelude.{◌≤◌};

use crate::fixtures::{P, Q, constraint, draft, has, label, observes, reacts, same, says};
use cstn_label::{Label, NodeId, Prop};
use cstn_lift::{Labelled, Labels, LiftError, lift};
use cstn_net::{Constraint, Network};
use std::alloc::Global;
use std::process::Abort;

// Lifts the network of the origin, a time-point that observes p with this reaction, one that observes q, and X, with one
// constraint from X to the origin of at most -5, and with these labels of its time-points.
fn lifted(
    rt: &impl Abort,
    alloc: Global,
    reaction: u32,
    labels: &[Label],
) -> Result<Labelled, LiftError> {
    let points = [None, Some(P), Some(Q), None];
    let mut net = draft(rt, alloc, 10, &points, &[(3, 0, -5, label("-"))]);
    net.react(1, reaction);
    let net = net.close().expect(rt, "a network");
    let labels = Vec::from_slice(alloc, labels).expect(rt, "memory");
    assert!(rt; labels.len() == net.count() as usize);
    lift(alloc, net, labels)
}

// Asserts that a network has the time-points of the one that `lifted` lifts, where p is known after `reaction` ticks.
fn keeps_time_points(rt: &impl Abort, net: &Network, reaction: u32) {
    same(rt, "count", net.count(), 4);
    same(rt, "deadline", net.deadline(), 10);
    observes(rt, net, 1, Some(P));
    reacts(rt, net, P, reaction);
    reacts(rt, net, Q, 1);
}

#[test]
fn guards_follow_the_constraints(rt: HostRuntime) {
    let labels = [label("-"), label("-"), label("-"), label("p")];
    let lifted = lifted(&rt, rt.alloc(), 3, &labels).expect(&rt, "labels");
    let guarded = [constraint(0, 3, 0, -5, "p"), constraint(1, 3, 1, -3, "p")];
    keeps_time_points(&rt, lifted.lowered(), 3);
    has(&rt, lifted.lowered(), &guarded);
    has(&rt, lifted.base(), &[constraint(0, 3, 0, -5, "-")]);
    same(&rt, "labelled", lifted.is_labelled(), true);
}

// The labels of the origin, P, Q and X, and why they are refused.
struct Refused {
    labels: [&'static str; 4],
    error: Option<LiftError>,
}

const NOT_PLAIN: Option<LiftError> = Some(LiftError::NotPlain { node: NodeId(2) });

const REFUSED: [Refused; 7] = [
    Refused {
        labels: ["p", "?p", "!C!D", "q"],
        error: Some(LiftError::OriginLabel),
    },
    Refused {
        labels: ["-", "!C!D", "?p", "?p"],
        error: NOT_PLAIN,
    },
    Refused {
        labels: ["-", "-", "?D", "!C!D"],
        error: NOT_PLAIN,
    },
    Refused {
        labels: ["-", "!C!D", "!C!D", "q"],
        error: Some(LiftError::NotObserved {
            node: NodeId(1),
            prop: Prop { index: 2 },
        }),
    },
    Refused {
        labels: ["-", "q", "p", "!pq"],
        error: Some(LiftError::Circle { node: NodeId(1) }),
    },
    Refused {
        labels: ["-", "-", "p", "!pq"],
        error: Some(LiftError::Never { node: NodeId(3) }),
    },
    Refused {
        labels: ["-", "-", "-", "-"],
        error: None,
    },
];

fn refuses(rt: &impl Abort, alloc: Global, row: &Refused) {
    let [origin, p, q, x] = row.labels;
    let handed = [label(origin), label(p), label(q), label(x)];
    same(
        rt,
        row.labels,
        lifted(rt, alloc, 1, &handed).err(),
        row.error,
    );
}

#[test]
fn faults_are_named(rt: HostRuntime) {
    for row in &REFUSED {
        refuses(&rt, rt.alloc(), row);
    }
}

fn is_whole(rt: &impl Abort, labels: &Labels, x: u16, text: &str) {
    assert!(rt; x < labels.base().count());
    same(rt, x, labels.get(NodeId(x)), label(text));
}

fn is_given(rt: &impl Abort, lifted: &Labelled, x: u16, text: &str) {
    assert!(rt; x < lifted.base().count());
    same(rt, x, lifted.label(NodeId(x)), label(text));
}

// Asserts that a labelled network is split into a network with these constraints and these completed labels of Q and X.
fn splits(rt: &impl Abort, lifted: Labelled, constraints: &[Constraint], of_q: &str, of_x: &str) {
    let (net, labels) = lifted.split();
    has(rt, &net, constraints);
    is_whole(rt, &labels, 2, of_q);
    is_whole(rt, &labels, 3, of_x);
}

#[test]
fn labels_are_completed_in_a_chain(rt: HostRuntime) {
    let labels = [label("-"), label("-"), label("!p"), label("q")];
    let lifted = lifted(&rt, rt.alloc(), 1, &labels).expect(&rt, "labels");
    let constraints = [
        constraint(0, 3, 0, -5, "!pq"),
        constraint(1, 2, 1, -1, "!p"),
        constraint(2, 3, 1, -1, "!pq"),
        constraint(3, 3, 2, -1, "!pq"),
    ];
    is_given(&rt, &lifted, 3, "q");
    splits(&rt, lifted, &constraints, "!p", "!pq");
}

#[test]
fn a_network_without_labels_stays(rt: HostRuntime) {
    let lifted = lifted(&rt, rt.alloc(), 1, &[label("-"); 4]).expect(&rt, "labels");
    assert!(rt; !lifted.is_labelled());
    has(&rt, lifted.lowered(), lifted.base().constraints());
}

// Lifts the network of the origin, a time-point that observes p and one that has the label p, with this number of equal
// constraints, and answers why it is refused, if it is.
fn counted(rt: &impl Abort, alloc: Global, constraints: u32) -> Option<LiftError>
    requires { constraints ≤ 16384 }
{
    let mut net = draft(rt, alloc, 10, &[None, Some(P), None], &[]);
    for _ in 0..constraints {
        net.constrain(1, 0, -3, Label::empty()).expect(rt, "memory");
    }
    let net = net.close().expect(rt, "a network");
    let labels = Vec::from_slice(alloc, &[label("-"), label("-"), label("p")]).expect(rt, "memory");
    assert!(rt; labels.len() == net.count() as usize);
    lift(alloc, net, labels).err()
}

#[test]
fn lowered_constraints_are_counted(rt: HostRuntime) {
    let alloc = rt.alloc();
    same(&rt, 16383, counted(&rt, alloc, 16383), None);
    same(
        &rt,
        16384,
        counted(&rt, alloc, 16384),
        Some(LiftError::TooManyConstraints),
    );
}

#[test]
fn errors_name_letters_and_numbers(rt: HostRuntime) {
    let node = NodeId(3);
    let unseen = LiftError::NotObserved { node, prop: P };
    let text = "nothing observes the proposition p, which the label of the time-point 3 names";
    says(&rt, rt.alloc(), &unseen, text);
}
