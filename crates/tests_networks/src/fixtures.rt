// What several tests use: how a row is compared, labels and bounds by their texts, and small networks.
ghost use Rattle.std.specs.Prelude.{◌≡◌, ◌≤◌, ◌<◌, length};
ghost use Rattle.std.specs.List.{All};
ghost use Rattle.cstn_net.specs.Networks.{count};
ghost use Rattle.cstn_net.specs.Read.{the_network};

use cstn_label::{Bound, Label, Mark, NodeId, Prop};
use cstn_net::{Builder, Constraint, Network};
use std::alloc::Global;
use std::fmt::{Debug, Display};
use std::process::Abort;

pub const P: Prop = Prop { index: 41 };

pub const Q: Prop = Prop { index: 42 };

/// Asserts that what a row gives is what it is to give. The row is shown where it isn't.
pub fn same<R: Copy + Debug, T: Copy + Debug + PartialEq>(
    rt: &impl Abort,
    row: R,
    got: T,
    want: T,
) {
    assert_eq!(rt; got, want, "{row:?}");
}

/// Asserts that a value has this text.
pub fn says(rt: &impl Abort, alloc: Global, value: &impl Display, text: &str) {
    let written = format!(in alloc; "{value}").expect(rt, "memory");
    same(rt, "text", written.as_str(), text);
}

/// The label of a text: `p` marks p with yes, `!p` with no, `?p` with unknown. A text with no letter, as `-`, is the empty
/// label.
pub fn label(text: &str) -> Label {
    let mut label = Label::empty();
    let mut mark = Mark::Yes;
    for byte in text.as_bytes() {
        match *byte {
            b'!' => mark = Mark::No,
            b'?' => mark = Mark::Unknown,
            letter => {
                if let Some(p) = Prop::from_letter(letter) {
                    label = label.with(p, mark);
                    mark = Mark::Yes;
                }
            }
        }
    }
    label
}

/// A bound, with the label of a text.
pub fn bound(node: u16, least: i32, text: &str) -> Bound {
    Bound {
        node: NodeId(node),
        least,
        label: label(text),
    }
}

/// What a row says of a bound: its time-point, its least value and the text of its label.
pub struct Asked {
    pub node: u16,
    pub least: i32,
    pub text: &'static str,
}

/// The bound of a row.
pub fn bound_of(row: &Asked) -> Bound {
    bound(row.node, row.least, row.text)
}

/// A builder with time-points that observe `points` and with constraints, each by its ends, its value and its label.
pub fn draft(
    rt: &impl Abort,
    alloc: Global,
    deadline: u32,
    points: &[Option<Prop>],
    constraints: &[(u32, u32, i32, Label)],
) -> Builder
    requires points { length points.now ≤ 60 }
    requires constraints { length constraints.now ≤ 60 }
    ensures points { length result.points ≡ length points.now }
    ensures drafts { length result.drafts ≡ length constraints.now }
{
    let mut net = Builder::new(alloc, deadline);
    for observes in points {
        net.node(*observes).expect(rt, "memory");
    }
    for (from, to, most, label) in constraints {
        assert!(rt; (*from as usize) < points.len() && (*to as usize) < points.len());
        net.constrain(*from, *to, *most, *label)
            .expect(rt, "memory");
    }
    net
}

/// The network of time-points and constraints.
pub fn network(
    rt: &impl Abort,
    alloc: Global,
    deadline: u32,
    points: &[Option<Prop>],
    constraints: &[(u32, u32, i32, Label)],
) -> Network
    requires points { length points.now ≤ 60 }
    requires constraints { length constraints.now ≤ 60 }
{
    draft(rt, alloc, deadline, points, constraints)
        .close()
        .expect(rt, "a network")
}

/// Z, P and X, where X is at 10 or later where p is true, and at 3 or earlier where it is false. The outcome of p is known
/// `reaction` ticks after P.
#[tactic(auto, using(crate::proofs::Ids::ids_are_below))]
pub fn branch(rt: &impl Abort, alloc: Global, reaction: u32) -> Network
    ensures { All (λ c. c.id < 2) result.constraints }
{
    let constraints = [(2, 0, -10, label("p")), (0, 2, 3, label("!p"))];
    let mut net = draft(rt, alloc, 10, &[None, Some(P), None], &constraints);
    net.react(1, reaction);
    net.close().expect(rt, "a network")
}

/// The branch with a reaction of 1, and one more constraint, by which P is at `-most` or later.
pub fn late_branch(rt: &impl Abort, alloc: Global, most: i32) -> Network {
    let constraints = [
        (2, 0, -10, label("p")),
        (0, 2, 3, label("!p")),
        (1, 0, most, label("-")),
    ];
    network(rt, alloc, 10, &[None, Some(P), None], &constraints)
}

/// Z and X, with one constraint.
pub fn pair(
    rt: &impl Abort,
    alloc: Global,
    deadline: u32,
    from: u32,
    to: u32,
    most: i32,
) -> Network {
    network(
        rt,
        alloc,
        deadline,
        &[None, None],
        &[(from, to, most, label("-"))],
    )
}

/// Z, P and Q, where each of P and Q is at 5 or later where the other's proposition is true, and P is at `due` or earlier
/// where q is false.
pub fn crossed(rt: &impl Abort, alloc: Global, due: i32) -> Network {
    let constraints = [
        (1, 0, -5, label("q")),
        (2, 0, -5, label("p")),
        (0, 1, due, label("!q")),
    ];
    network(rt, alloc, 5, &[None, Some(P), Some(Q)], &constraints)
}

/// Z, P, Q and X, where neither outcome is known by 7, and X is at 7 or earlier where both are false.
pub fn unknown_mark(rt: &impl Abort, alloc: Global) -> Network {
    let constraints = [
        (3, 0, -9, label("pq")),
        (2, 0, -7, label("!p")),
        (1, 0, -7, label("-")),
        (0, 3, 7, label("!p!q")),
    ];
    network(rt, alloc, 10, &[None, Some(P), Some(Q), None], &constraints)
}

/// Z, S, P, T and E, where T is 2 ticks after P or later where p is true, and 8 ticks after P or later where it is false.
pub fn process(rt: &impl Abort, alloc: Global) -> Network {
    let constraints = [
        (2, 1, -5, label("-")),
        (1, 2, 10, label("-")),
        (3, 2, -2, label("p")),
        (3, 2, -8, label("!p")),
        (4, 3, -3, label("-")),
        (0, 4, 30, label("-")),
    ];
    network(
        rt,
        alloc,
        40,
        &[None, None, Some(P), None, None],
        &constraints,
    )
}

/// A constraint, with the label of a text.
pub fn constraint(id: u32, from: u16, to: u16, most: i32, text: &str) -> Constraint {
    Constraint {
        id,
        from: NodeId(from),
        to: NodeId(to),
        most,
        label: label(text),
    }
}

/// Asserts that these are the network's constraints.
pub fn has(rt: &impl Abort, net: &Network, constraints: &[Constraint]) {
    same(rt, "constraints", net.constraints(), constraints);
}

/// Asserts what the time-point x observes.
pub fn observes(rt: &impl Abort, net: &Network, x: u16, p: Option<Prop>) {
    assert!(rt; x < net.count());
    same(rt, x, net.observes(NodeId(x)), p);
}

/// Asserts the reaction of p.
pub fn reacts(rt: &impl Abort, net: &Network, p: Prop, ticks: u32) {
    same(rt, p, net.reaction(p), ticks);
}
