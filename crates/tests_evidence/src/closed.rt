// Lists of bounds.
use crate::fixtures::{bound, branch, names, origin, p, plan, q, unconstrained};
use cstn_closed::{Closed, ClosedAnswer, Indexed, adopt, check};
use cstn_label::{Bound, Label, Mark, NodeId};
use cstn_net::Network;
use std::alloc::{AllocError, Global};
use std::process::Abort;

const NAMES: [&str; 3] = ["Z", "P", "X"];

const BOUNDS: &str = "yes 5\nbound Z 0 -\nbound P 0 -\nbound X 10 p\nbound X 1 -\n";

fn read(rt: &impl Abort, alloc: Global, text: &str) -> Closed {
    let names = names(rt, alloc, &NAMES);
    let closed = Closed::read(alloc, &names, text.as_bytes()).expect(rt, text);
    let printed = closed.print(alloc, &names).expect(rt, "memory");
    assert_eq!(rt; printed.as_str(), text);
    closed
}

// The list, made ready for its check.
fn index(rt: &impl Abort, alloc: Global, closed: Closed) -> Indexed {
    Indexed::of(alloc, closed).expect(rt, "memory")
}

#[test]
fn lists_are_read_and_adopted(rt: HostRuntime) {
    let net = branch(&rt, rt.alloc());
    let indexed = index(&rt, rt.alloc(), read(&rt, rt.alloc(), BOUNDS));
    assert!(rt; indexed.covers(&bound(2, 1, p(Mark::No))));
    assert!(rt; !indexed.covers(&bound(2, 2, p(Mark::No))));
    assert_eq!(rt; adopted(net, indexed), Some(4));
}

// The answer to the list of these bounds, with the load 5.
fn answers(
    rt: &impl Abort,
    alloc: Global,
    net: &Network,
    bounds: Vec<Bound>,
    answer: ClosedAnswer,
) {
    assert!(rt; bounds.len() < 10_000);
    let indexed = index(rt, alloc, Closed::new(5, bounds));
    assert_eq!(rt; check(net, &indexed), answer);
}

// Bounds for Z and P at 0 or later, for X at `from` or later, for X at each of the moments 1 to 5,000 or later where p is true,
// at the places 3 to 5,002, and for X at 1 or later with the label `last`.
fn five_thousand(alloc: Global, from: i32, last: Label) -> Result<Vec<Bound>, AllocError> {
    let mut bounds = Vec::with_capacity(alloc, 5_004)?;
    bounds.push(bound(0, 0, Label::empty()))?;
    bounds.push(bound(1, 0, Label::empty()))?;
    bounds.push(bound(2, from, Label::empty()))?;
    for least in 1..=5_000 {
        bounds.push(bound(2, least, p(Mark::Yes)))?;
    }
    bounds.push(bound(2, 1, last))?;
    Ok(bounds)
}

// The answer to the bounds of `five_thousand` for a network with no constraint.
fn answers_five_thousand(
    rt: &impl Abort,
    alloc: Global,
    from: i32,
    last: Label,
    answer: ClosedAnswer,
) {
    let net = unconstrained(rt, alloc);
    let bounds = five_thousand(alloc, from, last).expect(rt, "memory");
    answers(rt, alloc, &net, bounds, answer);
}

#[test]
fn lists_of_none_and_of_five_thousand_are_answered(rt: HostRuntime) {
    let alloc = rt.alloc();
    let no_base = ClosedAnswer::NoBase { node: NodeId(0) };
    let net = branch(&rt, alloc);
    answers(&rt, alloc, &net, Vec::new(alloc), no_base);
    let unknown = p(Mark::Unknown);
    answers_five_thousand(&rt, alloc, 1, unknown, ClosedAnswer::Accepted);
    let no_wait = ClosedAnswer::NoWait { seen: 1, at: 3 };
    answers_five_thousand(&rt, alloc, 0, unknown, no_wait);
    let unobserved = q(Mark::No);
    answers_five_thousand(&rt, alloc, 1, unobserved, ClosedAnswer::Bad { at: 5_003 });
}

// The number of bounds of the plan that adopts the list, if the list is accepted.
fn adopted(net: Network, indexed: Indexed) -> Option<u32> {
    match check(&net, &indexed) {
        ClosedAnswer::Accepted => Some(adopt(net, indexed.into_closed()).count()),
        _ => None,
    }
}

#[test]
fn lists_are_those_of_plans(rt: HostRuntime) {
    let alloc = rt.alloc();
    let plan = plan(&rt, alloc, origin(&rt, alloc, 5, None));
    let closed = Closed::of(alloc, &plan, 7).expect(&rt, "memory");
    assert_eq!(rt; closed.load(), 7);
    assert_eq!(rt;
        closed.into_bounds().as_slice(),
        [bound(0, 0, Label::empty())].as_slice()
    );
}
