ghost use Rattle.std.specs.Prelude.{IsTrue, ◌↔◌};
ghost use Rattle.cstn_label.specs.Read.{the_bound};
ghost use Rattle.cstn_net.specs.Read.{the_network};
ghost use Rattle.cstn_rules.specs.Rules.{IsBoundOf};

use crate::fixtures::{
    Asked, bound, bound_of, branch, crossed, late_branch, pair, same, unknown_mark,
};
use cstn_label::Bound;
use cstn_net::Network;
use cstn_rules::{Tries, chain, refutes, wait};
use std::process::Abort;

// Whether the rules take the bound: it is at a time-point of the network, from 0 to its limit + 1.
fn is_bound_of(net: &Network, b: Bound) -> bool
    ensures { IsTrue result ↔ IsBoundOf (the_network net.now) (the_bound b) }
{
    b.node.0 < net.count() && 0 <= b.least && b.least <= net.limit(b.node) + 1
}

// The place of a constraint, a bound, and what chain gives of both.
struct Chained {
    place: usize,
    bound: Asked,
    gives: Option<Asked>,
}

// A bound at an observer, another one, and what wait gives of both.
struct Waited {
    seen: Asked,
    bound: Asked,
    gives: Option<Asked>,
}

const BRANCH_CHAINS: [Chained; 6] = [
    Chained {
        place: 0,
        bound: Asked {
            node: 0,
            least: 0,
            text: "-",
        },
        gives: Some(Asked {
            node: 2,
            least: 10,
            text: "p",
        }),
    },
    Chained {
        place: 0,
        bound: Asked {
            node: 2,
            least: 1,
            text: "-",
        },
        gives: None,
    },
    Chained {
        place: 1,
        bound: Asked {
            node: 2,
            least: 10,
            text: "p",
        },
        gives: None,
    },
    Chained {
        place: 1,
        bound: Asked {
            node: 2,
            least: 10,
            text: "?p",
        },
        gives: None,
    },
    Chained {
        place: 1,
        bound: Asked {
            node: 2,
            least: 10,
            text: "-",
        },
        gives: Some(Asked {
            node: 0,
            least: 1,
            text: "!p",
        }),
    },
    Chained {
        place: 1,
        bound: Asked {
            node: 2,
            least: 1,
            text: "-",
        },
        gives: Some(Asked {
            node: 0,
            least: -2,
            text: "!p",
        }),
    },
];

const BRANCH_WAITS: [Waited; 4] = [
    Waited {
        seen: Asked {
            node: 1,
            least: 0,
            text: "-",
        },
        bound: Asked {
            node: 2,
            least: 10,
            text: "p",
        },
        gives: Some(Asked {
            node: 2,
            least: 1,
            text: "-",
        }),
    },
    Waited {
        seen: Asked {
            node: 1,
            least: 0,
            text: "-",
        },
        bound: Asked {
            node: 2,
            least: 10,
            text: "?p",
        },
        gives: Some(Asked {
            node: 2,
            least: 1,
            text: "-",
        }),
    },
    Waited {
        seen: Asked {
            node: 0,
            least: 0,
            text: "-",
        },
        bound: Asked {
            node: 2,
            least: 10,
            text: "p",
        },
        gives: None,
    },
    Waited {
        seen: Asked {
            node: 1,
            least: 0,
            text: "-",
        },
        bound: Asked {
            node: 2,
            least: 1,
            text: "-",
        },
        gives: None,
    },
];

const LATE_CHAINS: [Chained; 2] = [
    Chained {
        place: 2,
        bound: Asked {
            node: 0,
            least: 0,
            text: "-",
        },
        gives: Some(Asked {
            node: 1,
            least: 3,
            text: "-",
        }),
    },
    Chained {
        place: 1,
        bound: Asked {
            node: 2,
            least: 4,
            text: "-",
        },
        gives: Some(Asked {
            node: 0,
            least: 1,
            text: "!p",
        }),
    },
];

const LATE_WAITS: [Waited; 1] = [Waited {
    seen: Asked {
        node: 1,
        least: 3,
        text: "-",
    },
    bound: Asked {
        node: 2,
        least: 10,
        text: "p",
    },
    gives: Some(Asked {
        node: 2,
        least: 4,
        text: "-",
    }),
}];

const UNKNOWN_CHAINS: [Chained; 2] = [
    Chained {
        place: 3,
        bound: Asked {
            node: 3,
            least: 8,
            text: "?p",
        },
        gives: None,
    },
    Chained {
        place: 3,
        bound: Asked {
            node: 3,
            least: 8,
            text: "-",
        },
        gives: Some(Asked {
            node: 0,
            least: 1,
            text: "!p!q",
        }),
    },
];

const UNKNOWN_WAITS: [Waited; 3] = [
    Waited {
        seen: Asked {
            node: 2,
            least: 7,
            text: "!p",
        },
        bound: Asked {
            node: 3,
            least: 9,
            text: "pq",
        },
        gives: Some(Asked {
            node: 3,
            least: 8,
            text: "?p",
        }),
    },
    Waited {
        seen: Asked {
            node: 1,
            least: 7,
            text: "-",
        },
        bound: Asked {
            node: 3,
            least: 8,
            text: "?p",
        },
        gives: Some(Asked {
            node: 3,
            least: 8,
            text: "-",
        }),
    },
    Waited {
        seen: Asked {
            node: 2,
            least: 7,
            text: "-",
        },
        bound: Asked {
            node: 3,
            least: 9,
            text: "pq",
        },
        gives: Some(Asked {
            node: 3,
            least: 8,
            text: "p",
        }),
    },
];

const CROSSED_WAITS: [Waited; 3] = [
    Waited {
        seen: Asked {
            node: 2,
            least: 0,
            text: "-",
        },
        bound: Asked {
            node: 1,
            least: 5,
            text: "q",
        },
        gives: Some(Asked {
            node: 1,
            least: 1,
            text: "-",
        }),
    },
    Waited {
        seen: Asked {
            node: 1,
            least: 5,
            text: "q",
        },
        bound: Asked {
            node: 2,
            least: 5,
            text: "p",
        },
        gives: Some(Asked {
            node: 2,
            least: 5,
            text: "-",
        }),
    },
    Waited {
        seen: Asked {
            node: 2,
            least: 5,
            text: "-",
        },
        bound: Asked {
            node: 1,
            least: 5,
            text: "q",
        },
        gives: Some(Asked {
            node: 1,
            least: 5,
            text: "-",
        }),
    },
];

// The conclusion of chain from the constraint at `place` and b.
fn chains(rt: &impl Abort, net: &Network, place: usize, b: Bound, want: Option<Bound>) {
    assert!(rt; place < net.constraints().len() && is_bound_of(net, b));
    let got = chain(net, &net.constraints()[place], &b, &mut Tries { count: 0 });
    same(rt, (place, b), got, want);
}

// The conclusion of wait from `seen`, at the observer, and b.
fn waits(rt: &impl Abort, net: &Network, seen: Bound, b: Bound, want: Option<Bound>) {
    assert!(rt; is_bound_of(net, seen) && is_bound_of(net, b));
    let got = wait(net, &seen, &b, &mut Tries { count: 0 });
    same(rt, (seen, b), got, want);
}

// What the rules give of each row.
fn follows(rt: &impl Abort, net: &Network, chained: &[Chained], waited: &[Waited]) {
    for row in chained {
        chains(rt, net, row.place, bound_of(&row.bound), given(&row.gives));
    }
    for row in waited {
        waits(
            rt,
            net,
            bound_of(&row.seen),
            bound_of(&row.bound),
            given(&row.gives),
        );
    }
}

fn given(row: &Option<Asked>) -> Option<Bound> {
    match row {
        Some(row) => Some(bound_of(row)),
        None => None,
    }
}

fn is_refuted(rt: &impl Abort, net: &Network, b: Bound, is_refuted: bool) {
    assert!(rt; b.node.0 < net.count());
    same(rt, b, refutes(net, &b), is_refuted);
}

#[test]
fn bounds_follow_on_the_branch(rt: HostRuntime) {
    let net = branch(&rt, rt.alloc(), 1);
    follows(&rt, &net, &BRANCH_CHAINS, &BRANCH_WAITS);
    is_refuted(&rt, &net, bound(2, 12, "-"), true);
    is_refuted(&rt, &net, bound(0, 1, "!p"), true);
    is_refuted(&rt, &net, bound(0, 1, "?p"), false);
    is_refuted(&rt, &net, bound(2, 10, "p"), false);
}

#[test]
fn bounds_follow_from_a_late_observer(rt: HostRuntime) {
    let net = late_branch(&rt, rt.alloc(), -3);
    follows(&rt, &net, &LATE_CHAINS, &LATE_WAITS);
    is_refuted(&rt, &net, bound(0, 1, "!p"), true);
}

#[test]
fn bounds_follow_by_unknown_marks(rt: HostRuntime) {
    let net = unknown_mark(&rt, rt.alloc());
    follows(&rt, &net, &UNKNOWN_CHAINS, &UNKNOWN_WAITS);
}

#[test]
fn conclusions_lose_their_own_mark(rt: HostRuntime) {
    let net = crossed(&rt, rt.alloc(), 5);
    follows(&rt, &net, &[], &CROSSED_WAITS);
}

// Constraint 0 gives X this least value from b, which refutes the network where `is_late` is set, and only there.
fn asks(rt: &impl Abort, net: &Network, b: Bound, least: i32, is_late: bool) {
    let asked = bound(1, least, "-");
    chains(rt, net, 0, b, Some(asked));
    is_refuted(rt, net, asked, is_late);
}

#[test]
fn bounds_are_cut_above_the_limit(rt: HostRuntime) {
    for most in [-5, -9] {
        let net = pair(&rt, rt.alloc(), 4, 1, 0, most);
        asks(&rt, &net, bound(0, 0, "-"), 5, true);
    }
    let ring = pair(&rt, rt.alloc(), 3, 1, 1, -1);
    for (from, least) in [(0, 1), (1, 2), (2, 3), (3, 4)] {
        asks(&rt, &ring, bound(1, from, "-"), least, least == 4);
    }
}

// Where P is at `seen` and p is known after `reaction` ticks, X is at `least` or later, and so Z at `end`, which refutes
// above 0.
fn waits_for(rt: &impl Abort, net: &Network, seen: i32, least: i32, end: i32) {
    let late = bound(2, least, "-");
    let last = bound(0, end, "!p");
    waits(rt, net, bound(1, seen, "-"), bound(2, 10, "p"), Some(late));
    chains(rt, net, 1, late, Some(last));
    is_refuted(rt, net, last, 0 < end);
}

#[test]
fn bounds_wait_for_the_reaction(rt: HostRuntime) {
    for (reaction, seen, least, end) in [(1, 0, 1, -2), (2, 2, 4, 1), (3, 0, 3, 0), (4, 0, 4, 1)] {
        let net = branch(&rt, rt.alloc(), reaction);
        waits_for(&rt, &net, seen, least, end);
    }
}

#[test]
fn counting_stops_at_the_last_number(rt: HostRuntime) {
    let mut tries = Tries {
        count: u64::MAX - 1,
    };
    tries.add();
    same(&rt, "the last number", tries.count, u64::MAX);
    tries.add();
    same(&rt, "after the last number", tries.count, u64::MAX);
}
