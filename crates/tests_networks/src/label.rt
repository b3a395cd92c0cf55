use crate::fixtures::{Asked, P, Q, bound_of, label, same};
use cstn_label::{Known, Label, Mark, NodeId, Prop, Scenario};
use std::process::Abort;

const Z: Prop = Prop { index: 51 };

const NONE_TRUE: Scenario = Scenario { bits: 0 };

// Two labels, and the label that both make.
const JOINS: [[&str; 3]; 6] = [
    ["-", "p", "p"],
    ["p", "p", "p"],
    ["p", "!p", "?p"],
    ["?p", "p", "?p"],
    ["p", "q", "pq"],
    ["z", "!z", "?z"],
];

fn joins(rt: &impl Abort, row: &[&str; 3]) {
    same(rt, row[0], label(row[0]).join(label(row[1])), label(row[2]));
}

#[test]
fn labels_are_joined_mark_by_mark(rt: HostRuntime) {
    for row in &JOINS {
        joins(&rt, row);
    }
}

#[test]
fn marks_are_read_and_taken_off(rt: HostRuntime) {
    let both = label("pq");
    assert!(rt; both.mark(P) == Mark::Yes && both.mark(Q) == Mark::Yes);
    assert!(rt; label("z").mark(Z) == Mark::Yes);
    assert!(rt; both.without(Q) == label("p") && label("?z").without(Z) == label("-"));
    assert!(rt; both.is_plain() && label("!z").is_plain());
    assert!(rt; !label("?p").is_plain() && !label("?z").is_plain());
}

const WITHIN: [[&str; 2]; 5] = [
    ["-", "p"],
    ["p", "?p"],
    ["!p", "?p"],
    ["p", "pq"],
    ["!z", "?z"],
];

const NOT_WITHIN: [[&str; 2]; 4] = [["p", "-"], ["?p", "p"], ["p", "!p"], ["?z", "!z"]];

fn is_within(rt: &impl Abort, row: &[&str; 2], is_within: bool) {
    same(
        rt,
        row[0],
        label(row[0]).is_within(label(row[1])),
        is_within,
    );
}

#[test]
fn labels_are_within_what_marks_more(rt: HostRuntime) {
    for row in &WITHIN {
        is_within(&rt, row, true);
    }
    for row in &NOT_WITHIN {
        is_within(&rt, row, false);
    }
}

// Two bounds, of which the first dominates the second or doesn't.
struct Pair {
    one: Asked,
    other: Asked,
    dominates: bool,
}

const PAIRS: [Pair; 13] = [
    Pair {
        one: Asked {
            node: 1,
            least: 7,
            text: "-",
        },
        other: Asked {
            node: 1,
            least: 0,
            text: "-",
        },
        dominates: true,
    },
    Pair {
        one: Asked {
            node: 2,
            least: 7,
            text: "-",
        },
        other: Asked {
            node: 2,
            least: 7,
            text: "!p",
        },
        dominates: true,
    },
    Pair {
        one: Asked {
            node: 1,
            least: 8,
            text: "-",
        },
        other: Asked {
            node: 1,
            least: 8,
            text: "q",
        },
        dominates: true,
    },
    Pair {
        one: Asked {
            node: 1,
            least: 8,
            text: "-",
        },
        other: Asked {
            node: 1,
            least: 1,
            text: "p",
        },
        dominates: true,
    },
    Pair {
        one: Asked {
            node: 1,
            least: 8,
            text: "-",
        },
        other: Asked {
            node: 1,
            least: 8,
            text: "-",
        },
        dominates: true,
    },
    Pair {
        one: Asked {
            node: 1,
            least: 7,
            text: "-",
        },
        other: Asked {
            node: 1,
            least: 8,
            text: "-",
        },
        dominates: false,
    },
    Pair {
        one: Asked {
            node: 1,
            least: 10,
            text: "p",
        },
        other: Asked {
            node: 1,
            least: 1,
            text: "-",
        },
        dominates: false,
    },
    Pair {
        one: Asked {
            node: 1,
            least: 1,
            text: "-",
        },
        other: Asked {
            node: 1,
            least: 10,
            text: "p",
        },
        dominates: false,
    },
    Pair {
        one: Asked {
            node: 1,
            least: 8,
            text: "-",
        },
        other: Asked {
            node: 1,
            least: 8,
            text: "?p",
        },
        dominates: true,
    },
    Pair {
        one: Asked {
            node: 1,
            least: 8,
            text: "?p",
        },
        other: Asked {
            node: 1,
            least: 8,
            text: "p",
        },
        dominates: false,
    },
    Pair {
        one: Asked {
            node: 1,
            least: 8,
            text: "p",
        },
        other: Asked {
            node: 1,
            least: 8,
            text: "?p",
        },
        dominates: true,
    },
    Pair {
        one: Asked {
            node: 1,
            least: 5,
            text: "-",
        },
        other: Asked {
            node: 2,
            least: 5,
            text: "-",
        },
        dominates: false,
    },
    Pair {
        one: Asked {
            node: 1,
            least: 5,
            text: "z",
        },
        other: Asked {
            node: 1,
            least: 5,
            text: "-",
        },
        dominates: false,
    },
];

fn dominates(rt: &impl Abort, row: &Pair) {
    let one = bound_of(&row.one);
    same(rt, one, one.dominates(&bound_of(&row.other)), row.dominates);
}

#[test]
fn bounds_dominate_what_asks_for_less(rt: HostRuntime) {
    for row in &PAIRS {
        dominates(&rt, row);
    }
}

// With what is known the first labels are possible, and the others are not.
fn are_possible(rt: &impl Abort, known: Known, possible: &[&str], ruled_out: &[&str]) {
    for text in possible {
        same(rt, *text, label(text).possible(known), true);
    }
    for text in ruled_out {
        same(rt, *text, label(text).possible(known), false);
    }
}

#[test]
fn labels_are_ruled_out_by_what_is_known(rt: HostRuntime) {
    let nothing = Known::nothing();
    are_possible(&rt, nothing, &["?p"], &[]);
    are_possible(&rt, nothing.with(P, true), &["p", "q"], &["!p", "?p"]);
    are_possible(&rt, Known::of(1 << 41, NONE_TRUE), &["!p"], &["p", "?p"]);
    are_possible(&rt, nothing.with(P, false), &["!p"], &["p", "?p"]);
    are_possible(&rt, nothing.with(Z, false), &["!z"], &["z", "?z"]);
}

fn knows(rt: &impl Abort, known: Known, p: Prop, value: Option<bool>) {
    same(rt, (known, p), known.value(p), value);
}

#[test]
fn known_values_are_read(rt: HostRuntime) {
    let told = Known::nothing().with(P, false);
    knows(&rt, told, P, Some(false));
    knows(&rt, told.with(P, true), P, Some(true));
    knows(&rt, Known::nothing().with(P, true), P, Some(true));
    knows(&rt, Known::of(1 << 41, NONE_TRUE), Q, None);
    knows(&rt, Known::nothing().with(Z, false), Z, Some(false));
}

// In the scenario the first labels hold, and the others do not.
fn hold(rt: &impl Abort, s: Scenario, holding: &[&str], others: &[&str]) {
    for text in holding {
        holds(rt, s, text, true);
    }
    for text in others {
        holds(rt, s, text, false);
    }
}

fn holds(rt: &impl Abort, s: Scenario, text: &str, holds: bool) {
    let label = label(text);
    assert!(rt; label.is_plain());
    same(rt, text, label.holds(s), holds);
}

#[test]
fn labels_hold_where_their_literals_are_true(rt: HostRuntime) {
    let p_alone = NONE_TRUE.with(P, true);
    let z_alone = NONE_TRUE.with(Z, true);
    assert!(rt; p_alone.is_true(P) && !p_alone.is_true(Q));
    assert!(rt; z_alone.is_true(Z) && !z_alone.with(Z, false).is_true(Z));
    hold(&rt, p_alone, &["p!q", "-"], &["z"]);
    hold(&rt, p_alone.with(Q, true), &[], &["p!q"]);
    hold(&rt, z_alone, &["z"], &["!z"]);
}

#[test]
fn there_are_52_letters(rt: HostRuntime) {
    assert!(rt; Prop::from_letter(b'p') == Some(P) && Prop::from_letter(b'z') == Some(Z));
    assert!(rt; Prop::from_letter(b'Z') == Prop::new(25) && Prop::from_letter(b'[').is_none());
    assert!(rt; Z.letter() == b'z' && Prop::new(52).is_none());
}

#[test]
fn time_points_have_numbers(rt: HostRuntime) {
    assert!(rt; NodeId::from_number(65535) == Some(NodeId(65535)));
    assert!(rt; NodeId::from_number(65536).is_none());
    assert!(rt; NodeId(7).number() == 7 && NodeId(7).index() == 7);
}

#[test]
fn labels_are_walked_mark_by_mark(rt: HostRuntime) {
    let two = label("!p?z");
    for (from, p) in [(0, Some(P)), (41, Some(P)), (42, Some(Z)), (52, None)] {
        same(&rt, from, two.first_marked_from(from), p);
    }
    same(&rt, "-", Label::empty().first_marked_from(0), None);
}

#[test]
fn bits_above_51_mean_nothing(rt: HostRuntime) {
    let above = 1 << 52;
    assert!(rt; Scenario { bits: above } == NONE_TRUE);
    assert!(rt; Known::of(above, NONE_TRUE) == Known::nothing());
    assert!(rt; NONE_TRUE.with(Z, true) != NONE_TRUE);
    assert!(rt; Known::of(1, NONE_TRUE) != Known::nothing());
}
