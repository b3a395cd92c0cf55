//! The words in which documents are refused, and a document at its limits.

use crate::fixtures::{PAIR, accepted};
use cstn_graphml::read;
use std::alloc::Global;
use std::process::Abort;

// What a graph holds, and the words in which its document is refused.
struct Refused {
    inside: &'static str,
    words: &'static str,
}

const REFUSED: [Refused; 14] = [
    Refused {
        inside: "<a><b></a></b>",
        words: "a token that isn't allowed at byte 22",
    },
    Refused {
        inside: "<node id=\"X\"/><node id=\"X\"/>",
        words: "the node at byte 30 has the id of an earlier one",
    },
    Refused {
        inside: "<node id=\"X\"/><edge source=\"X\" target=\"Z\"/><node id=\"Z\"/>",
        words: "the edge at byte 30 names no node before it",
    },
    Refused {
        inside: "<node id=\"\"/>",
        words: "a value that isn't of its form at byte 16",
    },
    Refused {
        inside: "<node id=\"X\"><data key=\"Obs\">1</data></node>",
        words: "a label that isn't of its form at byte 29",
    },
    Refused {
        inside: "<node id=\"Z\"/><edge source=\"Z\" target=\"Z\"><data key=\"Type\">contingent</data></edge>",
        words: "the type at byte 58 is contingent",
    },
    Refused {
        inside: "<node id=\"Z\"/><edge source=\"Z\" target=\"Z\"><data key=\"Type\">x</data></edge>",
        words: "no type of an edge at byte 58",
    },
    Refused {
        inside: "<node id=\"Z\"/><edge source=\"Z\" target=\"Z\"><data key=\"LabeledValues\">{(5, p)}</data></edge>",
        words: "no network: nothing observes the proposition p",
    },
    Refused {
        inside: "<node id=\"Z\"/><edge source=\"Z\" target=\"Z\"><data key=\"LabeledValues\">{(1000000001,)}</data></edge>",
        words: "no network: the value of constraint 0 is out of range",
    },
    Refused {
        inside: "<node id=\"P\"><data key=\"Obs\">p</data></node><node id=\"Z\"><data key=\"Obs\">p</data></node>",
        words: "no network: the time-points 0 and 1 observe the proposition p",
    },
    Refused {
        inside: "<node id=\"Z\"><data key=\"Label\">p</data></node>",
        words: "no labelled network: the origin has a label",
    },
    Refused {
        inside: "<node id=\"X\"><data key=\"Label\">r!q</data></node>",
        words: "no labelled network: nothing observes the proposition q, which the label of the time-point 1 names",
    },
    Refused {
        inside: concat!(
            "<node id=\"Z\"/><node id=\"P\"><data key=\"Obs\">p</data><data key=\"Label\">q</data></node>",
            "<node id=\"Q\"><data key=\"Obs\">q</data><data key=\"Label\">p</data></node>",
        ),
        words: "no labelled network: the time-point 1 would have to know what it observes itself",
    },
    Refused {
        inside: concat!(
            "<node id=\"P\"><data key=\"Obs\">p</data></node>",
            "<node id=\"Q\"><data key=\"Obs\">q</data><data key=\"Label\">p</data></node>",
            "<node id=\"X\"><data key=\"Label\">q!p</data></node>",
        ),
        words: "no labelled network: the time-point 3 is never executed",
    },
];

// The bytes are refused, in these words.
fn expect_refused(
    rt: &impl Abort,
    alloc: Global,
    bytes: &[u8],
    deadline: Option<u32>,
    words: &str,
) {
    let refusal = read(alloc, bytes, deadline).err().expect(rt, words);
    let told = format!(in alloc; "{refusal}").expect(rt, "memory");
    assert!(rt; told.as_str() == words, "{told}");
    drop(told);
    drop(refusal);
}

fn expect_row(rt: &impl Abort, alloc: Global, row: &Refused) {
    let inside = row.inside;
    let text = format!(in alloc; "<graphml><graph>{inside}</graph></graphml>");
    let text = text.expect(rt, "memory");
    expect_refused(rt, alloc, text.as_bytes(), Some(5), row.words);
    drop(text);
}

#[test]
fn refusals_are_told(rt: HostRuntime) {
    let alloc = rt.alloc();
    let late = "no network: the deadline 1000001 is above 1000000";
    for row in &REFUSED {
        expect_row(&rt, alloc, row);
    }
    expect_refused(&rt, alloc, b"\xff", Some(5), "no UTF-8 at byte 0");
    expect_refused(&rt, alloc, PAIR.as_bytes(), None, "no deadline");
    expect_refused(&rt, alloc, PAIR.as_bytes(), Some(1_000_001), late);
}

fn push(rt: &impl Abort, text: &mut String, piece: &str) {
    text.push_str(piece).expect(rt, "memory");
}

// A document of the origin, of `nodes` more time-points, and of one edge with `pairs` constraints.
fn large(rt: &impl Abort, alloc: Global, nodes: u32, pairs: u32) -> String {
    let mut text = String::new(alloc);
    push(rt, &mut text, "<graphml><graph><node id=\"Z\"/>");
    for n in 0..nodes {
        let node = format!(in alloc; "<node id=\"{n}\"/>").expect(rt, "memory");
        push(rt, &mut text, node.as_str());
    }
    push(
        rt,
        &mut text,
        "<edge source=\"Z\" target=\"Z\"><data key=\"LabeledValues\">{",
    );
    for _pair in 0..pairs {
        push(rt, &mut text, "(1,)");
    }
    push(rt, &mut text, "}</data></edge></graph></graphml>");
    text
}

#[test]
fn the_largest_document(rt: HostRuntime) {
    let text = large(&rt, rt.alloc(), 1023, 16384);
    let (labelled, names) = accepted(&rt, rt.alloc(), text.as_str(), Some(5));
    assert!(rt; labelled.base().count() == 1024 && names.count() == 1024);
    assert!(rt; labelled.base().constraints().len() == 16384);
    drop(names);
    drop(labelled);
    drop(text);
}
