// Plans by cases.
use crate::fixtures::{CLINICAL, STROKE};
use cstn_cases::cases_text;
use cstn_graphml::read;
use cstn_log::Cap;
use cstn_reply::Outcome;
use std::alloc::{AllocError, Global};
use std::process::Abort;

const CLINICAL_CASES: &str =
    "yes 16\nat 0 Z Sample\nask i\nat 65 Antibiotic\nat 185 Review\nat 195 Discharge\ndone\nat 80 Review\nat 90 Discharge\ndone\n";

const CLINICAL_REFUTED: &str =
    "no 14\n0 base Sample 0 -\n1 chain 1 0 Antibiotic 65 i\n2 chain 3 1 Review 185 i\n3 chain 6 2 Discharge 195 i\n";

const STROKE_CASES: &str = concat!(
    "yes 19\nat 0 Z Scan\nask b\nat 5 Drip\nat 90 Swallow\nask s\nat 91 Meal\ndone\nat 150 Meal\ndone\n",
    "at 10 Drip\nat 40 Swallow\nask s\nat 41 Meal\ndone\nat 100 Meal\ndone\n",
);

// A test that is made in some cases alone: Q is done where p is true, and X where q is false.
const SECOND: &str = concat!(
    "<graphml><graph><data key=\"Deadline\">50</data><node id=\"Z\"/>",
    "<node id=\"P\"><data key=\"Obs\">p</data></node>",
    "<node id=\"Q\"><data key=\"Obs\">q</data><data key=\"Label\">p</data><data key=\"Reaction\">3</data></node>",
    "<node id=\"X\"><data key=\"Label\">¬q</data></node>",
    "<edge source=\"X\" target=\"Q\"><data key=\"LabeledValues\">{(-7, ⊡)}</data></edge></graph></graphml>",
);

const SECOND_CASES: &str = "yes 12\nat 0 Z P\nask p\nat 1 Q\nask q\ndone\nat 8 X\ndone\ndone\n";

// What is said of a document, with this cap and deadline.
fn said(
    rt: &impl Abort,
    alloc: Global,
    document: &str,
    deadline: Option<u32>,
    cap: u32,
    outcome: Outcome,
    text: &str,
) {
    let (network, names) = read(alloc, document.as_bytes(), deadline).expect(rt, "a network");
    assert!(rt; names.count() == network.base().count() as u32);
    assert!(rt; 1 <= cap && cap <= 4_194_304);
    let said = cases_text(alloc, network, &names, Cap { entries: cap }).expect(rt, "memory");
    assert_eq!(rt; said.text.as_slice(), text.as_bytes());
    assert!(rt; said.outcome == outcome);
}

#[test]
fn a_pathway(rt: HostRuntime) {
    said(
        &rt,
        rt.alloc(),
        CLINICAL,
        None,
        65_536,
        Outcome::Good,
        CLINICAL_CASES,
    );
}

#[test]
fn a_pathway_that_is_too_long(rt: HostRuntime) {
    said(
        &rt,
        rt.alloc(),
        CLINICAL,
        Some(194),
        65_536,
        Outcome::Bad,
        CLINICAL_REFUTED,
    );
}

#[test]
fn a_pathway_with_a_low_cap(rt: HostRuntime) {
    said(
        &rt,
        rt.alloc(),
        CLINICAL,
        None,
        15,
        Outcome::Full,
        "full 15\n",
    );
}

#[test]
fn a_stroke(rt: HostRuntime) {
    said(
        &rt,
        rt.alloc(),
        STROKE,
        None,
        65_536,
        Outcome::Good,
        STROKE_CASES,
    );
}

#[test]
fn a_second_test(rt: HostRuntime) {
    said(
        &rt,
        rt.alloc(),
        SECOND,
        None,
        65_536,
        Outcome::Good,
        SECOND_CASES,
    );
}

// A document in which so many time-points observe, and only the first is tied to another.
fn wide(alloc: Global, observers: u8) -> Result<String, AllocError> {
    let mut text = String::from_str(
        alloc,
        "<graphml><graph><data key=\"Deadline\">50</data><node id=\"Z\"/>",
    )?;
    for k in 0..observers {
        let letter = char::from(b'a' + k % 26);
        text.push_str("<node id=\"O")?;
        text.push(letter)?;
        text.push_str("\"><data key=\"Obs\">")?;
        text.push(letter)?;
        text.push_str("</data></node>")?;
    }
    text.push_str(
        "<node id=\"X\"/><edge source=\"X\" target=\"Z\"><data key=\"LabeledValues\">{(-1, ⊡)}</data></edge></graph></graphml>",
    )?;
    Ok(text)
}

// How many lines are said of such a document.
fn lines_of_wide(rt: &impl Abort, alloc: Global, observers: u8) -> usize {
    let text = wide(alloc, observers).expect(rt, "memory");
    assert!(rt; text.len() < 100_000);
    let (network, names) = read(alloc, text.as_bytes(), None).expect(rt, "a network");
    assert!(rt; names.count() == network.base().count() as u32);
    let said = cases_text(alloc, network, &names, Cap { entries: 65_536 }).expect(rt, "memory");
    said.text.iter().filter(|b| **b == b'\n').count()
}

#[test]
fn as_many_cases_as_are_told(rt: HostRuntime) {
    assert_eq!(&rt; lines_of_wide(&rt, rt.alloc(), 16), 196_609);
}

#[test]
fn too_many_cases(rt: HostRuntime) {
    let text = wide(rt.alloc(), 17).expect(&rt, "memory");
    assert!(&rt; text.len() < 100_000);
    said(
        &rt,
        rt.alloc(),
        &text,
        None,
        65_536,
        Outcome::Wide,
        "wide 17\n",
    );
}
