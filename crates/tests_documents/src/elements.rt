//! The data of an element.

use cstn_element::{Start, datum_of, read_element_data};
use cstn_markup::{Kind, Scanner, Token};
use std::alloc::Global;
use std::process::Abort;

// The scanner behind the start tag with which the text begins, and that tag.
fn started<'a>(rt: &impl Abort, text: &'a str) -> (Scanner<'a>, Start<'a>) {
    let mut scanner = Scanner::new(text.as_bytes());
    let Token { at, kind } = scanner.step();
    let Kind::Start {
        name,
        attributes,
        closed,
    } = kind
    else {
        panic!(rt; "no element: {text}");
    };
    let start = Start {
        at,
        name,
        attributes,
        closed,
    };
    (scanner, start)
}

// The element with which the text begins has this value under the key `k`.
fn expect_value(rt: &impl Abort, alloc: Global, text: &str, value: &[u8]) {
    let (mut scanner, start) = started(rt, text);
    let data = read_element_data(alloc, &mut scanner, &start, &[b"k"]).expect(rt, "data");
    let datum = datum_of(data.as_slice(), b"k").expect(rt, "a value");
    assert!(rt; datum.value() == value);
    drop(data);
}

// A text of 200,000 bytes, in two pieces with a comment between them.
#[test]
fn a_long_text(rt: HostRuntime) {
    let alloc = rt.alloc();
    let half = "0123456789".repeat(alloc, 10_000).expect(&rt, "memory");
    let text = format!(in alloc; "<n><data key=\"k\">{half}<!-- a comment -->{half}</data></n>");
    let text = text.expect(&rt, "memory");
    let whole = format!(in alloc; "{half}{half}").expect(&rt, "memory");
    expect_value(&rt, alloc, text.as_str(), whole.as_bytes());
    drop(whole);
    drop(text);
    drop(half);
}
