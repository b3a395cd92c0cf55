//! Names, labels, numbers and values as they stand in lines.

use cstn_label::NodeId;
use cstn_text::{
    NameError, NameKey, Names, cut_at, first_place, print_label, print_name, push_label,
    push_number, push_value, read_label, read_name,
};
use std::alloc::Global;
use std::process::Abort;

// Pushing the name gives it this number, or is refused.
fn expect_pushed(rt: &impl Abort, names: &mut Names, name: &str, number: Option<u32>) {
    assert!(rt; names.count() < 1000);
    assert!(rt; names.push(name).ok() == number, "{name}");
}

fn expect_twice(rt: &impl Abort, names: &mut Names, name: &str) {
    assert!(rt; names.count() < 1000);
    assert!(rt; matches!(names.push(name), Err(NameError::Twice)));
}

fn expect_no_shape(rt: &impl Abort, names: &mut Names, name: &str) {
    assert!(rt; names.count() < 1000);
    assert!(rt; matches!(names.push(name), Err(NameError::Shape)));
}

#[test]
fn names_are_numbered_in_order(rt: HostRuntime) {
    let mut names = Names::new(rt.alloc(), NameKey::new(b""));
    expect_pushed(&rt, &mut names, "Z", Some(0));
    expect_pushed(&rt, &mut names, "a b", Some(1));
    expect_twice(&rt, &mut names, "Z");
    expect_no_shape(&rt, &mut names, "");
    assert!(rt; names.count() == 2 && names.as_slice().len() == 2);
    assert!(rt; names.name(NodeId(1)) == "a b");
    assert!(rt; names.find("a b") == Some(1) && names.find("").is_none());
    assert!(rt; names.find_printed(b"a%20b") == Some(1));
    assert!(rt; names.find_printed(b"%5A").is_none());
}

// `%`, 64 times, and its printed form.
const PERCENTS: &str = "%%%%%%%%%%%%%%%%%%%%%%%%%%%%%%%%%%%%%%%%%%%%%%%%%%%%%%%%%%%%%%%%";

const PRINTED_PERCENTS: &str = concat!(
    "%25%25%25%25%25%25%25%25%25%25%25%25%25%25%25%25%25%25%25%25%25%25%25%25%25%25%25%25%25%25%25%25",
    "%25%25%25%25%25%25%25%25%25%25%25%25%25%25%25%25%25%25%25%25%25%25%25%25%25%25%25%25%25%25%25%25",
);

// The name is printed as the text, which is read as the name.
fn expect_both(rt: &impl Abort, alloc: Global, row: &[&str; 2]) {
    let printed = print_name(alloc, row[0]).expect(rt, "memory");
    assert!(rt; printed.as_str() == row[1]);
    let name = read_name(alloc, row[1].as_bytes()).expect(rt, "memory");
    assert!(rt; name.as_deref() == Some(row[0]));
    drop(name);
    drop(printed);
}

const NAMES: [[&str; 2]; 5] = [
    ["Z", "Z"],
    ["a b", "a%20b"],
    ["100%", "100%25"],
    ["\u{7F}\0/é", "%7F%00/é"],
    [PERCENTS, PRINTED_PERCENTS],
];

#[test]
fn names_are_printed_and_read(rt: HostRuntime) {
    for row in &NAMES {
        expect_both(&rt, rt.alloc(), row);
    }
}

fn expect_no_name(rt: &impl Abort, alloc: Global, text: &[u8]) {
    let found = read_name(alloc, text).expect(rt, "memory");
    assert!(rt; found.is_none());
    drop(found);
}

#[test]
fn texts_that_are_no_names(rt: HostRuntime) {
    let alloc = rt.alloc();
    let long = format!(in alloc; "{PRINTED_PERCENTS}%25").expect(&rt, "memory");
    for text in [
        b"" as &[u8],
        b"%2f",
        b"%2F",
        b"%41",
        b"a b",
        b"%",
        b"%2",
        b"%C3%A9",
        b"\xFF",
        &[b'a'; 65],
        long.as_bytes(),
    ] {
        expect_no_name(&rt, alloc, text);
    }
    drop(long);
}

// The text is read as a label, which is printed as the other text.
fn expect_label(rt: &impl Abort, alloc: Global, row: &[&str; 2]) {
    let label = read_label(row[0].as_bytes()).expect(rt, row[0]);
    let found = print_label(alloc, label).expect(rt, "memory");
    assert!(rt; found.as_str() == row[1]);
    drop(found);
}

const LABELS: [[&str; 2]; 5] = [
    ["-", "-"],
    ["!p!q", "!p!q"],
    ["?pq", "?pq"],
    ["qp", "pq"],
    ["z?aA", "A?az"],
];

#[test]
fn labels_are_printed_and_read(rt: HostRuntime) {
    for row in &LABELS {
        expect_label(&rt, rt.alloc(), row);
    }
}

#[test]
fn texts_grow(rt: HostRuntime) {
    let mut text = String::new(rt.alloc());
    let label = read_label(b"?q!p").expect(&rt, "a label");
    push_number(&mut text, 17).expect(&rt, "memory");
    text.push(' ').expect(&rt, "memory");
    push_value(&mut text, -5).expect(&rt, "memory");
    text.push(' ').expect(&rt, "memory");
    push_label(&mut text, label).expect(&rt, "memory");
    assert!(rt; text.as_str() == "17 -5 !p?q");
    drop(text);
}

#[test]
fn texts_are_cut(rt: HostRuntime) {
    let text = b"17 -5 !p?q";
    assert!(rt; first_place(text, b' ') == Some(2));
    let (front, rest) = cut_at(text, b' ').expect(&rt, "a space");
    assert!(rt; front == b"17".as_slice());
    assert!(rt; rest == b"-5 !p?q".as_slice());
    assert!(rt; cut_at(front, b' ').is_none());
}
