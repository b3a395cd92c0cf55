//! The characters for references.

use cstn_markup::{Kind, Scanner, resolve};
use std::alloc::Global;
use std::process::Abort;

// A text, and the one that it becomes where its references are replaced by their characters.
struct Resolved {
    raw: &'static str,
    text: &'static str,
}

const RESOLVED: [Resolved; 4] = [
    Resolved {
        raw: "{(-5, p)}",
        text: "{(-5, p)}",
    },
    Resolved {
        raw: "&lt;&gt;&amp;&quot;&apos;&#65;&#x41;&#xac;",
        text: "<>&\"'AA¬",
    },
    Resolved {
        raw: "&amp;lt;",
        text: "&lt;",
    },
    Resolved {
        raw: "a&#9;b&#00000065;¬&#x10FFFF;",
        text: "a\tbA¬\u{10FFFF}",
    },
];

fn expect_resolved(rt: &impl Abort, alloc: Global, row: &Resolved) {
    let mut scanner = Scanner::new(row.raw.as_bytes());
    let Kind::Text { raw } = scanner.step().kind else {
        panic!(rt; "no text");
    };
    let found = resolve(alloc, raw).expect(rt, "memory");
    assert!(rt; found.as_slice() == row.text.as_bytes());
    drop(found);
}

#[test]
fn references_are_put_in(rt: HostRuntime) {
    for row in &RESOLVED {
        expect_resolved(&rt, rt.alloc(), row);
    }
}
