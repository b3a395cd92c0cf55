// Refutations as texts.
use crate::fixtures::names;
use cstn_refute::Refutation;
use std::alloc::{AllocError, Global};
use std::process::Abort;

const TEXT: &str = "no 7\n0 base Z 0 -\n1 chain 0 0 X%20Y 10 p\n2 wait 9 1 X%20Y 4 ?p!q\n";

// The text is read, and what was read is printed as the other text.
fn printed(rt: &impl Abort, alloc: Global, text: &str, expected: &str) {
    let names = names(rt, alloc, &["Z", "P", "X Y"]);
    let r = Refutation::read(alloc, &names, text.as_bytes()).expect(rt, text);
    let found = r.print(alloc, &names).expect(rt, "memory");
    assert_eq!(rt; found.as_str(), expected);
}

fn two_thousand_steps(alloc: Global) -> Result<String, AllocError> {
    let mut text = String::from_str(alloc, "no 2000\n")?;
    for k in 0..2000 {
        let step = format!(in alloc; "{k} chain 4294967295 0 X%20Y 1000001 !pq\n")?;
        text.push_str(step.as_str())?;
    }
    Ok(text)
}

#[test]
fn texts_are_read_and_printed(rt: HostRuntime) {
    let alloc = rt.alloc();
    printed(&rt, alloc, TEXT, TEXT);
    printed(
        &rt,
        alloc,
        "no 1\n0 base P 0 q!p\n",
        "no 1\n0 base P 0 !pq\n",
    );
    let text = two_thousand_steps(alloc).expect(&rt, "memory");
    printed(&rt, alloc, &text, &text);
}
