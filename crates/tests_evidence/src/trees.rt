// Strategies as trees.
use crate::fixtures::{branch, names, plan};
use cstn_exec::Executive;
use cstn_outline::{print, read};
use cstn_tree::{TreeAnswer, check, make};
use std::alloc::{AllocError, Global};
use std::process::Abort;

const NAMES: [&str; 3] = ["Z", "P", "X"];

const TREE: &str = "yes 5\nat 0 Z P\nask p\nat 10 X\ndone\nat 1 X\ndone\n";

// The text is read as a tree that is printed as the same text, and whose check for the network `branch` gives this answer.
fn checked(rt: &impl Abort, alloc: Global, text: &str, answer: TreeAnswer) {
    let names = names(rt, alloc, &NAMES);
    let net = branch(rt, alloc);
    assert!(rt; net.count() == 3 && names.count() == 3);
    assert!(rt; text.len() < 100_000);
    let tree = read(alloc, &names, text.as_bytes()).expect(rt, text);
    assert_eq!(rt; check(alloc, &net, &tree).expect(rt, "memory"), answer);
    let printed = print(alloc, &tree, 5, &names).expect(rt, "memory");
    assert_eq!(rt; printed.as_str(), text);
}

// The text of a tree that has one branch, with this number of lines.
fn deep(alloc: Global, lines: u32) -> Result<String, AllocError> {
    let mut text = String::from_str(alloc, "yes 5\n")?;
    for _ in 1..lines {
        text.push_str("at 0 Z\n")?;
    }
    text.push_str("done\n")?;
    Ok(text)
}

#[test]
fn branches_of_2100_lines_are_read(rt: HostRuntime) {
    let text = deep(rt.alloc(), 2100).expect(&rt, "memory");
    checked(&rt, rt.alloc(), &text, TreeAnswer::Rejected { line: 3 });
}

fn executive(rt: &impl Abort, alloc: Global) -> Executive {
    let plan = plan(rt, alloc, branch(rt, alloc));
    Executive::start(alloc, plan).expect(rt, "memory")
}

// The text of the tree that is made with an executive of the network `branch`.
fn made(rt: &impl Abort, alloc: Global, exec: &mut Executive) -> String {
    let names = names(rt, alloc, &NAMES);
    assert!(rt; exec.network().count() == 3 && names.count() == 3);
    let tree = make(alloc, exec).expect(rt, "memory");
    assert_eq!(rt; tree.lines().len(), 6);
    print(alloc, &tree, 5, &names).expect(rt, "memory")
}

#[test]
fn trees_are_made_by_executives_that_are_restarted(rt: HostRuntime) {
    let mut exec = executive(&rt, rt.alloc());
    assert_eq!(rt; exec.moment(0), Ok(()));
    assert_eq!(rt; made(&rt, rt.alloc(), &mut exec).as_str(), TREE);
    assert_eq!(rt; exec.due(), Some(0));
}
