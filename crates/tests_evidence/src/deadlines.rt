// Least deadlines.
use crate::fixtures::{bound, pair};
use cstn_label::Label;
use cstn_log::Cap;
use cstn_tight::least;

#[test]
fn least_deadlines_are_found_below_a_million(rt: HostRuntime) {
    let net = pair(&rt, rt.alloc(), 1_000_000);
    let found = least(rt.alloc(), net, Cap::USUAL).expect(&rt, "a least deadline");
    assert_eq!(rt; found.deadline, 5);
    let bounds = [bound(0, 0, Label::empty()), bound(1, 5, Label::empty())];
    assert!(rt; found.closed.bounds() == bounds.as_slice());
    assert!(rt; found.refutation.is_some());
}
