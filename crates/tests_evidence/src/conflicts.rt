// Conflict sets.
use crate::fixtures::twice;
use cstn_conflict::smallest;
use cstn_log::Cap;

// Of two constraints the one with the id 1 is left, which is blamed by a log of three entries.
#[test]
fn ids_with_gaps_are_kept(rt: HostRuntime) {
    let mut net = twice(&rt, rt.alloc());
    assert!(rt; net.take_out(0).is_some());
    let conflict = smallest(rt.alloc(), net, Cap { entries: 100 }).expect(&rt, "a conflict");
    assert_eq!(rt; conflict.ids.as_slice(), [1].as_slice());
    assert_eq!(rt; conflict.refutation.load(), 3);
}
