// Worked sessions in which what was done has broken is forgiven.
use crate::fixtures::{CLINICAL, STROKE, begun, ends, says};
use cstn_reply::Outcome;

#[test]
fn a_late_step_is_forgiven(rt: HostRuntime) {
    let alloc = rt.alloc();
    let mut s = begun(&rt, alloc, CLINICAL, "yes 16\n");
    says(&rt, alloc, &mut s, "forgive", "forgiven\n");
    says(&rt, alloc, &mut s, "did 5 Sample", "yes 17\n");
    says(&rt, alloc, &mut s, "saw 45 i true", "yes 9\n");
    says(&rt, alloc, &mut s, "did 112 Antibiotic", "no 4\n");
    says(&rt, alloc, &mut s, "forgive 2", "refused line 5\n");
    says(&rt, alloc, &mut s, "forgive", "forgiven 2\n");
    says(&rt, alloc, &mut s, "verdict", "yes 6\n");
    says(&rt, alloc, &mut s, "forgive", "forgiven\n");
    says(&rt, alloc, &mut s, "remove 2", "refused S2 2\n");
    says(&rt, alloc, &mut s, "add Z Antibiotic 20 -", "added 8\n");
    says(&rt, alloc, &mut s, "add Z Sample 4 -", "added 9\n");
    says(&rt, alloc, &mut s, "add Z Sample 5 -", "added 10\n");
    says(&rt, alloc, &mut s, "forgive", "forgiven 8 9\n");
    says(&rt, alloc, &mut s, "did 235 Review", "yes 3\n");
    says(&rt, alloc, &mut s, "did 250 Discharge", "yes 1\n");
    says(&rt, alloc, &mut s, "forgive", "forgiven\n");
    ends(&rt, alloc, s, Outcome::Good, "done\n");
}

#[test]
fn what_is_still_to_be_kept(rt: HostRuntime) {
    let alloc = rt.alloc();
    let mut s = begun(&rt, alloc, STROKE, "yes 19\n");
    says(&rt, alloc, &mut s, "did 3 Scan Swallow", "no 7\n");
    says(&rt, alloc, &mut s, "forgive", "forgiven 4\n");
    says(&rt, alloc, &mut s, "did 70 Drip", "no 5\n");
    says(&rt, alloc, &mut s, "forgive", "forgiven 1 3\n");
    says(&rt, alloc, &mut s, "verdict", "no 8\n");
    says(&rt, alloc, &mut s, "blame", "blame 5\n");
    says(&rt, alloc, &mut s, "forgive", "forgiven\n");
    says(&rt, alloc, &mut s, "saw 71 b true", "no 7\n");
    ends(&rt, alloc, s, Outcome::Unfinished, "unfinished 71\n");
}
