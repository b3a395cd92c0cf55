// Worked sessions.
use crate::fixtures::{CLINICAL, STROKE, begun, ends, leaves, says};
use cstn_reply::Outcome;

#[test]
fn a_late_step_and_a_limit_given_up(rt: HostRuntime) {
    let alloc = rt.alloc();
    let mut s = begun(&rt, alloc, CLINICAL, "yes 16\n");
    says(&rt, alloc, &mut s, "did 5 Sample", "yes 17\n");
    says(&rt, alloc, &mut s, "next", "next 65 wait i\n");
    says(&rt, alloc, &mut s, "now 40", "yes 17\n");
    says(&rt, alloc, &mut s, "saw 45 i true", "yes 9\n");
    says(&rt, alloc, &mut s, "next", "next 70 do Antibiotic\n");
    says(&rt, alloc, &mut s, "by Antibiotic", "by 95 Antibiotic\n");
    says(&rt, alloc, &mut s, "did 112 Antibiotic", "no 4\n");
    says(
        &rt,
        alloc,
        &mut s,
        "check",
        "no 4\n0 base Z 0 -\n1 chain 0 0 Z 1 -\nend\n",
    );
    says(&rt, alloc, &mut s, "blame", "blame 2\n");
    says(&rt, alloc, &mut s, "remove 2", "removed 2\n");
    says(&rt, alloc, &mut s, "check", "yes 6\n");
    says(&rt, alloc, &mut s, "next", "next 232 do Review\n");
    says(&rt, alloc, &mut s, "did 235 Review", "yes 3\n");
    says(&rt, alloc, &mut s, "next", "next 245 do Discharge\n");
    says(&rt, alloc, &mut s, "did 250 Discharge", "yes 1\n");
    says(&rt, alloc, &mut s, "next", "done\n");
    ends(&rt, alloc, s, Outcome::Good, "done\n");
}

#[test]
fn refusals(rt: HostRuntime) {
    let alloc = rt.alloc();
    let mut s = begun(&rt, alloc, CLINICAL, "yes 16\n");
    says(&rt, alloc, &mut s, "did 3 Nobody", "refused F3 Nobody\n");
    says(&rt, alloc, &mut s, "now 5", "yes 21\n");
    says(&rt, alloc, &mut s, "now 4", "refused F1 5\n");
    says(
        &rt,
        alloc,
        &mut s,
        "did 5 Antibiotic",
        "refused F5 Antibiotic\n",
    );
    says(&rt, alloc, &mut s, "saw 5 i true", "refused F6 i\n");
    says(&rt, alloc, &mut s, "did 2 Sample", "yes 17\n");
    says(&rt, alloc, &mut s, "did 6 Sample", "refused F4 Sample 2\n");
    says(
        &rt,
        alloc,
        &mut s,
        "await 1000001 i",
        "refused F2 1000001\n",
    );
    says(&rt, alloc, &mut s, "saw 1 i false", "refused F2 1\n");
    says(&rt, alloc, &mut s, "saw 30 i false", "yes 6\n");
    says(&rt, alloc, &mut s, "saw 31 i false", "refused F7 i false\n");
    says(
        &rt,
        alloc,
        &mut s,
        "did 31 Antibiotic",
        "refused F5 Antibiotic\n",
    );
    says(
        &rt,
        alloc,
        &mut s,
        "add Discharge Review 100 i",
        "added 8\n",
    );
    says(&rt, alloc, &mut s, "add Discharge Z 1 q", "refused S5 q\n");
    says(&rt, alloc, &mut s, "now 1000001", "refused F2 1000001\n");
    says(&rt, alloc, &mut s, "remove 99", "refused S2 99\n");
    says(&rt, alloc, &mut s, "now 07", "refused line 17\n");
    ends(&rt, alloc, s, Outcome::Unfinished, "unfinished 30\n");
}

#[test]
fn a_late_result(rt: HostRuntime) {
    let alloc = rt.alloc();
    let mut s = begun(&rt, alloc, CLINICAL, "yes 16\n");
    let steps = "no 14\n0 base Sample 0 -\n1 chain 12 0 Antibiotic 130 i\n2 chain 1 1 Z 1 i\nend\n";
    says(&rt, alloc, &mut s, "did 10 Sample", "yes 17\n");
    says(&rt, alloc, &mut s, "await 100 i", "yes 19\n");
    says(&rt, alloc, &mut s, "next", "next 100 wait i\n");
    says(&rt, alloc, &mut s, "now 100", "yes 15\n");
    says(&rt, alloc, &mut s, "await 130 i", "no 14\n");
    says(&rt, alloc, &mut s, "check", steps);
    ends(&rt, alloc, s, Outcome::Unfinished, "unfinished 100\n");
}

#[test]
fn a_drip_that_is_late(rt: HostRuntime) {
    let alloc = rt.alloc();
    let mut s = begun(&rt, alloc, STROKE, "yes 19\n");
    says(&rt, alloc, &mut s, "did 0 Scan", "yes 19\n");
    says(&rt, alloc, &mut s, "saw 9 b false", "yes 10\n");
    says(&rt, alloc, &mut s, "next", "next 10 do Drip\n");
    says(&rt, alloc, &mut s, "did 17 Drip", "yes 7\n");
    says(&rt, alloc, &mut s, "next", "next 47 do Swallow\n");
    says(&rt, alloc, &mut s, "by Swallow", "by 180 Swallow\n");
    ends(&rt, alloc, s, Outcome::Unfinished, "unfinished 17\n");
}

#[test]
fn what_is_asked_after_a_no(rt: HostRuntime) {
    let alloc = rt.alloc();
    let mut s = begun(&rt, alloc, CLINICAL, "yes 16\n");
    leaves(&rt, alloc, &mut s, 5, 8);
    says(&rt, alloc, &mut s, "did 20 Sample", "no 6\n");
    says(&rt, alloc, &mut s, "next", "no 6\n");
    says(&rt, alloc, &mut s, "by Review", "no 6\n");
    says(&rt, alloc, &mut s, "by Sample", "refused F4 Sample 20\n");
    says(&rt, alloc, &mut s, "by Nobody", "refused F3 Nobody\n");
    says(
        &rt,
        alloc,
        &mut s,
        "did 130 Antibiotic Antibiotic",
        "refused F5 Antibiotic\n",
    );
    says(
        &rt,
        alloc,
        &mut s,
        "did 131 Review Review",
        "refused F4 Review 131\n",
    );
    says(&rt, alloc, &mut s, "blame", "blame 0\n");
    says(&rt, alloc, &mut s, "change 0 20", "changed 0\n");
    says(&rt, alloc, &mut s, "deadline 400", "deadline 400\n");
    says(&rt, alloc, &mut s, "deadline 1000001", "refused line 12\n");
    ends(&rt, alloc, s, Outcome::Unfinished, "unfinished 20\n");
}
