// Worked sessions in which a time-point can't be done before a moment.
use crate::fixtures::{CLINICAL, begun, begun_marked, ends, ends_marked, says, says_marked};
use cstn_reply::Outcome;

#[test]
fn a_part_comes_late(rt: HostRuntime) {
    let alloc = rt.alloc();
    let mut s = begun(&rt, alloc, CLINICAL, "yes 16\n");
    says(&rt, alloc, &mut s, "did 5 Sample", "yes 17\n");
    says(&rt, alloc, &mut s, "expect 80 Antibiotic", "yes 18\n");
    says(
        &rt,
        alloc,
        &mut s,
        "by",
        "by 95 Antibiotic\nby 125 Review\nby 360 Discharge\nend\n",
    );
    says(&rt, alloc, &mut s, "saw 45 i true", "yes 10\n");
    says(&rt, alloc, &mut s, "next", "next 80 do Antibiotic\n");
    says(&rt, alloc, &mut s, "did 112 Antibiotic", "no 4\n");
    says(&rt, alloc, &mut s, "forgive", "forgiven 2\n");
    says(&rt, alloc, &mut s, "expect 240 Review", "yes 7\n");
    says(
        &rt,
        alloc,
        &mut s,
        "by",
        "by 350 Review\nby 360 Discharge\nend\n",
    );
    says(&rt, alloc, &mut s, "did 235 Review", "yes 3\n");
    says(&rt, alloc, &mut s, "did 260 Discharge", "yes 1\n");
    says(&rt, alloc, &mut s, "by", "end\n");
    ends(&rt, alloc, s, Outcome::Good, "done\n");
}

#[test]
fn what_is_refused(rt: HostRuntime) {
    let alloc = rt.alloc();
    let mut s = begun(&rt, alloc, CLINICAL, "yes 16\n");
    says(
        &rt,
        alloc,
        &mut s,
        "expect 1000001 Nobody",
        "refused F2 1000001\n",
    );
    says(&rt, alloc, &mut s, "expect 3 Nobody", "refused F3 Nobody\n");
    says(&rt, alloc, &mut s, "expect 0 Z", "refused F4 Z 0\n");
    says(&rt, alloc, &mut s, "expect 3", "refused line 4\n");
    says(&rt, alloc, &mut s, "expect 3 Sample ", "refused line 5\n");
    says(&rt, alloc, &mut s, "expect 07 Sample", "refused line 6\n");
    says(&rt, alloc, &mut s, "expect 16 Sample", "no 9\n");
    says(&rt, alloc, &mut s, "blame", "blame 0\n");
    says(&rt, alloc, &mut s, "expect 0 Sample", "yes 16\n");
    says(&rt, alloc, &mut s, "did 5 Sample", "yes 17\n");
    says(&rt, alloc, &mut s, "saw 30 i false", "yes 6\n");
    says(
        &rt,
        alloc,
        &mut s,
        "expect 40 Antibiotic",
        "refused F5 Antibiotic\n",
    );
    says(
        &rt,
        alloc,
        &mut s,
        "expect 40 Sample",
        "refused F4 Sample 5\n",
    );
    ends(&rt, alloc, s, Outcome::Unfinished, "unfinished 30\n");
}

#[test]
fn what_a_late_part_would_do(rt: HostRuntime) {
    let alloc = rt.alloc();
    let mut s = begun_marked(&rt, alloc, CLINICAL, None);
    says_marked(&rt, alloc, &mut s, "did 5 Sample", "yes 17\n");
    says_marked(&rt, alloc, &mut s, "try expect 95 Antibiotic", "yes 18\n");
    says_marked(&rt, alloc, &mut s, "try expect 96 Antibiotic", "no 14\n");
    says_marked(&rt, alloc, &mut s, "by Antibiotic", "by 95 Antibiotic\n");
    says_marked(&rt, alloc, &mut s, "mark", "mark 1\n");
    says_marked(&rt, alloc, &mut s, "expect 96 Antibiotic", "no 14\n");
    says_marked(&rt, alloc, &mut s, "back", "back 0\n");
    says_marked(&rt, alloc, &mut s, "verdict", "yes 17\n");
    ends_marked(&rt, alloc, s, Outcome::Unfinished, "unfinished 5\n");
}
