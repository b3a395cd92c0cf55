// Worked sessions with further questions.
use crate::fixtures::{CLINICAL, NEEDLESS, ORIGIN, STROKE, begun, ends, says};
use cstn_reply::Outcome;

#[test]
fn how_late_it_may_be(rt: HostRuntime) {
    let alloc = rt.alloc();
    let mut s = begun(&rt, alloc, CLINICAL, "yes 16\n");
    says(&rt, alloc, &mut s, "until", "until 15\n");
    says(&rt, alloc, &mut s, "least", "least 195\n");
    says(&rt, alloc, &mut s, "late i", "refused F6 i\n");
    says(&rt, alloc, &mut s, "did 5 Sample", "yes 17\n");
    says(&rt, alloc, &mut s, "until", "until 95\n");
    says(&rt, alloc, &mut s, "late i", "late 95 i\n");
    says(&rt, alloc, &mut s, "by Review", "by 125 Review\n");
    says(&rt, alloc, &mut s, "raise 2", "yes 17\n");
    says(
        &rt,
        alloc,
        &mut s,
        "by",
        "by 95 Antibiotic\nby 125 Review\nby 360 Discharge\nend\n",
    );
    says(&rt, alloc, &mut s, "await 100 i", "no 14\n");
    says(&rt, alloc, &mut s, "until", "no 14\n");
    says(&rt, alloc, &mut s, "verdict", "no 14\n");
    says(&rt, alloc, &mut s, "by", "no 14\n");
    says(&rt, alloc, &mut s, "late i", "late 95 i\n");
    says(&rt, alloc, &mut s, "blame", "blame 2\n");
    says(&rt, alloc, &mut s, "raise 2", "raise 2 95\n");
    says(&rt, alloc, &mut s, "raise 4", "raise 4 none\n");
    says(&rt, alloc, &mut s, "raise 99", "refused S2 99\n");
    says(&rt, alloc, &mut s, "least", "least none\n");
    says(&rt, alloc, &mut s, "change 2 95", "changed 2\n");
    says(&rt, alloc, &mut s, "verdict", "yes 20\n");
    says(&rt, alloc, &mut s, "late i", "late 100 i\n");
    says(&rt, alloc, &mut s, "now 70", "yes 20\n");
    says(&rt, alloc, &mut s, "until", "until 100\n");
    says(&rt, alloc, &mut s, "late i", "late 100 i\n");
    says(&rt, alloc, &mut s, "saw 80 i true", "yes 10\n");
    says(&rt, alloc, &mut s, "late i", "refused F7 i true\n");
    says(&rt, alloc, &mut s, "by Antibiotic", "by 100 Antibiotic\n");
    says(&rt, alloc, &mut s, "did 90 Antibiotic", "yes 6\n");
    says(&rt, alloc, &mut s, "least", "least 220\n");
    says(&rt, alloc, &mut s, "deadline 220", "deadline 220\n");
    says(&rt, alloc, &mut s, "until", "until 210\n");
    says(&rt, alloc, &mut s, "did 210 Review", "yes 3\n");
    says(&rt, alloc, &mut s, "did 220 Discharge", "yes 1\n");
    says(&rt, alloc, &mut s, "until", "done\n");
    says(&rt, alloc, &mut s, "least", "least 220\n");
    says(&rt, alloc, &mut s, "by", "end\n");
    says(&rt, alloc, &mut s, "late", "refused line 38\n");
    ends(&rt, alloc, s, Outcome::Good, "done\n");
}

#[test]
fn a_stroke(rt: HostRuntime) {
    let alloc = rt.alloc();
    let mut s = begun(&rt, alloc, STROKE, "yes 19\n");
    says(&rt, alloc, &mut s, "least", "least 150\n");
    says(&rt, alloc, &mut s, "until", "until 25\n");
    says(&rt, alloc, &mut s, "did 3 Scan", "yes 20\n");
    says(&rt, alloc, &mut s, "late b", "late 1000000 b\n");
    says(&rt, alloc, &mut s, "await 50 b", "yes 19\n");
    says(&rt, alloc, &mut s, "by Drip", "by 60 Drip\n");
    says(&rt, alloc, &mut s, "until", "until 60\n");
    says(&rt, alloc, &mut s, "now 52", "yes 18\n");
    says(&rt, alloc, &mut s, "late b", "late 1000000 b\n");
    says(&rt, alloc, &mut s, "saw 52 b false", "yes 11\n");
    says(&rt, alloc, &mut s, "until", "until 60\n");
    says(&rt, alloc, &mut s, "did 65 Drip", "no 4\n");
    says(&rt, alloc, &mut s, "blame", "blame 1\n");
    says(&rt, alloc, &mut s, "raise 1", "raise 1 65\n");
    says(&rt, alloc, &mut s, "raise 2", "raise 2 none\n");
    says(&rt, alloc, &mut s, "least", "least none\n");
    says(&rt, alloc, &mut s, "change 1 65", "changed 1\n");
    says(&rt, alloc, &mut s, "did 100 Swallow", "yes 5\n");
    says(&rt, alloc, &mut s, "late s", "late 120 s\n");
    says(&rt, alloc, &mut s, "least", "least 160\n");
    says(&rt, alloc, &mut s, "saw 101 s false", "yes 3\n");
    says(&rt, alloc, &mut s, "did 160 Meal", "yes 1\n");
    says(&rt, alloc, &mut s, "until", "done\n");
    says(&rt, alloc, &mut s, "late s", "refused F7 s false\n");
    ends(&rt, alloc, s, Outcome::Good, "done\n");
}

#[test]
fn a_deadline_that_is_too_early(rt: HostRuntime) {
    let alloc = rt.alloc();
    let mut s = begun(&rt, alloc, CLINICAL, "yes 16\n");
    says(&rt, alloc, &mut s, "deadline 180", "deadline 180\n");
    says(&rt, alloc, &mut s, "verdict", "no 10\n");
    says(&rt, alloc, &mut s, "until", "no 10\n");
    says(&rt, alloc, &mut s, "raise 3", "raise 3 -105\n");
    says(&rt, alloc, &mut s, "raise 7", "raise 7 none\n");
    says(
        &rt,
        alloc,
        &mut s,
        "raise 4294967295",
        "refused S2 4294967295\n",
    );
    says(&rt, alloc, &mut s, "least", "least 195\n");
    says(&rt, alloc, &mut s, "deadline 195", "deadline 195\n");
    says(&rt, alloc, &mut s, "until", "until 0\n");
    says(&rt, alloc, &mut s, "raise", "refused line 10\n");
    says(&rt, alloc, &mut s, "raise 07", "refused line 11\n");
    says(&rt, alloc, &mut s, "raise 4294967296", "refused line 12\n");
    says(&rt, alloc, &mut s, "did 0 Sample", "yes 16\n");
    says(&rt, alloc, &mut s, "late i", "late 65 i\n");
    says(&rt, alloc, &mut s, "by Antibiotic", "by 65 Antibiotic\n");
    says(&rt, alloc, &mut s, "saw 30 i false", "yes 6\n");
    says(&rt, alloc, &mut s, "least", "least 90\n");
    ends(&rt, alloc, s, Outcome::Unfinished, "unfinished 30\n");
}

#[test]
fn the_origin_observes(rt: HostRuntime) {
    let alloc = rt.alloc();
    let mut s = begun(&rt, alloc, ORIGIN, "yes 3\n");
    says(&rt, alloc, &mut s, "late p", "late 1000 p\n");
    says(&rt, alloc, &mut s, "await 1000 p", "yes 3\n");
    says(&rt, alloc, &mut s, "await 1001 p", "refused F2 1001\n");
    says(&rt, alloc, &mut s, "now 1001", "yes 3\n");
    says(&rt, alloc, &mut s, "late p", "late 1000 p\n");
    says(&rt, alloc, &mut s, "until", "until 3000\n");
    says(&rt, alloc, &mut s, "next", "next 1001 wait p\n");
    says(&rt, alloc, &mut s, "least", "least 2000\n");
    says(&rt, alloc, &mut s, "deadline 1900", "deadline 1900\n");
    says(&rt, alloc, &mut s, "raise 0", "raise 0 none\n");
    says(&rt, alloc, &mut s, "raise 1", "raise 1 -1900\n");
    ends(&rt, alloc, s, Outcome::Unfinished, "unfinished 1001\n");
}

#[test]
fn an_outcome_that_nothing_needs(rt: HostRuntime) {
    let alloc = rt.alloc();
    let mut s = begun(&rt, alloc, NEEDLESS, "yes 4\n");
    says(&rt, alloc, &mut s, "did 2 X", "yes 4\n");
    says(&rt, alloc, &mut s, "await 5000 p", "yes 4\n");
    says(&rt, alloc, &mut s, "late p", "late 1000000 p\n");
    says(&rt, alloc, &mut s, "least", "least 9\n");
    says(&rt, alloc, &mut s, "until", "until 100\n");
    says(&rt, alloc, &mut s, "did 110 Y", "no 3\n");
    says(&rt, alloc, &mut s, "until", "no 3\n");
    says(&rt, alloc, &mut s, "least", "least 110\n");
    says(&rt, alloc, &mut s, "raise 0", "raise 0 none\n");
    says(&rt, alloc, &mut s, "late p", "late none p\n");
    says(&rt, alloc, &mut s, "deadline 110", "deadline 110\n");
    says(&rt, alloc, &mut s, "until", "until 1000000\n");
    says(&rt, alloc, &mut s, "late p", "late 1000000 p\n");
    ends(&rt, alloc, s, Outcome::Unfinished, "unfinished 110\n");
}
