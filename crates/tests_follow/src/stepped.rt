// Worked sessions in which a step comes in that the plan didn't have, and that are asked which plan it is.
use crate::fixtures::{
    CLINICAL, begun, begun_marked, ends, ends_marked, has_digest_of, says, says_marked,
};
use cstn_follow::digest_line;
use cstn_reply::Outcome;

#[test]
fn a_call_comes_in(rt: HostRuntime) {
    let alloc = rt.alloc();
    let mut s = begun(&rt, alloc, CLINICAL, "yes 16\n");
    says(&rt, alloc, &mut s, "did 5 Sample", "yes 17\n");
    says(&rt, alloc, &mut s, "saw 45 i true", "yes 9\n");
    says(&rt, alloc, &mut s, "did 112 Antibiotic", "no 4\n");
    says(&rt, alloc, &mut s, "forgive", "forgiven 2\n");
    says(&rt, alloc, &mut s, "step Review", "refused S8 Review\n");
    says(&rt, alloc, &mut s, "step Z", "refused F4 Z 0\n");
    says(
        &rt,
        alloc,
        &mut s,
        "step Antibiotic",
        "refused F4 Antibiotic 112\n",
    );
    says(&rt, alloc, &mut s, "step", "refused line 8\n");
    has_digest_of(&rt, alloc, &mut s, 5, 7);
    says(&rt, alloc, &mut s, "step Call", "step Call\n");
    has_digest_of(&rt, alloc, &mut s, 6, 7);
    says(&rt, alloc, &mut s, "next", "next 112 do Call\n");
    says(&rt, alloc, &mut s, "add Call Antibiotic -30 -", "added 8\n");
    says(&rt, alloc, &mut s, "expect 240 Review", "yes 9\n");
    says(
        &rt,
        alloc,
        &mut s,
        "by",
        "by 350 Review\nby 360 Discharge\nby 360 Call\nend\n",
    );
    says(&rt, alloc, &mut s, "did 142 Call", "yes 7\n");
    says(&rt, alloc, &mut s, "did 250 Review", "yes 3\n");
    says(&rt, alloc, &mut s, "did 260 Discharge", "yes 1\n");
    ends(&rt, alloc, s, Outcome::Good, "done\n");
}

#[test]
fn a_step_is_tried_and_taken_back(rt: HostRuntime) {
    let alloc = rt.alloc();
    let mut s = begun_marked(&rt, alloc, CLINICAL, None);
    says_marked(&rt, alloc, &mut s, "did 5 Sample", "yes 17\n");
    says_marked(
        &rt,
        alloc,
        &mut s,
        "try step Sample",
        "refused F4 Sample 5\n",
    );
    says_marked(&rt, alloc, &mut s, "by Call", "refused F3 Call\n");
    says_marked(&rt, alloc, &mut s, "mark", "mark 1\n");
    says_marked(&rt, alloc, &mut s, "step Call", "step Call\n");
    says_marked(&rt, alloc, &mut s, "by Call", "by 360 Call\n");
    says_marked(&rt, alloc, &mut s, "back", "back 0\n");
    says_marked(&rt, alloc, &mut s, "by Call", "refused F3 Call\n");
    ends_marked(&rt, alloc, s, Outcome::Unfinished, "unfinished 5\n");
}

#[test]
fn a_digest_has_64_digits(rt: HostRuntime) {
    let alloc = rt.alloc();
    let line = digest_line(alloc, b"abc").expect(&rt, "memory");
    let digits = "digest ba7816bf8f01cfea414140de5dae2223b00361a396177a9cb410ff61f20015ad\n";
    assert!(rt; line.as_slice() == digits.as_bytes());
    drop(line);
}
