// Replays of refutations.
use crate::fixtures::{late, names};
use cstn_net::Network;
use cstn_refute::Refutation;
use cstn_replay::{Answer, replay};
use std::alloc::Global;
use std::process::Abort;

// The text of the five steps that refute the network `late`.
const PROOF: &str =
    "no 7\n0 base Z 0 -\n1 chain 0 0 X 10 p\n2 chain 2 0 P 3 -\n3 wait 2 1 X 4 -\n4 chain 1 3 Z 1 !p\n";

// The text with Y, which is no time-point of the network, in place of Z in the first step.
const BASE_OF_Y: &str =
    "no 7\n0 base Y 0 -\n1 chain 0 0 X 10 p\n2 chain 2 0 P 3 -\n3 wait 2 1 X 4 -\n4 chain 1 3 Z 1 !p\n";

// The refutation of a text, made anew of its load and steps.
fn refutation(rt: &impl Abort, alloc: Global, text: &str) -> Refutation {
    let names = names(rt, alloc, &["Z", "P", "X", "Y"]);
    let r = Refutation::read(alloc, &names, text.as_bytes()).expect(rt, text);
    let steps = r.steps().to_vec(alloc).expect(rt, "memory");
    Refutation::new(r.load(), steps)
}

// The replay of the text's steps on the network gives this answer.
fn answers(rt: &impl Abort, alloc: Global, net: &Network, text: &str, answer: Answer) {
    assert_eq!(rt; replay(net, &refutation(rt, alloc, text)), answer);
}

#[test]
fn proofs_are_answered(rt: HostRuntime) {
    let alloc = rt.alloc();
    let mut net = late(&rt, alloc);
    answers(&rt, alloc, &net, PROOF, Answer::Accepted);
    answers(&rt, alloc, &net, BASE_OF_Y, Answer::Rejected { step: 0 });
    assert!(rt; net.take_out(1).is_some());
    answers(&rt, alloc, &net, PROOF, Answer::Rejected { step: 4 });
}
