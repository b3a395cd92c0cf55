ghost use Rattle.std.specs.Prelude.{◌≤◌};

use crate::fixtures::{P, Q, draft, label, same};
use crate::plans::Step::{Due, Keeps, Names, Refuses, Rejects};
use crate::plans::{NOTHING, Nodes, Step, is_named, planned};
use cstn_exec::{ExecError, Guide};
use cstn_label::{Label, NodeId, Prop};
use cstn_lift::lift;
use cstn_net::{Builder, Network};
use std::alloc::Global;
use std::process::Abort;

const Z_AND_P: Nodes = (0, 2);

// A guide of the network with these labels.
fn guide(rt: &impl Abort, alloc: Global, net: Network, labels: &[Label]) -> Guide {
    let labels = Vec::from_slice(alloc, labels).expect(rt, "memory");
    assert!(rt; labels.len() == net.count() as usize);
    let (net, labels) = lift(alloc, net, labels).expect(rt, "labels").split();
    let plan = planned(rt, alloc, net, 4000);
    Guide::start(alloc, plan, labels).expect(rt, "memory")
}

// Z, P, which observes p with this reaction, and X, which has the label p and is at 5 or later.
fn treatment(rt: &impl Abort, alloc: Global, reaction: u32) -> Guide {
    let points = [None, Some(P), None];
    let mut net = draft(rt, alloc, 10, &points, &[(2, 0, -5, label("-"))]);
    net.react(1, reaction);
    let net = net.close().expect(rt, "a network");
    guide(rt, alloc, net, &[label("-"), label("-"), label("p")])
}

// Z, P, which observes p, Q, which has the label p and observes q with this reaction, and X, which is at 5 or later.
fn second_test(rt: &impl Abort, alloc: Global, reaction: u32) -> Guide {
    let points = [None, Some(P), Some(Q), None];
    let mut net = draft(rt, alloc, 10, &points, &[(3, 0, -5, label("-"))]);
    net.react(2, reaction);
    let net = net.close().expect(rt, "a network");
    guide(
        rt,
        alloc,
        net,
        &[label("-"), label("-"), label("p"), label("-")],
    )
}

fn play(rt: &impl Abort, guide: &mut Guide, step: Step) {
    match step {
        Due(due) => same(rt, step, guide.due(), due),
        Names(t, named) => {
            same(rt, step, guide.moment(t), Ok(()));
            is_named(rt, step, guide.named(), named);
        }
        Refuses(t, why) => same(rt, step, guide.moment(t), Err(why)),
        Keeps(p, value) => same(rt, step, guide.see(p, value), Ok(())),
        Rejects(p, value, why) => same(rt, step, guide.see(p, value), Err(why)),
    }
}

fn play_all(rt: &impl Abort, mut guide: Guide, steps: &[Step]) {
    for step in steps {
        play(rt, &mut guide, *step);
    }
}

#[test]
fn x_is_named_where_p_is_true(rt: HostRuntime) {
    let steps = [
        Due(Some(0)),
        Names(0, Z_AND_P),
        Keeps(P, true),
        Due(Some(5)),
        Names(5, (2, 3)),
        Due(None),
        Refuses(6, ExecError::Done),
    ];
    play_all(&rt, treatment(&rt, rt.alloc(), 1), &steps);
}

#[test]
fn nothing_waits_for_an_observer_that_is_left_out(rt: HostRuntime) {
    let unseen = ExecError::NotExecuted { prop: Q };
    let steps = [
        Names(0, Z_AND_P),
        Refuses(1, ExecError::Awaiting { prop: P }),
        Keeps(P, false),
        Names(1, NOTHING),
        Rejects(Q, true, unseen),
        Rejects(Q, false, unseen),
        Due(Some(5)),
        Names(5, (3, 4)),
        Due(None),
        Rejects(Q, true, unseen),
    ];
    play_all(&rt, second_test(&rt, rt.alloc(), 1), &steps);
}

// As many time-points as there may be: the origin, one that observes p, and others with the label p.
fn many(rt: &impl Abort, alloc: Global) -> Guide {
    let mut net = Builder::new(alloc, 10);
    net.node(None).expect(rt, "memory");
    net.node(Some(P)).expect(rt, "memory");
    for _ in 0..1022u32 {
        net.node(None).expect(rt, "memory");
    }
    let mut labels = [label("p"); 1024];
    labels[0] = label("-");
    labels[1] = label("-");
    guide(rt, alloc, net.close().expect(rt, "a network"), &labels)
}

#[test]
fn a_thousand_are_named_or_left_out(rt: HostRuntime) {
    let mut guide = many(&rt, rt.alloc());
    play(&rt, &mut guide, Names(0, Z_AND_P));
    play(&rt, &mut guide, Keeps(P, true));
    same(&rt, "moment 1", guide.moment(1), Ok(()));
    same(&rt, "named", guide.named().len(), 1022);
    same(&rt, "due", guide.due(), None);
}
