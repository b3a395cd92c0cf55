use crate::fixtures::{P, branch, network, same};
use crate::plans::Step::{Due, Keeps, Names, Refuses, Rejects};
use crate::plans::{NOTHING, Nodes, Step, is_named, planned};
use cstn_exec::{ExecError, Executive};
use cstn_label::Prop;
use cstn_net::Network;
use std::alloc::Global;
use std::process::Abort;

const Z: Nodes = (0, 1);

const Z_AND_NEXT: Nodes = (0, 2);

const X: Nodes = (2, 3);

// An executive of a network that can be carried out.
fn started(rt: &impl Abort, alloc: Global, net: Network) -> Executive {
    let plan = planned(rt, alloc, net, 1000);
    Executive::start(alloc, plan).expect(rt, "memory")
}

fn play(rt: &impl Abort, run: &mut Executive, step: Step) {
    match step {
        Due(due) => same(rt, step, run.due(), due),
        Names(t, named) => {
            same(rt, step, run.can(t), None);
            same(rt, step, run.moment(t), Ok(()));
            is_named(rt, step, run.named(), named);
        }
        Refuses(t, why) => {
            same(rt, step, run.can(t), Some(why));
            same(rt, step, run.moment(t), Err(why));
        }
        Keeps(p, value) => same(rt, step, run.see(p, value), Ok(())),
        Rejects(p, value, why) => same(rt, step, run.see(p, value), Err(why)),
    }
}

fn play_all(rt: &impl Abort, run: &mut Executive, steps: &[Step]) {
    for step in steps {
        play(rt, run, *step);
    }
}

#[test]
fn the_origin_is_executed_at_once(rt: HostRuntime) {
    let a = Prop { index: 0 };
    let net = network(&rt, rt.alloc(), 5, &[None], &[]);
    let mut run = started(&rt, rt.alloc(), net);
    let steps = [
        Due(Some(0)),
        Rejects(a, true, ExecError::NotExecuted { prop: a }),
        Refuses(1, ExecError::Late { due: 0 }),
        Names(0, Z),
        Due(None),
        Refuses(1, ExecError::Done),
    ];
    play_all(&rt, &mut run, &steps);
    run.restart();
    same(&rt, "due again", run.due(), Some(0));
    same(&rt, "named", run.named().len(), 0);
    same(&rt, "deadline", run.network().deadline(), 5);
}

#[test]
fn the_branch_is_carried_out(rt: HostRuntime) {
    let known = ExecError::Known {
        prop: P,
        value: false,
    };
    let steps = [
        Rejects(P, true, ExecError::NotExecuted { prop: P }),
        Names(0, Z_AND_NEXT),
        Due(Some(1)),
        Refuses(0, ExecError::Past { now: 0 }),
        Refuses(1, ExecError::Awaiting { prop: P }),
        Keeps(P, false),
        Rejects(P, true, known),
        Refuses(2, ExecError::Late { due: 1 }),
        Names(1, X),
        Due(None),
        Refuses(2, ExecError::Done),
    ];
    let mut run = started(&rt, rt.alloc(), branch(&rt, rt.alloc(), 1));
    play_all(&rt, &mut run, &steps);
}
