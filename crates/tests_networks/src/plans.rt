// The plans that executives and guides carry out, and the steps of a run.
ghost use Rattle.std.specs.Prelude.{◌≡◌};

use crate::fixtures::same;
use cstn_check::{Check, Verdict};
use cstn_exec::ExecError;
use cstn_label::{NodeId, Prop};
use cstn_log::Cap;
use cstn_net::Network;
use cstn_plan::SoundPlan;
use std::alloc::Global;
use std::process::Abort;

/// The plan of a network that can be carried out, by a check whose log may have this many entries.
pub fn planned(rt: &impl Abort, alloc: Global, net: Network, entries: u32) -> SoundPlan
    ensures { result.net ≡ net }
{
    let cap = Cap::new(entries).expect(rt, "a cap");
    let mut check = Check::start(alloc, net, cap).expect(rt, "memory");
    let Verdict::Yes { .. } = check.run() else {
        panic!(rt; "a yes");
    };
    check.into_plan()
}

/// Time-points that are named: from the first number up to the second, and without it.
pub type Nodes = (usize, usize);

pub const NOTHING: Nodes = (0, 0);

/// A step of a run, with the answer that it is to have.
#[derive(Clone, Copy, Debug)]
pub enum Step {
    /// The question for the due moment.
    Due(Option<u32>),
    /// A moment that is accepted and names these time-points.
    Names(u32, Nodes),
    /// A moment that is refused.
    Refuses(u32, ExecError),
    /// An outcome that is kept.
    Keeps(Prop, bool),
    /// An outcome that is refused.
    Rejects(Prop, bool, ExecError),
}

/// Asserts that a step names these time-points.
pub fn is_named(rt: &impl Abort, step: Step, named: &[NodeId], nodes: Nodes) {
    let all = [NodeId(0), NodeId(1), NodeId(2), NodeId(3), NodeId(4)];
    same(rt, step, Some(named), all.get(nodes.0..nodes.1));
}
