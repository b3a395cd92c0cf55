// Each plan is dropped by a call, since a drop at the end of a function is proved as a part of it.
ghost use Rattle.std.specs.Prelude.{◌≡◌, ◌∷◌, [], length};
ghost use Rattle.cstn_label.specs.Read.{the_bound};
ghost use Rattle.cstn_net.specs.Networks.{count};
ghost use Rattle.cstn_net.specs.Read.{the_network};
ghost use Rattle.cstn_rules.specs.Rules.{base};
ghost use Rattle.cstn_plan.specs.Plans.{the_bounds};

use crate::networks::alone;
use cstn_label::{Bound, Label, NodeId};
use cstn_net::Network;
use cstn_plan::{Plan, SoundPlan};
use std::alloc::Global;
use std::process::Abort;

fn base_of_origin() -> Bound
    ensures { the_bound result ≡ base 0 }
{
    Bound {
        node: NodeId(0),
        least: 0,
        label: Label::empty(),
    }
}

// The network that has its origin alone and no constraint.
fn origin(rt: &impl Abort, alloc: Global) -> Network
    ensures count { count (the_network result) ≡ 1 }
    ensures constraints { result.constraints ≡ [] }
{
    let net = alone(rt, alloc, 5);
    assert!(rt; net.count() == 1 && net.constraints().is_empty());
    net
}

// The bounds of a plan for it.
fn bounds_of_origin(rt: &impl Abort, alloc: Global) -> Vec<Bound>
    ensures { the_bounds result.items ≡ base 0 ∷ [] }
{
    let mut bounds = Vec::with_capacity(alloc, 1).expect(rt, "memory");
    bounds.push(base_of_origin()).expect(rt, "memory");
    bounds
}

fn is_origin(rt: &impl Abort, net: &Network) {
    assert!(rt; net.deadline() == 5 && net.count() == 1);
}

fn is_origin_plan(rt: &impl Abort, plan: &SoundPlan) {
    is_origin(rt, plan.network());
    assert!(rt; plan.count() == 1);
    assert!(rt; plan.bound(0) == base_of_origin());
}

#[test]
fn the_sound_plan_of_the_origin(rt: HostRuntime) {
    let plan = SoundPlan::new(origin(&rt, rt.alloc()), bounds_of_origin(&rt, rt.alloc()));
    let copy = plan.copy(rt.alloc()).expect(&rt, "memory");
    is_origin_plan(&rt, &plan);
    is_origin_plan(&rt, &copy);
    drop(copy);
    drop(plan);
}

#[test]
fn the_plan_of_the_origin(rt: HostRuntime) {
    let plan = Plan::adopt(origin(&rt, rt.alloc()), bounds_of_origin(&rt, rt.alloc()));
    is_origin(&rt, plan.network());
    assert!(rt; plan.count() == 1);
    assert!(rt; plan.bound(0) == base_of_origin());
    drop(plan);
}
