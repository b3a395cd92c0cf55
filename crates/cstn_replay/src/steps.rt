// One step of a refutation, by its rule.
ghost use Rattle.std.specs.Prelude.{ℕ, ◌≡◌, ◌≢◌, ◌<◌, ◌↔◌, map, slice_get, length, Some, IsTrue, IfSome, IfNone};
ghost use Rattle.std.specs.List.{All, Contains};
ghost use Rattle.cstn_label.specs.Read.{the_bound};
ghost use Rattle.cstn_net.specs.Networks.{IsWellFormed};
ghost use Rattle.cstn_net.specs.Read.{the_network};
ghost use Rattle.cstn_rules.specs.declared.entries.Why.TheVariants.{Chain, Wait};
ghost use Rattle.cstn_rules.specs.Rules.{IsBase, IsBoundOf, base};
ghost use Rattle.cstn_rules.specs.Derivations.{IsEarlier, Follows};
ghost use Rattle.cstn_rules.specs.Read.{the_entry};
ghost use Rattle.cstn_refute.specs.Refutations.{AreSteps};
ghost use Rattle.cstn_replay.specs.Wrong.{FollowsByItsRule, AreRightBefore};

use cstn_label::{Bound, Label, NodeId, labels_are_their_marks};
use cstn_net::{Constraint, Network, network_is_well_formed};
use cstn_rules::{
    Entry, Tries, Why, chain, conclusions_stay_within, rules_have_one_conclusion, wait,
};

/// Whether the step at a place follows by its rule, where each step before it does.
pub(crate) fn follows(net: &Network, steps: &[Entry], k: usize) -> bool
    requires form { AreSteps steps.now }
    requires inside { k < length steps.now }
    requires before { AreRightBefore (the_network net.now) (map the_entry steps.now) k }
    ensures follows { IsTrue result ↔ FollowsByItsRule (the_network net.now) (map the_entry steps.now) k }
{
    let step = step_at(steps, k);
    is_given(net, steps, k, step.why, step.bound)
}

/// The step at a place.
pub(crate) fn step_at(steps: &[Entry], k: usize) -> Entry
    requires inside { k < length steps.now }
    ensures step { slice_get steps.now k ≡ Some result }
{
    steps[k]
}

// Whether the rule gives the bound from steps before the place k.
fn is_given(net: &Network, steps: &[Entry], k: usize, why: Why, bound: Bound) -> bool
    requires form { AreSteps steps.now }
    requires inside { k < length steps.now }
    requires before { AreRightBefore (the_network net.now) (map the_entry steps.now) k }
    ensures given { IsTrue result ↔ Follows (the_network net.now) (map the_entry steps.now) k why (the_bound bound) }
{
    match why {
        Why::Base => is_base(net, bound),
        Why::Chain {
            constraint,
            premise,
        } => is_chained(net, steps, k, constraint, premise, bound),
        Why::Wait { seen, premise } => is_awaited(net, steps, k, seen, premise, bound),
    }
}

// Whether the bound is the base of a time-point of the network.
fn is_base(net: &Network, bound: Bound) -> bool
    ensures base { IsTrue result ↔ IsBase (the_network net.now) (the_bound bound) }
{
    labels_are_their_marks();
    bound.node.0 < net.count() && are_same(base(bound.node), bound)
}

fn base(x: NodeId) -> Bound
    ensures base { the_bound result ≡ base x.0 }
{
    Bound {
        node: x,
        least: 0,
        label: Label::empty(),
    }
}

// Whether chain gives the bound from the constraint of an id and the step at the place i.
fn is_chained(net: &Network, steps: &[Entry], k: usize, id: u32, i: u32, bound: Bound) -> bool
    requires form { AreSteps steps.now }
    requires inside { k < length steps.now }
    requires before { AreRightBefore (the_network net.now) (map the_entry steps.now) k }
    ensures chained { IsTrue result ↔ Follows (the_network net.now) (map the_entry steps.now) k (Chain id i) (the_bound bound) }
{
    network_is_well_formed(net);
    labels_are_their_marks();
    rules_have_one_conclusion();
    let Some(constraint) = constraint_of(net, id) else {
        return false;
    };
    let Some(premise) = premise(net, steps, k, i) else {
        return false;
    };
    let mut tries = Tries { count: 0 };
    let given = chain(net, constraint, &premise, &mut tries);
    is_exactly(given, bound)
}

// Whether wait gives the bound from the steps at the places i and j.
fn is_awaited(net: &Network, steps: &[Entry], k: usize, i: u32, j: u32, bound: Bound) -> bool
    requires form { AreSteps steps.now }
    requires inside { k < length steps.now }
    requires before { AreRightBefore (the_network net.now) (map the_entry steps.now) k }
    ensures awaited { IsTrue result ↔ Follows (the_network net.now) (map the_entry steps.now) k (Wait i j) (the_bound bound) }
{
    labels_are_their_marks();
    rules_have_one_conclusion();
    let Some(seen) = premise(net, steps, k, i) else {
        return false;
    };
    let Some(premise) = premise(net, steps, k, j) else {
        return false;
    };
    let mut tries = Tries { count: 0 };
    let given = wait(net, &seen, &premise, &mut tries);
    is_exactly(given, bound)
}

// Whether the conclusion, if there is one, is the bound.
fn is_exactly(conclusion: Option<Bound>, bound: Bound) -> bool
    ensures exactly { IsTrue result ↔ (conclusion ≡ Some bound) }
{
    match conclusion {
        Some(given) => are_same(given, bound),
        None => false,
    }
}

fn are_same(a: Bound, b: Bound) -> bool
    ensures same { IsTrue result ↔ (a ≡ b) }
{
    labels_are_their_marks();
    a == b
}

// The bound of the step at the place i, if that is before the place k.
fn premise(net: &Network, steps: &[Entry], k: usize, i: u32) -> Option<Bound>
    requires form { AreSteps steps.now }
    requires inside { k < length steps.now }
    requires before { AreRightBefore (the_network net.now) (map the_entry steps.now) k }
    ensures earlier { IfSome result (λ b. IsEarlier (map the_entry steps.now) k i (the_bound b)) }
    ensures range { IfSome result (λ b. IsBoundOf (the_network net.now) (the_bound b)) }
    ensures none { IfNone result (i < k → ⊥) }
{
    network_is_well_formed(net);
    conclusions_stay_within();
    if i as usize >= k {
        return None;
    }
    let step = step_at(steps, i as usize);
    Some(step.bound)
}

// The constraint that has the id, if there is one.
fn constraint_of(net: &Network, id: u32) -> Option<&Constraint>
    ensures there { IfSome result (λ c. Contains net.now.constraints c.now) }
    ensures id { IfSome result (λ c. c.now.id ≡ id) }
    ensures none { IfNone result (All (λ c. c.id ≢ id) net.now.constraints) }
{
    let constraints = net.constraints();
    match constraints.binary_search_by_key(&id, |c| c.id) {
        Ok(at) => Some(&constraints[at]),
        Err(_) => None,
    }
}
