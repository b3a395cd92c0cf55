// The replay of a refutation, from the first step to the last.
ghost use Rattle.std.specs.Prelude.{ℕ, ◌≡◌, ◌↔◌, ◌⊎◌, map, IsTrue, IfSome, IfNone};
ghost use Rattle.cstn_net.specs.Read.{the_network};
ghost use Rattle.cstn_net.specs.Strategies.{IsConsistent};
ghost use Rattle.cstn_rules.specs.Derivations.{IsDerivation, IsRefutation};
ghost use Rattle.cstn_rules.specs.Read.{the_entry};
ghost use Rattle.cstn_refute.specs.Refutations.{AreSteps, the_steps};
ghost use Rattle.cstn_replay.specs.Wrong.{IsFirstWrong, EndsInVain};

use crate::answers::Answer;
use crate::steps::{follows, step_at};
use cstn_net::{Network, network_is_well_formed};
use cstn_refute::Refutation;
use cstn_rules::{Entry, conclusions_stay_within, derivations_are_sound, refutes};

/// Whether the steps are a refutation of the network. Then it has no strategy. The load isn't looked at.
///
/// Each step has to be the exact conclusion that its rule gives from a constraint of the network and earlier steps.
pub fn replay(net: &Network, r: &Refutation) -> Answer
    ensures accepted { (result ≡ Answer.Accepted) ↔ IsRefutation (the_network net.now) (the_steps r.now) }
    ensures truth { result ≡ Answer.Accepted → IsConsistent (the_network net.now) → ⊥ }
    ensures rejected { (k : ℕ) → (result ≡ Answer.Rejected k)
        ↔ (IsFirstWrong (the_network net.now) (the_steps r.now) k ⊎ EndsInVain (the_network net.now) (the_steps r.now) k) }
{
    derivations_are_sound();
    let steps = r.steps();
    network_is_well_formed(net);
    match first_wrong(net, steps) {
        Some(step) => Answer::Rejected { step },
        None => end(net, steps),
    }
}

// The answer where all steps follow.
fn end(net: &Network, steps: &[Entry]) -> Answer
    requires form { AreSteps steps.now }
    requires derivation { IsDerivation (the_network net.now) (map the_entry steps.now) }
    ensures accepted { (result ≡ Answer.Accepted) ↔ IsRefutation (the_network net.now) (map the_entry steps.now) }
    ensures rejected { (k : ℕ) → (result ≡ Answer.Rejected k) ↔ EndsInVain (the_network net.now) (map the_entry steps.now) k }
{
    if is_refuting(net, steps) {
        Answer::Accepted
    } else {
        Answer::Rejected {
            step: (steps.len() - 1) as u32,
        }
    }
}

// The place of the first step that doesn't follow.
fn first_wrong(net: &Network, steps: &[Entry]) -> Option<u32>
    requires form { AreSteps steps.now }
    ensures some { IfSome result (IsFirstWrong (the_network net.now) (map the_entry steps.now)) }
    ensures none { IfNone result (IsDerivation (the_network net.now) (map the_entry steps.now)) }
{
    for k in 0..steps.len() {
        if !follows(net, steps, k) {
            return Some(k as u32);
        }
    }
    None
}

// Whether the last step refutes the network.
fn is_refuting(net: &Network, steps: &[Entry]) -> bool
    requires form { AreSteps steps.now }
    requires derivation { IsDerivation (the_network net.now) (map the_entry steps.now) }
    ensures refuting { IsTrue result ↔ IsRefutation (the_network net.now) (map the_entry steps.now) }
{
    network_is_well_formed(net);
    conclusions_stay_within();
    let last = step_at(steps, steps.len() - 1);
    refutes(net, &last.bound)
}
