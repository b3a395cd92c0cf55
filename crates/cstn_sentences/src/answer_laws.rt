//! What holds of every plan. The call does nothing: its contract is the law.

ghost use Rattle.std.specs.Prelude.{ℕ, ◌≡◌, List, Option, Ok};
ghost use Rattle.cstn_net.specs.declared.errors.NetError.{NetError};
ghost use Rattle.cstn_lift.specs.declared.errors.LiftError.{LiftError};
ghost use Rattle.cstn_graphml.specs.Document.{Parts};
ghost use Rattle.cstn_graphml.specs.Networks.{IsHeld, IsFit, IsUnfit, IsMislabelled};
ghost use Rattle.cstn_sentences.specs.Held.{PlanCanBeHeld};
ghost use Rattle.cstn_sentences.specs.Planned.{PlanAnswer, IsPlanAnswer};
ghost use Rattle.cstn_sentences.specs.Plans.{plan};

use cstn_lift::{labels_without_a_lowest_fault_are_in_order, lowest_lift_fault_is_one};
use cstn_net::{builders_without_a_lowest_fault_make_networks, lowest_net_fault_is_one};

/// A plan has one answer: two answers for the same text and deadline are equal, and it can't be that there is none. Values of the
/// program can hold what it says, and then parts without a fault make a labelled network.
pub fn plans_have_one_answer()
    ensures one { (text : List ℕ) (deadline : Option ℕ) (a b : PlanAnswer) → IsPlanAnswer text deadline a → IsPlanAnswer text deadline b → a ≡ b }
    ensures some { (text : List ℕ) (deadline : Option ℕ) → ((a : PlanAnswer) → IsPlanAnswer text deadline a → ⊥) → ⊥ }
    ensures held { (text : List ℕ) (deadline : Option ℕ) → PlanCanBeHeld text deadline }
    ensures made { (text : List ℕ) (deadline : Option ℕ) (parts : Parts) → plan text deadline ≡ Ok parts → IsHeld parts
        → ((error : NetError) → IsUnfit parts error → ⊥) → ((error : LiftError) → IsMislabelled parts error → ⊥) → IsFit parts }
{
    builders_without_a_lowest_fault_make_networks();
    labels_without_a_lowest_fault_are_in_order();
    lowest_net_fault_is_one();
    lowest_lift_fault_is_one();
}
