//! What holds of every document. The calls do nothing: their contracts are the laws.

ghost use Rattle.std.specs.Prelude.{ℕ, ◌≡◌, ◌<◌, ◌≤◌, List, length, Option, Ok};
ghost use Rattle.cstn_net.specs.Limits.{most_constraints};
ghost use Rattle.cstn_net.specs.declared.errors.NetError.{NetError};
ghost use Rattle.cstn_net.specs.declared.errors.NetError.TheVariants.{TooManyConstraints};
ghost use Rattle.cstn_net.specs.Drafts.{net_number};
ghost use Rattle.cstn_net.specs.Networks.{IsWellFormed};
ghost use Rattle.cstn_graphml.specs.Document.{Parts, document};
ghost use Rattle.cstn_graphml.specs.Networks.{network_of, IsHeld, IsFit, IsUnfit, IsMislabelled};
ghost use Rattle.cstn_graphml.specs.Answers.{DocumentAnswer, IsAnswer, CanBeHeld};
ghost use Rattle.cstn_lift.specs.declared.errors.LiftError.{LiftError};

use cstn_lift::{labels_without_a_lowest_fault_are_in_order, lowest_lift_fault_is_one};
use cstn_net::{builders_without_a_lowest_fault_make_networks, lowest_net_fault_is_one};

/// Parts with more constraints than a network holds make no network, and the fault that is told is `TooManyConstraints` or one
/// with a lower number.
pub fn documents_past_the_limit_are_refused()
    ensures no_network { (parts : Parts) → most_constraints < length parts.constraints → IsWellFormed (network_of parts) → ⊥ }
    ensures told { (parts : Parts) (error : NetError) → most_constraints < length parts.constraints → IsUnfit parts error
        → net_number error ≤ net_number TooManyConstraints }
{}

/// A document has one answer: two answers for the same bytes and deadline are equal, and it can't be that there is none. Values
/// of the program can hold what it says, and then parts without a fault make a labelled network. Parts that make one, parts whose
/// network has a fault, and parts whose labels have one exclude each other, and the lowest fault is one.
pub fn documents_have_one_answer()
    ensures one { (bytes : List ℕ) (deadline : Option ℕ) (a b : DocumentAnswer) → IsAnswer bytes deadline a → IsAnswer bytes deadline b → a ≡ b }
    ensures some { (bytes : List ℕ) (deadline : Option ℕ) → ((a : DocumentAnswer) → IsAnswer bytes deadline a → ⊥) → ⊥ }
    ensures held { (bytes : List ℕ) (deadline : Option ℕ) → CanBeHeld bytes deadline }
    ensures made { (bytes : List ℕ) (deadline : Option ℕ) (parts : Parts) → document bytes deadline ≡ Ok parts → IsHeld parts
        → ((error : NetError) → IsUnfit parts error → ⊥) → ((error : LiftError) → IsMislabelled parts error → ⊥) → IsFit parts }
    ensures fit { (parts : Parts) (error : NetError) → IsFit parts → IsUnfit parts error → ⊥ }
    ensures labelled { (parts : Parts) (error : LiftError) → IsFit parts → IsMislabelled parts error → ⊥ }
    ensures either { (parts : Parts) (error : NetError) (fault : LiftError) → IsUnfit parts error → IsMislabelled parts fault → ⊥ }
    ensures unfit { (parts : Parts) (error other : NetError) → IsUnfit parts error → IsUnfit parts other → error ≡ other }
    ensures mislabelled { (parts : Parts) (error other : LiftError) → IsMislabelled parts error → IsMislabelled parts other → error ≡ other }
{
    builders_without_a_lowest_fault_make_networks();
    labels_without_a_lowest_fault_are_in_order();
    lowest_net_fault_is_one();
    lowest_lift_fault_is_one();
}
