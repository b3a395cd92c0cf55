//! What is written is read back. The calls do nothing: their contracts are the laws.

ghost use Rattle.std.specs.Prelude.{◌≡◌, ◌<◌, ◌≤◌, ◌^◌, ◌++◌, ◌∷◌, [], ℕ, ℤ, List, length, Some, None, Ok, FitsSigned, codes};
ghost use Rattle.std.specs.Int.{w32};
ghost use Rattle.cstn_label.specs.Labels.{Label, IsPlain, empty};
ghost use Rattle.cstn_label.specs.declared.marks.Mark.TheVariants.{Absent};
ghost use Rattle.cstn_text.specs.Numbers.{printed_number, printed_value};
ghost use Rattle.cstn_markup.specs.Bytes.{resolved};
ghost use Rattle.cstn_markup.specs.Tokens.{attribute_value_at};
ghost use Rattle.cstn_element.specs.NumberTexts.{short_number, integer_text};
ghost use Rattle.cstn_element.specs.LabelTexts.{label_of_text};
ghost use Rattle.cstn_element.specs.ValueTexts.{values_of};
ghost use Rattle.cstn_graphml.specs.Document.{document};
ghost use Rattle.cstn_net.specs.Networks.{IsWellFormed, Observes, count};
ghost use Rattle.cstn_lift.specs.Labelled.{Labelled, label_of as label_of_point};
ghost use Rattle.cstn_lift.specs.WellFormed.{IsLabelled};
ghost use Rattle.cstn_lift.specs.Faults.{HasLiftFault};
ghost use Rattle.cstn_lift.specs.Lowered.{lowered};
ghost use Rattle.cstn_net.specs.declared.errors.NetError.{NetError};
ghost use Rattle.cstn_save.specs.Canonical.{canonical, escaped_name, document_label};
ghost use Rattle.cstn_graphml.specs.Networks.{network_of, labelled_of, IsFit, IsUnfit, IsMislabelled};
ghost use Rattle.cstn_lift.specs.declared.errors.LiftError.{LiftError};
ghost use Rattle.cstn_save.specs.ReadBack.{parts, AreNumbered, AreSameButIds};
ghost use Rattle.cstn_save.specs.Names.{AreNamesOf};

use cstn_lift::labelled_networks_have_no_fault;

/// An escaped name between quotes is a value of an attribute, and putting its references in gives the name back.
#[tactic(auto, using(crate::proofs::EscapedNameLemmas::name_back, crate::proofs::EscapedNameLemmas::name_quoted))]
pub fn names_are_read_back()
    ensures back { (name : List ℕ) → resolved (escaped_name name) ≡ Some name }
    ensures quoted { (name rest : List ℕ) → attribute_value_at (34 ∷ (escaped_name name ++ 34 ∷ rest)) ≡ Some (escaped_name name, rest) }
{}

/// A deadline and the value of a constraint are read back. Deadlines are below 2^32.
#[tactic(auto, using(crate::proofs::NumberTextLemmas::deadline_back, crate::proofs::NumberTextLemmas::integer_back))]
pub fn numbers_are_read_back()
    ensures deadline { (n : ℕ) → n < 2 ^ 32 → short_number (2 ^ 32) (printed_number n) ≡ Some n }
    ensures value { (v : ℤ) → FitsSigned w32 v → integer_text (printed_value v) ≡ Some v }
{}

/// A label without an unknown mark is read back, alone and behind its value. The proposition numbers end at 51.
#[tactic(auto, using(crate::proofs::LabelTextLemmas::label_back, crate::proofs::ValueTextLemmas::values_back))]
pub fn values_are_read_back()
    ensures label { (a : Label) → IsPlain a → ((p : ℕ) → 52 ≤ p → a p ≡ Absent) → label_of_text (document_label a) ≡ Some a }
    ensures pair { (v : ℤ) (a : Label) → FitsSigned w32 v → IsPlain a → ((p : ℕ) → 52 ≤ p → a p ≡ Absent)
        → values_of (codes "{(" ++ printed_value v ++ codes ", " ++ document_label a ++ codes ")}") ≡ Some (record { most = v; label = Some a } ∷ []) }
{}

/// Reading the canonical document gives the same names, the same labels of time-points, and the same network with constraints
/// numbered from 0, and is accepted, whatever gaps the ids have. Where only the base network is known to be well-formed, the
/// network isn't refused, nor are labels that are all empty, nor labels without a fault of a network that is read back as it
/// is. It is the very same labelled network where the ids go from 0 up without a gap and each proposition that nothing observes
/// has a reaction of 1 tick.
#[tactic(auto, using(crate::proofs::LawLemmas::document_back, crate::proofs::SameLemmas::same_but_ids))]
pub fn documents_are_read_back()
    ensures back { (m : Labelled) (names : List (List ℕ)) → IsLabelled m → AreNamesOf m.base names → document (canonical m names) None ≡ Ok (parts m names) }
    ensures fit { (m : Labelled) (names : List (List ℕ)) → IsLabelled m → IsWellFormed (lowered m) → IsFit (parts m names) }
    ensures accepted { (m : Labelled) (names : List (List ℕ)) (error : NetError) → IsWellFormed m.base → IsUnfit (parts m names) error → ⊥ }
    ensures unlabelled { (m : Labelled) (names : List (List ℕ)) (error : LiftError) → IsWellFormed m.base → length m.labels ≡ count m.base
        → ((x : ℕ) → label_of_point m x ≡ empty) → IsMislabelled (parts m names) error → ⊥ }
    ensures labelled { (m : Labelled) (names : List (List ℕ)) (error : LiftError) → ((e : LiftError) → HasLiftFault m e → ⊥) → labelled_of (parts m names) ≡ m
        → IsMislabelled (parts m names) error → ⊥ }
    ensures same_but_ids { (m : Labelled) (names : List (List ℕ)) → AreSameButIds (network_of (parts m names)) m.base }
    ensures same { (m : Labelled) (names : List (List ℕ)) → ((p : ℕ) → ((x : ℕ) → Observes m.base x p → ⊥) → m.base.reaction p ≡ 1)
        → AreNumbered m.base.constraints → labelled_of (parts m names) ≡ m }
{
    labelled_networks_have_no_fault();
}

/// Equal canonical texts are of equal names, of equal labels, and of networks that differ at most in the ids of constraints and
/// in the reactions of propositions that nothing observes.
pub fn canonical_texts_tell_networks_apart()
    ensures { (m other : Labelled) (names more : List (List ℕ)) → IsLabelled m → AreNamesOf m.base names → IsLabelled other → AreNamesOf other.base more
        → canonical m names ≡ canonical other more → (names ≡ more) × (m.labels ≡ other.labels) × AreSameButIds m.base other.base }
{}
