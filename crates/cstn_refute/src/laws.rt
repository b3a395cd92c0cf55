// What is printed of a refutation is read again. The calls do nothing: their contracts are the laws.
ghost use Rattle.std.specs.Prelude.{ℕ, ◌≡◌, List};
ghost use Rattle.cstn_rules.specs.Derivations.{Entry};
ghost use Rattle.cstn_text.specs.Names.{AreNames};
ghost use Rattle.cstn_refute.specs.Texts.{tells, refutation_told, refutation_shown};
ghost use Rattle.cstn_refute.specs.Orders.{IsTextOfSteps};
ghost use Rattle.cstn_refute.specs.Written.{AreStepsWritten};

/// The printed text of a load and steps is read as these again, where each step's time-point has a name and the numbers are in
/// their ranges. What is read of any text is in these ranges.
#[tactic(auto, using(crate::proofs::BackLemmas::shown_back, crate::proofs::OrderLemmas::text_said))]
pub fn texts_are_read_back()
    ensures back { (names : List (List ℕ)) (load : ℕ) (steps : List Entry) → AreNames names → AreStepsWritten names load steps
        → refutation_told names (refutation_shown names load steps) ≡ tells load steps }
    ensures ranges { (names : List (List ℕ)) (bytes : List ℕ) (load : ℕ) (steps : List Entry) → refutation_told names bytes ≡ tells load steps
        → AreStepsWritten names load steps }
{}

/// The texts that are read as a load and steps in their ranges are exactly the printed one and those that differ from it in the
/// order of marks in labels alone.
pub fn texts_are_the_shown_ones()
    ensures said { (names : List (List ℕ)) (bytes : List ℕ) (load : ℕ) (steps : List Entry) → refutation_told names bytes ≡ tells load steps
        → IsTextOfSteps names load steps bytes }
    ensures says { (names : List (List ℕ)) (load : ℕ) (steps : List Entry) (bytes : List ℕ) → AreNames names → AreStepsWritten names load steps
        → IsTextOfSteps names load steps bytes → refutation_told names bytes ≡ tells load steps }
{}
