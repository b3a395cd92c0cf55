// Laws of labels and bounds, for callers to rest on. Where a law speaks of possible labels, the function `known` says of each
// proposition whether it is known.
ghost use Rattle.std.specs.Prelude.{ℕ, ◌≡◌, ◌≢◌, ◌<◌, ◌≤◌, ◌⊎◌, ◌↔◌, Some, Bool, IsTrue};
ghost use Rattle.cstn_label.specs.declared.labels.Label.{Label as Words};
ghost use Rattle.cstn_label.specs.declared.scenarios.Scenario.{Scenario as Bits};
ghost use Rattle.cstn_label.specs.declared.knowledge.Known.{Known};
ghost use Rattle.cstn_label.specs.declared.marks.Mark.TheVariants.{Absent};
ghost use Rattle.cstn_label.specs.Labels.{Label, Scenario, empty, joined, without, IsMarked, IsPlain, IsWithin, Holds, IsPossible};
ghost use Rattle.cstn_label.specs.Bounds.{Bound, Dominates};
ghost use Rattle.cstn_label.specs.Letters.{letter_of, prop_of};
ghost use Rattle.cstn_label.specs.Read.{marks, the_scenario, known_value, same_scenario, same_known};

/// Labels with equal marks are equal, and no proposition above 51 is marked.
pub fn labels_are_their_marks()
    ensures equal { (a b : Words) → marks a ≡ marks b → a ≡ b }
    ensures above { (a : Words) (p : ℕ) → 52 ≤ p → marks a p ≡ Absent }
{}

/// Within is a partial order, and the empty label is within all.
pub fn within_is_an_order()
    ensures reflexive { (a : Label) → IsWithin a a }
    ensures transitive { (a b c : Label) → IsWithin a b → IsWithin b c → IsWithin a c }
    ensures antisymmetric { (a b : Label) → IsWithin a b → IsWithin b a → a ≡ b }
    ensures empty { (a : Label) → IsWithin empty a }
{}

/// The join of two labels is the least one that both are within. It marks what either marks, and holds where both hold.
pub fn joined_is_the_least_above()
    ensures left { (a b : Label) → IsWithin a (joined a b) }
    ensures right { (a b : Label) → IsWithin b (joined a b) }
    ensures least { (a b c : Label) → IsWithin a c → IsWithin b c → IsWithin (joined a b) c }
    ensures commutative { (a b : Label) → joined a b ≡ joined b a }
    ensures associative { (a b c : Label) → joined (joined a b) c ≡ joined a (joined b c) }
    ensures idempotent { (a : Label) → joined a a ≡ a }
    ensures empty { (a : Label) → joined a empty ≡ a }
    ensures absent { (a b : Label) (p : ℕ) → (joined a b p ≡ Absent) ↔ ((a p ≡ Absent) × (b p ≡ Absent)) }
    ensures holds { (s : Scenario) (a b : Label) → (Holds s (joined a b) ↔ (Holds s a × Holds s b)) }
    ensures possible { (known : ℕ → Bool) (s : Scenario) (a b : Label)
        → (IsPossible (λ p. IsTrue (known p)) s (joined a b) ↔ (IsPossible (λ p. IsTrue (known p)) s a × IsPossible (λ p. IsTrue (known p)) s b)) }
    ensures plain { (a b : Label) → IsPlain (joined a b) → IsPlain a × IsPlain b }
{}

/// A label is plain exactly where it holds in some scenario. A label within one that holds in a scenario holds there too.
pub fn plain_labels_hold_somewhere()
    ensures plain { (a : Label) → (IsPlain a ↔ ((s : Scenario) × Holds s a)) }
    ensures within { (s : Scenario) (a b : Label) → IsWithin a b → Holds s b → Holds s a }
{}

/// A label without its mark on p keeps every other mark, and is within the label as it was.
pub fn one_mark_is_taken_off()
    ensures gone { (a : Label) (p : ℕ) → without a p p ≡ Absent }
    ensures others { (a : Label) (p q : ℕ) → q ≢ p → without a p q ≡ a q }
    ensures within { (a : Label) (p : ℕ) → IsWithin (without a p) a }
{}

/// A label within a possible one is possible, and a label that was ruled out stays ruled out. A label that holds in a
/// scenario is possible by what is known there. Where all propositions that it marks are known, it is possible only where it
/// holds. A plain label that is possible holds in some scenario that has the known values.
pub fn possible_until_ruled_out()
    ensures within { (known : ℕ → Bool) (s : Scenario) (a b : Label) → IsWithin a b → IsPossible (λ p. IsTrue (known p)) s b
        → IsPossible (λ p. IsTrue (known p)) s a }
    ensures earlier { (known later : ℕ → Bool) (r s : Scenario) (a : Label) → ((p : ℕ) → IsTrue (known p) → IsTrue (later p) × (r p ≡ s p))
        → IsPossible (λ p. IsTrue (later p)) s a → IsPossible (λ p. IsTrue (known p)) r a }
    ensures holds { (known : ℕ → Bool) (r s : Scenario) (a : Label) → ((p : ℕ) → IsTrue (known p) → r p ≡ s p) → Holds s a
        → IsPossible (λ p. IsTrue (known p)) r a }
    ensures only { (known : ℕ → Bool) (r s : Scenario) (a : Label) → ((p : ℕ) → IsTrue (known p) → r p ≡ s p) → ((p : ℕ) → IsMarked a p → IsTrue (known p))
        → IsPossible (λ p. IsTrue (known p)) r a → Holds s a }
    ensures somewhere { (known : ℕ → Bool) (s : Scenario) (a : Label) → IsPlain a → IsPossible (λ p. IsTrue (known p)) s a
        → (r : Scenario) × ((p : ℕ) → IsTrue (known p) → r p ≡ s p) × Holds r a }
{}

/// Domination is reflexive and transitive, and of two bounds with one label on one time-point, one dominates the other.
pub fn domination_is_an_order()
    ensures reflexive { (a : Bound) → Dominates a a }
    ensures transitive { (a b c : Bound) → Dominates a b → Dominates b c → Dominates a c }
    ensures comparable { (a b : Bound) → a.node ≡ b.node → a.label ≡ b.label → Dominates a b ⊎ Dominates b a }
{}

/// Scenarios are equal, by `==`, exactly where each of the 52 propositions has one value in both, and what is known is equal
/// exactly where the same propositions are known with the same values.
pub fn equality_is_of_values()
    ensures scenarios { (s r : Bits) → (IsTrue (same_scenario s r) ↔ ((p : ℕ) → p < 52 → the_scenario s p ≡ the_scenario r p)) }
    ensures known { (k l : Known) → (IsTrue (same_known k l) ↔ ((p : ℕ) → p < 52 → known_value k p ≡ known_value l p)) }
{}

/// The letter of a proposition stands for that proposition alone.
pub fn letters_are_numbered()
    ensures letter { (p : ℕ) → p < 52 → prop_of (letter_of p) ≡ Some p }
    ensures prop { (l p : ℕ) → prop_of l ≡ Some p → letter_of p ≡ l }
{}
