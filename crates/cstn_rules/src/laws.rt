// Laws of the rules.
ghost use Rattle.std.specs.Prelude.{ℕ, ◌≡◌, ◌↔◌, ◌+◌, ◌<◌, ◌≤ℤ◌, ◌<ℤ◌, pos, List, [], ◌∷◌, ◌++◌, length, Some, slice_get};
ghost use Rattle.std.specs.List.{Contains};
ghost use Rattle.cstn_label.specs.declared.marks.Mark.TheVariants.{Absent};
ghost use Rattle.cstn_label.specs.Labels.{IsMarked, IsPlain, Scenario, Holds, joined};
ghost use Rattle.cstn_label.specs.Bounds.{Bound, Dominates};
ghost use Rattle.cstn_net.specs.Networks.{Network, IsNetwork, IsConstraint, Constraint, Observes, count, limit};
ghost use Rattle.cstn_net.specs.Strategies.{Table, IsDynamic, IsStrategy, IsConsistent, Meets};
ghost use Rattle.cstn_net.specs.Bounds.{HoldsIn};
ghost use Rattle.cstn_rules.specs.declared.entries.Why.TheVariants.{Chain};
ghost use Rattle.cstn_rules.specs.Rules.{base, IsBase, IsChain, IsWait, Refutes};
ghost use Rattle.cstn_rules.specs.Derivations.{Entry, Follows, IsDerivation, IsRefutation};

/// Base holds in every table. What wait gives holds in each table in which its premises hold, and what chain gives in each such
/// table that is dynamic and meets the constraint. A bound that refutes a network holds in none of its strategies.
pub fn rules_are_sound()
    ensures base { (net : Network) (table : Table) (r : Bound) → IsBase net r → HoldsIn net table r }
    ensures chain { (net : Network) (table : Table) (c : Constraint) (b r : Bound) → IsNetwork net → IsDynamic net table
        → ((s : Scenario) → Holds s c.label → Meets (table s) c) → c.from < count net → IsChain net c b r → HoldsIn net table b → HoldsIn net table r }
    ensures wait { (net : Network) (table : Table) (p : ℕ) (seen b r : Bound) → IsNetwork net → IsWait net p seen b r → HoldsIn net table seen
        → HoldsIn net table b → HoldsIn net table r }
    ensures refuting { (net : Network) (table : Table) (b : Bound) → IsStrategy net table → Refutes net b → HoldsIn net table b → ⊥ }
{}

/// Each bound of a derivation holds in every strategy. So a network with a refutation has no strategy, and is inconsistent.
pub fn derivations_are_sound()
    ensures each { (net : Network) (table : Table) (steps : List Entry) (k : ℕ) (e : Entry) → IsNetwork net → IsStrategy net table → IsDerivation net steps
        → slice_get steps k ≡ Some e → HoldsIn net table e.bound }
    ensures refuted { (net : Network) (steps : List Entry) → IsNetwork net → IsRefutation net steps → IsConsistent net → ⊥ }
{}

/// A conclusion is at a time-point of the network, asks for at most the limit + 1, and marks only what its premises or its
/// constraint mark. One that asks for 0 or less is dominated by base.
pub fn conclusions_stay_within()
    ensures chain { (net : Network) (c : Constraint) (b r : Bound) → IsConstraint net c → IsChain net c b r
        → (r.node < count net) × (r.least ≤ℤ pos (limit net r.node + 1)) }
    ensures chain_marks { (net : Network) (c : Constraint) (b r : Bound) (p : ℕ) → IsChain net c b r → b.label p ≡ Absent → c.label p ≡ Absent
        → r.label p ≡ Absent }
    ensures wait { (net : Network) (p : ℕ) (seen b r : Bound) → b.node < count net → IsWait net p seen b r
        → (r.node < count net) × (r.least ≤ℤ pos (limit net r.node + 1)) }
    ensures wait_marks { (net : Network) (p : ℕ) (seen b r : Bound) (q : ℕ) → IsWait net p seen b r → seen.label q ≡ Absent → b.label q ≡ Absent
        → r.label q ≡ Absent }
    ensures below { (r : Bound) → r.least ≤ℤ pos 0 → Dominates (base r.node) r }
{}

/// A rule has at most one conclusion. Chain has one exactly where the bound is at the constraint's `to` and the two labels are
/// plain together.
pub fn rules_have_one_conclusion()
    ensures base { (net : Network) (r q : Bound) → IsBase net r → IsBase net q → r.node ≡ q.node → r ≡ q }
    ensures chain { (net : Network) (c : Constraint) (b r q : Bound) → IsChain net c b r → IsChain net c b q → r ≡ q }
    ensures wait { (net : Network) (p q : ℕ) (seen b r s : Bound) → IsWait net p seen b r → IsWait net q seen b s → r ≡ s }
    ensures chained { (net : Network) (c : Constraint) (b : Bound)
        → (((r : Bound) × IsChain net c b r) ↔ ((b.node ≡ c.to) × IsPlain (joined b.label c.label))) }
{}

/// Wait has a conclusion from two bounds exactly where the first is at the observer of a proposition that the second marks. So
/// a search may leave out all other pairs without missing a conclusion.
pub fn waits_are_at_observers()
    ensures only { (net : Network) (p : ℕ) (seen b r : Bound) → IsWait net p seen b r → Observes net seen.node p × IsMarked b.label p }
    ensures awaited { (net : Network) (p : ℕ) (seen b : Bound) → (((r : Bound) × IsWait net p seen b r) ↔ (Observes net seen.node p × IsMarked b.label p)) }
{}

/// The empty list is a derivation, and a derivation with a further entry that follows from it is one. So are the first entries
/// of a derivation. A derivation is also one of each network that differs in constraints alone and has those that it uses.
pub fn derivations_move()
    ensures empty { (net : Network) → IsDerivation net [] }
    ensures grown { (net : Network) (steps : List Entry) (last : Entry) → IsDerivation net steps → Follows net steps (length steps) last.why last.bound
        → IsDerivation net (steps ++ last ∷ []) }
    ensures first { (net : Network) (steps more : List Entry) → IsDerivation net (steps ++ more) → IsDerivation net steps }
    ensures elsewhere { (net : Network) (constraints : List Constraint) (steps : List Entry)
        → ((c : Constraint) (b : Bound) (k i : ℕ) → Contains net.constraints c → slice_get steps k ≡ Some (record { bound = b; why = Chain c.id i })
        → Contains constraints c) → IsDerivation net steps → IsDerivation (record net { constraints = constraints }) steps }
{}
