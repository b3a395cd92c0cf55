// Laws of labelled networks.
ghost use Rattle.std.specs.Prelude.{ℕ, ◌≡◌, ◌<◌, ◌≤◌, ◌+◌, ◌⊎◌, ◌↔◌, List, length, slice_index_or, Some, None, IsTrue};
ghost use Rattle.std.specs.List.{Contains};
ghost use Rattle.cstn_label.specs.Labels.{Label, Scenario, IsMarked, IsPlain, IsWithin};
ghost use Rattle.cstn_net.specs.Limits.{most_constraints};
ghost use Rattle.cstn_net.specs.Networks.{Network, Constraint, Observes, IsNetwork, IsOnObserved, IsWellFormed, count};
ghost use Rattle.cstn_net.specs.Strategies.{Table, IsStrategy, HasLeasts};
ghost use Rattle.cstn_lift.specs.declared.errors.LiftError.{LiftError};
ghost use Rattle.cstn_lift.specs.Faults.{HasLiftFault, IsLowestLiftFault};
ghost use Rattle.cstn_lift.specs.Labelled.{Labelled, HasNoLabels, label_of};
ghost use Rattle.cstn_lift.specs.Completion.{IsCompleteLabel, IsPlainAndComplete, completed, completed_label, full_label};
ghost use Rattle.cstn_lift.specs.WellFormed.{IsLabelled};
ghost use Rattle.cstn_lift.specs.Lowered.{lowered, numbered, observer_of, is_plain, full_constraints, guards_of, guards};
ghost use Rattle.cstn_lift.specs.Kept.{IsOpenIn, IsKnownIn, IsConstraintOf, IsKeptConstraint, IsLowered, IsFull, IsGuard};
ghost use Rattle.cstn_lift.specs.Strategies.{IsExecuted, IsLabelledStrategy, IsLabelledConsistent, IsLabelledLeast, IsEquivalent, AreDefaulted, AreTwins};
ghost use Rattle.cstn_lift.specs.Strategies.{HasLabelledLeasts};
ghost use Rattle.cstn_lift.specs.Scenarios.{IsOwn, own, IsLabelledStrategyOnObserved, IsLabelledLeastOnObserved, AreAlike};

/// The completed label of a label is the least complete label that the label is within. Completing it again changes nothing.
/// Where a label is within another, its completed label is within the completed label of the other.
pub fn completion_is_a_closure()
    ensures contains { (m : Labelled) (a : Label) → IsWithin a (completed m a) }
    ensures complete { (m : Labelled) (a : Label) → IsCompleteLabel m (completed m a) }
    ensures least { (m : Labelled) (a c : Label) → IsWithin a c → IsCompleteLabel m c → IsWithin (completed m a) c }
    ensures idempotent { (m : Labelled) (a : Label) → completed m (completed m a) ≡ completed m a }
    ensures grows { (m : Labelled) (a b : Label) → IsWithin a b → IsWithin (completed m a) (completed m b) }
{}

/// The completed label of each time-point is plain and names only observed propositions, and the completed labels of the
/// observers of what it marks are within it. Observers wait for each other in no circle: each has a rank, and where the
/// completed label of one marks what another observes, the rank of the other is lower.
pub fn completed_labels_are_ordered()
    ensures plain { (m : Labelled) (x : ℕ) → IsLabelled m → IsPlain (completed_label m x) }
    ensures observed { (m : Labelled) (x : ℕ) → IsLabelled m → IsOnObserved m.base (completed_label m x) }
    ensures within { (m : Labelled) (x j p : ℕ) → IsLabelled m → Observes m.base j p → IsMarked (completed_label m x) p
        → IsWithin (completed_label m j) (completed_label m x) }
    ensures order { (m : Labelled) → IsLabelled m
        → (rank : ℕ → ℕ) × ((j p k q : ℕ) → Observes m.base j p → Observes m.base k q → IsMarked (completed_label m j) q → rank k < rank j) }
{}

/// The observer of a proposition is the time-point that observes it, and there is none where nothing does.
pub fn observers_are_found()
    ensures found { (net : Network) (x p : ℕ) → IsNetwork net → Observes net x p → observer_of net p ≡ Some x }
    ensures only { (net : Network) (x p : ℕ) → observer_of net p ≡ Some x → Observes net x p }
    ensures none { (net : Network) (p : ℕ) → ((x : ℕ) → Observes net x p → ⊥) → observer_of net p ≡ None }
{}

/// The lowered network is well-formed where it has at most 16,384 constraints. Each of its labels is plain and complete, and
/// names only observed propositions.
pub fn lowered_is_well_formed()
    ensures well_formed { (m : Labelled) → IsLabelled m → length (lowered m).constraints ≤ most_constraints → IsWellFormed (lowered m) }
    ensures labels { (m : Labelled) (c : Constraint) → IsLabelled m → Contains (lowered m).constraints c → IsPlainAndComplete m c.label }
{}

/// Where no time-point has a label, the lowered network is the network with its constraints numbered anew from 0. So it is the
/// network itself where the ids of these are 0, 1, 2 and so on.
pub fn unlabelled_is_plain()
    ensures numbered { (m : Labelled) → IsLabelled m → HasNoLabels m → lowered m ≡ record m.base { constraints = numbered 0 m.base.constraints } }
    ensures same { (k : ℕ) (cs : List Constraint) → ((i : ℕ) (d : Constraint) → i < length cs → (slice_index_or cs i d).id ≡ k + i) → numbered k cs ≡ cs }
{}

/// The lowered network is consistent exactly where the labelled one is, and a time-point that is executed in a scenario has the
/// same least moments there in both.
pub fn lowered_is_equivalent()
    ensures { (m : Labelled) → IsLabelled m → IsEquivalent m (lowered m) }
{}

/// A time-point is executed in a scenario or it isn't, and where it is, so are the observers of what its completed label marks.
/// In scenarios that agree on what is observed in one of them, the same time-points are executed. A labelled strategy has each
/// of these at the same moment in both, and their least moments are the same.
pub fn twins_are_executed_alike()
    ensures decided { (m : Labelled) (s : Scenario) (x : ℕ) → IsLabelled m → IsExecuted m s x ⊎ (IsExecuted m s x → ⊥) }
    ensures observers { (m : Labelled) (s : Scenario) (x j p : ℕ) → IsLabelled m → IsExecuted m s x → Observes m.base j p
        → IsMarked (completed_label m x) p → IsExecuted m s j }
    ensures executed { (m : Labelled) (s r : Scenario) (x : ℕ) → IsLabelled m → AreTwins m s r → (IsExecuted m s x ↔ IsExecuted m r x) }
    ensures moments { (m : Labelled) (table : Table) (s r : Scenario) (x : ℕ) → IsLabelledStrategy m table → AreTwins m s r → x < count m.base
        → IsExecuted m s x → table r x ≡ table s x }
    ensures least { (m : Labelled) (s r : Scenario) (x t : ℕ) → IsLabelled m → AreTwins m s r → x < count m.base
        → (IsLabelledLeast m s x t ↔ IsLabelledLeast m r x t) }
{}

/// In a strategy of the lowered network, what is known at the moment of a time-point either rules its completed label out, or
/// each proposition that the label marks is known then and the label holds.
pub fn labels_are_decided_in_time()
    ensures executed { (m : Labelled) (table : Table) (s : Scenario) (x : ℕ) → IsLabelled m → IsStrategy (lowered m) table → x < count m.base
        → IsOpenIn m table s x → IsExecuted m s x }
    ensures known { (m : Labelled) (table : Table) (s : Scenario) (x p : ℕ) → IsLabelled m → IsStrategy (lowered m) table → x < count m.base
        → IsOpenIn m table s x → IsMarked (completed_label m x) p → IsKnownIn m table s x p }
{}

/// A strategy of the lowered network, read in each scenario with default values for what isn't observed there, is a labelled
/// strategy. Where it has each time-point at its least moment, so has the labelled strategy each time-point that is executed.
pub fn defaults_give_a_labelled_strategy()
    ensures twins { (m : Labelled) (d : Scenario) → IsLabelled m → (twin : Scenario → Scenario) × AreDefaulted m d twin }
    ensures strategy { (m : Labelled) (table : Table) (d : Scenario) (twin : Scenario → Scenario) → IsLabelled m → AreDefaulted m d twin
        → IsStrategy (lowered m) table → IsLabelledStrategy m (λ s. table (twin s)) }
    ensures least { (m : Labelled) (table : Table) (d : Scenario) (twin : Scenario → Scenario) → IsLabelled m → AreDefaulted m d twin
        → HasLeasts (lowered m) table → HasLabelledLeasts m (λ s. table (twin s)) }
{}

/// It makes no difference that scenarios give values to propositions that nothing observes. A labelled network is consistent
/// exactly where it has a labelled strategy on its own scenarios, those in which only observed propositions are true, and its
/// least moments in them are the least over such strategies. In any scenario, the same time-points are executed as in the own
/// scenario with the same observed values, at the same least moments. Nor does it make a difference that tables say something
/// of time-points that aren't executed: a table with the same moments of the executed ones as a labelled strategy is one too.
pub fn labelled_scenarios_decide()
    ensures consistent { (m : Labelled) → IsLabelled m → (IsLabelledConsistent m ↔ ((table : Table) × IsLabelledStrategyOnObserved m table)) }
    ensures least { (m : Labelled) (s : Scenario) (x t : ℕ) → IsLabelled m → IsOwn m s → (IsLabelledLeast m s x t ↔ IsLabelledLeastOnObserved m s x t) }
    ensures values { (m : Labelled) (s : Scenario) → IsOwn m (own m s) × ((x p : ℕ) → Observes m.base x p → own m s p ≡ s p) }
    ensures executed { (m : Labelled) (s : Scenario) (x : ℕ) → IsLabelled m → (IsExecuted m s x ↔ IsExecuted m (own m s) x) }
    ensures any { (m : Labelled) (s : Scenario) (x t : ℕ) → x < count m.base → (IsLabelledLeast m s x t ↔ IsLabelledLeast m (own m s) x t) }
    ensures alike { (m : Labelled) (a b : Table) → IsLabelled m → AreAlike m a b → IsLabelledStrategyOnObserved m a → IsLabelledStrategyOnObserved m b }
{}

/// A time-point has at most one least moment in each scenario.
pub fn labelled_least_moment_is_one()
    ensures { (m : Labelled) (s : Scenario) (x t u : ℕ) → IsLabelledLeast m s x t → IsLabelledLeast m s x u → t ≡ u }
{}

/// A network and labels have at most one lowest fault, so that what they are refused for is one.
pub fn lowest_lift_fault_is_one()
    ensures { (m : Labelled) (e f : LiftError) → IsLowestLiftFault m e → IsLowestLiftFault m f → e ≡ f }
{}

/// A full label is plain at the 52 propositions that are looked at exactly where it is plain at all propositions. A constraint
/// is kept, and so in the lowered network, exactly where its full label is plain. What is kept has its full label.
pub fn plain_constraints_are_kept()
    ensures plain { (m : Labelled) (c : Constraint) → IsLabelled m → IsConstraintOf m c → (IsTrue (is_plain (full_label m c)) ↔ IsPlain (full_label m c)) }
    ensures kept { (m : Labelled) (c : Constraint) → IsLabelled m → IsConstraintOf m c → (IsKeptConstraint m c ↔ IsPlain (full_label m c)) }
    ensures lowered { (m : Labelled) (c : Constraint) → IsLabelled m → IsConstraintOf m c → (IsLowered m c ↔ IsPlain (full_label m c)) }
    ensures full { (m : Labelled) (d : Constraint) → IsLabelled m → (Contains (full_constraints m) d ↔ IsFull m d) }
{}

/// A time-point waits for each proposition that its completed label marks, among all propositions and not only the 52 that are
/// looked at, and for no other. The guards, which are numbered after what is kept, are these constraints of all time-points.
pub fn marked_propositions_are_awaited()
    ensures waits { (m : Labelled) (x : ℕ) (d : Constraint) → IsLabelled m → (Contains (guards_of m.base x (completed_label m x)) d ↔ IsGuard m x d) }
    ensures guards { (m : Labelled) (d : Constraint) → IsLabelled m → (Contains (guards m) d ↔ ((x : ℕ) × (x < count m.base) × IsGuard m x d)) }
{}

/// A labelled network has no fault where its lowered network has at most 16,384 constraints, as each well-formed one has.
pub fn labelled_networks_have_no_fault()
    ensures few { (m : Labelled) (e : LiftError) → IsLabelled m → length (lowered m).constraints ≤ most_constraints → HasLiftFault m e → ⊥ }
    ensures well_formed { (m : Labelled) (e : LiftError) → IsLabelled m → IsWellFormed (lowered m) → HasLiftFault m e → ⊥ }
{}

/// Labels of a well-formed network, one for each time-point, have a lowest fault, or are in order and have no fault at all.
pub fn labels_without_a_lowest_fault_are_in_order()
    ensures labelled { (m : Labelled) → IsWellFormed m.base → length m.labels ≡ count m.base → ((x p : ℕ) → IsMarked (label_of m x) p → p < 52)
        → ((e : LiftError) → IsLowestLiftFault m e → ⊥) → IsLabelled m }
    ensures faultless { (m : Labelled) (e : LiftError) → ((f : LiftError) → IsLowestLiftFault m f → ⊥) → HasLiftFault m e → ⊥ }
{}
