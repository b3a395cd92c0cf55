// Laws of networks, tables and bounds.
ghost use Rattle.std.specs.Prelude.{ℕ, length, ◌≡◌, ◌+◌, ◌<◌, ◌≤◌, ◌↔◌, ◌⊎◌, ◌≤ℤ◌, pos, List};
ghost use Rattle.std.specs.List.{All};
ghost use Rattle.cstn_label.specs.Labels.{Label, Scenario, Holds, IsMarked, IsPlain, IsWithin, empty, joined};
ghost use Rattle.cstn_label.specs.Bounds.{Bound, Dominates};
ghost use Rattle.cstn_net.specs.Networks.{Network, Constraint, IsNetwork, IsWellFormed, AreConstraintsOf, AreConstraintsFor, Observes, ObservesNothing, count};
ghost use Rattle.cstn_net.specs.Strategies.{Schedule, Table, IsKnown, Agrees, IsPossibleAt, AgreesIn, HasOneMoment, AgreesOnObserved, AreOneSchedule};
ghost use Rattle.cstn_net.specs.Strategies.{IsLeastInSchedules, IsDynamic, IsNeverLater, IsStrategy, IsConsistent, IsSchedule, IsLeast};
ghost use Rattle.cstn_net.specs.Scenarios.{IsScenarioOf, IsStrategyOnObserved, IsLeastOnObserved, observed_alone};
ghost use Rattle.cstn_net.specs.Bounds.{HoldsIn, IsPossibleIn};
ghost use Rattle.cstn_net.specs.declared.errors.NetError.{NetError};
ghost use Rattle.cstn_net.specs.Drafts.{BuilderParts, IsDraftAmong, IsLowestNetFault, constraints_from};
ghost use Rattle.cstn_net.specs.Read.{the_network};
ghost use Rattle.cstn_net.specs.Examples.{branch, branch_table, branch_late, coarse, fine, fine_table};

/// An observer is a time-point, and observes one proposition.
pub fn observers_are_time_points()
    ensures within { (net : Network) (x p : ℕ) → Observes net x p → x < count net }
    ensures one { (net : Network) (x p q : ℕ) → Observes net x p → Observes net x q → p ≡ q }
{}

/// What is known stays known. What a time-point observes is known exactly once its reaction has passed, so not yet at the
/// time-point's own moment. Each scenario agrees with what is known in it.
pub fn knowledge_grows()
    ensures later { (net : Network) (at : Schedule) (t u p : ℕ) → t ≤ u → IsKnown net at t p → IsKnown net at u p }
    ensures passed { (net : Network) (at : Schedule) (t x p : ℕ) → IsNetwork net → Observes net x p → (IsKnown net at t p ↔ (at x + net.reaction p ≤ t)) }
    ensures observer { (net : Network) (at : Schedule) (x p : ℕ) → IsNetwork net → Observes net x p → IsKnown net at (at x) p → ⊥ }
    ensures reflexive { (net : Network) (at : Schedule) (t : ℕ) (s : Scenario) → Agrees net at t s s }
{}

/// A label within a possible one is possible, a join is possible exactly where both labels are, and a label that was ruled
/// out stays ruled out. Scenarios that agree on what is known have the same possible labels. A label that holds in a scenario
/// that agrees with what is known is possible. A possible label holds where all propositions that it marks are known, and a
/// plain possible label holds in some scenario that agrees with what is known.
pub fn possible_until_ruled_out()
    ensures within { (net : Network) (at : Schedule) (t : ℕ) (s : Scenario) (a b : Label) → IsWithin a b → IsPossibleAt net at t s b
        → IsPossibleAt net at t s a }
    ensures joined { (net : Network) (at : Schedule) (t : ℕ) (s : Scenario) (a b : Label)
        → (IsPossibleAt net at t s (joined a b) ↔ (IsPossibleAt net at t s a × IsPossibleAt net at t s b)) }
    ensures earlier { (net : Network) (at : Schedule) (t u : ℕ) (s : Scenario) (a : Label) → t ≤ u → IsPossibleAt net at u s a → IsPossibleAt net at t s a }
    ensures agrees { (net : Network) (at : Schedule) (t : ℕ) (s r : Scenario) (a : Label) → Agrees net at t s r → IsPossibleAt net at t s a
        → IsPossibleAt net at t r a }
    ensures holds { (net : Network) (at : Schedule) (t : ℕ) (s r : Scenario) (a : Label) → Agrees net at t s r → Holds r a → IsPossibleAt net at t s a }
    ensures settled { (net : Network) (at : Schedule) (t : ℕ) (s : Scenario) (a : Label) → ((p : ℕ) → IsMarked a p → IsKnown net at t p)
        → IsPossibleAt net at t s a → Holds s a }
    ensures flipped { (net : Network) (at : Schedule) (t : ℕ) (s : Scenario) (a : Label) → IsPlain a → IsPossibleAt net at t s a
        → (r : Scenario) × Agrees net at t s r × Holds r a }
{}

/// A table is dynamic exactly where, in every scenario that agrees with what is known when a time-point is executed, that
/// time-point is executed no later.
pub fn dynamic_is_one_sided()
    ensures { (net : Network) (table : Table) → IsNetwork net → IsDynamic net table ↔ IsNeverLater net table }
{}

/// Agreement with what is known is mutual in a dynamic table: where r agrees with what is known at t in s, s agrees with what
/// is known at t in r, each moment up to t is the same in both, and the same is known at t in both.
pub fn past_is_common()
    ensures symmetric { (net : Network) (table : Table) → IsNetwork net → IsDynamic net table → (s r : Scenario) (t : ℕ) → AgreesIn net table t s r
        → AgreesIn net table t r s }
    ensures moments { (net : Network) (table : Table) → IsNetwork net → IsDynamic net table → (s r : Scenario) (t x : ℕ) → x < count net
        → AgreesIn net table t s r → HasOneMoment table t s r x }
    ensures known { (net : Network) (table : Table) → IsNetwork net → IsDynamic net table → (s r : Scenario) (t p : ℕ) → AgreesIn net table t s r
        → IsKnown net (table s) t p → IsKnown net (table r) t p }
{}

/// Scenarios that agree on the observed propositions have the same moments in a dynamic table.
pub fn unobserved_is_unseen()
    ensures { (net : Network) (table : Table) (s r : Scenario) (x : ℕ) → IsDynamic net table → x < count net → AgreesOnObserved net s r
        → table r x ≡ table s x }
{}

/// It makes no difference that scenarios give values to propositions that nothing observes. A network is consistent exactly
/// where it has a strategy on its own scenarios, those in which only observed propositions are true, and its least moments in
/// them are the least over such strategies. The least moment in any scenario is that in the scenario of the network with the
/// same observed values.
pub fn observed_scenarios_decide()
    ensures own { (net : Network) (s : Scenario) → IsScenarioOf net (observed_alone net s) }
    ensures value { (net : Network) (s : Scenario) (x p : ℕ) → Observes net x p → observed_alone net s p ≡ s p }
    ensures consistent { (net : Network) → IsNetwork net → (IsConsistent net ↔ ((table : Table) × IsStrategyOnObserved net table)) }
    ensures least { (net : Network) (s : Scenario) (x t : ℕ) → IsNetwork net → IsScenarioOf net s → (IsLeast net s x t ↔ IsLeastOnObserved net s x t) }
    ensures any { (net : Network) (s : Scenario) (x t : ℕ) → x < count net → (IsLeast net s x t ↔ IsLeast net (observed_alone net s) x t) }
{}

/// Where a network observes nothing, a table is a strategy exactly where each row is a schedule that is within the limits and
/// meets every constraint, and all rows are the same. So it is consistent exactly where there is such a schedule, and a least
/// moment is the least in such schedules.
pub fn plain_strategy_is_a_schedule()
    ensures consistent { (net : Network) → IsNetwork net → ObservesNothing net → IsConsistent net ↔ ((at : Schedule) × IsSchedule net at) }
    ensures rows { (net : Network) → IsNetwork net → ObservesNothing net → (table : Table) → (IsStrategy net table ↔ AreOneSchedule net table) }
    ensures least { (net : Network) → IsNetwork net → ObservesNothing net → (s : Scenario) (x t : ℕ) → (IsLeast net s x t ↔ IsLeastInSchedules net x t) }
{}

/// A strategy stays one with a later deadline and with fewer constraints, where the rest of the network is the same.
pub fn strategies_are_kept()
    ensures deadline { (net : Network) (table : Table) (h : ℕ) → net.deadline ≤ h → IsStrategy net table → IsStrategy (record net { deadline = h }) table }
    ensures constraints { (net : Network) (table : Table) (cs : List Constraint) → AreConstraintsOf net cs → IsStrategy net table
        → IsStrategy (record net { constraints = cs }) table }
{}

/// A consistent network stays so with a later deadline and with fewer constraints.
pub fn consistency_is_kept()
    ensures deadline { (net : Network) (h : ℕ) → net.deadline ≤ h → IsConsistent net → IsConsistent (record net { deadline = h }) }
    ensures constraints { (net : Network) (cs : List Constraint) → AreConstraintsOf net cs → IsConsistent net → IsConsistent (record net { constraints = cs }) }
{}

/// A well-formed network stays so when its constraints are replaced by at most 16,384 others that are between its
/// time-points, have plain labels on observed propositions, and are in ascending id and in range.
pub fn other_constraints_are_well_formed()
    ensures { (net : Network) (cs : List Constraint) → IsWellFormed net → AreConstraintsFor net cs → IsWellFormed (record net { constraints = cs }) }
{}

/// Where a bound holds in a table, each bound that it dominates holds there too, and the bound 0 with the empty label holds
/// in every table. A bound holds exactly where, in each scenario, the moment is late enough or the label isn't possible.
pub fn bounds_hold()
    ensures dominated { (net : Network) (table : Table) (a b : Bound) → Dominates a b → HoldsIn net table a → HoldsIn net table b }
    ensures base { (net : Network) (table : Table) (x : ℕ) → HoldsIn net table (record { node = x; least = pos 0; label = empty }) }
    ensures cases { (net : Network) (table : Table) (b : Bound)
        → HoldsIn net table b ↔ ((s : Scenario) → (b.least ≤ℤ pos (table s b.node)) ⊎ (IsPossibleIn net table b s → ⊥)) }
{}

/// A time-point has at most one least moment in each scenario.
pub fn least_moment_is_one()
    ensures { (net : Network) (s : Scenario) (x t u : ℕ) → IsLeast net s x t → IsLeast net s x u → t ≡ u }
{}

/// A builder has at most one lowest fault, so that what it is refused for is one.
pub fn lowest_net_fault_is_one()
    ensures { (b : BuilderParts) (e f : NetError) → IsLowestNetFault b e → IsLowestNetFault b f → e ≡ f }
{}

/// The branch network is well-formed, and the table with P at 0 and X at 10 where p is true and at 1 where it is false is a
/// strategy of it.
pub fn branch_has_a_strategy()
    ensures network { IsWellFormed branch }
    ensures strategy { IsStrategy branch branch_table }
{}

/// The branch network with P at 3 or later is well-formed and has no strategy: where p is false X is due at 3, and p isn't
/// known before 4.
pub fn late_has_no_strategy()
    ensures network { IsWellFormed branch_late }
    ensures strategy { IsConsistent branch_late → ⊥ }
{}

/// Halves of ticks would allow more: the network `coarse` has no strategy on ticks, and `fine`, the same network with the deadline and
/// every value doubled and the reactions left, has one.
pub fn ticks_are_not_dense()
    ensures networks { IsWellFormed coarse × IsWellFormed fine }
    ensures coarse { IsConsistent coarse → ⊥ }
    ensures fine { IsStrategy fine fine_table }
{}

/// A builder whose constraints are between its time-points has a lowest fault, or makes a well-formed network.
pub fn builders_without_a_lowest_fault_make_networks()
    ensures { (b : BuilderParts) → All (IsDraftAmong (length b.points)) b.drafts → ((e : NetError) → IsLowestNetFault b e → ⊥)
        → IsWellFormed (the_network (record { deadline = b.deadline; points = b.points; constraints = constraints_from 0 b.drafts; spare = 0 })) }
{}
