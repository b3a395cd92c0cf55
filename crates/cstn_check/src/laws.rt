// Laws of growth.
ghost use Rattle.std.specs.Prelude.{ℕ, ◌≡◌, ◌<◌, ◌≤◌, ◌-◌, ◌+◌, ◌++◌, ◌↔◌, true, false, length, slice_get, List, [], ◌∷◌, Some, None};
ghost use Rattle.std.specs.List.{Contains};
ghost use Rattle.cstn_label.specs.declared.marks.Mark.TheVariants.{Absent, No};
ghost use Rattle.cstn_label.specs.Labels.{Label, Scenario, IsWithin, empty};
ghost use Rattle.cstn_label.specs.Bounds.{Bound, Dominates};
ghost use Rattle.cstn_net.specs.Networks.{Network, Constraint, IsNetwork, IsWellFormed, count};
ghost use Rattle.cstn_net.specs.Strategies.{Table, IsStrategy, IsConsistent, IsLeast};
ghost use Rattle.cstn_rules.specs.Closed.{IsClosed};
ghost use Rattle.cstn_rules.specs.Derivations.{Entry, IsDerivation};
ghost use Rattle.cstn_rules.specs.Rules.{Refutes, IsBoundOf, IsChain, IsWait};
ghost use Rattle.cstn_log.specs.Entries.{bases};
ghost use Rattle.cstn_check.specs.Examples.{HasLog, Shows, of_two_marks, at_least_after, at_most_after, prompt, branch_and, crossed_and, unknown_mark};
ghost use Rattle.cstn_check.specs.Examples.{process, drawn_network};
ghost use Rattle.cstn_check.specs.Examples.{crossed_lines, unknown_mark_lines, process_lines};
ghost use Rattle.cstn_rules.specs.Tests.{refutes, chain_of, wait_of};
ghost use Rattle.cstn_label.specs.Tests.{is_within, dominates};
ghost use Rattle.cstn_check.specs.Growth.{Instance, grown, grow, log_of, load_of, most_entries, is_covered, is_live, is_refuted, live_bounds};
ghost use Rattle.cstn_label.specs.OnLetters.{IsOnLetters};
ghost use Rattle.cstn_check.specs.Relations.{AreOnLetters, IsCoveredByEntry, IsLiveAt, IsRefuted};
ghost use Rattle.cstn_check.specs.Kept.{IsKeptList};
ghost use Rattle.cstn_check.specs.Spent.{HasPremises, IsSpent, AreSpent};

/// The tests by true and false, with which growth is defined, decide the relations on labels and bounds, where labels mark none
/// but the 52 letters; those of a network's constraints mark no other.
pub fn tests_decide()
    ensures within { (a b : Label) → IsOnLetters a → (is_within a b ≡ true ↔ IsWithin a b) }
    ensures dominates { (a b : Bound) → IsOnLetters a.label → (dominates a b ≡ true ↔ Dominates a b) }
    ensures refutes { (net : Network) (b : Bound) → IsOnLetters b.label → (refutes net b ≡ true ↔ Refutes net b) }
    ensures chain { (net : Network) (c : Constraint) (b r : Bound) → IsOnLetters b.label → IsOnLetters c.label
        → (chain_of net c b ≡ Some r ↔ IsChain net c b r) }
    ensures wait { (net : Network) (seen b r : Bound) → (wait_of net seen b ≡ Some r ↔ ((p : ℕ) × IsWait net p seen b r)) }
    ensures letters { (net : Network) (c : Constraint) → IsWellFormed net → Contains net.constraints c → IsOnLetters c.label }
{}

/// The tests on lists decide the relations too, where labels mark none but the 52 letters; those of a list that growth keeps mark
/// no other.
pub fn tests_on_lists_decide()
    ensures covered { (list : List Entry) (r : Bound) → AreOnLetters list → (is_covered list r ≡ true ↔ IsCoveredByEntry list r) }
    ensures live { (list : List Entry) (k : ℕ) → AreOnLetters list → (is_live list k ≡ true ↔ IsLiveAt list k) }
    ensures refuted { (net : Network) (list : List Entry) → AreOnLetters list → (is_refuted net list ≡ true ↔ IsRefuted net list) }
    ensures live_bounds { (list : List Entry) (b : Bound) → AreOnLetters list
        → (Contains (live_bounds list) b ↔ ((k : ℕ) × (e : Entry) × (slice_get list k ≡ Some e) × IsLiveAt list k × (e.bound ≡ b))) }
    ensures letters { (net : Network) (list : List Entry) → IsWellFormed net → IsKeptList net list → AreOnLetters list }
{}

/// A list that growth keeps, as that of the base bounds, stays one while it grows, and never has more entries than
/// `most_entries`. After any number of turns it is the grown list or its first entries. It is the whole grown list once there were
/// as many turns as that has entries, or once an entry refutes the network; further turns change nothing.
pub fn kept_lists_grow_to_an_end()
    ensures bases { (net : Network) → IsWellFormed net → IsKeptList net (bases (count net)) }
    ensures kept { (net : Network) (list : List Entry) (n : ℕ) → IsWellFormed net → IsKeptList net list → IsKeptList net (grown net list n) }
    ensures most { (net : Network) (list : List Entry) (n : ℕ) → IsWellFormed net → IsKeptList net list → length (grown net list n) ≤ most_entries net }
    ensures goes_on { (net : Network) (list : List Entry) (n : ℕ) → IsWellFormed net → IsKeptList net list
        → (more : List Entry) × (grown net list n ++ more ≡ grow net list) }
    ensures done { (net : Network) (list : List Entry) (n : ℕ) → IsWellFormed net → IsKeptList net list → length (grow net list) ≤ n
        → grown net list n ≡ grow net list }
    ensures refuted { (net : Network) (list : List Entry) (n : ℕ) → IsWellFormed net → IsKeptList net list → is_refuted net (grown net list n) ≡ true
        → grown net list n ≡ grow net list }
{}

/// The load is at least n and at most n * 4^k * (H + 2): n time-points, k observed propositions, H the deadline.
pub fn growth_is_bounded()
    ensures bases { (net : Network) → IsWellFormed net → count net ≤ load_of net }
    ensures load { (net : Network) → IsWellFormed net → load_of net ≤ most_entries net }
{}

/// The list after any number of turns is the log or its first entries. It is the whole log once there were as many turns as the
/// log has entries, or once an entry refutes the network; further turns change nothing.
pub fn growth_ends()
    ensures goes_on { (net : Network) (n : ℕ) → IsWellFormed net → (more : List Entry) × (grown net (bases (count net)) n ++ more ≡ log_of net) }
    ensures done { (net : Network) (n : ℕ) → IsWellFormed net → load_of net ≤ n → grown net (bases (count net)) n ≡ log_of net }
    ensures refuted { (net : Network) (n : ℕ) → IsWellFormed net → is_refuted net (grown net (bases (count net)) n) ≡ true
        → grown net (bases (count net)) n ≡ log_of net }
{}

/// The log is a derivation in which at most the last entry refutes the network. None does exactly where the network has a
/// strategy. Then the bounds of the live entries are closed, and one strategy has each time-point at its least moment.
pub fn growth_decides()
    ensures derivation { (net : Network) → IsWellFormed net → IsDerivation net (log_of net) }
    ensures last { (net : Network) (e : Entry) → IsWellFormed net → slice_get (log_of net) (length (log_of net) - 1) ≡ Some e
        → (Refutes net e.bound ↔ (is_refuted net (log_of net) ≡ true)) }
    ensures closed { (net : Network) → IsWellFormed net → is_refuted net (log_of net) ≡ false → IsClosed net (live_bounds (log_of net)) }
    ensures decides { (net : Network) → IsWellFormed net → (IsConsistent net ↔ (is_refuted net (log_of net) ≡ false)) }
    ensures least { (net : Network) → IsWellFormed net → IsConsistent net
        → (table : Table) × IsStrategy net table × ((s : Scenario) (x : ℕ) → x < count net → IsLeast net s x (table s x)) }
{}

/// The bounds of the live entries are at time-points of the network, with least values from 0 to the limit + 1.
pub fn live_bounds_are_in_range()
    ensures ranged { (net : Network) → IsWellFormed net → (b : Bound) → Contains (live_bounds (log_of net)) b → IsBoundOf net b }
{}

/// An instance, a rule with its premises, is spent where what it gives from live premises is dominated by some entry. It stays
/// spent while the list grows.
pub fn spent_instances_stay_spent()
    ensures { (net : Network) (list more : List Entry) (i : Instance) → HasPremises list i → IsSpent net list i → IsSpent net (list ++ more) i }
{}

/// Once a list is grown and no entry refutes the network, each instance on its entries is spent.
pub fn grown_lists_are_spent()
    ensures { (net : Network) (list : List Entry) (fresh : List ℕ) → IsWellFormed net → IsKeptList net list → is_refuted net (grow net list) ≡ false
        → AreSpent net (grow net list) fresh (length (grow net list)) }
{}

/// The loads of small networks, and whether their logs refute them.
pub fn loads_are_known()
    ensures alone { HasLog (prompt 0 (None ∷ []) []) 1 false }
    ensures branch { HasLog (branch_and []) 5 false }
    ensures last_tick { HasLog (branch_and (at_least_after 2 1 0 2 empty ∷ [])) 6 false }
    ensures too_late { HasLog (branch_and (at_least_after 2 1 0 3 empty ∷ [])) 7 true }
    ensures crossed { HasLog (crossed_and []) 8 false }
    ensures crossed_no { HasLog (crossed_and (at_most_after 2 0 1 4 (of_two_marks Absent No) ∷ [])) 9 true }
    ensures unknown { HasLog unknown_mark 14 true }
    ensures process { HasLog process 14 false }
    ensures drawn { HasLog drawn_network 31 false }
{}

/// All entries of the logs of three small networks.
pub fn logs_are_known()
    ensures crossed { Shows (crossed_and []) crossed_lines }
    ensures unknown { Shows unknown_mark unknown_mark_lines }
    ensures process { Shows process process_lines }
{}
