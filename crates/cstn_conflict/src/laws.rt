// Laws of networks with some of their constraints.
ghost use Rattle.std.specs.Prelude.{ℕ, ◌≡◌, ◌<◌, ◌≤◌, ◌↔◌, true, false, List, Some, length};
ghost use Rattle.std.specs.List.{AllPairs, Contains};
ghost use Rattle.cstn_net.specs.Networks.{Network, IsWellFormed};
ghost use Rattle.cstn_net.specs.Strategies.{IsConsistent};
ghost use Rattle.cstn_rules.specs.Derivations.{Entry, IsRefutation};
ghost use Rattle.cstn_check.specs.Givers.{gave, ids_of, is_of, with_ids, network_without};
ghost use Rattle.cstn_check.specs.Verdicts.{is_consistent};
ghost use Rattle.cstn_conflict.specs.Conflicts.{conflict_set};

/// A well-formed network with some of its constraints is well-formed, and its log decides whether it is consistent. With all of
/// its constraints it is the network itself. A network that is consistent stays so with fewer constraints.
pub fn sets_are_decided()
    ensures well_formed { (net : Network) (set : List ℕ) → IsWellFormed net → IsWellFormed (with_ids net set) }
    ensures whole { (net : Network) → with_ids net (ids_of net) ≡ net }
    ensures decided { (net : Network) (set : List ℕ) → IsWellFormed net → ((is_consistent (with_ids net set) ≡ true) ↔ IsConsistent (with_ids net set)) }
    ensures more { (net : Network) (a b : List ℕ) → ((id : ℕ) → is_of a id ≡ true → is_of b id ≡ true) → IsConsistent (with_ids net b)
        → IsConsistent (with_ids net a) }
{}

/// A refutation of a network stands where a constraint is left out that gave none of its steps. A refutation of the network with
/// some of its constraints refutes the whole network, too.
pub fn refutations_stand()
    ensures fewer { (net : Network) (id : ℕ) (steps : List Entry) → gave id steps ≡ false → IsRefutation net steps →
        IsRefutation (network_without id net) steps }
    ensures more { (net : Network) (set : List ℕ) (steps : List Entry) → IsRefutation (with_ids net set) steps → IsRefutation net steps }
{}

/// The constraints of a conflict set can't be met together, and without any one of them they can. Their ids ascend, and there is
/// one at least. The set is the same at each cap at which it is found.
pub fn conflict_sets_are_minimal()
    ensures inconsistent { (net : Network) (cap : ℕ) (ids : List ℕ) → IsWellFormed net → (IsConsistent net → ⊥) → conflict_set cap net ≡ Some ids
        → IsConsistent (with_ids net ids) → ⊥ }
    ensures needed { (net : Network) (cap id : ℕ) (ids : List ℕ) → IsWellFormed net → conflict_set cap net ≡ Some ids → Contains ids id
        → IsConsistent (network_without id (with_ids net ids)) }
    ensures ascending { (net : Network) (cap : ℕ) (ids : List ℕ) → IsWellFormed net → conflict_set cap net ≡ Some ids → AllPairs (λ a b. a < b) ids }
    ensures some { (net : Network) (cap : ℕ) (ids : List ℕ) → IsWellFormed net → (IsConsistent net → ⊥) → conflict_set cap net ≡ Some ids → 1 ≤ length ids }
    ensures one { (net : Network) (cap other : ℕ) (a b : List ℕ) → conflict_set cap net ≡ Some a → conflict_set other net ≡ Some b → a ≡ b }
{}
