// Laws of lists that are cut down to some of their entries.
ghost use Rattle.std.specs.Prelude.{ℕ, ◌≡◌, ◌-◌, Bool, List, Some, length, slice_get};
ghost use Rattle.std.specs.List.{Contains};
ghost use Rattle.cstn_net.specs.Networks.{Network, Constraint};
ghost use Rattle.cstn_rules.specs.Derivations.{Entry, IsDerivation, IsRefutation};
ghost use Rattle.cstn_log.specs.Cuts.{IsClosedUnder, cut, last_with_ancestors, dropped};
ghost use Rattle.cstn_log.specs.CutExamples.{too_late_log, too_late_part, two_at_p, one_at_p, waiting_at_x, none_at_x};

/// A derivation that is cut to entries which are closed under premises is a derivation.
pub fn cuts_are_derivations()
    ensures { (net : Network) (marks : List Bool) (steps : List Entry) → IsDerivation net steps → IsClosedUnder marks steps
        → IsDerivation net (cut marks steps) }
{}

/// The last entry of a derivation with its ancestors is a derivation that ends in the same bound, and a refutation where the
/// derivation is one.
pub fn parts_are_derivations()
    ensures derivation { (net : Network) (steps : List Entry) → IsDerivation net steps → IsDerivation net (last_with_ancestors steps) }
    ensures last { (steps : List Entry) (last : Entry) → slice_get steps (length steps - 1) ≡ Some last
        → (e : Entry) × (slice_get (last_with_ancestors steps) (length (last_with_ancestors steps) - 1) ≡ Some e) × (e.bound ≡ last.bound) }
    ensures refutation { (net : Network) (steps : List Entry) → IsRefutation net steps → IsRefutation net (last_with_ancestors steps) }
{}

/// What is left of a derivation without the entries that a constraint gave, and without their descendants, is a derivation of
/// each network that has the other constraints.
pub fn dropping_leaves_derivations()
    ensures { (net : Network) (constraints : List Constraint) (steps : List Entry) (id : ℕ)
        → ((c : Constraint) → Contains net.constraints c → (c.id ≡ id → ⊥) → Contains constraints c) → IsDerivation net steps
        → IsDerivation (record net { constraints = constraints }) (dropped steps id) }
{}

/// The last entry of one list with its ancestors, and what is left of two lists without the entries of a constraint.
pub fn cuts_are_known()
    ensures part { last_with_ancestors too_late_log ≡ too_late_part }
    ensures dropped { dropped two_at_p 3 ≡ one_at_p }
    ensures unused { dropped two_at_p 9 ≡ two_at_p }
    ensures first { dropped waiting_at_x 0 ≡ none_at_x }
{}
