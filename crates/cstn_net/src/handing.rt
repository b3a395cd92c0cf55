// Laws of builders.
ghost use Rattle.std.specs.Prelude.{ℕ, ◌≡◌, ◌+◌, ◌++◌, ◌∷◌, [], List, length};
ghost use Rattle.std.specs.List.{All};
ghost use Rattle.cstn_net.specs.declared.drafts.Draft.{Draft};
ghost use Rattle.cstn_net.specs.declared.errors.NetError.{NetError};
ghost use Rattle.cstn_net.specs.declared.points.TimePoint.{TimePoint};
ghost use Rattle.cstn_net.specs.Networks.{Network, IsWellFormed};
ghost use Rattle.cstn_net.specs.Read.{reaction_of};
ghost use Rattle.cstn_net.specs.Drafts.{BuilderParts, HasNetFault, IsNetRefusal, HasReaction, net_number, constraint_of, constraints_from};
ghost use Rattle.cstn_net.specs.Handed.{IsHanded};

/// A builder that was handed a well-formed network has no fault, so `close` refuses it for want of memory alone.
pub fn handed_networks_are_closed()
    ensures faultless { (b : BuilderParts) (net : Network) → IsWellFormed net → IsHanded b net → (e : NetError) → HasNetFault b e → ⊥ }
    ensures memory { (b : BuilderParts) (net : Network) → IsWellFormed net → IsHanded b net → (e : NetError) → IsNetRefusal b e → net_number e ≡ 0 }
{}

/// Where each time-point has a reaction of one tick, all reactions are in range, and each proposition has a reaction of one
/// tick.
pub fn reactions_are_a_tick_at_first()
    ensures timely { (points : List TimePoint) → All (λ t. t.reaction ≡ 1) points → All HasReaction points }
    ensures reaction { (points : List TimePoint) → All (λ t. t.reaction ≡ 1) points → (p : ℕ) → reaction_of points p ≡ 1 }
{}

/// One more draft gives one more constraint, whose id is the first id plus the number of drafts before it.
pub fn drafts_are_numbered()
    ensures more { (k i : ℕ) (ds : List Draft) (d : Draft) → i ≡ k + length ds
        → constraints_from k (ds ++ d ∷ []) ≡ constraints_from k ds ++ constraint_of i d ∷ [] }
    ensures length { (k : ℕ) (ds : List Draft) → length (constraints_from k ds) ≡ length ds }
{}
