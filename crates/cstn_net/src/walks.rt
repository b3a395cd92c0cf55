// The walk along the constraints that end at a time-point.
ghost use Rattle.std.specs.Prelude.{ℕ, ◌≡◌, ◌<◌, ◌+◌, ◌∷◌, List, Option, length, slice_index, slice_index_or};
ghost use Rattle.std.specs.List.{HoldsAt, filter};
ghost use Rattle.cstn_net.specs.declared.constraints.Constraint.{Constraint};
ghost use Rattle.cstn_net.specs.Links.{IsNextPlace, ends, ends_at, left_to};

/// A walk that begins at what `first_to` answers, and goes on to what `next_to` answers, visits each constraint that ends at the
/// time-point once, in ascending id, and no other.
pub fn walk_visits_each()
    ensures begins { (x : ℕ) (cs : List Constraint) (o : Option ℕ) → IsNextPlace x 0 (ends cs) o → left_to x o cs ≡ filter (ends_at x) cs }
    ensures visited { (x low p : ℕ) (cs : List Constraint) → IsNextPlace x low (ends cs) (Some p) → (p < length cs) × HoldsAt (λ c. c.to.0 ≡ x) cs p }
    ensures goes_on { (x p : ℕ) (cs : List Constraint) (c : Constraint) (o : Option ℕ) → p < length cs → c ≡ slice_index_or cs p c → c.to.0 ≡ x
        → IsNextPlace (slice_index (ends cs) p) (p + 1) (ends cs) o → left_to x (Some p) cs ≡ c ∷ left_to x o cs }
{}
