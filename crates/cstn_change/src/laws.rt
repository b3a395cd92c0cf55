// Laws of changes. The calls do nothing: their contracts are the laws.
ghost use Rattle.std.specs.Prelude.{ℕ, ◌≡◌, ◌<◌, ◌≤◌, ◌+◌, ◌↔◌, List, Some, None};
ghost use Rattle.std.specs.List.{All};
ghost use Rattle.cstn_label.specs.declared.marks.Mark.TheVariants.{Absent};
ghost use Rattle.cstn_label.specs.Labels.{Label};
ghost use Rattle.cstn_net.specs.Networks.{Network, Constraint, IsOnObserved, IsLeastUnobserved};
ghost use Rattle.cstn_change.specs.Changes.{Change, least_unobserved, constraints_after, fresh_after};

/// The least proposition that a label names and nothing observes is the one that is found, and none is found exactly where the label
/// names observed propositions alone.
pub fn unobserved_is_found()
    ensures found { (net : Network) (a : Label) (p : ℕ) → p < 52 → IsLeastUnobserved net a p → least_unobserved net a ≡ Some p }
    ensures none { (net : Network) (a : Label) → ((p : ℕ) → 52 ≤ p → a p ≡ Absent) → ((least_unobserved net a ≡ None) ↔ IsOnObserved net a) }
{}

/// Ids stay below one that was never used, and a change uses one of them at most.
pub fn ids_stay_below()
    ensures below { (cs : List Constraint) (fresh : ℕ) (change : Change) → All (λ c. c.id < fresh) cs
        → All (λ c. c.id < fresh_after fresh change) (constraints_after cs fresh change) }
    ensures one { (fresh : ℕ) (change : Change) → fresh_after fresh change ≤ fresh + 1 }
{}
