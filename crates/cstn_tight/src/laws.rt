// Laws of least deadlines.
ghost use Rattle.std.specs.Prelude.{ℕ, ◌≡◌, ◌≤◌, ◌↔◌};
ghost use Rattle.cstn_net.specs.Networks.{Network, IsWellFormed};
ghost use Rattle.cstn_net.specs.Strategies.{IsConsistent};
ghost use Rattle.cstn_check.specs.Growth.{log_of};
ghost use Rattle.cstn_tight.specs.Deadlines.{at_deadline, IsLeastDeadline};
ghost use Rattle.cstn_tight.specs.Greatest.{IsGreatest};

/// A network has at most one least deadline.
pub fn least_deadlines_are_one()
    ensures { (net : Network) (g h : ℕ) → IsLeastDeadline net g → IsLeastDeadline net h → g ≡ h }
{}

/// The least deadline of a consistent network is the greatest least value in its log.
pub fn least_deadlines_are_greatest_values()
    ensures { (net : Network) (h : ℕ) → IsWellFormed net → IsConsistent net → (IsLeastDeadline net h ↔ IsGreatest (log_of net) h) }
{}

/// A network is consistent at just the deadlines from the least one on.
pub fn consistency_is_kept_from_the_least()
    ensures later { (net : Network) (h k : ℕ) → IsLeastDeadline net h → h ≤ k → IsConsistent (at_deadline net k) }
    ensures earlier { (net : Network) (h k : ℕ) → IsLeastDeadline net h → IsConsistent (at_deadline net k) → h ≤ k }
{}
