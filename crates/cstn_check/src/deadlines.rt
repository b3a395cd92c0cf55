// The log at a deadline and the logs at lower ones.
ghost use Rattle.std.specs.Prelude.{ℕ, ◌≡◌, ◌≤◌, ◌↔◌, false};
ghost use Rattle.cstn_net.specs.Networks.{Network, IsWellFormed};
ghost use Rattle.cstn_net.specs.Strategies.{IsConsistent};
ghost use Rattle.cstn_check.specs.Growth.{log_of};
ghost use Rattle.cstn_check.specs.Deadlines.{is_any_late, upto_late};

/// The log at a deadline holds the logs at all lower ones: the log at a lower deadline is the same up to the first entry that is
/// later than the limit of its time-point there. This one is cut to the limit + 1, and it is the last. The network is consistent
/// at the lower deadline exactly where there is no such entry.
pub fn logs_hold_lower_ones()
    ensures log { (net : Network) (h : ℕ) → IsWellFormed net → h ≤ net.deadline
        → log_of (record net { deadline = h }) ≡ upto_late (record net { deadline = h }) (log_of net) }
    ensures decides { (net : Network) (h : ℕ) → IsWellFormed net → h ≤ net.deadline
        → (IsConsistent (record net { deadline = h }) ↔ (is_any_late (record net { deadline = h }) (log_of net) ≡ false)) }
{}
