// The laws of constraints that gave no entry.
ghost use Rattle.std.specs.Prelude.{ℕ, ◌≡◌, Bool, false, List};
ghost use Rattle.cstn_net.specs.Networks.{Network};
ghost use Rattle.cstn_rules.specs.Derivations.{Entry, IsRefutation};
ghost use Rattle.cstn_check.specs.Growth.{log_of};
ghost use Rattle.cstn_check.specs.Givers.{gave, with_some, network_without};

/// A constraint by which no entry of the log was given can be taken out, and the log stays the same. So can all such
/// constraints together.
pub fn logs_stay_without_idle_constraints()
    ensures one { (net : Network) (id : ℕ) → gave id (log_of net) ≡ false → log_of (network_without id net) ≡ log_of net }
    ensures some { (net : Network) (test : ℕ → Bool) → ((id : ℕ) → test id ≡ false → gave id (log_of net) ≡ false) → log_of (with_some net test) ≡ log_of net }
{}

/// A refutation of a network stands where all constraints are left out that gave none of its steps, or some of these.
pub fn refutations_stand_without_idle_constraints()
    ensures { (net : Network) (test : ℕ → Bool) (steps : List Entry) → ((id : ℕ) → test id ≡ false → gave id steps ≡ false) → IsRefutation net steps
        → IsRefutation (with_some net test) steps }
{}
