// Laws of logs, and of lists that are cut.
ghost use Rattle.std.specs.Prelude.{ℕ, ◌≡◌, ◌⊎◌, ◌<◌, ◌≤◌, ◌-◌, List, length};
ghost use Rattle.cstn_net.specs.Limits.{most_load};
ghost use Rattle.cstn_net.specs.Networks.{Network};
ghost use Rattle.cstn_rules.specs.Derivations.{Entry, IsDerivation};
ghost use Rattle.cstn_log.specs.Ancestors.{IsAncestor, DependsOn, HasThose};
ghost use Rattle.cstn_log.specs.Cuts.{AllEarlier, last_with_ancestors, dropped};
ghost use Rattle.cstn_log.specs.Entries.{AllNew};

use crate::log::Log;

/// Does nothing. A log has at most as many entries as its cap, which is at most 4,194,304, and none of them is dominated by an
/// earlier one.
pub fn log_is_well_formed(log: &Log)
    ensures at_most { length log.now.entries ≤ log.now.cap }
    ensures largest { log.now.cap ≤ most_load }
    ensures all_new { AllNew log.now.entries }
{
    let _ = log.len();
}

/// A part has exactly the last entry and its ancestors, and what is left without a constraint exactly the entries that neither it
/// gave nor descend from one that it gave; both in order, with premises at their new places.
pub fn cut_lists_follow_ancestors()
    ensures earlier { (net : Network) (steps : List Entry) → IsDerivation net steps → AllEarlier steps }
    ensures part { (steps : List Entry) → AllEarlier steps → 0 < length steps
        → HasThose (λ k. (k ≡ length steps - 1) ⊎ IsAncestor steps k (length steps - 1)) steps (last_with_ancestors steps) }
    ensures dropped { (steps : List Entry) (id : ℕ) → AllEarlier steps → HasThose (λ k. DependsOn steps id k → ⊥) steps (dropped steps id) }
{}
