// The law of what is written as evidence. The call does nothing but cite other laws: its contract is the law.
ghost use Rattle.std.specs.Prelude.{ℕ, ◌≡◌, ◌≤◌, List, length};
ghost use Rattle.cstn_net.specs.Limits.{most_load};
ghost use Rattle.cstn_net.specs.Networks.{Network, IsWellFormed, count};
ghost use Rattle.cstn_net.specs.Strategies.{IsConsistent};
ghost use Rattle.cstn_log.specs.Cuts.{last_with_ancestors};
ghost use Rattle.cstn_check.specs.Growth.{log_of, load_of, live_bounds};
ghost use Rattle.cstn_text.specs.Names.{AreNames};
ghost use Rattle.cstn_refute.specs.Texts.{refutation_shown as shown_steps};
ghost use Rattle.cstn_closed.specs.Texts.{closed_shown as shown_bounds};
ghost use Rattle.cstn_headline.specs.Accepted.{IsYesText, IsNoText, HasIds};

use cstn_closed::closed_texts_are_read_back;
use cstn_refute::texts_are_read_back;

/// The text of the bounds of a yes is accepted by the check of bounds, and that of the steps of a no by the replay, where each
/// time-point has a name, ids are numbers of 32 bits, and the load is 4,194,304 at most.
pub fn evidence_is_accepted()
    ensures bounds { (names : List (List ℕ)) (net : Network) → IsWellFormed net → AreNames names → length names ≡ count net → load_of net ≤ most_load
        → IsConsistent net → IsYesText names net (shown_bounds names (load_of net) (live_bounds (log_of net))) }
    ensures steps { (names : List (List ℕ)) (net : Network) → IsWellFormed net → AreNames names → length names ≡ count net → HasIds net
        → load_of net ≤ most_load → (IsConsistent net → ⊥) → IsNoText names net (shown_steps names (load_of net) (last_with_ancestors (log_of net))) }
{
    closed_texts_are_read_back();
    texts_are_read_back();
}
