// A check of a network whose document is in memory.
ghost use Rattle.std.specs.Prelude.{ℕ, List, IsTrue, map, string_bytes};
ghost use Rattle.cstn_lift.specs.Labelled.{Labelled};
ghost use Rattle.cstn_headline.specs.Networks.{AskCheck, IsNamedNetwork, HasDocument, IsNetworkDecided};

use cstn_check::growth_is_bounded;
use cstn_io::{Shelf, Sink, Source};
use cstn_lift::lowered_is_well_formed;
use cstn_reply::Status;
use cstn_request::Release;
use cstn_save::documents_are_read_back;
use cstn_text::numbers_have_one_text;
use cstn_top::run;
use std::alloc::Global;

/// The headline for networks: `run`, asked for a check of the canonical document of a network in memory, ends with Good only if the
/// network has a dynamic strategy, with Bad only if it has none, and with Full only if the cap is below n * 4^k * (H + 2), for n
/// time-points, k observed propositions and the deadline H. Else it ends with ReadFault, WriteFault or Memory.
pub fn check_network<F: Shelf, S: Source, K: Sink>(
    alloc: Global,
    release: Release,
    words: &[String],
    shelf: &mut F,
    live: &mut S,
    out: &mut K,
) -> Status
    requires asks { (file : List ℕ) × ((cap : ℕ) × AskCheck (map string_bytes words.now) file cap × IsTrue (F.may_ask shelf.old file)) }
    ensures decided { (m : Labelled) (names : List (List ℕ)) (file : List ℕ) (cap : ℕ) → IsNamedNetwork m names
        → AskCheck (map string_bytes words.now) file cap → HasDocument (F.files shelf.old) file m names → IsNetworkDecided m cap result }
{
    documents_are_read_back();
    growth_is_bounded();
    lowered_is_well_formed();
    numbers_have_one_text();
    run(alloc, release, words, shelf, live, out)
}
