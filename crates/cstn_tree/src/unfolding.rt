// The tree of a yes.
ghost use Rattle.std.specs.Prelude.{ℕ, ◌≡◌, ◌≤◌, ◌++◌, List, IfOk, Some, length, codes, decimal};
ghost use Rattle.cstn_net.specs.Limits.{most_load};
ghost use Rattle.cstn_net.specs.Networks.{IsWellFormed, count};
ghost use Rattle.cstn_net.specs.Read.{the_network};
ghost use Rattle.cstn_check.specs.Growth.{log_of, load_of, live_bounds};
ghost use Rattle.cstn_check.specs.declared.verdicts.Verdict.TheVariants.{Yes};
ghost use Rattle.cstn_reply.specs.Read.{the_said};
ghost use Rattle.cstn_reply.specs.Texts.{say};
ghost use Rattle.cstn_tree.specs.Unfolded.{how_many_observed, IsTreeText, IsUnfolded};

use crate::make;
use cstn_check::{Check, Judged, growth_is_bounded, judge};
use cstn_exec::Executive;
use cstn_label::NodeId;
use cstn_log::Cap;
use cstn_net::Network;
use cstn_outline::print;
use cstn_reply::{Outcome, Said};
use cstn_text::Names;
use std::alloc::{AllocError, Global};

// A tree is made for no more observed propositions: with each one it may have twice as many branches.
const MOST_OBSERVED: u16 = 10;

/// Says after yes what the executive of a network does, as a tree, after no what refutes the network, or the cap where its log
/// has more than `cap` entries. Where more than 10 propositions are observed it says how many, and decides nothing. Fails for
/// want of memory alone.
pub fn tree_text(
    alloc: Global,
    network: Network,
    names: &Names,
    cap: Cap,
) -> Result<Said, AllocError>
    requires well_formed { IsWellFormed (the_network network) }
    requires named { length names.now ≡ count (the_network network) }
    ensures said { IfOk result (λ said. IsUnfolded cap.entries names.now (the_network network) (the_said said)) }
{
    let observed = observed(&network);
    if observed > MOST_OBSERVED {
        return wide(alloc, observed);
    }
    growth_is_bounded();
    match judge(alloc, network, names, cap)? {
        Judged::Yes { load, check } => tell(alloc, load, check, names),
        Judged::Told(said) => Ok(said),
    }
}

// How many propositions are observed.
fn observed(network: &Network) -> u16
    ensures { result ≡ how_many_observed (the_network network.now) }
{
    let mut observed = 0;
    for x in 0..network.count() {
        if network.observes(NodeId(x)).is_some() {
            observed += 1;
        }
    }
    observed
}

fn wide(alloc: Global, observed: u16) -> Result<Said, AllocError>
    ensures said { IfOk result (λ said. the_said said ≡ say Outcome.Wide (codes "wide " ++ decimal observed)) }
{
    let text = format!(in alloc; "wide {observed}\n")?;
    Ok(Said {
        outcome: Outcome::Wide,
        text: text.into_bytes(),
    })
}

// The tree of what the executive does by the plan that a yes leaves.
fn tell(alloc: Global, load: u32, check: Check, names: &Names) -> Result<Said, AllocError>
    requires yes { (l : ℕ) × (check.verdict ≡ Some (Yes l)) }
    requires low { 1 ≤ load }
    requires high { load ≤ most_load }
    requires named { length names.now ≡ count (the_network check.net) }
    ensures said { IfOk result (λ said. IsTreeText names.now load (live_bounds (log_of (the_network check.net))) (the_network check.net) (the_said said)) }
{
    let mut exec = Executive::start(alloc, check.into_plan())?;
    let tree = make(alloc, &mut exec)?;
    tree.lines();
    let text = print(alloc, &tree, load, names)?;
    Ok(Said {
        outcome: Outcome::Good,
        text: text.into_bytes(),
    })
}
