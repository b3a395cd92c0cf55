// `closed FILE [--deadline N] [--cap CAP]`
ghost use Rattle.std.specs.Prelude.{ℕ, ◌≡◌, ◌≤◌, Some, length, IfOk};
ghost use Rattle.cstn_net.specs.Limits.{most_load};
ghost use Rattle.cstn_net.specs.Networks.{IsWellFormed, count};
ghost use Rattle.cstn_net.specs.Read.{the_network};
ghost use Rattle.cstn_check.specs.Growth.{load_of};
ghost use Rattle.cstn_check.specs.declared.verdicts.Verdict.TheVariants.{Yes};
ghost use Rattle.cstn_reply.specs.Read.{the_said};
ghost use Rattle.cstn_top.specs.commands.Closed.{listed, bounds_said};

use cstn_check::{Check, Judged, growth_is_bounded, judge, live_bounds_are_in_range};
use cstn_closed::Closed;
use cstn_log::Cap;
use cstn_net::Network;
use cstn_reply::{Outcome, Said};
use cstn_text::Names;
use std::alloc::{AllocError, Global};

/// Says the bounds of the live entries of a network's log, after no what refutes the network, or the cap where the log has more
/// than `cap` entries. Fails for want of memory alone.
pub(crate) fn closed_text(
    alloc: Global,
    network: Network,
    names: &Names,
    cap: Cap,
) -> Result<Said, AllocError>
    requires well_formed { IsWellFormed (the_network network) }
    requires named { length names.now ≡ count (the_network network) }
    ensures said { IfOk result (λ said. the_said said ≡ listed cap.entries names.now (the_network network)) }
{
    growth_is_bounded();
    match judge(alloc, network, names, cap)? {
        Judged::Yes { load, check } => list(alloc, load, check, names),
        Judged::Told(said) => Ok(said),
    }
}

// The bounds that a check leaves after yes.
fn list(alloc: Global, load: u32, check: Check, names: &Names) -> Result<Said, AllocError>
    requires yes { (l : ℕ) × (check.verdict ≡ Some (Yes l)) }
    requires low { 1 ≤ load }
    requires high { load ≤ most_load }
    requires load { load ≡ load_of (the_network check.net) }
    requires well_formed { IsWellFormed (the_network check.net) }
    requires named { length names.now ≡ count (the_network check.net) }
    ensures said { IfOk result (λ said. the_said said ≡ bounds_said names.now (the_network check.net)) }
{
    let plan = check.into_plan();
    live_bounds_are_in_range();
    let closed = Closed::of(alloc, &plan, load)?;
    let text = closed.print(alloc, names)?;
    Ok(Said {
        outcome: Outcome::Good,
        text: text.into_bytes(),
    })
}
