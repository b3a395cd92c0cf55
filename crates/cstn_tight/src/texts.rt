// The least deadline, and what stands for it.
ghost use Rattle.std.specs.Prelude.{◌≡◌, ◌<◌, ◌++◌, ℕ, List, Option, IfOk, IfSome, length, codes, decimal, OnOk, string_bytes};
ghost use Rattle.std.specs.List.{All};
ghost use Rattle.cstn_net.specs.Networks.{IsWellFormed, count};
ghost use Rattle.cstn_net.specs.Read.{the_network};
ghost use Rattle.cstn_closed.specs.Closed.{the_listed_bounds};
ghost use Rattle.cstn_closed.specs.Texts.{closed_shown as shown_bounds};
ghost use Rattle.cstn_closed.specs.Written.{IsNamedBound};
ghost use Rattle.cstn_reply.specs.Texts.{line};
ghost use Rattle.cstn_reply.specs.Read.{the_said};
ghost use Rattle.cstn_tight.specs.Texts.{tightened};
ghost use Rattle.cstn_tight.specs.Told.{AreStepsNamed, told_before};

use crate::Tight;
use crate::tight::tight_of;
use cstn_check::{Judged, judge};
use cstn_log::Cap;
use cstn_net::Network;
use cstn_refute::Refutation;
use cstn_reply::{Outcome, Said};
use cstn_text::Names;
use std::alloc::{AllocError, Global};

/// Says the least deadline at which a network is consistent, with the bounds that make it so and with what refutes it one tick
/// below; of a network that isn't consistent at its own deadline, what refutes it. Its log may have `cap` entries: where it has
/// more, the cap is said. Fails for want of memory alone.
pub fn tight_text(
    alloc: Global,
    network: Network,
    names: &Names,
    cap: Cap,
) -> Result<Said, AllocError>
    requires well_formed { IsWellFormed (the_network network) }
    requires named { length names.now ≡ count (the_network network) }
    ensures said { IfOk result (λ said. the_said said ≡ tightened cap.entries names.now (the_network network)) }
{
    match judge(alloc, network, names, cap)? {
        Judged::Yes { check, .. } => {
            let tight = tight_of(alloc, check)?;
            tight_said(alloc, &tight, names)
        }
        Judged::Told(said) => Ok(said),
    }
}

fn tight_said(alloc: Global, tight: &Tight, names: &Names) -> Result<Said, AllocError>
    requires named { All (IsNamedBound names.now) tight.now.closed.bounds }
    requires steps { AreStepsNamed names.now tight.now.refutation }
    ensures said { IfOk result (λ said. the_said said
        ≡ record {
          outcome = Outcome.Good;
          text = line (codes "least " ++ decimal tight.now.deadline)
              ++ shown_bounds names.now tight.now.closed.load (the_listed_bounds tight.now.closed) ++ told_before names.now tight.now.refutation;
        }) }
{
    let mut text = format!(in alloc; "least {}\n", tight.deadline)?;
    let bounds = tight.closed.print(alloc, names)?;
    text.push_str(&bounds)?;
    push_before(alloc, &mut text, &tight.refutation, names)?;
    Ok(Said {
        outcome: Outcome::Good,
        text: text.into_bytes(),
    })
}

// Puts the refutation one tick below the least deadline, if there is one.
fn push_before(
    alloc: Global,
    text: &mut String,
    refutation: &Option<Refutation>,
    names: &Names,
) -> Result<(), AllocError>
    requires steps { AreStepsNamed names.now refutation.now }
    ensures pushed { OnOk result (string_bytes text.new ≡ string_bytes text.old ++ told_before names.now refutation.now) }
{
    let Some(refutation) = refutation else {
        return Ok(());
    };
    let printed = refutation.print(alloc, names)?;
    text.push_str(&printed)
}
