ghost use Rattle.std.specs.Prelude.{◌≡◌, ◌≤◌, ◌↔◌, IfOk, IfSome, IsSome};
ghost use Rattle.cstn_net.specs.Strategies.{IsConsistent};
ghost use Rattle.cstn_net.specs.Read.{the_network};
ghost use Rattle.cstn_check.specs.Growth.{load_of};

use cstn_check::{Check, Verdict};
use cstn_log::Cap;
use cstn_net::Network;
use cstn_plan::SoundPlan;
use std::alloc::{AllocError, Global};

/// How many bounds a check may derive.
pub const CAP: u32 = 65_536;

/// The plan of a network. There is none where the network has no strategy, or where a check derives more than `CAP` bounds.
pub fn plan_of(alloc: Global, net: Network) -> Result<Option<SoundPlan>, AllocError>
    ensures found { IfOk result (λ found. IsSome found ↔ ((load_of (the_network net) ≤ CAP) × IsConsistent (the_network net))) }
    ensures network { IfOk result (λ found. IfSome found (λ plan. plan.net ≡ net)) }
{
    let mut check = Check::start(alloc, net, Cap { entries: CAP })?;
    let Verdict::Yes { .. } = check.run() else {
        return Ok(None);
    };
    Ok(Some(check.into_plan()))
}
