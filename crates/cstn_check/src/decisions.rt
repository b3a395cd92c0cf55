// What is said of the verdict on a network.
ghost use Rattle.std.specs.Prelude.{ℕ, ◌≡◌, ◌++◌, IfOk, Some, length, codes, decimal};
ghost use Rattle.cstn_net.specs.Networks.{IsWellFormed, count};
ghost use Rattle.cstn_net.specs.Read.{the_network};
ghost use Rattle.cstn_check.specs.Growth.{log_of, load_of};
ghost use Rattle.cstn_check.specs.declared.verdicts.Verdict.TheVariants.{No};
ghost use Rattle.cstn_log.specs.Cuts.{last_with_ancestors};
ghost use Rattle.cstn_refute.specs.Texts.{refutation_shown};
ghost use Rattle.cstn_reply.specs.Texts.{say, yes_line, full_line};
ghost use Rattle.cstn_check.specs.Decisions.{TellsVerdict, checked};
ghost use Rattle.cstn_reply.specs.Read.{the_said};

use crate::{Check, Verdict};
use cstn_log::Cap;
use cstn_net::Network;
use cstn_reply::{Outcome, Said};
use cstn_text::Names;
use std::alloc::{AllocError, Global};

/// The verdict on a network.
#[derive(Drop)]
pub enum Judged {
    /// Yes, with the load, and the check that said so.
    Yes { load: u32, check: Check },
    /// What is said after no, or where the log is full.
    Told(Said),
}

/// Checks a network, whose log may have `cap` entries. Fails for want of memory alone.
pub fn judge(alloc: Global, network: Network, names: &Names, cap: Cap) -> Result<Judged, AllocError>
    requires well_formed { IsWellFormed (the_network network) }
    requires named { length names.now ≡ count (the_network network) }
    ensures judged { IfOk result (TellsVerdict cap.entries names.now network) }
{
    let mut check = Check::start(alloc, network, cap)?;
    match check.run() {
        Verdict::Yes { load } => Ok(Judged::Yes { load, check }),
        Verdict::No { .. } => {
            let said = refuted(alloc, &check, names)?;
            Ok(Judged::Told(said))
        }
        Verdict::Full => {
            let said = full(alloc, cap)?;
            Ok(Judged::Told(said))
        }
    }
}

/// The line that says yes, with the load. Fails for want of memory alone.
pub fn yes_line(alloc: Global, load: u32) -> Result<Vec<u8>, AllocError>
    ensures line { IfOk result (λ line. line.items ≡ yes_line load) }
{
    let line = format!(in alloc; "yes {load}\n")?;
    Ok(line.into_bytes())
}

/// Says the verdict on a network, whose log may have `cap` entries: the load after yes, the refutation after no, or the cap.
/// Fails for want of memory alone.
pub fn check_text(
    alloc: Global,
    network: Network,
    names: &Names,
    cap: Cap,
) -> Result<Said, AllocError>
    requires well_formed { IsWellFormed (the_network network) }
    requires named { length names.now ≡ count (the_network network) }
    ensures said { IfOk result (λ said. the_said said ≡ checked cap.entries names.now (the_network network)) }
{
    match judge(alloc, network, names, cap)? {
        Judged::Yes { load, .. } => {
            let text = yes_line(alloc, load)?;
            Ok(Said {
                outcome: Outcome::Good,
                text,
            })
        }
        Judged::Told(said) => Ok(said),
    }
}

// The text of the refutation that a check has found.
fn refuted(alloc: Global, check: &Check, names: &Names) -> Result<Said, AllocError>
    requires no { (load : ℕ) × (check.now.verdict ≡ Some (No load)) }
    requires named { length names.now ≡ count (the_network check.now.net) }
    ensures said { IfOk result (λ said. the_said said
        ≡ record {
          outcome = Outcome.Bad;
          text = refutation_shown names.now (load_of (the_network check.now.net))
              (last_with_ancestors (log_of (the_network check.now.net)));
        }) }
{
    let refutation = check.refutation(alloc)?;
    let text = refutation.print(alloc, names)?;
    Ok(Said {
        outcome: Outcome::Bad,
        text: text.into_bytes(),
    })
}

/// What is said where a log has more than `cap` entries. Fails for want of memory alone.
pub fn full(alloc: Global, cap: Cap) -> Result<Said, AllocError>
    ensures said { IfOk result (λ said. the_said said ≡ record { outcome = Outcome.Full; text = full_line cap.entries }) }
{
    let text = format!(in alloc; "full {}\n", cap.entries)?;
    Ok(Said {
        outcome: Outcome::Full,
        text: text.into_bytes(),
    })
}
