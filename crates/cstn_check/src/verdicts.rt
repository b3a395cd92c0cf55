ghost use Rattle.std.specs.Prelude.{◌≡◌};
ghost use Rattle.cstn_check.specs.declared.growth.Grown.{Grown};
ghost use Rattle.cstn_check.specs.declared.verdicts.Verdict.{Verdict};

use crate::growth::Grown;

/// The answer of a check: whether the network has a strategy, with the load of its log, or that the log is full.
#[derive(Clone, Copy, Debug, PartialEq, Eq)]
pub enum Verdict {
    Yes { load: u32 },
    No { load: u32 },
    Full,
}

/// The verdict for what growth came to; a yes or no has the load of the log.
pub fn verdict_of(grown: Grown, load: u32) -> Verdict
    ensures closed { grown ≡ Grown.Closed → result ≡ Verdict.Yes load }
    ensures refuted { grown ≡ Grown.Refuted → result ≡ Verdict.No load }
    ensures full { grown ≡ Grown.Full → result ≡ Verdict.Full }
{
    match grown {
        Grown::Closed => Verdict::Yes { load },
        Grown::Refuted => Verdict::No { load },
        Grown::Full => Verdict::Full,
    }
}
