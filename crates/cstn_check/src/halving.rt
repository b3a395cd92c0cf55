// A search that halves a span of moments.
ghost use Rattle.std.specs.Prelude.{ℕ, ◌≡◌, ◌<◌, ◌≤◌, Bool, Option, IfOk, IfSome};
ghost use Rattle.cstn_net.specs.Limits.{most_deadline};
ghost use Rattle.cstn_check.specs.Search.{middle, halved, halving};

use std::alloc::{AllocError, Global};

// The most tries that a search takes, by which 1,000,001 moments come down to one.
const MAX_TRIES: u32 = 20;

/// What a search asks of a moment.
pub trait MomentTrial {
    /// Whether it may be asked.
    ghost may: { Self → Type 0 };

    /// What is said of a moment: yes, no, or nothing.
    ghost says: { Self → ℕ → Option Bool };

    /// What is said of a moment, in ticks. Fails for want of memory alone.
    fn says(&self, alloc: Global, moment: u32) -> Result<Option<bool>, AllocError>
        requires may { may self.now }
        requires range { moment ≤ most_deadline }
        ensures { IfOk result (λ o. o ≡ says self.now moment) };
}

/// The moments that are left to be tried, in ticks.
#[derive(Clone, Copy)]
pub struct Span {
    pub low: u32,
    pub high: u32,
}

impl Span {
    // The moment half-way, rounded up.
    fn middle(self) -> u32
        requires range { self.high ≤ most_deadline }
        requires several { self.low < self.high }
        ensures middle { result ≡ middle self }
        ensures range { result ≤ most_deadline }
    {
        (self.low + self.high + 1) / 2
    }

    // What is left to be tried once the middle was.
    fn halved(self, said: Option<bool>) -> Option<Span>
        requires range { self.high ≤ most_deadline }
        requires several { self.low < self.high }
        ensures halved { result ≡ halved self said }
        ensures range { IfSome result (λ s. s.high ≤ most_deadline) }
    {
        let middle = self.middle();
        let is_yes = said?;
        if is_yes {
            Some(Span {
                low: middle,
                high: self.high,
            })
        } else {
            Some(Span {
                low: self.low,
                high: middle - 1,
            })
        }
    }
}

/// The moment that is left of a span when it was halved, in at most 20 tries; none where nothing is said of a moment that is tried.
/// Where the lower end goes, and no moment after one that doesn't, it is the last that goes. Fails for want of memory alone.
pub fn halve<T: MomentTrial>(
    alloc: Global,
    trial: &T,
    span: Span,
) -> Result<Option<u32>, AllocError>
    requires may { T.may trial.now }
    requires range { span.high ≤ most_deadline }
    ensures { IfOk result (λ o. o ≡ halving (T.says trial.now) 20 span) }
{
    let mut span = span;
    for _turn in 0..MAX_TRIES {
        if span.low >= span.high {
            return Ok(Some(span.low));
        }
        let said = trial.says(alloc, span.middle())?;
        let Some(half) = span.halved(said) else {
            return Ok(None);
        };
        span = half;
    }
    Ok(Some(span.low))
}
