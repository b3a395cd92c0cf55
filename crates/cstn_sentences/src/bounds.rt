//! What rules say, as bounds.

ghost use Rattle.std.specs.Prelude.{◌≡◌, ◌≤◌, ◌^◌, Some, option_map, pos, nat_abs, IfSome};
ghost use Rattle.cstn_sentences.specs.Meaning.{from_start, on_clock, bounds_of, is_of_end, are_in_order};

use crate::lines::{Says, Span};

/// At least and at most so many ticks after a moment, where they are said.
#[derive(Clone, Copy)]
pub struct Bounds {
    pub least: Option<i64>,
    pub most: Option<i64>,
}

/// The minutes of a day.
const DAY: i64 = 1440;

/// The ticks of a time of the clock below 24:00: of the first such time after the clock at tick 0, or at it.
fn from_start(ticks: i32, start: Option<i32>) -> i64
    ensures { result ≡ from_start ticks start }
{
    let ticks = ticks as i64;
    match start {
        None => ticks,
        Some(start) => {
            let start = start as i64;
            if ticks < start {
                ticks + DAY - start
            } else {
                ticks - start
            }
        }
    }
}

/// The ticks of a time that may be one of the clock.
pub fn on_clock(start: Option<i32>, span: Span) -> i64
    ensures { result ≡ on_clock start span }
{
    if span.clock && (span.ticks as i64) < DAY {
        return from_start(span.ticks, start);
    }
    span.ticks as i64
}

fn most_on_clock(start: Option<i32>, most: Option<Span>) -> Option<i64>
    ensures { result ≡ option_map (on_clock start) most }
{
    let span = most?;
    Some(on_clock(start, span))
}

fn most_ticks(most: Option<Span>) -> Option<i64>
    ensures { result ≡ option_map (λ t. t.ticks) most }
{
    let span = most?;
    Some(span.ticks as i64)
}

fn from_zero(most: Option<i64>) -> Bounds
    ensures { result ≡ record { least = Some (pos 0); most = most } }
{
    Bounds {
        least: Some(0),
        most,
    }
}

/// The bounds of what a rule says.
pub fn bounds_of(start: Option<i32>, says: Says) -> Bounds
    ensures { result ≡ bounds_of start says }
{
    match says {
        Says::At(range) => Bounds {
            least: Some(on_clock(start, range.least)),
            most: most_on_clock(start, range.most),
        },
        Says::By(span) => Bounds {
            least: None,
            most: Some(on_clock(start, span)),
        },
        Says::Between(range) => Bounds {
            least: Some(range.least.ticks as i64),
            most: most_ticks(range.most),
        },
        Says::ByAfter(span) => Bounds {
            least: None,
            most: Some(span.ticks as i64),
        },
        Says::Within(span) => from_zero(Some(span.ticks as i64)),
        Says::NotBefore => from_zero(None),
        Says::Together => from_zero(Some(0)),
    }
}

/// Whether a task's name alone is its end behind what is said.
pub fn is_of_end(says: Says) -> bool
    ensures { result ≡ is_of_end says }
{
    match says {
        Says::By(_) => true,
        Says::ByAfter(_) => true,
        Says::At(_) => false,
        Says::Between(_) => false,
        Says::Within(_) => false,
        Says::NotBefore => false,
        Says::Together => false,
    }
}

/// Whether at least isn't more than at most.
pub fn are_in_order(bounds: Bounds) -> bool
    ensures { result ≡ are_in_order bounds.least bounds.most }
{
    match (bounds.least, bounds.most) {
        (Some(least), Some(most)) => least <= most,
        _ => true,
    }
}
