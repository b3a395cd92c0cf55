//! The line of a text, and the numbers that are in range.

ghost use Rattle.std.specs.Prelude.{◌≡◌, true};
ghost use Rattle.cstn_sentences.specs.Answers.{FailsPlan, TellsPlan};
ghost use Rattle.cstn_sentences.specs.Grammar.{plan_line_read};
ghost use Rattle.cstn_sentences.specs.Judged.{is_sized, are_sized, is_in_order, is_range, is_timely, is_said, is_line_in_range, at_word, line_of_text};
ghost use Rattle.cstn_sentences.specs.Lines.{the_plan_line};
ghost use Rattle.cstn_sentences.specs.Seen.{FailsRead};
ghost use Rattle.cstn_sentences.specs.Words.{words_of, is_of_words};

use crate::errors::PlanError;
use crate::faults::LineFault;
use crate::forms::read_line;
use crate::lines::{Line, Observed, Range, Says, Span};
use crate::words::count_words;
use cstn_net::MAX_REACTION;
use std::alloc::Global;

/// The most ticks of a number.
const MAX_TICKS: u32 = 1_000_000_000;

/// The minutes of a day.
const DAY: u32 = 1440;

/// Whether a number of ticks is at most 1,000,000,000 either way.
pub fn is_sized(ticks: i32) -> bool
    ensures { result ≡ is_sized ticks }
{
    ticks.unsigned_abs() <= MAX_TICKS
}

fn are_sized(least: i32, most: Option<Span>) -> bool
    ensures { result ≡ are_sized least most }
{
    match most {
        None => is_sized(least),
        Some(most) => is_sized(least) && is_sized(most.ticks),
    }
}

fn is_in_order(least: i32, most: Option<Span>) -> bool
    ensures { result ≡ is_in_order least most }
{
    match most {
        None => true,
        Some(most) => least <= most.ticks,
    }
}

fn is_range(range: Range) -> bool
    ensures { result ≡ is_range range }
{
    are_sized(range.least.ticks, range.most) && is_in_order(range.least.ticks, range.most)
}

/// Whether the reaction of what is observed is from 1 to 1,000 ticks.
fn is_timely(observed: &Option<Observed>) -> bool
    ensures { result ≡ is_timely observed.now }
{
    match observed {
        None => true,
        Some(o) => {
            let ticks = o.reaction.ticks.unsigned_abs();
            0 < ticks && ticks <= MAX_REACTION
        }
    }
}

fn is_said(says: Says) -> bool
    ensures { result ≡ is_said says }
{
    match says {
        Says::At(range) => are_sized(range.least.ticks, range.most),
        Says::By(span) => is_sized(span.ticks),
        Says::Between(range) => is_range(range),
        Says::ByAfter(span) => is_sized(span.ticks),
        Says::Within(span) => is_sized(span.ticks),
        Says::NotBefore => true,
        Says::Together => true,
    }
}

/// Whether the numbers of a line are in range.
fn is_line_in_range(line: &Line) -> bool
    ensures { result ≡ is_line_in_range (the_plan_line line.now) }
{
    match line {
        Line::Nothing => true,
        Line::Deadline(span) => is_sized(span.ticks),
        Line::Start(span) => span.ticks.unsigned_abs() < DAY,
        Line::Step(step) => is_timely(&step.observed),
        Line::Task(step, range) => is_range(*range) && is_timely(&step.observed),
        Line::Rule(rule) => is_said(rule.says),
    }
}

/// The refusal of line `n`, where the words that are left at a wrong one give its number.
fn refusal(n: u32, text: &[u8], fault: LineFault) -> PlanError
    requires { FailsRead fault (plan_line_read (words_of text.now)) }
    ensures { FailsPlan result (at_word n (words_of text.now) (plan_line_read (words_of text.now))) }
{
    match fault {
        LineFault::Wrong { left } => PlanError::Wrong {
            line: n,
            word: (count_words(text) + 1).saturating_sub(left),
        },
        LineFault::Memory(e) => PlanError::Memory(e),
    }
}

/// Puts in the line of words, which is number `n`.
pub fn line_of_words(alloc: Global, n: u32, text: &[u8], line: &mut Line) -> Result<(), PlanError>
    requires { is_of_words text.now ≡ true }
    ensures { TellsPlan (λ u. the_plan_line line.new) result (line_of_text n text.now) }
{
    match read_line(alloc, text, line) {
        Ok(()) if is_line_in_range(line) => Ok(()),
        Ok(()) => Err(PlanError::Range { line: n }),
        Err(fault) => Err(refusal(n, text, fault)),
    }
}
