//! The forms of lines.

ghost use Rattle.std.specs.Prelude.{◌≡◌, length};
ghost use Rattle.cstn_sentences.specs.declared.faults.LineFault.TheVariants.{Wrong};
ghost use Rattle.cstn_sentences.specs.Words.{words_of};
ghost use Rattle.cstn_sentences.specs.Spelling.{name_spelled};
ghost use Rattle.cstn_sentences.specs.Spans.{time_read, span_read, range_read};
ghost use Rattle.cstn_sentences.specs.Lines.{the_plan_step, the_rule, the_plan_line, rule};
ghost use Rattle.cstn_sentences.specs.Grammar.{one, past_keyword, begins_by, ended_line, letter_read, clock_read, reaction_read};
ghost use Rattle.cstn_sentences.specs.Grammar.{word_letter_read, observed_prop_read, with_reaction_read, observed_read};
ghost use Rattle.cstn_sentences.specs.Grammar.{step_rest_read, side_read, rule_by, by_read, point_rule_read, start_line_read, task_read};
ghost use Rattle.cstn_sentences.specs.Grammar.{plan_line_read, within_read, between_read, at_range_read, sided_read, deadline_read};
ghost use Rattle.cstn_sentences.specs.Grammar.{named_step, named_rule};
ghost use Rattle.cstn_sentences.specs.Seen.{GivesRead};

use crate::faults::LineFault;
use crate::lines::{
    Expects, Line, Name, Observed, Point, Range, Rule, Says, Side, Span, Step, Word,
};
use crate::rests::{read_rest, rest_begun};
use crate::spans::{read_range, read_span, read_time};
use crate::spelling::{is_letter_word, is_word, read_name_word};
use crate::words::{count_words, next_word};
use std::alloc::Global;

/// What is wrong where the first word that is left is the first wrong one, or is missing.
fn wrong(left: &[u8]) -> LineFault
    ensures { result ≡ Wrong (length (words_of left.now)) }
{
    LineFault::Wrong {
        left: count_words(left),
    }
}

/// The words behind a keyword.
fn past_keyword<'a>(keyword: &[u8], left: &'a [u8]) -> Result<&'a [u8], LineFault>
    ensures { GivesRead (λ rest. words_of rest.now) result (past_keyword keyword.now (words_of left.now)) }
{
    let Some((word, rest)) = next_word(left) else {
        return Err(LineFault::Wrong { left: 0 });
    };
    if word != keyword {
        return Err(wrong(left));
    }
    Ok(rest)
}

/// Whether the first word is this keyword.
fn begins_by(keyword: &[u8], left: &[u8]) -> bool
    ensures { result ≡ begins_by keyword.now (words_of left.now) }
{
    match next_word(left) {
        Some((word, _)) => word == keyword,
        None => false,
    }
}

fn read_end(said: Line, left: &[u8], line: &mut Line) -> Result<(), LineFault>
    ensures { GivesRead (λ u. the_plan_line line.new) result (ended_line (the_plan_line said) (words_of left.now)) }
{
    let None = next_word(left) else {
        return Err(wrong(left));
    };
    *line = said;
    Ok(())
}

fn time(left: &[u8]) -> Result<(Span, &[u8]), LineFault>
    ensures { GivesRead (λ r. (r.0, words_of r.1.now)) result (one time_read (words_of left.now)) }
{
    let Some((word, rest)) = next_word(left) else {
        return Err(LineFault::Wrong { left: 0 });
    };
    let Some(span) = read_time(word) else {
        return Err(wrong(left));
    };
    Ok((span, rest))
}

fn span(left: &[u8]) -> Result<(Span, &[u8]), LineFault>
    ensures { GivesRead (λ r. (r.0, words_of r.1.now)) result (one span_read (words_of left.now)) }
{
    let Some((word, rest)) = next_word(left) else {
        return Err(LineFault::Wrong { left: 0 });
    };
    let Some(span) = read_span(word) else {
        return Err(wrong(left));
    };
    Ok((span, rest))
}

fn range(left: &[u8]) -> Result<(Range, &[u8]), LineFault>
    ensures { GivesRead (λ r. (r.0, words_of r.1.now)) result (one range_read (words_of left.now)) }
{
    let Some((word, rest)) = next_word(left) else {
        return Err(LineFault::Wrong { left: 0 });
    };
    let Some(range) = read_range(word) else {
        return Err(wrong(left));
    };
    Ok((range, rest))
}

/// A time of the clock.
fn read_clock(word: &[u8]) -> Option<Span>
    ensures { result ≡ clock_read word.now }
{
    let span = read_time(word)?;
    if !span.clock {
        return None;
    }
    Some(span)
}

fn clock(left: &[u8]) -> Result<(Span, &[u8]), LineFault>
    ensures { GivesRead (λ r. (r.0, words_of r.1.now)) result (one clock_read (words_of left.now)) }
{
    let Some((word, rest)) = next_word(left) else {
        return Err(LineFault::Wrong { left: 0 });
    };
    let Some(span) = read_clock(word) else {
        return Err(wrong(left));
    };
    Ok((span, rest))
}

fn name(alloc: Global, left: &[u8]) -> Result<(Name, &[u8]), LineFault>
    ensures { GivesRead (λ r. (r.0, words_of r.1.now)) result (one name_spelled (words_of left.now)) }
{
    let Some((word, rest)) = next_word(left) else {
        return Err(LineFault::Wrong { left: 0 });
    };
    let Some(name) = read_name_word(alloc, word)? else {
        return Err(wrong(left));
    };
    Ok((name, rest))
}

fn read_letter(word: &[u8]) -> Option<u8>
    ensures { result ≡ letter_read word.now }
{
    if !is_letter_word(word) {
        return None;
    }
    match word {
        [] => None,
        [letter, ..] => Some(*letter),
    }
}

fn letter(left: &[u8]) -> Result<(u8, &[u8]), LineFault>
    ensures { GivesRead (λ r. (r.0, words_of r.1.now)) result (one letter_read (words_of left.now)) }
{
    let Some((word, rest)) = next_word(left) else {
        return Err(LineFault::Wrong { left: 0 });
    };
    let Some(letter) = read_letter(word) else {
        return Err(wrong(left));
    };
    Ok((letter, rest))
}

/// The reaction behind `after`, 1 where none is written.
fn reaction(left: &[u8]) -> Result<(Span, &[u8]), LineFault>
    ensures { GivesRead (λ r. (r.0, words_of r.1.now)) result (reaction_read (words_of left.now)) }
{
    if begins_by(b"after", left) {
        let left = past_keyword(b"after", left)?;
        return time(left);
    }
    Ok((
        Span {
            ticks: 1,
            clock: false,
        },
        left,
    ))
}

/// A word for the letter behind `as`.
fn word_as<'a>(
    alloc: Global,
    word: &[u8],
    left: &'a [u8],
) -> Result<(Option<Word>, u8, &'a [u8]), LineFault>
    ensures { GivesRead (λ r. ((r.0, r.1), words_of r.2.now)) result (word_letter_read word.now (words_of left.now)) }
{
    let left = past_keyword(b"as", left)?;
    let (letter, left) = letter(left)?;
    let word = Word::new(alloc, word)?;
    Ok((Some(word), letter, left))
}

/// A letter, or a word with its letter.
fn observed_prop_read(alloc: Global, left: &[u8]) -> Result<(Option<Word>, u8, &[u8]), LineFault>
    ensures { GivesRead (λ r. ((r.0, r.1), words_of r.2.now)) result (observed_prop_read (words_of left.now)) }
{
    let Some((word, rest)) = next_word(left) else {
        return Err(LineFault::Wrong { left: 0 });
    };
    if let Some(letter) = read_letter(word) {
        return Ok((None, letter, rest));
    }
    if is_word(word) {
        return word_as(alloc, word, rest);
    }
    Err(wrong(left))
}

/// Puts in what is observed behind `observes`, if that stands there, and answers the words behind it.
fn read_observed<'a>(
    alloc: Global,
    left: &'a [u8],
    observed: &mut Option<Observed>,
) -> Result<&'a [u8], LineFault>
    ensures { GivesRead (λ rest. (observed.new, words_of rest.now)) result (observed_read (words_of left.now)) }
{
    if !begins_by(b"observes", left) {
        *observed = None;
        return Ok(left);
    }
    let left = past_keyword(b"observes", left)?;
    let (word, letter, left) = observed_prop_read(alloc, left)?;
    let (reaction, left) = reaction(left)?;
    *observed = Some(Observed {
        word,
        letter,
        reaction,
    });
    Ok(left)
}

/// Puts in what stands behind the name of a step.
fn read_step(alloc: Global, left: &[u8], step: &mut Step) -> Result<(), LineFault>
    ensures { GivesRead (λ u. the_plan_step step.new) result (step_rest_read step.old.name (words_of left.now)) }
{
    let left = read_observed(alloc, left, &mut step.observed)?;
    let mut rest = rest_begun(alloc, Expects::If);
    read_rest(alloc, left, &mut rest)?;
    step.label = rest.label;
    Ok(())
}

/// A step of which the name alone is known.
fn step_of(alloc: Global, name: Name) -> Step
    ensures { result.name ≡ name }
{
    Step {
        name,
        observed: None,
        label: Vec::new(alloc),
    }
}

/// A time-point behind `start of` or `end of`.
fn side(alloc: Global, side: Side, left: &[u8]) -> Result<(Point, &[u8]), LineFault>
    ensures { GivesRead (λ r. (r.0, words_of r.1.now)) result (side_read side (words_of left.now)) }
{
    let left = past_keyword(b"of", left)?;
    let (name, left) = name(alloc, left)?;
    Ok((Point { name, side }, left))
}

/// A rule of which the time-point alone is known.
fn rule_of(alloc: Global, point: Point) -> Rule
    ensures { result.point ≡ point }
{
    Rule {
        point,
        says: Says::NotBefore,
        since: Vec::new(alloc),
        label: Vec::new(alloc),
    }
}

/// Puts in that a rule says this of its time-point, and the rest of its words.
fn read_said(
    alloc: Global,
    says: Says,
    expects: Expects,
    left: &[u8],
    it: &mut Rule,
) -> Result<(), LineFault>
    ensures { GivesRead (λ u. rule (the_rule it.new)) result (rule_by it.old.point says expects (words_of left.now)) }
{
    let mut rest = rest_begun(alloc, expects);
    read_rest(alloc, left, &mut rest)?;
    it.says = says;
    it.since = rest.since;
    it.label = rest.label;
    Ok(())
}

/// Puts in what stands behind `by`: a span, and then `after`, without which the span is a time.
fn read_by(alloc: Global, left: &[u8], it: &mut Rule) -> Result<(), LineFault>
    ensures { GivesRead (λ u. rule (the_rule it.new)) result (by_read it.old.point (words_of left.now)) }
{
    let (span, left) = span(left)?;
    if begins_by(b"after", left) {
        let left = past_keyword(b"after", left)?;
        return read_said(alloc, Says::ByAfter(span), Expects::Since, left, it);
    }
    if span.ticks < 0 {
        return Err(wrong(left));
    }
    read_said(alloc, Says::By(span), Expects::If, left, it)
}

/// Puts in what stands behind `within`.
fn read_within(alloc: Global, left: &[u8], it: &mut Rule) -> Result<(), LineFault>
    ensures { GivesRead (λ u. rule (the_rule it.new)) result (within_read it.old.point (words_of left.now)) }
{
    let (span, left) = time(left)?;
    let left = past_keyword(b"after", left)?;
    read_said(alloc, Says::Within(span), Expects::Since, left, it)
}

/// Puts in a range, and what it counts from.
fn read_between(alloc: Global, left: &[u8], it: &mut Rule) -> Result<(), LineFault>
    ensures { GivesRead (λ u. rule (the_rule it.new)) result (between_read it.old.point (words_of left.now)) }
{
    let (range, left) = range(left)?;
    let left = past_keyword(b"after", left)?;
    read_said(alloc, Says::Between(range), Expects::Since, left, it)
}

/// Puts in what stands behind `at`.
fn read_at(alloc: Global, left: &[u8], it: &mut Rule) -> Result<(), LineFault>
    ensures { GivesRead (λ u. rule (the_rule it.new)) result (at_range_read it.old.point (words_of left.now)) }
{
    let (range, left) = range(left)?;
    read_said(alloc, Says::At(range), Expects::If, left, it)
}

/// Puts in what the words behind the time-point of a rule say.
fn read_rule(alloc: Global, left: &[u8], it: &mut Rule) -> Result<(), LineFault>
    ensures { GivesRead (λ u. rule (the_rule it.new)) result (point_rule_read it.old.point (words_of left.now)) }
{
    let Some((word, rest)) = next_word(left) else {
        return Err(LineFault::Wrong { left: 0 });
    };
    if word == b"at".as_slice() {
        return read_at(alloc, rest, it);
    }
    if word == b"by".as_slice() {
        return read_by(alloc, rest, it);
    }
    if word == b"within".as_slice() {
        return read_within(alloc, rest, it);
    }
    if word == b"after".as_slice() {
        return read_said(alloc, Says::NotBefore, Expects::Since, rest, it);
    }
    if word == b"with".as_slice() {
        return read_said(alloc, Says::Together, Expects::Since, rest, it);
    }
    read_between(alloc, left, it)
}

/// `start of` and a rule, or `start` and a time of the clock.
fn read_start(alloc: Global, left: &[u8], line: &mut Line) -> Result<(), LineFault>
    ensures { GivesRead (λ u. the_plan_line line.new) result (start_line_read (words_of left.now)) }
{
    if begins_by(b"of", left) {
        return read_sided(alloc, Side::First, left, line);
    }
    let (span, left) = clock(left)?;
    read_end(Line::Start(span), left, line)
}

/// A rule of one end of a task.
fn read_sided(alloc: Global, end: Side, left: &[u8], line: &mut Line) -> Result<(), LineFault>
    ensures { GivesRead (λ u. the_plan_line line.new) result (sided_read end (words_of left.now)) }
{
    let (point, left) = side(alloc, end, left)?;
    let mut it = rule_of(alloc, point);
    read_rule(alloc, left, &mut it)?;
    *line = Line::Rule(it);
    Ok(())
}

fn read_deadline(left: &[u8], line: &mut Line) -> Result<(), LineFault>
    ensures { GivesRead (λ u. the_plan_line line.new) result (deadline_read (words_of left.now)) }
{
    let (span, left) = time(left)?;
    read_end(Line::Deadline(span), left, line)
}

fn read_named_step(alloc: Global, left: &[u8], line: &mut Line) -> Result<(), LineFault>
    ensures { GivesRead (λ u. the_plan_line line.new) result (named_step (words_of left.now)) }
{
    let (name, left) = name(alloc, left)?;
    let mut step = step_of(alloc, name);
    read_step(alloc, left, &mut step)?;
    *line = Line::Step(step);
    Ok(())
}

/// A task: its name, its length, and then as for a step.
fn read_task(alloc: Global, left: &[u8], line: &mut Line) -> Result<(), LineFault>
    ensures { GivesRead (λ u. the_plan_line line.new) result (task_read (words_of left.now)) }
{
    let (name, left) = name(alloc, left)?;
    let (range, left) = range(left)?;
    let mut step = step_of(alloc, name);
    read_step(alloc, left, &mut step)?;
    *line = Line::Task(step, range);
    Ok(())
}

/// A rule that begins with a name.
fn read_named_rule(alloc: Global, left: &[u8], line: &mut Line) -> Result<(), LineFault>
    ensures { GivesRead (λ u. the_plan_line line.new) result (named_rule (words_of left.now)) }
{
    let (name, left) = name(alloc, left)?;
    let side = Side::Alone;
    let mut it = rule_of(alloc, Point { name, side });
    read_rule(alloc, left, &mut it)?;
    *line = Line::Rule(it);
    Ok(())
}

/// Puts in the line of the words that are left.
pub fn read_line(alloc: Global, left: &[u8], line: &mut Line) -> Result<(), LineFault>
    ensures { GivesRead (λ u. the_plan_line line.new) result (plan_line_read (words_of left.now)) }
{
    let Some((word, rest)) = next_word(left) else {
        *line = Line::Nothing;
        return Ok(());
    };
    if word == b"deadline".as_slice() {
        return read_deadline(rest, line);
    }
    if word == b"start".as_slice() {
        return read_start(alloc, rest, line);
    }
    if word == b"step".as_slice() {
        return read_named_step(alloc, rest, line);
    }
    if word == b"task".as_slice() {
        return read_task(alloc, rest, line);
    }
    if word == b"end".as_slice() {
        return read_sided(alloc, Side::Last, rest, line);
    }
    read_named_rule(alloc, left, line)
}
