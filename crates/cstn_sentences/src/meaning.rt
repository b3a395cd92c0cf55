//! What the lines mean.

ghost use Rattle.std.specs.Prelude.{◌≡◌, ◌<◌, ◌≤◌, ◌-◌, ◌^◌, ◌++◌, ◌∷◌, [], false, true, IfOk, IfErr, IfSome, IsTrue, OnOk, Some, length};
ghost use Rattle.std.specs.Prelude.{map, flat_map, option_map, option_to_list, slice_index_or, pos, ◌+ℤ◌};
ghost use Rattle.std.specs.List.{list_all};
ghost use Rattle.cstn_label.specs.Labels.{empty};
ghost use Rattle.cstn_label.specs.Read.{marks};
ghost use Rattle.cstn_text.specs.Names.{number_of};
ghost use Rattle.cstn_graphml.specs.DrawnGraphSeen.{drawn_seen};
ghost use Rattle.cstn_sentences.specs.Answers.{FailsPlan, TellsPlan};
ghost use Rattle.cstn_sentences.specs.Drawn.{kept_meaning, IsKeptOfMeant};
ghost use Rattle.cstn_sentences.specs.Judged.{is_sized};
ghost use Rattle.cstn_sentences.specs.Lines.{the_plan_step, the_rule, the_plan_line};
ghost use Rattle.cstn_sentences.specs.Meaning.{nothing_meant, letter_in, prop_in, mark_said, label_meant_after};
ghost use Rattle.cstn_sentences.specs.Meaning.{side_of, point_in, outcome_in, moment_in, moments_in};
ghost use Rattle.cstn_sentences.specs.Meaning.{since_origin, is_sized_from, are_sized_from, at_least, at_most, constraints_of, with_rule, mean_rule};
ghost use Rattle.cstn_sentences.specs.Meaning.{with_label, mean_step, with_task_labels, mean_task, mean, meant_line, meant_after};
ghost use Rattle.cstn_sentences.specs.SeenDeclared.{the_declared};
ghost use Rattle.cstn_sentences.specs.SeenMeaning.{the_meaning, Knows};
ghost use Rattle.cstn_sentences.specs.Words.{plan_lines, is_of_words};

use crate::bounds::{Bounds, are_in_order, bounds_of, is_of_end};
use crate::declarations::{Declared, Meant, letter_for};
use crate::errors::PlanError;
use crate::judged::line_of_words;
use crate::lines::{Line, Literal, Point, Range, Reference, Rule, Says, Side, Step, Word};
use crate::observers::Observers;
use crate::spelling::is_letter_word;
use crate::words::{next_word, without_mark};
use cstn_graphml::DrawnConstraint;
use cstn_label::{Label, Mark, Prop};
use cstn_net::MAX_CONSTRAINTS;
use cstn_text::{Names, cut_at};
use std::alloc::{AllocError, Global};

/// The labels of the origin and of the time-points after it, and the constraints.
#[derive(Drop)]
pub struct Meaning {
    pub origin_label: Label,
    pub labels: Vec<Label>,
    pub constraints: Vec<DrawnConstraint>,
}

/// The letter of a proposition: itself, or that of the word.
fn letter_in(words: &[Meant], prop: &[u8]) -> Option<u8>
    ensures { result ≡ letter_in words.now prop.now }
{
    match prop {
        [] => None,
        [letter, ..] => {
            if is_letter_word(prop) {
                return Some(*letter);
            }
            letter_for(prop, words)
        }
    }
}

fn prop_in(alloc: Global, n: u32, words: &[Meant], prop: &Word) -> Result<Prop, PlanError>
    ensures { TellsPlan (λ p. p.index) result (prop_in n words.now prop.now) }
{
    let Some(letter) = letter_in(words, prop.as_bytes()) else {
        return Err(PlanError::NoLetter {
            line: n,
            word: Word::new(alloc, prop.as_bytes())?,
        });
    };
    let Some(found) = Prop::from_letter(letter) else {
        return Err(PlanError::NoLetter {
            line: n,
            word: Word::new(alloc, prop.as_bytes())?,
        });
    };
    Ok(found)
}

fn mark_said(holds: bool) -> Mark
    ensures { result ≡ mark_said holds }
{
    if holds { Mark::Yes } else { Mark::No }
}

/// The label of literals, each of another proposition.
fn label_meant(
    alloc: Global,
    n: u32,
    words: &[Meant],
    literals: &[Literal],
) -> Result<Label, PlanError>
    ensures { TellsPlan marks result (label_meant_after n words.now empty literals.now) }
{
    let mut label = Label::empty();
    let mut left = literals;
    while let Some((literal, rest)) = left.split_first() {
        let p = prop_in(alloc, n, words, &literal.prop)?;
        let Mark::Absent = label.mark(p) else {
            return Err(PlanError::Twice {
                line: n,
                text: Word::new(alloc, literal.prop.as_bytes())?,
            });
        };
        label = label.with(p, mark_said(literal.holds));
        left = rest;
    }
    Ok(label)
}

/// The number of a time-point.
fn number_in(names: &Names, name: &str) -> Option<u32>
    ensures number { result ≡ number_of names.now name.now }
    ensures below { IfSome result (λ k. k < 2 ^ 32 - 1) }
{
    let count = names.count();
    let k = names.find(name)?;
    prove!(k < count);
    Some(k)
}

/// Whether this is the name of the time-point with a number.
fn is_named(names: &Names, x: usize, name: &str) -> bool
    ensures { IsTrue result → number_of names.now name.now ≡ Some x }
{
    let Some(text) = names.as_slice().get(x) else {
        return false;
    };
    text.as_str() == name
}

/// The number of the next task: that of the next label, where the names are in the order of their lines.
fn task_number(names: &Names, name: &str, next: usize) -> Option<u32>
    ensures number { result ≡ number_of names.now name.now }
    ensures below { IfSome result (λ k. k < 2 ^ 32 - 1) }
{
    let count = names.count();
    if next < count as usize && is_named(names, next, name) {
        return Some(next as u32);
    }
    number_in(names, name)
}

/// The number of one end of a task; a step has none.
fn side_of(side: Side, is_end: bool, k: u32, is_task: bool) -> Option<u32>
    requires { k < 2 ^ 32 - 1 }
    ensures { result ≡ side_of side is_end k is_task }
{
    match side {
        Side::Alone => Some(if is_task && is_end { k + 1 } else { k }),
        Side::First => {
            if is_task {
                return Some(k);
            }
            None
        }
        Side::Last => {
            if is_task {
                return Some(k + 1);
            }
            None
        }
    }
}

fn begins_task(d: &Declared, k: u32) -> bool
    ensures { result ≡ slice_index_or (the_declared d.now).begins_task k false }
{
    match d.begins_task.get(k as usize) {
        Some(begins) => *begins,
        None => false,
    }
}

/// The number of a time-point, where a task's name alone is its end or its start.
fn point_in(
    alloc: Global,
    n: u32,
    d: &Declared,
    is_end: bool,
    point: &Point,
) -> Result<u32, PlanError>
    ensures { TellsPlan (λ x. x) result (point_in n (the_declared d.now) is_end point.now) }
{
    let Some(k) = number_in(&d.names, point.name.as_str()) else {
        return Err(PlanError::NoName {
            line: n,
            name: point.name.copy(alloc)?,
        });
    };
    let Some(x) = side_of(point.side, is_end, k, begins_task(d, k)) else {
        return Err(PlanError::NoName {
            line: n,
            name: point.name.copy(alloc)?,
        });
    };
    Ok(x)
}

/// When the outcome of the proposition is known: its reaction after its observer.
fn outcome_in(
    alloc: Global,
    n: u32,
    d: &Declared,
    observers: &Observers,
    prop: &Word,
) -> Result<(u32, i64), PlanError>
    requires { Knows (the_declared d.now) observers.now }
    ensures { TellsPlan (λ m. m) result (outcome_in n (the_declared d.now) prop.now) }
{
    let p = prop_in(alloc, n, d.words.as_slice(), prop)?;
    let Some((x, reaction)) = observers.first(p) else {
        return Err(PlanError::NoLetter {
            line: n,
            word: Word::new(alloc, prop.as_bytes())?,
        });
    };
    Ok((x, reaction as i64))
}

fn moment_in(
    alloc: Global,
    n: u32,
    d: &Declared,
    observers: &Observers,
    reference: &Reference,
) -> Result<(u32, i64), PlanError>
    requires { Knows (the_declared d.now) observers.now }
    ensures { TellsPlan (λ m. m) result (moment_in n (the_declared d.now) reference.now) }
{
    match reference {
        Reference::Moment(point) => {
            let x = point_in(alloc, n, d, true, point)?;
            Ok((x, 0))
        }
        Reference::Outcome(prop) => outcome_in(alloc, n, d, observers, prop),
    }
}

/// The moments that a rule counts from: so many ticks after a time-point.
fn moments_in(
    alloc: Global,
    n: u32,
    d: &Declared,
    observers: &Observers,
    since: &[Reference],
) -> Result<Vec<(u32, i64)>, PlanError>
    requires { Knows (the_declared d.now) observers.now }
    ensures { TellsPlan (λ ms. ms.items) result (moments_in n (the_declared d.now) since.now) }
{
    let mut moments = Vec::with_capacity(alloc, since.len())?;
    let mut left = since;
    while let Some((reference, rest)) = left.split_first() {
        let moment = moment_in(alloc, n, d, observers, reference)?;
        moments.push(moment)?;
        left = rest;
    }
    Ok(moments)
}

/// `at`, and `by` without `after`, count from the origin.
fn since_origin<'a>(
    says: Says,
    origin: &'a [(u32, i64)],
    moments: &'a [(u32, i64)],
) -> &'a [(u32, i64)]
    requires { origin.now ≡ (0, pos 0) ∷ [] }
    ensures { result.now ≡ since_origin says moments.now }
{
    match says {
        Says::At(_) => origin,
        Says::By(_) => origin,
        Says::Between(_) => moments,
        Says::ByAfter(_) => moments,
        Says::Within(_) => moments,
        Says::NotBefore => moments,
        Says::Together => moments,
    }
}

/// Whether ticks are at most 1,000,000,000 either way, counted from a time-point.
fn is_sized_sum(ticks: i64, shift: i64) -> bool
    ensures { result ≡ is_sized (ticks +ℤ shift) }
{
    match ticks.checked_add(shift) {
        Some(sum) => -1_000_000_000 <= sum && sum <= 1_000_000_000,
        None => false,
    }
}

fn is_sized_from(shift: i64, ticks: Option<i64>) -> bool
    ensures { result ≡ is_sized_from shift ticks }
{
    match ticks {
        Some(ticks) => is_sized_sum(ticks, shift),
        None => true,
    }
}

fn are_sized_from(bounds: Bounds, moment: (u32, i64)) -> bool
    ensures { result ≡ are_sized_from bounds moment }
{
    is_sized_from(moment.1, bounds.least) && is_sized_from(moment.1, bounds.most)
}

fn are_all_sized(bounds: Bounds, moments: &[(u32, i64)]) -> bool
    ensures { result ≡ list_all (are_sized_from bounds) moments.now }
{
    moments.iter().all(|m| are_sized_from(bounds, *m))
}

/// So many ticks after a moment, counted from its time-point.
fn shifted(ticks: i64, shift: i64) -> i32
    requires { is_sized (ticks +ℤ shift) ≡ true }
    ensures sum { result ≡ ticks +ℤ shift }
{
    (ticks + shift) as i32
}

/// The constraint that x is at least so many ticks after y.
fn at_least(x: u32, y: u32, ticks: i32, label: Label) -> DrawnConstraint
    requires { is_sized ticks ≡ true }
    ensures { drawn_seen result ≡ at_least x y ticks (marks label) }
{
    DrawnConstraint {
        from: x,
        to: y,
        most: -ticks,
        label,
    }
}

/// The constraint that x is at most so many ticks after y.
fn at_most(x: u32, y: u32, ticks: i32, label: Label) -> DrawnConstraint
    ensures { drawn_seen result ≡ at_most x y ticks (marks label) }
{
    DrawnConstraint {
        from: y,
        to: x,
        most: ticks,
        label,
    }
}

/// Puts in that x is at least so many ticks after a moment, where that is said.
fn put_least(
    x: u32,
    least: Option<i64>,
    label: Label,
    moment: (u32, i64),
    constraints: &mut Vec<DrawnConstraint>,
) -> Result<(), AllocError>
    requires { is_sized_from moment.1 least ≡ true }
    ensures { OnOk result (map drawn_seen constraints.new.items
        ≡ map drawn_seen constraints.old.items ++ option_to_list (option_map (λ a. at_least x moment.0 (a +ℤ moment.1) (marks label)) least)) }
{
    let Some(ticks) = least else {
        return Ok(());
    };
    constraints.push(at_least(x, moment.0, shifted(ticks, moment.1), label))?;
    Ok(())
}

/// Puts in that x is at most so many ticks after a moment, where that is said.
fn put_most(
    x: u32,
    most: Option<i64>,
    label: Label,
    moment: (u32, i64),
    constraints: &mut Vec<DrawnConstraint>,
) -> Result<(), AllocError>
    requires { is_sized_from moment.1 most ≡ true }
    ensures { OnOk result (map drawn_seen constraints.new.items
        ≡ map drawn_seen constraints.old.items ++ option_to_list (option_map (λ a. at_most x moment.0 (a +ℤ moment.1) (marks label)) most)) }
{
    let Some(ticks) = most else {
        return Ok(());
    };
    constraints.push(at_most(x, moment.0, shifted(ticks, moment.1), label))?;
    Ok(())
}

/// Puts in the constraints that x is in these bounds, counted from a moment.
fn put_constraints(
    x: u32,
    bounds: Bounds,
    label: Label,
    moment: (u32, i64),
    constraints: &mut Vec<DrawnConstraint>,
) -> Result<(), AllocError>
    requires { are_sized_from bounds moment ≡ true }
    ensures { OnOk result (map drawn_seen constraints.new.items
        ≡ map drawn_seen constraints.old.items ++ constraints_of x bounds (marks label) moment) }
{
    put_least(x, bounds.least, label, moment, constraints)?;
    put_most(x, bounds.most, label, moment, constraints)
}

/// Puts in the constraints that x is in these bounds, counted from each moment.
fn put_rule(
    x: u32,
    bounds: Bounds,
    label: Label,
    moments: &[(u32, i64)],
    constraints: &mut Vec<DrawnConstraint>,
) -> Result<(), AllocError>
    requires { list_all (are_sized_from bounds) moments.now ≡ true }
    ensures { OnOk result (map drawn_seen constraints.new.items
        ≡ map drawn_seen constraints.old.items ++ flat_map (constraints_of x bounds (marks label)) moments.now) }
{
    let mut left = moments;
    while let Some((moment, rest)) = left.split_first() {
        put_constraints(x, bounds, label, *moment, constraints)?;
        left = rest;
    }
    Ok(())
}

fn mean_rule(
    alloc: Global,
    n: u32,
    d: &Declared,
    observers: &Observers,
    rule: &Rule,
    m: &mut Meaning,
) -> Result<(), PlanError>
    requires { Knows (the_declared d.now) observers.now }
    ensures { TellsPlan (λ u. the_meaning m.new) result (mean_rule n (the_declared d.now) (the_rule rule.now) (the_meaning m.old)) }
{
    let x = point_in(alloc, n, d, is_of_end(rule.says), &rule.point)?;
    let bounds = bounds_of(d.start, rule.says);
    if !are_in_order(bounds) {
        return Err(PlanError::Range { line: n });
    }
    let moments = moments_in(alloc, n, d, observers, rule.since.as_slice())?;
    let label = label_meant(alloc, n, d.words.as_slice(), rule.label.as_slice())?;
    let origin = [(0, 0)];
    let moments = since_origin(rule.says, origin.as_slice(), moments.as_slice());
    if !are_all_sized(bounds, moments) {
        return Err(PlanError::Range { line: n });
    }
    put_rule(x, bounds, label, moments, &mut m.constraints)?;
    Ok(())
}

/// Puts in the label of a step.
fn put_label(name: &str, label: Label, m: &mut Meaning) -> Result<(), AllocError>
    ensures { OnOk result (the_meaning m.new ≡ with_label name.now (marks label) (the_meaning m.old)) }
{
    if name == "Z" {
        m.origin_label = label;
        return Ok(());
    }
    m.labels.push(label)?;
    Ok(())
}

fn mean_step(
    alloc: Global,
    n: u32,
    d: &Declared,
    step: &Step,
    m: &mut Meaning,
) -> Result<(), PlanError>
    ensures { TellsPlan (λ u. the_meaning m.new) result (mean_step n (the_declared d.now) (the_plan_step step.now) (the_meaning m.old)) }
{
    let label = label_meant(alloc, n, d.words.as_slice(), step.label.as_slice())?;
    put_label(step.name.as_str(), label, m)?;
    Ok(())
}

/// Puts in the labels of a task's start and end.
fn put_task_labels(label: Label, m: &mut Meaning) -> Result<(), AllocError>
    ensures { OnOk result (the_meaning m.new ≡ with_task_labels (marks label) (the_meaning m.old)) }
{
    m.labels.push(label)?;
    m.labels.push(label)?;
    Ok(())
}

fn mean_task(
    alloc: Global,
    n: u32,
    d: &Declared,
    step: &Step,
    range: Range,
    m: &mut Meaning,
) -> Result<(), PlanError>
    ensures { TellsPlan (λ u. the_meaning m.new) result (mean_task n (the_declared d.now) (the_plan_step step.now) range (the_meaning m.old)) }
{
    let label = label_meant(alloc, n, d.words.as_slice(), step.label.as_slice())?;
    let next = m.labels.len().saturating_add(1);
    let Some(x) = task_number(&d.names, step.name.as_str(), next) else {
        return Err(PlanError::NoName {
            line: n,
            name: step.name.copy(alloc)?,
        });
    };
    let bounds = bounds_of(None, Says::Between(range));
    let start = [(x, 0)];
    if !are_all_sized(bounds, start.as_slice()) {
        return Err(PlanError::Range { line: n });
    }
    put_task_labels(label, m)?;
    put_rule(
        x + 1,
        bounds,
        Label::empty(),
        start.as_slice(),
        &mut m.constraints,
    )?;
    Ok(())
}

/// What is meant once a line was read.
fn mean(
    alloc: Global,
    n: u32,
    d: &Declared,
    observers: &Observers,
    line: &Line,
    m: &mut Meaning,
) -> Result<(), PlanError>
    requires { Knows (the_declared d.now) observers.now }
    ensures { TellsPlan (λ u. the_meaning m.new) result (mean n (the_declared d.now) (the_meaning m.old) (the_plan_line line.now)) }
{
    match line {
        Line::Nothing => Ok(()),
        Line::Deadline(_) => Ok(()),
        Line::Start(_) => Ok(()),
        Line::Step(step) => mean_step(alloc, n, d, step, m),
        Line::Task(step, range) => mean_task(alloc, n, d, step, *range, m),
        Line::Rule(rule) => mean_rule(alloc, n, d, observers, rule, m),
    }
}

/// What is meant once a line of words was read.
fn mean_text(
    alloc: Global,
    n: u32,
    d: &Declared,
    observers: &Observers,
    text: &[u8],
    m: &mut Meaning,
) -> Result<(), PlanError>
    requires knows { Knows (the_declared d.now) observers.now }
    requires words { is_of_words text.now ≡ true }
    ensures { TellsPlan (λ u. the_meaning m.new) result (meant_line n (the_declared d.now) (the_meaning m.old) text.now) }
{
    let Some(_) = next_word(text) else {
        return Ok(());
    };
    let mut line = Line::Nothing;
    line_of_words(alloc, n, text, &mut line)?;
    mean(alloc, n, d, observers, &line, m)
}

fn nothing_meant(alloc: Global) -> Meaning
    ensures { the_meaning result ≡ nothing_meant }
{
    Meaning {
        origin_label: Label::empty(),
        labels: Vec::new(alloc),
        constraints: Vec::new(alloc),
    }
}

/// Keeps no more constraints than one past the limit of a network.
fn keep(m: &mut Meaning)
    ensures { the_meaning m.new ≡ kept_meaning (the_meaning m.old) }
{
    m.constraints.truncate(MAX_CONSTRAINTS + 1);
}

/// What the lines of a text mean, which declare this, as far as a graph keeps it. The text has at most 8,388,608 bytes.
pub fn mean_lines(
    alloc: Global,
    d: &Declared,
    observers: &Observers,
    text: &[u8],
) -> Result<Meaning, PlanError>
    requires short { length text.now ≤ 8388608 }
    requires knows { Knows (the_declared d.now) observers.now }
    requires words { list_all is_of_words (plan_lines text.now) ≡ true }
    ensures meant { IfOk result (λ m. IsKeptOfMeant (meant_after 1 (the_declared d.now) nothing_meant (plan_lines text.now)) (the_meaning m)) }
    ensures refused { IfErr result (λ e. FailsPlan e (meant_after 1 (the_declared d.now) nothing_meant (plan_lines text.now))) }
{
    let mut m = nothing_meant(alloc);
    let mut left = without_mark(text);
    let mut n = 1;
    while let Some((line, rest)) = cut_at(left, b'\n') {
        mean_text(alloc, n, d, observers, line, &mut m)?;
        keep(&mut m);
        n += 1;
        left = rest;
    }
    mean_text(alloc, n, d, observers, left, &mut m)?;
    Ok(m)
}
