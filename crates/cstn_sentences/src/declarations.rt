//! What the lines declare.

ghost use Rattle.std.specs.Prelude.{◌≡◌, ◌≤◌, [], None, false, IfOk, OnOk, length, string_bytes, bytes_eq};
ghost use Rattle.std.specs.List.{list_any};
ghost use Rattle.cstn_graphml.specs.DrawnGraphSeen.{observed_seen};
ghost use Rattle.cstn_text.specs.Names.{IsName, number_of};
ghost use Rattle.cstn_sentences.specs.Answers.{TellsPlan};
ghost use Rattle.cstn_sentences.specs.Declarations.{with_point, with_step, nothing_declared, is_declared, is_origin, end_name};
ghost use Rattle.cstn_sentences.specs.Declarations.{step_observation, letter_for, has_word, with_word_for, with_word, with_observed};
ghost use Rattle.cstn_sentences.specs.Declarations.{are_new_literals, words_with, declare_step, is_task, declare_task, declare, declared_line, declared_after};
ghost use Rattle.cstn_sentences.specs.Lines.{deadline, start, the_plan_step, the_plan_line};
ghost use Rattle.cstn_sentences.specs.SeenDeclared.{the_declared};
ghost use Rattle.cstn_sentences.specs.Words.{plan_lines};

use crate::errors::PlanError;
use crate::judged::line_of_words;
use crate::lines::{Line, Literal, Name, Observed, Span, Step, Word};
use crate::words::{is_of_words, next_word, without_mark};
use cstn_graphml::Observation;
use cstn_label::Prop;
use cstn_text::{NameError, NameKey, Names, cut_at};
use std::alloc::{AllocError, Global};

/// The most bytes of a task's name.
const MAX_TASK: usize = 60;

/// A word, and the letter that it stands for.
#[derive(Drop)]
pub struct Meant {
    pub word: Word,
    pub letter: u8,
}

/// What the lines declare: the deadline, the clock at tick 0, the words for letters, what the origin observes once its step was
/// read, the names with the origin's first, which time-points begin a task, and what those after the origin observe.
#[derive(Drop)]
pub struct Declared {
    pub deadline: Option<Span>,
    pub start: Option<i32>,
    pub words: Vec<Meant>,
    pub origin: Option<Option<Observation>>,
    pub names: Names,
    pub begins_task: Vec<bool>,
    pub observes: Vec<Option<Observation>>,
}

/// Nothing is declared yet. The names are hashed with the key.
fn nothing_declared(alloc: Global, key: NameKey) -> Result<Declared, AllocError>
    ensures { IfOk result (λ d. the_declared d ≡ nothing_declared) }
{
    let mut names = Names::new(alloc, key);
    let Ok(_) = names.push("Z") else {
        return Err(AllocError);
    };
    let mut begins_task = Vec::new(alloc);
    begins_task.push(false)?;
    Ok(Declared {
        deadline: None,
        start: None,
        words: Vec::new(alloc),
        origin: None,
        names,
        begins_task,
        observes: Vec::new(alloc),
    })
}

/// Whether a step or a task of the name was declared, or a task whose end has it.
fn is_declared(name: &str, d: &Declared) -> bool
    ensures { result ≡ is_declared name.now (the_declared d.now) }
{
    if name == "Z" {
        return d.origin.is_some();
    }
    d.names.find(name).is_some()
}

/// The name of the end of a task.
fn end_name(alloc: Global, name: &str) -> Result<String, AllocError>
    ensures { IfOk result (λ text. string_bytes text ≡ end_name name.now) }
{
    let mut text = String::from_str(alloc, name)?;
    text.push_str(".end")?;
    Ok(text)
}

/// The observation of what a step observes.
fn step_observation(observed: &Option<Observed>) -> Option<Observation>
    ensures { observed_seen result ≡ step_observation observed.now }
{
    let Some(o) = observed else {
        return None;
    };
    let prop = Prop::from_letter(o.letter)?;
    Some(Observation {
        prop,
        reaction: o.reaction.ticks.unsigned_abs(),
    })
}

/// The letter that a word stands for.
pub fn letter_for(word: &[u8], words: &[Meant]) -> Option<u8>
    ensures { result ≡ letter_for word.now words.now }
{
    let mut left = words;
    while let Some((m, rest)) = left.split_first() {
        if m.word.as_bytes() == word {
            return Some(m.letter);
        }
        left = rest;
    }
    None
}

/// Whether some word stands for the letter.
fn has_word(letter: u8, words: &[Meant]) -> bool
    ensures { result ≡ has_word letter words.now }
{
    words.iter().any(|m| m.letter == letter)
}

/// Puts in a word for the letter.
fn put_word(
    alloc: Global,
    n: u32,
    word: &[u8],
    letter: u8,
    words: &mut Vec<Meant>,
) -> Result<(), PlanError>
    ensures { TellsPlan (λ u. words.new.items) result (with_word_for n word.now letter words.old.items (letter_for word.now words.old.items)) }
{
    if let Some(other) = letter_for(word, words.as_slice()) {
        if other != letter {
            return Err(PlanError::Twice {
                line: n,
                text: Word::new(alloc, word)?,
            });
        }
        return Ok(());
    }
    if has_word(letter, words.as_slice()) {
        return Err(PlanError::Twice {
            line: n,
            text: Word::new(alloc, &[letter])?,
        });
    }
    let word = Word::new(alloc, word)?;
    words.push(Meant { word, letter })?;
    Ok(())
}

/// Puts in the word of what a step observes, if it has one.
fn put_observed(
    alloc: Global,
    n: u32,
    observed: &Option<Observed>,
    words: &mut Vec<Meant>,
) -> Result<(), PlanError>
    ensures { TellsPlan (λ u. words.new.items) result (with_observed n observed.now words.old.items) }
{
    let Some(o) = observed else {
        return Ok(());
    };
    match &o.word {
        None => Ok(()),
        Some(word) => put_word(alloc, n, word.as_bytes(), o.letter, words),
    }
}

fn stands_in(word: &[u8], literals: &[Literal]) -> bool
    ensures { result ≡ list_any (λ s. bytes_eq s.prop word.now) literals.now }
{
    literals.iter().any(|s| s.prop.as_bytes() == word)
}

/// Whether no word stands twice in a label.
#[tactic(auto, unfolding(crate::specs::Declarations::are_new_literals))]
fn are_new_literals(alloc: Global, n: u32, label: &[Literal]) -> Result<(), PlanError>
    ensures { TellsPlan (λ u. u) result (are_new_literals n [] label.now) }
{
    let mut seen = 0;
    let mut left = label;
    while let Some((literal, rest)) = left.split_first() {
        if stands_in(literal.prop.as_bytes(), &label[..seen]) {
            return Err(PlanError::Twice {
                line: n,
                text: Word::new(alloc, literal.prop.as_bytes())?,
            });
        }
        seen += 1;
        left = rest;
    }
    Ok(())
}

/// Puts in the word of a step, whose label has no word twice.
fn put_words(alloc: Global, n: u32, step: &Step, words: &mut Vec<Meant>) -> Result<(), PlanError>
    ensures { TellsPlan (λ u. words.new.items) result (words_with n (the_plan_step step.now) words.old.items) }
{
    put_observed(alloc, n, &step.observed, words)?;
    are_new_literals(alloc, n, step.label.as_slice())
}

/// Puts in a time-point more, whose name wasn't declared.
fn put_point(
    name: &str,
    begins: bool,
    observed: Option<Observation>,
    d: &mut Declared,
) -> Result<(), AllocError>
    requires new { number_of d.old.names name.now ≡ None }
    requires some { 1 ≤ length name.now }
    requires few { length name.now ≤ 64 }
    ensures { OnOk result (the_declared d.new ≡ with_point name.now begins (observed_seen observed) (the_declared d.old)) }
{
    if d.names.count() == u32::MAX {
        return Err(AllocError);
    }
    match d.names.push(name) {
        Ok(_) => {
            d.begins_task.push(begins)?;
            d.observes.push(observed)?;
            Ok(())
        }
        Err(NameError::Memory(e)) => Err(e),
        Err(NameError::Shape) => unreachable!(),
        Err(NameError::Twice) => unreachable!(),
    }
}

/// Puts in a step whose name wasn't declared.
fn put_step(name: &str, observed: Option<Observation>, d: &mut Declared) -> Result<(), AllocError>
    requires new { is_declared name.now (the_declared d.old) ≡ false }
    requires named { IsName name.now }
    ensures { OnOk result (the_declared d.new ≡ with_step name.now (observed_seen observed) (the_declared d.old)) }
{
    if name == "Z" {
        d.origin = Some(observed);
        return Ok(());
    }
    put_point(name, false, observed, d)
}

fn declare_step(alloc: Global, n: u32, step: &Step, d: &mut Declared) -> Result<(), PlanError>
    ensures { TellsPlan (λ u. the_declared d.new) result (declare_step n (the_plan_step step.now) (the_declared d.old)) }
{
    let name = step.name.as_str();
    if is_declared(name, d) {
        return Err(PlanError::Twice {
            line: n,
            text: Word::new(alloc, name.as_bytes())?,
        });
    }
    put_words(alloc, n, step, &mut d.words)?;
    put_step(name, step_observation(&step.observed), d)?;
    Ok(())
}

/// Whether neither the task nor its end was declared, it isn't the origin, and its name has at most 60 bytes.
fn is_task(alloc: Global, n: u32, name: &Name, end: &str, d: &Declared) -> Result<(), PlanError>
    requires { end.now ≡ end_name name.now }
    ensures told { TellsPlan (λ u. u) result (is_task n name.now (the_declared d.now)) }
    ensures new { OnOk result (is_declared name.now (the_declared d.now) ≡ false) }
    ensures ends { OnOk result (is_declared end.now (the_declared d.now) ≡ false) }
    ensures other { OnOk result (is_origin name.now ≡ false) }
    ensures few { OnOk result (length name.now ≤ 60) }
{
    let text = name.as_str();
    if is_declared(text, d) {
        return Err(PlanError::Twice {
            line: n,
            text: Word::new(alloc, text.as_bytes())?,
        });
    }
    if is_declared(end, d) {
        return Err(PlanError::Twice {
            line: n,
            text: Word::new(alloc, end.as_bytes())?,
        });
    }
    if text == "Z" || text.len() > MAX_TASK {
        return Err(PlanError::NoName {
            line: n,
            name: name.copy(alloc)?,
        });
    }
    Ok(())
}

fn declare_task(alloc: Global, n: u32, step: &Step, d: &mut Declared) -> Result<(), PlanError>
    ensures { TellsPlan (λ u. the_declared d.new) result (declare_task n (the_plan_step step.now) (the_declared d.old)) }
{
    let name = step.name.as_str();
    let end = end_name(alloc, name)?;
    is_task(alloc, n, &step.name, end.as_str(), d)?;
    put_words(alloc, n, step, &mut d.words)?;
    put_point(name, true, None, d)?;
    put_point(end.as_str(), false, step_observation(&step.observed), d)?;
    Ok(())
}

fn declare_deadline(alloc: Global, n: u32, span: Span, d: &mut Declared) -> Result<(), PlanError>
    ensures { TellsPlan (λ u. the_declared d.new) result (declare n (the_declared d.old) (deadline span)) }
{
    let None = d.deadline else {
        return Err(PlanError::Twice {
            line: n,
            text: Word::new(alloc, b"deadline")?,
        });
    };
    d.deadline = Some(span);
    Ok(())
}

fn declare_start(alloc: Global, n: u32, span: Span, d: &mut Declared) -> Result<(), PlanError>
    ensures { TellsPlan (λ u. the_declared d.new) result (declare n (the_declared d.old) (start span)) }
{
    let None = d.start else {
        return Err(PlanError::Twice {
            line: n,
            text: Word::new(alloc, b"start")?,
        });
    };
    d.start = Some(span.ticks);
    Ok(())
}

/// What is declared once line `n` was read.
fn declare(alloc: Global, n: u32, line: &Line, d: &mut Declared) -> Result<(), PlanError>
    ensures { TellsPlan (λ u. the_declared d.new) result (declare n (the_declared d.old) (the_plan_line line.now)) }
{
    match line {
        Line::Nothing => Ok(()),
        Line::Deadline(span) => declare_deadline(alloc, n, *span, d),
        Line::Start(span) => declare_start(alloc, n, *span, d),
        Line::Step(step) => declare_step(alloc, n, step, d),
        Line::Task(step, _) => declare_task(alloc, n, step, d),
        Line::Rule(rule) => are_new_literals(alloc, n, rule.label.as_slice()),
    }
}

fn declare_text(alloc: Global, n: u32, text: &[u8], d: &mut Declared) -> Result<(), PlanError>
    ensures { TellsPlan (λ u. the_declared d.new) result (declared_line n (the_declared d.old) text.now) }
{
    if !is_of_words(text) {
        return Err(PlanError::Wrong { line: n, word: 0 });
    }
    let Some(_) = next_word(text) else {
        return Ok(());
    };
    let mut line = Line::Nothing;
    line_of_words(alloc, n, text, &mut line)?;
    declare(alloc, n, &line, d)
}

/// What the lines of a text declare, whose names are hashed with the key. The text has at most 8,388,608 bytes.
#[tactic(auto, unfolding(crate::specs::Declarations::declared_after))]
pub fn declare_lines(alloc: Global, key: NameKey, text: &[u8]) -> Result<Declared, PlanError>
    requires { length text.now ≤ 8388608 }
    ensures { TellsPlan the_declared result (declared_after 1 nothing_declared (plan_lines text.now)) }
{
    let mut d = nothing_declared(alloc, key)?;
    let mut left = without_mark(text);
    let mut n = 1;
    while let Some((line, rest)) = cut_at(left, b'\n') {
        declare_text(alloc, n, line, &mut d)?;
        n += 1;
        left = rest;
    }
    declare_text(alloc, n, left, &mut d)?;
    Ok(d)
}
