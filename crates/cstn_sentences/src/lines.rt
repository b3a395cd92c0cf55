//! What a line of a plan in sentences says.

ghost use Rattle.std.specs.Prelude.{◌≡◌, IfOk, string_bytes};
ghost use Rattle.cstn_text.specs.Names.{IsName};

use std::alloc::{AllocError, Global};
use std::marker::Model;

/// A name.
#[derive(Debug, Drop)]
pub struct Name {
    text: String,
}

impl Model for Name {
    ghost use Rattle.std.specs.Prelude.{ℕ, List, string_bytes};
    ghost use Rattle.cstn_text.specs.Names.{IsName};

    ghost Value = { List ℕ };

    ghost view = { λ n. string_bytes n.text };

    ghost invariant = { λ n. IsName (string_bytes n.text) };
}

impl Name {
    /// The name of a text.
    pub(crate) fn new(text: String) -> Name
        requires { IsName (string_bytes text) }
        ensures text { result ≡ string_bytes text }
    {
        Name { text }
    }

    /// Another one of the name.
    pub(crate) fn copy(&self, alloc: Global) -> Result<Name, AllocError>
        ensures text { IfOk result (λ n. n ≡ self.now) }
    {
        Ok(Name {
            text: String::from_str(alloc, self.text.as_str())?,
        })
    }

    /// The text of the name.
    pub fn as_str(&self) -> &str
        ensures text { result.now ≡ self.now }
        ensures named { IsName result.now }
    {
        self.text.as_str()
    }
}

/// A word of a plan: one that stands for a letter, a letter, or one that stands twice.
#[derive(Debug, Drop)]
pub struct Word {
    bytes: Vec<u8>,
}

impl Model for Word {
    ghost use Rattle.std.specs.Prelude.{ℕ, List};

    ghost Value = { List ℕ };

    ghost view = { λ w. w.bytes.items };
}

impl Word {
    /// The word of these bytes.
    pub(crate) fn new(alloc: Global, bytes: &[u8]) -> Result<Word, AllocError>
        ensures word { IfOk result (λ w. w ≡ bytes.now) }
    {
        Ok(Word {
            bytes: Vec::from_slice(alloc, bytes)?,
        })
    }

    /// The bytes of the word.
    pub fn as_bytes(&self) -> &[u8]
        ensures bytes { result.now ≡ self.now }
    {
        self.bytes.as_slice()
    }
}

/// A number of ticks, perhaps below 0, and whether it is written as a time of the clock, `H:MM`.
#[derive(Clone, Copy, Debug)]
pub struct Span {
    pub ticks: i32,
    pub clock: bool,
}

/// `A..B`, `A..`, or `A` for `A..A`.
#[derive(Clone, Copy, Debug)]
pub struct Range {
    pub least: Span,
    pub most: Option<Span>,
}

/// Which end of a task is meant: the one that stands for the name alone, `start of`, or `end of`.
#[derive(Clone, Copy, Debug)]
pub enum Side {
    Alone,
    First,
    Last,
}

/// A time-point as it is written.
#[derive(Debug, Drop)]
pub struct Point {
    pub name: Name,
    pub side: Side,
}

/// What a rule counts from: a time-point, or the moment at which the outcome of a proposition is known.
#[derive(Debug, Drop)]
pub enum Reference {
    Moment(Point),
    Outcome(Word),
}

/// A proposition of a label, and whether it is true or not.
#[derive(Debug, Drop)]
pub struct Literal {
    pub prop: Word,
    pub holds: bool,
}

/// What a step observes: a letter, perhaps with a word for it, and the reaction.
#[derive(Debug, Drop)]
pub struct Observed {
    pub word: Option<Word>,
    pub letter: u8,
    pub reaction: Span,
}

/// A step, or a task but for its length: a name, what is observed, and a label.
#[derive(Debug, Drop)]
pub struct Step {
    pub name: Name,
    pub observed: Option<Observed>,
    pub label: Vec<Literal>,
}

/// What a rule says of a time-point: `at RANGE`, `by TIME`, `RANGE after`, `by SPAN after`, `within TIME after`, `after` or `with`.
#[derive(Clone, Copy, Debug)]
pub enum Says {
    At(Range),
    By(Span),
    Between(Range),
    ByAfter(Span),
    Within(Span),
    NotBefore,
    Together,
}

/// A rule: what is said of a time-point, what it counts from, and the label under which it holds.
#[derive(Debug, Drop)]
pub struct Rule {
    pub point: Point,
    pub says: Says,
    pub since: Vec<Reference>,
    pub label: Vec<Literal>,
}

/// What a line says.
#[derive(Debug, Drop)]
pub enum Line {
    Nothing,
    Deadline(Span),
    Start(Span),
    Step(Step),
    Task(Step, Range),
    Rule(Rule),
}

/// What the next word of the rest of a line may be: behind `after` a time-point or `result`; `of` and a name behind `start` and
/// `end`; `of` and a proposition behind `result`; `and` or `if` behind a time-point; `if` alone; and in a label a literal, the
/// proposition behind `not`, or `and`.
#[derive(Clone, Copy, Debug)]
pub enum Expects {
    Since,
    OfSide(Side),
    NameOf(Side),
    OfOutcome,
    OutcomeOf,
    AndOrIf,
    If,
    Asserted,
    Negated,
    And,
}
