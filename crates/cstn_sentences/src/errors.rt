//! Why a plan is refused.

use crate::lines::{Name, Word};
use cstn_lift::LiftError;
use cstn_net::NetError;
use cstn_text::Names;
use std::alloc::{AllocError, AllocFailed};
use std::fmt::{self, Debug, Formatter, Write};
use thiserror::Error;

/// Why a plan is refused. Lines are counted from 1.
#[derive(Drop, Error)]
pub enum PlanError {
    /// The text has more than 8,388,608 bytes.
    #[error("more than 8388608 bytes")]
    Long,
    /// The first `word` words of a line are the beginning of no line. Where that is 0, the line isn't of words: it isn't UTF-8, it
    /// has more than 4,096 bytes, or a quote in it has no end.
    #[error("line {line} is none from word {word} on")]
    Wrong { line: u32, word: usize },
    /// A number of the line is out of range.
    #[error("a number of line {line} is out of range")]
    Range { line: u32 },
    /// The text, a name, a keyword, a word or a letter, stands twice.
    #[error("something stands twice in line {line}")]
    Twice { line: u32, text: Word },
    /// The name is none of a step or of a task, or can't be a task's.
    #[error("a name of line {line} is none")]
    NoName { line: u32, name: Name },
    /// The word stands for no letter, or nothing observes it.
    #[error("a word of line {line} stands for no letter")]
    NoLetter { line: u32, word: Word },
    /// No deadline was handed in, and no line has one.
    #[error("no deadline")]
    NoDeadline,
    /// The network is refused; `names` are those of its time-points, by number.
    #[error("no network: {error}")]
    Net { error: NetError, names: Names },
    /// The labels of the time-points are refused; `names` are those of the time-points, by number.
    #[error("no labelled network: {error}")]
    Lift { error: LiftError, names: Names },
    /// Memory was refused.
    #[error("out of memory")]
    Memory(AllocError),
}

impl Debug for PlanError {
    fn fmt<W: Write>(&self, f: &mut Formatter<W>) -> fmt::Result {
        write!(f, "{self}")
    }
}

impl From<AllocError> for PlanError {
    ghost use Rattle.std.specs.Prelude.{◌≡◌};
    ghost use Rattle.cstn_sentences.specs.declared.errors.PlanError.TheVariants.{Memory};

    ghost from_gives = { λ x e. e ≡ Memory x };

    fn from(error: AllocError) -> PlanError {
        PlanError::Memory(error)
    }
}

impl<T: Drop> From<AllocFailed<T>> for PlanError {
    ghost use Rattle.std.specs.Prelude.{◌≡◌, alloc_error};
    ghost use Rattle.cstn_sentences.specs.declared.errors.PlanError.TheVariants.{Memory};

    ghost from_gives = { λ _ e. e ≡ Memory alloc_error };

    fn from(error: AllocFailed<T>) -> PlanError {
        PlanError::Memory(AllocError::from(error))
    }
}
