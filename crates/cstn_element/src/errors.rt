//! Why a document is refused.

use cstn_lift::LiftError;
use cstn_net::NetError;
use cstn_text::Names;
use std::alloc::{AllocError, AllocFailed};
use std::fmt::{self, Debug, Formatter, Write};
use thiserror::Error;

/// Why a document is refused. Places are bytes from 0 over the whole document.
#[derive(Drop, Error)]
pub enum DocError {
    /// X1: the bytes aren't UTF-8; the place is the first byte of the first wrong sequence.
    #[error("no UTF-8 at byte {at}")]
    NotUtf8 { at: usize },
    /// X2: a token isn't of its form, or isn't allowed where it stands.
    #[error("a token that isn't allowed at byte {at}")]
    Shape { at: usize },
    /// X3: an earlier node has the node's id.
    #[error("the node at byte {at} has the id of an earlier one")]
    NameTwice { at: usize },
    /// X4: a kept edge names a node that doesn't stand before it.
    #[error("the edge at byte {at} names no node before it")]
    UnknownNode { at: usize },
    /// X5: a deadline, a reaction, a node's id or a text of values isn't of its form.
    #[error("a value that isn't of its form at byte {at}")]
    Value { at: usize },
    /// X6: an observed letter or a label isn't of its form.
    #[error("a label that isn't of its form at byte {at}")]
    LabelText { at: usize },
    /// X7: an edge is contingent.
    #[error("the type at byte {at} is contingent")]
    Contingent { at: usize },
    /// X8: an edge's type is a word that names no type.
    #[error("no type of an edge at byte {at}")]
    EdgeType { at: usize },
    /// X9: no deadline was handed in, and the document has none.
    #[error("no deadline")]
    NoDeadline,
    /// X10: the network is refused; `names` are those of its time-points, by number.
    #[error("no network: {error}")]
    Net { error: NetError, names: Names },
    /// X12: the labels of the time-points are refused; `names` are those of the time-points, by number.
    #[error("no labelled network: {error}")]
    Lift { error: LiftError, names: Names },
    /// Memory was refused.
    #[error("out of memory")]
    Memory(AllocError),
}

impl Debug for DocError {
    fn fmt<W: Write>(&self, f: &mut Formatter<W>) -> fmt::Result {
        write!(f, "{self}")
    }
}

/// What is wrong with what stands at a place, found without taking memory.
#[derive(Clone, Copy)]
pub enum Fault {
    Shape { at: usize },
    Value { at: usize },
    LabelText { at: usize },
    Contingent { at: usize },
    EdgeType { at: usize },
}

impl From<Fault> for DocError {
    ghost use Rattle.std.specs.Prelude.{◌≡◌};
    ghost use Rattle.cstn_element.specs.Faults.{document_refusal};

    ghost from_gives = { λ fault e. e ≡ document_refusal fault };

    fn from(fault: Fault) -> DocError {
        match fault {
            Fault::Shape { at } => DocError::Shape { at },
            Fault::Value { at } => DocError::Value { at },
            Fault::LabelText { at } => DocError::LabelText { at },
            Fault::Contingent { at } => DocError::Contingent { at },
            Fault::EdgeType { at } => DocError::EdgeType { at },
        }
    }
}

impl From<AllocError> for DocError {
    ghost use Rattle.std.specs.Prelude.{◌≡◌};
    ghost use Rattle.cstn_element.specs.declared.errors.DocError.TheVariants.{Memory};

    ghost from_gives = { λ x e. e ≡ Memory x };

    fn from(error: AllocError) -> DocError {
        DocError::Memory(error)
    }
}

impl<T: Drop> From<AllocFailed<T>> for DocError {
    ghost use Rattle.std.specs.Prelude.{◌≡◌, alloc_error};
    ghost use Rattle.cstn_element.specs.declared.errors.DocError.TheVariants.{Memory};

    ghost from_gives = { λ _ e. e ≡ Memory alloc_error };

    fn from(error: AllocFailed<T>) -> DocError {
        DocError::Memory(AllocError::from(error))
    }
}
