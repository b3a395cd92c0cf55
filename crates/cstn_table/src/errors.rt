use std::alloc::AllocError;
use thiserror::Error;

/// Why a network isn't decided.
#[derive(Clone, Copy, Debug, PartialEq, Eq, Error)]
pub enum TableError {
    /// More than 8 propositions are observed. No memory was asked for.
    #[error("more than 8 observed propositions")]
    TooManyProps,
    /// There was no memory for the table.
    #[error("out of memory")]
    Memory(AllocError),
}
