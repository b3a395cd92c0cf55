use std::alloc::AllocError;
use thiserror::Error;

/// Why no list of bounds was read.
#[derive(Debug, Drop, Error)]
pub enum ClosedError {
    /// The line, counted from 1, is the first that isn't of the form.
    #[error("line {line} of the closed list is not of the form")]
    Line { line: u32 },
    /// Memory for the list was refused.
    #[error(transparent)]
    Memory(#[from(alloc)] AllocError),
}
