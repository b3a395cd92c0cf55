use std::alloc::AllocError;
use thiserror::Error;

/// Why no tree was read.
#[derive(Debug, Drop, Error)]
pub enum TreeError {
    /// The line, counted from 1, is the first that isn't of the form.
    #[error("line {line} of the tree is not of the form")]
    Line { line: u32 },
    /// Memory was refused.
    #[error(transparent)]
    Memory(#[from(alloc)] AllocError),
}
