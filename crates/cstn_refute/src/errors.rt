use std::alloc::AllocError;
use thiserror::Error;

/// Why no refutation was read.
#[derive(Debug, Drop, Error)]
pub enum RefuteError {
    /// The line, counted from 1, is the first that isn't of the form.
    #[error("line {line} of the refutation is not of the form")]
    Line { line: u32 },
    /// Memory was refused.
    #[error(transparent)]
    Memory(#[from(alloc)] AllocError),
}
