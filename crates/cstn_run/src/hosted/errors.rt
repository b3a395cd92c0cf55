use cstn_exec::ExecError;
use std::alloc::AllocError;
use thiserror::Error;

/// Why a call of a host is refused: the first that applies, in the order `IdRange`, `IdInUse` or `NoSuchPlan`, `NoFile`, and
/// then `Exec` or `Memory`. H1 to H4 are the codes that the command `host` answers after `refused`.
#[derive(Clone, Copy, Debug, PartialEq, Eq, Error)]
pub enum HostError {
    /// H1: the id is open already.
    #[error("the id {id} is open: close it first, or take another")]
    IdInUse { id: u32 },
    /// H2: the id isn't open.
    #[error("the id {id} isn't open: open it over a file first")]
    NoSuchPlan { id: u32 },
    /// H3: the id is above 63.
    #[error("the id {id} is out of range: take one from 0 to 63")]
    IdRange { id: u32 },
    /// H4: the file is none of the plans, which are numbered from 0.
    #[error("there is no file {file}: take the number of a plan, from 0")]
    NoFile { file: u32 },
    /// The executive of the id refuses the moment or the outcome.
    #[error("{0}")]
    Exec(ExecError),
    /// The memory that an open id takes was refused.
    #[error("out of memory: close an id, and try again")]
    Memory(AllocError),
}
