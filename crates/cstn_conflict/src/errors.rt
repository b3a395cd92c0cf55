use std::alloc::AllocError;
use thiserror::Error;

/// Why there is no conflict set.
#[derive(Clone, Copy, Debug, PartialEq, Eq, Error)]
pub enum ConflictError {
    /// The network is consistent; `load` is the number of entries of its log.
    #[error("the network is consistent")]
    Consistent { load: u32 },
    /// The log of the network, or of the network with a set that was tried, has more than `cap` entries.
    #[error("a log that is full")]
    Full,
    /// Memory for the search was refused.
    #[error("out of memory")]
    Memory(AllocError),
}

impl From<AllocError> for ConflictError {
    ghost use Rattle.cstn_conflict.specs.declared.errors.ConflictError.TheVariants.{Memory};
    ghost use Rattle.std.specs.Prelude.{◌≡◌};

    ghost from_gives = { λ x e. e ≡ Memory x };

    fn from(e: AllocError) -> ConflictError {
        ConflictError::Memory(e)
    }
}
