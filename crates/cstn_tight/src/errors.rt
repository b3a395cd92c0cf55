use cstn_refute::Refutation;
use std::alloc::AllocError;
use thiserror::Error;

/// Why there is no least deadline up to the network's own.
#[derive(Debug, Drop, Error)]
pub enum TightError {
    /// The network isn't consistent at its own deadline; the refutation is that of its check.
    #[error("the network isn't consistent")]
    No(Refutation),
    /// The log of the network at its own deadline has more than `cap` entries.
    #[error("a log that is full")]
    Full,
    /// Memory for the search was refused.
    #[error("out of memory")]
    Memory(AllocError),
}

impl From<AllocError> for TightError {
    ghost use Rattle.cstn_tight.specs.declared.errors.TightError.TheVariants.{Memory};
    ghost use Rattle.std.specs.Prelude.{◌≡◌};

    ghost from_gives = { λ x e. e ≡ Memory x };

    fn from(e: AllocError) -> TightError {
        TightError::Memory(e)
    }
}
