//! What is wrong with the words of a line.

use std::alloc::{AllocError, AllocFailed};

/// What is wrong with the words of a line: so many are left from the first wrong one on. Or memory was refused.
#[derive(Debug, Drop)]
pub enum LineFault {
    Wrong { left: usize },
    Memory(AllocError),
}

impl From<AllocError> for LineFault {
    ghost use Rattle.std.specs.Prelude.{◌≡◌};
    ghost use Rattle.cstn_sentences.specs.declared.faults.LineFault.TheVariants.{Memory};

    ghost from_gives = { λ x e. e ≡ Memory x };

    fn from(error: AllocError) -> LineFault {
        LineFault::Memory(error)
    }
}

impl<T: Drop> From<AllocFailed<T>> for LineFault {
    ghost use Rattle.std.specs.Prelude.{◌≡◌, alloc_error};
    ghost use Rattle.cstn_sentences.specs.declared.faults.LineFault.TheVariants.{Memory};

    ghost from_gives = { λ _ e. e ≡ Memory alloc_error };

    fn from(error: AllocFailed<T>) -> LineFault {
        LineFault::Memory(AllocError::from(error))
    }
}
