use cstn_change::EditError;
use cstn_history::FactError;
use std::alloc::AllocError;
use thiserror::Error;

/// Why facts aren't recorded.
#[derive(Clone, Copy, Debug, PartialEq, Eq, Error)]
pub enum FollowError {
    /// F1 to F7: one of them is refused.
    #[error("{0}")]
    Refused(FactError),
    /// F8: what is left then, or its lowered network, has more than 16,384 constraints.
    #[error("more than 16384 constraints would be left")]
    TooManyConstraints,
    /// Memory was refused.
    #[error("out of memory")]
    Memory(AllocError),
}

impl From<AllocError> for FollowError {
    ghost use Rattle.std.specs.Prelude.{◌≡◌};
    ghost use Rattle.cstn_follow.specs.declared.errors.FollowError.TheVariants.{Memory};

    ghost from_gives = { λ x e. e ≡ Memory x };

    fn from(error: AllocError) -> FollowError {
        FollowError::Memory(error)
    }
}

/// Why the network of a session isn't edited.
#[derive(Clone, Copy, Debug, PartialEq, Eq, Error)]
pub enum ReplanError {
    /// S1 to S6: the edit is refused.
    #[error("{0}")]
    Refused(EditError),
    /// F8: the network, lowered, or what is left of it then, or that lowered, has more than 16,384 constraints.
    #[error("more than 16384 constraints would be left")]
    TooManyConstraints,
    /// Memory was refused.
    #[error("out of memory")]
    Memory(AllocError),
}

/// Why what is broken isn't forgiven.
#[derive(Clone, Copy, Debug, PartialEq, Eq, Error)]
pub enum ForgiveError {
    /// S6: more than 1,000,000 edits would be counted.
    #[error("no more than 1000000 edits")]
    EditLimit,
    /// Memory was refused.
    #[error("out of memory")]
    Memory(AllocError),
}

impl From<AllocError> for ForgiveError {
    ghost use Rattle.std.specs.Prelude.{◌≡◌};
    ghost use Rattle.cstn_follow.specs.declared.errors.ForgiveError.TheVariants.{Memory};

    ghost from_gives = { λ x e. e ≡ Memory x };

    fn from(error: AllocError) -> ForgiveError {
        ForgiveError::Memory(error)
    }
}

/// Why no further time-point is put in.
#[derive(Clone, Copy, Debug, PartialEq, Eq, Error)]
pub enum StepError {
    /// S6: 1,000,000 edits were accepted.
    #[error("no more than 1000000 edits")]
    EditLimit,
    /// S9: there are 1,024 time-points.
    #[error("no more than 1024 time-points")]
    NoPlace,
    /// F8: the network, lowered, or what is left of it then, or that lowered, has more than 16,384 constraints.
    #[error("more than 16384 constraints would be left")]
    TooManyConstraints,
    /// Memory was refused.
    #[error("out of memory")]
    Memory(AllocError),
}

/// Why it isn't told until when a time-point can wait.
#[derive(Clone, Copy, Debug, PartialEq, Eq, Error)]
pub enum WaitError {
    /// F8: with one constraint more, what is left or its lowered network has more than 16,384 constraints.
    #[error("more than 16384 constraints are left")]
    TooManyConstraints,
    /// A log that was tried has more than `cap` entries.
    #[error("a log is full")]
    Full,
    /// Memory was refused.
    #[error("out of memory")]
    Memory(AllocError),
}

/// Why it isn't told which constraints are to blame.
#[derive(Clone, Copy, Debug, PartialEq, Eq, Error)]
pub enum BlameError {
    /// A log that was tried has more than `cap` entries.
    #[error("a log is full")]
    Full,
    /// Memory was refused.
    #[error("out of memory")]
    Memory(AllocError),
}
