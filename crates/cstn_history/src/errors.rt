use cstn_label::{NodeId, Prop};
use std::alloc::AllocError;
use thiserror::Error;

/// Why a fact is refused.
#[derive(Clone, Copy, Debug, PartialEq, Eq, Error)]
pub enum FactError {
    /// F1: the moment that it is to be now is before `now`.
    #[error("the moment {now} has passed")]
    Past { now: u32 },
    /// F2: the moment is above 1,000,000; or the outcome is told before its observer was done; or it is expected before now, no
    /// later than its observer was done, or, where the origin observes it, after 1,000.
    #[error("the moment {moment} is out of range")]
    OutOfRange { moment: u32 },
    /// F3: no time-point has this number.
    #[error("no time-point has the number {}", node.0)]
    NoSuch { node: NodeId },
    /// F4: the time-point is done already, at `moment`.
    #[error("the time-point {} was done at {moment}", node.0)]
    Done { node: NodeId, moment: u32 },
    /// F5: what is told doesn't decide that the completed label of the time-point holds, or, where it is to wait, rules it out.
    #[error("what is told doesn't decide that the time-point {} is executed", node.0)]
    Undecided { node: NodeId },
    /// F6: no time-point that is done observes the proposition.
    #[error("the proposition {} isn't observed yet", prop.letter() as char)]
    NotObserved { prop: Prop },
    /// F7: the proposition was told already, with this value.
    #[error("the proposition {} is {value} already", prop.letter() as char)]
    Told { prop: Prop, value: bool },
}

/// Why there is no network of what is left.
#[derive(Clone, Copy, Debug, PartialEq, Eq, Error)]
pub enum RestError {
    /// F8: what is left, or its lowered network, has more than 16,384 constraints.
    #[error("more than 16384 constraints are left")]
    TooManyConstraints,
    /// Memory was refused.
    #[error("out of memory")]
    Memory(AllocError),
}

impl From<AllocError> for RestError {
    ghost use Rattle.std.specs.Prelude.{◌≡◌};
    ghost use Rattle.cstn_history.specs.declared.errors.RestError.TheVariants.{Memory};

    ghost from_gives = { λ x e. e ≡ Memory x };

    fn from(error: AllocError) -> RestError {
        RestError::Memory(error)
    }
}
