use cstn_label::Prop;
use thiserror::Error;

/// Why a moment or an outcome is refused. E1 to E6 are the codes that the commands `run` and `host` answer after `refused`.
#[derive(Clone, Copy, Debug, PartialEq, Eq, Error)]
pub enum ExecError {
    /// E1: the moment isn't above the last accepted one.
    #[error("the moment {now} has passed")]
    Past { now: u32 },
    /// E2: the moment is above the due one.
    #[error("the moment {due} is due before")]
    Late { due: u32 },
    /// E3: at the moment an outcome is awaited; `prop` is the least proposition whose outcome is.
    #[error("the outcome of the proposition {} is awaited", prop.index)]
    Awaiting { prop: Prop },
    /// E4: nothing observes the proposition, or its observer isn't executed.
    #[error("the proposition {} isn't observed yet", prop.index)]
    NotExecuted { prop: Prop },
    /// E5: an outcome of the proposition is kept already.
    #[error("the proposition {} is {value} already", prop.index)]
    Known { prop: Prop, value: bool },
    /// E6: all time-points are executed.
    #[error("all is executed")]
    Done,
}
