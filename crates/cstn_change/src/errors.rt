use cstn_label::Prop;
use thiserror::Error;

/// Why an edit is refused: the first of these reasons that applies.
#[derive(Clone, Copy, Debug, PartialEq, Eq, Error)]
pub enum EditError {
    /// S6: 1,000,000 edits were accepted.
    #[error("no more than 1000000 edits")]
    EditLimit,
    /// S1: there are as many constraints as there may be.
    #[error("no room for more than {room} constraints")]
    NoRoom { room: u32 },
    /// S2: no constraint has the id.
    #[error("there is no constraint {id}")]
    NoSuch { id: u32 },
    /// S3: the value is below -1,000,000,000 or above 1,000,000,000 ticks.
    #[error("the value {most} is out of range")]
    ValueRange { most: i32 },
    /// S4: the label isn't plain.
    #[error("the label isn't plain")]
    NotPlain,
    /// S5: the label names propositions that nothing observes, of which this is the least.
    #[error("nothing observes the proposition {}", prop.index)]
    NotObserved { prop: Prop },
}
