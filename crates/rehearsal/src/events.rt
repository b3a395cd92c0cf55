use cstn_label::{NodeId, Prop};

/// What happens at a moment while a plan is carried out.
#[derive(Clone, Copy)]
pub enum Event {
    /// It is this moment now, and nothing else has happened.
    Passed,
    /// The time-point was executed at this moment.
    Executed(NodeId),
    /// The outcome came at this moment.
    Observed(Prop, bool),
    /// The outcome is expected at this moment, and not before.
    Expected(Prop),
    /// The constraint with this id gets another value, in ticks.
    Revalued { id: u32, most: i32 },
    /// The deadline is this moment.
    Due(u32),
}
