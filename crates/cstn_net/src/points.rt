use cstn_label::Prop;

/// A time-point: the proposition that it observes, if any, and the ticks from its execution until the outcome is known.
#[derive(Clone, Copy, Debug, PartialEq, Eq)]
pub struct TimePoint {
    pub observes: Option<Prop>,
    pub reaction: u32,
}
