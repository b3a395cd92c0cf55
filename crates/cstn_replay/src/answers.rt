/// What a replay says of a refutation.
#[derive(Clone, Copy, Debug, PartialEq, Eq)]
pub enum Answer {
    /// The steps refute the network, which has no strategy.
    Accepted,
    /// `step` is the place, from 0, of the first step that doesn't follow by its rule, or of the last step, where all follow
    /// and the last doesn't refute the network.
    Rejected { step: u32 },
}
