use cstn_label::NodeId;

/// What a check says of a list of bounds: that it is closed, or its first fault. Places count from 0.
#[derive(Clone, Copy, Debug, PartialEq, Eq)]
pub enum ClosedAnswer {
    /// The list is closed for the network, which has a strategy.
    Accepted,
    /// The bound isn't at a time-point of the network, marks a proposition that nothing observes, refutes the network, or has
    /// a least value below 0 or above the limit + 1.
    Bad { at: u32 },
    /// No bound dominates the base bound of the time-point.
    NoBase { node: NodeId },
    /// No bound dominates what chain derives from the constraint with this id and the bound.
    NoChain { constraint: u32, at: u32 },
    /// No bound dominates what wait derives from the bound `seen`, which is at an observer, and the bound `at`.
    NoWait { seen: u32, at: u32 },
}
