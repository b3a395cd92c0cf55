use cstn_label::{NodeId, Prop};
use std::alloc::AllocError;
use thiserror::Error;

/// Why `close` refuses a builder: want of memory, or of the builder's faults the one with the lowest number, at the first
/// time-point or constraint that has it.
#[derive(Clone, Copy, Debug, PartialEq, Eq, Error)]
pub enum NetError {
    /// N1: there are more than 1,024 time-points.
    #[error("more than 1024 time-points")]
    TooManyNodes,
    /// N2: there is no time-point.
    #[error("no time-point")]
    NoOrigin,
    /// N3: there are more than 16,384 constraints.
    #[error("more than 16384 constraints")]
    TooManyConstraints,
    /// N4: the deadline is above 1,000,000 ticks.
    #[error("the deadline {deadline} is above 1000000")]
    DeadlineRange {
        deadline: u32,
    },
    /// N5: `constraint` is the first whose value is below -1,000,000,000 or above 1,000,000,000 ticks.
    #[error("the value of constraint {constraint} is out of range")]
    ValueRange {
        constraint: u32,
    },
    /// N6: `prop` is the least unobserved proposition in the label of the first constraint that names one.
    #[error("nothing observes the proposition {}", prop.letter() as char)]
    NotObserved {
        prop: Prop,
    },
    /// N7: `second` is the first time-point whose proposition an earlier one, `first`, observes.
    #[error("the time-points {} and {} observe the proposition {}", first.0, second.0, prop.letter() as char)]
    TwoObservers {
        prop: Prop,
        first: NodeId,
        second: NodeId,
    },
    /// N8: `constraint` is the first whose label isn't plain.
    #[error("the label of constraint {constraint} isn't plain")]
    NotPlain {
        constraint: u32,
    },
    /// N9: `node` is the first time-point that observes and has a reaction below 1 or above 1,000 ticks.
    #[error("the reaction of the time-point {} is out of range", node.0)]
    ReactionRange {
        node: NodeId,
    },
    /// Memory for the network was refused.
    #[error("out of memory")]
    Memory(AllocError),
}
