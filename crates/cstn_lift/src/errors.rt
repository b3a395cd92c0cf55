use cstn_label::{NodeId, Prop};
use std::alloc::AllocError;
use thiserror::Error;

/// Why labels don't make a labelled network: the fault with the lowest number, at the first time-point that has it.
#[derive(Clone, Copy, Debug, PartialEq, Eq, Error)]
pub enum LiftError {
    /// L1: the label of the origin isn't empty.
    #[error("the origin has a label")]
    OriginLabel,
    /// L2: the first time-point whose label isn't plain.
    #[error("the label of the time-point {} isn't plain", node.0)]
    NotPlain { node: NodeId },
    /// L3: the first time-point whose label names a proposition that nothing observes, and the least such proposition.
    #[error("nothing observes the proposition {}, which the label of the time-point {} names", prop.letter() as char, node.0)]
    NotObserved { node: NodeId, prop: Prop },
    /// L4: the first time-point whose completed label marks the proposition that this time-point observes.
    #[error("the time-point {} would have to know what it observes itself", node.0)]
    Circle { node: NodeId },
    /// L5: the first time-point whose completed label isn't plain, so that it is never executed.
    #[error("the time-point {} is never executed", node.0)]
    Never { node: NodeId },
    /// L6: the lowered network has more than 16,384 constraints.
    #[error("more than 16384 constraints with those for labels")]
    TooManyConstraints,
    /// Memory was refused.
    #[error("out of memory")]
    Memory(AllocError),
}
