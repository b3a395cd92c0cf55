ghost use Rattle.std.specs.Prelude.{◌↔◌, IsTrue};

use crate::{Label, NodeId};

/// The time-point is executed at `least` ticks or later, or the label isn't possible at its moment.
#[derive(Clone, Copy, Debug, PartialEq, Eq, Hash)]
pub struct Bound {
    pub node: NodeId,
    pub least: i32,
    pub label: Label,
}

impl Bound {
    ghost use Rattle.cstn_label.specs.Bounds.{Dominates};
    ghost use Rattle.cstn_label.specs.Read.{the_bound};

    /// Whether the two bounds are on one time-point, the least value of this one is at least that of the other, and its
    /// label is within the other's. The other bound then follows from this one.
    pub fn dominates(&self, other: &Bound) -> bool
        ensures dominates { IsTrue result ↔ Dominates (the_bound self.now) (the_bound other.now) }
    {
        self.node == other.node && self.least >= other.least && self.label.is_within(other.label)
    }
}
