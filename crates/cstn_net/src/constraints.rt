use cstn_label::{Label, NodeId};

/// In each scenario in which the label holds, `to` is executed at most `most` ticks after `from`.
#[derive(Clone, Copy, Debug, PartialEq, Eq)]
pub struct Constraint {
    pub id: u32,
    pub from: NodeId,
    pub to: NodeId,
    pub most: i32,
    pub label: Label,
}
