//! The constraints that are kept of a graph.

ghost use Rattle.std.specs.Prelude.{◌≡◌, ◌≤◌, ◌∷◌, ◌++◌, [], length, take, OnOk};

use crate::drawn_graph::DrawnConstraint;
use cstn_net::MAX_CONSTRAINTS;
use std::alloc::{AllocError, Global};

/// The constraints that are kept of a graph: one past the limit of a network at most. A network with that one is refused, for a
/// fault that has nothing to do with what its constraints are.
#[derive(Drop)]
pub struct KeptConstraints {
    pub list: Vec<DrawnConstraint>,
    pub ghost few: { length list.items ≤ 16385 },
}

impl KeptConstraints {
    /// No constraint.
    pub fn new(alloc: Global) -> KeptConstraints
        ensures { result.list.items ≡ [] }
    {
        KeptConstraints {
            list: Vec::new(alloc),
        }
    }

    /// Keeps a constraint more, unless there is one past the limit already. Fails for want of memory alone.
    pub fn put(&mut self, constraint: DrawnConstraint) -> Result<(), AllocError>
        ensures { OnOk result (self.new.list.items ≡ take 16385 (self.old.list.items ++ constraint ∷ [])) }
    {
        if self.list.len() > MAX_CONSTRAINTS {
            return Ok(());
        }
        self.list.push(constraint)?;
        Ok(())
    }
}
