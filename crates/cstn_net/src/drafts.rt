// Constraints as they were handed in, and the constraints of a network that are made of them.
ghost use Rattle.std.specs.Prelude.{◌≡◌, ◌<◌, ◌≤◌, length, IfOk};
ghost use Rattle.std.specs.List.{All};
ghost use Rattle.cstn_net.specs.Limits.{most_constraints};
ghost use Rattle.cstn_net.specs.Drafts.{IsDraftAmong, constraint_of, constraints_from};

use crate::constraints::Constraint;
use cstn_label::{Label, NodeId};
use std::alloc::{AllocError, Global};

/// A constraint as it was handed in. Its ends are `u32`, since a builder may hold more time-points than a `NodeId` can name.
#[derive(Clone, Copy, Debug, PartialEq, Eq)]
pub struct Draft {
    pub from: u32,
    pub to: u32,
    pub most: i32,
    pub label: Label,
}

/// The constraints of drafts between the first `count` time-points, under ids from 0.
pub fn constraints_of(
    alloc: Global,
    count: u16,
    drafts: &[Draft],
) -> Result<Vec<Constraint>, AllocError>
    requires few { length drafts.now ≤ most_constraints }
    requires among { All (IsDraftAmong count) drafts.now }
    ensures { IfOk result (λ v. v.items ≡ constraints_from 0 drafts.now) }
{
    let mut constraints = Vec::with_capacity(alloc, drafts.len())?;
    for draft in drafts {
        let id = constraints.len() as u32;
        constraints.push_reserved(constraint_of(id, count, draft));
    }
    Ok(constraints)
}

fn constraint_of(id: u32, count: u16, draft: &Draft) -> Constraint
    requires { IsDraftAmong count draft.now }
    ensures { result ≡ constraint_of id draft.now }
{
    Constraint {
        id,
        from: NodeId(draft.from as u16),
        to: NodeId(draft.to as u16),
        most: draft.most,
        label: draft.label,
    }
}
