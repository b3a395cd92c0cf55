ghost use Rattle.std.specs.Prelude.{◌≡◌, ◌<◌, ◌-◌, ◌^◌};
ghost use Rattle.cstn_change.specs.Changes.{fresh_after};
ghost use Rattle.cstn_change.specs.Read.{the_change};

use cstn_label::{Label, NodeId};

/// A change of a network's constraints.
#[derive(Clone, Copy, Debug, PartialEq, Eq)]
pub enum Change {
    /// A constraint is added, by which `to` is at most `most` ticks after `from` where the label holds.
    Add {
        from: NodeId,
        to: NodeId,
        most: i32,
        label: Label,
    },
    /// The constraint with this id is removed.
    Remove {
        id: u32,
    },
    /// The constraint with this id gets another value, in ticks.
    Revalue {
        id: u32,
        most: i32,
    },
}

impl Change {
    /// An id above all that were ever used, after the change; `fresh` is one before it.
    pub fn fresh_after(self, fresh: u32) -> u32
        requires small { fresh < 2 ^ 32 - 1 }
        ensures fresh { result ≡ fresh_after fresh (the_change self) }
    {
        match self {
            Change::Add { .. } => fresh + 1,
            Change::Remove { .. } | Change::Revalue { .. } => fresh,
        }
    }
}
