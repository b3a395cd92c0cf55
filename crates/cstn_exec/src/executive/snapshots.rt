// What an executive knows, kept to go back to.
ghost use Rattle.std.specs.Prelude.{◌≡◌, [], IfOk};
ghost use Rattle.cstn_net.specs.Read.{the_network};
ghost use Rattle.cstn_exec.specs.Read.{IsRunOf};

use super::Executive;
use std::alloc::{AllocError, Global};
use std::marker::Model;

/// A run of an executive as it was at one time: the last accepted moment, the moments of the executed time-points, and the
/// outcomes that were seen.
#[derive(Drop)]
pub struct Snapshot {
    last: Option<u32>,
    moments: Vec<Option<u32>>,
    outcomes: [Option<bool>; 52],
}

impl Model for Snapshot {
    ghost use Rattle.cstn_exec.specs.Runs.{Run};
    ghost use Rattle.cstn_exec.specs.Read.{run_of};

    ghost Value = { Run };

    ghost view = { λ s. run_of s.last s.moments.items s.outcomes };
}

impl Executive {
    /// The run so far, to go back to. Takes memory for a moment of each time-point, and fails for want of it alone.
    pub fn snapshot(&self, alloc: Global) -> Result<Snapshot, AllocError>
        ensures same { IfOk result (λ s. s ≡ self.now.run) }
        ensures run { IfOk result (IsRunOf (the_network self.now.net)) }
    {
        self.is_right();
        Ok(Snapshot {
            last: self.last,
            moments: Vec::from_slice(alloc, &self.moments)?,
            outcomes: self.outcomes,
        })
    }

    /// Goes back to a run of the executive's network; `named` then returns nothing. Takes no memory.
    pub fn go_back(&mut self, to: Snapshot)
        requires run { IsRunOf (the_network self.old.net) to }
        ensures back { self.new ≡ record self.old { run = to; named = [] } }
    {
        let outcomes = to.outcomes;
        self.last = to.last;
        self.moments = to.moments;
        self.outcomes = outcomes;
        self.named.clear();
    }
}
