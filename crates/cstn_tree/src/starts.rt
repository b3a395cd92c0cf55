// The constraints that have an end at a time-point.
ghost use Rattle.std.specs.Prelude.{ℕ, ◌≡◌, ◌<◌, ◌≤◌, ◌+◌, length, slice_index, IfOk};
ghost use Rattle.std.specs.List.{All};
ghost use Rattle.cstn_net.specs.Limits.{most_constraints};
ghost use Rattle.cstn_net.specs.Networks.{count};
ghost use Rattle.cstn_net.specs.Links.{IsNextPlace};
ghost use Rattle.cstn_net.specs.Read.{the_network};
ghost use Rattle.cstn_tree.specs.Starts.{AreLinkedFrom, AreStarts, starts, standing};

use cstn_label::NodeId;
use cstn_net::{Constraint, Network};
use std::alloc::{AllocError, Global};

/// An end of a constraint.
#[derive(Clone, Copy)]
pub enum End {
    From,
    To,
}

/// For each time-point the place of the first constraint that starts there, and for each constraint the place of the next one
/// that starts where it does.
#[derive(Drop)]
pub struct Starts {
    pub firsts: Vec<Option<u16>>,
    pub nexts: Vec<Option<u16>>,
}

impl Starts {
    /// The places of the constraints of a network. Fails for want of memory alone.
    pub fn of(alloc: Global, net: &Network) -> Result<Starts, AllocError>
        ensures starts { IfOk result (AreStarts (count (the_network net.now)) net.now.constraints) }
    {
        let constraints = net.constraints();
        let mut firsts = Vec::new(alloc);
        firsts.resize(net.count() as usize, None)?;
        let mut nexts = Vec::new(alloc);
        nexts.resize(constraints.len(), None)?;
        let mut starts = Starts { firsts, nexts };
        starts.link(constraints);
        Ok(starts)
    }

    // Links the constraints, from the last to the first.
    fn link(&mut self, constraints: &[Constraint])
        requires few { length constraints.now ≤ most_constraints }
        requires inside { All (λ c. c.from.0 < length self.old.firsts.items) constraints.now }
        requires long { length self.old.nexts.items ≡ length constraints.now }
        requires none { AreLinkedFrom (length constraints.now) (starts constraints.now) self.old.firsts.items self.old.nexts.items }
        ensures linked { AreLinkedFrom 0 (starts constraints.now) self.new.firsts.items self.new.nexts.items }
        ensures wide { length self.new.firsts.items ≡ length self.old.firsts.items }
        ensures long { length self.new.nexts.items ≡ length constraints.now }
    {
        let mut low = constraints.len();
        while low > 0 {
            low -= 1;
            let x = constraints[low].from.index();
            self.nexts[low] = self.firsts[x];
            self.firsts[x] = Some(low as u16);
        }
    }

    /// The place of the first constraint that has this end at the time-point.
    pub fn first(&self, net: &Network, end: End, x: NodeId) -> Option<usize>
        requires starts { AreStarts (count (the_network net.now)) net.now.constraints self.now }
        requires inside { x.0 < count (the_network net.now) }
        ensures first { IsNextPlace x.0 0 (standing end net.now.constraints) result }
    {
        match end {
            End::From => place(self.firsts[x.index()]),
            End::To => net.first_to(x),
        }
    }

    /// The place of the next constraint that has this end where the one at this place has it.
    pub fn next(&self, net: &Network, end: End, at: usize) -> Option<usize>
        requires starts { AreStarts (count (the_network net.now)) net.now.constraints self.now }
        requires inside { at < length net.now.constraints }
        ensures next { IsNextPlace (slice_index (standing end net.now.constraints) at) (at + 1) (standing end net.now.constraints) result }
    {
        match end {
            End::From => place(self.nexts[at]),
            End::To => net.next_to(at),
        }
    }
}

fn place(at: Option<u16>) -> Option<usize>
    ensures { result ≡ at }
{
    match at {
        Some(place) => Some(place as usize),
        None => None,
    }
}
