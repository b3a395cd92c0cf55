// The branch of a line: what the lines above it name and ask.
ghost use Rattle.std.specs.Prelude.{ℕ, ◌≡◌, ◌<◌, ◌≤◌, ◌&&◌, true, false, Some, length, map, IfOk, IfSome, is_some, is_none};
ghost use Rattle.std.specs.List.{All, list_all};
ghost use Rattle.std.specs.Option.{option_map};
ghost use Rattle.cstn_net.specs.Limits.{most_deadline};
ghost use Rattle.cstn_net.specs.Networks.{count, limit};
ghost use Rattle.cstn_net.specs.Read.{the_network, the_constraint, IsInRange};
ghost use Rattle.cstn_tree.specs.Good.{branch_begun, placed_with, are_new, are_in_time, is_met_within, is_met_so_far, is_met, fits_at, below_at, observed_on};
ghost use Rattle.cstn_tree.specs.Good.{known_from};
ghost use Rattle.cstn_tree.specs.Good.{fits_ask, below_ask, is_complete};
ghost use Rattle.cstn_tree.specs.Branches.{the_branch, the_placed, IsBranchOf};
ghost use Rattle.cstn_outline.specs.Read.{node_numbers};
ghost use Rattle.cstn_tree.specs.declared.starts.End.{End as TheEnd};
ghost use Rattle.cstn_tree.specs.Starts.{AreStarts, TellsAt, AllPass, SomeFails};

use crate::starts::{End, Starts};
use cstn_exec::is_possible;
use cstn_label::{Known, NodeId, Prop};
use cstn_net::{Constraint, Network};
use std::alloc::{AllocError, Global};

/// The moment of each time-point that the branch names, in ticks, the outcomes that it asks, and the least moment that its
/// next `at` may have.
#[derive(Drop)]
pub struct Branch {
    pub moments: Vec<Option<u32>>,
    pub asked: Known,
    pub from: u64,
}

impl Branch {
    /// The branch of the first line, which names and asks nothing.
    pub fn start(alloc: Global, net: &Network) -> Result<Branch, AllocError>
        ensures start { IfOk result (λ b. the_branch b ≡ branch_begun) }
        ensures branch { IfOk result (IsBranchOf (count (the_network net.now))) }
    {
        let mut moments = Vec::new(alloc);
        moments.resize(net.count() as usize, None)?;
        Ok(Branch {
            moments,
            asked: Known::nothing(),
            from: 0,
        })
    }

    /// A copy of the branch.
    pub fn copy(&self, alloc: Global) -> Result<Branch, AllocError>
        ensures same { IfOk result (λ b. the_branch b ≡ the_branch self.now) }
        ensures branch { IfOk result (λ b. (n : ℕ) → IsBranchOf n self.now → IsBranchOf n b) }
    {
        Ok(Branch {
            moments: Vec::from_slice(alloc, &self.moments)?,
            asked: self.asked,
            from: self.from,
        })
    }

    /// Whether each time-point is named.
    pub fn is_complete(&self, net: &Network) -> bool
        requires branch { IsBranchOf (count (the_network net.now)) self.now }
        ensures { result ≡ is_complete (the_network net.now) (the_branch self.now) }
    {
        are_named(&self.moments)
    }

    // The moment at which a time-point is named, if it is.
    fn moment(&self, x: NodeId) -> Option<u32>
        requires { x.0 < length self.now.moments.items }
        ensures { result ≡ (the_branch self.now).placed x.0 }
    {
        self.moments[x.index()]
    }

    fn is_named(&self, x: NodeId) -> bool
        requires { x.0 < length self.now.moments.items }
        ensures { result ≡ is_some ((the_branch self.now).placed x.0) }
    {
        self.moment(x).is_some()
    }

    // The moment at which the branch names p's observer, if it does.
    fn observed(&self, net: &Network, p: Prop) -> Option<u32>
        requires branch { IsBranchOf (count (the_network net.now)) self.now }
        ensures observed { result ≡ observed_on (the_network net.now) (the_branch self.now) p.index }
        ensures in_time { IfSome result (λ m. m ≤ most_deadline) }
    {
        net.count();
        match net.observer(p) {
            Some(x) => self.moment(x),
            None => None,
        }
    }

    /// Whether the outcome of p may be asked: its observer is named, and p wasn't asked before.
    pub fn can_ask(&self, net: &Network, p: Prop) -> bool
        requires branch { IsBranchOf (count (the_network net.now)) self.now }
        ensures { result ≡ fits_ask (the_network net.now) (the_branch self.now) p.index }
    {
        self.observed(net, p).is_some() && self.asked.value(p).is_none()
    }

    /// Becomes the branch of the line below an `ask` of p, where the outcome is `value`.
    pub fn ask(&mut self, net: &Network, p: Prop, value: bool)
        requires branch { IsBranchOf (count (the_network net.now)) self.old }
        ensures below { the_branch self.new ≡ below_ask (the_network net.now) (the_branch self.old) p.index value }
        ensures branch { IsBranchOf (count (the_network net.now)) self.new }
    {
        let known = self.known_from(net, p);
        self.asked = self.asked.with(p, value);
        self.from = self.from.max(known);
    }

    // The moment from which the outcome of p is known.
    fn known_from(&self, net: &Network, p: Prop) -> u64
        requires branch { IsBranchOf (count (the_network net.now)) self.now }
        ensures known { result ≡ known_from ((the_network net.now).reaction p.index) (observed_on (the_network net.now) (the_branch self.now) p.index) }
        ensures in_time { result ≤ 1001000 }
    {
        match self.observed(net, p) {
            Some(m) => (m + net.reaction(p)) as u64,
            None => 0,
        }
    }

    /// Becomes the branch of the line below an `at` that names these time-points at the moment `t`, in ticks. False where the
    /// `at` breaks; what is left then is no branch of a line.
    pub fn place(&mut self, net: &Network, starts: &Starts, t: u32, named: &[NodeId]) -> bool
        requires branch { IsBranchOf (count (the_network net.now)) self.old }
        requires starts { AreStarts (count (the_network net.now)) net.now.constraints starts.now }
        requires inside { All (λ x. x.0 < count (the_network net.now)) named.now }
        ensures fits { result ≡ fits_at (the_network net.now) (the_branch self.old) t (node_numbers named.now) }
        ensures below { result ≡ true → the_branch self.new ≡ below_at (the_branch self.old) t (node_numbers named.now) }
        ensures branch { result ≡ true → IsBranchOf (count (the_network net.now)) self.new }
    {
        if (t as u64) < self.from
            || !self.name_all(net, t, named)
            || !self.meets(net, starts, named)
        {
            return false;
        }
        self.from = t as u64 + 1;
        true
    }

    // Names the time-points at a moment; false where one is named already, or the moment is above its limit.
    fn name_all(&mut self, net: &Network, t: u32, named: &[NodeId]) -> bool
        requires branch { IsBranchOf (count (the_network net.now)) self.old }
        requires inside { All (λ x. x.0 < count (the_network net.now)) named.now }
        ensures fits { result ≡ (are_new (the_branch self.old).placed (node_numbers named.now)
            && are_in_time (the_network net.now) t (node_numbers named.now)) }
        ensures placed { result ≡ true → (the_branch self.new).placed ≡ placed_with (the_branch self.old).placed t (node_numbers named.now) }
        ensures asked { self.new.asked ≡ self.old.asked }
        ensures from { self.new.from ≡ self.old.from }
        ensures branch { IsBranchOf (count (the_network net.now)) self.new }
    {
        for x in named {
            if self.is_named(*x) || t > limit(net, *x) {
                return false;
            }
            self.moments[x.index()] = Some(t);
        }
        true
    }

    // Whether each constraint with an end among these time-points is met, as far as its ends are named.
    fn meets(&self, net: &Network, starts: &Starts, named: &[NodeId]) -> bool
        requires branch { IsBranchOf (count (the_network net.now)) self.now }
        requires starts { AreStarts (count (the_network net.now)) net.now.constraints starts.now }
        requires inside { All (λ x. x.0 < count (the_network net.now)) named.now }
        ensures { result ≡ list_all (is_met (the_branch self.now).placed (the_branch self.now).asked (node_numbers named.now))
            (the_network net.now).constraints }
    {
        for x in named {
            if !self.meets_both(net, starts, *x) {
                return false;
            }
        }
        true
    }

    // Whether the constraints are kept that start or end at the time-point.
    fn meets_both(&self, net: &Network, starts: &Starts, x: NodeId) -> bool
        requires branch { IsBranchOf (count (the_network net.now)) self.now }
        requires starts { AreStarts (count (the_network net.now)) net.now.constraints starts.now }
        requires inside { x.0 < count (the_network net.now) }
        ensures kept { result ≡ true → (end : TheEnd) → AllPass
            (is_met_so_far (the_branch self.now).placed (the_branch self.now).asked) end net.now.constraints x.0 }
        ensures broken { result ≡ false → (end : TheEnd)
            × SomeFails (is_met_so_far (the_branch self.now).placed (the_branch self.now).asked) end net.now.constraints x.0 }
    {
        if !self.meets_at(net, starts, End::From, x) {
            return false;
        }
        self.meets_at(net, starts, End::To, x)
    }

    // Whether the constraints are kept that have this end at the time-point.
    fn meets_at(&self, net: &Network, starts: &Starts, end: End, x: NodeId) -> bool
        requires branch { IsBranchOf (count (the_network net.now)) self.now }
        requires starts { AreStarts (count (the_network net.now)) net.now.constraints starts.now }
        requires inside { x.0 < count (the_network net.now) }
        ensures kept { result ≡ true → AllPass (is_met_so_far (the_branch self.now).placed (the_branch self.now).asked) end net.now.constraints x.0 }
        ensures broken { result ≡ false → SomeFails (is_met_so_far (the_branch self.now).placed (the_branch self.now).asked) end net.now.constraints x.0 }
    {
        let mut at = starts.first(net, end, x);
        while let Some(place) = at {
            if !self.keeps(net, place) {
                return false;
            }
            at = starts.next(net, end, place);
        }
        true
    }

    // Whether the constraint at a place is met as far as its ends are named.
    fn keeps(&self, net: &Network, place: usize) -> bool
        requires branch { IsBranchOf (count (the_network net.now)) self.now }
        requires inside { place < length net.now.constraints }
        ensures kept { TellsAt (is_met_so_far (the_branch self.now).placed (the_branch self.now).asked) net.now.constraints place result }
    {
        self.is_kept(net, &net.constraints()[place])
    }

    fn is_kept(&self, net: &Network, c: &Constraint) -> bool
        requires branch { IsBranchOf (count (the_network net.now)) self.now }
        requires inside { IsInRange (count (the_network net.now)) c.now }
        ensures { result ≡ is_met_so_far (the_branch self.now).placed (the_branch self.now).asked (the_constraint c.now) }
    {
        if !is_possible(c.label, &self.asked) {
            return true;
        }
        is_within(c.most, self.moment(c.from), self.moment(c.to))
    }
}

fn limit(net: &Network, x: NodeId) -> u32
    requires { x.0 < count (the_network net.now) }
    ensures limit { result ≡ limit (the_network net.now) x.0 }
    ensures in_time { result ≤ most_deadline }
{
    net.limit(x) as u32
}

fn are_named(moments: &[Option<u32>]) -> bool
    ensures { result ≡ list_all is_some moments.now }
{
    moments.iter().all(|m| m.is_some())
}

fn is_within(most: i32, from: Option<u32>, to: Option<u32>) -> bool
    ensures { result ≡ is_met_within most from to }
{
    match (from, to) {
        (Some(from), Some(to)) => to as i64 - from as i64 <= most as i64,
        _ => true,
    }
}
