// A walk along the lines of a tree.
ghost use Rattle.std.specs.Prelude.{ℕ, ◌≡◌, ◌≢◌, ◌<◌, ◌∷◌, [], List, map, IfOk};
ghost use Rattle.std.specs.List.{All};
ghost use Rattle.cstn_net.specs.Networks.{count};
ghost use Rattle.cstn_net.specs.Read.{the_network};
ghost use Rattle.cstn_outline.specs.Trees.{TreeLine as TheLine, AtLine, AskLine, DoneLine, names_on};
ghost use Rattle.cstn_tree.specs.declared.walks.Step.TheVariants.{On};
ghost use Rattle.cstn_tree.specs.Good.{branch_begun};
ghost use Rattle.cstn_tree.specs.Walks.{first_broken_in, after_step};
ghost use Rattle.cstn_outline.specs.Read.{the_tree_line};
ghost use Rattle.cstn_tree.specs.Branches.{the_branches, the_walk_step, IsWalkOf, IsBranchOf};
ghost use Rattle.cstn_tree.specs.Starts.{AreStarts};

use crate::branches::Branch;
use crate::starts::Starts;
use cstn_label::Prop;
use cstn_net::Network;
use cstn_outline::{Line, Named};
use std::alloc::{AllocError, Global};

/// The branch of the next line, and the branches of the trees that follow its tree, the next one last.
#[derive(Drop)]
pub struct Walk {
    pub here: Branch,
    pub pending: Vec<Branch>,
}

/// What a step along a line finds.
#[derive(Clone, Copy)]
pub enum Step {
    /// The line breaks.
    Broken,
    /// The line doesn't break, and there are more lines.
    On,
    /// The line doesn't break, and it was the last one.
    End,
}

impl Walk {
    /// A walk that begins at the first line.
    pub fn start(alloc: Global, net: &Network) -> Result<Walk, AllocError>
        ensures start { IfOk result (λ w. the_branches w ≡ branch_begun ∷ []) }
        ensures walk { IfOk result (IsWalkOf (count (the_network net.now))) }
    {
        Ok(Walk {
            here: Branch::start(alloc, net)?,
            pending: Vec::new(alloc),
        })
    }

    /// Tests the next line, and goes on to the one after it. Fails for want of memory alone.
    pub fn step(
        &mut self,
        alloc: Global,
        net: &Network,
        starts: &Starts,
        line: &Line,
    ) -> Result<Step, AllocError>
        requires walk { IsWalkOf (count (the_network net.now)) self.old }
        requires starts { AreStarts (count (the_network net.now)) net.now.constraints starts.now }
        requires inside { All (λ x. x < count (the_network net.now)) (names_on (the_tree_line line.now)) }
        ensures step { IfOk result (λ s. (ls : List TheLine) (k : ℕ)
            → first_broken_in (the_network net.now) (the_branches self.old) (the_tree_line line.now ∷ ls) k
            ≡ after_step (the_walk_step s) (the_network net.now) (the_branches self.new) ls k) }
        ensures walk { IfOk result (λ s. s ≡ On → IsWalkOf (count (the_network net.now)) self.new) }
    {
        match line {
            Line::At { moment, named } => Ok(self.step_at(net, starts, *moment, named)),
            Line::Ask { prop } => self.step_ask(alloc, net, *prop),
            Line::Done => Ok(self.step_done(net)),
        }
    }

    fn step_at(&mut self, net: &Network, starts: &Starts, t: u32, named: &Named) -> Step
        requires walk { IsWalkOf (count (the_network net.now)) self.old }
        requires starts { AreStarts (count (the_network net.now)) net.now.constraints starts.now }
        requires inside { All (λ x. x < count (the_network net.now)) named.now }
        ensures step { (ls : List TheLine) (k : ℕ)
            → first_broken_in (the_network net.now) (the_branches self.old) (AtLine t named.now ∷ ls) k
            ≡ after_step (the_walk_step result) (the_network net.now) (the_branches self.new) ls k }
        ensures walk { result ≡ On → IsWalkOf (count (the_network net.now)) self.new }
    {
        if self.here.place(net, starts, t, named.as_slice()) {
            Step::On
        } else {
            Step::Broken
        }
    }

    fn step_ask(&mut self, alloc: Global, net: &Network, p: Prop) -> Result<Step, AllocError>
        requires walk { IsWalkOf (count (the_network net.now)) self.old }
        ensures step { IfOk result (λ s. (ls : List TheLine) (k : ℕ)
            → first_broken_in (the_network net.now) (the_branches self.old) (AskLine p.index ∷ ls) k
            ≡ after_step (the_walk_step s) (the_network net.now) (the_branches self.new) ls k) }
        ensures walk { IfOk result (λ s. s ≡ On → IsWalkOf (count (the_network net.now)) self.new) }
    {
        if !self.here.can_ask(net, p) {
            return Ok(Step::Broken);
        }
        let mut other = self.here.copy(alloc)?;
        other.ask(net, p, false);
        self.pending.push(other)?;
        self.here.ask(net, p, true);
        Ok(Step::On)
    }

    fn step_done(&mut self, net: &Network) -> Step
        requires walk { IsWalkOf (count (the_network net.now)) self.old }
        ensures step { (ls : List TheLine) (k : ℕ)
            → first_broken_in (the_network net.now) (the_branches self.old) (DoneLine ∷ ls) k
            ≡ after_step (the_walk_step result) (the_network net.now) (the_branches self.new) ls k }
        ensures walk { result ≡ On → IsWalkOf (count (the_network net.now)) self.new }
    {
        if !self.here.is_complete(net) {
            return Step::Broken;
        }
        match self.pending.pop() {
            Some(next) => {
                self.here = next;
                Step::On
            }
            None => Step::End,
        }
    }
}
