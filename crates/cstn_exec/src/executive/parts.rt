// The parts of an executive, as contracts about its run describe them.
ghost use Rattle.std.specs.Prelude.{ℕ, ◌≡◌, ◌<◌, ◌≤◌, ◌+◌, MatchOption};
ghost use Rattle.cstn_net.specs.Networks.{Observes, IsWellFormed, count};
ghost use Rattle.cstn_net.specs.Strategies.{Table};
ghost use Rattle.cstn_net.specs.Read.{the_network};
ghost use Rattle.cstn_plan.specs.Plans.{the_bounds, IsEarliest};
ghost use Rattle.cstn_exec.specs.Runs.{next, is_run_done, executed_at, outcome_of};
ghost use Rattle.cstn_exec.specs.Right.{IsRightRun};

use super::Executive;
use cstn_label::{NodeId, Prop};

impl Executive {
    // Does nothing: its contract says that the run is right, and that the plan has a strategy of least moments.
    pub(super) fn is_right(&self)
        ensures right { IsRightRun (the_network self.now.net) self.now.run }
        ensures in_time { next self.now.run ≤ self.now.net.deadline + 1 }
        ensures well_formed { IsWellFormed (the_network self.now.net) }
        ensures earliest { (table : Table) × IsEarliest (the_network self.now.net) (the_bounds self.now.bounds) table }
    {
        self.plan.network();
    }

    pub(super) fn observer(&self, p: Prop) -> Option<NodeId>
        ensures { MatchOption result ((x : ℕ) → Observes (the_network self.now.net) x p.index → ⊥) (λ x. Observes (the_network self.now.net) x.0 p.index) }
    {
        self.plan.network().observer(p)
    }

    pub(super) fn reaction(&self, p: Prop) -> u32
        ensures { result ≡ (the_network self.now.net).reaction p.index }
    {
        self.plan.network().reaction(p)
    }

    // When a time-point was executed, if it was.
    pub(super) fn executed_at(&self, x: NodeId) -> Option<u32>
        requires { x.0 < count (the_network self.now.net) }
        ensures { result ≡ executed_at self.now.run x.0 }
    {
        self.moments[x.index()]
    }

    // The outcome of p that was seen, if any was.
    pub(super) fn outcome(&self, p: Prop) -> Option<bool>
        ensures { result ≡ outcome_of self.now.run p.index }
    {
        self.outcomes[p.index as usize]
    }

    pub(super) fn is_done(&self) -> bool
        ensures { result ≡ is_run_done self.now.run }
    {
        self.moments.iter().all(|m| m.is_some())
    }

    // The last accepted moment.
    pub(super) fn last(&self) -> Option<u32>
        ensures { result ≡ self.now.run.now }
    {
        self.last
    }

    // The first moment that may still be accepted.
    pub(super) fn next(&self) -> u32
        ensures { result ≡ next self.now.run }
    {
        self.is_right();
        match self.last() {
            Some(t) => t + 1,
            None => 0,
        }
    }
}
