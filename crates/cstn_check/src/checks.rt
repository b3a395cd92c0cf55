ghost use Rattle.std.specs.Prelude.{ℕ, ◌≡◌, ◌<◌, ◌≤◌, ◌↔◌, IfOk, Some, None, List, [], take};
ghost use Rattle.std.specs.List.{All};
ghost use Rattle.cstn_net.specs.Networks.{count};
ghost use Rattle.cstn_net.specs.Strategies.{IsConsistent};
ghost use Rattle.cstn_net.specs.Read.{the_network};
ghost use Rattle.cstn_rules.specs.Derivations.{Entry, IsRefutation};
ghost use Rattle.cstn_log.specs.Cuts.{last_with_ancestors};
ghost use Rattle.cstn_log.specs.Entries.{the_entries, first_entries};
ghost use Rattle.cstn_plan.specs.Plans.{the_bounds};
ghost use Rattle.cstn_refute.specs.Refutations.{FitsText, the_steps};
ghost use Rattle.cstn_check.specs.Growth.{log_of, load_of, live_bounds, most_entries};
ghost use Rattle.cstn_check.specs.Tries.{HasTried, most_tried};
ghost use Rattle.cstn_check.specs.Turns.{LastRefutes};
ghost use Rattle.cstn_check.specs.declared.verdicts.Verdict.{Verdict};
ghost use Rattle.cstn_check.specs.Checks.{IsStarted, IsVerdict, IsPrefix};

use crate::growth::{Grown, grow};
use crate::plans::live_bounds;
use crate::verdicts::{Verdict, verdict_of};
use cstn_label::Bound;
use cstn_log::{Cap, Log};
use cstn_net::{Network, network_is_well_formed};
use cstn_plan::SoundPlan;
use cstn_refute::Refutation;
use cstn_rules::Tries;
use std::alloc::{AllocError, Global};
use std::marker::Model;

/// A network with the log that grows from it, the verdict once it was asked for, and room for the bounds of a plan.
#[derive(Drop)]
pub struct Check {
    net: Network,
    log: Log,
    tries: Tries,
    verdict: Option<Verdict>,
    bounds: Vec<Bound>,
}

impl Model for Check {
    ghost use Rattle.std.specs.Prelude.{vec_capacity};
    ghost use Rattle.cstn_net.specs.Read.{the_network};
    ghost use Rattle.cstn_check.specs.Checks.{CheckParts, IsCheck};

    ghost Value = { CheckParts };

    ghost view = { λ c. record { net = c.net; cap = c.log.cap; verdict = c.verdict; tries = c.tries.count } };

    ghost invariant = { λ c. IsCheck (the_network c.net) c.log c.verdict c.tries.count c.bounds.items (vec_capacity c.bounds) };
}

impl Check {
    /// A check of the network, whose log has at most `cap` entries. All memory for the verdict and for a plan is taken here;
    /// fails only where memory is refused, and drops the network then.
    pub fn start(alloc: Global, net: Network, cap: Cap) -> Result<Check, AllocError>
        ensures start { IfOk result (λ check. check ≡ record { net = net; cap = cap.entries; verdict = None; tries = 0 }) }
    {
        let log = Log::start(alloc, &net, cap)?;
        let bounds = Vec::with_capacity(alloc, cap.entries as usize)?;
        Ok(Check {
            net,
            log,
            tries: Tries { count: 0 },
            verdict: None,
            bounds,
        })
    }

    /// The verdict: full exactly where the load is above the cap; else no with the load exactly where the last entry of the log
    /// refutes the network, and else yes with the load. Unless the log is full, it is yes exactly where the network has a
    /// strategy. Further calls give the same verdict.
    pub fn run(&mut self) -> Verdict
        ensures full { result ≡ Verdict.Full ↔ (self.old.cap < load_of (the_network self.old.net)) }
        ensures bounded { result ≡ Verdict.Full → self.old.cap < most_entries (the_network self.old.net) }
        ensures no { (load : ℕ) → (result ≡ Verdict.No load
            ↔ ((load ≡ load_of (the_network self.old.net)) × (load_of (the_network self.old.net) ≤ self.old.cap)
            × LastRefutes (the_network self.old.net) (log_of (the_network self.old.net)))) }
        ensures yes { (load : ℕ) → (result ≡ Verdict.Yes load
            ↔ ((load ≡ load_of (the_network self.old.net)) × (load_of (the_network self.old.net) ≤ self.old.cap)
            × ¬ LastRefutes (the_network self.old.net) (log_of (the_network self.old.net)))) }

        ensures exactly_yes { (load : ℕ) → (result ≡ Verdict.Yes load
            ↔ ((load ≡ load_of (the_network self.old.net)) × (load_of (the_network self.old.net) ≤ self.old.cap) × IsConsistent (the_network self.old.net))) }
        ensures exactly_no { (load : ℕ) → (result ≡ Verdict.No load
            ↔ ((load ≡ load_of (the_network self.old.net)) × (load_of (the_network self.old.net) ≤ self.old.cap)
            × ¬ IsConsistent (the_network self.old.net))) }
        ensures answered { self.new ≡ record self.old { verdict = Some result; tries = self.new.tries } }
        ensures again { (v : Verdict) → self.old.verdict ≡ Some v → (result ≡ v) × (self.new ≡ self.old) }

        ensures tries { self.old.tries ≤ self.new.tries }
        ensures most_tried { (result ≡ Verdict.Full → ⊥) → self.new.tries ≤ most_tried (the_network self.old.net) (log_of (the_network self.old.net)) }
    {
        network_is_well_formed(&self.net);
        self.judge()
    }

    // The verdict, which is found once and kept.
    fn judge(&mut self) -> Verdict
        ensures verdict { (list : List Entry) × IsVerdict (the_network self.old.net) self.old.cap list result }
        ensures answered { self.new ≡ record self.old { verdict = Some result; tries = self.new.tries } }
        ensures again { (v : Verdict) → self.old.verdict ≡ Some v → (result ≡ v) × (self.new ≡ self.old) }
        ensures tries { self.old.tries ≤ self.new.tries }
        ensures most_tried { (result ≡ Verdict.Full → ⊥) → self.new.tries ≤ most_tried (the_network self.old.net) (log_of (the_network self.old.net)) }
    {
        if let Some(verdict) = self.verdict {
            return verdict;
        }
        let verdict = answer(&self.net, &mut self.log, &mut self.tries);
        self.verdict = Some(verdict);
        verdict
    }

    /// How many rules were tried for the verdict, so 0 before it. After a yes or no these are at most the number of constraints
    /// times the load, plus one for each ordered pair of entries of the log of which wait has a conclusion.
    pub fn tries(&self) -> u64
        ensures tries { result ≡ self.now.tries }
        ensures before { self.now.verdict ≡ None → result ≡ 0 }
        ensures most_tried { (v : Verdict) → self.now.verdict ≡ Some v → (v ≡ Verdict.Full → ⊥)
            → result ≤ most_tried (the_network self.now.net) (log_of (the_network self.now.net)) }
    {
        self.tries.count
    }

    /// The log: all of it once the check has answered yes or no, its first `cap` entries after full, and the base bounds before.
    /// It is empty where `cap` is below the number of time-points.
    pub fn kept(&self) -> &Log
        ensures whole { (v : Verdict) → self.now.verdict ≡ Some v → (v ≡ Verdict.Full → ⊥)
            → the_entries result.now.entries ≡ log_of (the_network self.now.net) }
        ensures started { self.now.verdict ≡ None → the_entries result.now.entries ≡ first_entries (the_network self.now.net) self.now.cap }
        ensures full { self.now.verdict ≡ Some Verdict.Full → count (the_network self.now.net) ≤ self.now.cap
            → the_entries result.now.entries ≡ take self.now.cap (log_of (the_network self.now.net)) }
        ensures front { IsPrefix (the_entries result.now.entries) (log_of (the_network self.now.net)) }
        ensures empty { self.now.cap < count (the_network self.now.net) → the_entries result.now.entries ≡ [] }
        ensures size { result.now.cap ≡ self.now.cap }
    {
        network_is_well_formed(&self.net);
        &self.log
    }

    /// What refutes the network, once the check has answered no: the last entry of the log with its ancestors, and the load.
    /// Fails only where memory is refused.
    pub fn refutation(&self, alloc: Global) -> Result<Refutation, AllocError>
        requires no { (load : ℕ) × (self.now.verdict ≡ Some (Verdict.No load)) }
        ensures part { IfOk result (λ r. the_steps r ≡ last_with_ancestors (log_of (the_network self.now.net))) }
        ensures load { IfOk result (λ r. r.load ≡ load_of (the_network self.now.net)) }
        ensures refutes { IfOk result (λ r. IsRefutation (the_network self.now.net) (the_steps r)) }

        // It can be printed with the names of the time-points, and its text gives it back.
        ensures named { IfOk result (λ r. All (λ e. e.bound.node.0 < count (the_network self.now.net)) r.steps) }
        ensures text { IfOk result FitsText }
    {
        network_is_well_formed(&self.net);
        let load = self.log.len();
        let steps = self.log.part(alloc)?;
        Ok(Refutation::new(load, steps))
    }

    /// The plan that a yes leaves: the network, and the bounds of the live entries of its log, in order.
    pub fn into_plan(self) -> SoundPlan
        requires yes { (load : ℕ) × (self.verdict ≡ Some (Verdict.Yes load)) }
        ensures network { result.net ≡ self.net }
        ensures live { the_bounds result.bounds ≡ live_bounds (log_of (the_network self.net)) }
    {
        network_is_well_formed(&self.net);
        let room = self.bounds;
        let bounds = live_bounds(&self.log, room);
        SoundPlan::new(self.net, bounds)
    }

    /// The network that is checked.
    pub fn network(&self) -> &Network
        ensures network { result.now ≡ self.now.net }
    {
        &self.net
    }
}

// Grows the log of the network from its base bounds and gives the verdict. It is full at once where the log has no room for the
// base bounds.
fn answer(net: &Network, log: &mut Log, tries: &mut Tries) -> Verdict
    requires started { IsStarted (the_network net.now) log.old }
    requires none { tries.old.count ≡ 0 }
    ensures verdict { IsVerdict (the_network net.now) log.old.cap (the_entries log.new.entries) result }
    ensures size { log.new.cap ≡ log.old.cap }
    ensures tries { HasTried (the_network net.now) (Some result) tries.new.count }
{
    network_is_well_formed(net);
    if log.len() == 0 {
        return Verdict::Full;
    }
    let grown = grow(net, log, tries);
    let load = log.len();
    verdict_of(grown, load)
}
