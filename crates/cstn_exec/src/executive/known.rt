// What is known and awaited at a moment.
ghost use Rattle.std.specs.Prelude.{ℕ, ◌≡◌, ◌<◌, ◌≤◌, ◌+◌, Some, None, IfSome};
ghost use Rattle.std.specs.Option.{option_map};
ghost use Rattle.cstn_label.specs.Read.{known_value};
ghost use Rattle.cstn_net.specs.Limits.{most_deadline};
ghost use Rattle.cstn_net.specs.Read.{the_network};
ghost use Rattle.cstn_exec.specs.Runs.{observed_at, ready_at, is_outcome_ready, known, is_awaited, awaited};

use super::Executive;
use cstn_label::{Known, Prop};

impl Executive {
    // The moment at which the observer of p was executed, if it was.
    pub(super) fn observed_at(&self, p: Prop) -> Option<u32>
        ensures observed { result ≡ observed_at (the_network self.now.net) self.now.run p.index }
        ensures in_time { IfSome result (λ m. m ≤ most_deadline) }
    {
        self.is_right();
        match self.observer(p) {
            Some(x) => self.executed_at(x),
            None => None,
        }
    }

    // The moment from which the outcome of p is known or awaited.
    pub(super) fn ready_at(&self, p: Prop) -> Option<u32>
        ensures { result ≡ ready_at (the_network self.now.net) self.now.run p.index }
    {
        self.is_right();
        match self.observed_at(p) {
            Some(m) => Some(m + self.reaction(p)),
            None => None,
        }
    }

    fn is_ready(&self, t: u32, p: Prop) -> bool
        ensures { result ≡ is_outcome_ready (the_network self.now.net) self.now.run (t + 1) p.index }
    {
        match self.ready_at(p) {
            Some(m) => m <= t,
            None => false,
        }
    }

    fn is_awaited(&self, t: u32, p: Prop) -> bool
        ensures { result ≡ is_awaited (the_network self.now.net) self.now.run (t + 1) p.index }
    {
        self.is_ready(t, p) && self.outcome(p).is_none()
    }

    // The least proposition that is awaited at t.
    pub(super) fn awaited(&self, t: u32) -> Option<Prop>
        ensures { option_map (λ p. p.index) result ≡ awaited (the_network self.now.net) self.now.run (t + 1) }
    {
        for index in 0..52 {
            let p = Prop { index };
            if self.is_awaited(t, p) {
                return Some(p);
            }
        }
        None
    }

    // The value of p that is known at t, if it is.
    fn value(&self, t: u32, p: Prop) -> Option<bool>
        ensures { result ≡ known (the_network self.now.net) self.now.run (t + 1) p.index }
    {
        if self.is_ready(t, p) {
            self.outcome(p)
        } else {
            None
        }
    }

    /// The values that are known at the moment t, in ticks: the outcomes that were seen of the propositions whose reactions
    /// have passed by then, each counted from the moment of the observer.
    pub fn known(&self, t: u32) -> Known
        ensures known { (p : ℕ) → known_value result p ≡ known (the_network self.now.net) self.now.run (t + 1) p }
    {
        self.is_right();
        let mut known = Known::nothing();
        for index in 0..52 {
            let p = Prop { index };
            if let Some(value) = self.value(t, p) {
                known = known.with(p, value);
            }
        }
        known
    }
}
