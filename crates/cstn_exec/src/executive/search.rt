// The search for the due moment.
ghost use Rattle.std.specs.Prelude.{ℕ, ◌≡◌, ◌<◌, ◌≤◌, ◌+◌, true, false, Some, None, length, is_some, slice_index, slice_index_or};
ghost use Rattle.std.specs.List.{list_all};
ghost use Rattle.cstn_net.specs.Limits.{most_time_points, most_deadline};
ghost use Rattle.cstn_net.specs.Networks.{count};
ghost use Rattle.cstn_net.specs.Read.{the_network};
ghost use Rattle.cstn_plan.specs.Plans.{the_bounds};
ghost use Rattle.cstn_exec.specs.Runs.{is_run_done, is_before, is_outcome_ready, earliest_moment, AreAskedAt, AreAskedUnlessAwaited, due};

use super::Executive;
use super::asked::{Moments, asked};
use cstn_label::Prop;

/// The due moment, and for each time-point the moment that its bounds ask for by what is known at the due moment. `asked` is
/// none where an outcome is awaited at the due moment.
#[derive(Drop)]
pub struct Due {
    pub moment: u32,
    pub asked: Option<Moments>,
}

impl Executive {
    // The moment that the bounds on each time-point ask for, by what is known at t.
    fn earliest(&self, t: u32) -> Moments
        ensures { AreAskedAt (the_network self.now.net) (the_bounds self.now.bounds) self.now.run t result }
    {
        let known = self.known(t);
        asked(&self.plan, &known)
    }

    // The first moment after t at which the outcome of an executed observer becomes known or awaited; else u32::MAX.
    fn next_ready(&self, t: u32) -> u32
        requires { t ≤ most_deadline }
        ensures later { t < result }
        ensures same { (w p : ℕ) → t ≤ w → w < result → is_outcome_ready (the_network self.now.net) self.now.run (w + 1) p ≡ true
            → is_outcome_ready (the_network self.now.net) self.now.run (t + 1) p ≡ true }
    {
        self.is_right();
        let mut next = u32::MAX;
        for index in 0..52 {
            next = next.min(after(t, self.ready_at(Prop { index })));
        }
        next
    }

    // The first moment from t on at which a time-point that isn't executed is free, by what is known at t.
    fn first_free(&self, t: u32, asked: &Moments) -> u32
        requires waits { is_run_done self.now.run ≡ false }
        requires asked { AreAskedAt (the_network self.now.net) (the_bounds self.now.bounds) self.now.run t asked.now }
        ensures from { t ≤ result }
        ensures held { (x u : ℕ) → x < count (the_network self.now.net) → slice_index_or self.now.run.moments x None ≡ None → t ≤ u → u < result
            → u < earliest_moment (the_network self.now.net) (the_bounds self.now.bounds) self.now.run (t + 1) x }
        ensures free { (x : ℕ) × (x < count (the_network self.now.net)) × (slice_index_or self.now.run.moments x None ≡ None)
            × (earliest_moment (the_network self.now.net) (the_bounds self.now.bounds) self.now.run (t + 1) x ≤ result) }
    {
        self.is_right();
        least_from(&self.moments, asked, t)
    }

    // The due moment, where some time-point isn't executed.
    pub(super) fn first_due(&self) -> Due
        requires { is_run_done self.now.run ≡ false }
        ensures due { due (the_network self.now.net) (the_bounds self.now.bounds) self.now.run ≡ Some result.moment }
        ensures asked { AreAskedUnlessAwaited (the_network self.now.net) (the_bounds self.now.bounds) self.now.run result.moment result.asked }
    {
        self.is_right();
        let mut t = self.next();
        loop {
            let None = self.awaited(t) else {
                return Due {
                    moment: t,
                    asked: None,
                };
            };
            let asked = self.earliest(t);
            let free = self.first_free(t, &asked);
            let ready = self.next_ready(t);
            if free < ready {
                return Due {
                    moment: free,
                    asked: Some(asked),
                };
            }
            t = ready;
        }
    }
}

// The moment, if it is after t, and else u32::MAX, which is past every deadline.
fn after(t: u32, moment: Option<u32>) -> u32
    requires { t ≤ most_deadline }
    ensures later { t < result }
    ensures same { (w : ℕ) → t ≤ w → w < result → is_before (w + 1) moment ≡ true → is_before (t + 1) moment ≡ true }
{
    match moment {
        Some(m) if t < m => m,
        _ => u32::MAX,
    }
}

// The least of the moments in `after` of the time-points that aren't executed, each raised to t where it is below.
fn least_from(moments: &[Option<u32>], after: &Moments, t: u32) -> u32
    requires few { length moments.now ≤ most_time_points }
    requires waits { list_all is_some moments.now ≡ false }
    ensures from { t ≤ result }
    ensures held { (x u : ℕ) → x < length moments.now → slice_index_or moments.now x None ≡ None → t ≤ u → u < result → u < slice_index after.now x }
    ensures free { (x : ℕ) × (x < length moments.now) × (slice_index_or moments.now x None ≡ None) × (slice_index after.now x ≤ result) }
{
    let mut least = u32::MAX;
    for (x, moment) in moments.iter().enumerate() {
        if moment.is_none() {
            least = least.min(after[x].max(t));
        }
    }
    least
}
