// The moments that the bounds of a plan ask for.
ghost use Rattle.std.specs.Prelude.{ℕ, ◌≡◌, ◌<◌, ◌==◌, ◌&&◌, cond, max, slice_index};
ghost use Rattle.cstn_label.specs.Read.{marks, known_value};
ghost use Rattle.cstn_net.specs.Limits.{most_time_points};
ghost use Rattle.cstn_plan.specs.Asked.{moment_of, greatest};
ghost use Rattle.cstn_plan.specs.Plans.{the_bounds};
ghost use Rattle.cstn_exec.specs.Runs.{is_possible};

use cstn_label::{Bound, Known, Label, labels_are_their_marks};
use cstn_net::MAX_NODES;
use cstn_plan::SoundPlan;

/// A moment for each of the 1,024 time-points that there may be.
pub type Moments = [u32; MAX_NODES];

// For each time-point the greatest moment that a bound on it with a possible label asks for, or 0 if there is none.
pub fn asked(plan: &SoundPlan, known: &Known) -> Moments
    ensures { (x : ℕ) → x < most_time_points → slice_index result x
        ≡ greatest (λ b. (b.node == x) && is_possible (known_value known.now) b.label) (the_bounds plan.now.bounds) }
{
    plan.network();
    let mut after = zeros();
    for k in 0..plan.count() {
        note(&mut after, plan.bound(k), known);
    }
    after
}

fn zeros() -> Moments
    ensures { (x : ℕ) → slice_index result x ≡ 0 }
{
    [0; MAX_NODES]
}

fn note(after: &mut Moments, bound: Bound, known: &Known)
    requires { bound.node.0 < most_time_points }
    ensures { (x : ℕ) → x < most_time_points → slice_index after.new x
        ≡ cond ((bound.node.0 == x) && is_possible (known_value known.now) (marks bound.label))
        (max (slice_index after.old x) (moment_of bound.least)) (slice_index after.old x) }
{
    let x = bound.node.index();
    let moment = moment_of(bound.least);
    if is_possible(bound.label, known) && after[x] < moment {
        after[x] = moment;
    }
}

/// Whether the label may still hold: what is known rules out none of its marks.
pub fn is_possible(label: Label, known: &Known) -> bool
    ensures possible { result ≡ is_possible (known_value known.now) (marks label) }
{
    labels_are_their_marks();
    label.possible(*known)
}

fn moment_of(least: i32) -> u32
    ensures { result ≡ moment_of least }
{
    if least > 0 { least as u32 } else { 0 }
}
