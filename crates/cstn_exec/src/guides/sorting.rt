// Which of the time-points that are called at a moment are named, and which are left out.
ghost use Rattle.std.specs.Prelude.{ℕ, ◌≡◌, ◌<◌, ◌≤◌, None, not, length, map, slice_index_or, slice_set, true};
ghost use Rattle.cstn_label.specs.Read.{marks, known_value};
ghost use Rattle.cstn_net.specs.Networks.{IsWellFormed, Observes, count};
ghost use Rattle.cstn_net.specs.Read.{the_network};
ghost use Rattle.cstn_lift.specs.Read.{the_labelled};
ghost use Rattle.cstn_exec.specs.Moves.{outcome_refusal};
ghost use Rattle.cstn_exec.specs.Guides.{fits_surely, holds_by, holding, others, denied, all_denied, with_left};
ghost use Rattle.cstn_exec.specs.GuideRead.{AreWithoutOutcomes};

use crate::Executive;
use crate::executive::Names;
use cstn_label::{Known, Label, Mark, NodeId, Prop};
use cstn_lift::Labels;

// Of the time-points that were called last, names each whose completed label holds by what is known, and leaves out the
// others.
pub fn sort_out(
    executive: &mut Executive,
    left: &mut Vec<bool>,
    named: &mut Names,
    labels: &Labels,
    known: &Known,
)
    requires same { count (the_network executive.old.net) ≡ count (the_labelled labels.now).base }
    requires size { length left.old.items ≡ count (the_network executive.old.net) }
    requires room { count (the_network executive.old.net) ≤ named.old.capacity }
    requires well_formed { IsWellFormed (the_network executive.old.net) }
    requires fresh { AreWithoutOutcomes (the_network executive.old.net) executive.old.run executive.old.named }
    ensures executive { executive.new ≡ record executive.old {
      run = all_denied (the_network executive.old.net)
          (others (the_labelled labels.now) (known_value known.now) executive.old.named) executive.old.run;
    } }
    ensures left { left.new.items ≡ with_left (others (the_labelled labels.now) (known_value known.now) executive.old.named) left.old.items }
    ensures named { map (λ x. x.0) named.new.items ≡ holding (the_labelled labels.now) (known_value known.now) executive.old.named }
    ensures capacity { named.new.capacity ≡ named.old.capacity }
{
    named.clear();
    for k in 0..executive.named().len() {
        let x = executive.named()[k];
        if holds_by(labels.get(x), known) {
            named.push_reserved(x);
        } else {
            leave_out(executive, left, x);
        }
    }
}

// Marks a time-point as left out, and keeps the outcome false of the proposition that it observes, if any.
fn leave_out(executive: &mut Executive, left: &mut Vec<bool>, x: NodeId)
    requires inside { x.0 < count (the_network executive.old.net) }
    requires size { length left.old.items ≡ count (the_network executive.old.net) }
    requires unseen { (p : ℕ) → Observes (the_network executive.old.net) x.0 p → outcome_refusal (the_network executive.old.net) executive.old.run p ≡ None }
    ensures executive { executive.new
        ≡ record executive.old { run = denied (slice_index_or (the_network executive.old.net).observes x.0 None) executive.old.run } }
    ensures left { left.new.items ≡ slice_set left.old.items x.0 true }
{
    left[x.index()] = true;
    if let Some(p) = executive.network().observes(x) {
        let _ = executive.see(p, false);
    }
}

// Whether each proposition that the label marks is known, with a value that fits.
fn holds_by(label: Label, known: &Known) -> bool
    ensures { result ≡ holds_by (known_value known.now) (marks label) }
{
    for index in 0..52 {
        let p = Prop { index };
        if !fits_surely(known.value(p), label.mark(p)) {
            return false;
        }
    }
    true
}

// Whether the mark is absent, or the value is known and fits it.
fn fits_surely(value: Option<bool>, mark: Mark) -> bool
    ensures { result ≡ fits_surely value mark }
{
    match (mark, value) {
        (Mark::Absent, _) => true,
        (Mark::Yes, Some(value)) => value,
        (Mark::No, Some(value)) => !value,
        _ => false,
    }
}
