// Laws of guides.
ghost use Rattle.std.specs.Prelude.{ℕ, ◌≡◌, ◌<◌, ◌+◌, ◌↔◌, true, Bool, List, Option, Some, None};
ghost use Rattle.std.specs.List.{Contains};
ghost use Rattle.std.specs.List.Sorted.{IsStrictlyIncreasing};
ghost use Rattle.cstn_label.specs.Bounds.{Bound};
ghost use Rattle.cstn_net.specs.Networks.{IsWellFormed, Observes, count};
ghost use Rattle.cstn_lift.specs.Labelled.{Labelled, HasNoLabels};
ghost use Rattle.cstn_lift.specs.Completion.{completed_label};
ghost use Rattle.cstn_lift.specs.WellFormed.{IsLabelled};
ghost use Rattle.cstn_lift.specs.Lowered.{lowered};
ghost use Rattle.cstn_exec.specs.Runs.{Run, executed_at, known, called};
ghost use Rattle.cstn_exec.specs.Moves.{NotExecuted, moment_refusal, run_moved, outcome_refusal};
ghost use Rattle.cstn_exec.specs.Right.{IsRightRun, IsDone};
ghost use Rattle.cstn_exec.specs.Guides.{Guided, guide_begun, named_at, holds_by, named, left_out, advanced, see_refusal, outcome_noted};
ghost use Rattle.cstn_exec.specs.Sound.{IsPlanned, HoldsBy, IsDecided, IsNamedAt, IsLeftAt, IsGuided, IsOnTime, IsLed};
ghost use Rattle.cstn_exec.specs.GuideExamples.{guide_answers, treatment, treatment_plan, needed_events, needed_answers, spared_events, spared_answers};
ghost use Rattle.cstn_exec.specs.GuideExamples.{second_test, second_test_plan, no_second_test_events, no_second_test_answers, second_test_events};
ghost use Rattle.cstn_exec.specs.GuideExamples.{second_test_answers, slow_second_test, slow_second_test_plan, slow_events, slow_answers};

use cstn_lift::observers_are_found;

/// The state with nothing named or left out is right, and accepted moments and outcomes keep a state right.
pub fn guides_stay_right()
    ensures begun { (m : Labelled) (bounds : List Bound) → IsPlanned m bounds → IsGuided m (guide_begun (count m.base)) }
    ensures advanced { (m : Labelled) (bounds : List Bound) (g : Guided) (t : ℕ) → IsPlanned m bounds → IsGuided m g
        → moment_refusal (lowered m) bounds g.run t ≡ None → IsGuided m (advanced m bounds g t) }
    ensures noted { (m : Labelled) (g : Guided) (p : ℕ) (v : Bool) → IsLabelled m → IsWellFormed (lowered m) → IsGuided m g
        → see_refusal m g p ≡ None → p < 52 → IsGuided m (outcome_noted g p v) }
{}

/// What was known at the moment of a time-point in a right run of the lowered network decides the completed label of the
/// time-point: the label holds, or is ruled out. `holds_by` tests exactly whether it holds.
pub fn holding_is_decided()
    ensures decided { (m : Labelled) (bounds : List Bound) (run : Run) (x t : ℕ) → IsPlanned m bounds → IsRightRun (lowered m) run
        → executed_at run x ≡ Some t → IsDecided (known (lowered m) run (t + 1)) (completed_label m x) }
    ensures holds { (m : Labelled) (values : ℕ → Option Bool) (x : ℕ) → IsLabelled m
        → (holds_by values (completed_label m x) ≡ true ↔ HoldsBy values (completed_label m x)) }
{}

/// Of the time-points whose least moment it is by what is known, an accepted moment names exactly those whose completed labels
/// hold, each once and in ascending number, and leaves out exactly those whose completed labels are ruled out.
pub fn the_named_hold()
    ensures named { (m : Labelled) (bounds : List Bound) (g : Guided) (t : ℕ) → IsPlanned m bounds → IsGuided m g
        → moment_refusal (lowered m) bounds g.run t ≡ None → (x : ℕ) → Contains (named m bounds g.run t) x ↔ IsNamedAt m g.run t x }
    ensures left { (m : Labelled) (bounds : List Bound) (g : Guided) (t : ℕ) → IsPlanned m bounds → IsGuided m g
        → moment_refusal (lowered m) bounds g.run t ≡ None → (x : ℕ) → Contains (left_out m bounds g.run t) x ↔ IsLeftAt m g.run t x }
    ensures ascending { (m : Labelled) (bounds : List Bound) (run : Run) (t : ℕ) → IsStrictlyIncreasing (named m bounds run t) }
{}

/// In every scenario that agrees with the outcomes that were handed in and are known, each named time-point is executed, at its
/// least moment, and none that was left out is. Once all is done, the named moments are those of one labelled strategy.
pub fn guides_are_on_time()
    ensures on_time { (m : Labelled) (g : Guided) → IsLabelled m → IsWellFormed (lowered m) → IsGuided m g → IsOnTime m g }
    ensures led { (m : Labelled) (bounds : List Bound) (g : Guided) → IsPlanned m bounds → IsGuided m g → IsDone (lowered m) g.run → IsLed m g }
{}

/// An outcome is refused as not observed exactly where no named time-point observes the proposition.
pub fn outcomes_are_of_the_named()
    ensures refused { (m : Labelled) (g : Guided) (p : ℕ) → IsWellFormed (lowered m)
        → (see_refusal m g p ≡ Some (NotExecuted p) ↔ ((x : ℕ) → Observes (lowered m) x p → named_at g x ≡ None)) }
{
    observers_are_found();
}

/// Where no time-point has a label, a guide names what the executive names, leaves out none, and refuses what the executive
/// refuses.
pub fn unlabelled_guides_are_executives()
    ensures named { (m : Labelled) (bounds : List Bound) (run : Run) (t : ℕ) → IsLabelled m → HasNoLabels m
        → named m bounds run t ≡ called (lowered m) bounds run t }
    ensures advanced { (m : Labelled) (bounds : List Bound) (g : Guided) (t : ℕ) → IsLabelled m → HasNoLabels m
        → advanced m bounds g t ≡ record { run = run_moved (lowered m) bounds g.run t; left = g.left } }
    ensures see { (m : Labelled) (g : Guided) (p : ℕ) → IsLabelled m → HasNoLabels m → IsGuided m g
        → see_refusal m g p ≡ outcome_refusal (lowered m) g.run p }
{}

/// What is answered while small plans of labelled networks are carried out.
pub fn guide_answers_are_known()
    ensures needed { guide_answers treatment treatment_plan needed_events ≡ needed_answers }
    ensures spared { guide_answers treatment treatment_plan spared_events ≡ spared_answers }
    ensures second_test { guide_answers second_test second_test_plan second_test_events ≡ second_test_answers }
    ensures slow_second_test { guide_answers slow_second_test slow_second_test_plan slow_events ≡ slow_answers }
    ensures no_second_test { guide_answers second_test second_test_plan no_second_test_events ≡ no_second_test_answers }
{}
