// Laws of runs.
ghost use Rattle.std.specs.Prelude.{ℕ, ◌≡◌, ◌<◌, ◌≤◌, ◌↔◌, ◌⊎◌, true, false, List, [], Some, None};
ghost use Rattle.std.specs.List.{Contains};
ghost use Rattle.std.specs.List.Sorted.{IsStrictlyIncreasing};
ghost use Rattle.cstn_label.specs.Bounds.{Bound};
ghost use Rattle.cstn_net.specs.Networks.{Network, IsWellFormed, count};
ghost use Rattle.cstn_exec.specs.Runs.{Run, start_of_run, called, due, is_awaited};
ghost use Rattle.cstn_exec.specs.Moves.{Done, Past, Late, Awaiting, moment_refusal, run_moved, outcome_refusal, handed};
ghost use Rattle.cstn_exec.specs.Right.{IsPlanBounds, IsRightRun, IsCalled, IsDue, IsDone, IsFulfilled, IsBetween, IsFirstAwaited};
ghost use Rattle.cstn_exec.specs.Answers.{event_answers};
ghost use Rattle.cstn_exec.specs.Examples.{branch_at_ten, branch_plan, slow_branch, slow_branch_plan, last_tick_plan, crossed, crossed_plan, later_process};
ghost use Rattle.cstn_exec.specs.Examples.{process_plan};
ghost use Rattle.cstn_exec.specs.Examples.{branch_events, branch_answers, true_branch_events, true_branch_answers, last_tick_events, last_tick_answers};
ghost use Rattle.cstn_exec.specs.Examples.{slow_events, slow_answers, crossed_events, crossed_answers, process_events, process_answers};

/// The run of which nothing is executed is right, and accepted moments and outcomes keep a run right.
pub fn runs_stay_right()
    ensures start { (net : Network) (bounds : List Bound) → IsPlanBounds net bounds → IsRightRun net (start_of_run (count net)) }
    ensures moved { (net : Network) (bounds : List Bound) (run : Run) (t : ℕ) → IsPlanBounds net bounds → IsRightRun net run →
        moment_refusal net bounds run t ≡ None
        → IsRightRun net (run_moved net bounds run t) }
    ensures handed { (net : Network) (run : Run) (p : ℕ) → IsWellFormed net → IsRightRun net run → outcome_refusal net run p ≡ None → p < 52
        → IsRightRun net (handed run p true) × IsRightRun net (handed run p false) }
{}

/// An accepted moment names exactly the time-points that aren't executed and have their least moment there, in each scenario
/// that agrees with what is known; each once, in ascending number.
pub fn the_named_are_called()
    ensures named { (net : Network) (bounds : List Bound) (run : Run) (t : ℕ) → IsPlanBounds net bounds → IsRightRun net run →
        moment_refusal net bounds run t ≡ None
        → (x : ℕ) → Contains (called net bounds run t) x ↔ IsCalled net run t x }
    ensures ascending { (net : Network) (bounds : List Bound) (run : Run) (t : ℕ) → IsStrictlyIncreasing (called net bounds run t) }
{}

/// The due moment is the first above `now` at which a proposition is awaited or a time-point has its least moment, and is at
/// most the deadline; there is none exactly where all is executed. A moment between `now` and the due moment is accepted and
/// names nothing. The due moment itself is refused only where an outcome is awaited.
pub fn due_is_exact()
    ensures due { (net : Network) (bounds : List Bound) (run : Run) (t : ℕ) → IsPlanBounds net bounds → IsRightRun net run → due net bounds run ≡ Some t
        → IsDue net run t × (t ≤ net.deadline) }
    ensures none { (net : Network) (bounds : List Bound) (run : Run) → IsPlanBounds net bounds → IsRightRun net run →
        (due net bounds run ≡ None ↔ IsDone net run) }
    ensures before { (net : Network) (bounds : List Bound) (run : Run) (t u : ℕ) → IsPlanBounds net bounds → IsRightRun net run → due net bounds run ≡ Some t
        → IsBetween run u t → (moment_refusal net bounds run u ≡ None) × (called net bounds run u ≡ []) }
    ensures waits { (net : Network) (bounds : List Bound) (run : Run) (t : ℕ) → due net bounds run ≡ Some t
        → (moment_refusal net bounds run t ≡ None) ⊎ ((p : ℕ) × (moment_refusal net bounds run t ≡ Some (Awaiting p))) }
    ensures end { (net : Network) (bounds : List Bound) (run : Run) → IsPlanBounds net bounds → IsRightRun net run → IsDone net run → IsFulfilled net run }
{}

/// What each refusal of a moment tells. The outcome of a proposition that is awaited is accepted.
pub fn refusals_are_right()
    ensures done { (net : Network) (bounds : List Bound) (run : Run) (t : ℕ) → IsRightRun net run
        → (moment_refusal net bounds run t ≡ Some Done ↔ IsDone net run) }
    ensures past { (net : Network) (bounds : List Bound) (run : Run) (t now : ℕ) → moment_refusal net bounds run t ≡ Some (Past now)
        → (run.now ≡ Some now) × (t ≤ now) }
    ensures awaiting { (net : Network) (bounds : List Bound) (run : Run) (t p : ℕ) → IsWellFormed net → moment_refusal net bounds run t ≡ Some (Awaiting p)
        → IsFirstAwaited net run t p }
    ensures late { (net : Network) (bounds : List Bound) (run : Run) (t u : ℕ) → IsPlanBounds net bounds → IsRightRun net run
        → moment_refusal net bounds run t ≡ Some (Late u) → IsDue net run u × (u < t) }
    ensures outcome { (net : Network) (run : Run) (u p : ℕ) → is_awaited net run u p ≡ true → outcome_refusal net run p ≡ None }
{}

/// What is answered while small plans are carried out.
pub fn answers_are_known()
    ensures branch { event_answers branch_at_ten branch_plan branch_events ≡ branch_answers }
    ensures true_branch { event_answers branch_at_ten branch_plan true_branch_events ≡ true_branch_answers }
    ensures last_tick { event_answers branch_at_ten last_tick_plan last_tick_events ≡ last_tick_answers }
    ensures slow { event_answers slow_branch slow_branch_plan slow_events ≡ slow_answers }
    ensures crossed { event_answers crossed crossed_plan crossed_events ≡ crossed_answers }
    ensures process { event_answers later_process process_plan process_events ≡ process_answers }
{}
