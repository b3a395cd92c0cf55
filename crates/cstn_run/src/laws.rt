// Laws of guided sessions.
ghost use Rattle.std.specs.Prelude.{ℕ, ◌≡◌, Bool, List, None, Some};
ghost use Rattle.cstn_label.specs.Bounds.{Bound};
ghost use Rattle.cstn_net.specs.Networks.{IsWellFormed, count};
ghost use Rattle.cstn_lift.specs.Labelled.{Labelled, HasNoLabels};
ghost use Rattle.cstn_lift.specs.WellFormed.{IsLabelled};
ghost use Rattle.cstn_lift.specs.Lowered.{lowered};
ghost use Rattle.cstn_check.specs.Growth.{log_of, live_bounds};
ghost use Rattle.cstn_check.specs.declared.verdicts.Verdict.TheVariants.{Yes};
ghost use Rattle.cstn_lines.specs.LiveLines.{moment_at, seen, due_now, live_read};
ghost use Rattle.cstn_exec.specs.Runs.{start_of_run};
ghost use Rattle.cstn_exec.specs.Moves.{moment_refusal};
ghost use Rattle.cstn_exec.specs.Guides.{Guided, guide_begun};
ghost use Rattle.cstn_exec.specs.Sound.{IsPlanned};
ghost use Rattle.cstn_reply.specs.Sessions.{play};
ghost use Rattle.cstn_reply.specs.Reached.{heard};
ghost use Rattle.cstn_reply.specs.declared.output.Outcome.TheVariants.{Good, Unfinished};
ghost use Rattle.cstn_check.specs.Decisions.{verdict};
ghost use Rattle.cstn_exec.specs.Running.{run_turn, run_ending};
ghost use Rattle.cstn_run.specs.Sessions.{guide_turn, guide_ending};
ghost use Rattle.cstn_run.specs.Meanings.{GuidesTo, GuideNamesLeast, AcceptsExactly, SeesExactly, GuideTellsDue};
ghost use Rattle.cstn_run.specs.Meanings.{IsTimely, said_to, EndsUnfinished, IsCarriedThrough};

/// After yes, the live bounds of the log of the lowered network are those of a plan.
pub fn yes_is_planned()
    ensures planned { (cap load : ℕ) (m : Labelled) → IsLabelled m → IsWellFormed (lowered m) → verdict cap (lowered m) ≡ Yes load
        → IsPlanned m (live_bounds (log_of (lowered m))) }
{}

/// After any lines, the answer to a moment that is accepted names exactly the time-points that aren't executed yet, whose
/// completed labels hold by what is known, and whose least moment it is, each in every scenario that agrees with what was
/// handed in. A moment is accepted exactly where something is left to do, it is above the last accepted one, no outcome is
/// awaited at it, and it is at most the due moment; else the answer tells the first of these that fails. An outcome is accepted
/// exactly where its observer was named and no outcome of that proposition is kept; else the answer tells why not. Over any lines, the
/// moment at which an answer names a time-point is its least one in every such scenario. The answer to `due` is the due moment,
/// or `done` where there is none.
pub fn guided_answers_are_least()
    ensures least { (names : List (List ℕ)) (m : Labelled) (bounds : List Bound) (before : List (List ℕ)) (next : List ℕ) (g : Guided) (t : ℕ)
        → IsPlanned m bounds → GuidesTo names m bounds before next g → live_read next ≡ Some (moment_at t) → moment_refusal (lowered m) bounds g.run t ≡ None
        → GuideNamesLeast names m bounds before next g t }
    ensures accepted { (names : List (List ℕ)) (m : Labelled) (bounds : List Bound) (before : List (List ℕ)) (next : List ℕ) (g : Guided) (t : ℕ)
        → IsPlanned m bounds → GuidesTo names m bounds before next g → live_read next ≡ Some (moment_at t) → AcceptsExactly names m bounds before next g t }
    ensures outcomes { (names : List (List ℕ)) (m : Labelled) (bounds : List Bound) (before : List (List ℕ)) (next : List ℕ) (g : Guided) (p : ℕ) (value : Bool)
        → IsPlanned m bounds → GuidesTo names m bounds before next g → live_read next ≡ Some (seen p value) → SeesExactly names m bounds before next g p value }
    ensures timely { (names : List (List ℕ)) (m : Labelled) (bounds : List Bound) (lines : List (List ℕ)) → IsPlanned m bounds → IsTimely names m bounds lines }
    ensures due { (names : List (List ℕ)) (m : Labelled) (bounds : List Bound) (before : List (List ℕ)) (next : List ℕ) (g : Guided) → IsPlanned m bounds
        → GuidesTo names m bounds before next g → live_read next ≡ Some due_now → GuideTellsDue names m bounds before next g }
{}

/// Where a session ends well, the moments that its answers named are those of one labelled strategy, and meet each constraint
/// that is in force, in every scenario that agrees with what was handed in. Where it ends unfinished, the due moment is told.
pub fn good_sessions_are_carried_out()
    ensures carried_out { (names : List (List ℕ)) (m : Labelled) (bounds : List Bound) (lines : List (List ℕ)) → IsPlanned m bounds
        → (said_to names m bounds lines).outcome ≡ Good → IsCarriedThrough names m bounds lines }
    ensures unfinished { (names : List (List ℕ)) (m : Labelled) (bounds : List Bound) (lines : List (List ℕ)) → IsPlanned m bounds
        → (said_to names m bounds lines).outcome ≡ Unfinished → EndsUnfinished names m bounds lines }
{}

/// Where no time-point has a label, a guided session says what the session of an executive says, also before a fault.
pub fn unlabelled_sessions_are_plain()
    ensures whole { (names : List (List ℕ)) (m : Labelled) (bounds : List Bound) (lines : List (List ℕ)) → IsPlanned m bounds → HasNoLabels m
        → said_to names m bounds lines ≡ play (run_turn names (lowered m) bounds) (run_ending (lowered m) bounds) (start_of_run (count m.base)) 0 lines }
    ensures heard { (names : List (List ℕ)) (m : Labelled) (bounds : List Bound) (lines : List (List ℕ)) → IsPlanned m bounds → HasNoLabels m
        → heard (guide_turn names m bounds) (guide_begun (count m.base)) lines ≡ heard (run_turn names (lowered m) bounds) (start_of_run (count m.base)) lines }
{}
