// Laws of progress, of waiting and of blame.
ghost use Rattle.std.specs.Prelude.{ℕ, ℤ, pos, ◌≤ℤ◌, ◌≡◌, ◌+◌, ◌<◌, ◌≤◌, ◌↔◌, Bool, None, Some, List, IsTrue, length, codes};
ghost use Rattle.std.specs.List.{All, AllPairs, Contains};
ghost use Rattle.cstn_label.specs.declared.nodes.NodeId.{NodeId};
ghost use Rattle.cstn_net.specs.Limits.{most_constraints};
ghost use Rattle.cstn_net.specs.Networks.{IsWellFormed, count};
ghost use Rattle.cstn_net.specs.Strategies.{Table};
ghost use Rattle.cstn_lift.specs.Labelled.{Labelled};
ghost use Rattle.cstn_lift.specs.Lowered.{lowered};
ghost use Rattle.cstn_lift.specs.WellFormed.{IsLabelled};
ghost use Rattle.cstn_history.specs.Histories.{History, IsHistory, IsTimelyHistory, GoesOn};
ghost use Rattle.cstn_history.specs.Continuations.{Continues, Can, CanWait, IsNamed, IsLeastTable};
ghost use Rattle.cstn_history.specs.Rest.{is_left, number_left, rest, with_constraint};
ghost use Rattle.cstn_lines.specs.FollowLines.{Follow, follow_read};
ghost use Rattle.cstn_history.specs.Facts.{done_refusal, with_done, at_now, with_expected, with_ready};
ghost use Rattle.cstn_history.specs.Handed.{HasFewConstraints};
ghost use Rattle.cstn_follow.specs.Answers.{IsLatest};
ghost use Rattle.cstn_check.specs.Givers.{is_of, but};
ghost use Rattle.cstn_check.specs.declared.verdicts.Verdict.{Verdict};
ghost use Rattle.cstn_follow.specs.Asking.{FurtherQuestion, IsFurtherQuestion, printed_asked, of_line, of_question, asks_digest, spoken_read};
ghost use Rattle.cstn_follow.specs.Blame.{network_alone, ids_to_blame};
ghost use Rattle.cstn_follow.specs.Eased.{IsEased};
ghost use Rattle.cstn_follow.specs.Following.{verdict_left};
ghost use Rattle.cstn_follow.specs.Lateness.{late_of, IsRightLate};
ghost use Rattle.cstn_follow.specs.LeastDeadline.{least_of, IsRightLeast};
ghost use Rattle.cstn_follow.specs.Pauses.{pause_of, IsRightPause};
ghost use Rattle.cstn_follow.specs.Raises.{with_limit, raise_of, IsRightRaise};
ghost use Rattle.cstn_follow.specs.Progress.{HasRoomLeft, IsQuietUpto, IsHistoryStep, AreHistorySteps, history_after};
ghost use Rattle.cstn_follow.specs.Waiting.{HasRoomToWait, waiting_one, waits_until};

/// Whoever does what is named when it is named, and tells what is awaited before time passes it, can go on: after such a step, and
/// after any number of them, some table continues the history. A time-point that is named is accepted as done at its moment, and
/// the others that are named with it stay named.
pub fn next_keeps_going()
    ensures least { (m : Labelled) (h : History) → IsLabelled m → IsTimelyHistory m h → HasRoomLeft m h → Can m h
        → (table : Table) × Continues m h table × IsLeastTable m h table }
    ensures step { (m : Labelled) (h later : History) → IsLabelled m → IsTimelyHistory m h → Can m h → IsHistoryStep m h later
        → IsTimelyHistory m later × Can m later }
    ensures steps { (m : Labelled) (h : History) (steps : List History) → IsLabelled m → IsTimelyHistory m h → Can m h → AreHistorySteps m h steps
        → IsTimelyHistory m (history_after h steps) × Can m (history_after h steps) }
    ensures accepted { (m : Labelled) (h : History) (t : ℕ) (x : NodeId) → IsLabelled m → IsTimelyHistory m h → IsNamed m h t x.0
        → done_refusal m h t x.0 ≡ None }
    ensures named { (m : Labelled) (h : History) (t y : ℕ) (x : NodeId) → IsLabelled m → IsTimelyHistory m h → HasRoomLeft m h → Can m h
        → IsQuietUpto m h t → IsNamed m h t x.0 → IsNamed m h t y → (y ≡ x.0 → ⊥)
        → IsNamed m (with_done h t x.0) t y × IsQuietUpto m (with_done h t x.0) t }
{}

/// Until when a time-point that is left and isn't done can wait is found by halving, where a history can go on: the moment that is
/// found is the greatest until which it can.
pub fn waiting_is_found()
    ensures found { (m : Labelled) (h : History) (fresh x cap t : ℕ) → IsLabelled m → IsTimelyHistory m h → All (λ c. c.id < fresh) m.base.constraints
        → HasRoomToWait m h fresh → x < count m.base → h.done x ≡ None → IsTrue (is_left m h x) → Can m h → waits_until m h fresh x cap ≡ Some t
        → CanWait m h x t × ((u : ℕ) → CanWait m h x u → u ≤ t) }

    // One constraint more of what is left keeps it a labelled network, and lowered it is one constraint more too.
    ensures ids { (m : Labelled) (h : History) (fresh : ℕ) → IsLabelled m → IsTimelyHistory m h → All (λ c. c.id < fresh) m.base.constraints
        → HasRoomToWait m h fresh → All (λ c. c.id < fresh + most_constraints) (rest m h fresh).base.constraints }
    ensures numbers { (m : Labelled) (h : History) (fresh x : ℕ) → IsLabelled m → IsHistory m h → x < count m.base → IsTrue (is_left m h x)
        → number_left m h x < count (rest m h fresh).base }
    ensures labelled { (n : Labelled) (fresh k t : ℕ) → IsLabelled n → IsWellFormed (with_constraint n (waiting_one fresh k t)).base
        → IsLabelled (with_constraint n (waiting_one fresh k t)) }
    ensures long { (n : Labelled) (fresh k t : ℕ) → IsLabelled n → k < count n.base
        → length (lowered (with_constraint n (waiting_one fresh k t))).constraints ≡ length (lowered n).constraints + 1 }
{}

/// A labelled network with some of its constraints is one, whose lowered network has no more constraints; and what is left of it
/// has no more than what was left of the whole.
pub fn parts_are_labelled()
    ensures labelled { (m : Labelled) (test : ℕ → Bool) → IsLabelled m → IsLabelled (network_alone m test) }
    ensures short { (m : Labelled) (test : ℕ → Bool) → IsLabelled m
        → length (lowered (network_alone m test)).constraints ≤ length (lowered m).constraints }
    ensures above { (m : Labelled) (test : ℕ → Bool) (fresh : ℕ) → All (λ c. c.id < fresh) m.base.constraints
        → All (λ c. c.id < fresh) (network_alone m test).base.constraints }
    ensures room { (m : Labelled) (test : ℕ → Bool) (h : History) (fresh : ℕ) → IsLabelled m → HasFewConstraints (rest m h fresh)
        → HasFewConstraints (rest (network_alone m test) h fresh) }
{}

/// Which constraints are to blame, where a history can't go on, is found by leaving out each in ascending order of their ids without
/// which it can't go on either: by those that are found it can't go on, and without any one of them it can.
pub fn blame_is_found()
    ensures cannot { (m : Labelled) (h : History) (fresh cap : ℕ) (ids : List ℕ) → IsLabelled m → IsTimelyHistory m h
        → All (λ c. c.id < fresh) m.base.constraints → HasFewConstraints (rest m h fresh) → (Can m h → ⊥) → ids_to_blame m h fresh cap ≡ Some ids
        → Can (network_alone m (is_of ids)) h → ⊥ }
    ensures needed { (m : Labelled) (h : History) (fresh cap id : ℕ) (ids : List ℕ) → IsLabelled m → IsTimelyHistory m h
        → All (λ c. c.id < fresh) m.base.constraints → HasFewConstraints (rest m h fresh) → ids_to_blame m h fresh cap ≡ Some ids
        → Contains ids id → Can (network_alone m (but id (is_of ids))) h }
    ensures ascending { (m : Labelled) (h : History) (fresh cap : ℕ) (ids : List ℕ) → IsLabelled m → ids_to_blame m h fresh cap ≡ Some ids
        → AllPairs (λ a b. a < b) ids }
{}

/// Where it is no later, outcomes are known no later and time-points are ready no later, what has happened can go on as before. So where
/// it can go on at some moment it can at each earlier one.
pub fn earlier_is_no_worse()
    ensures table { (m : Labelled) (h easier : History) (table : Table) → IsEased m h easier → Continues m h table → Continues m easier table }
    ensures can { (m : Labelled) (h easier : History) → IsEased m h easier → Can m h → Can m easier }
    ensures now { (m : Labelled) (h : History) (t u : ℕ) → t ≤ u → IsEased m (at_now h u) (at_now h t) }
    ensures ready { (m : Labelled) (h : History) (t u x : ℕ) → t ≤ u → IsEased m (with_ready h u x) (with_ready h t x) }
{}

/// Waiting falls: when time has passed, when time-points are ready later, or when more is done from the moments on from which it could
/// be, no time-point can wait longer than before, and no outcome may be later.
pub fn waiting_falls()
    ensures waits { (m : Labelled) (h later : History) (x t : ℕ) → IsLabelled m → IsHistory m h → IsHistory m later → GoesOn h later
        → CanWait m later x t → CanWait m h x t }
    ensures late { (m : Labelled) (h later : History) (p t : ℕ) → IsLabelled m → IsHistory m (with_expected h t p)
        → IsHistory m (with_expected later t p) → GoesOn h later → Can m (with_expected later t p) → Can m (with_expected h t p) }
{}

/// What has happened can go on when a time-point isn't ready before a moment exactly up to the moment until which it can wait.
pub fn what_waits_may_be_ready_as_late()
    ensures { (m : Labelled) (h : History) (x t u : ℕ) → x < count m.base → h.done x ≡ None → Can m h → IsLatest m h x t
        → (Can m (with_ready h u x) ↔ (u ≤ t)) }
{}

/// Until when nothing at all may happen is found by halving: where there is a verdict on what is left, the answer is right.
pub fn pauses_are_found()
    ensures { (m : Labelled) (h : History) (fresh cap : ℕ) (v : Verdict) → IsLabelled m → IsTimelyHistory m h → All (λ c. c.id < fresh) m.base.constraints
        → verdict_left m h fresh cap ≡ Some v → IsRightPause m h fresh cap (pause_of m h fresh cap v) }
{}

/// Until when an outcome may be late is found by halving: where there is a verdict on what is left, the answer is right.
pub fn lateness_is_found()
    ensures { (m : Labelled) (h : History) (fresh cap p : ℕ) (v : Verdict) → IsLabelled m → IsTimelyHistory m h → All (λ c. c.id < fresh) m.base.constraints
        → verdict_left m h fresh cap ≡ Some v → IsRightLate m h fresh cap p (late_of m h fresh cap p v) }
{}

/// A looser limit is no worse: a table that continues a history continues it with a greater value of a constraint. From the deadline on
/// all values are one: with such a value a history can go on where it can with any.
pub fn looser_limits_are_no_worse()
    ensures table { (m : Labelled) (h : History) (id : ℕ) (v w : ℤ) (table : Table) → IsLabelled m → v ≤ℤ w
        → Continues (with_limit m id v) h table → Continues (with_limit m id w) h table }
    ensures beyond { (m : Labelled) (h : History) (id : ℕ) (v w : ℤ) → IsLabelled m → pos m.base.deadline ≤ℤ w
        → Can (with_limit m id v) h → Can (with_limit m id w) h }
{}

/// By how much a limit has to give way is found by halving: where there is a verdict on what is left, the answer is right.
pub fn raises_are_found()
    ensures { (m : Labelled) (h : History) (fresh cap id : ℕ) (v : Verdict) → IsLabelled m → IsTimelyHistory m h → All (λ c. c.id < fresh) m.base.constraints
        → verdict_left m h fresh cap ≡ Some v → IsRightRaise m h fresh cap id (raise_of m h fresh cap id v) }
{}

/// The least deadline by which a history can go on is found by one check, of what is left by the deadline 1,000,000: where there is a
/// verdict on what is left, the answer is right.
pub fn least_deadlines_are_found()
    ensures { (m : Labelled) (h : History) (fresh cap : ℕ) (v : Verdict) → IsLabelled m → IsTimelyHistory m h → All (λ c. c.id < fresh) m.base.constraints
        → verdict_left m h fresh cap ≡ Some v → IsRightLeast m h fresh cap (least_of m h fresh cap) }
{}

/// A further question has one text, and no text of one is a line that tells, edits or asks otherwise.
pub fn questions_have_one_text()
    ensures back { (question : FurtherQuestion) → IsFurtherQuestion question → spoken_read (printed_asked question) ≡ Some (of_question question) }
    ensures only { (text : List ℕ) (question : FurtherQuestion) → spoken_read text ≡ Some (of_question question)
        → (printed_asked question ≡ text) × IsFurtherQuestion question }
    ensures digest { (text : List ℕ) → (spoken_read text ≡ Some asks_digest ↔ (text ≡ codes "digest")) }
    ensures others { (text : List ℕ) (line : Follow) → follow_read text ≡ Some line → spoken_read text ≡ Some (of_line line) }
{}
