// What is true in each state of a session that follows. The calls do nothing: their contracts are the laws.
ghost use Rattle.std.specs.Prelude.{ℕ, ◌≡◌, ◌≤◌, ◌↔◌, ◌⊎◌, ◌+◌, ◌++◌, [], List, length, Some, IsTrue, codes, false, not};
ghost use Rattle.std.specs.List.{Contains, filter};
ghost use Rattle.cstn_label.specs.Labels.{Scenario};
ghost use Rattle.cstn_net.specs.Limits.{most_constraints};
ghost use Rattle.cstn_net.specs.Networks.{Constraint, count};
ghost use Rattle.cstn_text.specs.Names.{number_of};
ghost use Rattle.cstn_lift.specs.Labelled.{Labelled};
ghost use Rattle.cstn_lift.specs.Lowered.{lowered};
ghost use Rattle.cstn_lift.specs.WellFormed.{IsLabelled};
ghost use Rattle.cstn_history.specs.Histories.{AgreesWith, nothing_yet};
ghost use Rattle.cstn_history.specs.Continuations.{Can};
ghost use Rattle.cstn_next.specs.Next.{IsAllDone};
ghost use Rattle.cstn_lines.specs.FollowLines.{Follow, follow_read, asks_next, asks_by, asks_blame};
ghost use Rattle.cstn_save.specs.Canonical.{canonical};
ghost use Rattle.cstn_reply.specs.Texts.{line, say};
ghost use Rattle.cstn_reply.specs.declared.output.Outcome.TheVariants.{Good, Bad};
ghost use Rattle.cstn_reply.specs.Sessions.{more};
ghost use Rattle.cstn_reply.specs.Reached.{state_after};
ghost use Rattle.cstn_follow.specs.Amending.{forgives, steps};
ghost use Rattle.cstn_follow.specs.Asking.{FurtherQuestion, of_question, of_amendment, asks_digest, spoken_read};
ghost use Rattle.cstn_follow.specs.Digests.{digest_line};
ghost use Rattle.cstn_follow.specs.Following.{Following, begun_following, verdict_now, is_any_open, following_ending};
ghost use Rattle.cstn_follow.specs.Forgiving.{IsBrokenBy, is_broken_by, broken_ids};
ghost use Rattle.cstn_follow.specs.Hearing.{counted};
ghost use Rattle.cstn_follow.specs.Recorded.{IsFact};
ghost use Rattle.cstn_follow.specs.Turns.{IsTrueOfSession};
ghost use Rattle.cstn_followed.specs.Sessions.{IsReached, follow_turn};
ghost use Rattle.cstn_followed.specs.Answers.{Accepts, AnswersNext, AnswersBy, AnswersBlame};
ghost use Rattle.cstn_followed.specs.FurtherAnswers.{AnswersAsked};
ghost use Rattle.cstn_followed.specs.Plans.{IsRefusedBy, KeepToNext, KeepGoing};
ghost use Rattle.cstn_followed.specs.Finished.{IsCarriedOut, HaveTheSame};
ghost use Rattle.cstn_followed.specs.Journal.{texts_of, accepted_of, with_cap, AreAccepted, AreSameButCount, AreSameUnlessFull};
ghost use Rattle.cstn_follow.specs.Trials.{is_refusal};
ghost use Rattle.cstn_followed.specs.Order.{AllTellPast, IsHistoryOf, TellTheSame};
ghost use Rattle.cstn_followed.specs.Edits.{plan_begun, plan_now, IsPlanByLines, IsEditLine, Edits, Forgives, Steps, IsNew};
ghost use Rattle.cstn_followed.specs.End.{count_left, AreTurns};
ghost use Rattle.cstn_check.specs.declared.verdicts.Verdict.TheVariants.{Full};

/// In each state that lines lead a session that follows to, the verdict is true: yes is said only where some table continues what has
/// happened, no only where none does, and that the log is full only where the log of what is left has more entries than it may. A fact
/// is refused, with nothing changed but the count of lines; or it is in the history then, nothing else is changed, and the answer is the
/// line of the verdict on what is left then, which is true.
pub fn followed_verdicts_are_true()
    ensures states { (s : Following) → IsReached s → IsTrueOfSession s (verdict_now s) }
    ensures facts { (s next : Following) (bytes text : List ℕ) (fact : Follow) → IsReached s → follow_read bytes ≡ Some fact → IsFact fact
        → follow_turn s bytes ≡ more text next → IsRefusedBy s text next ⊎ Accepts s fact text next }
{}

/// In each state that lines lead a session that follows to, a question changes nothing but the count of lines, and its answer is true.
/// After yes `next` is answered by `done` where nothing is left, and else by the next moment with exactly the names of the time-points
/// that are named and the outcomes that are awaited at it; `by`, unless it is refused, by the last moment until which the time-point can
/// wait. After no `blame` is answered by the ids of constraints by which alone no table continues what has happened, while without any
/// one of them some table does. That a log is full is said only where that of what is left with the time-point at some moment or later,
/// or of what is left by some of the constraints alone, has more entries than it may. The lines end with `done` exactly where nothing is
/// left. And a line that is refused changes nothing but the count of lines.
pub fn followed_answers_are_true()
    ensures next { (s t : Following) (bytes text : List ℕ) → IsReached s → follow_read bytes ≡ Some asks_next → follow_turn s bytes ≡ more text t
        → (t ≡ counted s) × AnswersNext s (verdict_now s) text }
    ensures by { (s t : Following) (bytes text name : List ℕ) → IsReached s → follow_read bytes ≡ Some (asks_by name)
        → follow_turn s bytes ≡ more text t → (t ≡ counted s) × AnswersBy s name (number_of s.names name) text }
    ensures blame { (s t : Following) (bytes text : List ℕ) → IsReached s → follow_read bytes ≡ Some asks_blame → follow_turn s bytes ≡ more text t
        → (t ≡ counted s) × AnswersBlame s (verdict_now s) text }
    ensures over { (s : Following) → IsReached s → (is_any_open s ≡ false ↔ IsAllDone s.network s.history) }
    ensures refused { (s next : Following) (bytes why : List ℕ) → IsReached s
        → follow_turn s bytes ≡ more (line (codes "refused " ++ why)) next → next ≡ counted s }
{}

/// In each state that lines lead a session that follows to, a further question changes nothing but the count of lines, and its answer is
/// right. `verdict` is answered by the line of the verdict. After yes `until` is answered by the last moment up to which time can pass
/// with nothing done so that what has happened can go on, or by `done` where nothing is left; `by` without a name by the last moment until
/// which each time-point can wait that is left to be done. `late` is answered by the last moment at which the outcome can be expected, or
/// that there is none, also after no. After no `raise` is answered by the least value above its own of the constraint with which what has
/// happened can go on, or that there is none; and `least`, in each state, by the least deadline by which it can, or that there is none.
/// That a log is full, or that there are too many constraints, is said only where it is so.
/// `digest` is answered by the SHA-256 of the canonical document of the plan as edited.
pub fn followed_questions_are_answered()
    ensures asked { (s t : Following) (bytes text : List ℕ) (question : FurtherQuestion) → IsReached s → spoken_read bytes ≡ Some (of_question question)
        → follow_turn s bytes ≡ more text t → (t ≡ counted s) × AnswersAsked s question text }
    ensures digest { (s t : Following) (bytes text : List ℕ) → spoken_read bytes ≡ Some asks_digest → follow_turn s bytes ≡ more text t
        → (t ≡ counted s) × (text ≡ digest_line (canonical s.network s.names)) }
{}

/// Where what has happened can go on, as after yes, whoever does what is named when it is named, tells what is awaited before time passes
/// it, and lets time pass at most up to the next moment, is never answered no. Each such line is refused, with nothing changed but the
/// count of lines, or answered with yes, or that the log is full; and after any list of them some table still continues what has
/// happened.
pub fn followed_plans_go_on()
    ensures { (cap : ℕ) (names : List (List ℕ)) (m : Labelled) (before lines : List (List ℕ)) (s : Following) → IsLabelled m
        → length (lowered m).constraints ≤ most_constraints → length names ≡ count m.base
        → state_after follow_turn (begun_following cap names m) 0 before ≡ Some s → Can s.network s.history → KeepToNext s lines → KeepGoing s lines }
{}

/// Where nothing is left, some table continues what has happened exactly where the plan was carried out: in each case that agrees with
/// what was told, each time-point whose label holds is done, each constraint that is in force is met by the moments that were told, and
/// all of it was done by the deadline. So a session that ends with `done` and status 0 shows that it was, and one that ends with status
/// 1 that it wasn't. All cases that agree with what was told are alike then.
pub fn finished_plans_are_carried_out()
    ensures exactly { (s : Following) → IsReached s → IsAllDone s.network s.history → (Can s.network s.history ↔ IsCarriedOut s.network s.history) }
    ensures good { (s : Following) → IsReached s → following_ending s ≡ say Good (codes "done") → IsCarriedOut s.network s.history }
    ensures bad { (s : Following) → IsReached s → following_ending s ≡ say Bad (codes "done") → IsCarriedOut s.network s.history → ⊥ }
    ensures alike { (s : Following) (a b : Scenario) → IsReached s → IsAllDone s.network s.history → AgreesWith s.history a → AgreesWith s.history b
        → HaveTheSame s.network a b }
{}

/// Of lines that lead to a state, those that were accepted lead to the same state but for the count of lines, and each of them is
/// answered as it was, also the questions. So they are a journal, which brings the session back.
pub fn journals_lead_back()
    ensures state { (cap : ℕ) (names : List (List ℕ)) (m : Labelled) (lines : List (List ℕ)) (s : Following) → IsLabelled m
        → length (lowered m).constraints ≤ most_constraints → length names ≡ count m.base
        → state_after follow_turn (begun_following cap names m) 0 lines ≡ Some s
        → (again : Following) × (state_after follow_turn (begun_following cap names m) 0 (accepted_of (begun_following cap names m) lines) ≡ Some again)
        × AreSameButCount s again }
    ensures texts { (cap : ℕ) (names : List (List ℕ)) (m : Labelled) (lines : List (List ℕ)) (s : Following) → IsLabelled m
        → length (lowered m).constraints ≤ most_constraints → length names ≡ count m.base
        → state_after follow_turn (begun_following cap names m) 0 lines ≡ Some s
        → texts_of (begun_following cap names m) (accepted_of (begun_following cap names m) lines)
        ≡ filter (λ text. not (is_refusal text)) (texts_of (begun_following cap names m) lines) }
{}

/// With a larger cap lines lead to the same state but for the cap, and each is answered as with the smaller one, unless that answered
/// that a log has more entries than the cap.
pub fn larger_caps_say_more()
    ensures state { (cap larger : ℕ) (names : List (List ℕ)) (m : Labelled) (lines : List (List ℕ)) (s : Following) → IsLabelled m
        → length (lowered m).constraints ≤ most_constraints → length names ≡ count m.base → cap ≤ larger
        → state_after follow_turn (begun_following cap names m) 0 lines ≡ Some s
        → state_after follow_turn (begun_following larger names m) 0 lines ≡ Some (with_cap s larger) }
    ensures texts { (cap larger : ℕ) (names : List (List ℕ)) (m : Labelled) (lines : List (List ℕ)) (s : Following) → IsLabelled m
        → length (lowered m).constraints ≤ most_constraints → length names ≡ count m.base → cap ≤ larger
        → state_after follow_turn (begun_following cap names m) 0 lines ≡ Some s
        → AreSameUnlessFull cap (texts_of (begun_following cap names m) lines) (texts_of (begun_following larger names m) lines) }
{}

/// Two lists of lines, each of which tells what has happened (`did`, `saw` or `now`) and is accepted, lead to the same history where they
/// tell the same, in whatever order and in however many lines: that the same was done, each at the same moment, that the same came out,
/// and the same latest moment. What has happened then is what had happened before and what the lines tell.
pub fn order_makes_no_difference()
    ensures one { (s one two : Following) (lines others : List (List ℕ)) → IsReached s → AllTellPast lines → AllTellPast others
        → AreAccepted s lines → AreAccepted s others → TellTheSame s.names lines others → state_after follow_turn s 0 lines ≡ Some one
        → state_after follow_turn s 0 others ≡ Some two → one.history ≡ two.history }
    ensures told { (s later : Following) (lines : List (List ℕ)) → IsReached s → AllTellPast lines → AreAccepted s lines
        → state_after follow_turn s 0 lines ≡ Some later → IsHistoryOf s.names s.history lines later.history }
{}

/// Where what has happened can go on, whoever does in turn after turn all that is named at the next moment, and tells what is awaited,
/// can still go on, and less is left after each turn. So after as many turns as there were time-points left and outcomes to be told, if
/// not before, nothing is left, and the session ends with `done` and status 0, unless the last check was full.
pub fn followed_plans_end()
    ensures turns { (n : ℕ) (s last : Following) → IsReached s → Can s.network s.history → AreTurns n s last
        → n + count_left last.network last.history ≤ count_left s.network s.history }
    ensures can { (n : ℕ) (s last : Following) → IsReached s → Can s.network s.history → AreTurns n s last → Can last.network last.history }
    ensures none { (s : Following) → IsReached s → (count_left s.network s.history ≡ 0 ↔ IsAllDone s.network s.history) }
    ensures end { (s : Following) → IsReached s → Can s.network s.history → IsAllDone s.network s.history
        → (following_ending s ≡ say Good (codes "done")) ⊎ (verdict_now s ≡ Full) }
{}

/// An edit or a deadline is refused, with nothing changed but the count of lines, or the network is the one edited by it, and nothing
/// else changes but the count of lines; an edit is counted, and a deadline isn't. So over all lines the network is the one at the start
/// as edited by the accepted edits, in their order, with their count, where `forgive` removes what is broken by what had happened then;
/// and what has happened is what the accepted facts say. The id of a constraint that is added was never used before: it is above all ids
/// of each network that the session had.
/// `digest` is answered by the SHA-256 of the canonical document of the plan as edited.
pub fn edits_change_the_plan_alone()
    ensures answers { (s next : Following) (bytes text : List ℕ) (edit : Follow) → IsReached s → follow_read bytes ≡ Some edit → IsEditLine edit
        → follow_turn s bytes ≡ more text next → IsRefusedBy s text next ⊎ Edits s edit text next }
    ensures new { (earlier s : Following) (k : ℕ) (lines : List (List ℕ)) → IsReached earlier → state_after follow_turn earlier k lines ≡ Some s
        → IsNew earlier.network.base s.fresh }
    ensures plan { (cap : ℕ) (names : List (List ℕ)) (m : Labelled) (lines : List (List ℕ)) (s : Following) → IsLabelled m
        → length (lowered m).constraints ≤ most_constraints → length names ≡ count m.base
        → state_after follow_turn (begun_following cap names m) 0 lines ≡ Some s
        → IsPlanByLines (plan_begun names m) nothing_yet (accepted_of (begun_following cap names m) lines) (plan_now s) s.history }
{}

/// `step` is refused, with nothing changed but the count of lines, or a time-point of the name, which none had, is put behind the others,
/// which counts as an edit, and nothing else changes but the count of lines. Whatever could go on can go on, unless now is above the
/// deadline.
pub fn steps_are_put_behind()
    ensures answers { (s next : Following) (bytes text name : List ℕ) → IsReached s → spoken_read bytes ≡ Some (of_amendment (steps name))
        → follow_turn s bytes ≡ more text next → IsRefusedBy s text next ⊎ Steps s name text next }
    ensures goes { (s next : Following) (name text : List ℕ) → IsReached s → Steps s name text next
        → (Can next.network next.history ↔ (Can s.network s.history × (s.history.now ≤ s.network.base.deadline))) }
{}

/// `forgive` is refused, with nothing changed but the count of lines, or each constraint that what was done has broken is removed,
/// which counts as an edit each, and nothing else changes but the count of lines; the answer tells their ids. Broken is a constraint whose
/// ends are done at moments that don't meet it and which is in force in some case that is left. Where what has happened can go on, none
/// is; and none is once what was broken is forgiven.
pub fn forgiving_gives_up_what_is_broken()
    ensures answers { (s next : Following) (bytes text : List ℕ) → IsReached s → spoken_read bytes ≡ Some (of_amendment forgives)
        → follow_turn s bytes ≡ more text next → IsRefusedBy s text next ⊎ Forgives s text next }
    ensures broken { (s : Following) (c : Constraint) → IsReached s → Contains s.network.base.constraints c
        → (IsTrue (is_broken_by s.network s.history c) ↔ IsBrokenBy s.network s.history c) }
    ensures kept { (s : Following) → IsReached s → Can s.network s.history → broken_ids s.network s.history ≡ [] }
    ensures none { (s next : Following) (text : List ℕ) → Forgives s text next → broken_ids next.network next.history ≡ [] }
{}
