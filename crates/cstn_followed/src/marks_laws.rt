// What is true of sessions with marks. The calls do nothing: their contracts are the laws.
ghost use Rattle.std.specs.Prelude.{ℕ, suc, ◌≡◌, ◌≤◌, ◌+◌, ◌++◌, ◌∷◌, [], List, length, Some, codes};
ghost use Rattle.cstn_net.specs.Limits.{most_constraints};
ghost use Rattle.cstn_net.specs.Networks.{count};
ghost use Rattle.cstn_lift.specs.Labelled.{Labelled};
ghost use Rattle.cstn_lift.specs.Lowered.{lowered};
ghost use Rattle.cstn_lift.specs.WellFormed.{IsLabelled};
ghost use Rattle.cstn_reply.specs.Sessions.{more};
ghost use Rattle.cstn_reply.specs.Reached.{state_after};
ghost use Rattle.cstn_follow.specs.Asking.{Spoken, spoken_read};
ghost use Rattle.cstn_follow.specs.Following.{Following, begun_following, verdict_now, verdict_line};
ghost use Rattle.cstn_follow.specs.Hearing.{counted};
ghost use Rattle.cstn_follow.specs.Marks.{Marked, begun_marked, most_marks, saying_read, of_triable, tries};
ghost use Rattle.cstn_follow.specs.Trials.{Triable, sets_cap};
ghost use Rattle.cstn_followed.specs.Journal.{accepted_of, with_cap, AreSameButCount};
ghost use Rattle.cstn_followed.specs.Marked.{marked_turn, lines_that_count, ArePaired, IsTried};
ghost use Rattle.cstn_followed.specs.Sessions.{IsReached, follow_turn};

/// What is said and what follows in a session with marks is so in one without them. Of the lines of a session with marks those count which
/// tell, edit or ask, and do not stand between a mark and its `back`. They lead a session that was started with the cap that is there last,
/// and has no marks, to the same state, where an empty line, which no session has, is heard in the place of each line that does not count;
/// and those of them that are accepted lead to it but for the count of lines. So all that is true in each state of a session without marks
/// is true here, and what stands between a mark and its `back`, what is tried, and the marks are no part of the journal. A line that
/// tells, edits or asks is answered as in the session without marks.
pub fn marked_sessions_follow()
    ensures state { (cap : ℕ) (names : List (List ℕ)) (m : Labelled) (lines : List (List ℕ)) (t : Marked) → IsLabelled m
        → length (lowered m).constraints ≤ most_constraints → length names ≡ count m.base
        → state_after marked_turn (begun_marked cap names m) 0 lines ≡ Some t
        → state_after follow_turn (begun_following t.now.cap names m) 0 (lines_that_count lines) ≡ Some t.now }
    ensures reached { (cap : ℕ) (names : List (List ℕ)) (m : Labelled) (lines : List (List ℕ)) (t : Marked) → IsLabelled m
        → length (lowered m).constraints ≤ most_constraints → length names ≡ count m.base
        → state_after marked_turn (begun_marked cap names m) 0 lines ≡ Some t → IsReached t.now }
    ensures journal { (cap : ℕ) (names : List (List ℕ)) (m : Labelled) (lines : List (List ℕ)) (t : Marked) → IsLabelled m
        → length (lowered m).constraints ≤ most_constraints → length names ≡ count m.base
        → state_after marked_turn (begun_marked cap names m) 0 lines ≡ Some t
        → (again : Following) × (state_after follow_turn (begun_following t.now.cap names m) 0
        (accepted_of (begun_following t.now.cap names m) (lines_that_count lines)) ≡ Some again)
        × AreSameButCount t.now again }
    ensures answers { (t : Marked) (bytes text : List ℕ) (next : Following) (spoken : Spoken) → spoken_read bytes ≡ Some spoken
        → follow_turn t.now bytes ≡ more text next → marked_turn t bytes ≡ more text (record t { now = next }) }
{}

/// The state after `back` is the one at its `mark`, but for the count of lines, with the marks that there were before it; whatever stands
/// between, where each `mark` has its `back`, and there are no more than 8 marks at a time.
pub fn marks_lead_back()
    ensures { (n k : ℕ) (between : List (List ℕ)) (t next : Marked) → ArePaired n between → length t.marks + suc n ≤ most_marks
        → state_after marked_turn t k (codes "mark" ∷ (between ++ codes "back" ∷ [])) ≡ Some next
        → AreSameButCount t.now next.now × (next.marks ≡ t.marks) }
{}

/// A line that is tried changes nothing but the count of lines. Its text is what the line is answered in this state, but where the line is
/// an edit, an amendment or a deadline that is accepted, the line of the verdict in the state that it leads to.
pub fn trials_change_nothing()
    ensures { (t next other : Marked) (bytes tried text answer : List ℕ) (line : Triable) → saying_read tried ≡ Some (tries line)
        → saying_read bytes ≡ Some (of_triable line) → marked_turn t tried ≡ more text next → marked_turn t bytes ≡ more answer other
        → (next ≡ record { now = counted t.now; marks = t.marks }) × IsTried line answer other.now text }
{}

/// A line that sets the cap changes nothing else but the count of lines, and is answered by the line of the verdict with this cap. And a
/// session in which the cap is set is in the state to which the same lines lead one that was started with it.
pub fn caps_are_set()
    ensures cap { (t next : Marked) (bytes text : List ℕ) (cap : ℕ) → saying_read bytes ≡ Some (of_triable (sets_cap cap))
        → marked_turn t bytes ≡ more text next
        → (next ≡ record { now = record (counted t.now) { cap = cap }; marks = t.marks }) × (text ≡ verdict_line cap (verdict_now next.now)) }
    ensures state { (cap other : ℕ) (names : List (List ℕ)) (m : Labelled) (lines : List (List ℕ)) (s : Following) → IsLabelled m
        → length (lowered m).constraints ≤ most_constraints → length names ≡ count m.base
        → state_after follow_turn (begun_following cap names m) 0 lines ≡ Some s
        → state_after follow_turn (begun_following other names m) 0 lines ≡ Some (with_cap s other) }
{}
