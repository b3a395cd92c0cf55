// Laws of histories and of what is left.
ghost use Rattle.std.specs.Prelude.{ℕ, ◌≡◌, ◌<◌, ◌≤◌, ◌↔◌, [], None, Bool, IsTrue, List, length};
ghost use Rattle.std.specs.List.{All};
ghost use Rattle.cstn_label.specs.Labels.{Label, Scenario};
ghost use Rattle.cstn_net.specs.Limits.{most_constraints};
ghost use Rattle.cstn_net.specs.Networks.{Constraint, IsWellFormed, AreConstraintsOf, count};
ghost use Rattle.cstn_net.specs.Drafts.{BuilderParts};
ghost use Rattle.cstn_net.specs.Handed.{IsHanded};
ghost use Rattle.cstn_net.specs.Strategies.{Table};
ghost use Rattle.cstn_lift.specs.Labelled.{Labelled};
ghost use Rattle.cstn_lift.specs.Completion.{completed, completed_label, joined_upto, rounds};
ghost use Rattle.cstn_lift.specs.Read.{LabelledParts, the_labelled};
ghost use Rattle.cstn_lift.specs.WellFormed.{IsLabelled};
ghost use Rattle.cstn_lift.specs.Strategies.{IsExecuted, IsLabelledConsistent, IsLabelledLeast};
ghost use Rattle.cstn_label.specs.OnLetters.{IsOnLetters};
ghost use Rattle.cstn_history.specs.Histories.{History, IsHistory, IsInTime, IsTimelyHistory, AgreesWith, Settles, IsAllowed, allows};
ghost use Rattle.cstn_history.specs.Histories.{label_left, GoesOn, IsToldMore, edited, nothing_yet};
ghost use Rattle.cstn_history.specs.Continuations.{Continues, Can, IsLeastNow, IsQuietBefore, IsAlwaysAt, IsNamed, IsEventful, IsNext, IsLeastTable, CanWait};
ghost use Rattle.cstn_history.specs.Rest.{is_left, number_left, rest, rest_waiting};
ghost use Rattle.cstn_history.specs.Facts.{settles, now_refusal, done_refusal, told_refusal, expected_refusal, ready_refusal, at_now, with_done, with_told};
ghost use Rattle.cstn_history.specs.Facts.{with_expected, with_ready};
ghost use Rattle.cstn_history.specs.Handed.{HasAllLeft, bared};

/// The rest decides: a history can go on exactly where the labelled network of what is left is consistent. In each scenario that
/// agrees with what was told, a time-point that isn't done and is executed has the same least moments from now on as it has in
/// the rest.
pub fn rest_decides()
    ensures can { (m : Labelled) (h : History) (fresh : ℕ) → IsLabelled m → IsHistory m h → (Can m h ↔ IsLabelledConsistent (rest m h fresh)) }
    ensures least { (m : Labelled) (h : History) (fresh : ℕ) (s : Scenario) (x t : ℕ) → IsLabelled m → IsHistory m h → AgreesWith h s
        → x < count m.base → h.done x ≡ None → IsExecuted m s x → (IsLeastNow m h s x t ↔ IsLabelledLeast (rest m h fresh) s (number_left m h x) t) }
{}

/// Where it has at most 16,384 constraints, what is left is a labelled network, in which a time-point's completed label is that of
/// the network as it was, without what was told. So what is executed in a scenario that agrees with what was told is executed there
/// in the rest.
pub fn rest_is_labelled()
    ensures labelled { (m : Labelled) (h : History) (fresh : ℕ) → IsLabelled m → IsHistory m h → IsInTime m h
        → All (λ c. c.id < fresh) m.base.constraints → length (rest m h fresh).base.constraints ≤ most_constraints → IsLabelled (rest m h fresh) }
    ensures completed { (m : Labelled) (h : History) (fresh x : ℕ) → IsLabelled m → IsHistory m h → x < count m.base
        → IsTrue (is_left m h x) → completed_label (rest m h fresh) (number_left m h x) ≡ label_left h (completed_label m x) }
    ensures executed { (m : Labelled) (h : History) (fresh x : ℕ) (s : Scenario) → IsLabelled m → IsHistory m h → x < count m.base
        → AgreesWith h s → IsTrue (is_left m h x) → (IsExecuted m s x ↔ IsExecuted (rest m h fresh) s (number_left m h x)) }
    ensures gone { (m : Labelled) (h : History) (x : ℕ) (s : Scenario) → IsLabelled m → IsHistory m h → AgreesWith h s
        → h.done x ≡ None → IsExecuted m s x → IsTrue (is_left m h x) }
{}

/// Time, steps and what is ready later only narrow: with a later `now`, with time-points that are ready later, or with more done from the
/// moments on from which it could be, a table that continues the later history continues the earlier one. What is told only leaves cases
/// out: a table that continues a history still does once more is told.
pub fn histories_narrow()
    ensures time_and_steps { (m : Labelled) (h later : History) (table : Table) → IsLabelled m → IsHistory m h → IsHistory m later
        → GoesOn h later → Continues m later table → Continues m h table }
    ensures told { (m : Labelled) (h later : History) (table : Table) → IsToldMore h later → Continues m h table → Continues m later table }
{}

/// A history that can go on still can with a time-point that isn't done before t exactly where the time-point can wait until t.
pub fn ready_ones_wait()
    ensures { (m : Labelled) (h : History) (t x : ℕ) → x < count m.base → h.done x ≡ None → Can m h → (Can m (with_ready h t x) ↔ CanWait m h x t) }
{}

/// Whoever follows a table that continues a history stays on it, where nothing that isn't done comes before t in it: when time
/// passes up to t, when an outcome is told at a moment up to t, and when a time-point that it has at t in each scenario that is
/// left is done at t.
pub fn tables_are_followed()
    ensures time { (m : Labelled) (h : History) (table : Table) (t : ℕ) → Continues m h table → IsQuietBefore m h table t
        → Continues m (at_now h t) table }
    ensures told { (m : Labelled) (h : History) (table : Table) (t p : ℕ) (v : Bool) → Continues m h table → IsQuietBefore m h table t
        → h.told p ≡ None → Continues m (with_told h t p v) table }
    ensures done { (m : Labelled) (h : History) (table : Table) (t x : ℕ) → IsLabelled m → IsHistory m h → Continues m h table
        → IsQuietBefore m h table t → x < count m.base → h.done x ≡ None → IsAlwaysAt m h table x t → Continues m (with_done h t x) table }
{}

/// Before the next moment no table that continues a history executes anything that isn't done. So the history can go on when time
/// passes up to it, and when an outcome is told at a moment up to it. Where a table of least moments continues the history, it still
/// does when a time-point that is named at the next moment is done at it. And as long as no outcome is awaited and no time-point
/// is named, no table that continues the history executes anything that isn't done.
pub fn next_moment_is_first()
    ensures unless { (m : Labelled) (h : History) (table : Table) (t : ℕ) → IsLabelled m → ((u : ℕ) → h.now ≤ u → u < t → IsEventful m h u → ⊥)
        → Continues m h table → IsQuietBefore m h table t }
    ensures quiet { (m : Labelled) (h : History) (table : Table) (t : ℕ) → IsLabelled m → IsNext m h t → Continues m h table
        → IsQuietBefore m h table t }
    ensures time { (m : Labelled) (h : History) (t u : ℕ) → IsLabelled m → IsNext m h t → u ≤ t → Can m h → Can m (at_now h u) }
    ensures told { (m : Labelled) (h : History) (t u p : ℕ) (v : Bool) → IsLabelled m → IsNext m h t → u ≤ t → h.told p ≡ None
        → Can m h → Can m (with_told h u p v) }
    ensures done { (m : Labelled) (h : History) (table : Table) (t x : ℕ) → IsLabelled m → IsHistory m h → IsNext m h t
        → Continues m h table → IsLeastTable m h table → IsNamed m h t x → Continues m (with_done h t x) table }
{}

/// A time-point that is left and isn't done can wait until t exactly where what is left is consistent with the constraint that it is
/// at t or later; and where it can wait until t, it can wait until each earlier moment.
pub fn waiting_is_decided()
    ensures until { (m : Labelled) (h : History) (fresh x t : ℕ) → IsLabelled m → IsHistory m h → x < count m.base → h.done x ≡ None
        → IsTrue (is_left m h x) → (CanWait m h x t ↔ IsLabelledConsistent (rest_waiting m h fresh x t)) }
    ensures earlier { (m : Labelled) (h : History) (x t u : ℕ) → u ≤ t → CanWait m h x t → CanWait m h x u }
{}

/// A history of a labelled network is one of each with another deadline and other constraints. With a later deadline and fewer
/// constraints a history that could go on still can.
pub fn edits_keep_histories()
    ensures history { (m : Labelled) (h : History) (deadline : ℕ) (cs : List Constraint) → IsHistory m h → IsInTime m h
        → IsTimelyHistory (edited m deadline cs) h }
    ensures more { (m : Labelled) (h : History) (deadline : ℕ) (cs : List Constraint) → m.base.deadline ≤ deadline → AreConstraintsOf m.base cs
        → Can m h → Can (edited m deadline cs) h }
{}

/// That nothing has happened yet is a history of each labelled network, and what is left is then the labelled network itself.
pub fn nothing_yet_leaves_all()
    ensures history { (m : Labelled) → IsLabelled m → IsHistory m nothing_yet }
    ensures rest { (m : Labelled) (fresh : ℕ) → IsLabelled m → rest m nothing_yet fresh ≡ m }
{}

/// Completion ends: where a further round of joining in the labels of observers changes nothing, the label is the completed one.
pub fn completion_ends()
    ensures { (m : Labelled) (n : ℕ) (a : Label) → joined_upto m (count m.base) (rounds m n a) ≡ rounds m n a → rounds m n a ≡ completed m a }
{}

/// What was told allows a label of the 52 propositions exactly where it contradicts no mark, and settles it exactly where it
/// decides that the label holds.
pub fn told_labels_are_decided()
    ensures allows { (h : History) (a : Label) → IsOnLetters a → (IsTrue (allows h a) ↔ IsAllowed h a) }
    ensures settles { (h : History) (a : Label) → IsOnLetters a → (IsTrue (settles h a) ↔ Settles h a) }
{}

/// A fact that isn't refused makes the history one of the same network, with all numbers in range.
pub fn facts_make_histories()
    ensures now { (m : Labelled) (h : History) (t : ℕ) → IsHistory m h → IsInTime m h → now_refusal h t ≡ None → IsTimelyHistory m (at_now h t) }
    ensures done { (m : Labelled) (h : History) (t x : ℕ) → IsLabelled m → IsHistory m h → IsInTime m h
        → done_refusal m h t x ≡ None → IsTimelyHistory m (with_done h t x) }
    ensures told { (m : Labelled) (h : History) (t p : ℕ) (v : Bool) → IsLabelled m → IsHistory m h → IsInTime m h
        → told_refusal m h t p ≡ None → IsTimelyHistory m (with_told h t p v) }
    ensures expected { (m : Labelled) (h : History) (t p : ℕ) → IsLabelled m → IsHistory m h → IsInTime m h
        → expected_refusal m h t p ≡ None → IsTimelyHistory m (with_expected h t p) }
    ensures ready { (m : Labelled) (h : History) (t x : ℕ) → IsLabelled m → IsHistory m h → IsInTime m h
        → ready_refusal m h t x ≡ None → IsTimelyHistory m (with_ready h t x) }
{}

/// A builder that has the time-points that are left, each with what it observes and its reaction, and no constraints yet was
/// handed the rest without its constraints, which is a network.
pub fn points_left_are_handed()
    ensures network { (m : Labelled) (h : History) → IsLabelled m → IsHistory m h → IsInTime m h → IsWellFormed (bared m h) }
    ensures handed { (m : LabelledParts) (h : History) (b : BuilderParts) → IsLabelled (the_labelled m) → IsHistory (the_labelled m) h
        → IsInTime (the_labelled m) h → HasAllLeft (the_labelled m) h b.points → b.deadline ≡ m.base.deadline → b.drafts ≡ []
        → IsHanded b (bared (the_labelled m) h) }
{}
