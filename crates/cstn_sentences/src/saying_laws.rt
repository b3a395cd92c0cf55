//! What the lines of a plan say. The calls do nothing: their contracts are the laws.

ghost use Rattle.std.specs.Prelude.{◌≡◌, ◌≢◌, ◌↔◌, ◌≤ℤ◌, ◌+ℤ◌, ◌+◌, ◌∷◌, [], ℕ, ℤ, pos, Bool, true, false, List, Option, None, Ok, flat_map};
ghost use Rattle.cstn_label.specs.Labels.{Label};
ghost use Rattle.cstn_net.specs.Networks.{Network, Observes, IsWellFormed};
ghost use Rattle.cstn_net.specs.Strategies.{Schedule, Meets, IsKnown};
ghost use Rattle.cstn_text.specs.Names.{number_of};
ghost use Rattle.cstn_graphml.specs.Document.{Parts};
ghost use Rattle.cstn_graphml.specs.Networks.{constraint_drawn, network_of};
ghost use Rattle.cstn_sentences.specs.declared.lines.Range.{Range};
ghost use Rattle.cstn_sentences.specs.declared.lines.Reference.TheVariants.{Moment};
ghost use Rattle.cstn_sentences.specs.declared.lines.Says.{Says};
ghost use Rattle.cstn_sentences.specs.declared.lines.Says.TheVariants.{At, By, Between, ByAfter, Within, NotBefore, Together};
ghost use Rattle.cstn_sentences.specs.declared.lines.Side.TheVariants.{First, Last};
ghost use Rattle.cstn_sentences.specs.declared.lines.Span.{Span};
ghost use Rattle.cstn_sentences.specs.Declarations.{Declared, is_origin, declare_step};
ghost use Rattle.cstn_sentences.specs.Lines.{PlanStep};
ghost use Rattle.cstn_sentences.specs.Meaning.{Meaning, Moment_after, on_clock, bounds_of, since_origin, at_least, at_most, constraints_of};
ghost use Rattle.cstn_sentences.specs.Meaning.{is_of_end, point_in, moment_in, outcome_in};
ghost use Rattle.cstn_sentences.specs.MeantLines.{StartsTask, name_alone, IsOutcomeMeant, AreLinesMeant};
ghost use Rattle.cstn_sentences.specs.Moments.{tick_of, IsAtLeast, IsAtMost, IsAtMostSo, IsByTickSo, IsSaid, MeetsEach, FormAsks};
ghost use Rattle.cstn_sentences.specs.Plans.{plan, plan_parts};

/// A schedule meets the constraint that x is at least so many ticks after a moment exactly where x is, and likewise at most.
pub fn bounds_ask_what_they_say()
    ensures least { (at : Schedule) (x : ℕ) (m : Moment_after) (a : ℤ) (label : Label)
        → Meets at (constraint_drawn (at_least x m.0 (a +ℤ m.1) label)) ↔ IsAtLeast at x m a }
    ensures most { (at : Schedule) (x : ℕ) (m : Moment_after) (b : ℤ) (label : Label)
        → Meets at (constraint_drawn (at_most x m.0 (b +ℤ m.1) label)) ↔ IsAtMost at x m b }
{}

/// What each form of a rule asks of its time-point, by one of the moments that it counts from: at a tick or in a range of ticks, by
/// a tick, in a range after the moment, at most so many ticks after it, from it on within so many ticks, not before it, at its tick.
pub fn forms_say_what_they_say()
    ensures at_ticks { (first : Option ℤ) (at : Schedule) (x : ℕ) (r : Range) → at 0 ≡ 0
        → FormAsks first at x (At r) (0, pos 0) ((on_clock first r.least ≤ℤ pos (at x)) × IsByTickSo first at x r.most) }
    ensures by_tick { (first : Option ℤ) (at : Schedule) (x : ℕ) (t : Span) → at 0 ≡ 0
        → FormAsks first at x (By t) (0, pos 0) (pos (at x) ≤ℤ on_clock first t) }
    ensures in_range { (first : Option ℤ) (at : Schedule) (x : ℕ) (r : Range) (m : Moment_after)
        → FormAsks first at x (Between r) m (((tick_of at m +ℤ r.least.ticks) ≤ℤ pos (at x)) × IsAtMostSo at x m r.most) }
    ensures by_after { (first : Option ℤ) (at : Schedule) (x : ℕ) (t : Span) (m : Moment_after)
        → FormAsks first at x (ByAfter t) m (pos (at x) ≤ℤ (tick_of at m +ℤ t.ticks)) }
    ensures within { (first : Option ℤ) (at : Schedule) (x : ℕ) (t : Span) (m : Moment_after)
        → FormAsks first at x (Within t) m ((tick_of at m ≤ℤ pos (at x)) × (pos (at x) ≤ℤ (tick_of at m +ℤ t.ticks))) }
    ensures not_before { (first : Option ℤ) (at : Schedule) (x : ℕ) (m : Moment_after)
        → FormAsks first at x NotBefore m (tick_of at m ≤ℤ pos (at x)) }
    ensures together { (first : Option ℤ) (at : Schedule) (x : ℕ) (m : Moment_after)
        → FormAsks first at x Together m (pos (at x) ≡ tick_of at m) }
{
    bounds_ask_what_they_say();
}

/// The constraints of a rule are met exactly where what it says of its time-point holds, by all moments that it counts from. The
/// moment at which the outcome of a proposition is known is the tick from which on it is known.
pub fn sentences_say_what_they_say()
    ensures said { (first : Option ℤ) (at : Schedule) (x : ℕ) (says : Says) (ms : List Moment_after) (label : Label) → at 0 ≡ 0
        → MeetsEach at (flat_map (constraints_of x (bounds_of first says) label) (since_origin says ms)) → IsSaid first at x says ms }
    ensures asked { (first : Option ℤ) (at : Schedule) (x : ℕ) (says : Says) (ms : List Moment_after) (label : Label) → at 0 ≡ 0
        → IsSaid first at x says ms → MeetsEach at (flat_map (constraints_of x (bounds_of first says) label) (since_origin says ms)) }
    ensures known { (net : Network) (at : Schedule) (x y p : ℕ) → Observes net x p → tick_of at (x, pos (net.reaction p)) ≤ℤ pos (at y)
        → IsKnown net at (at y) p }
    ensures unknown { (net : Network) (at : Schedule) (x y p : ℕ) → IsWellFormed net → Observes net x p → IsKnown net at (at y) p
        → tick_of at (x, pos (net.reaction p)) ≤ℤ pos (at y) }
{
    forms_say_what_they_say();
}

/// The moments that names stand for. The name of a task alone is its end before `by` and behind `after`, else its start; `start of` and
/// `end of` say which. `result of` is the moment at which the outcome is known: so long after its observer as its reaction is.
pub fn names_stand_for_their_moments()
    ensures end_before_by { (n : ℕ) (d : Declared) (name : List ℕ) (k : ℕ) (t : Span) → StartsTask d name k
        → point_in n d (is_of_end (By t)) (name_alone name) ≡ Ok (k + 1) }
    ensures end_before_by_after { (n : ℕ) (d : Declared) (name : List ℕ) (k : ℕ) (t : Span) → StartsTask d name k
        → point_in n d (is_of_end (ByAfter t)) (name_alone name) ≡ Ok (k + 1) }
    ensures end_behind_after { (n : ℕ) (d : Declared) (name : List ℕ) (k : ℕ) → StartsTask d name k
        → moment_in n d (Moment (name_alone name)) ≡ Ok (k + 1, pos 0) }
    ensures start_elsewhere { (n : ℕ) (d : Declared) (name : List ℕ) (k : ℕ) (says : Says) → StartsTask d name k
        → ((t : Span) → says ≢ By t) → ((t : Span) → says ≢ ByAfter t) → point_in n d (is_of_end says) (name_alone name) ≡ Ok k }
    ensures start_of { (n : ℕ) (d : Declared) (name : List ℕ) (k : ℕ) (is_end : Bool) → StartsTask d name k
        → point_in n d is_end (record { name = name; side = First }) ≡ Ok k }
    ensures end_of { (n : ℕ) (d : Declared) (name : List ℕ) (k : ℕ) (is_end : Bool) → StartsTask d name k
        → point_in n d is_end (record { name = name; side = Last }) ≡ Ok (k + 1) }
    ensures result_of { (n t : ℕ) (d : Declared) (m : Meaning) (prop : List ℕ) (moment : Moment_after) → outcome_in n d prop ≡ Ok moment
        → IsOutcomeMeant n d (network_of (plan_parts t d m)) prop moment }
{}

/// A step is declared once: where its line is accepted, no line before it declared its name.
pub fn steps_are_declared_once()
    ensures origin { (n : ℕ) (s : PlanStep) (before after : Declared) → declare_step n s before ≡ Ok after → is_origin s.name ≡ true
        → before.origin ≡ None }
    ensures other { (n : ℕ) (s : PlanStep) (before after : Declared) → declare_step n s before ≡ Ok after → is_origin s.name ≡ false
        → number_of before.names s.name ≡ None }
{}

/// Each line of a plan has its part of the network: a step its time-point with its name, observation and label, a task two, a rule its
/// constraints. Each time-point but the origin is of a line, and the origin has nothing but by its step; the deadline is the one handed
/// in, else that of its line. And the network asks what its lines say: a schedule meets its constraints, in a scenario, exactly
/// where each line is true of it. A rule is true where, if its label holds, its time-point is so many ticks after each of the
/// moments that it counts from; a task, where its end is in its range after its start.
pub fn plans_say_what_their_lines_say()
    ensures { (text : List ℕ) (deadline : Option ℕ) (parts : Parts) → plan text deadline ≡ Ok parts → AreLinesMeant text deadline parts }
{
    sentences_say_what_they_say();
    names_stand_for_their_moments();
    steps_are_declared_once();
}
