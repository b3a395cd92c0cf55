ghost use Rattle.std.specs.Prelude.{ℕ, ◌≡◌, ◌<◌, ◌≤◌, ◌^◌, ◌↔◌, IsTrue, IfSome, IfNone};

use crate::words::{are_apart, are_inside, first_bit_from, has_bit, is_inside, with_bit};
use crate::{Known, Mark, Prop, Scenario};

/// A mark for each proposition. Bit p of `yes` alone is yes, of `no` alone is no, of both is unknown, of neither is absent.
#[derive(Clone, Copy, Debug, PartialEq, Eq, Hash)]
pub struct Label {
    yes: u64,
    no: u64,
    pub ghost yes_in_range: { yes < 2 ^ 52 },
    pub ghost no_in_range: { no < 2 ^ 52 },
}

impl Label {
    ghost use Rattle.cstn_label.specs.declared.marks.Mark.TheVariants.{Absent};
    ghost use Rattle.cstn_label.specs.Labels.{IsMarked, empty, joined, with_mark, without, IsPlain, IsWithin, Holds, IsPossible};
    ghost use Rattle.cstn_label.specs.Read.{marks, mark_of, the_scenario, is_known, the_values};
    ghost use Rattle.cstn_label.specs.Words.{has_bit};

    /// The label with no mark.
    pub fn empty() -> Label
        ensures empty { marks result ≡ empty }
    {
        Label { yes: 0, no: 0 }
    }

    /// The mark of p.
    pub fn mark(self, p: Prop) -> Mark
        ensures mark { result ≡ marks self p.index }
    {
        match (has_bit(self.yes, p.index), has_bit(self.no, p.index)) {
            (true, true) => Mark::Unknown,
            (true, false) => Mark::Yes,
            (false, true) => Mark::No,
            (false, false) => Mark::Absent,
        }
    }

    /// Two words: bit p of the first tells whether p's mark is yes or unknown, and bit p of the second whether it is no or unknown.
    pub fn words(self) -> (u64, u64)
        ensures words { (p : ℕ) → mark_of (has_bit result.0 p) (has_bit result.1 p) ≡ marks self p }
    {
        (self.yes, self.no)
    }

    /// The least marked proposition whose number is `from` or higher; none where no such proposition is marked. A walk that
    /// starts at 0 and goes on at the number after each answer takes one step for each mark.
    pub fn first_marked_from(self, from: u8) -> Option<Prop>
        ensures marked { IfSome result (λ p. IsMarked (marks self) p.index) }
        ensures from { IfSome result (λ p. from ≤ p.index) }
        ensures least { IfSome result (λ p. (q : ℕ) → from ≤ q → q < p.index → marks self q ≡ Absent) }
        ensures none { IfNone result ((q : ℕ) → from ≤ q → marks self q ≡ Absent) }
    {
        match first_bit_from(self.yes | self.no, from) {
            Some(index) => Some(Prop { index }),
            None => None,
        }
    }

    /// The label in which p's mark is m, and every other mark is as here.
    pub fn with(self, p: Prop, m: Mark) -> Label
        ensures with { marks result ≡ with_mark (marks self) p.index m }
    {
        let (yes, no) = match m {
            Mark::Absent => (false, false),
            Mark::Yes => (true, false),
            Mark::No => (false, true),
            Mark::Unknown => (true, true),
        };
        Label {
            yes: with_bit(self.yes, p.index, yes),
            no: with_bit(self.no, p.index, no),
        }
    }

    /// The label in which p's mark is absent, and every other mark is as here.
    pub fn without(self, p: Prop) -> Label
        ensures without { marks result ≡ without (marks self) p.index }
    {
        self.with(p, Mark::Absent)
    }

    /// The join of the two labels: on each proposition equal marks stay, an absent mark gives way to the other, and every
    /// other pair gives unknown.
    #[tactic(auto, using(crate::proofs::ReadLemmas::joined_at, crate::proofs::WordLemmas::or_in_range))]
    pub fn join(self, other: Label) -> Label
        ensures join { marks result ≡ joined (marks self) (marks other) }
    {
        Label {
            yes: self.yes | other.yes,
            no: self.no | other.no,
        }
    }

    /// Whether no mark is unknown.
    pub fn is_plain(self) -> bool
        ensures plain { IsTrue result ↔ IsPlain (marks self) }
    {
        are_apart(self.yes, self.no)
    }

    /// Whether on each proposition this label's mark is absent, equal to the other's, or the other's is unknown.
    pub fn is_within(self, other: Label) -> bool
        ensures within { IsTrue result ↔ IsWithin (marks self) (marks other) }
    {
        are_inside(self.yes, other.yes, self.no, other.no)
    }

    /// Whether each literal is true in the scenario. The label has no unknown mark; ask `is_plain` first.
    pub fn holds(self, s: Scenario) -> bool
        requires plain { IsPlain (marks self) }
        ensures holds { IsTrue result ↔ Holds (the_scenario s) (marks self) }
    {
        is_inside(self.yes, s.bits) && are_apart(self.no, s.bits)
    }

    /// Whether what is known rules out no mark. It rules out a literal that is known to be false, and an unknown mark on a
    /// proposition that is known.
    pub fn possible(self, k: Known) -> bool
        ensures possible { IsTrue result ↔ IsPossible (is_known k) (the_values k) (marks self) }
    {
        is_inside(self.yes & k.seen, k.bits) && are_apart(self.no & k.seen, k.bits)
    }
}
