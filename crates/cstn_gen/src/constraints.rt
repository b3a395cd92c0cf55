ghost use Rattle.std.specs.Prelude.{◌≡◌, ◌<◌, ◌≤◌, ◌+◌};
ghost use Rattle.cstn_label.specs.Read.{marks};
ghost use Rattle.cstn_gen.specs.Draws.{nth_state};
ghost use Rattle.cstn_gen.specs.Generated.{span_of, span_at, lower_of, with_drawn_literal, letter_prop, sign, label_from};

use crate::draws::Draws;
use cstn_label::{Label, Mark, Prop};

/// The ends of a constraint and its value in ticks.
#[derive(Clone, Copy, Debug, PartialEq, Eq)]
pub(crate) struct Span {
    pub(crate) from: u32,
    pub(crate) to: u32,
    pub(crate) most: i32,
}

const FIRST_LETTER: u8 = 26;

/// The proposition of the i-th letter from `a` on.
pub(crate) fn letter(i: u32) -> Prop
    requires few { i < 26 }
    ensures letter { result.index ≡ letter_prop i }
{
    Prop {
        index: FIRST_LETTER + i as u8,
    }
}

// The ends and the value of a constraint, by the numbers that were drawn for it.
fn span_of(q: u32, i: u32, j: u32, w: u32) -> Span
    requires { w < 10 }
    ensures span { result ≡ span_of q i j w }
{
    if q < 2 {
        return Span {
            from: i,
            to: 0,
            most: -(w as i32),
        };
    }
    let (lower, higher) = (lower_of(i, j), i.max(j));
    if q == 2 {
        return Span {
            from: higher,
            to: lower,
            most: -(w as i32),
        };
    }
    Span {
        from: lower,
        to: higher,
        most: w as i32 + 5,
    }
}

// The lower one of the numbers of two time-points, or the origin where they are the same.
fn lower_of(i: u32, j: u32) -> u32
    ensures { result ≡ lower_of i j }
{
    if i == j { 0 } else { i.min(j) }
}

/// Draws the ends and the value of a constraint.
pub(crate) fn draw_span(draws: &mut Draws, size: u32) -> Span
    requires some { 1 ≤ size }
    requires most { size ≤ 200 }
    ensures span { result ≡ span_at size draws.old.state }
    ensures state { draws.new.state ≡ nth_state 4 draws.old.state }
    ensures from { result.from ≤ size }
    ensures to { result.to ≤ size }
{
    let q = draws.below(4);
    let i = 1 + draws.below(size);
    let j = 1 + draws.below(size);
    let w = draws.below(10);
    span_of(q, i, j, w)
}

/// Draws the label of a constraint.
pub(crate) fn draw_label(draws: &mut Draws, props: u32) -> Label
    requires some { 0 < props }
    requires most { props ≤ 6 }
    ensures label { marks result ≡ (label_from props draws.old.state).label }
    ensures state { draws.new.state ≡ (label_from props draws.old.state).state }
{
    let mut label = Label::empty();
    for _ in 0..draws.below(3) {
        let prop = letter(draws.below(props));
        let mark = sign(draws.below(2));
        label = with_literal(label, prop, mark);
    }
    label
}

// The mark of a sign: 1 negates.
fn sign(n: u32) -> Mark
    ensures { result ≡ sign n }
{
    if n == 1 { Mark::No } else { Mark::Yes }
}

// A literal joins the label, unless its letter stands there already.
fn with_literal(label: Label, p: Prop, mark: Mark) -> Label
    ensures { marks result ≡ with_drawn_literal (marks label) p.index mark }
{
    match label.mark(p) {
        Mark::Absent => label.with(p, mark),
        _ => label,
    }
}
