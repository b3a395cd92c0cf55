//! A labelled network in sentences.

ghost use Rattle.std.specs.Prelude.{◌≡◌, ◌<◌, ◌≤◌, ◌++◌, ◌∷◌, [], neg_ℤ, slice_index_or, All, IfOk, OnOk, IfSome, int_le, length, map, pos};
ghost use Rattle.cstn_label.specs.Read.{marks};
ghost use Rattle.cstn_label.specs.Tests.{is_within};
ghost use Rattle.cstn_net.specs.Networks.{count, IsValue};
ghost use Rattle.cstn_net.specs.Read.{the_network, the_constraint, IsInRange};
ghost use Rattle.cstn_lift.specs.Read.{the_labelled};
ghost use Rattle.cstn_sentences.specs.Spelling.{spelling};
ghost use Rattle.cstn_sentences.specs.Printed.{spaced_words, observed_words, deadline_words, step_words, rule_words, line_text};
ghost use Rattle.cstn_sentences.specs.Sentences.{since_words, step_observed, ticks, from_to, from_on, step_of, step_lines_text, rules_text};
ghost use Rattle.cstn_sentences.specs.Sentences.{is_same_label, is_range, are_turned, are_one_range, is_pair, rule_of, since_says, range_says};
ghost use Rattle.cstn_sentences.specs.Sentences.{least_says, counted_from, pair_rule, has_step, alone_rule, sentences};
ghost use Rattle.cstn_sentences.specs.NumbersSeen.{number_seen};

use crate::lines::{Range, Says, Span};
use crate::names::push_name;
use crate::printed::{push_label, push_number, push_observed, push_says};
use cstn_label::{Label, NodeId, labels_are_their_marks};
use cstn_lift::Labelled;
use cstn_net::{Constraint, Network};
use cstn_text::Names;
use std::alloc::{AllocError, Global};

/// The sentences of a labelled network under the names of its time-points, of which the first is `Z`.
///
/// The lines are those of the deadline in ticks, of each time-point by number (of the origin only where it observes something),
/// and of the constraints by id, one for each or for two that are the ends of one range. Fails for want of memory alone.
pub fn sentences(alloc: Global, net: &Labelled, names: &Names) -> Result<Vec<u8>, AllocError>
    requires named { length names.now ≡ count (the_network net.now.base) }
    ensures sentences { IfOk result (λ text. text.items ≡ sentences (the_labelled net.now) names.now) }
{
    let base = net.base();
    prove!(names.count() == base.count() as u32);
    let mut text = Vec::new(alloc);
    push_deadline(&mut text, base.deadline())?;
    push_steps(&mut text, net, names)?;
    push_rules(&mut text, base, names)?;
    Ok(text)
}

fn push_deadline(text: &mut Vec<u8>, deadline: u32) -> Result<(), AllocError>
    ensures { OnOk result (text.new.items ≡ text.old.items ++ line_text (deadline_words (ticks (pos deadline)))) }
{
    text.extend_from_slice(b"deadline")?;
    push_number(text, deadline)?;
    text.push(b'\n')?;
    Ok(())
}

fn push_steps(text: &mut Vec<u8>, net: &Labelled, names: &Names) -> Result<(), AllocError>
    requires { length names.now ≡ count (the_network net.now.base) }
    ensures { OnOk result (text.new.items ≡ text.old.items ++ step_lines_text (the_labelled net.now) names.now (count (the_network net.now.base))) }
{
    let base = net.base();
    for x in 0..base.count() {
        if has_step(base, NodeId(x)) {
            push_step(text, net, names, NodeId(x))?;
        }
    }
    Ok(())
}

// Whether a time-point has a step: the origin has one only where it observes something.
fn has_step(net: &Network, x: NodeId) -> bool
    requires { x.0 < count (the_network net.now) }
    ensures { result ≡ has_step (the_network net.now) x.0 }
{
    x.0 != 0 || net.observes(x).is_some()
}

fn push_step(text: &mut Vec<u8>, net: &Labelled, names: &Names, x: NodeId) -> Result<(), AllocError>
    requires named { length names.now ≡ count (the_network net.now.base) }
    requires node { x.0 < count (the_network net.now.base) }
    ensures { OnOk result (text.new.items ≡ text.old.items ++ line_text (step_words (step_of (the_labelled net.now) names.now x.0))) }
{
    text.extend_from_slice(b"step ")?;
    push_name_of(text, names, x)?;
    push_observation(text, net.base(), x)?;
    push_label(text, net.label(x))?;
    text.push(b'\n')?;
    Ok(())
}

// Writes what a time-point observes, if it observes anything.
fn push_observation(text: &mut Vec<u8>, net: &Network, x: NodeId) -> Result<(), AllocError>
    requires { x.0 < count (the_network net.now) }
    ensures { OnOk result (text.new.items ≡ text.old.items ++ spaced_words (observed_words (step_observed (the_network net.now) x.0))) }
{
    match net.observes(x) {
        None => Ok(()),
        Some(p) => push_observed(text, p, net.reaction(p)),
    }
}

fn push_rules(text: &mut Vec<u8>, net: &Network, names: &Names) -> Result<(), AllocError>
    requires { length names.now ≡ count (the_network net.now) }
    ensures { OnOk result (text.new.items ≡ text.old.items ++ rules_text names.now (the_network net.now).constraints) }
{
    let mut left = net.constraints();
    while let [c, later @ ..] = left {
        left = push_next(text, names, c, later)?;
    }
    Ok(())
}

// Writes the rule of a constraint, or of it and the next one, and answers those behind them.
fn push_next<'a>(
    text: &mut Vec<u8>,
    names: &Names,
    c: &Constraint,
    later: &'a [Constraint],
) -> Result<&'a [Constraint], AllocError>
    requires first { IsInRange (length names.now) c.now }
    requires others { All (IsInRange (length names.now)) later.now }
    ensures written { IfOk result (λ left. text.new.items ++ rules_text names.now (map the_constraint left.now)
        ≡ text.old.items ++ rules_text names.now (map the_constraint (c.now ∷ later.now))) }
    ensures ranges { IfOk result (λ left. All (IsInRange (length names.now)) left.now) }
    ensures fewer { IfOk result (λ left. length left.now ≤ length later.now) }
{
    let Some((d, last)) = later.split_first() else {
        push_alone(text, names, c)?;
        return Ok(later);
    };
    if is_pair(c, d) {
        push_pair(text, names, c, d)?;
        return Ok(last);
    }
    push_alone(text, names, c)?;
    Ok(later)
}

// Whether the constraints are the two ends of one range.
fn is_pair(c: &Constraint, d: &Constraint) -> bool
    requires { IsValue c.now.most }
    ensures { result ≡ is_pair (the_constraint c.now) (the_constraint d.now) }
{
    are_turned(c, d) && are_one_range(c, d)
}

fn are_turned(c: &Constraint, d: &Constraint) -> bool
    ensures { result ≡ are_turned (the_constraint c.now) (the_constraint d.now) }
{
    c.from.0 == d.to.0 && c.to.0 == d.from.0
}

fn are_one_range(c: &Constraint, d: &Constraint) -> bool
    requires { IsValue c.now.most }
    ensures { result ≡ are_one_range (the_constraint c.now) (the_constraint d.now) }
{
    is_same(c.label, d.label) && is_range(c.most, d.most)
}

// Whether a value says at least 0 ticks, and at most as many as the other one says.
fn is_range(least: i32, most: i32) -> bool
    requires { IsValue least }
    ensures { result ≡ is_range least most }
{
    is_at_most(least, 0) && is_at_most(negated(least), most)
}

fn is_at_most(a: i32, b: i32) -> bool
    ensures { result ≡ int_le a b }
{
    a <= b
}

fn is_same(a: Label, b: Label) -> bool
    ensures { result ≡ is_same_label (marks a) (marks b) }
{
    is_within(a, b) && is_within(b, a)
}

fn is_within(a: Label, b: Label) -> bool
    ensures { result ≡ is_within (marks a) (marks b) }
{
    labels_are_their_marks();
    a.is_within(b)
}

fn negated(value: i32) -> i32
    requires { IsValue value }
    ensures { result ≡ neg_ℤ value }
{
    -value
}

fn push_pair(
    text: &mut Vec<u8>,
    names: &Names,
    c: &Constraint,
    d: &Constraint,
) -> Result<(), AllocError>
    requires { IsInRange (length names.now) c.now }
    ensures { OnOk result (text.new.items ≡ text.old.items ++ line_text (rule_words (pair_rule names.now (the_constraint c.now) (the_constraint d.now)))) }
{
    let y = counted_from(c.to);
    push_rule(
        text,
        names,
        c.from,
        range_says(y, negated(c.most), d.most),
        y,
        c.label,
    )
}

fn push_alone(text: &mut Vec<u8>, names: &Names, c: &Constraint) -> Result<(), AllocError>
    requires { IsInRange (length names.now) c.now }
    ensures { OnOk result (text.new.items ≡ text.old.items ++ line_text (rule_words (alone_rule names.now (the_constraint c.now)))) }
{
    if c.from == NodeId(0) && 0 <= c.most {
        return push_rule(text, names, c.to, Says::By(ticks(c.most)), None, c.label);
    }
    if c.most <= 0 {
        let y = counted_from(c.to);
        return push_rule(
            text,
            names,
            c.from,
            least_says(y, negated(c.most)),
            y,
            c.label,
        );
    }
    push_rule(
        text,
        names,
        c.to,
        Says::ByAfter(ticks(c.most)),
        Some(c.from),
        c.label,
    )
}

fn push_rule(
    text: &mut Vec<u8>,
    names: &Names,
    x: NodeId,
    says: Says,
    y: Option<NodeId>,
    label: Label,
) -> Result<(), AllocError>
    requires point { x.0 < length names.now }
    requires since { IfSome y (λ y. y.0 < length names.now) }
    ensures { OnOk result (text.new.items ≡ text.old.items ++ line_text (rule_words (rule_of names.now x.0 says (number_seen y) (marks label)))) }
{
    push_name_of(text, names, x)?;
    push_says(text, says)?;
    push_since(text, names, y)?;
    push_label(text, label)?;
    text.push(b'\n')?;
    Ok(())
}

fn push_name_of(text: &mut Vec<u8>, names: &Names, x: NodeId) -> Result<(), AllocError>
    requires { x.0 < length names.now }
    ensures { OnOk result (text.new.items ≡ text.old.items ++ spelling (slice_index_or names.now x.0 [])) }
{
    push_name(text, names.name(x))
}

// Writes what a rule counts from, if that is written.
fn push_since(text: &mut Vec<u8>, names: &Names, y: Option<NodeId>) -> Result<(), AllocError>
    requires { IfSome y (λ y. y.0 < length names.now) }
    ensures { OnOk result (text.new.items ≡ text.old.items ++ spaced_words (since_words names.now (number_seen y))) }
{
    let Some(y) = y else {
        return Ok(());
    };
    text.push(b' ')?;
    push_name_of(text, names, y)
}

// What a rule counts from; nothing is written for the origin.
fn counted_from(y: NodeId) -> Option<NodeId>
    ensures counted { number_seen result ≡ counted_from y.0 }
    ensures same { IfSome result (λ r. r ≡ y) }
{
    if y == NodeId(0) { None } else { Some(y) }
}

fn ticks(n: i32) -> Span
    ensures { result ≡ ticks n }
{
    Span {
        ticks: n,
        clock: false,
    }
}

fn range_says(y: Option<NodeId>, a: i32, b: i32) -> Says
    ensures { result ≡ range_says (number_seen y) a b }
{
    match y {
        None => Says::At(from_to(a, b)),
        Some(_) => since_says(a, b),
    }
}

fn since_says(a: i32, b: i32) -> Says
    ensures { result ≡ since_says a b }
{
    if b <= a {
        if a <= 0 {
            Says::Together
        } else {
            Says::Between(from_to(a, b))
        }
    } else if a <= 0 {
        Says::Within(ticks(b))
    } else {
        Says::Between(from_to(a, b))
    }
}

fn least_says(y: Option<NodeId>, a: i32) -> Says
    ensures { result ≡ least_says (number_seen y) a }
{
    match y {
        None => Says::At(from_on(a)),
        Some(_) if a <= 0 => Says::NotBefore,
        Some(_) => Says::Between(from_on(a)),
    }
}

fn from_to(a: i32, b: i32) -> Range
    ensures { result ≡ from_to a b }
{
    Range {
        least: ticks(a),
        most: Some(ticks(b)),
    }
}

fn from_on(a: i32) -> Range
    ensures { result ≡ from_on a }
{
    Range {
        least: ticks(a),
        most: None,
    }
}
