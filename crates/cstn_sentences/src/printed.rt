//! The words of what a line says, each behind a space.

ghost use Rattle.std.specs.Prelude.{◌≡◌, ◌++◌, ◌∷◌, [], OnOk, Some, pos};
ghost use Rattle.cstn_label.specs.Read.{marks};
ghost use Rattle.cstn_label.specs.Letters.{letter_of};
ghost use Rattle.cstn_sentences.specs.Printed.{spaced_words, span_word, range_word, most_word, says_words, label_words, said_words, observed_words};
ghost use Rattle.cstn_sentences.specs.Sentences.{ticks, asserted, literals_of_label, observed_after};

use crate::lines::{Range, Says, Span};
use cstn_label::{Label, Mark, Prop};
use itoa::Buffer;
use std::alloc::AllocError;

pub(crate) fn push_word(text: &mut Vec<u8>, word: &[u8]) -> Result<(), AllocError>
    ensures { OnOk result (text.new.items ≡ text.old.items ++ spaced_words (word.now ∷ [])) }
{
    text.push(b' ')?;
    text.extend_from_slice(word)
}

pub(crate) fn push_span(text: &mut Vec<u8>, span: Span) -> Result<(), AllocError>
    ensures { OnOk result (text.new.items ≡ text.old.items ++ spaced_words (span_word span ∷ [])) }
{
    text.push(b' ')?;
    push_ticks(text, span)
}

fn push_ticks(text: &mut Vec<u8>, span: Span) -> Result<(), AllocError>
    ensures { OnOk result (text.new.items ≡ text.old.items ++ span_word span) }
{
    let mut digits = Buffer::new();
    text.extend_from_slice(digits.format(span.ticks).as_bytes())
}

fn push_range(text: &mut Vec<u8>, range: Range) -> Result<(), AllocError>
    ensures { OnOk result (text.new.items ≡ text.old.items ++ spaced_words (range_word range ∷ [])) }
{
    push_span(text, range.least)?;
    push_most(text, range)
}

fn push_most(text: &mut Vec<u8>, range: Range) -> Result<(), AllocError>
    ensures { OnOk result (text.new.items ≡ text.old.items ++ most_word range.least range.most) }
{
    let Some(most) = range.most else {
        return text.extend_from_slice(b"..");
    };
    if most.ticks <= range.least.ticks {
        return Ok(());
    }
    text.extend_from_slice(b"..")?;
    push_ticks(text, most)
}

// Writes what a rule says of its time-point.
pub(crate) fn push_says(text: &mut Vec<u8>, says: Says) -> Result<(), AllocError>
    ensures { OnOk result (text.new.items ≡ text.old.items ++ spaced_words (says_words says)) }
{
    match says {
        Says::At(range) => {
            push_word(text, b"at")?;
            push_range(text, range)
        }
        Says::By(span) => push_by(text, span),
        Says::Between(range) => {
            push_range(text, range)?;
            push_word(text, b"after")
        }
        Says::ByAfter(span) => {
            push_by(text, span)?;
            push_word(text, b"after")
        }
        Says::Within(span) => {
            push_word(text, b"within")?;
            push_span(text, span)?;
            push_word(text, b"after")
        }
        Says::NotBefore => push_word(text, b"after"),
        Says::Together => push_word(text, b"with"),
    }
}

fn push_by(text: &mut Vec<u8>, span: Span) -> Result<(), AllocError>
    ensures { OnOk result (text.new.items ≡ text.old.items ++ spaced_words (says_words (Says.By span))) }
{
    push_word(text, b"by")?;
    push_span(text, span)
}

// Writes what a step observes.
pub(crate) fn push_observed(text: &mut Vec<u8>, p: Prop, reaction: u32) -> Result<(), AllocError>
    ensures { OnOk result (text.new.items ≡ text.old.items ++ spaced_words (observed_words (Some (observed_after reaction p.index)))) }
{
    push_word(text, b"observes")?;
    push_letter(text, p)?;
    if reaction == 1 {
        return Ok(());
    }
    push_word(text, b"after")?;
    push_number(text, reaction)
}

// Writes a label behind `if`, and nothing for the empty one.
pub(crate) fn push_label(text: &mut Vec<u8>, label: Label) -> Result<(), AllocError>
    ensures { OnOk result (text.new.items ≡ text.old.items ++ spaced_words (label_words (literals_of_label (marks label)))) }
{
    let mut joint: &[u8] = b"if";
    for index in 0..52 {
        let p = Prop::new(index).unwrap();
        if let Some(holds) = asserted(label.mark(p)) {
            push_literal(text, joint, p, holds)?;
            joint = b"and";
        }
    }
    Ok(())
}

// Whether a mark says that the proposition is true or that it isn't, if it says either.
fn asserted(mark: Mark) -> Option<bool>
    ensures { result ≡ asserted mark }
{
    match mark {
        Mark::Absent | Mark::Unknown => None,
        Mark::Yes => Some(true),
        Mark::No => Some(false),
    }
}

fn push_literal(text: &mut Vec<u8>, joint: &[u8], p: Prop, holds: bool) -> Result<(), AllocError>
    ensures { OnOk result (text.new.items ≡ text.old.items ++ spaced_words (joint.now ∷ said_words holds (letter_of p.index ∷ []))) }
{
    push_word(text, joint)?;
    if !holds {
        push_word(text, b"not")?;
    }
    push_letter(text, p)
}

fn push_letter(text: &mut Vec<u8>, p: Prop) -> Result<(), AllocError>
    ensures { OnOk result (text.new.items ≡ text.old.items ++ spaced_words ((letter_of p.index ∷ []) ∷ [])) }
{
    push_word(text, &[p.letter()])
}

pub(crate) fn push_number(text: &mut Vec<u8>, n: u32) -> Result<(), AllocError>
    ensures { OnOk result (text.new.items ≡ text.old.items ++ spaced_words (span_word (ticks (pos n)) ∷ [])) }
{
    let mut digits = Buffer::new();
    push_word(text, digits.format(n).as_bytes())
}
