//! Labels as texts.

ghost use Rattle.std.specs.Prelude.{◌≡◌, ◌==◌, length, option_map};
ghost use Rattle.cstn_label.specs.Read.{marks};
ghost use Rattle.cstn_label.specs.Labels.{empty};
ghost use Rattle.cstn_element.specs.LabelTexts.{mark_said_by, after_byte, with_literal, label_after, is_of_empty, label_of_text};
ghost use Rattle.cstn_element.specs.LabelTexts.Expects.{literal};
ghost use Rattle.cstn_element.specs.TextsSeen.{maybe_literal, expects_of};

use cstn_label::{Label, Mark, Prop};
use cstn_markup::is_white;

/// What may follow in a label text.
#[derive(Clone, Copy)]
pub enum Expects {
    Literal,
    SecondByte,
    Letter,
}

/// A literal: its proposition, and whether it is negated.
#[derive(Clone, Copy)]
pub struct Literal {
    pub prop: Prop,
    pub negated: bool,
}

/// The literal that a byte of a label text completes, if it completes one, and what may follow it. None where the byte may not
/// stand there.
fn after_byte(expects: Expects, b: u8) -> Option<(Option<Literal>, Expects)>
    ensures { option_map (λ x. (maybe_literal x.0, expects_of x.1)) result ≡ after_byte (expects_of expects) b }
{
    match expects {
        Expects::Literal => {
            if is_white(b) {
                return Some((None, Expects::Literal));
            }
            if b == b'!' {
                return Some((None, Expects::Letter));
            }
            if b == 194 {
                return Some((None, Expects::SecondByte));
            }
            let prop = Prop::from_letter(b)?;
            let negated = false;
            Some((Some(Literal { prop, negated }), Expects::Literal))
        }
        Expects::SecondByte => {
            if b == 172 {
                return Some((None, Expects::Letter));
            }
            None
        }
        Expects::Letter => {
            if is_white(b) {
                return Some((None, Expects::Letter));
            }
            let prop = Prop::from_letter(b)?;
            let negated = true;
            Some((Some(Literal { prop, negated }), Expects::Literal))
        }
    }
}

/// The mark of a literal.
fn said_by(negated: bool) -> Mark
    ensures { result ≡ mark_said_by negated }
{
    if negated { Mark::No } else { Mark::Yes }
}

/// The label with the literal, if there is one. None where the label has its letter already.
fn with_literal(label: Label, literal: Option<Literal>) -> Option<Label>
    ensures { option_map marks result ≡ with_literal (marks label) (maybe_literal literal) }
{
    match literal {
        None => Some(label),
        Some(literal) => {
            let Mark::Absent = label.mark(literal.prop) else {
                return None;
            };
            Some(label.with(literal.prop, said_by(literal.negated)))
        }
    }
}

/// The label that literals write, with each letter at most once. None where the bytes aren't of this form.
#[tactic(auto, unfolding(crate::specs::LabelTexts::label_after))]
fn literals(bytes: &[u8]) -> Option<Label>
    ensures { option_map marks result ≡ label_after literal empty bytes.now }
{
    let mut label = Label::empty();
    let mut expects = Expects::Literal;
    let mut rest = bytes;
    while let Some((b, next)) = rest.split_first() {
        let (found, then) = after_byte(expects, *b)?;
        label = with_literal(label, found)?;
        expects = then;
        rest = next;
    }
    match expects {
        Expects::Literal => Some(label),
        Expects::SecondByte => None,
        Expects::Letter => None,
    }
}

/// Whether the bytes are a text of the empty label: empty, or U+22A1.
fn is_of_empty(bytes: &[u8]) -> bool
    ensures { result ≡ is_of_empty bytes.now }
{
    bytes == b"".as_slice() || bytes == [226, 138, 161].as_slice()
}

/// The label of a label text, which is a text of the empty label, or literals with each letter at most once. None for any other
/// text.
pub fn label_of(bytes: &[u8]) -> Option<Label>
    ensures { option_map marks result ≡ label_of_text bytes.now }
{
    if is_of_empty(bytes) {
        return Some(Label::empty());
    }
    literals(bytes)
}
