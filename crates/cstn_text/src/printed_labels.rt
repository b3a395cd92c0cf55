//! Labels as they stand in lines.

ghost use Rattle.std.specs.Prelude.{◌≡◌, ◌<◌, ◌++◌, IfOk, OnOk, OnErr, string_bytes};
ghost use Rattle.std.specs.Option.{option_map};
ghost use Rattle.cstn_label.specs.Read.{marks};
ghost use Rattle.cstn_text.specs.PrintedLabels.{printed_mark, printed_label, marks_below, nothing_read, signed, marked, reading_after, label_ended, marks_read};
ghost use Rattle.cstn_text.specs.PrintedLabels.{label_read};
ghost use Rattle.cstn_text.specs.Readings.{the_reading};
ghost use Rattle.cstn_text.specs.Pushes.{IsLongerText};

use cstn_label::{Label, Mark, Prop};
use std::alloc::{AllocError, Global};

/// The printed form of a label: `-` where it has no mark, and else its marks in ascending order of their propositions.
pub fn print_label(alloc: Global, label: Label) -> Result<String, AllocError>
    ensures printed { IfOk result (λ text. string_bytes text ≡ printed_label (marks label)) }
{
    let mut text = String::new(alloc);
    push_label(&mut text, label)?;
    Ok(text)
}

/// Appends the printed form of a label. Where memory is refused, `text` may have some bytes more than before.
pub fn push_label(text: &mut String, label: Label) -> Result<(), AllocError>
    ensures pushed { OnOk result (string_bytes text.new ≡ string_bytes text.old ++ printed_label (marks label)) }
    ensures refused { OnErr result (IsLongerText (string_bytes text.old) (string_bytes text.new)) }
{
    match label.first_marked_from(0) {
        Some(_) => push_marks(text, label),
        None => text.push('-'),
    }
}

/// Reads a text as a label: `-`, or one or more marks in any order with each letter at most once. None where the text is no
/// such label.
pub fn read_label(bytes: &[u8]) -> Option<Label>
    ensures read { option_map marks result ≡ label_read bytes.now }
{
    match bytes {
        [] => None,
        [b'-'] => Some(Label::empty()),
        _ => read_marks(bytes),
    }
}

// Appends the marks of a label in ascending order of their propositions, with one step for each.
fn push_marks(text: &mut String, label: Label) -> Result<(), AllocError>
    ensures pushed { OnOk result (string_bytes text.new ≡ string_bytes text.old ++ marks_below (marks label) 52) }
    ensures refused { OnErr result (IsLongerText (string_bytes text.old) (string_bytes text.new)) }
{
    let mut from = 0;
    while let Some(p) = label.first_marked_from(from) {
        push_mark(text, label.mark(p), p.letter())?;
        from = p.index + 1;
    }
    Ok(())
}

fn push_mark(text: &mut String, mark: Mark, letter: u8) -> Result<(), AllocError>
    requires { letter < 128 }
    ensures pushed { OnOk result (string_bytes text.new ≡ string_bytes text.old ++ printed_mark letter mark) }
    ensures refused { OnErr result (IsLongerText (string_bytes text.old) (string_bytes text.new)) }
{
    match mark {
        Mark::Absent => return Ok(()),
        Mark::Yes => {}
        Mark::No => text.push('!')?,
        Mark::Unknown => text.push('?')?,
    }
    text.push(char::from(letter))
}

fn read_marks(bytes: &[u8]) -> Option<Label>
    ensures { option_map marks result ≡ marks_read nothing_read bytes.now }
{
    let mut reading = Reading {
        label: Label::empty(),
        sign: Mark::Yes,
    };
    let mut left = bytes;
    while let Some((b, rest)) = left.split_first() {
        reading = reading.after(*b)?;
        left = rest;
    }
    reading.end()
}

// The marks read so far, and the mark that the next letter gets.
#[derive(Clone, Copy)]
struct Reading {
    label: Label,
    sign: Mark,
}

impl Reading {
    fn after(self, b: u8) -> Option<Reading>
        ensures { option_map the_reading result ≡ reading_after (the_reading self) b }
    {
        match b {
            b'!' => self.signed(Mark::No),
            b'?' => self.signed(Mark::Unknown),
            _ => self.marked(Prop::from_letter(b)?),
        }
    }

    fn signed(self, sign: Mark) -> Option<Reading>
        ensures { option_map the_reading result ≡ signed (marks self.label) self.sign sign }
    {
        match self.sign {
            Mark::Yes => Some(Reading {
                label: self.label,
                sign,
            }),
            _ => None,
        }
    }

    fn marked(self, p: Prop) -> Option<Reading>
        ensures { option_map the_reading result ≡ marked (marks self.label) self.sign (marks self.label p.index) p.index }
    {
        match self.label.mark(p) {
            Mark::Absent => Some(Reading {
                label: self.label.with(p, self.sign),
                sign: Mark::Yes,
            }),
            _ => None,
        }
    }

    fn end(self) -> Option<Label>
        ensures { option_map marks result ≡ label_ended (marks self.label) self.sign }
    {
        match self.sign {
            Mark::Yes => Some(self.label),
            _ => None,
        }
    }
}
