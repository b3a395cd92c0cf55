//! Names, numbers and labels in a document.

ghost use Rattle.std.specs.Prelude.{◌≡◌, ◌<◌, ◌++◌, ◌∷◌, ◌^◌, [], OnOk, ◌&&◌, ◌||◌, ◌==◌, nat_le, codes, IfOk};
ghost use Rattle.cstn_label.specs.Read.{marks};
ghost use Rattle.cstn_label.specs.Letters.{letter_of};
ghost use Rattle.cstn_text.specs.Numbers.{printed_number, printed_value};
ghost use Rattle.cstn_save.specs.Canonical.{is_numbered, escaped_byte, escaped_name, literal_text, literals_below, document_label, or_empty};

use cstn_label::{Label, Mark, Prop};
use itoa::Buffer;
use std::alloc::AllocError;

pub(crate) fn push_number(text: &mut Vec<u8>, n: u32) -> Result<(), AllocError>
    ensures { OnOk result (text.new.items ≡ text.old.items ++ printed_number n) }
{
    let mut digits = Buffer::new();
    text.extend_from_slice(digits.format(n).as_bytes())
}

pub(crate) fn push_value(text: &mut Vec<u8>, v: i32) -> Result<(), AllocError>
    ensures { OnOk result (text.new.items ≡ text.old.items ++ printed_value v) }
{
    let mut digits = Buffer::new();
    text.extend_from_slice(digits.format(v).as_bytes())
}

pub(crate) fn push_name(text: &mut Vec<u8>, name: &str) -> Result<(), AllocError>
    ensures { OnOk result (text.new.items ≡ text.old.items ++ escaped_name name.now) }
{
    for b in name.as_bytes() {
        push_byte(text, *b)?;
    }
    Ok(())
}

fn push_byte(text: &mut Vec<u8>, b: u8) -> Result<(), AllocError>
    ensures { OnOk result (text.new.items ≡ text.old.items ++ escaped_byte b) }
{
    if b == b'&' {
        return text.extend_from_slice(b"&amp;");
    }
    if b == b'<' {
        return text.extend_from_slice(b"&lt;");
    }
    if b == b'>' {
        return text.extend_from_slice(b"&gt;");
    }
    if b == b'"' {
        return text.extend_from_slice(b"&quot;");
    }
    if is_numbered(b) {
        return push_reference(text, b);
    }
    text.push(b)?;
    Ok(())
}

fn is_numbered(b: u8) -> bool
    ensures { result ≡ is_numbered b }
{
    b >= 0x01 && b <= 0x1F || b == 0x7F
}

fn push_reference(text: &mut Vec<u8>, b: u8) -> Result<(), AllocError>
    ensures { OnOk result (text.new.items ≡ text.old.items ++ (codes "&#" ++ printed_number b ++ codes ";")) }
{
    text.extend_from_slice(b"&#")?;
    push_number(text, b as u32)?;
    text.extend_from_slice(b";")
}

pub(crate) fn push_label(text: &mut Vec<u8>, label: Label) -> Result<(), AllocError>
    ensures { OnOk result (text.new.items ≡ text.old.items ++ document_label (marks label)) }
{
    let before = text.len();
    push_literals(text, label)?;
    if text.len() == before {
        return text.extend_from_slice("⊡".as_bytes());
    }
    Ok(())
}

pub(crate) fn push_literals(text: &mut Vec<u8>, label: Label) -> Result<(), AllocError>
    ensures { OnOk result (text.new.items ≡ text.old.items ++ literals_below (marks label) 52) }
{
    for index in 0..52 {
        push_literal(text, label, index)?;
    }
    Ok(())
}

fn push_literal(text: &mut Vec<u8>, label: Label, index: u8) -> Result<(), AllocError>
    requires { index < 52 }
    ensures { OnOk result (text.new.items ≡ text.old.items ++ literal_text (letter_of index) (marks label index)) }
{
    let p = Prop::new(index).unwrap();
    match label.mark(p) {
        Mark::Absent => Ok(()),
        Mark::Yes => push_letter(text, p.letter()),
        Mark::No => {
            text.extend_from_slice("¬".as_bytes())?;
            push_letter(text, p.letter())
        }
        Mark::Unknown => Ok(()),
    }
}

fn push_letter(text: &mut Vec<u8>, letter: u8) -> Result<(), AllocError>
    ensures { OnOk result (text.new.items ≡ text.old.items ++ letter ∷ []) }
{
    text.push(letter)?;
    Ok(())
}
