// Edit lines.
ghost use Rattle.std.specs.Prelude.{◌≡◌, true, false, IfOk, OnErr, codes, bytes_eq};
ghost use Rattle.std.specs.Option.{option_map};
ghost use Rattle.cstn_label.specs.Read.{marks};
ghost use Rattle.cstn_text.specs.PrintedNames.{name_read};
ghost use Rattle.cstn_lines.specs.EditLines.{the_edit, id_read, change_read, ends_read, limit_read, add_read, edited_read, edit_read, IsAdding};

use crate::live::cut_at_space;
use cstn_label::Label;
use cstn_text::{read_label, read_name, read_number, read_value};
use std::alloc::{AllocError, Global};
use std::marker::Model;

/// The name of a time-point.
#[derive(Debug, Drop)]
pub struct NameText {
    text: String,
}

impl Model for NameText {
    ghost use Rattle.std.specs.Prelude.{ℕ, List, string_bytes};

    ghost Value = { List ℕ };

    ghost view = { λ n. string_bytes n.text };
}

impl NameText {
    /// The name itself, not as it is printed.
    pub fn as_str(&self) -> &str
        ensures text { result.now ≡ self.now }
    {
        self.text.as_str()
    }
}

/// What an edit line says.
#[derive(Debug, Drop)]
pub enum EditLine {
    /// `add FROM TO W LABEL`: two printed names, a value in ticks, and a label.
    Add {
        from: NameText,
        to: NameText,
        most: i32,
        label: Label,
    },
    /// `remove ID`, with ID a number of at most 4,294,967,295.
    Remove {
        id: u32,
    },
    /// `change ID W`: an id of at most 4,294,967,295, and a value in ticks.
    Change {
        id: u32,
        most: i32,
    },
    /// `check`.
    Check,
}

/// The edit line that these bytes are, without its LF: exactly a form of `EditLine`, with one space between the
/// parts and no other. None where they are no edit line. Fails for want of memory alone, and only at a line that
/// begins with `add`.
pub fn read_edit(alloc: Global, bytes: &[u8]) -> Result<Option<EditLine>, AllocError>
    ensures read { IfOk result (λ line. option_map the_edit line ≡ edit_read bytes.now) }
    ensures memory { OnErr result (IsAdding bytes.now) }
{
    if bytes == b"check".as_slice() {
        return Ok(Some(EditLine::Check));
    }
    match cut_at_space(bytes) {
        Some((word, operands)) => read_edited(alloc, word, operands),
        None => Ok(None),
    }
}

// The edit line of a word, a space and what follows.
pub fn read_edited(
    alloc: Global,
    word: &[u8],
    operands: &[u8],
) -> Result<Option<EditLine>, AllocError>
    ensures read { IfOk result (λ line. option_map the_edit line ≡ edited_read (word.now, operands.now)) }
    ensures memory { OnErr result (bytes_eq word.now (codes "add") ≡ true) }
{
    if word == b"add".as_slice() {
        return read_add(alloc, operands);
    }
    Ok(read_id_line(word, operands))
}

fn read_id_line(word: &[u8], operands: &[u8]) -> Option<EditLine>
    requires { bytes_eq word.now (codes "add") ≡ false }
    ensures { option_map the_edit result ≡ edited_read (word.now, operands.now) }
{
    if word == b"remove".as_slice() {
        let id = read_id(operands)?;
        return Some(EditLine::Remove { id });
    }
    if word == b"change".as_slice() {
        return read_change(operands);
    }
    None
}

// The number of at most 4,294,967,295 that a text is; none where it isn't one.
pub fn read_id(bytes: &[u8]) -> Option<u32>
    ensures { result ≡ id_read bytes.now }
{
    let n = read_number(bytes)?;
    if n > 4_294_967_295 {
        return None;
    }
    Some(n as u32)
}

fn read_change(bytes: &[u8]) -> Option<EditLine>
    ensures { option_map the_edit result ≡ change_read bytes.now }
{
    let (id, value) = cut_at_space(bytes)?;
    let id = read_id(id)?;
    let most = read_value(value)?;
    Some(EditLine::Change { id, most })
}

fn read_add(alloc: Global, bytes: &[u8]) -> Result<Option<EditLine>, AllocError>
    ensures { IfOk result (λ line. option_map the_edit line ≡ add_read bytes.now) }
{
    let Some((from, rest)) = cut_at_space(bytes) else {
        return Ok(None);
    };
    let Some((to, rest)) = cut_at_space(rest) else {
        return Ok(None);
    };
    let Some((value, label)) = cut_at_space(rest) else {
        return Ok(None);
    };
    read_limit(alloc, from, to, value, label)
}

fn read_limit(
    alloc: Global,
    from: &[u8],
    to: &[u8],
    value: &[u8],
    label: &[u8],
) -> Result<Option<EditLine>, AllocError>
    ensures { IfOk result (λ line. option_map the_edit line ≡ limit_read from.now to.now (value.now, label.now)) }
{
    let Some(most) = read_value(value) else {
        return Ok(None);
    };
    let Some(label) = read_label(label) else {
        return Ok(None);
    };
    read_ends(alloc, from, to, most, label)
}

fn read_ends(
    alloc: Global,
    from: &[u8],
    to: &[u8],
    most: i32,
    label: Label,
) -> Result<Option<EditLine>, AllocError>
    ensures { IfOk result (λ line. option_map the_edit line ≡ ends_read from.now to.now most (marks label)) }
{
    let Some(from) = read_name_text(alloc, from)? else {
        return Ok(None);
    };
    let Some(to) = read_name_text(alloc, to)? else {
        return Ok(None);
    };
    Ok(Some(EditLine::Add {
        from,
        to,
        most,
        label,
    }))
}

/// The name of a time-point that these bytes print, for a line that is made and not read; none where they print none. Fails for want of
/// memory alone.
pub fn read_name_text(alloc: Global, bytes: &[u8]) -> Result<Option<NameText>, AllocError>
    ensures { IfOk result (λ name. option_map (λ n. n) name ≡ name_read bytes.now) }
{
    match read_name(alloc, bytes)? {
        Some(text) => Ok(Some(NameText { text })),
        None => Ok(None),
    }
}
