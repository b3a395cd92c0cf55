//! Names as they are spelled.

ghost use Rattle.std.specs.Prelude.{◌≡◌, ◌++◌, OnOk};
ghost use Rattle.cstn_text.specs.PrintedNames.{printed_name};
ghost use Rattle.cstn_sentences.specs.Spelling.{quoted, spelling};

use crate::spelling::{needs_quotes, push_printed_byte, push_quoted_byte};
use std::alloc::AllocError;

// Writes the spelling of a name.
pub(crate) fn push_name(text: &mut Vec<u8>, name: &str) -> Result<(), AllocError>
    ensures { OnOk result (text.new.items ≡ text.old.items ++ spelling name.now) }
{
    let bytes = name.as_bytes();
    if needs_quotes(bytes) {
        return push_quoted(text, bytes);
    }
    push_printed(text, bytes)
}

/// Appends a text in the printed form of names.
pub fn push_printed(text: &mut Vec<u8>, name: &[u8]) -> Result<(), AllocError>
    ensures { OnOk result (text.new.items ≡ text.old.items ++ printed_name name.now) }
{
    for b in name {
        push_printed_byte(text, *b)?;
    }
    Ok(())
}

fn push_quoted(text: &mut Vec<u8>, name: &[u8]) -> Result<(), AllocError>
    ensures { OnOk result (text.new.items ≡ text.old.items ++ quoted name.now) }
{
    text.push(b'"')?;
    for b in name {
        push_quoted_byte(text, *b)?;
    }
    text.push(b'"')?;
    Ok(())
}
