// What a session says of a constraint that is to give way.
ghost use Rattle.std.specs.Prelude.{◌≡◌, ◌++◌, ◌∷◌, IfOk, codes, decimal};
ghost use Rattle.cstn_text.specs.Numbers.{printed_value};
ghost use Rattle.cstn_reply.specs.Texts.{line};
ghost use Rattle.cstn_change.specs.Changes.{NoSuch};
ghost use Rattle.cstn_change.specs.ChangeLines.{refused_change_text};

use crate::texts::{ROOM, number_line};
use itoa::Buffer;
use std::alloc::{AllocError, Global};

/// The line of the value, in ticks, to which a constraint has to give way.
pub fn raise_line(alloc: Global, id: u32, most: i32) -> Result<Vec<u8>, AllocError>
    ensures line { IfOk result (λ text. text.items ≡ line (codes "raise " ++ decimal id ++ 32 ∷ printed_value most)) }
{
    let mut digits = Buffer::new();
    let mut text = raise_word(alloc, id)?;
    text.push(b' ')?;
    text.extend_from_slice(digits.format(most).as_bytes())?;
    text.push(b'\n')?;
    Ok(text)
}

/// The line that no value of a constraint is enough.
pub fn vain_line(alloc: Global, id: u32) -> Result<Vec<u8>, AllocError>
    ensures line { IfOk result (λ text. text.items ≡ line (codes "raise " ++ decimal id ++ codes " none")) }
{
    let mut text = raise_word(alloc, id)?;
    text.extend_from_slice(b" none\n")?;
    Ok(text)
}

// The word and the id, which such a line begins with.
fn raise_word(alloc: Global, id: u32) -> Result<Vec<u8>, AllocError>
    ensures word { IfOk result (λ text. text.items ≡ codes "raise " ++ decimal id) }
{
    let mut digits = Buffer::new();
    let mut text = Vec::with_capacity(alloc, ROOM)?;
    text.extend_from_slice(b"raise ")?;
    text.extend_from_slice(digits.format(id).as_bytes())?;
    Ok(text)
}

/// The line that refuses an id that no constraint has, by S2.
pub fn refused_id(alloc: Global, id: u32) -> Result<Vec<u8>, AllocError>
    ensures line { IfOk result (λ text. text.items ≡ line (refused_change_text (NoSuch id))) }
{
    number_line(alloc, b"refused S2 ", id)
}
