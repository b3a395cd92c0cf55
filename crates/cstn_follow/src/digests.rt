// The digest of a document.
ghost use Rattle.std.specs.Prelude.{◌≡◌, IfOk};
ghost use Rattle.cstn_follow.specs.Digests.{digest_line};

use crate::texts::ROOM;
use sha2::{Digest, Sha256};
use std::alloc::{AllocError, Global};

/// The line of the SHA-256 of a document, in 64 hexadecimal digits.
pub fn digest_line(alloc: Global, document: &[u8]) -> Result<Vec<u8>, AllocError>
    ensures line { IfOk result (λ text. text.items ≡ digest_line document.now) }
{
    let digits = hex::encode(alloc, Sha256::digest(document))?;
    let mut text = Vec::with_capacity(alloc, ROOM)?;
    text.extend_from_slice(b"digest ")?;
    text.extend_from_slice(digits.as_bytes())?;
    text.push(b'\n')?;
    Ok(text)
}
