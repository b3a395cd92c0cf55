//! The text of a data element.

ghost use Rattle.std.specs.Prelude.{◌≡◌, ℕ, List, ◌≤◌, length};
ghost use Rattle.cstn_element.specs.Elements.{texts};
ghost use Rattle.cstn_element.specs.Reads.{Reads};
ghost use Rattle.cstn_element.specs.Children.{ReadsInside};

use crate::children::Start;
use crate::errors::DocError;
use cstn_markup::{Kind, Scanner, resolve};
use std::alloc::Global;

/// The texts in the rest of a data element, joined, with their references replaced by their characters.
fn read_texts(alloc: Global, scanner: &mut Scanner, name: &[u8]) -> Result<Vec<u8>, DocError>
    ensures reads { (others : List (List ℕ)) → Reads (λ v. v.items) texts name.now others scanner.old scanner.new result }
    ensures less { length scanner.new ≤ length scanner.old }
{
    let mut found = Vec::new(alloc);
    loop {
        let token = scanner.step();
        match token.kind {
            Kind::Start {
                name: _,
                attributes: _,
                closed: _,
            } => return Err(DocError::Shape { at: token.at }),
            Kind::End { name: last } => {
                if last == name {
                    return Ok(found);
                }
                return Err(DocError::Shape { at: token.at });
            }
            Kind::Text { raw } => {
                let bytes = resolve(alloc, raw)?;
                if found.is_empty() {
                    found = bytes;
                } else {
                    found.extend_from_slice(bytes.as_slice())?;
                }
            }
            Kind::Wrong => return Err(DocError::Shape { at: token.at }),
            Kind::Finish => return Err(DocError::Shape { at: token.at }),
        }
    }
}

/// The text of a data element whose start tag was read, with its references replaced by their characters. Refused at a token
/// that isn't allowed, such as the start tag of an element in it.
pub fn read_element_text(
    alloc: Global,
    scanner: &mut Scanner,
    start: &Start,
) -> Result<Vec<u8>, DocError>
    ensures reads { ReadsInside (λ v. v.items) texts start.now scanner.old scanner.new result }
    ensures less { length scanner.new ≤ length scanner.old }
{
    if start.closed {
        return Ok(Vec::new(alloc));
    }
    read_texts(alloc, scanner, start.name)
}
