//! The values of attributes, with their references replaced by their characters.

ghost use Rattle.std.specs.Prelude.{◌≡◌, ℕ, List, option_map, IfOk, IfSome};
ghost use Rattle.std.specs.Str.{IsUtf8};
ghost use Rattle.cstn_markup.specs.Tokens.{raw_with};
ghost use Rattle.std.specs.Prelude.{string_bytes};
ghost use Rattle.cstn_element.specs.Elements.{read_option};

use cstn_markup::{Attributes, resolve};
use std::alloc::{AllocError, Global};

/// The value of the attribute with this name, its references replaced by their characters. None where no attribute has the
/// name. Fails only where memory is refused.
pub fn attribute(
    alloc: Global,
    attributes: &Attributes,
    name: &[u8],
) -> Result<Option<Vec<u8>>, AllocError>
    ensures value { IfOk result (λ o. option_map (λ v. v.items) o ≡ read_option (raw_with name.now attributes.now)) }
    ensures text { IfOk result (λ o. IfSome o (λ v. IsUtf8 v.items)) }
{
    match attributes.get(name) {
        None => Ok(None),
        Some(raw) => Ok(Some(resolve(alloc, raw)?)),
    }
}

/// The same value as [`attribute`] gives, as a string.
pub fn text_attribute(
    alloc: Global,
    attributes: &Attributes,
    name: &[u8],
) -> Result<Option<String>, AllocError>
    ensures { IfOk result (λ o. option_map string_bytes o ≡ read_option (raw_with name.now attributes.now)) }
{
    match attribute(alloc, attributes, name)? {
        None => Ok(None),
        Some(bytes) => Ok(String::from_utf8(bytes).ok()),
    }
}
