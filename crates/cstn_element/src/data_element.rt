//! Data elements, with their keys and values.

ghost use Rattle.std.specs.Prelude.{◌≡◌, ℕ, List, ◌≤◌, ◌<◌, ◌+◌, length, map, IsSome};
ghost use Rattle.std.specs.List.{list_any};
ghost use Rattle.cstn_markup.specs.Bytes.{is_same, resolved};
ghost use Rattle.cstn_element.specs.Elements.{has_key, datum, datum_of};
ghost use Rattle.cstn_element.specs.Children.{ReadsChild};
ghost use Rattle.cstn_element.specs.DataElementSeen.{maybe_datum, datum_seen, data_seen, keys_seen, lent_datum};

use crate::attributes::attribute;
use crate::children::Start;
use crate::data_element_text::read_element_text;
use crate::errors::DocError;
use crate::passing::pass_element;
use crate::white_space::trimmed;
use cstn_markup::Scanner;
use std::alloc::Global;

/// A data element with a used key: the key, the place of its start tag in bytes, and its text. Its value is the text without
/// the white space at both ends.
#[derive(Drop)]
pub struct Datum {
    pub key: Vec<u8>,
    pub at: usize,
    text: Vec<u8>,
}

impl Datum {
    /// The value: the text without the white space at both ends.
    pub fn value(&self) -> &[u8]
        ensures { result.now ≡ (datum_seen self.now).value }
    {
        trimmed(self.text.as_slice())
    }
}

/// Whether the key is one of those that are used.
fn is_used(used: &[&[u8]], key: &[u8]) -> bool
    ensures { result ≡ list_any (λ u. is_same u.now key.now) used.now }
{
    used.iter().any(|u| *u == key)
}

/// Whether the key was found before.
fn is_found(found: &[Datum], key: &[u8]) -> bool
    ensures { result ≡ list_any (λ d. is_same d.key.items key.now) found.now }
{
    found.iter().any(|d| d.key.as_slice() == key)
}

/// Reads the rest of a data element, whose start tag was read and around which `depth` elements are open. None where its key
/// isn't used. Refused where it has no key, where its key is used and was found before, and at a token that isn't allowed.
pub fn read_datum<'a>(
    alloc: Global,
    scanner: &mut Scanner<'a>,
    start: &Start<'a>,
    used: &[&[u8]],
    found: &[Datum],
    depth: usize,
) -> Result<Option<Datum>, DocError>
    requires deep { depth < 32 }
    ensures reads { ReadsChild depth maybe_datum (datum (keys_seen used.now) (has_key (data_seen found.now))) start.now scanner.old scanner.new result }
    ensures less { length scanner.new ≤ length scanner.old }
{
    let at = start.at;
    let Some(key) = attribute(alloc, &start.attributes, b"key")? else {
        return Err(DocError::Shape { at });
    };
    if !is_used(used, key.as_slice()) {
        pass_element(scanner, start, depth)?;
        return Ok(None);
    }
    if is_found(found, key.as_slice()) {
        return Err(DocError::Shape { at });
    }
    let text = read_element_text(alloc, scanner, start)?;
    Ok(Some(Datum { key, at, text }))
}

/// The data element with this key, or None where none was found.
pub fn datum_of<'a>(found: &'a [Datum], key: &[u8]) -> Option<&'a Datum>
    ensures { lent_datum result ≡ datum_of key.now (data_seen found.now) }
{
    let mut rest = found;
    while let Some((datum, next)) = rest.split_first() {
        if datum.key.as_slice() == key {
            return Some(datum);
        }
        rest = next;
    }
    None
}
