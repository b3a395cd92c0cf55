//! The data of a node or an edge.

ghost use Rattle.std.specs.Prelude.{◌≡◌, ℕ, List, ◌≤◌, length, map, codes};
ghost use Rattle.cstn_markup.specs.Bytes.{is_same};
ghost use Rattle.cstn_element.specs.Elements.{data_reading, data_of};
ghost use Rattle.cstn_element.specs.Children.{ReadsChild};
ghost use Rattle.cstn_element.specs.DataElementSeen.{data_seen, keys_seen};
ghost use Rattle.cstn_element.specs.Reads.{ReadsRest};

use crate::children::{Next, Start, next_child};
use crate::data_element::{Datum, read_datum};
use crate::errors::DocError;
use crate::passing::pass_element;
use cstn_markup::Scanner;
use std::alloc::Global;

/// Reads the rest of an element in a node or an edge, whose start tag was read. A data element with a used key is put behind
/// those found, and any other element is passed over.
fn read_child<'a>(
    alloc: Global,
    scanner: &mut Scanner<'a>,
    start: &Start<'a>,
    used: &[&[u8]],
    found: &mut Vec<Datum>,
) -> Result<(), DocError>
    ensures reads { ReadsChild 3 (λ u. data_seen found.new.items) ((data_reading (keys_seen used.now)).elements (data_seen found.old.items))
        start.now scanner.old scanner.new result }
    ensures less { length scanner.new ≤ length scanner.old }
{
    if start.name != b"data".as_slice() {
        pass_element(scanner, start, 3)?;
        return Ok(());
    }
    match read_datum(alloc, scanner, start, used, found.as_slice(), 3)? {
        None => Ok(()),
        Some(datum) => {
            found.push(datum)?;
            Ok(())
        }
    }
}

/// The data in the rest of a node or an edge of this name.
fn read_data(
    alloc: Global,
    scanner: &mut Scanner,
    name: &[u8],
    used: &[&[u8]],
) -> Result<Vec<Datum>, DocError>
    ensures reads { ReadsRest 2 (λ v. data_seen v.items) (data_of (keys_seen used.now)) name.now scanner.old scanner.new result }
    ensures less { length scanner.new ≤ length scanner.old }
{
    let mut found = Vec::new(alloc);
    loop {
        match next_child(scanner, name) {
            Next::Child(start) => read_child(alloc, scanner, &start, used, &mut found)?,
            Next::End { at: _ } => return Ok(found),
            Next::Wrong { at } => return Err(DocError::Shape { at }),
        }
    }
}

/// The data elements with used keys of a node or an edge whose start tag was read, in order. Refused at a token that isn't
/// allowed, at a data element without a key, and at a used key that stands twice.
pub fn read_element_data(
    alloc: Global,
    scanner: &mut Scanner,
    start: &Start,
    used: &[&[u8]],
) -> Result<Vec<Datum>, DocError>
    ensures reads { ReadsChild 2 (λ v. data_seen v.items) (λ tag. data_of (keys_seen used.now)) start.now scanner.old scanner.new result }
    ensures less { length scanner.new ≤ length scanner.old }
{
    if start.closed {
        return Ok(Vec::new(alloc));
    }
    read_data(alloc, scanner, start.name, used)
}
