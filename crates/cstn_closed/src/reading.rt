// Lists of bounds read from their texts.
ghost use Rattle.std.specs.Prelude.{◌≡◌, ◌<◌, ◌≤◌, [], length, map, IfOk, IfErr, IfSome};
ghost use Rattle.std.specs.List.{All};
ghost use Rattle.std.specs.Option.{option_map};
ghost use Rattle.cstn_label.specs.Limits.{most_ids};
ghost use Rattle.cstn_label.specs.Read.{the_bound};
ghost use Rattle.cstn_net.specs.Limits.{most_load};
ghost use Rattle.cstn_text.specs.Parts.{parts_at};
ghost use Rattle.cstn_text.specs.Listings.{at_end, is_some_listed, told_after};
ghost use Rattle.cstn_closed.specs.Closed.{the_listed_bounds};
ghost use Rattle.cstn_closed.specs.Texts.{tells, bound_lines, closed_told, bound_line_read};
ghost use Rattle.cstn_closed.specs.Written.{BoundsFitText, IsNamedBound};
ghost use Rattle.cstn_closed.specs.Read.{IsWrongBoundLine};

use crate::errors::ClosedError;
use crate::lists::Closed;
use cstn_label::Bound;
use cstn_net::MAX_LOAD;
use cstn_refute::read_named_bound;
use cstn_text::{Names, cut_at, part, read_start};
use std::alloc::{AllocError, Global};

impl Closed {
    /// Reads the list that a text writes. Fails with `Line` and the first line that isn't of the form, counted from 1: where
    /// the text ends without a bound, or without its last LF, that is the line that is missing or cut. Fails with `Memory`
    /// where memory is refused.
    pub fn read(alloc: Global, names: &Names, bytes: &[u8]) -> Result<Closed, ClosedError>
        requires few { length names.now ≤ most_ids }
        ensures accepted { IfOk result (λ c. closed_told names.now bytes.now ≡ tells c.load (the_listed_bounds c)) }
        ensures line { IfErr result (IsWrongBoundLine (closed_told names.now bytes.now)) }

        ensures named { IfOk result (λ c. All (IsNamedBound names.now) c.bounds) }
        ensures fits { IfOk result BoundsFitText }
    {
        let Some((load, rest)) = read_start("yes", MAX_LOAD, bytes) else {
            return Err(ClosedError::Line { line: 1 });
        };
        read_bounds(alloc, names, load, rest)
    }
}

// The list of a load and of the bounds on the lines of `bytes`.
fn read_bounds(alloc: Global, names: &Names, load: u32, bytes: &[u8]) -> Result<Closed, ClosedError>
    requires few { length names.now ≤ most_ids }
    ensures accepted { IfOk result (λ c. told_after (bound_lines names.now) load [] (parts_at 10 bytes.now).0 (parts_at 10 bytes.now).1
        ≡ tells c.load (the_listed_bounds c)) }
    ensures line { IfErr result (IsWrongBoundLine (told_after (bound_lines names.now) load [] (parts_at 10 bytes.now).0 (parts_at 10 bytes.now).1)) }
{
    let mut bounds = Vec::new(alloc);
    let mut left = bytes;
    while let Some((line, rest)) = cut_at(left, b'\n') {
        let k = bounds.len() as u32;
        let Some(bound) = read_line(names, k, line) else {
            return Err(ClosedError::Line { line: k + 2 });
        };
        let Ok(()) = bounds.push(bound) else {
            return Err(ClosedError::Memory(AllocError));
        };
        left = rest;
    }
    finish(load, bounds, left)
}

// The bound on a line, if the line is of the form and k is below the greatest number of bounds.
fn read_line(names: &Names, k: u32, line: &[u8]) -> Option<Bound>
    requires few { length names.now ≤ most_ids }
    ensures bound { option_map the_bound result ≡ bound_line_read names.now k line.now }
    ensures few { IfSome result (λ b. k < most_load) }
{
    let (word, rest) = part(line)?;
    if word == b"bound".as_slice() && k < MAX_LOAD {
        read_named_bound(names, rest)
    } else {
        None
    }
}

// The list of the load and the bounds, if there is a bound and the text ends behind the LF of the last one.
fn finish(load: u32, bounds: Vec<Bound>, left: &[u8]) -> Result<Closed, ClosedError>
    requires few { length bounds.items ≤ most_load }
    ensures accepted { IfOk result (λ c. at_end is_some_listed load (map the_bound bounds.items) left.now ≡ tells c.load (the_listed_bounds c)) }
    ensures line { IfErr result (IsWrongBoundLine (at_end is_some_listed load (map the_bound bounds.items) left.now)) }
{
    let count = bounds.len() as u32;
    if count == 0 || !left.is_empty() {
        return Err(ClosedError::Line { line: count + 2 });
    }
    Ok(Closed::new(load, bounds))
}
