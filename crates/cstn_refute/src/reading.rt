// Refutations read from their texts.
ghost use Rattle.std.specs.Prelude.{◌≡◌, ◌<◌, ◌≤◌, [], length, map, IfOk, IfErr};
ghost use Rattle.std.specs.List.{All};
ghost use Rattle.cstn_label.specs.Limits.{most_ids};
ghost use Rattle.cstn_net.specs.Limits.{most_load};
ghost use Rattle.cstn_rules.specs.Read.{the_entry};
ghost use Rattle.cstn_refute.specs.Refutations.{IsStep, the_steps};
ghost use Rattle.cstn_text.specs.Parts.{parts_at};
ghost use Rattle.cstn_text.specs.Listings.{at_end, is_some_listed, told_after};
ghost use Rattle.cstn_refute.specs.Texts.{tells, step_lines, refutation_told};
ghost use Rattle.cstn_refute.specs.Written.{AreStepsWritten};
ghost use Rattle.cstn_refute.specs.Read.{IsWrongStepLine};

use crate::errors::RefuteError;
use crate::parts::read_step;
use crate::refutations::Refutation;
use cstn_net::MAX_LOAD;
use cstn_rules::Entry;
use cstn_text::{Names, cut_at, read_start};
use std::alloc::{AllocError, Global};

impl Refutation {
    /// Reads a refutation from its text. Fails with `Line` for the first line that isn't of the form, counted from 1: a text
    /// that ends without a step, or without its last LF, is wrong at the line that is missing or cut. Fails with `Memory` where
    /// memory is refused.
    pub fn read(alloc: Global, names: &Names, bytes: &[u8]) -> Result<Refutation, RefuteError>
        requires few { length names.now ≤ most_ids }
        ensures accepted { IfOk result (λ r. refutation_told names.now bytes.now ≡ tells r.load (the_steps r)) }
        ensures line { IfErr result (IsWrongStepLine (refutation_told names.now bytes.now)) }

        ensures named { IfOk result (λ r. All (λ e. e.bound.node.0 < length names.now) r.steps) }
        ensures ranges { IfOk result (λ r. AreStepsWritten names.now r.load (the_steps r)) }
    {
        let Some((load, rest)) = read_start("no", MAX_LOAD, bytes) else {
            return Err(RefuteError::Line { line: 1 });
        };
        read_steps(alloc, names, load, rest)
    }
}

// Reads the lines of the steps, and makes the refutation of these and the load.
fn read_steps(
    alloc: Global,
    names: &Names,
    load: u32,
    bytes: &[u8],
) -> Result<Refutation, RefuteError>
    requires few { length names.now ≤ most_ids }
    ensures accepted { IfOk result (λ r. told_after (step_lines names.now) load [] (parts_at 10 bytes.now).0 (parts_at 10 bytes.now).1
        ≡ tells r.load (the_steps r)) }
    ensures line { IfErr result (IsWrongStepLine (told_after (step_lines names.now) load [] (parts_at 10 bytes.now).0 (parts_at 10 bytes.now).1)) }
{
    let mut steps = Vec::new(alloc);
    let mut left = bytes;
    while let Some((line, rest)) = cut_at(left, b'\n') {
        let k = steps.len() as u32;
        let Some(step) = read_step(names, k, line) else {
            return Err(RefuteError::Line { line: k + 2 });
        };
        let Ok(()) = steps.push(step) else {
            return Err(RefuteError::Memory(AllocError));
        };
        left = rest;
    }
    finish(load, steps, left)
}

// The refutation of the load and the steps, if there is a step and the text ends behind the LF of the last one.
fn finish(load: u32, steps: Vec<Entry>, left: &[u8]) -> Result<Refutation, RefuteError>
    requires few { length steps.items ≤ most_load }
    requires each { All IsStep steps.items }
    ensures accepted { IfOk result (λ r. at_end is_some_listed load (map the_entry steps.items) left.now ≡ tells r.load (the_steps r)) }
    ensures line { IfErr result (IsWrongStepLine (at_end is_some_listed load (map the_entry steps.items) left.now)) }
{
    let count = steps.len() as u32;
    if count == 0 || !left.is_empty() {
        return Err(RefuteError::Line { line: count + 2 });
    }
    Ok(Refutation::new(load, steps))
}
