// The parts of a step's line.
ghost use Rattle.std.specs.Prelude.{◌≡◌, ◌<◌, ◌≤◌, IfSome, IsTrue, length, pos, ◌≤ℤ◌};
ghost use Rattle.std.specs.Option.{option_map};
ghost use Rattle.cstn_label.specs.Limits.{most_ids};
ghost use Rattle.cstn_label.specs.Read.{the_bound};
ghost use Rattle.cstn_net.specs.Limits.{most_load};
ghost use Rattle.cstn_rules.specs.Read.{the_entry};
ghost use Rattle.cstn_refute.specs.Limits.{most_least};
ghost use Rattle.cstn_refute.specs.Refutations.{IsStep};
ghost use Rattle.cstn_text.specs.SmallNumbers.{u32_read};
ghost use Rattle.cstn_refute.specs.Steps.{places_read, chain_read, wait_read, why_read, is_place, rule_read, bound_read, named_bound_read};
ghost use Rattle.cstn_refute.specs.Steps.{step_read};

use crate::limits::MOST_LEAST;
use cstn_label::{Bound, NodeId};
use cstn_net::MAX_LOAD;
use cstn_rules::{Entry, Why};
use cstn_text::{Names, part, read_label, read_node, read_number_within};

fn read_place(bytes: &[u8]) -> Option<u32>
    ensures place { result ≡ u32_read bytes.now }
{
    read_number_within(0, u32::MAX, bytes)
}

fn read_places(bytes: &[u8]) -> Option<(u32, u32, &[u8])>
    ensures places { option_map (λ found. (found.0, found.1, found.2.now)) result ≡ places_read bytes.now }
{
    let (one, rest) = part(bytes)?;
    let (other, rest) = part(rest)?;
    let i = read_place(one)?;
    let j = read_place(other)?;
    Some((i, j, rest))
}

fn read_why<'a>(word: &[u8], rest: &'a [u8]) -> Option<(Why, &'a [u8])>
    ensures why { option_map (λ found. (found.0, found.1.now)) result ≡ why_read word.now rest.now }
{
    if word == b"base".as_slice() {
        return Some((Why::Base, rest));
    }
    if word == b"chain".as_slice() {
        return read_chain(rest);
    }
    if word == b"wait".as_slice() {
        return read_wait(rest);
    }
    None
}

fn read_chain(bytes: &[u8]) -> Option<(Why, &[u8])>
    ensures chain { option_map (λ found. (found.0, found.1.now)) result ≡ chain_read bytes.now }
{
    let (constraint, premise, rest) = read_places(bytes)?;
    let why = Why::Chain {
        constraint,
        premise,
    };
    Some((why, rest))
}

fn read_wait(bytes: &[u8]) -> Option<(Why, &[u8])>
    ensures wait { option_map (λ found. (found.0, found.1.now)) result ≡ wait_read bytes.now }
{
    let (seen, premise, rest) = read_places(bytes)?;
    Some((Why::Wait { seen, premise }, rest))
}

fn read_bound(node: NodeId, bytes: &[u8]) -> Option<Bound>
    ensures bound { option_map the_bound result ≡ bound_read node.0 bytes.now }
    ensures step { IfSome result (λ b. (pos 0 ≤ℤ b.least) × (b.least ≤ℤ pos most_least)) }
{
    let (least, label) = part(bytes)?;
    let least = read_number_within(0, MOST_LEAST, least)?;
    let label = read_label(label)?;
    Some(Bound {
        node,
        least: least as i32,
        label,
    })
}

fn is_place(k: u32, bytes: &[u8]) -> bool
    ensures place { result ≡ is_place k bytes.now }
    ensures few { IsTrue result → k < most_load }
{
    read_number_within(k, k.min(MAX_LOAD - 1), bytes).is_some()
}

// The rule in the line of the step at the place k, and what follows it, if the line begins so.
fn read_rule(k: u32, line: &[u8]) -> Option<(Why, &[u8])>
    ensures rule { option_map (λ found. (found.0, found.1.now)) result ≡ rule_read k line.now }
    ensures few { IfSome result (λ found. k < most_load) }
{
    let (place, rest) = part(line)?;
    if !is_place(k, place) {
        return None;
    }
    let Some((word, rest)) = part(rest) else {
        return None;
    };
    read_why(word, rest)
}

/// The bound that a text writes: the printed name of a time-point, a least value from 0 to 1,000,001 and a label, with a space
/// between; none where the text isn't of the form.
pub fn read_named_bound(names: &Names, bytes: &[u8]) -> Option<Bound>
    requires few { length names.now ≤ most_ids }
    ensures bound { option_map the_bound result ≡ named_bound_read names.now bytes.now }
    ensures range { IfSome result (λ b. (pos 0 ≤ℤ b.least) × (b.least ≤ℤ pos most_least)) }
{
    let (name, rest) = part(bytes)?;
    let node = read_node(names, name)?;
    read_bound(node, rest)
}

/// The step that a line says, if it is the line of a step at the place k.
pub(crate) fn read_step(names: &Names, k: u32, line: &[u8]) -> Option<Entry>
    requires few { length names.now ≤ most_ids }
    ensures step { option_map the_entry result ≡ step_read names.now k line.now }
    ensures form { IfSome result IsStep }
    ensures few { IfSome result (λ step. k < most_load) }
{
    let (why, rest) = read_rule(k, line)?;
    let bound = read_named_bound(names, rest)?;
    Some(Entry { bound, why })
}
