//! The parts of a line, and the names of time-points.
ghost use Rattle.std.specs.Prelude.{ℕ, ◌≡◌, ◌<◌, ◌≤◌, ◌∷◌, [], IfOk, IfSome, IfNone, String, length, map, slice_index_or, string_bytes};
ghost use Rattle.std.specs.declared.alloc.Global.{Global};
ghost use Rattle.std.specs.Option.{option_map};
ghost use Rattle.cstn_label.specs.Limits.{most_ids};
ghost use Rattle.cstn_text.specs.Names.{AreNames};
ghost use Rattle.cstn_text.specs.PrintedNames.{printed_name};
ghost use Rattle.cstn_text.specs.Parts.{part, parts_at, node_read};

use crate::cuts::cut_at;
use crate::names::Names;
use crate::printed_names::print_name;
use cstn_label::NodeId;
use std::alloc::{AllocError, Global};

/// What stands before the first space, and what stands after it; none where there is no space.
pub fn part(bytes: &[u8]) -> Option<(&[u8], &[u8])>
    ensures part { option_map (λ parts. (parts.0.now, parts.1.now)) result ≡ part bytes.now }
    ensures parts { IfSome result (λ it. parts_at 32 bytes.now ≡ (it.0.now ∷ (parts_at 32 it.1.now).0, (parts_at 32 it.1.now).1)) }
    ensures whole { IfNone result (parts_at 32 bytes.now ≡ ([], bytes.now)) }
    ensures shorter { IfSome result (λ it. length it.1.now < length bytes.now) }
{
    cut_at(bytes, b' ')
}

/// The time-point whose printed name the bytes are; none where they are no name of the list.
pub fn read_node(names: &Names, bytes: &[u8]) -> Option<NodeId>
    requires few { length names.now ≤ most_ids }
    ensures node { option_map (λ x. x.0) result ≡ node_read names.now bytes.now }
    ensures inside { IfSome result (λ x. x.0 < length names.now) }
{
    let number = names.find_printed(bytes)?;
    Some(NodeId(number as u16))
}

/// The printed form of each name, by number. Fails for want of memory alone.
pub fn print_names(alloc: Global, names: &Names) -> Result<Vec<String>, AllocError>
    ensures printed { IfOk result (λ texts. map string_bytes texts.items ≡ map printed_name names.now) }
    ensures each { IfOk result (λ texts. (i : ℕ) (text : String Global) → i < length names.now
        → string_bytes (slice_index_or texts.items i text) ≡ printed_name (slice_index_or names.now i [])) }
    ensures names { AreNames names.now }
{
    let names = names.as_slice();
    let mut texts = Vec::with_capacity(alloc, names.len())?;
    for name in names {
        texts.push(print_name(alloc, name)?)?;
    }
    Ok(texts)
}
