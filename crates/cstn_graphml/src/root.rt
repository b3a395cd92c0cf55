//! Reading the root, which holds exactly one graph.

ghost use Rattle.std.specs.Prelude.{◌≡◌, ℕ, List, ◌≤◌, length, option_map, codes};
ghost use Rattle.cstn_markup.specs.Bytes.{is_same};
ghost use Rattle.cstn_graphml.specs.Kept.{kept_root_reading, in_kept_root};
ghost use Rattle.cstn_element.specs.Children.{ReadsChild};
ghost use Rattle.cstn_graphml.specs.DrawnGraphSeen.{graph_seen};
ghost use Rattle.cstn_element.specs.Reads.{ReadsRest};

use crate::drawn_graph::DrawnGraph;
use crate::graph::read_whole_graph;
use crate::in_turn::RootReading;
use cstn_element::{
    DocError, Next, Start, elements_are_read_in_turn, elements_passed_over_leave_the_state,
    next_child, pass_element,
};
use cstn_markup::Scanner;
use cstn_text::NameKey;
use std::alloc::Global;

/// Reads an element in the root, whose start tag was read: a graph goes into `seen`, a second graph is refused, and any other
/// element is passed over.
fn read_root_child<'a>(
    alloc: Global,
    key: NameKey,
    scanner: &mut Scanner<'a>,
    start: &Start<'a>,
    seen: &mut Option<DrawnGraph>,
) -> Result<(), DocError>
    ensures reads { ReadsChild 1 (λ u. option_map graph_seen seen.new) (kept_root_reading.elements (option_map graph_seen seen.old))
        start.now scanner.old scanner.new result }
    ensures less { length scanner.new ≤ length scanner.old }
{
    elements_passed_over_leave_the_state::<RootReading>();
    if start.name != b"graph".as_slice() {
        pass_element(scanner, start, 1)?;
        return Ok(());
    }
    let None = seen else {
        return Err(DocError::Shape { at: start.at });
    };
    let graph = read_whole_graph(alloc, key, scanner, start)?;
    *seen = Some(graph);
    Ok(())
}

/// Reads the root, which has this name, from behind its start tag to its end. Refused where it holds no graph.
fn read_root(
    alloc: Global,
    key: NameKey,
    scanner: &mut Scanner,
    name: &[u8],
) -> Result<DrawnGraph, DocError>
    ensures reads { ReadsRest 0 graph_seen in_kept_root name.now scanner.old scanner.new result }
    ensures less { length scanner.new ≤ length scanner.old }
{
    elements_are_read_in_turn::<RootReading>();
    let mut seen = None;
    loop {
        match next_child(scanner, name) {
            Next::Child(start) => read_root_child(alloc, key, scanner, &start, &mut seen)?,
            Next::End { at } => {
                return match seen {
                    Some(graph) => Ok(graph),
                    None => Err(DocError::Shape { at }),
                };
            }
            Next::Wrong { at } => return Err(DocError::Shape { at }),
        }
    }
}

/// Reads the root, whose start tag was read, to its end. Returns its graph, whose names are hashed with the key, or the first
/// refusal; a root without a graph, or with two, is refused with `Shape`.
pub fn read_whole_root(
    alloc: Global,
    key: NameKey,
    scanner: &mut Scanner,
    start: &Start,
) -> Result<DrawnGraph, DocError>
    ensures reads { ReadsChild 0 graph_seen (λ tag. in_kept_root) start.now scanner.old scanner.new result }
    ensures less { length scanner.new ≤ length scanner.old }
{
    if start.closed {
        return Err(DocError::Shape { at: start.at });
    }
    read_root(alloc, key, scanner, start.name)
}
