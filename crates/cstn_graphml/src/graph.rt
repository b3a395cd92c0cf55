//! Reading the graph: its deadline, its nodes and its edges.

ghost use Rattle.std.specs.Prelude.{◌≡◌, ℕ, List, ◌≤◌, length};
ghost use Rattle.cstn_graphml.specs.Document.{part_of, graph_child};
ghost use Rattle.cstn_graphml.specs.Kept.{kept, kept_by, kept_graph_reading, in_kept_graph};
ghost use Rattle.cstn_graphml.specs.Document.Part.{a_datum, a_node, an_edge};
ghost use Rattle.cstn_element.specs.Children.{ReadsChild};
ghost use Rattle.cstn_graphml.specs.DrawnGraphSeen.{graph_seen};
ghost use Rattle.cstn_graphml.specs.PartSeen.{part_seen};
ghost use Rattle.cstn_element.specs.Reads.{ReadsRest};

use crate::deadlines::judge_deadline;
use crate::drawn_graph::{DrawnGraph, empty_graph};
use crate::edges::judge_edge;
use crate::in_turn::GraphReading;
use crate::nodes::judge_node;
use cstn_element::{
    DocError, Next, Start, elements_are_read_in_turn, elements_passed_over_leave_the_state,
    next_child, pass_element, read_datum, read_element_data,
};
use cstn_markup::Scanner;
use cstn_text::NameKey;
use std::alloc::Global;

/// What an element in a graph is, by its name. `Another` is passed over.
#[derive(Clone, Copy)]
pub enum Part {
    Datum,
    Node,
    Edge,
    Another,
}

fn part_of(name: &[u8]) -> Part
    ensures { part_seen result ≡ part_of name.now }
{
    if name == b"data".as_slice() {
        return Part::Datum;
    }
    if name == b"node".as_slice() {
        return Part::Node;
    }
    if name == b"edge".as_slice() {
        return Part::Edge;
    }
    Part::Another
}

/// Reads a data element of the graph, whose start tag was read, to its end, and puts in the deadline that it has, if any.
fn read_graph_datum<'a>(
    alloc: Global,
    scanner: &mut Scanner<'a>,
    start: &Start<'a>,
    graph: &mut DrawnGraph,
) -> Result<(), DocError>
    ensures reads { ReadsChild 2 (λ u. graph_seen graph.new) (graph_child a_datum (graph_seen graph.old)) start.now scanner.old scanner.new result }
    ensures less { length scanner.new ≤ length scanner.old }
{
    let used: [&[u8]; 1] = [b"Deadline"];
    let found = graph.own.as_slice();
    let datum = read_datum(alloc, scanner, start, &used, found, 2)?;
    judge_deadline(datum, graph)
}

/// Reads a node, whose start tag was read, to its end, and puts it in.
fn read_node(
    alloc: Global,
    scanner: &mut Scanner,
    start: &Start,
    graph: &mut DrawnGraph,
) -> Result<(), DocError>
    ensures reads { ReadsChild 2 (λ u. graph_seen graph.new) (graph_child a_node (graph_seen graph.old)) start.now scanner.old scanner.new result }
    ensures less { length scanner.new ≤ length scanner.old }
{
    let used: [&[u8]; 3] = [b"Obs", b"Reaction", b"Label"];
    let found = read_element_data(alloc, scanner, start, &used)?;
    judge_node(alloc, start, found.as_slice(), graph)
}

/// Reads an edge, whose start tag was read, to its end, and puts its constraints in.
fn read_edge(
    alloc: Global,
    scanner: &mut Scanner,
    start: &Start,
    graph: &mut DrawnGraph,
) -> Result<(), DocError>
    ensures reads { ReadsChild 2 (λ u. graph_seen graph.new) (λ tag inside. kept_by kept (graph_child an_edge (graph_seen graph.old) tag inside))
        start.now scanner.old scanner.new result }
    ensures less { length scanner.new ≤ length scanner.old }
{
    let used: [&[u8]; 2] = [b"Type", b"LabeledValues"];
    let found = read_element_data(alloc, scanner, start, &used)?;
    judge_edge(alloc, start, found.as_slice(), graph)
}

/// Reads an element in the graph, whose start tag was read, to its end.
fn read_graph_child<'a>(
    alloc: Global,
    scanner: &mut Scanner<'a>,
    start: &Start<'a>,
    graph: &mut DrawnGraph,
) -> Result<(), DocError>
    ensures reads { ReadsChild 2 (λ u. graph_seen graph.new) (kept_graph_reading.elements (graph_seen graph.old)) start.now scanner.old scanner.new result }
    ensures less { length scanner.new ≤ length scanner.old }
{
    elements_passed_over_leave_the_state::<GraphReading>();
    match part_of(start.name) {
        Part::Datum => read_graph_datum(alloc, scanner, start, graph),
        Part::Node => read_node(alloc, scanner, start, graph),
        Part::Edge => read_edge(alloc, scanner, start, graph),
        Part::Another => {
            pass_element(scanner, start, 2)?;
            Ok(())
        }
    }
}

/// Reads the graph, which has this name, from behind its start tag to its end.
fn read_graph(
    alloc: Global,
    key: NameKey,
    scanner: &mut Scanner,
    name: &[u8],
) -> Result<DrawnGraph, DocError>
    ensures reads { ReadsRest 1 graph_seen in_kept_graph name.now scanner.old scanner.new result }
    ensures less { length scanner.new ≤ length scanner.old }
{
    elements_are_read_in_turn::<GraphReading>();
    let mut graph = empty_graph(alloc, key)?;
    loop {
        match next_child(scanner, name) {
            Next::Child(start) => read_graph_child(alloc, scanner, &start, &mut graph)?,
            Next::End { at: _ } => return Ok(graph),
            Next::Wrong { at } => return Err(DocError::Shape { at }),
        }
    }
}

/// Reads a graph, whose start tag was read, to its end. Returns what it holds, with names hashed with the key, or the first
/// refusal.
pub fn read_whole_graph(
    alloc: Global,
    key: NameKey,
    scanner: &mut Scanner,
    start: &Start,
) -> Result<DrawnGraph, DocError>
    ensures reads { ReadsChild 1 graph_seen (λ tag. in_kept_graph) start.now scanner.old scanner.new result }
    ensures less { length scanner.new ≤ length scanner.old }
{
    if start.closed {
        return Ok(empty_graph(alloc, key)?);
    }
    read_graph(alloc, key, scanner, start.name)
}
