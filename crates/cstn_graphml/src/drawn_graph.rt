//! What was read of a graph so far.

ghost use Rattle.std.specs.Prelude.{◌≡◌, ◌<◌, ◌≤◌, None, length, IfOk, OnOk};
ghost use Rattle.cstn_label.specs.Read.{marks};
ghost use Rattle.cstn_graphml.specs.DrawnGraph.{node_of, with_node, with_drawn_constraint, with_deadline, empty_graph};
ghost use Rattle.cstn_element.specs.DataElementSeen.{datum_seen};
ghost use Rattle.cstn_graphml.specs.DrawnGraphSeen.{observed_seen, drawn_seen, graph_seen};
ghost use Rattle.cstn_graphml.specs.Kept.{kept};

use crate::kept::KeptConstraints;
use cstn_element::Datum;
use cstn_label::{Label, Prop};
use cstn_text::{NameError, NameKey, Names};
use std::alloc::{AllocError, Global};

/// The proposition that a time-point observes, and its reaction: after how many ticks the outcome is known.
#[derive(Clone, Copy)]
pub struct Observation {
    pub prop: Prop,
    pub reaction: u32,
}

/// A constraint, by the numbers of its time-points: where the label holds, `to` is at most `most` ticks after `from`.
#[derive(Clone, Copy)]
pub struct DrawnConstraint {
    pub from: u32,
    pub to: u32,
    pub most: i32,
    pub label: Label,
}

/// What was read of a graph so far. `own` has the data elements of the graph itself, and `origin` is None until the node of the
/// origin was read. `names` begins with the origin; `observes` and `labels` are those of the time-points after it.
#[derive(Drop)]
pub struct DrawnGraph {
    pub own: Vec<Datum>,
    pub deadline: Option<u32>,
    pub origin: Option<Option<Observation>>,
    pub origin_label: Label,
    pub names: Names,
    pub observes: Vec<Option<Observation>>,
    pub labels: Vec<Label>,
    pub constraints: KeptConstraints,
}

/// A graph of which nothing was read yet: it has the name of the origin alone. Its names are hashed with the key. Fails for
/// want of memory alone.
pub fn empty_graph(alloc: Global, key: NameKey) -> Result<DrawnGraph, AllocError>
    ensures { IfOk result (λ d. graph_seen d ≡ empty_graph) }
{
    let mut names = Names::new(alloc, key);
    let Ok(_) = names.push("Z") else {
        return Err(AllocError);
    };
    Ok(DrawnGraph {
        own: Vec::new(alloc),
        deadline: None,
        origin: None,
        origin_label: Label::empty(),
        names,
        observes: Vec::new(alloc),
        labels: Vec::new(alloc),
        constraints: KeptConstraints::new(alloc),
    })
}

/// The number of the node with this name, or None where none was read. The origin's is 0.
pub fn node_of(graph: &DrawnGraph, name: &str) -> Option<u32>
    ensures { result ≡ node_of name.now (graph_seen graph.now) }
{
    if name != "Z" {
        return graph.names.find(name);
    }
    match graph.origin {
        Some(_) => Some(0),
        None => None,
    }
}

/// Puts in a node of a name of 1 to 64 bytes that no node has. Fails where memory is refused, or where the graph has 2^32 - 1
/// names.
pub fn put_node(
    graph: &mut DrawnGraph,
    name: &str,
    observed: Option<Observation>,
    label: Label,
) -> Result<(), AllocError>
    requires fresh { node_of name.now (graph_seen graph.old) ≡ None }
    requires sized { (0 < length name.now) × (length name.now ≤ 64) }
    ensures { OnOk result (graph_seen graph.new ≡ with_node name.now (observed_seen observed) (marks label) (graph_seen graph.old)) }
{
    if name == "Z" {
        graph.origin = Some(observed);
        graph.origin_label = label;
        return Ok(());
    }
    if graph.names.count() == u32::MAX {
        return Err(AllocError);
    }
    match graph.names.push(name) {
        Ok(_) => {
            graph.observes.push(observed)?;
            graph.labels.push(label)?;
            Ok(())
        }
        Err(NameError::Memory(e)) => Err(e),
        Err(NameError::Shape) => unreachable!(),
        Err(NameError::Twice) => unreachable!(),
    }
}

/// Puts in a constraint, of which nothing is kept where the graph has one past the limit of a network. Fails for want of memory
/// alone.
pub fn put_constraint(graph: &mut DrawnGraph, constraint: DrawnConstraint) -> Result<(), AllocError>
    ensures { OnOk result (graph_seen graph.new ≡ kept (with_drawn_constraint (drawn_seen constraint) (graph_seen graph.old))) }
{
    graph.constraints.put(constraint)
}

/// Puts in a data element of the graph, and its deadline in ticks. Fails for want of memory alone.
pub fn put_deadline(graph: &mut DrawnGraph, datum: Datum, deadline: u32) -> Result<(), AllocError>
    ensures { OnOk result (graph_seen graph.new ≡ with_deadline (datum_seen datum) deadline (graph_seen graph.old)) }
{
    graph.own.push(datum)?;
    graph.deadline = Some(deadline);
    Ok(())
}
