//! The labelled network of a graph.

ghost use Rattle.std.specs.Prelude.{◌≡◌, ℕ, ◌∷◌, length, map, IfOk, IfErr};
ghost use Rattle.cstn_label.specs.Read.{marks};
ghost use Rattle.cstn_net.specs.Networks.{count};
ghost use Rattle.cstn_net.specs.Read.{the_network};
ghost use Rattle.cstn_lift.specs.declared.errors.LiftError.{LiftError};
ghost use Rattle.cstn_lift.specs.Faults.{HasLiftFault};
ghost use Rattle.cstn_lift.specs.WellFormed.{IsLabelled};
ghost use Rattle.cstn_lift.specs.Read.{the_labelled};
ghost use Rattle.cstn_graphml.specs.Answers.{IsLabelRefusal, IsLiftTold};
ghost use Rattle.cstn_graphml.specs.Labels.{labels_seen, with_labels_of};

use crate::drawn_graph::DrawnGraph;
use cstn_element::DocError;
use cstn_label::Label;
use cstn_lift::{Labelled, LiftError, lift};
use cstn_net::Network;
use cstn_text::Names;
use std::alloc::{AllocError, Global};

/// The names of the time-points of a graph, the origin's first. The rest of the graph is dropped.
pub fn names_of(graph: DrawnGraph) -> Names
    ensures { result ≡ graph.names }
{
    graph.names
}

/// The labels of the time-points, the origin's first.
fn labels_of(alloc: Global, graph: &DrawnGraph) -> Result<Vec<Label>, AllocError>
    ensures { IfOk result (λ labels. labels.items ≡ graph.now.origin_label ∷ graph.now.labels.items) }
{
    let mut labels = Vec::new(alloc);
    labels.push(graph.origin_label)?;
    labels.extend_from_slice(graph.labels.as_slice())?;
    Ok(labels)
}

/// The refusal of a document for labels that were refused: want of memory by itself, any other fault with the names.
fn refusal(error: LiftError, names: Names) -> DocError
    ensures { IsLiftTold error names result }
{
    match error {
        LiftError::Memory(e) => DocError::Memory(e),
        _ => DocError::Lift { error, names },
    }
}

/// The network of a graph with the labels of its time-points, and their names. Refused with the lowest fault of the labels.
pub fn label_network(
    alloc: Global,
    network: Network,
    graph: DrawnGraph,
) -> Result<(Labelled, Names), DocError>
    requires one_each { length (labels_seen graph) ≡ count (the_network network) }
    ensures labelled { IfOk result (λ r. the_labelled r.0 ≡ with_labels_of network graph) }
    ensures names { IfOk result (λ r. r.1 ≡ graph.names) }
    ensures in_order { IfOk result (λ r. IsLabelled (the_labelled r.0)) }
    ensures faultless { IfOk result (λ _. (e : LiftError) → HasLiftFault (with_labels_of network graph) e → ⊥) }
    ensures refused { IfErr result (IsLabelRefusal (with_labels_of network graph) graph.names) }
{
    let labels = labels_of(alloc, &graph)?;
    match lift(alloc, network, labels) {
        Ok(labelled) => Ok((labelled, names_of(graph))),
        Err(error) => Err(refusal(error, names_of(graph))),
    }
}
