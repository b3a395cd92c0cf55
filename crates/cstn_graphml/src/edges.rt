//! Edges, which are checked and put in the graph as constraints when they end.

ghost use Rattle.std.specs.Prelude.{◌≡◌, map};
ghost use Rattle.cstn_graphml.specs.Judged.{is_edge_kept, with_pair, with_pairs, with_values, with_kept, judged_edge};
ghost use Rattle.cstn_graphml.specs.Kept.{kept, kept_by};
ghost use Rattle.cstn_element.specs.Children.{tag_seen};
ghost use Rattle.cstn_element.specs.DataElementSeen.{lent_datum, data_seen};
ghost use Rattle.cstn_element.specs.TextsSeen.{pair_seen};
ghost use Rattle.cstn_element.specs.PairsLeft.{pairs_left};
ghost use Rattle.cstn_graphml.specs.DrawnGraphSeen.{graph_seen};
ghost use Rattle.cstn_element.specs.Reads.{Gives, raised};

use crate::drawn_graph::{DrawnConstraint, DrawnGraph, node_of, put_constraint};
use cstn_element::{
    Datum, DocError, EdgeType, Fault, Pair, Pairs, Start, datum_of, edge_type_of, text_attribute,
    values_of,
};
use std::alloc::Global;

/// Whether an edge is kept, by its data element `Type`, if it has one. A contingent or unknown type is refused.
fn is_kept(datum: Option<&Datum>) -> Result<bool, Fault>
    ensures { Gives (λ b. b) (raised result) (is_edge_kept (lent_datum datum.entry)) }
{
    let Some(datum) = datum else {
        return Ok(true);
    };
    let at = datum.at;
    match edge_type_of(datum.value()) {
        Some(EdgeType::Kept) => Ok(true),
        Some(EdgeType::PassedOver) => Ok(false),
        Some(EdgeType::Contingent) => Err(Fault::Contingent { at }),
        None => Err(Fault::EdgeType { at }),
    }
}

/// Puts in the constraint of a pair.
fn put_pair(
    at: usize,
    from: u32,
    to: u32,
    pair: Pair,
    graph: &mut DrawnGraph,
) -> Result<(), DocError>
    ensures { Gives (λ u. graph_seen graph.new) result (kept_by kept (with_pair at from to (pair_seen pair) (graph_seen graph.old))) }
{
    let Some(label) = pair.label else {
        return Err(DocError::LabelText { at });
    };
    let most = pair.most;
    let constraint = DrawnConstraint {
        from,
        to,
        most,
        label,
    };
    put_constraint(graph, constraint)?;
    Ok(())
}

/// Puts in a constraint for each pair.
#[tactic(auto, unfolding(crate::specs::Judged::with_pairs))]
fn put_pairs(
    at: usize,
    from: u32,
    to: u32,
    pairs: Pairs,
    graph: &mut DrawnGraph,
) -> Result<(), DocError>
    ensures { Gives (λ u. graph_seen graph.new) result (kept_by kept (with_pairs at from to (pairs_left pairs.entry) (graph_seen graph.old))) }
{
    let mut pairs = pairs;
    while let Some(pair) = pairs.next_pair() {
        put_pair(at, from, to, pair, graph)?;
    }
    Ok(())
}

/// Puts in the constraints between these time-points that the data element `LabeledValues` has, if the edge has one.
fn put_values(
    from: u32,
    to: u32,
    datum: Option<&Datum>,
    graph: &mut DrawnGraph,
) -> Result<(), DocError>
    ensures { Gives (λ u. graph_seen graph.new) result (kept_by kept (with_values from to (lent_datum datum.entry) (graph_seen graph.old))) }
{
    let Some(datum) = datum else {
        return Ok(());
    };
    let Some(pairs) = values_of(datum.value()) else {
        return Err(DocError::Value { at: datum.at });
    };
    put_pairs(datum.at, from, to, pairs, graph)
}

/// Puts in the constraints of an edge that is kept.
fn put_edge(
    at: usize,
    source: &str,
    target: &str,
    found: &[Datum],
    graph: &mut DrawnGraph,
) -> Result<(), DocError>
    ensures { Gives (λ u. graph_seen graph.new) result (kept_by kept (with_kept at source.now target.now (graph_seen graph.old) (data_seen found.now))) }
{
    let Some(from) = node_of(graph, source) else {
        return Err(DocError::UnknownNode { at });
    };
    let Some(to) = node_of(graph, target) else {
        return Err(DocError::UnknownNode { at });
    };
    put_values(from, to, datum_of(found, b"LabeledValues"), graph)
}

/// Checks an edge whose data were read, and puts its constraints in the graph. Refused where it has no `source` or no `target`,
/// where its type is contingent or unknown, where one of its ends is no earlier node, and where a datum isn't of its form.
pub fn judge_edge(
    alloc: Global,
    start: &Start,
    found: &[Datum],
    graph: &mut DrawnGraph,
) -> Result<(), DocError>
    ensures { Gives (λ u. graph_seen graph.new) result (kept_by kept (judged_edge (tag_seen start.now) (graph_seen graph.old) (data_seen found.now))) }
{
    let at = start.at;
    let Some(source) = text_attribute(alloc, &start.attributes, b"source")? else {
        return Err(DocError::Shape { at });
    };
    let Some(target) = text_attribute(alloc, &start.attributes, b"target")? else {
        return Err(DocError::Shape { at });
    };
    if !is_kept(datum_of(found, b"Type"))? {
        return Ok(());
    }
    put_edge(at, source.as_str(), target.as_str(), found, graph)
}
