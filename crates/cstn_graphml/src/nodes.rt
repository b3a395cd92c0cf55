//! Nodes, which are checked and put in the graph when they end.

ghost use Rattle.std.specs.Prelude.{◌≡◌, map, option_map};
ghost use Rattle.cstn_label.specs.Read.{marks};
ghost use Rattle.cstn_graphml.specs.Judged.{prop_in_datum, reacting, labelled, judged_node};
ghost use Rattle.cstn_element.specs.Children.{tag_seen};
ghost use Rattle.cstn_element.specs.DataElementSeen.{lent_datum, data_seen};
ghost use Rattle.cstn_element.specs.TextsSeen.{prop_seen};
ghost use Rattle.cstn_graphml.specs.DrawnGraph.{observation};
ghost use Rattle.cstn_graphml.specs.DrawnGraphSeen.{observed_seen, graph_seen};
ghost use Rattle.cstn_element.specs.Reads.{Gives, raised};

use crate::drawn_graph::{DrawnGraph, Observation, node_of, put_node};
use cstn_element::{
    Datum, DocError, Fault, Start, datum_of, label_of, observed_in, reaction_in, text_attribute,
};
use cstn_label::{Label, Prop};
use std::alloc::Global;

/// The proposition that a node observes by its data element `Obs`, if any. Refused where its text isn't of its form.
fn observed(datum: Option<&Datum>) -> Result<Option<Prop>, Fault>
    ensures { Gives prop_seen (raised result) (prop_in_datum (lent_datum datum.entry)) }
{
    let Some(datum) = datum else {
        return Ok(None);
    };
    let Some(prop) = observed_in(datum.value()) else {
        return Err(Fault::LabelText { at: datum.at });
    };
    Ok(prop)
}

/// The reaction of a node in ticks, 1 where none is written.
fn reacting(datum: Option<&Datum>) -> Result<u32, Fault>
    ensures { Gives (λ n. n) (raised result) (reacting (lent_datum datum.entry)) }
{
    let Some(datum) = datum else {
        return Ok(1);
    };
    let Some(ticks) = reaction_in(datum.value()) else {
        return Err(Fault::Value { at: datum.at });
    };
    Ok(ticks)
}

/// The observation of this proposition, if any.
fn observation(prop: Option<Prop>, reaction: u32) -> Option<Observation>
    ensures { observed_seen result ≡ observation (prop_seen prop) reaction }
{
    match prop {
        Some(prop) => Some(Observation { prop, reaction }),
        None => None,
    }
}

/// The label of a node, and the empty one where none is written.
fn labelled(datum: Option<&Datum>) -> Result<Label, Fault>
    ensures { Gives marks (raised result) (labelled (lent_datum datum.entry)) }
{
    let Some(datum) = datum else {
        return Ok(Label::empty());
    };
    let Some(label) = label_of(datum.value()) else {
        return Err(Fault::LabelText { at: datum.at });
    };
    Ok(label)
}

/// Checks a node whose data were read, and puts it in the graph. Refused where it has no `id`, where the `id` isn't of 1 to 64
/// bytes or is that of an earlier node, and where a datum isn't of its form.
pub fn judge_node(
    alloc: Global,
    start: &Start,
    found: &[Datum],
    graph: &mut DrawnGraph,
) -> Result<(), DocError>
    ensures { Gives (λ u. graph_seen graph.new) result (judged_node (tag_seen start.now) (graph_seen graph.old) (data_seen found.now)) }
{
    let at = start.at;
    let Some(id) = text_attribute(alloc, &start.attributes, b"id")? else {
        return Err(DocError::Shape { at });
    };
    if id.is_empty() || id.len() > 64 {
        return Err(DocError::Value { at });
    }
    let None = node_of(graph, id.as_str()) else {
        return Err(DocError::NameTwice { at });
    };
    let prop = observed(datum_of(found, b"Obs"))?;
    let reaction = reacting(datum_of(found, b"Reaction"))?;
    let label = labelled(datum_of(found, b"Label"))?;
    put_node(graph, id.as_str(), observation(prop, reaction), label)?;
    Ok(())
}
