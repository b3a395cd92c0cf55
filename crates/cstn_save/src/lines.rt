//! The lines of a document.

ghost use Rattle.std.specs.Prelude.{◌≡◌, ◌<◌, ◌++◌, ◌∷◌, [], OnOk, IfOk, Some};
ghost use Rattle.cstn_label.specs.Read.{marks};
ghost use Rattle.cstn_save.specs.Canonical.{head, node_line, node_data, node_end, observation_data, reaction_data, label_data, edge_tag, edge_data};
ghost use Rattle.cstn_graphml.specs.DrawnGraphSeen.{observed_seen};

use crate::escapes::{push_label, push_literals, push_name, push_number, push_value};
use cstn_graphml::Observation;
use cstn_label::Label;
use std::alloc::{AllocError, Global};

pub(crate) fn push_head(text: &mut Vec<u8>, deadline: u32) -> Result<(), AllocError>
    ensures { OnOk result (text.new.items ≡ text.old.items ++ head deadline) }
{
    text.extend_from_slice(
        b"<?xml version=\"1.0\" encoding=\"UTF-8\"?>\n<graphml>\n<graph edgedefault=\"directed\">\n<data key=\"Deadline\">",
    )?;
    push_number(text, deadline)?;
    text.extend_from_slice(b"</data>\n")?;
    Ok(())
}

pub(crate) fn push_node(
    alloc: Global,
    text: &mut Vec<u8>,
    name: &str,
    observed: Option<Observation>,
    label: Label,
) -> Result<(), AllocError>
    ensures { OnOk result (text.new.items ≡ text.old.items ++ node_line name.now (observed_seen observed) (marks label)) }
{
    let data = node_data(alloc, observed, label)?;
    text.extend_from_slice(b"<node id=\"")?;
    push_name(text, name)?;
    push_node_end(text, &data)?;
    Ok(())
}

fn node_data(
    alloc: Global,
    observed: Option<Observation>,
    label: Label,
) -> Result<Vec<u8>, AllocError>
    ensures { IfOk result (λ d. d.items ≡ node_data (observed_seen observed) (marks label)) }
{
    let mut data = Vec::new(alloc);
    push_observation(&mut data, observed)?;
    let mut literals = Vec::new(alloc);
    push_literals(&mut literals, label)?;
    push_label_data(&mut data, &literals)?;
    Ok(data)
}

fn push_node_end(text: &mut Vec<u8>, inside: &[u8]) -> Result<(), AllocError>
    ensures { OnOk result (text.new.items ≡ text.old.items ++ node_end inside.now) }
{
    if inside.is_empty() {
        return text.extend_from_slice(b"\"/>\n");
    }
    text.extend_from_slice(b"\">")?;
    text.extend_from_slice(inside)?;
    text.extend_from_slice(b"</node>\n")?;
    Ok(())
}

fn push_observation(text: &mut Vec<u8>, observed: Option<Observation>) -> Result<(), AllocError>
    ensures { OnOk result (text.new.items ≡ text.old.items ++ observation_data (observed_seen observed)) }
{
    match observed {
        None => Ok(()),
        Some(observation) => push_observed(text, observation),
    }
}

fn push_observed(text: &mut Vec<u8>, observation: Observation) -> Result<(), AllocError>
    ensures { OnOk result (text.new.items ≡ text.old.items ++ observation_data (observed_seen (Some observation))) }
{
    text.extend_from_slice(b"<data key=\"Obs\">")?;
    text.push(observation.prop.letter())?;
    text.extend_from_slice(b"</data>")?;
    push_reaction(text, observation.reaction)?;
    Ok(())
}

fn push_label_data(text: &mut Vec<u8>, literals: &[u8]) -> Result<(), AllocError>
    ensures { OnOk result (text.new.items ≡ text.old.items ++ label_data literals.now) }
{
    if literals.is_empty() {
        return Ok(());
    }
    text.extend_from_slice(b"<data key=\"Label\">")?;
    text.extend_from_slice(literals)?;
    text.extend_from_slice(b"</data>")?;
    Ok(())
}

fn push_reaction(text: &mut Vec<u8>, ticks: u32) -> Result<(), AllocError>
    ensures { OnOk result (text.new.items ≡ text.old.items ++ reaction_data ticks) }
{
    if ticks == 1 {
        return Ok(());
    }
    text.extend_from_slice(b"<data key=\"Reaction\">")?;
    push_number(text, ticks)?;
    text.extend_from_slice(b"</data>")?;
    Ok(())
}

pub(crate) fn push_edge_tag(
    text: &mut Vec<u8>,
    source: &str,
    target: &str,
) -> Result<(), AllocError>
    ensures { OnOk result (text.new.items ≡ text.old.items ++ edge_tag source.now target.now) }
{
    text.extend_from_slice(b"<edge source=\"")?;
    push_name(text, source)?;
    text.extend_from_slice(b"\" target=\"")?;
    push_name(text, target)?;
    text.extend_from_slice(b"\">")?;
    Ok(())
}

pub(crate) fn push_edge_data(text: &mut Vec<u8>, most: i32, label: Label) -> Result<(), AllocError>
    ensures { OnOk result (text.new.items ≡ text.old.items ++ edge_data most (marks label)) }
{
    text.extend_from_slice(b"<data key=\"Type\">requirement</data><data key=\"LabeledValues\">{(")?;
    push_value(text, most)?;
    text.extend_from_slice(b", ")?;
    push_label(text, label)?;
    text.extend_from_slice(b")}</data></edge>\n")?;
    Ok(())
}
