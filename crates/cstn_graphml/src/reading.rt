//! Reading a document: from its bytes to its labelled network, or to its refusal.

ghost use Rattle.std.specs.Prelude.{◌≡◌, ◌≢◌, ℕ, List, ◌∷◌, length, IfOk, IfErr};
ghost use Rattle.cstn_label.specs.declared.nodes.NodeId.{NodeId};
ghost use Rattle.cstn_net.specs.Networks.{IsWellFormed, count};
ghost use Rattle.cstn_net.specs.Read.{the_network};
ghost use Rattle.cstn_lift.specs.Read.{the_labelled};
ghost use Rattle.cstn_lift.specs.declared.errors.LiftError.TheVariants.{NotPlain as NotPlainLabel};
ghost use Rattle.cstn_net.specs.declared.errors.NetError.TheVariants.{NoOrigin, NotPlain, ReactionRange};
ghost use Rattle.cstn_element.specs.declared.errors.DocError.TheVariants.{Net, Lift};
ghost use Rattle.cstn_graphml.specs.DrawnGraph.{origin_name};
ghost use Rattle.cstn_graphml.specs.Document.{first_of_two, document};
ghost use Rattle.cstn_graphml.specs.Answers.{IsDocument, RefusesDocument, IsNetTold};

use crate::document::read_document;
use crate::labels::{label_network, names_of};
use crate::networks::build_network;
use cstn_element::DocError;
use cstn_lift::Labelled;
use cstn_markup::Scanner;
use cstn_net::NetError;
use cstn_text::{NameKey, Names};
use std::alloc::Global;

/// The deadline handed in, else the document's.
fn first_of_two(one: Option<u32>, other: Option<u32>) -> Option<u32>
    ensures { result ≡ first_of_two one other }
{
    match one {
        Some(deadline) => Some(deadline),
        None => other,
    }
}

/// The refusal of a document for what the builder refused: want of memory by itself, any other fault with the names.
fn refusal(error: NetError, names: Names) -> DocError
    ensures { IsNetTold error names result }
{
    match error {
        NetError::Memory(e) => DocError::Memory(e),
        _ => DocError::Net { error, names },
    }
}

/// The answer to a document: its labelled network with the names, or the first refusal.
fn answer(alloc: Global, bytes: &[u8], deadline: Option<u32>) -> Result<(Labelled, Names), DocError>
    ensures accepted { IfOk result (λ r. IsDocument (document bytes.now deadline) (the_labelled r.0) r.1) }
    ensures refused { IfErr result (RefusesDocument (document bytes.now deadline)) }
{
    if let Err(e) = str::from_utf8(bytes) {
        return Err(DocError::NotUtf8 {
            at: e.valid_up_to(),
        });
    }
    let mut scanner = Scanner::new(bytes);
    let graph = read_document(alloc, NameKey::new(bytes), &mut scanner)?;
    let Some(deadline) = first_of_two(deadline, graph.deadline) else {
        return Err(DocError::NoDeadline);
    };
    match build_network(alloc, deadline, &graph) {
        Ok(network) => label_network(alloc, network, graph),
        Err(error) => Err(refusal(error, names_of(graph))),
    }
}

/// Reads a document. Returns its labelled network and the names of its time-points by number, `Z` first, or the first refusal.
/// A deadline in ticks that is handed in wins over the document's; with neither the document is refused.
pub fn read(
    alloc: Global,
    bytes: &[u8],
    deadline: Option<u32>,
) -> Result<(Labelled, Names), DocError>
    ensures accepted { IfOk result (λ r. IsDocument (document bytes.now deadline) (the_labelled r.0) r.1) }
    ensures well_formed { IfOk result (λ r. IsWellFormed (the_network r.0.base)) }
    ensures named { IfOk result (λ r. length r.1 ≡ count (the_network r.0.base)) }
    ensures origin { IfOk result (λ r. (later : List (List ℕ)) × (r.1 ≡ origin_name ∷ later)) }

    ensures refused { IfErr result (RefusesDocument (document bytes.now deadline)) }
    ensures has_origin { IfErr result (λ e. (names : List (List ℕ)) → e ≢ Net NoOrigin names) }
    ensures has_plain_labels { IfErr result (λ e. (names : List (List ℕ)) (constraint : ℕ) → e ≢ Net (NotPlain constraint) names) }
    ensures has_timely_reactions { IfErr result (λ e. (names : List (List ℕ)) (node : NodeId) → e ≢ Net (ReactionRange node) names) }
    ensures has_plain_node_labels { IfErr result (λ e. (names : List (List ℕ)) (node : NodeId) → e ≢ Lift (NotPlainLabel node) names) }
{
    answer(alloc, bytes, deadline)
}
