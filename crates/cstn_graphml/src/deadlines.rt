//! Deadlines, which are checked and put in the graph when their data element ends.
ghost use Rattle.std.specs.Prelude.{◌≡◌};
ghost use Rattle.cstn_graphml.specs.Judged.{judged_deadline};
ghost use Rattle.cstn_element.specs.DataElementSeen.{maybe_datum};
ghost use Rattle.cstn_graphml.specs.DrawnGraphSeen.{graph_seen};
ghost use Rattle.cstn_element.specs.Reads.{Gives};

use crate::drawn_graph::{DrawnGraph, put_deadline};
use cstn_element::{Datum, DocError, deadline_of};

/// Puts in the deadline of a data element of the graph, in ticks; None is one whose key isn't used. Refused with `Value` where
/// the text isn't of its form.
pub fn judge_deadline(datum: Option<Datum>, graph: &mut DrawnGraph) -> Result<(), DocError>
    ensures { Gives (λ u. graph_seen graph.new) result (judged_deadline (graph_seen graph.old) (maybe_datum datum)) }
{
    let Some(datum) = datum else {
        return Ok(());
    };
    let Some(ticks) = deadline_of(datum.value()) else {
        return Err(DocError::Value { at: datum.at });
    };
    put_deadline(graph, datum, ticks)?;
    Ok(())
}
