//! The canonical document.

ghost use Rattle.std.specs.Prelude.{◌≡◌, ◌<◌, ◌++◌, ℕ, List, OnOk, IfOk, Ok, Some, None, length, slice_get, slice_index_or, codes, map};
ghost use Rattle.cstn_net.specs.Networks.{count};
ghost use Rattle.cstn_net.specs.Read.{the_network, the_constraint};
ghost use Rattle.cstn_lift.specs.Read.{the_labelled};
ghost use Rattle.cstn_graphml.specs.Document.{document};
ghost use Rattle.cstn_graphml.specs.DrawnGraphSeen.{observed_seen};
ghost use Rattle.cstn_graphml.specs.Networks.{IsFit};
ghost use Rattle.cstn_save.specs.ReadBack.{parts};
ghost use Rattle.cstn_save.specs.Canonical.{canonical, timed_observations, nodes, edges, edge_line};

use crate::laws::documents_are_read_back;
use crate::lines::{push_edge_data, push_edge_tag, push_head, push_node};
use cstn_graphml::Observation;
use cstn_label::NodeId;
use cstn_lift::Labelled;
use cstn_net::{Constraint, Network};
use cstn_text::Names;
use std::alloc::{AllocError, Global};

/// The canonical document of a labelled network under the names of its time-points, of which the first is `Z`.
///
/// The lines are those of the deadline in ticks, of each time-point by number and of each constraint by id. Reading the
/// document gives the same names, the same labels of time-points, and the same network with its constraints numbered from 0,
/// and is accepted. Fails for want of memory alone.
pub fn write(alloc: Global, net: &Labelled, names: &Names) -> Result<Vec<u8>, AllocError>
    requires named { length names.now ≡ count (the_network net.now.base) }
    requires origin { slice_get names.now 0 ≡ Some (codes "Z") }
    ensures canonical { IfOk result (λ text. text.items ≡ canonical (the_labelled net.now) names.now) }
    ensures read_back { IfOk result (λ text. document text.items None ≡ Ok (parts (the_labelled net.now) names.now)) }
    ensures accepted { IfOk result (λ _. IsFit (parts (the_labelled net.now) names.now)) }
{
    is_fit(net);
    let base = net.base();
    prove!(names.count() == base.count() as u32);
    let mut text = Vec::new(alloc);
    push_head(&mut text, base.deadline())?;
    push_nodes(alloc, &mut text, net, names)?;
    push_edges(&mut text, base, names)?;
    text.extend_from_slice(b"</graph>\n</graphml>\n")?;
    Ok(text)
}

fn push_nodes(
    alloc: Global,
    text: &mut Vec<u8>,
    net: &Labelled,
    names: &Names,
) -> Result<(), AllocError>
    requires { length names.now ≡ count (the_network net.now.base) }
    ensures { OnOk result (text.new.items ≡ text.old.items ++ nodes names.now (the_labelled net.now)) }
{
    let base = net.base();
    for x in 0..base.count() {
        let x = NodeId(x);
        push_node(
            alloc,
            text,
            names.name(x),
            observation(base, x),
            net.label(x),
        )?;
    }
    Ok(())
}

fn observation(net: &Network, x: NodeId) -> Option<Observation>
    requires { x.0 < count (the_network net.now) }
    ensures { observed_seen result ≡ slice_index_or (timed_observations (the_network net.now)) x.0 None }
{
    let prop = net.observes(x)?;
    Some(Observation {
        prop,
        reaction: net.reaction(prop),
    })
}

fn push_edges(text: &mut Vec<u8>, net: &Network, names: &Names) -> Result<(), AllocError>
    requires { length names.now ≡ count (the_network net.now) }
    ensures { OnOk result (text.new.items ≡ text.old.items ++ edges names.now (the_network net.now).constraints) }
{
    for c in net.constraints() {
        push_edge(text, names, c)?;
    }
    Ok(())
}

fn push_edge(text: &mut Vec<u8>, names: &Names, c: &Constraint) -> Result<(), AllocError>
    requires from { c.now.from.0 < length names.now }
    requires to { c.now.to.0 < length names.now }
    ensures { OnOk result (text.new.items ≡ text.old.items ++ edge_line names.now (the_constraint c.now)) }
{
    push_edge_tag(text, names.name(c.from), names.name(c.to))?;
    push_edge_data(text, c.most, c.label)?;
    Ok(())
}

// Does nothing: its contract says that what is written of a labelled network is accepted.
fn is_fit(net: &Labelled)
    ensures { (names : List (List ℕ)) → IsFit (parts (the_labelled net.now) names) }
{
    documents_are_read_back();
    net.base();
    net.lowered();
}
