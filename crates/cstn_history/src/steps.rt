// A further time-point of a labelled network that is carried out.
ghost use Rattle.std.specs.Prelude.{ℕ, ◌≡◌, ◌<◌, ◌≤◌, ◌↔◌, [], map, IfOk, IfErr};
ghost use Rattle.cstn_label.specs.Read.{marks};
ghost use Rattle.cstn_net.specs.Limits.{most_time_points};
ghost use Rattle.cstn_net.specs.Networks.{count};
ghost use Rattle.cstn_net.specs.Read.{the_network};
ghost use Rattle.cstn_lift.specs.Labelled.{Labelled as TheLabelled};
ghost use Rattle.cstn_lift.specs.Read.{the_labelled};
ghost use Rattle.cstn_lift.specs.WellFormed.{IsLabelled};
ghost use Rattle.cstn_history.specs.Handed.{IsRestRefusal, rest_number};
ghost use Rattle.cstn_history.specs.Histories.{History as TheHistory, nothing_yet, IsHistory, IsInTime, IsTimelyHistory};
ghost use Rattle.cstn_history.specs.Continuations.{Can};
ghost use Rattle.cstn_history.specs.Read.{HistoryParts, the_history, IsKeptFor};
ghost use Rattle.cstn_history.specs.Steps.{with_point, stepped, with_place};
ghost use Rattle.cstn_history.specs.Rest.{left};

use crate::errors::RestError;
use crate::histories::History;
use crate::rests::{add_points, error_of, insert_all, labels_left, left_of, refusal_of};
use cstn_label::{Label, NodeId};
use cstn_lift::{Labelled, labelled_networks_have_no_fault, lift};
use cstn_net::{Builder, Network, handed_networks_are_closed, network_is_well_formed};
use std::alloc::{AllocError, Global};

impl History {
    /// The same history with a place for a further time-point, which isn't done. Fails where memory is refused.
    pub fn with_place(&self, alloc: Global) -> Result<History, AllocError>
        ensures placed { IfOk result (λ h. h ≡ with_place self.now) }
    {
        let mut done = Vec::from_slice(alloc, &self.done)?;
        done.push(None)?;
        let mut ready = Vec::from_slice(alloc, &self.ready)?;
        ready.push(0)?;
        Ok(History {
            time: self.time,
            done,
            told: self.told,
            expected: self.expected,
            ready,
        })
    }
}

/// A further time-point, which observes nothing and has no label, keeps a labelled network one, and what has happened a history of it. It
/// can go on with it exactly where it can without it and it isn't past the deadline.
pub fn steps_keep_histories()
    ensures labelled { (m : TheLabelled) → IsLabelled m → count m.base < most_time_points → IsLabelled (stepped m) }
    ensures history { (m : TheLabelled) (h : TheHistory) → IsLabelled m → IsHistory m h → IsInTime m h → IsTimelyHistory (stepped m) h }
    ensures goes { (m : TheLabelled) (h : TheHistory) → IsLabelled m → IsHistory m h → (Can (stepped m) h ↔ (Can m h × (h.now ≤ m.base.deadline))) }
    ensures same { (h : HistoryParts) → the_history (with_place h) ≡ the_history h }
    ensures kept { (m : TheLabelled) (h : HistoryParts) → IsLabelled m → IsKeptFor m h → IsKeptFor (stepped m) (with_place h) }
{}

/// The labelled network with a further time-point behind its last one, which observes nothing and has no label. Refused where its lowered
/// network has more than 16,384 constraints, or where memory is refused.
pub fn stepped(alloc: Global, network: &Labelled) -> Result<Labelled, RestError>
    requires room { count (the_labelled network.now).base < most_time_points }
    ensures stepped { IfOk result (λ l. the_labelled l ≡ stepped (the_labelled network.now)) }
    ensures refused { IfErr result (IsRestRefusal (stepped (the_labelled network.now))) }
{
    labelled_networks_have_no_fault();
    steps_keep_histories();
    network.base();
    let (base, labels) = match parts_stepped(alloc, network) {
        Ok(parts) => parts,
        Err(e) => return Err(e),
    };
    network_is_well_formed(&base);
    match lift(alloc, base, labels) {
        Ok(stepped) => Ok(stepped),
        Err(fault) => Err(refusal_of(fault)),
    }
}

// Its network and its labels, by what is left where nothing has happened.
fn parts_stepped(alloc: Global, network: &Labelled) -> Result<(Network, Vec<Label>), RestError>
    requires room { count (the_labelled network.now).base < most_time_points }
    ensures base { IfOk result (λ p. the_network p.0 ≡ with_point (the_labelled network.now).base) }
    ensures labels { IfOk result (λ p. map marks p.1.items ≡ (stepped (the_labelled network.now)).labels) }
    ensures refused { IfErr result (λ e. rest_number e ≡ 0) }
{
    let nothing = History::new(alloc, network)?;
    let left = left_of(alloc, network, &nothing)?;
    let base = base_stepped(alloc, network, &nothing, &left.points)?;
    let labels = labels_stepped(alloc, network, &nothing, &left.points)?;
    Ok((base, labels))
}

// The labels of its time-points.
fn labels_stepped(
    alloc: Global,
    network: &Labelled,
    nothing: &History,
    points: &[NodeId],
) -> Result<Vec<Label>, AllocError>
    requires labelled { IsLabelled (the_labelled network.now) }
    requires nothing { the_history nothing.now ≡ nothing_yet }
    requires kept { IsKeptFor (the_labelled network.now) nothing.now }
    requires points { map (λ x. x.0) points.now ≡ left (the_labelled network.now) (the_history nothing.now) }
    ensures labels { IfOk result (λ v. map marks v.items ≡ (stepped (the_labelled network.now)).labels) }
{
    let mut labels = labels_left(alloc, network, nothing, points)?;
    labels.push(Label::empty())?;
    Ok(labels)
}

// Its network.
fn base_stepped(
    alloc: Global,
    network: &Labelled,
    nothing: &History,
    points: &[NodeId],
) -> Result<Network, RestError>
    requires nothing { the_history nothing.now ≡ nothing_yet }
    requires kept { IsKeptFor (the_labelled network.now) nothing.now }
    requires points { map (λ x. x.0) points.now ≡ left (the_labelled network.now) (the_history nothing.now) }
    requires room { count (the_labelled network.now).base < most_time_points }
    ensures base { IfOk result (λ n. the_network n ≡ with_point (the_labelled network.now).base) }
    ensures refused { IfErr result (λ e. rest_number e ≡ 0) }
{
    let mut base = points_stepped(alloc, network, nothing, points)?;
    let constraints = network.base().constraints();
    base.reserve(constraints.len() as u32)?;
    insert_all(&mut base, constraints);
    Ok(base)
}

// Its network without constraints.
fn points_stepped(
    alloc: Global,
    network: &Labelled,
    nothing: &History,
    points: &[NodeId],
) -> Result<Network, RestError>
    requires nothing { the_history nothing.now ≡ nothing_yet }
    requires kept { IsKeptFor (the_labelled network.now) nothing.now }
    requires points { map (λ x. x.0) points.now ≡ left (the_labelled network.now) (the_history nothing.now) }
    requires room { count (the_labelled network.now).base < most_time_points }
    ensures bare { IfOk result (λ n. the_network n ≡ record (with_point (the_labelled network.now).base) { constraints = [] }) }
    ensures none { IfOk result (λ n. n.constraints ≡ []) }
    ensures refused { IfErr result (λ e. rest_number e ≡ 0) }
{
    handed_networks_are_closed();
    let mut builder = Builder::new(alloc, network.base().deadline());
    add_points(&mut builder, network, nothing, points)?;
    builder.node(None)?;
    match builder.close() {
        Ok(net) => Ok(net),
        Err(e) => Err(error_of(e)),
    }
}
