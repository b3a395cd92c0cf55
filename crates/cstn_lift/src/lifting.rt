ghost use Rattle.std.specs.Prelude.{ℕ, ◌≡◌, ◌≢◌, ◌↔◌, length, map, IsTrue, IfOk, IfErr, MatchOption};
ghost use Rattle.cstn_label.specs.Labels.{empty};
ghost use Rattle.cstn_label.specs.Read.{marks};
ghost use Rattle.cstn_net.specs.Networks.{count};
ghost use Rattle.cstn_net.specs.Read.{the_network};
ghost use Rattle.cstn_lift.specs.declared.errors.LiftError.{LiftError};
ghost use Rattle.cstn_lift.specs.Labelled.{label_in};
ghost use Rattle.cstn_lift.specs.WellFormed.{IsLabelled};
ghost use Rattle.cstn_lift.specs.Faults.{HasLiftFault, IsLowestLiftFault, IsLiftRefusal, HasGoodLabels};
ghost use Rattle.cstn_lift.specs.Read.{the_labelled, with_labels, AreCompleted};

use crate::completion::completed_labels;
use crate::errors::LiftError;
use crate::lowering::lowered;
use crate::networks::{Labelled, Labels};
use crate::scans::{first_in_circle, first_not_plain, first_unobserved, is_empty};
use cstn_label::Label;
use cstn_net::{Network, observers_are_time_points};
use std::alloc::Global;

/// Makes a labelled network of a network and the labels of its time-points, in ascending number of these. Refused where there
/// is a fault, or where memory is refused.
pub fn lift(alloc: Global, net: Network, labels: Vec<Label>) -> Result<Labelled, LiftError>
    requires one_each { length labels.items ≡ count (the_network net) }
    ensures base { IfOk result (λ l. l.base ≡ net) }
    ensures labels { IfOk result (λ l. l.labels ≡ labels.items) }
    ensures labelled { IfOk result (λ l. IsLabelled (the_labelled l)) }

    // Unless memory is refused, it is refused exactly where there is a fault, and then by the lowest one.
    ensures faultless { IfOk result (λ _. (e : LiftError) → HasLiftFault (with_labels net labels.items) e → ⊥) }
    ensures refused { IfErr result (IsLiftRefusal (with_labels net labels.items)) }
{
    if let Some(fault) = label_fault(&net, &labels) {
        return Err(fault);
    }
    let whole = match completed_labels(alloc, &net, &labels) {
        Ok(whole) => whole,
        Err(e) => return Err(LiftError::Memory(e)),
    };
    if let Some(fault) = completed_fault(&net, &labels, &whole) {
        return Err(fault);
    }
    match lowered(alloc, &net, &labels, &whole) {
        Ok(plain) => Ok(Labelled::new(plain, Labels::new(net, labels, whole))),
        Err(fault) => Err(fault),
    }
}

// The lowest fault of the labels as they were handed in.
fn label_fault(net: &Network, labels: &[Label]) -> Option<LiftError>
    requires one_each { length labels.now ≡ count (the_network net.now) }
    ensures { MatchOption result (HasGoodLabels (with_labels net.now labels.now)) (IsLowestLiftFault (with_labels net.now labels.now)) }
{
    if is_origin_labelled(labels) {
        return Some(LiftError::OriginLabel);
    }
    if let Some(node) = first_not_plain(net, labels) {
        return Some(LiftError::NotPlain { node });
    }
    if let Some((node, prop)) = first_unobserved(net, labels) {
        return Some(LiftError::NotObserved { node, prop });
    }
    None
}

// The lowest fault of the completed labels.
fn completed_fault(net: &Network, labels: &[Label], whole: &[Label]) -> Option<LiftError>
    requires one_each { length labels.now ≡ count (the_network net.now) }
    requires good { HasGoodLabels (with_labels net.now labels.now) }
    requires completed { AreCompleted (with_labels net.now labels.now) whole.now }
    ensures { MatchOption result (IsLabelled (with_labels net.now labels.now)) (IsLowestLiftFault (with_labels net.now labels.now)) }
{
    observers_are_time_points();
    if let Some(node) = first_in_circle(net, whole) {
        return Some(LiftError::Circle { node });
    }
    if let Some(node) = first_not_plain(net, whole) {
        return Some(LiftError::Never { node });
    }
    None
}

// Whether the label of the origin isn't empty.
fn is_origin_labelled(labels: &[Label]) -> bool
    ensures { IsTrue result ↔ (label_in (map marks labels.now) 0 ≢ empty) }
{
    match labels.first() {
        Some(label) => !is_empty(*label),
        None => false,
    }
}
