//! Networks whose time-points have labels, and the plain networks that they are turned into.
#![tactic(auto)]

mod completion;
mod errors;
mod laws;
mod lifting;
mod lowering;
mod networks;
mod scans;

pub use errors::LiftError;
pub use laws::{
    completed_labels_are_ordered, completion_is_a_closure, defaults_give_a_labelled_strategy,
    labelled_least_moment_is_one, labelled_networks_have_no_fault, labelled_scenarios_decide,
    labels_are_decided_in_time, labels_without_a_lowest_fault_are_in_order, lowered_is_equivalent,
    lowered_is_well_formed, lowest_lift_fault_is_one, marked_propositions_are_awaited,
    observers_are_found, plain_constraints_are_kept, twins_are_executed_alike, unlabelled_is_plain,
};
pub use lifting::lift;
pub use networks::{Labelled, Labels};
