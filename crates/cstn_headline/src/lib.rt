//! The headline, and the other laws of what calls of `run` tell. The program doesn't call them.
#![tactic(auto)]

mod evidence_laws;
mod headline_laws;
mod laws;
mod networks;

pub use evidence_laws::evidence_is_accepted;
pub use headline_laws::{calls_are_told, calls_tell, the_headline};
pub use laws::{
    cases_without_labels_are_trees, documents_of_plans_are_the_plans, edit_sessions_are_true,
    evidence_passes, followed_refutations_pass, followed_rests_decide, least_deadlines_are_lowered,
    outputs_are_one,
};
pub use networks::check_network;
