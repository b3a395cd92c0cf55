//! Plans: networks, each with a list of bounds to which the rules add nothing, and the strategy that such a list gives.
#![tactic(auto)]

mod laws;
mod plans;

pub use laws::closed_lists_have_strategies;
pub use plans::{Plan, SoundPlan};
