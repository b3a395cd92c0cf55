//! Conflict sets: constraints of a network that can't be met together, of which each is needed.
#![tactic(auto)]

mod conflicts;
mod errors;
mod ids;
mod laws;
mod texts;

pub use conflicts::{Conflict, smallest};
pub use errors::ConflictError;
pub use ids::Ids;
pub use laws::{conflict_sets_are_minimal, refutations_stand, sets_are_decided};
pub use texts::conflict_text;
