//! Changes of a network while it is in use: constraints are added, removed, and given other values. Why a change is refused is said
//! here once, and so are the lines that answer edits; labelled networks are edited as copies.
#![tactic(auto)]

mod changes;
mod errors;
mod ids;
mod laws;
mod lines;
mod plans;
mod refusals;

pub use changes::Change;
pub use errors::EditError;
pub use ids::id_above;
pub use laws::{ids_stay_below, unobserved_is_found};
pub use lines::{put_accepted, put_refusal, put_unknown_end};
pub use plans::{changed, labels_of, relabelled, with_deadline};
pub use refusals::{add_refusal, refusal, remove_refusal, revalue_refusal};
