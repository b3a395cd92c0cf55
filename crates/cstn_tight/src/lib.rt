//! Least deadlines: the least deadline at which a network has a strategy, with the list of bounds that its yes rests on, and a
//! refutation of the network at one tick less.
#![tactic(auto)]

mod errors;
mod greatest;
mod laws;
mod texts;
mod tight;

pub use errors::TightError;
pub use laws::{
    consistency_is_kept_from_the_least, least_deadlines_are_greatest_values,
    least_deadlines_are_one,
};
pub use texts::tight_text;
pub use tight::{Tight, least};
