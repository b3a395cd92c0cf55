//! Refutations as data: a load and a list of steps. They are printed as texts and read from them.
#![tactic(auto)]

mod errors;
mod laws;
mod limits;
mod parts;
mod printing;
mod reading;
mod refutations;

pub use errors::RefuteError;
pub use laws::{texts_are_read_back, texts_are_the_shown_ones};
pub use parts::read_named_bound;
pub use refutations::Refutation;
