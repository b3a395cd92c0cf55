//! What is next while a labelled network is carried out.
#![tactic(auto)]

mod laws;
mod moments;
mod ready;

pub use laws::next_is_exact;
pub use moments::{NextMoment, next};
pub use ready::is_ready;
