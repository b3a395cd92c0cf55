//! Networks that are drawn from a number, for drills and tests.
#![tactic(auto)]

mod constraints;
mod draws;
mod generated;

pub use generated::network;
