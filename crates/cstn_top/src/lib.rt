//! One request: its words, its files, and what is written for it.
#![tactic(auto)]

mod commands;
mod top;

pub use cstn_reply::Status;
pub use top::run;
