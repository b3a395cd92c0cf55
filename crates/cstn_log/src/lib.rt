//! The log: the list of bounds that follow by the rules, in order, each with the rule that gave it.
#![tactic(auto)]

mod agenda;
mod bits;
mod blocks;
mod caps;
mod cuts;
mod cutting;
mod laws;
mod list;
mod log;
mod putting;

pub use caps::Cap;
pub use cuts::{
    cuts_are_derivations, cuts_are_known, dropping_leaves_derivations, parts_are_derivations,
};
pub use laws::{cut_lists_follow_ancestors, log_is_well_formed};
pub use log::Log;
