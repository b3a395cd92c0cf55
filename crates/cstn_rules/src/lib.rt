//! The rules by which bounds follow, when a bound refutes a network, and what derivations, refutations and closed lists are.
#![tactic(auto)]

mod counters;
mod entries;
mod laws;
mod rules;

pub use counters::Tries;
pub use entries::{Entry, Why};
pub use laws::{
    conclusions_stay_within, derivations_are_sound, derivations_move, rules_are_sound,
    rules_have_one_conclusion, waits_are_at_observers,
};
pub use rules::{chain, refutes, wait};
