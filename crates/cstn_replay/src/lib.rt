//! The replay of a refutation: checks each step alone, by its rule, from the network and the earlier steps that it names.
#![tactic(auto)]

mod answers;
mod replays;
mod steps;
mod texts;

pub use answers::Answer;
pub use replays::replay;
pub use texts::replay_text;
