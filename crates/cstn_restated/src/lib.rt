//! A plan in sentences and a document of one network: what the one says is read back from the other. Nothing of the program
//! stands on these laws.
#![tactic(auto)]

mod laws;

pub use laws::{documents_of_plans_are_read_back, sentences_are_read_back};
