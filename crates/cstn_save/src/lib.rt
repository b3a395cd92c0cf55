//! The canonical document of a network: one fixed text for a network and its names.
#![tactic(auto)]

mod document;
mod escapes;
mod laws;
mod lines;

pub use document::write;
pub use laws::{
    canonical_texts_tell_networks_apart, documents_are_read_back, names_are_read_back,
    numbers_are_read_back, values_are_read_back,
};
