//! Reads GraphML documents, in the profile of docs/formats.md, as labelled networks with names.
#![tactic(auto)]

mod deadlines;
mod document;
mod drawn_graph;
mod edges;
mod graph;
mod in_turn;
mod kept;
mod labels;
mod laws;
mod networks;
mod nodes;
mod reading;
mod root;

pub use cstn_element::DocError;
pub use drawn_graph::{DrawnConstraint, DrawnGraph, Observation};
pub use kept::KeptConstraints;
pub use labels::label_network;
pub use laws::{documents_have_one_answer, documents_past_the_limit_are_refused};
pub use networks::build_network;
pub use reading::read;
