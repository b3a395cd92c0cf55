//! The elements of a document: their children, their data and what these say, what is passed over, and why a document is refused.
#![tactic(auto)]

mod attributes;
mod children;
mod data_element;
mod data_element_text;
mod deadlines;
mod edge_types;
mod errors;
mod label_texts;
mod laws;
mod node_and_edge_data;
mod number_texts;
mod observed_letters;
mod open_names;
mod passing;
mod reactions;
mod value_texts;
mod white_space;

pub use attributes::text_attribute;
pub use children::{Next, Start, next_child};
pub use data_element::{Datum, datum_of, read_datum};
pub use deadlines::deadline_of;
pub use edge_types::{EdgeType, edge_type_of};
pub use errors::{DocError, Fault};
pub use label_texts::label_of;
pub use laws::{
    ElementReading, documents_are_read_in_turn, elements_are_read_in_turn,
    elements_passed_over_leave_the_state,
};
pub use node_and_edge_data::read_element_data;
pub use observed_letters::observed_in;
pub use passing::pass_element;
pub use reactions::reaction_in;
pub use value_texts::{Pair, Pairs, values_of};
pub use white_space::is_blank;
