//! Numbers, values, names and labels as they stand in lines, the list of a network's names, and texts that list things.
#![tactic(auto)]

mod cuts;
mod laws;
mod loads;
mod name_key;
mod names;
mod numbers;
mod parts;
mod printed_labels;
mod printed_names;

pub use cuts::{cut_at, first_place};
pub use laws::{
    label_texts_are_marks, labels_are_read_back, listings_are_their_texts, names_have_one_text,
    numbers_have_one_text, printed_names_are_short, printed_texts_are_parts, texts_are_their_parts,
    values_have_one_text,
};
pub use loads::{push_load, read_start};
pub use name_key::NameKey;
pub use names::{NameError, Names};
pub use numbers::{push_number, push_value, read_number, read_number_within, read_value};
pub use parts::{part, print_names, read_node};
pub use printed_labels::{print_label, push_label, read_label};
pub use printed_names::{print_name, read_name};
