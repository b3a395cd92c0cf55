//! Marks, labels, scenarios, what is known, and bounds. A label gives each of 52 propositions a mark, in two machine words.
#![tactic(auto)]

mod bounds;
mod knowledge;
mod labels;
mod laws;
mod marks;
mod nodes;
mod props;
mod scenarios;
mod words;

pub use bounds::Bound;
pub use knowledge::Known;
pub use labels::Label;
pub use laws::{
    domination_is_an_order, equality_is_of_values, joined_is_the_least_above,
    labels_are_their_marks, letters_are_numbered, one_mark_is_taken_off,
    plain_labels_hold_somewhere, possible_until_ruled_out, within_is_an_order,
};
pub use marks::Mark;
pub use nodes::NodeId;
pub use props::Prop;
pub use scenarios::Scenario;
