//! The list of bounds that a yes rests on: as data and as a text, with the check that it is closed for a network.
#![tactic(auto)]

mod adopting;
mod answers;
mod checks;
mod errors;
mod index;
mod instances;
mod laws;
mod lists;
mod marks;
mod minimal;
mod printing;
mod reading;
mod texts;

pub use adopting::adopt;
pub use answers::ClosedAnswer;
pub use checks::check;
pub use errors::ClosedError;
pub use index::Indexed;
pub use laws::{
    closed_lists_are_accepted, closed_texts_are_read_back, closed_texts_are_the_shown_ones,
};
pub use lists::Closed;
pub use texts::closedcheck_text;
