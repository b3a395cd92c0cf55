//! Outlines: trees that say when each time-point is executed, by the outcomes that are seen, as lines in preorder, and their texts.
#![tactic(auto)]

mod errors;
mod laws;
mod parts;
mod printing;
mod reading;
mod trees;

pub use errors::TreeError;
pub use laws::{tree_texts_are_read_back, tree_texts_are_the_shown_ones, trees_are_their_lines};
pub use printing::print;
pub use reading::read;
pub use trees::{Line, Named, Tree};
