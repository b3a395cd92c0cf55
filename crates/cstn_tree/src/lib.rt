//! Strategies as trees that a person can read, and a check of them that uses no derivation rule.
#![tactic(auto)]

mod branches;
mod checking;
mod laws;
mod making;
mod starts;
mod texts;
mod unfolding;
mod walks;

pub use checking::{TreeAnswer, check};
pub use laws::{
    broken_lines_are_known, good_trees_are_strategies, made_texts_are_short, made_trees_are_good,
    networks_have_one_tree, the_first_that_breaks_is_found,
};
pub use making::make;
pub use texts::treecheck_text;
pub use unfolding::tree_text;
