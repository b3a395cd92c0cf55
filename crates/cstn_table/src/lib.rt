//! Decides small networks by a table of moments with a row for each scenario. The moments start at 0 and are raised until no
//! constraint and no other row forces a later one.
#![tactic(auto)]

mod decisions;
mod errors;
mod pairs;
mod raises;
mod rows;
mod tables;

pub use decisions::decide;
pub use errors::TableError;
pub use tables::Table;
