//! Minimal sets: the bounds that no other kept bound dominates, in slots whose memory is taken
//! once.
#![tactic(auto)]

mod births;
mod bits;
mod columns;
mod gather;
mod laws;
mod links;
mod min_set;
mod page;
mod passes;
mod places;
mod rows;
mod scan;
mod sheet;

pub use bits::{first_bit_from, with_bit};
pub use laws::{placing_leaves_what_nothing_later_dominates, walks_meet_each_once};
pub use min_set::MinSet;
