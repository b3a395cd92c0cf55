//! A fixed region of slots, taken once, with ids that never name two values.
//!
//! A [`Pool`] takes all its memory when it starts. A value goes into a free slot, and its id is
//! that slot with a new birth. No birth is used twice, so an id that was given back never reads a
//! later value of its slot.
#![tactic(auto)]

mod laws;
mod pool;
mod slot_id;

pub use laws::{births_never_come_back, blanks_fill_up_to_a_count};
pub use pool::{Full, Pool};
pub use slot_id::SlotId;
