//! The executive: takes moments and outcomes one at a time, names at each moment the time-points whose least moment it is, and
//! tells in lines what it answers. The guide carries out a lowered network so, and names those whose labels hold.
#![tactic(auto)]

mod errors;
mod executive;
mod guide_laws;
mod guides;
mod laws;
mod lines;

pub use errors::ExecError;
pub use executive::{Executive, Snapshot, is_possible};
pub use guide_laws::{
    guide_answers_are_known, guides_are_on_time, guides_stay_right, holding_is_decided,
    outcomes_are_of_the_named, the_named_hold, unlabelled_guides_are_executives,
};
pub use guides::Guide;
pub use laws::{
    answers_are_known, due_is_exact, refusals_are_right, runs_stay_right, the_named_are_called,
};
pub use lines::{print_names, put_moment, put_refusal};
