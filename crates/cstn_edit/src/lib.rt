//! Edit sessions: constraints are added, taken out and changed, and each verdict is grown from the list that was kept. Edit lines
//! are answered so.
#![tactic(auto)]

mod answers;
mod cuts;
mod editing;
mod fresh;
mod laws;
mod outcomes;
mod sessions;

pub use editing::Editing;
pub use laws::{sessions_stay_sound, verdicts_are_true};
pub use outcomes::Outcome;
pub use sessions::Session;
