//! What is said for a request, and how it is written: texts, statuses, and sessions over lines.
#![tactic(auto)]

mod answers;
mod output;
mod session;
mod status;
mod texts;

pub use answers::{accepted, wrong_line};
pub use output::{Outcome, Refused, Said, finish};
pub use session::{Answer, Talk, converse};
pub use status::Status;
pub use texts::{AnswerText, truth_word};
