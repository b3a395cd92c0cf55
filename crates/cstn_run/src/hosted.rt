// Hosts: up to 64 ids are open at once, each over one of up to 8 plans, and calls on an id are answered as if it were alone. So
// are host lines, by a session of a host.
mod cases;
mod errors;
mod hosts;
mod laws;
mod session_laws;
mod sessions;
mod texts;

pub use errors::HostError;
pub use hosts::Host;
pub use laws::{
    answers_are_known, answers_follow_own_calls, calls_leave_other_ids, hosts_keep_ids_apart,
    reopened_ids_start_anew,
};
pub use session_laws::{
    answers_follow_own_lines, ids_are_answered_alone, lines_of_other_ids_make_no_difference,
    open_ids_name_the_least, reopened_ids_have_no_earlier_lines, runs_answer_alone,
};
pub use sessions::HostSession;
