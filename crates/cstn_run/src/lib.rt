//! Sessions that carry out plans: of a run, where a guide answers live lines, and of a host, where host lines open ids over
//! plans and live lines on an id are answered as if it were alone.
#![tactic(auto)]

mod hosted;
mod laws;
mod sessions;
mod texts;

pub use hosted::{
    Host, HostError, HostSession, answers_are_known, answers_follow_own_calls,
    answers_follow_own_lines, calls_leave_other_ids, hosts_keep_ids_apart, ids_are_answered_alone,
    lines_of_other_ids_make_no_difference, open_ids_name_the_least,
    reopened_ids_have_no_earlier_lines, reopened_ids_start_anew, runs_answer_alone,
};
pub use laws::{
    good_sessions_are_carried_out, guided_answers_are_least, unlabelled_sessions_are_plain,
    yes_is_planned,
};
pub use sessions::RunSession;
