//! The laws of sessions that follow what happens, over all lines that lead to a state. Nothing of the program stands on it.
#![tactic(auto)]

mod laws;
mod marks_laws;

pub use laws::{
    edits_change_the_plan_alone, finished_plans_are_carried_out, followed_answers_are_true,
    followed_plans_end, followed_plans_go_on, followed_questions_are_answered,
    followed_verdicts_are_true, forgiving_gives_up_what_is_broken, journals_lead_back,
    larger_caps_say_more, order_makes_no_difference,
};
pub use marks_laws::{
    caps_are_set, marked_sessions_follow, marks_lead_back, trials_change_nothing,
};
