//! The check of a network: grows its log, the list of bounds that the rules give, and says by it whether the network has a
//! strategy.
#![tactic(auto)]

mod checks;
mod deadlines;
mod decisions;
mod givers;
mod growth;
mod halving;
mod laws;
mod needs;
mod plans;
mod puts;
mod room;
mod search;
mod search_laws;
mod sifting;
mod steps;
mod turns;
mod verdicts;
mod waits;

pub use checks::Check;
pub use deadlines::logs_hold_lower_ones;
pub use decisions::{Judged, check_text, full, judge, yes_line};
pub use givers::{logs_stay_without_idle_constraints, refutations_stand_without_idle_constraints};
pub use growth::{Grown, grow, grow_on};
pub use halving::{MomentTrial, Span, halve};
pub use laws::{
    grown_lists_are_spent, growth_decides, growth_ends, growth_is_bounded,
    kept_lists_grow_to_an_end, live_bounds_are_in_range, loads_are_known, logs_are_known,
    spent_instances_stay_spent, tests_decide, tests_on_lists_decide,
};
pub use needs::{Finding, find};
pub use room::is_never_full;
pub use search::{Trial, ids_of, leave_out};
pub use search_laws::{halving_finds_last_moments, leaving_out_finds_least_sets};
pub use turns::is_fresh;
pub use verdicts::{Verdict, verdict_of};
