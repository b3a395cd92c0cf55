//! Networks of time-points and constraints, how they are built and changed, and what they mean.
#![tactic(auto)]

mod builders;
mod constraints;
mod drafts;
mod errors;
mod handing;
mod laws;
mod limits;
mod links;
mod networks;
mod observers;
mod points;
mod scans;
mod walks;

pub use builders::Builder;
pub use constraints::Constraint;
pub use errors::NetError;
pub use handing::{drafts_are_numbered, handed_networks_are_closed, reactions_are_a_tick_at_first};
pub use laws::{
    bounds_hold, branch_has_a_strategy, builders_without_a_lowest_fault_make_networks,
    consistency_is_kept, dynamic_is_one_sided, knowledge_grows, late_has_no_strategy,
    least_moment_is_one, lowest_net_fault_is_one, observed_scenarios_decide,
    observers_are_time_points, other_constraints_are_well_formed, past_is_common,
    plain_strategy_is_a_schedule, possible_until_ruled_out, strategies_are_kept,
    ticks_are_not_dense, unobserved_is_unseen,
};
pub use limits::{
    MAX_CONSTRAINTS, MAX_DEADLINE, MAX_EDITS, MAX_LOAD, MAX_MOST, MAX_NODES, MAX_REACTION, is_value,
};
pub use networks::{Network, network_is_well_formed};
pub use walks::walk_visits_each;
