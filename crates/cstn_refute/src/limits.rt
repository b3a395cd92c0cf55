// The limits of a step.

use cstn_net::MAX_DEADLINE;

/// The greatest least value of a step.
pub(crate) const MOST_LEAST: u32 = MAX_DEADLINE + 1;
