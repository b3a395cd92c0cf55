//! Tests of the public calls that keep, grow and edit the list of bounds: pools, minimal sets, logs, plans, checks and
//! edit sessions.
#![tactic(auto)]

#[cfg(test)]
mod check;
#[cfg(test)]
mod edit;
#[cfg(test)]
mod log;
#[cfg(test)]
mod minset;
#[cfg(test)]
mod networks;
#[cfg(test)]
mod plain;
#[cfg(test)]
mod plans;
#[cfg(test)]
mod pool;
