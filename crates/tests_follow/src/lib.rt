//! Tests of sessions that follow what happens: worked sessions, line by line.
#![tactic(auto)]

#[cfg(test)]
mod asked;
#[cfg(test)]
mod cases;
#[cfg(test)]
mod expected;
#[cfg(test)]
mod fixtures;
#[cfg(test)]
mod forgiven;
#[cfg(test)]
mod marks;
#[cfg(test)]
mod sessions;
#[cfg(test)]
mod stepped;
