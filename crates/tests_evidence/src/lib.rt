//! Tests of the public calls of refutations, replays, lists of bounds, conflict sets, least deadlines, trees and hosts.
#![tactic(auto)]

#[cfg(test)]
mod closed;
#[cfg(test)]
mod conflicts;
#[cfg(test)]
mod deadlines;
#[cfg(test)]
mod fixtures;
#[cfg(test)]
mod hosts;
#[cfg(test)]
mod refutations;
#[cfg(test)]
mod replays;
#[cfg(test)]
mod trees;
