//! Tests of labels, networks, rules, tables, generated networks, labelled networks, executives and guides, by public calls.
#![tactic(auto)]

#[cfg(test)]
mod exec;
#[cfg(test)]
mod fixtures;
#[cfg(test)]
mod generated;
#[cfg(test)]
mod guide;
#[cfg(test)]
mod label;
#[cfg(test)]
mod lift;
#[cfg(test)]
mod net;
#[cfg(test)]
mod plans;
#[cfg(test)]
mod rules;
#[cfg(test)]
mod table;
