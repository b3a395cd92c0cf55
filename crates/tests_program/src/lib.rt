//! Tests of the top call on files, a live source and a sink in memory: each command, calls that fail or take few bytes, and
//! what is left unread.
#![tactic(auto)]

#[cfg(test)]
mod commands;
#[cfg(test)]
mod documents;
#[cfg(test)]
mod faults;
#[cfg(test)]
mod following;
#[cfg(test)]
mod plans;
#[cfg(test)]
mod requests;
#[cfg(test)]
mod sessions;
