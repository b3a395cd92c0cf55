//! Tests of the public calls that read, write and name what documents and lines hold.
#![tactic(auto)]

#[cfg(test)]
mod documents;
#[cfg(test)]
mod elements;
#[cfg(test)]
mod fixtures;
#[cfg(test)]
mod io;
#[cfg(test)]
mod lines;
#[cfg(test)]
mod markup;
#[cfg(test)]
mod saving;
#[cfg(test)]
mod text;
