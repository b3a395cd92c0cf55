//! Lemmas that speak of the standard library alone, and that several crates cite. It has no functions.
#![tactic(auto)]
