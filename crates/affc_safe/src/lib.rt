//! Runs that end: what keeps a run from being stuck, as facts of the program's instances, and that a run that ends has
//! them all.
#![tactic(auto)]

pub mod examples;
pub mod laws;
