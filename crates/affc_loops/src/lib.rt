//! The loops that run a program's instances in the order of a schedule.
#![tactic(auto)]

pub mod examples;
pub mod laws;
pub mod terms;
