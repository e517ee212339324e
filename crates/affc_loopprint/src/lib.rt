//! What is printed of a schedule's loops reads as them.
#![tactic(auto)]

pub mod examples;
pub mod laws;
pub mod reprint;
