//! Folded loops as the loops of another program: one that does at places what the source does.
#![tactic(auto)]

pub mod examples;
pub mod laws;
