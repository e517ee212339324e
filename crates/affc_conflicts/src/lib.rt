//! Conflicts of an array over a context, and the questions that tell whether a fold keeps them apart.
#![tactic(auto)]

pub mod differences;
pub mod examples;
pub mod laws;
