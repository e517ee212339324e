//! The words of the command line, and the command forms that they stand for.
#![tactic(auto)]

pub mod examples;
pub mod stages;
pub mod words;
