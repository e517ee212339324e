//! The questions on last-write trees, and what they decide.
#![tactic(auto)]

pub mod asking;
pub mod examples;
pub mod laws;
pub mod load;
pub mod questions;
pub mod ranges;

pub use asking::store_for;
pub use load::is_temporary;
