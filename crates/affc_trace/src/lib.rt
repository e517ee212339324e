//! The order of instances, the last store before each load, and the laws by which a program may be reordered and folded.
#![tactic(auto)]

pub mod examples;
pub mod laws;
pub mod schedule;

pub use schedule::{Schedule, TimeMap};
