//! The ends of the loops that scan a statement's times, projected from its time set.
#![tactic(auto)]

pub mod bounding;
pub mod bounds;
pub mod ends;
pub mod examples;
pub mod laws;
mod left;
mod questions;
pub mod scanned;
pub mod statement;
pub mod system;

pub use bounds::{Bounds, Why};
pub use ends::component_ends;
pub use statement::statement_ends;
pub use system::time_system;
