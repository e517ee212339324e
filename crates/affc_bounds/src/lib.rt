//! Whether a program keeps to its arrays, whatever its data: its iterators, its context, its extents and its accesses,
//! at all values of the parameters.
#![tactic(auto)]

mod accesses;
pub mod checks;
pub mod examples;
mod extents;
pub mod fault;
mod found;
pub mod laws;
mod points;
pub mod threshold;

pub use checks::{check, nest};
pub use fault::{Halt, MeaningFault};
