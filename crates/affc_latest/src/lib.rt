//! The instance that a load reads at values of the parameters and of its iterators: the last write, found exactly.
#![tactic(auto)]

mod greatest;
mod later;
pub mod latest;
mod pairs;
pub mod pinned;

pub use latest::{Reading, source_of};
