//! Schedules and folds as texts.
#![tactic(auto)]

pub mod draft;
pub mod examples;
mod forms;
pub mod laws;
pub mod lines;
pub mod outline;
pub mod plan;
pub mod products;
pub mod program;
mod reading;
pub mod scope;
pub mod terms;

pub use plan::{Plan, SchedFault};
