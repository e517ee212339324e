//! The source with folded subscripts and extents, as it is printed.
#![tactic(auto)]

mod calls;
mod components;
pub mod examples;
mod forms;
pub mod laws;
mod left_whole;
mod rewriting;
mod statements;
mod subscripts;
mod temporaries;

pub use rewriting::rewrite;
