//! The interpreter: a program run on data, exactly as its meaning says.
#![tactic(auto)]

mod context;
pub mod examples;
mod extents;
mod fault;
pub mod feed;
mod index;
pub mod laws;
mod line;
pub mod lines;
mod machine;
mod memory;
pub mod run;
mod step;
mod value;
