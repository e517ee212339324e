//! The folds of a program's temporaries under a schedule.
#![tactic(auto)]

mod asked;
mod bases;
pub mod examples;
pub mod folding;
pub mod laws;
mod systems;
mod tries;

pub use folding::{Folded, fold_all};
