//! How many elements of an array are live at one instant, which no map that keeps live elements apart can use fewer slots than.
#![tactic(auto)]

pub mod examples;
pub mod found;
pub mod greatest;
pub mod laws;
pub mod life;
pub mod span;
mod tally;
