//! Boxes as the bounds of their columns, and leaves: sums of rows that are below 0 in a whole box.
#![tactic(auto)]

pub mod bounds;
pub mod box_cuts;
pub mod boxed;
mod candidates;
pub mod cuts;
pub mod examples;
mod firsts;
pub mod flat;
pub mod laws;
pub mod leaves;
pub mod parts;
pub mod places;
pub mod rounds;
pub mod tops;
mod vertices;
