//! The limits on a text: those on its tokens, and those on its tree before names are looked up.
#![tactic(auto)]

mod assignments;
mod bodies;
mod coefficients;
mod conditions;
mod divisors;
mod forms;
pub mod limits;
mod lines;
mod parts;
mod rests;
pub mod shape;
mod terms;
pub mod texts;
pub mod whole;
