//! Stored costs: what a list of moduli costs, by a function that is kept beside what is known of it.
#![tactic(auto)]

pub mod choice;
pub mod choosing;
pub mod costs;
pub mod examples;
pub mod laws;
pub mod ratings;
pub mod weigher;
mod whole;

pub use choice::{Choice, Price};
pub use choosing::choose;
pub use costs::{powers, sum, words};
pub use ratings::{Rated, rate};
pub use weigher::{Cost, Weigher};
pub use whole::whole_cost;
