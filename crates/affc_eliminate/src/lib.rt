//! Columns eliminated from rows over the rational points, and tests of whether one row says all that another says.
#![tactic(auto)]

pub mod elimination;
mod exact;
pub mod examples;
pub mod kept;
pub mod laws;
mod mixture;
mod opposites;
pub mod project;
pub mod screen;
mod sieve;
mod weights;
mod work;

pub use elimination::eliminate;
pub use kept::{Kept, Step};
pub use screen::{Screen, Test, never, same_slope};
