//! Systems projected onto their first columns, over the rational points, and refuted where they have none.

mod contradiction;
mod direction;
mod elimination;
pub mod examples;
mod least;
pub mod projection;
pub mod refutation;
mod work;

pub use projection::{Projected, project};
pub use refutation::{Refutation, refute};
