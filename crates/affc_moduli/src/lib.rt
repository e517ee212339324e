//! Successive moduli of an array along the rows of a basis, over the pairs of elements that are to be kept apart.
#![tactic(auto)]

mod asked;
mod bounds;
mod ceilings;
mod chosen;
mod distances;
mod enough;
pub mod examples;
mod extremes;
pub mod fold;
mod forms;
mod keys;
mod reduced;
mod reordered;
mod row;
mod slices;
mod tops;
mod witness;

pub use asked::Hint;
pub use chosen::Chosen;
pub use fold::moduli;
pub use keys::{barring, key_of};
