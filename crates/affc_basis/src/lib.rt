//! Bases of the lattices onto which arrays are folded, their moduli, and the place of an element.
#![tactic(auto)]

pub mod basis;
pub mod examples;
pub mod fold;
pub mod laws;
pub mod listing;
mod wide;

pub use basis::{Basis, NotInverse};
pub use fold::{Fold, Mark, Modulus};
pub use listing::listed;
