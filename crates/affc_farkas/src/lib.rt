//! Proofs that a system has no integer point, their checker, and the pairs of rows that eliminations are made of.
#![tactic(auto)]

mod chain;
mod checker;
mod depth;
pub mod examples;
pub mod laws;
pub mod pair;
pub mod proof;
pub mod row;

pub use checker::check;
pub use depth::depth_at_most;
pub use pair::Pair;
pub use proof::{MultiplierFault, Multipliers, Proof};
