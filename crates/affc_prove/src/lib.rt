//! Proofs that systems have no integer point, in columns whose ends follow from the systems' own rows.
#![tactic(auto)]

mod bounds;
mod halved;
mod numbers;
pub mod pruned;
pub mod question;

pub use pruned::lengthened;
pub use question::{decided, proof_of, refutation, refutation_within};
