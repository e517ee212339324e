//! Whether a schedule is legal: proofs that none of its questions has a point, or the first dependence that is turned round.
#![tactic(auto)]

pub mod laws;
pub mod legality;
mod settling;
mod violation;

pub use legality::{LegalProof, SchedStop, legal};
