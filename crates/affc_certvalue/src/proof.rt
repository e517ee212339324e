//! Proofs as JSON values.

pub mod build;
pub mod fits;
pub mod judge;
pub mod kind;
pub mod write;
