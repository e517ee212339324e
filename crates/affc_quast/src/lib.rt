//! Last-write trees (Feautrier 1991): which instance stores what a load reads.
#![tactic(auto)]

pub mod examples;
pub mod laws;
pub mod leaves;
pub mod quast;

pub use quast::{Flow, Quast};
