//! Programs as trees, and what they mean.
//!
//! The definitions of `specs/` are what every promise of this repository is made of: the tree, the stores,
//! what a run does, which data fit, which instances a run has, and when one program does what another does.
#![tactic(auto)]

pub mod copies;
pub mod examples;
pub mod laws;
pub mod text;
pub mod tree;

pub use sqlite_items::{Boxed, Items};
