//! The program that a text is, or why it is none.
#![tactic(auto)]

pub mod fault;
pub mod laws;
pub mod place;
mod program;
mod size;
pub mod symbols;
mod tokens;

pub use program::parse;
