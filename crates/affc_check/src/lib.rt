//! Whether certificates are valid, and what a valid one shows.
#![tactic(auto)]

pub mod check;
mod checks;
pub mod examples;
pub mod fault;
mod fold_looks;
pub mod laws;
pub mod list;
mod looks;
mod made;
mod walks;

pub use check::{Checked, check_all, items};
pub use fault::CheckFault;
