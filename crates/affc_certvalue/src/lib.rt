//! JSON values of numbers, forms and lists, and what is wrong with a value.
#![tactic(auto)]

pub mod build;
pub mod fits;
pub mod fold;
pub mod judge;
pub mod keys;
pub mod proof;
pub mod verdict;
pub mod write;
