//! Loops that run a program's instances in the order of a schedule.
#![tactic(auto)]

mod alive;
mod blocks;
mod ends;
mod gathered;
pub mod laws;
mod loops;
mod moved;
mod operators;
mod ranges;
mod target;
mod tests_of;
mod times;
mod trees;

pub use target::scan;
