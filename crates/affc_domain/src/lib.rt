//! When an instance is one of a program's, which of two is earlier, and which programs a compiler takes: said by the
//! loops, conditions and accesses of the text.
#![tactic(auto)]

pub mod examples;
pub mod laws;
