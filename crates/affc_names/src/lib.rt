//! The tree of a text whose names keep the rules, or the first name that is refused.
#![tactic(auto)]

mod chain;
mod condition;
pub mod fault;
mod index;
mod lines;
pub mod program;
pub mod reserved;
mod scope;
pub mod spread;
mod statement;
mod value;
mod why;
