//! Orders of a program's instances as integer systems: which of two is earlier in the source, and which in the target of a
//! schedule.
#![tactic(auto)]

pub mod columns;
pub mod examples;
pub mod images;
pub mod laws;
pub mod lex;
pub mod order;

pub use order::{Placed, source_before, source_order, target_after, target_order};
