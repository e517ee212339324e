//! The decision whether a system has an integer point in a box: a proof that it has none, or its least one.
#![tactic(auto)]

pub mod budget;
mod cuts;
pub mod decision;
pub mod examples;
pub mod maximum;
mod parts;
pub mod points;
pub mod search;

pub use budget::{Budget, Stop};
pub use decision::{decide, within_reach};
pub use points::decide_any;
pub use search::Answer;
