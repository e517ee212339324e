//! What is found of a program, as text.
#![tactic(auto)]

pub mod examples;
mod folds;
mod forms;
mod lists;
mod loose;
mod trees;

pub use folds::fold_report;
pub use trees::flow_text;
