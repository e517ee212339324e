//! What affc does with its words, over any folder and any two sinks.
#![tactic(auto)]

mod big;
pub mod examples;
mod files;
mod fold;
pub mod laws;
mod pieces;
mod replay;
mod run;
pub mod serve;
mod trees;
mod writing;
