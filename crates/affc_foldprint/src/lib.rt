//! A program with folds is scanned, and printed, as its source is.
#![tactic(auto)]

pub mod laws;
