//! Pipelines of many stages, made to measure how folding grows with them.
#![tactic(auto)]

pub mod examples;
mod stages;

pub use stages::{Pipeline, generate, whole};
