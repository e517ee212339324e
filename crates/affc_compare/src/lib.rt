//! Which of two instances runs first under a schedule, by their numbers and without memory.
#![tactic(auto)]

pub mod examples;
mod source;
mod target;
mod time;

pub use target::target_cmp;
