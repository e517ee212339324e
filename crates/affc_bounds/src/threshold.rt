//! How much work counts as unlimited.

pub mod examples;
mod threshold;

pub use threshold::bound;
