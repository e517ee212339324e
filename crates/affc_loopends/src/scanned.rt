//! The loops of a schedule's program between ends that are projected from its statements' time sets.

pub mod examples;
pub mod laws;
mod scanned;

pub use scanned::{Loose, Scanned};
