//! What there always is: a projection of each system, bounds of each column, and a scanned program.

pub mod laws;
