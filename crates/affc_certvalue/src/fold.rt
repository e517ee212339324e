//! Folds as JSON values.

pub mod build;
pub mod draft;
pub mod fits;
pub mod fold;
pub mod judge;
pub mod layout;
pub mod write;
