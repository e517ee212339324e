//! Source trees as JSON values.

pub mod build;
pub mod fits;
pub mod judge;
pub mod kind;
pub mod layout;
pub mod write;
