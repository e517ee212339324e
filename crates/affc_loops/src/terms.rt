//! Affine forms as expressions.

mod forms;
pub mod trees;

pub use forms::{form_ix, number};
