//! Affine forms over numbered columns, with exact values.
//!
//! All numbers are `i128`. A call either answers exactly, or answers `Range`, and it answers `Range` only where the
//! magnitudes of the terms that it has to add sum to more than `2^126`. So no number on the way is ever cut off.
#![tactic(auto)]

pub mod examples;
pub mod form;
pub mod laws;
pub mod total;
pub mod vocabulary;

pub use form::{Coefs, Form, FormFault};
pub use total::{Range, Total};
