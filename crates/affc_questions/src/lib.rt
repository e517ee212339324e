//! The questions of a certificate's trees and folds, as systems of any number of rows.
#![tactic(auto)]

mod beside;
pub mod context;
pub mod distances;
pub mod laws;
pub mod leaf;
mod lists;
pub mod long;
mod named;
pub mod ranged;
mod reading;
mod rows;
mod writer;

pub use context::{greater_question, one_system, positive_question, whole_context};
pub use distances::{distance_rows, is_behind, shown_rows};
pub use leaf::leaf_questions;
pub use long::Long;
pub use ranged::Ranged;
