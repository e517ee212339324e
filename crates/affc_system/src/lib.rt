//! Systems of rows over numbered columns, boxes, and pairs of elements.
#![tactic(auto)]

pub mod boxes;
pub mod examples;
pub mod laws;
pub mod order;
pub mod pairs;
pub mod system;

pub use boxes::{BoxOf, interval};
pub use order::is_at_most;
pub use pairs::PairSystem;
pub use system::{RowFault, System, are_rows, fits_row, is_row, value_at};
