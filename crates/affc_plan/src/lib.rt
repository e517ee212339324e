//! Plans that schedules' texts read as.
#![tactic(auto)]

pub mod bases;
pub mod breach;
mod columns;
pub mod folds;
pub mod front;
pub mod laws;
mod lists;
pub mod lost;
pub mod maps;
mod operands;
mod reading;
mod stops;
pub mod times;

pub use reading::read;
