//! A whole compilation, from a source's bytes to the printed text's.
#![tactic(auto)]

pub mod flowing;
pub mod folding;
pub mod laws;
mod meaning;
mod reading;
pub mod refusal;
mod temporaries;
pub mod unread;
pub mod wanted;

pub use flowing::{flow, flow_program};
pub use folding::{Done, Made, fold, fold_program};
pub use reading::read;
pub use refusal::Refusal;
pub use unread::Unread;
pub use wanted::Wanted;
