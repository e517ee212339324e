//! Certificates of a nest and a plan, from their texts.
#![tactic(auto)]

pub mod accepting;
pub mod bases;
pub mod columns;
pub mod examples;
pub mod fault;
pub mod laws;
pub mod layout;

pub use accepting::{Accepted, accept, accept_cert, accept_items, accept_text};
pub use bases::first_other;
pub use fault::AcceptFault;
