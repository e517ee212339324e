//! A compilation again, by a certificate: nothing is searched for.
#![tactic(auto)]

pub mod laws;
pub mod refusal;
pub mod replaying;
mod scalars;

pub use refusal::Refusal;
pub use replaying::{Replayed, replay, replay_program};
