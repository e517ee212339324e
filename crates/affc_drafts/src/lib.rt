//! Drafts of instances that a load might read. Nothing is promised of them: what is drafted is tested where it is used.
#![tactic(auto)]

mod candidates;
mod draft;
mod sampled;
mod solved;
mod strides;
mod telling;

pub use candidates::{Candidate, Guess, drafts};
pub use sampled::{through, value_of};
pub use solved::stands;
pub use strides::ROOM;
