//! The search for last-write trees.
#![tactic(auto)]

mod asked;
mod divided;
mod finding;
mod grown;
mod growth;
mod guess;
pub mod laws;
mod parts;
mod path;
mod samples;
mod search;
pub mod stop;
mod tested;

pub use finding::find;
pub use stop::FlowStop;
