//! Why a command isn't done: refusals, their statuses and the lines that tell them.
#![tactic(auto)]

mod certificate;
pub mod examples;
pub mod meaning;
pub mod refusal;
pub mod schedule;
pub mod source;
pub mod stuck;

pub use stuck::arrays_are_touched;
