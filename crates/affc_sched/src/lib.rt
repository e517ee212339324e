//! The questions on a schedule as integer systems.
#![tactic(auto)]

pub mod examples;
pub mod groups;
pub mod laws;
pub mod pairs;
pub mod systems;

pub use groups::{legality_groups, pair_group};
pub use pairs::{Pair, asked_pairs};
pub use systems::pair_rows;
