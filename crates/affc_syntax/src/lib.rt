//! From tokens to the tree of a text before its names are looked up, or the first token at which no text of the grammar goes on.
#![tactic(auto)]

pub mod ahead;
pub mod condition;
pub mod draft;
pub mod expression;
pub mod here;
pub mod value;
