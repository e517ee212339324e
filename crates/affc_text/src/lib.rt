//! From tokens to the tree of a text before its names are looked up, or the first token at which no text of the grammar goes on.
#![tactic(auto)]

mod ahead;
mod function;
mod lines;
mod statement;
mod text;

pub use text::read_text;
