//! The tree of a text before its names are looked up, and the tokens that the grammar sees.

pub mod draft;
pub mod passed;
pub mod symbol;
