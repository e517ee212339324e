//! Which texts are programs, and which program each is: the grammar, the rules on names and products,
//! and the limits. The parser and the printer stand on these definitions; here is no reader of bytes.
#![tactic(auto)]

pub mod examples;
pub mod fault;
pub mod laws;
pub mod readers;
