//! What a text without the prelude gives of the text that is printed of its program.

pub mod laws;
