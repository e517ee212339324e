//! What a text without the prelude gives of the program that it reads as: a plain program.
#![tactic(auto)]

pub mod joined;
pub mod laws;
