//! Calls of the integers' crates that no command reaches, with answers that are known from outside.
//!
//! They stand together, since the tests of a crate are built with a second proof of all of it.
#![tactic(auto)]

#[cfg(test)]
mod basis;
#[cfg(test)]
mod farkas;
#[cfg(test)]
mod prove;
