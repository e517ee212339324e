//! Calls that no command reaches, and whose answers are known from outside: the real files and streams, programs that
//! no text is, and what a last-write tree names.
//!
//! They stand together, since the tests of a crate are built with a second proof of all of it.
#![tactic(auto)]

#[cfg(test)]
mod io;
#[cfg(test)]
mod quast;
#[cfg(test)]
mod wellnamed;
