//! Why a source is read as no program.

use affc_parse::fault::ParseFault;
use thiserror::Error;

/// Why a source isn't read. Want of memory stands inside no other cause.
#[derive(Debug, Drop, Error)]
pub enum Unread {
    /// No program reads as the source.
    #[error("{0}")]
    Source(ParseFault),
    /// The source reads as a program with the prelude, which begins at this byte.
    #[error("the prelude stands at byte {0}")]
    Printed(usize),
    #[error("out of memory")]
    Memory,
}
