//! Tokens, and why a text has none.

use std::alloc::AllocError;
use thiserror::Error;

/// What a token is.
#[derive(Clone, Copy, Debug, PartialEq, Eq)]
pub enum Kind {
    /// a letter or `_`, then letters, digits and `_`
    Word,
    /// `0`, or a digit from 1 to 9 and further digits; below 2^64
    Number,
    /// a number directly followed by `ULL`
    Value,
    /// what stands in `<` and `>` behind `#include`, with both
    Header,
    /// a `#` with no other token before it on its line
    Hash,
    /// the end of a line with `#`: a line feed, or the end of the text (then it has no bytes)
    LineEnd,
    /// the five lines of the prelude, each with its line feed
    Prelude,
    /// a bracket, an operator or a separator
    Mark,
}

/// A token of a text: the bytes from `start` up to `end`, without the byte at `end`.
#[derive(Clone, Copy)]
pub struct Token {
    pub kind: Kind,
    pub start: usize,
    pub end: usize,
}

/// Why a text has no tokens, with the place in bytes.
#[derive(Debug, Drop, Error)]
pub enum LexFault {
    /// No token, space or comment begins or goes on with this byte.
    #[error("no token, space or comment goes on at byte {0}")]
    BadByte(usize),
    /// A comment begins here and doesn't end.
    #[error("the comment at byte {0} has no end")]
    OpenComment(usize),
    /// A number of 2^64 or more begins here.
    #[error("the number at byte {0} is too large")]
    LongNumber(usize),
    #[error("out of memory")]
    Memory,
}

impl From<AllocError> for LexFault {
    ghost use Rattle.affc_lex.specs.declared.token.LexFault.TheVariants.{Memory};
    ghost use Rattle.std.specs.Prelude.{◌≡◌};

    ghost from_gives = { λ _ e. e ≡ Memory };

    fn from(_: AllocError) -> LexFault {
        LexFault::Memory
    }
}
