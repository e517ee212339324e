//! Why a text is no program.

use affc_grammar::fault::{LimitName, NameWhy};
use std::alloc::AllocError;
use thiserror::Error;

/// Why a text is no program, with the place in bytes.
#[derive(Debug, Drop, Error)]
pub enum ParseFault {
    #[error("out of memory")]
    Memory,
    #[error("no token, space or comment goes on at byte {0}")]
    BadByte(usize),
    #[error("the comment at byte {0} has no end")]
    OpenComment(usize),
    #[error("the number at byte {0} is too large")]
    LongNumber(usize),
    #[error("no program goes on at byte {0}")]
    Syntax(usize),
    #[error("the name at byte {place} is refused")]
    Name { place: usize, why: NameWhy },
    /// Both sides of this `*` hold names.
    #[error("the product at byte {0} is not affine")]
    NotAffine(usize),
    #[error("a limit is passed at byte {place}")]
    Limit { place: usize, which: LimitName },
}

impl From<AllocError> for ParseFault {
    ghost use Rattle.affc_parse.specs.declared.fault.ParseFault.TheVariants.{Memory};
    ghost use Rattle.std.specs.Prelude.{◌≡◌};

    ghost from_gives = { λ _ e. e ≡ Memory };

    fn from(_: AllocError) -> ParseFault {
        ParseFault::Memory
    }
}
