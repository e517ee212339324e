//! Why there are no clash systems.

use std::alloc::AllocError;
use thiserror::Error;

/// Why no clash systems are answered.
#[derive(Debug, Clone, Copy, PartialEq, Eq, Error)]
pub enum ClashFault {
    /// One of the systems has more than 128 columns or 1,024 rows, or a row with an entry past its limit.
    #[error("a clash system passes the limits of a system")]
    Large,
    #[error("out of memory")]
    Memory,
}

impl From<AllocError> for ClashFault {
    ghost use Rattle.std.specs.Prelude.{◌≡◌};
    ghost use Rattle.affc_life.specs.declared.fault.ClashFault.TheVariants.{Memory};

    ghost from_gives = { λ e fault. fault ≡ Memory };

    fn from(_e: AllocError) -> ClashFault {
        ClashFault::Memory
    }
}
