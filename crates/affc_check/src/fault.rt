//! Why a certificate isn't taken.

use std::alloc::AllocError;
use thiserror::Error;

/// Why a certificate isn't taken. Items are numbered from 0. Part 0 is the object with its keys; the trees and then the folds are
/// numbered on from 1.
#[derive(Debug, Clone, Copy, PartialEq, Eq, Error)]
pub enum CheckFault {
    /// A question of this tree or fold has more than 128 columns or 1,024 rows, or a row with an entry past its limit.
    #[error("a question of part {0} passes the limits of a system")]
    Number(usize),
    /// This item is a question without a valid proof.
    #[error("question {0} has no valid proof")]
    Proof(usize),
    /// This item is a point that doesn't meet its rows.
    #[error("point {0} doesn't meet its rows")]
    Shown(usize),
    #[error("out of memory")]
    Memory,
}

impl From<AllocError> for CheckFault {
    ghost use Rattle.std.specs.Prelude.{◌≡◌};
    ghost use Rattle.affc_check.specs.declared.fault.CheckFault.TheVariants.{Memory};

    ghost from_gives = { λ e fault. fault ≡ Memory };

    fn from(_e: AllocError) -> CheckFault {
        CheckFault::Memory
    }
}
