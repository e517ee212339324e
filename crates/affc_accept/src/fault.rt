//! Why a text is no certificate of a nest and a plan.

use affc_cert::CertFault;
use affc_check::CheckFault;
use std::alloc::AllocError;
use thiserror::Error;

/// Why a text isn't accepted as a certificate. Want of memory stands inside no other cause.
#[derive(Debug, Clone, Copy, PartialEq, Eq, Error)]
pub enum AcceptFault {
    /// The text is no certificate with the plan's bases.
    #[error("{0}")]
    Certificate(CertFault),
    /// It is one that isn't valid.
    #[error("{0}")]
    Check(CheckFault),
    #[error("out of memory")]
    Memory,
}

impl From<AllocError> for AcceptFault {
    ghost use Rattle.std.specs.Prelude.{◌≡◌};
    ghost use Rattle.affc_accept.specs.declared.fault.AcceptFault.TheVariants.{Memory};

    ghost from_gives = { λ e fault. fault ≡ Memory };

    fn from(_e: AllocError) -> AcceptFault {
        AcceptFault::Memory
    }
}
