//! Why there is no text.

use affc_cert::CertFault;
use affc_check::CheckFault;
use affc_driver::Unread;
use affc_parse::fault::ParseFault;
use affc_schedtext::SchedFault;
use std::alloc::AllocError;
use thiserror::Error;

/// Why a source with its schedule and a certificate isn't replayed. Want of memory stands inside no other cause.
#[derive(Debug, Drop, Error)]
pub enum Refusal {
    /// No program reads as the source.
    #[error("{0}")]
    Source(ParseFault),
    /// The source reads as a program with the prelude, which begins at this byte.
    #[error("the prelude stands at byte {0}")]
    Printed(usize),
    /// The schedule is no plan of the source.
    #[error("{0}")]
    Schedule(SchedFault),
    /// By the interval rule, the range of this loop round this statement passes 2^31.
    #[error("the range of loop {loop_number} round statement {statement} passes 2^31")]
    IteratorRange { statement: u32, loop_number: u32 },
    /// The text is no certificate of the source with the plan's bases.
    #[error("{0}")]
    Certificate(CertFault),
    /// It is one that isn't valid.
    #[error("{0}")]
    Check(CheckFault),
    #[error("out of memory")]
    Memory,
}

impl From<AllocError> for Refusal {
    ghost use Rattle.std.specs.Prelude.{◌≡◌};
    ghost use Rattle.affc_replay.specs.declared.refusal.Refusal.TheVariants.{Memory};

    ghost from_gives = { λ e refusal. refusal ≡ Memory };

    fn from(_e: AllocError) -> Refusal {
        Refusal::Memory
    }
}

impl From<Unread> for Refusal {
    ghost use Rattle.std.specs.Prelude.{◌≡◌};
    ghost use Rattle.affc_replay.specs.Refusals.{refusal_of};

    ghost from_gives = { λ unread refusal. refusal ≡ refusal_of unread };

    fn from(unread: Unread) -> Refusal {
        match unread {
            Unread::Source(fault) => Refusal::Source(fault),
            Unread::Printed(place) => Refusal::Printed(place),
            Unread::Memory => Refusal::Memory,
        }
    }
}
