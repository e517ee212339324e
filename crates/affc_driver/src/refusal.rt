//! Why there is no text.

use crate::unread::Unread;
use affc_ast::tree::{ArrayId, Instance};
use affc_bounds::MeaningFault;
use affc_parse::fault::ParseFault;
use affc_schedtext::SchedFault;
use sqlite_items::Items;
use std::alloc::AllocError;
use thiserror::Error;

/// Why a source with a schedule isn't compiled.
#[derive(Debug, Drop, Error)]
pub enum Refusal {
    /// No program reads as the source.
    #[error("{0}")]
    Source(ParseFault),
    /// The source reads as a program with the prelude, which begins at this byte.
    #[error("the prelude stands at byte {0}")]
    Printed(usize),
    /// The schedule is no plan of the source.
    #[error("{0}")]
    Schedule(SchedFault),
    #[error("{0}")]
    Meaning(MeaningFault),
    /// At `p`, the values of the number parameters, this load of the instance, counted from 0, is of an element of the
    /// array, a temporary, that no instance before stores.
    #[error("load {access} of statement {} reads what nothing stores", instance.statement)]
    Unwritten {
        array: ArrayId,
        access: u32,
        p: Items<i64>,
        instance: Instance,
    },
    /// At `p`, the values of the number parameters, `b` depends on `a`, and the schedule runs it before `a`.
    #[error("a dependence of statement {} on statement {} is turned round", b.statement, a.statement)]
    Illegal {
        p: Items<i64>,
        a: Instance,
        b: Instance,
    },
    #[error("the budget is spent")]
    Budget,
    #[error("out of memory")]
    Memory,
}

impl From<AllocError> for Refusal {
    ghost use Rattle.std.specs.Prelude.{◌≡◌};
    ghost use Rattle.affc_driver.specs.declared.refusal.Refusal.TheVariants.{Memory};

    ghost from_gives = { λ e refusal. refusal ≡ Memory };

    fn from(_e: AllocError) -> Refusal {
        Refusal::Memory
    }
}

impl From<Unread> for Refusal {
    ghost use Rattle.std.specs.Prelude.{◌≡◌};
    ghost use Rattle.affc_driver.specs.Refusals.{refusal_of};

    ghost from_gives = { λ unread refusal. refusal ≡ refusal_of unread };

    fn from(unread: Unread) -> Refusal {
        match unread {
            Unread::Source(fault) => Refusal::Source(fault),
            Unread::Printed(place) => Refusal::Printed(place),
            Unread::Memory => Refusal::Memory,
        }
    }
}
