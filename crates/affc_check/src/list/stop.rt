//! Why items aren't listed.
ghost use Rattle.std.specs.Prelude.{◌≡◌};
ghost use Rattle.affc_check.specs.list.Stops.{part_stop};

use std::alloc::AllocError;
use thiserror::Error;

/// Why the items of one part aren't listed.
#[derive(Debug, Clone, Copy, PartialEq, Eq, Error)]
pub enum Stop {
    #[error("a question passes the limits of a system")]
    Past,
    #[error("out of memory")]
    Memory,
}

impl From<AllocError> for Stop {
    ghost use Rattle.std.specs.Prelude.{◌≡◌};
    ghost use Rattle.affc_check.specs.declared.list.stop.Stop.TheVariants.{Memory};

    ghost from_gives = { λ e stop. stop ≡ Memory };

    fn from(_e: AllocError) -> Stop {
        Stop::Memory
    }
}

/// Why the items of some parts aren't listed. Part 0 is the object with its keys; the trees and then the folds are numbered on
/// from 1.
#[derive(Debug, Clone, Copy, PartialEq, Eq, Error)]
pub enum PartStop {
    #[error("a question of part {0} passes the limits of a system")]
    Part(usize),
    #[error("out of memory")]
    Memory,
}

impl From<AllocError> for PartStop {
    ghost use Rattle.std.specs.Prelude.{◌≡◌};
    ghost use Rattle.affc_check.specs.declared.list.stop.PartStop.TheVariants.{Memory};

    ghost from_gives = { λ e stop. stop ≡ Memory };

    fn from(_e: AllocError) -> PartStop {
        PartStop::Memory
    }
}

/// What is said of the part with this number.
pub(crate) fn at_part(stop: Stop, part: usize) -> PartStop
    ensures { result ≡ part_stop stop part }
{
    match stop {
        Stop::Past => PartStop::Part(part),
        Stop::Memory => PartStop::Memory,
    }
}
