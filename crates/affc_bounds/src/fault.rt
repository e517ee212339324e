//! What is wrong with a program.

use affc_ast::tree::{ArrayId, Instance};
use affc_split::Stop;
use sqlite_items::Items;
use std::alloc::AllocError;
use thiserror::Error;

/// What is wrong with a program, whatever its data.
#[derive(Debug, Drop, Error)]
pub enum MeaningFault {
    /// By the interval rule, a loop that is entered has a range with an end past `2^31` in magnitude: the first such
    /// loop round the first such statement, counted among the loops round it from the outermost, which is 0.
    #[error("the range of loop {loop_number} round statement {statement} passes 2^31")]
    IteratorRange {
        statement: u32,
        loop_number: u32,
    },
    #[error("no value of the parameters is in the context")]
    Context,
    /// An extent of the array is below 1 at `p`, the values of the number parameters.
    #[error("an extent of array {} is below 1", .array.0)]
    Extent {
        array: ArrayId,
        p: Items<i64>,
    },
    /// An access of the instance lies outside its array at `p`. Accesses are the loads in the order of the text, from
    /// 0, and then the store.
    #[error("access {access} lies outside array {}", .array.0)]
    Bounds {
        array: ArrayId,
        access: u32,
        p: Items<i64>,
        instance: Instance,
    },
}

/// Why there is no answer.
#[derive(Debug, Drop, Error)]
pub enum Halt {
    #[error("{0}")]
    Meaning(MeaningFault),
    #[error("the budget is spent")]
    Budget,
    #[error("out of memory")]
    Memory,
}

impl From<Stop> for Halt {
    ghost use Rattle.std.specs.Prelude.{◌≡◌};
    ghost use Rattle.affc_bounds.specs.Faults.{halt_of};

    ghost from_gives = { λ stop h. h ≡ halt_of stop };

    fn from(stop: Stop) -> Halt {
        match stop {
            Stop::Budget => Halt::Budget,
            Stop::Memory => Halt::Memory,
        }
    }
}

impl From<AllocError> for Halt {
    ghost use Rattle.std.specs.Prelude.{◌≡◌};
    ghost use Rattle.affc_bounds.specs.declared.fault.Halt.TheVariants.{Memory};

    ghost from_gives = { λ e h. h ≡ Memory };

    fn from(_e: AllocError) -> Halt {
        Halt::Memory
    }
}
