//! Why there are no trees.

use affc_ast::tree::{ArrayId, Instance};
use affc_split::Stop;
use sqlite_items::Items;
use std::alloc::AllocError;
use thiserror::Error;

/// Why there are no trees of all loads.
#[derive(Debug, Drop, Error)]
pub enum FlowStop {
    /// At `p`, the values of the number parameters, this load of the instance, counted from 0, is of an element of this
    /// temporary that no instance before stores.
    #[error("load {access} of statement {} reads what nothing stores", instance.statement)]
    Unwritten {
        array: ArrayId,
        access: u32,
        p: Items<i64>,
        instance: Instance,
    },
    #[error("the budget is spent")]
    Budget,
    #[error("out of memory")]
    Memory,
}

impl From<Stop> for FlowStop {
    ghost use Rattle.std.specs.Prelude.{◌≡◌};
    ghost use Rattle.affc_dataflow.specs.Unwritten.{stop_of};

    ghost from_gives = { λ stop s. s ≡ stop_of stop };

    fn from(stop: Stop) -> FlowStop {
        match stop {
            Stop::Budget => FlowStop::Budget,
            Stop::Memory => FlowStop::Memory,
        }
    }
}

impl From<AllocError> for FlowStop {
    ghost use Rattle.std.specs.Prelude.{◌≡◌};
    ghost use Rattle.affc_dataflow.specs.declared.stop.FlowStop.TheVariants.{Memory};

    ghost from_gives = { λ e s. s ≡ Memory };

    fn from(_e: AllocError) -> FlowStop {
        FlowStop::Memory
    }
}
