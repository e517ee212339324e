//! Why a run is stuck, and why it stops.
use std::alloc::{AllocError, AllocFailed};

/// Why a run is stuck: the number of the array, of the access in the instance that was begun last, or of
/// the node.
#[derive(Clone, Copy)]
pub enum Fault {
    Extent(u32),
    OutOfBounds(u32),
    Unwritten(u32),
    Overflow(u32),
}

impl From<u32> for Fault {
    ghost use Rattle.std.specs.Prelude.{◌≡◌};
    ghost use Rattle.affc_interp.specs.declared.fault.Fault.TheVariants.{Overflow};

    ghost from_gives = { λ node fault. fault ≡ Overflow node };

    fn from(node: u32) -> Fault {
        Fault::Overflow(node)
    }
}

/// Why a run stops before its end.
#[derive(Clone, Copy)]
pub enum Halt {
    Fault(Fault),
    Steps,
    Memory,
}

impl From<u32> for Halt {
    ghost use Rattle.std.specs.Prelude.{◌≡◌};
    ghost use Rattle.affc_interp.specs.declared.fault.Fault.TheVariants.{Overflow};
    ghost use Rattle.affc_interp.specs.declared.fault.Halt.TheVariants as halt;

    ghost from_gives = { λ node h. h ≡ halt.Fault (Overflow node) };

    fn from(node: u32) -> Halt {
        Halt::Fault(Fault::Overflow(node))
    }
}

impl From<Fault> for Halt {
    ghost use Rattle.std.specs.Prelude.{◌≡◌};
    ghost use Rattle.affc_interp.specs.declared.fault.Halt.TheVariants as halt;

    ghost from_gives = { λ f h. h ≡ halt.Fault f };

    fn from(fault: Fault) -> Halt {
        Halt::Fault(fault)
    }
}

impl From<AllocError> for Halt {
    ghost use Rattle.std.specs.Prelude.{◌≡◌};
    ghost use Rattle.affc_interp.specs.declared.fault.Halt.TheVariants.{Memory};

    ghost from_gives = { λ e h. h ≡ Memory };

    fn from(_e: AllocError) -> Halt {
        Halt::Memory
    }
}

impl<T: Drop> From<AllocFailed<T>> for Halt {
    ghost use Rattle.std.specs.Prelude.{◌≡◌};
    ghost use Rattle.affc_interp.specs.declared.fault.Halt.TheVariants.{Memory};

    ghost from_gives = { λ e h. h ≡ Memory };

    fn from(_e: AllocFailed<T>) -> Halt {
        Halt::Memory
    }
}
