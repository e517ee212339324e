//! What ends the reading of names.

use affc_grammar::fault::NameWhy;
use std::alloc::AllocError;

/// What ends the reading of names.
#[derive(Clone, Copy)]
pub enum NameFault {
    Memory,
    /// The name whose token has this number, from 0.
    Refused { at: usize, why: NameWhy },
}

impl From<AllocError> for NameFault {
    ghost use Rattle.affc_names.specs.declared.fault.NameFault.TheVariants.{Memory};
    ghost use Rattle.std.specs.Prelude.{◌≡◌};

    ghost from_gives = { λ _ e. e ≡ Memory };

    fn from(_: AllocError) -> NameFault {
        NameFault::Memory
    }
}
