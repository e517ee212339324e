//! Why a line has no map, or a fold no basis.

use std::alloc::AllocError;
use thiserror::Error;

/// Why the inverse forms of a line don't undo its forms.
#[derive(Debug, Drop, Error)]
pub enum Lost {
    #[error("out of memory")]
    Memory,
    /// The number of the first inverse form that doesn't.
    #[error("the inverse form {0} doesn't undo the forms")]
    Component(u32),
}

impl From<AllocError> for Lost {
    ghost use Rattle.affc_plan.specs.declared.lost.Lost.TheVariants.{Memory};
    ghost use Rattle.std.specs.Prelude.{◌≡◌};

    ghost from_gives = { λ _ e. e ≡ Memory };

    fn from(_: AllocError) -> Lost {
        Lost::Memory
    }
}
