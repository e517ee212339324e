//! Plans of a compilation: a schedule and folds.

use affc_ast::tree::ArrayId;
use affc_basis::Basis;
use affc_trace::schedule::Schedule;
use sqlite_items::Items;
use std::alloc::AllocError;
use thiserror::Error;

/// In which order the instances run, and onto which bases arrays are folded, in the order of the text.
#[derive(Drop)]
pub struct Plan {
    pub schedule: Schedule,
    pub folds: Items<(ArrayId, Basis)>,
}

/// Why a text is no plan of a program, with the place in bytes.
#[derive(Debug, Drop, Error)]
pub enum SchedFault {
    #[error("out of memory")]
    Memory,
    /// No schedule goes on here, or the name may not stand here, or it is the `*` of a product of names.
    #[error("no schedule goes on at byte {0}")]
    Syntax(usize),
    /// The statement isn't there or has a line before; at the text's end one has none.
    #[error("the statement at byte {0} is wrong")]
    Statement(usize),
    /// The statement has another number of forms than the time's length.
    #[error("the number of forms of the statement at byte {0} is wrong")]
    Length(usize),
    /// The array is no temporary with as many dimensions, or has a fold before.
    #[error("the fold of the array at byte {0} is wrong")]
    Fold(usize),
    #[error("a limit is passed at byte {0}")]
    Limit(usize),
    /// An inverse form, with the time forms put in, isn't its iterator.
    #[error("the inverse form {component} of statement {statement} isn't its iterator")]
    Inverse { statement: u32, component: u32 },
    /// Rows and inverse forms don't multiply to the identity.
    #[error("the basis fails at component {component}")]
    Basis { array: ArrayId, component: u32 },
}

impl From<AllocError> for SchedFault {
    ghost use Rattle.affc_schedtext.specs.declared.plan.SchedFault.TheVariants.{Memory};
    ghost use Rattle.std.specs.Prelude.{◌≡◌};

    ghost from_gives = { λ _ e. e ≡ Memory };

    fn from(_: AllocError) -> SchedFault {
        SchedFault::Memory
    }
}
