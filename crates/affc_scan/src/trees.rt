//! Expressions of a source where more names stand in sight.
ghost use Rattle.std.specs.Prelude.{◌≡◌, ◌≤◌, IfOk, true};
ghost use Rattle.affc_loops.specs.Trees.{moved_name, moved};
ghost use Rattle.affc_scan.specs.InSight.{in_sight};

use crate::operators::{Shape, shape_of, with_one, with_two};
use affc_ast::tree::{Ix, NameId};
use std::alloc::{AllocError, Global};

fn moved_id(first: u32, more: u32, id: u32) -> NameId
    requires seen { id ≤ 1024 }
    requires few { more ≤ 1024 }
    ensures { result.0 ≡ moved_name first more id }
{
    if id < first {
        NameId(id)
    } else {
        NameId(id + more)
    }
}

/// The expression where so many more names stand behind the first ones.
#[tactic(auto, using(affc_ast::proofs::Outs::ix_outs))]
pub(crate) fn moved_ix(alloc: Global, first: u32, more: u32, e: &Ix) -> Result<Ix, AllocError>
    requires few { more ≤ 1024 }
    requires seen { in_sight e.now ≡ true }
    ensures { IfOk result (λ x. x ≡ moved first more e.now) }
{
    match shape_of(e) {
        Shape::Number(n) => Ok(Ix::Lit(n)),
        Shape::Name(id) => Ok(Ix::Name(moved_id(first, more, id.0))),
        Shape::One(operator, a) => {
            let a = moved_ix(alloc, first, more, a)?;
            with_one(alloc, operator, a)
        }
        Shape::Two(operator, a, b) => {
            let a = moved_ix(alloc, first, more, a)?;
            let b = moved_ix(alloc, first, more, b)?;
            with_two(alloc, operator, a, b)
        }
    }
}
