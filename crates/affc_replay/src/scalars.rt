//! The folds of temporaries without dimensions, of which a certificate says nothing.
ghost use Rattle.std.specs.Prelude.{◌≡◌, ◌++◌, ◌&&◌, [], length, nat_eq, OnOk};
ghost use Rattle.affc_flow.specs.Questions.{is_temp};
ghost use Rattle.affc_replay.specs.Scalars.{scalar_if, HasScalars};

use affc_ast::tree::{ArrayId, Role};
use affc_basis::Fold;
use affc_basis::basis::given;
use affc_nest::ArrayInfo;
use sqlite_items::Items;
use std::alloc::{AllocError, Global};

// The fold without rows.
fn empty_fold(alloc: Global) -> Fold
    ensures { result.basis.rows ≡ [] }
{
    match given(Items::new(alloc), Items::new(alloc)) {
        Ok(basis) => Fold {
            basis,
            moduli: Items::new(alloc),
        },
        Err(_broken) => unreachable!(),
    }
}

// Whether an array is a temporary without dimensions.
fn is_scalar(info: &ArrayInfo) -> bool
    ensures { result ≡ (is_temp info.now.role && nat_eq (length info.now.extents) 0) }
{
    match info.role {
        Role::Temp => info.extents.as_slice().is_empty(),
        Role::Input => false,
        Role::Output => false,
    }
}

// Adds the fold of the array with this number, if it is such a one.
fn add_scalar(
    array: u32,
    info: &ArrayInfo,
    fold: Fold,
    out: &mut Vec<(ArrayId, Fold)>,
) -> Result<(), AllocError>
    ensures { OnOk result (out.new.items ≡ out.old.items ++ scalar_if (is_temp info.now.role && nat_eq (length info.now.extents) 0) array fold) }
{
    if is_scalar(info) {
        out.push((ArrayId(array), fold))?;
    }
    Ok(())
}

/// Adds the empty folds of the temporaries without dimensions among these arrays, which have the numbers from this one on. Past
/// 2^32 arrays there is no memory for them.
pub(crate) fn add_scalars(
    alloc: Global,
    first: u32,
    arrays: &[ArrayInfo],
    out: &mut Vec<(ArrayId, Fold)>,
) -> Result<(), AllocError>
    ensures { OnOk result (HasScalars first arrays.now out.old.items out.new.items) }
{
    match arrays {
        [] => Ok(()),
        [info, rest @ ..] => {
            let fold = empty_fold(alloc);
            add_scalar(first, info, fold, out)?;
            let Some(next) = first.checked_add(1) else {
                return Err(AllocError);
            };
            add_scalars(alloc, next, rest, out)
        }
    }
}
