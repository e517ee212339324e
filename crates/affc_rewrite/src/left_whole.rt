//! Arrays that their folds leave whole.
ghost use Rattle.std.specs.Prelude.{◌≡◌, ◌≤◌, ◌+◌, length, IfOk};
ghost use Rattle.std.specs.Cmp.Lexicographic.{pointwise};
ghost use Rattle.std.specs.List.{All};
ghost use Rattle.affc_basis.specs.Folds.{forms_of};
ghost use Rattle.affc_rows.specs.Forms.{Affine};
ghost use Rattle.affc_rewrite.specs.Rewrite as specs;

use crate::components::{is_unit, same};
use affc_basis::{Fold, Modulus};
use affc_rows::Form;
use std::alloc::{AllocError, Global};

/// Whether moduli are these extents.
fn are_extents(moduli: &[Modulus], extents: &[Form]) -> bool
    ensures { result ≡ pointwise specs.same_form (forms_of moduli.now) extents.now }
{
    match moduli {
        [] => match extents {
            [] => true,
            [_, ..] => false,
        },
        [modulus, moduli @ ..] => match extents {
            [] => false,
            [extent, extents @ ..] => same(&modulus.form, extent) && are_extents(moduli, extents),
        },
    }
}

/// Whether rows over so many dimensions are the unit rows, from the `k`-th on.
fn are_units(alloc: Global, dimensions: u32, k: u32, rows: &[Form]) -> Result<bool, AllocError>
    requires columns { All (λ (f : Affine). length f.coefs ≡ dimensions) rows.now }
    requires few { k + length rows.now ≤ 4 }
    ensures { IfOk result (λ b. b ≡ specs.are_units k rows.now) }
{
    match rows {
        [] => Ok(true),
        [row, rows @ ..] => {
            Ok(is_unit(alloc, dimensions, k, row)? && are_units(alloc, dimensions, k + 1, rows)?)
        }
    }
}

/// Whether a fold leaves an array of these extents whole.
pub(crate) fn is_whole(alloc: Global, extents: &[Form], fold: &Fold) -> Result<bool, AllocError>
    ensures { IfOk result (λ b. b ≡ specs.is_whole extents.now fold.now) }
{
    let rows = fold.basis.rows.as_slice();
    Ok(
        are_extents(fold.moduli.as_slice(), extents)
            && are_units(alloc, rows.len() as u32, 0, rows)?,
    )
}
