//! Bases that are given, and copies of bases.
ghost use Rattle.std.specs.Prelude.{◌≡◌, IfOk, IfSome, option_map, length};
ghost use Rattle.affc_basis.specs.Listed.{shape_of};
ghost use Rattle.affc_folds.specs.Folding.{given_for};

use affc_ast::tree::ArrayId;
use affc_basis::Basis;
use affc_basis::basis::given;
use affc_rows::vocabulary::copies;
use sqlite_items::Items;
use std::alloc::{AllocError, Global};

/// A copy of a basis.
#[tactic(auto, using(affc_life::proofs::BasisLemmas::copy_square, affc_life::proofs::BasisLemmas::copy_bounds, affc_life::proofs::BasisLemmas::same_shape))]
pub(crate) fn copy_of_basis(alloc: Global, basis: &Basis) -> Result<Basis, AllocError>
    ensures shape { IfOk result (λ b. shape_of b ≡ shape_of basis.now) }
    ensures rows { IfOk result (λ b. b.rows ≡ basis.now.rows) }
{
    let rows = Items::from_vec(copies(alloc, basis.rows.as_slice())?);
    let inverse = Items::from_vec(copies(alloc, basis.inverse.as_slice())?);
    match given(rows, inverse) {
        Ok(basis) => Ok(basis),
        Err(_broken) => unreachable!(),
    }
}

/// The basis that is given for an array, if one is.
#[tactic(auto, using(affc_life::proofs::BasisLemmas::taken, affc_life::proofs::BasisLemmas::passed))]
pub(crate) fn given_basis(
    alloc: Global,
    bases: &[(ArrayId, Basis)],
    array: ArrayId,
    dimensions: u32,
) -> Result<Option<Basis>, AllocError>
    ensures basis { IfOk result (λ found. given_for bases.now array.0 dimensions ≡ option_map shape_of found) }
    ensures rows { IfOk result (λ found. IfSome found (λ b. length b.rows ≡ dimensions)) }
{
    match bases {
        [] => Ok(None),
        [(of, basis), rest @ ..] => {
            if of.0 == array.0 && basis.rows.len() == dimensions as usize {
                Ok(Some(copy_of_basis(alloc, basis)?))
            } else {
                given_basis(alloc, rest, array, dimensions)
            }
        }
    }
}
