//! The bases that are tried for an array.
ghost use Rattle.std.specs.Prelude.{◌≡◌, ◌≤◌, IfOk, length, map};
ghost use Rattle.std.specs.List.{All};
ghost use Rattle.affc_basis.specs.Listed.{shape_of, linear, listing, shapes_of, IsBasis};

use crate::basis::{Basis, given};
use affc_rows::Form;
use smallvec::SmallVec;
use sqlite_items::Items;
use std::alloc::{AllocError, Global};

/// The forms with these coefficients and without constants.
#[tactic(auto, using(std::proofs::lemmas::List::map_more))]
fn forms<const N: usize>(alloc: Global, rows: &[[i128; N]]) -> Result<Items<Form>, AllocError>
    ensures { IfOk result (λ fs. fs ≡ map linear rows.now) }
{
    let mut forms = Items::new(alloc);
    for row in rows {
        let coefs = SmallVec::from_slice(alloc, row)?;
        forms.push(Form { coefs, constant: 0 })?;
    }
    Ok(forms)
}

/// The basis with these coefficients.
fn basis<const N: usize>(
    alloc: Global,
    rows: &[[i128; N]],
    inverse: &[[i128; N]],
) -> Result<Basis, AllocError>
    requires { IsBasis N (record { rows = map linear rows.now; inverse = map linear inverse.now }) }
    ensures { IfOk result (λ b. shape_of b ≡ record { rows = map linear rows.now; inverse = map linear inverse.now }) }
{
    let rows = forms(alloc, rows)?;
    let inverse = forms(alloc, inverse)?;
    match given(rows, inverse) {
        Ok(basis) => Ok(basis),
        Err(_broken) => unreachable!(),
    }
}

/// The bases whose coefficients stand in two lists, side by side.
#[tactic(auto, using(crate::proofs::ListedBases::one_shape_more, crate::proofs::ListedBases::all_shapes))]
fn bases<const N: usize>(
    alloc: Global,
    rows: &[[[i128; N]; N]],
    inverses: &[[[i128; N]; N]],
) -> Result<Items<Basis>, AllocError>
    requires few { N ≤ 4 }
    requires one_each { length inverses.now ≡ length rows.now }
    requires are_bases { All (IsBasis N) (shapes_of rows.now inverses.now) }
    ensures { IfOk result (λ bs. map shape_of bs ≡ shapes_of rows.now inverses.now) }
{
    let mut bases = Items::new(alloc);
    for i in 0..rows.len() {
        bases.push(basis(alloc, &rows[i], &inverses[i])?)?;
    }
    Ok(bases)
}

/// The bases of two dimensions.
fn of_two(alloc: Global) -> Result<Items<Basis>, AllocError>
    ensures { IfOk result (λ bs. map shape_of bs ≡ listing 2) }
{
    let rows = [
        [[1, 0], [0, 1]],
        [[0, 1], [1, 0]],
        [[1, 1], [0, 1]],
        [[1, -1], [0, 1]],
        [[1, 2], [0, 1]],
        [[1, -2], [0, 1]],
        [[2, 1], [1, 0]],
        [[2, -1], [1, 0]],
    ];
    let inverses = [
        [[1, 0], [0, 1]],
        [[0, 1], [1, 0]],
        [[1, -1], [0, 1]],
        [[1, 1], [0, 1]],
        [[1, -2], [0, 1]],
        [[1, 2], [0, 1]],
        [[0, 1], [1, -2]],
        [[0, 1], [-1, 2]],
    ];
    bases(alloc, &rows, &inverses)
}

/// The bases of three dimensions.
fn of_three(alloc: Global) -> Result<Items<Basis>, AllocError>
    ensures { IfOk result (λ bs. map shape_of bs ≡ listing 3) }
{
    let rows = [
        [[1, 0, 0], [0, 1, 0], [0, 0, 1]],
        [[1, 0, 0], [0, 0, 1], [0, 1, 0]],
        [[0, 1, 0], [1, 0, 0], [0, 0, 1]],
        [[0, 1, 0], [0, 0, 1], [1, 0, 0]],
        [[0, 0, 1], [1, 0, 0], [0, 1, 0]],
        [[0, 0, 1], [0, 1, 0], [1, 0, 0]],
    ];
    let inverses = [
        [[1, 0, 0], [0, 1, 0], [0, 0, 1]],
        [[1, 0, 0], [0, 0, 1], [0, 1, 0]],
        [[0, 1, 0], [1, 0, 0], [0, 0, 1]],
        [[0, 0, 1], [1, 0, 0], [0, 1, 0]],
        [[0, 1, 0], [0, 0, 1], [1, 0, 0]],
        [[0, 0, 1], [0, 1, 0], [1, 0, 0]],
    ];
    bases(alloc, &rows, &inverses)
}

/// The bases that are tried for an array of so many dimensions, in their order.
pub fn listed(alloc: Global, dimensions: u32) -> Result<Items<Basis>, AllocError>
    requires { dimensions ≤ 4 }
    ensures { IfOk result (λ bs. map shape_of bs ≡ listing dimensions) }
{
    match dimensions {
        0 => bases::<0>(alloc, &[[]], &[[]]),
        1 => bases(alloc, &[[[1]]], &[[[1]]]),
        2 => of_two(alloc),
        3 => of_three(alloc),
        _ => {
            let identity = [[1, 0, 0, 0], [0, 1, 0, 0], [0, 0, 1, 0], [0, 0, 0, 1]];
            bases(alloc, &[identity], &[identity])
        }
    }
}
