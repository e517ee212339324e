//! Whether the folds of a certificate have the bases that a plan gives.
ghost use Rattle.std.specs.Prelude.{◌≡◌, ◌≤◌, ◌↔◌, IsTrue, length, IfOk, IfNone, IfSome, MatchOption, None, Some};
ghost use Rattle.affc_basis.specs.Listed.{shape_of};
ghost use Rattle.affc_life.specs.Folding.{given_for};
ghost use Rattle.affc_check.specs.list.Limits.{IsFirst};
ghost use Rattle.affc_accept.specs.Bases.{KeepBases, HasOther, identity};
ghost use Rattle.affc_accept.specs.Same as specs;

use affc_ast::tree::ArrayId;
use affc_basis::{Basis, listed};
use affc_cert::{CertFold, CertModulus};
use affc_nest::Nest;
use affc_rows::Form;
use std::alloc::{AllocError, Global};

// ---- Forms that are the same

fn same_form(f: &Form, g: &Form) -> bool
    ensures { result ≡ specs.same_form f.now g.now }
{
    f.constant == g.constant && f.coefs.as_slice() == g.coefs.as_slice()
}

// Whether two lists of forms are the same.
fn same_forms(forms: &[Form], others: &[Form]) -> bool
    ensures { result ≡ specs.same_forms forms.now others.now }
{
    match forms {
        [] => match others {
            [] => true,
            [_, ..] => false,
        },
        [form, forms @ ..] => match others {
            [] => false,
            [other, others @ ..] => same_form(form, other) && same_forms(forms, others),
        },
    }
}

fn same_shape(basis: &Basis, other: &Basis) -> bool
    ensures { result ≡ specs.same_shape (shape_of basis.now) (shape_of other.now) }
{
    same_forms(basis.rows.as_slice(), other.rows.as_slice())
        && same_forms(basis.inverse.as_slice(), other.inverse.as_slice())
}

// ---- Arrays that are left whole

// Whether moduli are these extents.
fn are_extents(moduli: &[CertModulus], extents: &[Form]) -> bool
    ensures { result ≡ specs.are_extents moduli.now extents.now }
{
    match moduli {
        [] => match extents {
            [] => true,
            [_, ..] => false,
        },
        [modulus, moduli @ ..] => match extents {
            [] => false,
            [extent, extents @ ..] => {
                same_form(&modulus.form, extent) && are_extents(moduli, extents)
            }
        },
    }
}

// How many rows a basis has.
fn rows_of(basis: &Basis) -> u32
    ensures value { result ≡ length basis.now.rows }
    ensures few { result ≤ 4 }
{
    basis.rows.as_slice().len() as u32
}

// Whether a basis is the identity, which is listed first.
#[tactic(auto, using(crate::proofs::Same::listed_first, crate::proofs::Same::some_listed))]
fn is_identity(alloc: Global, basis: &Basis) -> Result<bool, AllocError>
    ensures { IfOk result (λ is. is ≡ specs.is_identity (shape_of basis.now)) }
{
    let bases = listed(alloc, rows_of(basis))?;
    let Some(identity) = bases.get(0) else {
        unreachable!();
    };
    Ok(same_shape(basis, identity))
}

/// Whether two forms are the same.
#[tactic(auto, using(crate::proofs::Same::form_decides))]
pub fn is_same_form(f: &Form, g: &Form) -> bool
    ensures { IsTrue result ↔ (f.now ≡ g.now) }
{
    same_form(f, g)
}

/// Whether two bases are the same, rows and inverse forms.
pub fn is_same_basis(basis: &Basis, other: &Basis) -> bool
    ensures { IsTrue result ↔ (shape_of basis.now ≡ shape_of other.now) }
{
    same_shape(basis, other)
}

/// Whether a basis has the unit rows.
pub fn is_unit(alloc: Global, basis: &Basis) -> Result<bool, AllocError>
    ensures { IfOk result (λ is. IsTrue is ↔ (shape_of basis.now ≡ identity (length basis.now.rows))) }
{
    is_identity(alloc, basis)
}

// Whether a fold is that of an array left whole.
fn is_whole(alloc: Global, nest: &Nest, fold: &CertFold) -> Result<bool, AllocError>
    ensures { IfOk result (λ is. is ≡ specs.is_whole nest.now fold.now) }
{
    let Some(info) = nest.arrays.get(fold.array.0 as usize) else {
        return Ok(false);
    };
    if !are_extents(fold.moduli.as_slice(), info.extents.as_slice()) {
        return Ok(false);
    }
    is_identity(alloc, &fold.basis)
}

// ---- Given bases

// The basis that is given for an array of so many dimensions, if one is.
fn given(bases: &[(ArrayId, Basis)], array: ArrayId, dimensions: usize) -> Option<&Basis>
    ensures { MatchOption result (given_for bases.now array.0 dimensions ≡ None) (λ b. given_for bases.now array.0 dimensions ≡ Some (shape_of b.now)) }
{
    match bases {
        [] => None,
        [(of, basis), rest @ ..] => {
            if of.0 == array.0 && basis.rows.len() == dimensions {
                Some(basis)
            } else {
                given(rest, array, dimensions)
            }
        }
    }
}

// Whether a fold has the basis that is given for its array, or leaves the array whole.
fn keeps_basis(
    alloc: Global,
    nest: &Nest,
    bases: &[(ArrayId, Basis)],
    fold: &CertFold,
) -> Result<bool, AllocError>
    ensures { IfOk result (λ keeps. keeps ≡ specs.keeps_basis nest.now bases.now fold.now) }
{
    let Some(basis) = given(bases, fold.array, fold.basis.rows.len()) else {
        return Ok(true);
    };
    if same_shape(&fold.basis, basis) {
        return Ok(true);
    }
    is_whole(alloc, nest, fold)
}

/// The first fold that has neither the basis that is given for its array nor leaves the array whole.
#[tactic(auto, using(crate::proofs::Same::all_keep, crate::proofs::Same::first_is))]
pub fn first_other(
    alloc: Global,
    nest: &Nest,
    bases: &[(ArrayId, Basis)],
    folds: &[CertFold],
) -> Result<Option<usize>, AllocError>
    ensures kept { IfOk result (λ found. IfNone found (KeepBases nest.now bases.now folds.now)) }
    ensures first { IfOk result (λ found. IfSome found (IsFirst (HasOther nest.now bases.now) folds.now)) }
{
    for (number, fold) in folds.iter().enumerate() {
        if !keeps_basis(alloc, nest, bases, fold)? {
            return Ok(Some(number));
        }
    }
    Ok(None)
}
