//! The subscripts of arrays with folds.
ghost use Rattle.std.specs.Prelude.{◌≡◌, ◌≤◌, length, map, get_or, [], Some, IfOk, IsTrue};
ghost use Rattle.std.specs.List.{All};
ghost use Rattle.affc_ast.specs.declared.tree.ArrayId.{ArrayId};
ghost use Rattle.affc_domain.specs.Affine.{form_of};
ghost use Rattle.affc_domain.specs.Plain.{all_plain};
ghost use Rattle.affc_basis.specs.declared.fold.Fold.{Fold};
ghost use Rattle.affc_basis.specs.Folds.{KeepsLimits, forms_of, fold_of};
ghost use Rattle.affc_rewrite.specs.Rewrite as specs;
ghost use Rattle.affc_rewrite.specs.Sizes.{IsFolding, at};

use crate::components::{Access, add_components};
use crate::forms::forms;
use crate::left_whole::is_whole;
use affc_ast::Items;
use affc_ast::copies::all as copies;
use affc_ast::tree::{ArrayId, Ix};
use affc_basis::Fold;
use affc_nest::ArrayInfo;
use affc_rows::Form;
use std::alloc::{AllocError, Global};

/// Folds of a program, of which so many parameters are the first names in sight, with its arrays.
#[derive(Clone, Copy, Drop)]
pub(crate) struct Folding<'a> {
    pub parameters: u32,
    pub arrays: &'a [ArrayInfo],
    pub folds: &'a [(ArrayId, Fold)],
}

/// The components of places, where there are as many subscripts as rows.
#[tactic(auto, using(crate::proofs::Foldings::access_fits, crate::proofs::Foldings::rows_fit, crate::proofs::Foldings::moduli_fit))]
fn by_rows(
    alloc: Global,
    parameters: u32,
    names: u32,
    fold: &Fold,
    extents: &[Form],
    subs: &[Ix],
) -> Result<Items<Ix>, AllocError>
    requires limits { KeepsLimits parameters fold.now }
    requires few { parameters ≤ 4 }
    requires behind { parameters ≤ names }
    requires short { names ≤ 16 }
    requires plain { IsTrue (all_plain names subs.now) }
    requires some { 1 ≤ length subs.now }
    requires same { length subs.now ≡ length fold.now.basis.rows }
    ensures { IfOk result (λ x. x ≡ specs.components_from parameters (map (form_of names 0) subs.now) 0 fold.now.basis.rows (forms_of fold.now.moduli) extents.now subs.now) }
{
    let forms = forms(alloc, names, subs)?;
    let access = Access {
        parameters,
        names,
        forms: forms.as_slice(),
    };
    let rows = fold.basis.rows.as_slice();
    let moduli = fold.moduli.as_slice();
    let made = Items::new(alloc);
    add_components(alloc, &access, 0, rows, moduli, extents, subs, made)
}

/// The subscripts of an array with a fold.
#[tactic(auto, using(crate::proofs::Choices::rows_used, crate::proofs::Choices::none_used, crate::proofs::Choices::own_kept))]
fn by_fold(
    alloc: Global,
    parameters: u32,
    names: u32,
    fold: &Fold,
    extents: &[Form],
    subs: &[Ix],
) -> Result<Items<Ix>, AllocError>
    requires limits { KeepsLimits parameters fold.now }
    requires few { parameters ≤ 4 }
    requires behind { parameters ≤ names }
    requires short { names ≤ 16 }
    requires plain { IsTrue (all_plain names subs.now) }
    ensures { IfOk result (λ x. x ≡ specs.subscripts_by (Some fold.now) parameters names extents.now subs.now) }
{
    if subs.is_empty() {
        Ok(Items::new(alloc))
    } else if subs.len() == fold.basis.rows.as_slice().len() {
        by_rows(alloc, parameters, names, fold, extents, subs)
    } else {
        copies(alloc, subs)
    }
}

/// The subscripts of an array with a fold, which may leave it whole.
fn by_work(
    alloc: Global,
    parameters: u32,
    names: u32,
    fold: &Fold,
    extents: &[Form],
    subs: &[Ix],
) -> Result<Items<Ix>, AllocError>
    requires limits { KeepsLimits parameters fold.now }
    requires few { parameters ≤ 4 }
    requires behind { parameters ≤ names }
    requires short { names ≤ 16 }
    requires plain { IsTrue (all_plain names subs.now) }
    ensures { IfOk result (λ x. x ≡ specs.subscripts_by (specs.unless_whole extents.now (Some fold.now)) parameters names extents.now subs.now) }
{
    if is_whole(alloc, extents, fold)? {
        copies(alloc, subs)
    } else {
        by_fold(alloc, parameters, names, fold, extents, subs)
    }
}

/// The subscripts of an array, by these folds.
fn by_folds(
    alloc: Global,
    parameters: u32,
    names: u32,
    folds: &[(ArrayId, Fold)],
    array: ArrayId,
    extents: &[Form],
    subs: &[Ix],
) -> Result<Items<Ix>, AllocError>
    requires limits { All (λ (g : ArrayId × Fold). KeepsLimits parameters g.1) folds.now }
    requires few { parameters ≤ 4 }
    requires behind { parameters ≤ names }
    requires short { names ≤ 16 }
    requires plain { IsTrue (all_plain names subs.now) }
    ensures { IfOk result (λ x. x ≡ specs.subscripts_by (specs.unless_whole extents.now (fold_of folds.now array.0)) parameters names extents.now subs.now) }
{
    match folds {
        [] => copies(alloc, subs),
        [(folded, fold), rest @ ..] => {
            if folded.0 == array.0 {
                by_work(alloc, parameters, names, fold, extents, subs)
            } else {
                by_folds(alloc, parameters, names, rest, array, extents, subs)
            }
        }
    }
}

/// The extents of an array; of one that isn't declared none.
pub(crate) fn extents_of<'a>(arrays: &'a [ArrayInfo], array: usize) -> &'a [Form]
    ensures { result.now ≡ get_or (map (λ a. a.extents) arrays.now) array [] }
{
    match arrays.get(array) {
        Some(info) => info.extents.as_slice(),
        None => &[],
    }
}

/// The subscripts that come in place of these, where so many names are in sight.
pub(crate) fn subscripts(
    alloc: Global,
    folding: &Folding<'_>,
    names: u32,
    array: ArrayId,
    subs: &[Ix],
) -> Result<Items<Ix>, AllocError>
    requires folding { IsFolding folding.now }
    requires behind { folding.now.parameters ≤ names }
    requires short { names ≤ 16 }
    requires plain { IsTrue (all_plain names subs.now) }
    ensures { IfOk result (λ x. x ≡ at folding.now names array subs.now) }
{
    let extents = extents_of(folding.arrays, array.0 as usize);
    by_folds(
        alloc,
        folding.parameters,
        names,
        folding.folds,
        array,
        extents,
        subs,
    )
}
