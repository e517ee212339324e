//! The temporaries of folded arrays.
ghost use Rattle.std.specs.Prelude.{◌≡◌, ◌≤◌, ◌<◌, ◌+◌, ◌++◌, ◌^◌, map, length, IfOk, Some};
ghost use Rattle.std.specs.List.{All};
ghost use Rattle.affc_ast.specs.declared.tree.ArrayId.{ArrayId};
ghost use Rattle.affc_basis.specs.declared.fold.Fold.{Fold};
ghost use Rattle.affc_basis.specs.Folds.{KeepsLimits, forms_of, fold_of};
ghost use Rattle.affc_rewrite.specs.Rewrite as specs;
ghost use Rattle.affc_rewrite.specs.Sizes.{IsPrintable, IsFolding};

use crate::components::printed;
use crate::left_whole::is_whole;
use crate::subscripts::{Folding, extents_of};
use affc_ast::Items;
use affc_ast::text::Text;
use affc_ast::tree::{ArrayId, Decl, Ix};
use affc_basis::{Fold, Modulus};
use affc_rows::Form;
use std::alloc::{AllocError, Global};

/// Adds the moduli as expressions.
#[tactic(auto, using(crate::proofs::Steps::one_more_modulus))]
fn add_moduli(
    alloc: Global,
    parameters: u32,
    moduli: &[Modulus],
    made: Items<Ix>,
) -> Result<Items<Ix>, AllocError>
    requires { All (IsPrintable parameters) (forms_of moduli.now) }
    ensures { IfOk result (λ x. x ≡ made ++ map (specs.printed parameters) (forms_of moduli.now)) }
{
    let mut made = made;
    match moduli {
        [] => Ok(made),
        [modulus, rest @ ..] => {
            made.push(printed(alloc, parameters, parameters, &modulus.form)?)?;
            add_moduli(alloc, parameters, rest, made)
        }
    }
}

/// The temporary with the moduli for extents.
#[tactic(auto, using(crate::proofs::Foldings::moduli_fit))]
fn with_moduli(alloc: Global, parameters: u32, fold: &Fold, decl: &Decl) -> Result<Decl, AllocError>
    requires limits { KeepsLimits parameters fold.now }
    requires few { parameters ≤ 4 }
    ensures { IfOk result (λ d. d ≡ specs.decl_by (Some fold.now) parameters decl.now) }
{
    let name = Text::from_str(alloc, decl.name.as_str())?;
    let extents = add_moduli(alloc, parameters, fold.moduli.as_slice(), Items::new(alloc))?;
    Ok(Decl {
        name,
        role: decl.role,
        extents,
    })
}

/// The temporary with these extents and a fold, which may leave it whole.
fn decl_at_work(
    alloc: Global,
    parameters: u32,
    fold: &Fold,
    extents: &[Form],
    decl: &Decl,
) -> Result<Decl, AllocError>
    requires limits { KeepsLimits parameters fold.now }
    requires few { parameters ≤ 4 }
    ensures { IfOk result (λ d. d ≡ specs.decl_by (specs.unless_whole extents.now (Some fold.now)) parameters decl.now) }
{
    if is_whole(alloc, extents, fold)? {
        decl.to_owned(alloc)
    } else {
        with_moduli(alloc, parameters, fold, decl)
    }
}

/// The temporary with this number and these extents, by these folds.
fn decl_by(
    alloc: Global,
    parameters: u32,
    folds: &[(ArrayId, Fold)],
    array: usize,
    extents: &[Form],
    decl: &Decl,
) -> Result<Decl, AllocError>
    requires limits { All (λ (g : ArrayId × Fold). KeepsLimits parameters g.1) folds.now }
    requires few { parameters ≤ 4 }
    ensures { IfOk result (λ d. d ≡ specs.decl_by (specs.unless_whole extents.now (fold_of folds.now array)) parameters decl.now) }
{
    match folds {
        [] => decl.to_owned(alloc),
        [(folded, fold), rest @ ..] => {
            if folded.0 as usize == array {
                decl_at_work(alloc, parameters, fold, extents, decl)
            } else {
                decl_by(alloc, parameters, rest, array, extents, decl)
            }
        }
    }
}

/// Adds temporaries, of which the first has this number.
#[tactic(auto, using(crate::proofs::Steps::one_more_decl))]
pub(crate) fn add_decls(
    alloc: Global,
    folding: &Folding<'_>,
    array: usize,
    decls: &[Decl],
    made: Items<Decl>,
) -> Result<Items<Decl>, AllocError>
    requires folding { IsFolding folding.now }
    requires numbers { array + length decls.now < 2 ^ 64 }
    ensures { IfOk result (λ x. x ≡ made ++ specs.decls_from folding.now.parameters (map (λ a. a.extents) folding.now.arrays.now) folding.now.folds.now array decls.now) }
{
    let mut made = made;
    match decls {
        [] => Ok(made),
        [decl, rest @ ..] => {
            let extents = extents_of(folding.arrays, array);
            made.push(decl_by(
                alloc,
                folding.parameters,
                folding.folds,
                array,
                extents,
                decl,
            )?)?;
            add_decls(alloc, folding, array + 1, rest, made)
        }
    }
}
