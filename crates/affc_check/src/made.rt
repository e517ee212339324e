//! The folds that a certificate says, with their marks.
ghost use Rattle.std.specs.Prelude.{◌≡◌, ◌≤◌, ◌++◌, List, Some, map, length, IfOk, OnOk};
ghost use Rattle.std.specs.List.{All};
ghost use Rattle.affc_rows.specs.Forms.{value, values_of};
ghost use Rattle.affc_system.specs.Pairs.{IsSubscript};
ghost use Rattle.affc_system.specs.Systems.{FitsRow};
ghost use Rattle.affc_sched.specs.Touched.{Each};
ghost use Rattle.affc_certvalue.specs.Limits.{IsWord};
ghost use Rattle.affc_questions.specs.Asked.{IsAlong};
ghost use Rattle.affc_check.specs.list.Certs.{least_said, modulus_said, IsFoldSaid};
ghost use Rattle.affc_check.specs.list.Items.{FoldShown, elements_at, pair_of, mark_of, moduli_of};
ghost use Rattle.affc_check.specs.Laws.{IsFoldShown};
ghost use Rattle.affc_check.specs.list.Walks.{clash_systems, IsFoldAsked};
ghost use Rattle.affc_check.specs.Walked.{AreAllAlong, AreRowsAlong, StandsFor, IsSetting, clashes_in};
ghost use Rattle.affc_life.specs.Clashes.{clash_of};
ghost use Rattle.affc_life.specs.Sizes.{AnyLarge};
ghost use Rattle.affc_quast.specs.Seen.{trees_of};
ghost use Rattle.affc_system.specs.declared.pairs.PairSystem.{PairSystem};
ghost use Rattle.affc_check.specs.Made.{AreMade, AreWordsAt, IsPairFit, IsMarkFit, MarkFits, RowsFit, FoldFits};

use crate::checks::Looked;
use crate::fold_looks::{Setting, first_sought, keep, walk_array};
use crate::list::shown::{Along, system_at};
use crate::list::stop::Stop;
use crate::walks::{Carried, Sought};
use affc_ast::tree::ArrayId;
use affc_basis::Basis;
use affc_basis::basis::given;
use affc_basis::fold::{Fold, Mark, Modulus};
use affc_certvalue::fold::fold::{CertFold, CertLeast, CertModulus};
use affc_nest::lists::copied;
use affc_questions::is_behind;
use affc_rows::Form;
use affc_system::PairSystem;
use affc_system::system::value_at;
use sqlite_items::Items;
use std::alloc::{AllocError, Global};

/// The value of a subscript at a point.
fn subscript_at(form: &Form, point: &[i64]) -> i64
    requires fits { FitsRow form.now }
    requires few { length point.now ≤ 128 }
    requires width { length form.now.coefs ≡ length point.now }
    requires word { IsWord (value form.now point.now) }
    ensures { result ≡ value form.now point.now }
{
    value_at(form, point) as i64
}

/// Adds the values of these subscripts at a point.
fn add_values(forms: &[Form], point: &[i64], out: &mut Items<i64>) -> Result<(), AllocError>
    requires few { length point.now ≤ 128 }
    requires subscripts { All (IsSubscript (length point.now)) forms.now }
    requires words { All (λ f. IsWord (value f point.now)) forms.now }
    ensures { OnOk result (out.new ≡ out.old ++ values_of forms.now point.now) }
{
    match forms {
        [] => Ok(()),
        [form, rest @ ..] => {
            out.push(subscript_at(form, point))?;
            add_values(rest, point, out)
        }
    }
}

/// The element at which these subscripts point.
fn element(alloc: Global, forms: &[Form], point: &[i64]) -> Result<Items<i64>, AllocError>
    requires few { length point.now ≤ 128 }
    requires subscripts { All (IsSubscript (length point.now)) forms.now }
    requires words { All (λ f. IsWord (value f point.now)) forms.now }
    ensures { IfOk result (λ x. x ≡ values_of forms.now point.now) }
{
    let mut out = Items::new(alloc);
    add_values(forms, point, &mut out)?;
    Ok(out)
}

/// The two elements of a clash system at a point, the second at least as far along the row.
fn elements(
    alloc: Global,
    along: &Along<'_>,
    pair: &PairSystem,
    point: &[i64],
) -> Result<(Items<i64>, Items<i64>), AllocError>
    requires along { IsAlong along.now.rows.now along.now.row.now along.now.modulus.now pair.now }
    requires words { AreWordsAt pair.now point.now }
    ensures { IfOk result (λ e. elements_at along.now.row.now point.now (Some pair.now) ≡ Some e) }
{
    let _columns = pair.system.columns();
    let x = element(alloc, pair.x.as_slice(), point)?;
    let y = element(alloc, pair.y.as_slice(), point)?;
    if is_behind(alloc, along.row, pair, point)? {
        Ok((x, y))
    } else {
        Ok((y, x))
    }
}

/// The pair that a certificate shows.
fn pair_said(
    alloc: Global,
    along: &Along<'_>,
    pair: &Option<(i64, Items<i64>)>,
) -> Result<Option<(Items<i64>, Items<i64>)>, AllocError>
    requires along { Each (IsAlong along.now.rows.now along.now.row.now along.now.modulus.now) (clash_systems along.now.systems.now) }
    requires fits { IsPairFit (clash_systems along.now.systems.now) pair.now }
    ensures { IfOk result (λ p. p ≡ pair_of (clash_systems along.now.systems.now) along.now.row.now pair.now) }
{
    let Some((number, point)) = pair else {
        return Ok(None);
    };
    let Some(found) = system_at(alloc, along.systems, *number)? else {
        return Ok(None);
    };
    let both = elements(alloc, along, &found.product.base, point.as_slice())?;
    Ok(Some(both))
}

/// The mark of a modulus.
fn mark(alloc: Global, along: &Along<'_>, least: &Option<CertLeast>) -> Result<Mark, AllocError>
    requires along { Each (IsAlong along.now.rows.now along.now.row.now along.now.modulus.now) (clash_systems along.now.systems.now) }
    requires fits { IsMarkFit (clash_systems along.now.systems.now) (least_said least.now) }
    ensures { IfOk result (λ m. m ≡ mark_of (clash_systems along.now.systems.now) along.now.row.now (least_said least.now)) }
{
    let Some(least) = least else {
        return Ok(Mark::Bound);
    };
    let p = Items::from_slice(alloc, least.p.as_slice())?;
    let pair = pair_said(alloc, along, &least.pair)?;
    Ok(Mark::Least { p, pair })
}

/// Where a walk over an array's clash systems comes to that seeks the one of what shows that a modulus is least.
fn sought_in(
    alloc: Global,
    of: &Setting<'_>,
    array: ArrayId,
    least: &Option<CertLeast>,
) -> Result<Sought, AllocError>
    requires setting { IsSetting of.now }
    requires fits { ¬ (AnyLarge (clashes_in of.now array)) }
    ensures { IfOk result (λ s. StandsFor least.now s (clashes_in of.now array)) }
{
    let start = Carried {
        looked: Looked::Unproved(0),
        sought: first_sought(least),
    };
    let walked = match walk_array(alloc, of, array, None, start) {
        Ok(walked) => walked,
        Err(Stop::Past) => unreachable!(),
        Err(Stop::Memory) => return Err(AllocError),
    };
    let Carried { looked: _, sought } = walked;
    Ok(sought)
}

/// The mark of a modulus of an array's fold.
fn mark_said(
    alloc: Global,
    of: &Setting<'_>,
    array: ArrayId,
    along: &Along<'_>,
    least: &Option<CertLeast>,
) -> Result<Mark, AllocError>
    requires setting { IsSetting of.now }
    requires fits { ¬ (AnyLarge (clashes_in of.now array)) }
    requires along { AreAllAlong along.now.rows.now along.now.row.now along.now.modulus.now (clashes_in of.now array) }
    requires fit { MarkFits (clashes_in of.now array) (least_said least.now) }
    ensures { IfOk result (λ m. (ss : List PairSystem) → map clash_of ss ≡ clashes_in of.now array → m ≡ mark_of ss along.now.row.now (least_said least.now)) }
{
    match least {
        None => Ok(Mark::Bound),
        Some(shown) => {
            let sought = sought_in(alloc, of, array, least)?;
            let kept = keep(alloc, shown, sought)?;
            let beside = Along {
                nest: along.nest,
                systems: kept.products.as_slice(),
                rows: along.rows,
                k: along.k,
                row: along.row,
                modulus: along.modulus,
            };
            mark(alloc, &beside, &kept.least)
        }
    }
}

/// Adds the moduli of these rows.
fn add_moduli(
    alloc: Global,
    of: &Setting<'_>,
    array: ArrayId,
    rows: &[Form],
    more: &[Form],
    moduli: &[CertModulus],
    out: &mut Items<Modulus>,
) -> Result<(), AllocError>
    requires setting { IsSetting of.now }
    requires fits { ¬ (AnyLarge (clashes_in of.now array)) }
    requires asked { AreRowsAlong of.now.nest.now (clashes_in of.now array) rows.now more.now moduli.now }
    requires fit { RowsFit (clashes_in of.now array) more.now (map modulus_said moduli.now) }
    ensures { OnOk result ((ss : List PairSystem) → map clash_of ss ≡ clashes_in of.now array → out.new ≡ out.old ++ moduli_of ss more.now (map modulus_said moduli.now)) }
{
    match more {
        [] => Ok(()),
        [row, more_rows @ ..] => match moduli {
            [] => Ok(()),
            [modulus, more_moduli @ ..] => {
                let along = Along {
                    nest: of.nest,
                    systems: &[],
                    rows,
                    k: 0,
                    row,
                    modulus: &modulus.form,
                };
                let mark = mark_said(alloc, of, array, &along, &modulus.least)?;
                let form = modulus.form.clone()?;
                out.push(Modulus { form, mark })?;
                add_moduli(alloc, of, array, rows, more_rows, more_moduli, out)
            }
        },
    }
}

/// A copy of a basis.
#[tactic(auto, using(affc_life::proofs::BasisLemmas::copy_square, affc_life::proofs::BasisLemmas::copy_bounds))]
fn basis_copied(alloc: Global, basis: &Basis) -> Result<Basis, AllocError>
    ensures rows { IfOk result (λ b. b.rows ≡ basis.now.rows) }
    ensures inverse { IfOk result (λ b. b.inverse ≡ basis.now.inverse) }
{
    let rows = copied(alloc, basis.rows.as_slice())?;
    let inverse = copied(alloc, basis.inverse.as_slice())?;
    match given(rows, inverse) {
        Ok(basis) => Ok(basis),
        Err(_broken) => unreachable!(),
    }
}

/// The fold that a certificate says.
fn fold_made(alloc: Global, of: &Setting<'_>, fold: &CertFold) -> Result<Fold, AllocError>
    requires setting { IsSetting of.now }
    requires asked { IsFoldAsked of.now.nest.now (trees_of of.now.flow.now) fold.now }
    requires fit { FoldFits of.now.nest.now of.now.schedule.now (trees_of of.now.flow.now) fold.now }
    ensures { IfOk result (λ made. (f : FoldShown) → IsFoldSaid of.now.nest.now of.now.schedule.now (trees_of of.now.flow.now) fold.now f → IsFoldShown f made) }
{
    let rows = fold.basis.rows.as_slice();
    let mut moduli = Items::new(alloc);
    add_moduli(
        alloc,
        of,
        fold.array,
        rows,
        rows,
        fold.moduli.as_slice(),
        &mut moduli,
    )?;
    let basis = basis_copied(alloc, &fold.basis)?;
    Ok(Fold { basis, moduli })
}

/// Adds the folds that a certificate says.
pub(crate) fn add_made(
    alloc: Global,
    of: &Setting<'_>,
    folds: &[CertFold],
    out: &mut Vec<(ArrayId, Fold)>,
) -> Result<(), AllocError>
    requires setting { IsSetting of.now }
    requires asked { Each (IsFoldAsked of.now.nest.now (trees_of of.now.flow.now)) folds.now }
    requires fit { Each (FoldFits of.now.nest.now of.now.schedule.now (trees_of of.now.flow.now)) folds.now }
    ensures { OnOk result (AreMade of.now.nest.now of.now.schedule.now (trees_of of.now.flow.now) folds.now out.old.items out.new.items) }
{
    match folds {
        [] => Ok(()),
        [fold, more @ ..] => {
            let made = fold_made(alloc, of, fold)?;
            out.push((fold.array, made))?;
            add_made(alloc, of, more, out)
        }
    }
}
