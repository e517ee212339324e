//! Whether a certificate shows folds.
ghost use Rattle.std.specs.Prelude.{◌≡◌, ℕ, ◌≤◌, IfOk, IfSome, IsTrue};
ghost use Rattle.std.specs.List.{All};
ghost use Rattle.affc_basis.specs.Folds.{fold_of, forms_of};
ghost use Rattle.affc_basis.specs.declared.fold.Mark.TheVariants.{Bound};
ghost use Rattle.affc_certify.specs.Certified.{IsFoldShownOf, IsSame, IsWholeFold, Shows};
ghost use Rattle.affc_certify.specs.Rising.{AreFrom, Continues};

use affc_accept::bases::{is_same_basis, is_same_form, is_unit};
use affc_ast::tree::ArrayId;
use affc_basis::Fold;
use affc_basis::fold::{Mark, Modulus};
use affc_nest::Nest;
use affc_rows::Form;
use sqlite_items::Items;
use std::alloc::{AllocError, Global};

/// Whether two lists of numbers are the same.
fn same_numbers(numbers: &[i64], others: &[i64]) -> bool
    ensures { IsTrue result → numbers.now ≡ others.now }
{
    numbers == others
}

/// Whether two pairs of elements are the same.
fn same_pair(
    pair: &Option<(Items<i64>, Items<i64>)>,
    other: &Option<(Items<i64>, Items<i64>)>,
) -> bool
    ensures { IsTrue result → pair.now ≡ other.now }
{
    match (pair, other) {
        (None, None) => true,
        (Some((x, y)), Some((u, v))) => {
            same_numbers(x.as_slice(), u.as_slice()) && same_numbers(y.as_slice(), v.as_slice())
        }
        _ => false,
    }
}

/// Whether two marks say the same.
fn same_mark(mark: &Mark, other: &Mark) -> bool
    ensures { IsTrue result → mark.now ≡ other.now }
{
    match (mark, other) {
        (Mark::Bound, Mark::Bound) => true,
        (Mark::Least { p, pair }, Mark::Least { p: q, pair: others }) => {
            same_numbers(p.as_slice(), q.as_slice()) && same_pair(pair, others)
        }
        _ => false,
    }
}

/// Whether two moduli are the same, with their marks.
fn same_modulus(modulus: &Modulus, other: &Modulus) -> bool
    ensures { IsTrue result → modulus.now ≡ other.now }
{
    is_same_form(&modulus.form, &other.form) && same_mark(&modulus.mark, &other.mark)
}

/// Whether two lists of moduli are the same.
fn same_moduli(moduli: &[Modulus], others: &[Modulus]) -> bool
    ensures { IsTrue result → moduli.now ≡ others.now }
{
    match moduli {
        [] => others.is_empty(),
        [modulus, moduli @ ..] => match others {
            [] => false,
            [other, others @ ..] => same_modulus(modulus, other) && same_moduli(moduli, others),
        },
    }
}

/// Whether two folds are the same.
fn same_fold(fold: &Fold, other: &Fold) -> bool
    ensures { IsTrue result → IsSame fold.now other.now }
{
    is_same_basis(&fold.basis, &other.basis)
        && same_moduli(fold.moduli.as_slice(), other.moduli.as_slice())
}

/// Whether moduli are these extents, marked as bounds alone.
fn are_extents(moduli: &[Modulus], extents: &[Form]) -> bool
    ensures forms { IsTrue result → forms_of moduli.now ≡ extents.now }
    ensures marks { IsTrue result → All (λ m. m.mark ≡ Bound) moduli.now }
{
    match moduli {
        [] => extents.is_empty(),
        [modulus, moduli @ ..] => match extents {
            [] => false,
            [extent, extents @ ..] => {
                is_bound(&modulus.mark)
                    && is_same_form(&modulus.form, extent)
                    && are_extents(moduli, extents)
            }
        },
    }
}

/// Whether a mark says nothing.
fn is_bound(mark: &Mark) -> bool
    ensures { IsTrue result → mark.now ≡ Bound }
{
    match mark {
        Mark::Bound => true,
        Mark::Least { p: _, pair: _ } => false,
    }
}

/// Whether a fold is that of an array left whole.
fn is_whole(alloc: Global, nest: &Nest, array: ArrayId, fold: &Fold) -> Result<bool, AllocError>
    ensures { IfOk result (λ is. IsTrue is → IsWholeFold nest.now array.0 fold.now) }
{
    let Some(info) = nest.arrays.get(array.0 as usize) else {
        return Ok(false);
    };
    if !are_extents(fold.moduli.as_slice(), info.extents.as_slice()) {
        return Ok(false);
    }
    is_unit(alloc, &fold.basis)
}

/// The number behind those of all arrays, if each of these folds is of an array behind those before it, the first of one from
/// `from` on. The recursion is into halves, since there may be many.
fn rising_end(folds: &[(ArrayId, Fold)], from: u32) -> Option<u32>
    ensures { IfSome result (λ end. Continues from folds.now end) }
{
    match folds {
        [] => Some(from),
        [(array, _)] => {
            if array.0 < from {
                return None;
            }
            array.0.checked_add(1)
        }
        _ => {
            let (first, others) = folds.split_at(folds.len() / 2);
            let next = rising_end(first, from)?;
            rising_end(others, next)
        }
    }
}

/// Those from the first one on whose array has at least this number.
fn from_array(folds: &[(ArrayId, Fold)], array: u32) -> &[(ArrayId, Fold)]
    requires { AreFrom 0 folds.now }
    ensures from { AreFrom array result.now }
    ensures same { (a : ℕ) → array ≤ a → fold_of result.now a ≡ fold_of folds.now a }
{
    let mut rest = folds;
    while let [(of, _), others @ ..] = rest {
        if of.0 >= array {
            break;
        }
        rest = others;
    }
    rest
}

/// Whether a fold is shown as that of its array, or its array as left whole where it has none among these.
fn is_shown(
    alloc: Global,
    nest: &Nest,
    folds: &[(ArrayId, Fold)],
    array: ArrayId,
    shown: &Fold,
) -> Result<bool, AllocError>
    requires { AreFrom array.0 folds.now }
    ensures { IfOk result (λ is. IsTrue is → IsFoldShownOf nest.now array.0 (fold_of folds.now array.0) shown.now) }
{
    match folds {
        [] => is_whole(alloc, nest, array, shown),
        [(of, fold), ..] => {
            if of.0 == array.0 {
                Ok(same_fold(fold, shown))
            } else {
                is_whole(alloc, nest, array, shown)
            }
        }
    }
}

/// Whether these folds are shown, in order of their arrays. An array that has none is shown as left whole.
pub(crate) fn are_shown(
    alloc: Global,
    nest: &Nest,
    folds: &[(ArrayId, Fold)],
    shown: &[(ArrayId, Fold)],
) -> Result<bool, AllocError>
    ensures { IfOk result (λ are. IsTrue are → Shows nest.now folds.now shown.now) }
{
    if rising_end(folds, 0).is_none() {
        return Ok(false);
    }
    let mut rest = folds;
    let mut next = 0u32;
    for (array, fold) in shown {
        if array.0 < next {
            return Ok(false);
        }
        rest = from_array(rest, array.0);
        if !is_shown(alloc, nest, rest, *array, fold)? {
            return Ok(false);
        }
        let Some(behind) = array.0.checked_add(1) else {
            return Ok(false);
        };
        next = behind;
    }
    Ok(true)
}
