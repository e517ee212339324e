//! Entries of a certificate for temporaries, with the proofs of their questions.
ghost use Rattle.std.specs.Prelude.{◌≡◌, IfOk, IfErr, IsTrue, Some};
ghost use Rattle.std.specs.List.{All};
ghost use Rattle.affc_split.specs.Budgets.{IsLater};
ghost use Rattle.affc_basis.specs.Moduli.{IsModulus};
ghost use Rattle.affc_sched.specs.Legality.{IsAsked};
ghost use Rattle.affc_quast.specs.Seen.{trees_of};
ghost use Rattle.affc_life.specs.Asked.{KeepLimits};
ghost use Rattle.affc_certvalue.specs.fold.Limits.{IsMarkWithin, IsPairWithin};
ghost use Rattle.affc_certvalue.specs.Limits.{IsWord};
ghost use Rattle.affc_check.specs.list.Certs.{IsFoldFor, IsFoldWithin, Under};
ghost use Rattle.affc_certify.specs.Asked.{AreClashesOf};

use crate::clashing::{Clashes, Subject, clashes_of};
use crate::marks::mark_shown;
use crate::streamed::proofs_of;
use affc_ast::tree::ArrayId;
use affc_basis::basis::given;
use affc_basis::fold::{Fold, Modulus};
use affc_basis::{Basis, listed};
use affc_certvalue::fits::is_word;
use affc_certvalue::fold::fold::{CertFold, CertLeast, CertModulus};
use affc_check::list::list_fold;
use affc_farkas::Proof;
use affc_nest::lists::copied;
use affc_nest::{ArrayInfo, Nest};
use affc_rows::Form;
use affc_split::{Budget, Stop};
use sqlite_items::Items;
use std::alloc::{AllocError, Global};

/// The greatest magnitudes of a modulus's coefficients and of its constant.
const MOST_COEFFICIENT: u128 = 1 << 30;

const MOST_CONSTANT: u128 = 1 << 55;

/// An entry of a certificate, with the proofs of its questions in order.
#[derive(Drop)]
pub(crate) struct Entry {
    pub fold: CertFold,
    pub proofs: Items<Proof>,
}

/// A copy of a basis.
#[tactic(auto, using(affc_life::proofs::BasisLemmas::copy_square, affc_life::proofs::BasisLemmas::copy_bounds))]
fn basis_copied(alloc: Global, basis: &Basis) -> Result<Basis, AllocError> {
    let rows = copied(alloc, basis.rows.as_slice())?;
    let inverse = copied(alloc, basis.inverse.as_slice())?;
    match given(rows, inverse) {
        Ok(basis) => Ok(basis),
        Err(_broken) => Err(AllocError),
    }
}

/// A modulus, with what shows its mark.
fn modulus_shown(
    alloc: Global,
    clashes: &Clashes,
    modulus: &Modulus,
    budget: &mut Budget,
) -> Result<CertModulus, Stop>
    ensures later { IsLater budget.old budget.new }
    ensures stop { IfErr result (λ e. e ≡ Stop.Budget → budget.new.limit ≡ Some budget.new.spent) }
{
    let form = modulus.form.clone()?;
    let least = mark_shown(alloc, clashes, &modulus.mark, budget)?;
    Ok(CertModulus { form, least })
}

/// The moduli of a fold, with what shows their marks.
fn moduli_shown(
    alloc: Global,
    clashes: &Clashes,
    fold: &Fold,
    budget: &mut Budget,
) -> Result<Items<CertModulus>, Stop>
    ensures later { IsLater budget.old budget.new }
    ensures stop { IfErr result (λ e. e ≡ Stop.Budget → budget.new.limit ≡ Some budget.new.spent) }
{
    let mut moduli = Items::new(alloc);
    for modulus in fold.moduli.as_slice() {
        moduli.push(modulus_shown(alloc, clashes, modulus, budget)?)?;
    }
    Ok(moduli)
}

/// A fold as an entry of a certificate.
fn fold_shown(
    alloc: Global,
    clashes: &Clashes,
    array: ArrayId,
    fold: &Fold,
    budget: &mut Budget,
) -> Result<CertFold, Stop>
    ensures of_array { IfOk result (λ f. f.array ≡ array) }
    ensures later { IsLater budget.old budget.new }
    ensures stop { IfErr result (λ e. e ≡ Stop.Budget → budget.new.limit ≡ Some budget.new.spent) }
{
    let basis = basis_copied(alloc, &fold.basis)?;
    let moduli = moduli_shown(alloc, clashes, fold, budget)?;
    Ok(CertFold {
        array,
        basis,
        moduli,
    })
}

/// The identity, which is listed first.
fn identity(alloc: Global, dimensions: usize) -> Result<Basis, AllocError> {
    if dimensions > 4 {
        return Err(AllocError);
    }
    let mut bases = listed(alloc, dimensions as u32)?;
    if bases.is_empty() {
        return Err(AllocError);
    }
    Ok(bases.remove(0))
}

/// The entry of an array that is left whole.
fn whole_shown(alloc: Global, array: ArrayId, info: &ArrayInfo) -> Result<CertFold, AllocError>
    ensures { IfOk result (λ f. f.array ≡ array) }
{
    let basis = identity(alloc, info.extents.len())?;
    let mut moduli = Items::new(alloc);
    for extent in info.extents.as_slice() {
        let form = extent.clone()?;
        moduli.push(CertModulus { form, least: None })?;
    }
    Ok(CertFold {
        array,
        basis,
        moduli,
    })
}

/// Whether a form may be a modulus over so many parameters.
fn may_be_modulus(columns: u32, form: &Form) -> bool
    ensures { IsTrue result → IsModulus columns form.now }
{
    form.coefs.len() == columns as usize
        && form.constant.unsigned_abs() <= MOST_CONSTANT
        && form
            .coefs
            .as_slice()
            .iter()
            .all(|c| c.unsigned_abs() <= MOST_COEFFICIENT)
}

/// Whether each number fits 64 bits, as it does.
fn are_words(numbers: &[i64]) -> bool
    ensures { IsTrue result → All IsWord numbers.now }
{
    numbers.iter().all(|number| is_word(i128::from(*number)))
}

/// Whether the numbers of a clash system's point fit 64 bits, as they do.
fn may_be_pair(pair: &Option<(i64, Items<i64>)>) -> bool
    ensures { IsTrue result → IsPairWithin pair.now }
{
    match pair {
        None => true,
        Some((number, point)) => is_word(i128::from(*number)) && are_words(point.as_slice()),
    }
}

/// Whether there is a value for each of so many parameters, if a modulus is shown to be least.
fn may_be_mark(columns: u32, least: &Option<CertLeast>) -> bool
    ensures { IsTrue result → IsMarkWithin columns least.now }
{
    match least {
        None => true,
        Some(least) => {
            least.p.len() == columns as usize
                && are_words(least.p.as_slice())
                && may_be_pair(&least.pair)
        }
    }
}

/// Whether the moduli may be of a fold over so many parameters.
fn may_be_moduli(columns: u32, moduli: &[CertModulus]) -> bool
    ensures forms { IsTrue result → All (λ m. IsModulus columns m.form) moduli.now }
    ensures marks { IsTrue result → All (λ m. IsMarkWithin columns m.least) moduli.now }
{
    match moduli {
        [] => true,
        [modulus, rest @ ..] => {
            may_be_modulus(columns, &modulus.form)
                && may_be_mark(columns, &modulus.least)
                && may_be_moduli(columns, rest)
        }
    }
}

/// Whether an entry may be asked.
fn may_be_asked(nest: &Nest, fold: &CertFold) -> bool
    ensures of_array { IsTrue result → IsFoldFor nest.now fold.now }
    ensures within { IsTrue result → IsFoldWithin nest.now fold.now }
{
    let Some(info) = nest.arrays.get(fold.array.0 as usize) else {
        return false;
    };
    fold.basis.rows.len() == info.extents.len()
        && fold.moduli.len() == fold.basis.rows.len()
        && may_be_moduli(nest.context.columns(), fold.moduli.as_slice())
}

/// The proofs of the questions of an entry that may be asked. One past the limits of a system counts as want of memory.
fn proofs_of_fold(
    alloc: Global,
    asked: Subject<'_>,
    clashes: &Clashes,
    fold: &CertFold,
    budget: &mut Budget,
) -> Result<Items<Proof>, Stop>
    ghost under: { Under }
    requires asked { IsAsked asked.nest.now under.schedule }
    requires trees { KeepLimits asked.nest.now under.trees }
    requires of_array { IsFoldFor asked.nest.now fold.now }
    requires within { IsFoldWithin asked.nest.now fold.now }
    requires clashes { AreClashesOf asked.nest.now under.trees under.schedule fold.now.array.0 clashes.now.products.items }
    ensures later { IsLater budget.old budget.new }
    ensures stop { IfErr result (λ e. e ≡ Stop.Budget → budget.new.limit ≡ Some budget.new.spent) }
{
    let systems = clashes.products.as_slice();
    let Ok(listed) = list_fold(alloc, asked.nest, fold, systems) else {
        return Err(Stop::Memory);
    };
    proofs_of(alloc, listed.as_slice(), Some(clashes), budget)
}

/// An entry with the proofs of its questions.
fn proved(
    alloc: Global,
    asked: Subject<'_>,
    clashes: &Clashes,
    fold: CertFold,
    budget: &mut Budget,
) -> Result<Entry, Stop>
    requires asked { IsAsked asked.nest.now asked.schedule.now }
    requires trees { KeepLimits asked.nest.now (trees_of asked.flow.now) }
    requires clashes { AreClashesOf asked.nest.now (trees_of asked.flow.now) asked.schedule.now fold.array.0 clashes.now.products.items }
    ensures later { IsLater budget.old budget.new }
    ensures stop { IfErr result (λ e. e ≡ Stop.Budget → budget.new.limit ≡ Some budget.new.spent) }
{
    if !may_be_asked(asked.nest, &fold) {
        return Err(Stop::Memory);
    }
    let proofs = proofs_of_fold(alloc, asked, clashes, &fold, budget)?;
    Ok(Entry { fold, proofs })
}

/// The entry of a fold.
pub(crate) fn fold_entry(
    alloc: Global,
    asked: Subject<'_>,
    array: ArrayId,
    fold: &Fold,
    budget: &mut Budget,
) -> Result<Entry, Stop>
    requires asked { IsAsked asked.nest.now asked.schedule.now }
    requires trees { KeepLimits asked.nest.now (trees_of asked.flow.now) }
    ensures later { IsLater budget.old budget.new }
    ensures stop { IfErr result (λ e. e ≡ Stop.Budget → budget.new.limit ≡ Some budget.new.spent) }
{
    let clashes = clashes_of(alloc, asked, array, budget)?;
    let shown = fold_shown(alloc, &clashes, array, fold, budget)?;
    proved(alloc, asked, &clashes, shown, budget)
}

/// The entry of an array that is left whole, within a budget.
fn whole_proved(
    alloc: Global,
    asked: Subject<'_>,
    array: ArrayId,
    info: &ArrayInfo,
    budget: &mut Budget,
) -> Result<Entry, Stop>
    requires asked { IsAsked asked.nest.now asked.schedule.now }
    requires trees { KeepLimits asked.nest.now (trees_of asked.flow.now) }
{
    let clashes = clashes_of(alloc, asked, array, budget)?;
    let shown = whole_shown(alloc, array, info)?;
    proved(alloc, asked, &clashes, shown, budget)
}

/// The entry of an array that is left whole. No units are counted.
pub(crate) fn whole_entry(
    alloc: Global,
    asked: Subject<'_>,
    array: ArrayId,
    info: &ArrayInfo,
) -> Result<Entry, AllocError>
    requires asked { IsAsked asked.nest.now asked.schedule.now }
    requires trees { KeepLimits asked.nest.now (trees_of asked.flow.now) }
{
    let mut uncounted = Budget::new(None);
    match whole_proved(alloc, asked, array, info, &mut uncounted) {
        Ok(entry) => Ok(entry),
        Err(_) => Err(AllocError),
    }
}
