//! The folds of an array along its bases, of which one is taken.
ghost use Rattle.std.specs.Prelude.{◌≡◌, ℕ, ℤ, List, ◌≤◌, IfOk, IfErr, IfNone, IfSome, Some, None, length, map, slice_get};
ghost use Rattle.std.specs.List.{All};
ghost use Rattle.affc_rows.specs.Forms.{Affine};
ghost use Rattle.affc_system.specs.ElementPairs.{IsPairOf};
ghost use Rattle.affc_ast.specs.Meaning.{arrays_of};
ghost use Rattle.affc_trace.specs.Dataflow.{LivePair};
ghost use Rattle.affc_split.specs.Budgets.{IsLater};
ghost use Rattle.affc_basis.specs.declared.fold.Mark.TheVariants.{Bound};
ghost use Rattle.affc_basis.specs.declared.fold.Modulus.{Modulus as OneModulus};
ghost use Rattle.affc_basis.specs.Folds.{forms_of, IsTrueMark};
ghost use Rattle.affc_basis.specs.Listed.{shape_of, listing};
ghost use Rattle.affc_basis.specs.Moduli.{Exceeds, IsModulus};
ghost use Rattle.affc_conflicts.specs.Conditions.{InContext};
ghost use Rattle.affc_quast.specs.Seen.{trees_of};
ghost use Rattle.affc_folds.specs.Folding.{IsAnalysed, IsFoldFor, IsSpent, HasBound, given_for};
ghost use Rattle.affc_folds.specs.Tries.{IsTemporary, IsTriedFor, AreTriedFor, IsFolded, IsFoldedFor, IsEither, IsWorth};

use crate::asked::{Compilation, Temporary};
use crate::bases::{copy_of_basis, given_basis};
use crate::systems::live_systems;
use affc_ast::tree::ArrayId;
use affc_basis::{Basis, Fold, Modulus, listed};
use affc_moduli::{Hint, moduli};
use affc_nest::ArrayInfo;
use affc_split::{Budget, Stop};
use affc_weigh::{Choice, Cost, Rated, Weigher, choose, rate, whole_cost};
use sqlite_items::Items;
use std::alloc::{AllocError, Global};

/// How many dimensions an array has.
fn dimensions_of(info: &ArrayInfo) -> u32
    requires { length info.now.extents ≤ 4 }
    ensures { result ≡ length info.now.extents }
{
    info.extents.as_slice().len() as u32
}

/// The moduli of an array along a basis. No question is asked of an array without dimensions.
fn moduli_along(
    alloc: Global,
    temporary: &Temporary<'_>,
    basis: &Basis,
    hint: Hint<'_>,
    budget: &mut Budget,
) -> Result<Items<Modulus>, Stop>
    requires temporary { IsTemporary temporary.now }
    requires rows { length basis.now.rows ≡ length temporary.now.info.now.extents }
    ensures one_each { IfOk result (λ ms. length ms ≡ length basis.now.rows) }
    ensures limits { IfOk result (λ ms. All (IsModulus temporary.now.asked.nest.now.context.columns) (forms_of ms)) }
    ensures obeys { IfOk result (λ ms. (p : List ℤ) → InContext temporary.now.asked.nest.now.context temporary.now.asked.nest.now.params p → Exceeds (IsPairOf temporary.now.systems.now p) p basis.now.rows (forms_of ms)) }
    ensures marks { IfOk result (λ ms. (k : ℕ) (row : Affine) (m : OneModulus) → slice_get basis.now.rows k ≡ Some row → slice_get ms k ≡ Some m → IsTrueMark (InContext temporary.now.asked.nest.now.context temporary.now.asked.nest.now.params) (IsPairOf temporary.now.systems.now) basis.now.rows k row m) }
    ensures bound { IfOk result (λ ms. (k : ℕ) (m : OneModulus) → slice_get ms k ≡ Some m → m.mark ≡ Bound → IsSpent budget.new) }
    ensures later { IsLater budget.old budget.new }
    ensures stop { IfErr result (λ e. e ≡ Stop.Memory) }
{
    let extents = temporary.info.extents.as_slice();
    if extents.is_empty() {
        return Ok(Items::new(alloc));
    }
    let context = &temporary.asked.nest.context;
    let ranges = &temporary.asked.nest.params;
    moduli(
        alloc,
        temporary.systems,
        basis,
        extents,
        context,
        ranges,
        hint,
        budget,
    )
}

/// The fold of an array along a basis.
fn fold_along(
    alloc: Global,
    temporary: &Temporary<'_>,
    basis: &Basis,
    hint: Hint<'_>,
    budget: &mut Budget,
) -> Result<Fold, Stop>
    requires temporary { IsTemporary temporary.now }
    requires rows { length basis.now.rows ≡ length temporary.now.info.now.extents }
    ensures shape { IfOk result (λ fold. shape_of fold.basis ≡ shape_of basis.now) }
    ensures fold { IfOk result (λ fold. IsFoldFor temporary.now.asked.program.now (LivePair temporary.now.asked.program.now temporary.now.asked.schedule.now) temporary.now.array.0 fold) }
    ensures bound { IfOk result (λ fold. HasBound fold → IsSpent budget.new) }
    ensures later { IsLater budget.old budget.new }
    ensures stop { IfErr result (λ e. e ≡ Stop.Memory) }
{
    let basis = copy_of_basis(alloc, basis)?;
    let moduli = moduli_along(alloc, temporary, &basis, hint, budget)?;
    Ok(Fold { basis, moduli })
}

/// What a fold of an array along a basis comes to.
fn priced<F: Cost>(
    alloc: Global,
    temporary: &Temporary<'_>,
    basis: &Basis,
    cost: &Weigher<F>,
    hint: Hint<'_>,
    budget: &mut Budget,
) -> Result<Option<Rated>, Stop>
    requires temporary { IsTemporary temporary.now }
    requires rows { length basis.now.rows ≡ length temporary.now.info.now.extents }
    ensures tried { IfOk result (IsTriedFor (F.answers cost.now.cost) temporary.now budget.new (shape_of basis.now)) }
    ensures later { IsLater budget.old budget.new }
    ensures stop { IfErr result (λ e. e ≡ Stop.Memory) }
{
    let fold = fold_along(alloc, temporary, basis, hint, budget)?;
    Ok(rate(alloc, fold, cost)?)
}

/// What a fold comes to, unless it has a bound alone and is no cheaper than the array as it stands.
fn worth_while<F: Cost>(
    alloc: Global,
    temporary: &Temporary<'_>,
    one: Rated,
    cost: &Weigher<F>,
) -> Result<Option<Rated>, AllocError>
    requires temporary { IsTemporary temporary.now }
    ensures { IfOk result (IsWorth one) }
{
    if one.marked {
        return Ok(Some(one));
    }
    let ranges = &temporary.asked.nest.params;
    let whole = whole_cost(alloc, temporary.info.extents.as_slice(), ranges, cost)?;
    if one.price.cost < whole {
        Ok(Some(one))
    } else {
        Ok(None)
    }
}

/// What an array comes to along a basis.
fn tried<F: Cost>(
    alloc: Global,
    temporary: &Temporary<'_>,
    basis: &Basis,
    cost: &Weigher<F>,
    hint: Hint<'_>,
    budget: &mut Budget,
) -> Result<Option<Rated>, Stop>
    requires temporary { IsTemporary temporary.now }
    requires rows { length basis.now.rows ≡ length temporary.now.info.now.extents }
    ensures tried { IfOk result (IsTriedFor (F.answers cost.now.cost) temporary.now budget.new (shape_of basis.now)) }
    ensures later { IsLater budget.old budget.new }
    ensures stop { IfErr result (λ e. e ≡ Stop.Memory) }
{
    let Some(one) = priced(alloc, temporary, basis, cost, hint, budget)? else {
        return Ok(None);
    };
    Ok(worth_while(alloc, temporary, one, cost)?)
}

/// What an array comes to along each listed basis.
fn all_tried<F: Cost>(
    alloc: Global,
    temporary: &Temporary<'_>,
    bases: &[Basis],
    cost: &Weigher<F>,
    hint: Hint<'_>,
    budget: &mut Budget,
) -> Result<Items<Option<Rated>>, Stop>
    requires temporary { IsTemporary temporary.now }
    requires bases { map shape_of bases.now ≡ listing (length temporary.now.info.now.extents) }
    ensures found { IfOk result (AreTriedFor (F.answers cost.now.cost) temporary.now budget.new (listing (length temporary.now.info.now.extents))) }
    ensures one_each { IfOk result (λ found. length found ≡ length (listing (length temporary.now.info.now.extents))) }
    ensures later { IsLater budget.old budget.new }
    ensures stop { IfErr result (λ e. e ≡ Stop.Memory) }
{
    let mut found = Items::new(alloc);
    for basis in bases {
        let one = tried(alloc, temporary, basis, cost, hint, budget)?;
        found.push(one)?;
    }
    Ok(found)
}

/// What the moduli of the basis that is chosen come to, if that is known.
fn known_of(choice: &Choice) -> &[u64]
    ensures { 1 ≤ length result.now → slice_get choice.now.prices choice.now.number ≡ Some None → ⊥ }
{
    match choice.prices.as_slice().get(choice.number as usize) {
        Some(Some(price)) => price.values.as_slice(),
        _ => &[],
    }
}

/// A fold along the basis that is chosen, if it costs as much, or else the one by which it was chosen.
fn with_marks(fold: Fold, choice: &Choice, one: Option<Rated>) -> Fold
    ensures { IsEither fold choice.now one result }
{
    match one {
        None => fold,
        Some(one) => {
            if one.price.cost != choice.cost || known_of(choice).is_empty() {
                return fold;
            }
            one.fold
        }
    }
}

/// The fold that is chosen with all that is shown of it, in place of the one by which it was chosen. Both cost the same.
fn in_full<F: Cost>(
    alloc: Global,
    temporary: &Temporary<'_>,
    bases: &[Basis],
    cost: &Weigher<F>,
    chosen: (Fold, Choice),
    budget: &mut Budget,
) -> Result<(Fold, Choice), Stop>
    requires temporary { IsTemporary temporary.now }
    requires bases { map shape_of bases.now ≡ listing (length temporary.now.info.now.extents) }
    requires none_given { given_for temporary.now.asked.bases.now temporary.now.array.0 (length temporary.now.info.now.extents) ≡ None }
    requires rows { length chosen.0.basis.rows ≡ length temporary.now.info.now.extents }
    requires folded { IsFoldedFor (F.answers cost.now.cost) temporary.now budget.old chosen }
    ensures folded { IfOk result (IsFoldedFor (F.answers cost.now.cost) temporary.now budget.new) }
    ensures later { IsLater budget.old budget.new }
    ensures stop { IfErr result (λ e. e ≡ Stop.Memory) }
{
    let (fold, choice) = chosen;
    let Some(basis) = bases.get(choice.number as usize) else {
        return Ok((fold, choice));
    };
    let hint = Hint {
        quick: false,
        known: known_of(&choice),
    };
    let one = tried(alloc, temporary, basis, cost, hint, budget)?;
    let full = with_marks(fold, &choice, one);
    Ok((full, choice))
}

/// The cheapest fold of an array along the listed bases.
fn fold_cheapest<F: Cost>(
    alloc: Global,
    asked: &Compilation<'_>,
    array: ArrayId,
    info: &ArrayInfo,
    cost: &Weigher<F>,
    budget: &mut Budget,
) -> Result<Option<(Fold, Choice)>, Stop>
    requires analysed { IsAnalysed asked.now.program.now asked.now.nest.now (trees_of asked.now.flow.now) asked.now.schedule.now }
    requires there { slice_get asked.now.nest.now.arrays array.0 ≡ Some info.now }
    requires temporary { length (arrays_of asked.now.program.now.params) ≤ array.0 }
    requires none_given { given_for asked.now.bases.now array.0 (length info.now.extents) ≡ None }
    ensures none { IfOk result (λ taken. IfNone taken (IsSpent budget.new)) }
    ensures some { IfOk result (λ taken. IfSome taken (IsFolded (F.answers cost.now.cost) asked.now.program.now (LivePair asked.now.program.now asked.now.schedule.now) asked.now.bases.now budget.new array.0)) }
    ensures later { IsLater budget.old budget.new }
    ensures stop { IfErr result (λ e. e ≡ Stop.Memory) }
{
    let bases = listed(alloc, dimensions_of(info))?;
    let bases = bases.as_slice();
    let several = bases.len() > 1;
    let systems = match live_systems(alloc, asked, array, info, several, budget) {
        Ok(systems) => systems,
        Err(Stop::Budget) => return Ok(None),
        Err(Stop::Memory) => return Err(Stop::Memory),
    };
    let systems = systems.as_slice();
    let temporary = Temporary {
        asked: *asked,
        array,
        info,
        systems,
    };
    let quick = several && budget.limit().is_none();
    let hint = Hint { quick, known: &[] };
    let found = all_tried(alloc, &temporary, bases, cost, hint, budget)?;
    match choose(alloc, found)? {
        None => Ok(None),
        Some(chosen) => {
            if !quick {
                return Ok(Some(chosen));
            }
            let done = in_full(alloc, &temporary, bases, cost, chosen, budget)?;
            Ok(Some(done))
        }
    }
}

/// The fold of an array along the basis that is given for it.
fn fold_given<F: Cost>(
    alloc: Global,
    asked: &Compilation<'_>,
    array: ArrayId,
    info: &ArrayInfo,
    basis: &Basis,
    cost: &Weigher<F>,
    budget: &mut Budget,
) -> Result<Option<(Fold, Choice)>, Stop>
    requires analysed { IsAnalysed asked.now.program.now asked.now.nest.now (trees_of asked.now.flow.now) asked.now.schedule.now }
    requires there { slice_get asked.now.nest.now.arrays array.0 ≡ Some info.now }
    requires temporary { length (arrays_of asked.now.program.now.params) ≤ array.0 }
    requires given { given_for asked.now.bases.now array.0 (length info.now.extents) ≡ Some (shape_of basis.now) }
    requires rows { length basis.now.rows ≡ length info.now.extents }
    ensures none { IfOk result (λ taken. IfNone taken (IsSpent budget.new)) }
    ensures some { IfOk result (λ taken. IfSome taken (IsFolded (F.answers cost.now.cost) asked.now.program.now (LivePair asked.now.program.now asked.now.schedule.now) asked.now.bases.now budget.new array.0)) }
    ensures later { IsLater budget.old budget.new }
    ensures stop { IfErr result (λ e. e ≡ Stop.Memory) }
{
    let systems = match live_systems(alloc, asked, array, info, false, budget) {
        Ok(systems) => systems,
        Err(Stop::Budget) => return Ok(None),
        Err(Stop::Memory) => return Err(Stop::Memory),
    };
    let systems = systems.as_slice();
    let temporary = Temporary {
        asked: *asked,
        array,
        info,
        systems,
    };
    let hint = Hint {
        quick: false,
        known: &[],
    };
    let Some(one) = tried(alloc, &temporary, basis, cost, hint, budget)? else {
        return Ok(None);
    };
    let choice = Choice {
        cost: one.price.cost,
        number: 0,
        prices: Items::new(alloc),
    };
    Ok(Some((one.fold, choice)))
}

/// The fold of an array, and what is told of it, unless the budget ends first.
pub(crate) fn fold_array<F: Cost>(
    alloc: Global,
    asked: &Compilation<'_>,
    array: ArrayId,
    info: &ArrayInfo,
    cost: &Weigher<F>,
    budget: &mut Budget,
) -> Result<Option<(Fold, Choice)>, Stop>
    requires analysed { IsAnalysed asked.now.program.now asked.now.nest.now (trees_of asked.now.flow.now) asked.now.schedule.now }
    requires there { slice_get asked.now.nest.now.arrays array.0 ≡ Some info.now }
    requires temporary { length (arrays_of asked.now.program.now.params) ≤ array.0 }
    ensures none { IfOk result (λ taken. IfNone taken (IsSpent budget.new)) }
    ensures some { IfOk result (λ taken. IfSome taken (IsFolded (F.answers cost.now.cost) asked.now.program.now (LivePair asked.now.program.now asked.now.schedule.now) asked.now.bases.now budget.new array.0)) }
    ensures later { IsLater budget.old budget.new }
    ensures stop { IfErr result (λ e. e ≡ Stop.Memory) }
{
    match given_basis(alloc, asked.bases, array, dimensions_of(info))? {
        Some(basis) => fold_given(alloc, asked, array, info, &basis, cost, budget),
        None => fold_cheapest(alloc, asked, array, info, cost, budget),
    }
}
