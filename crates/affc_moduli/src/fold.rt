//! Successive moduli.
ghost use Rattle.std.specs.Prelude.{◌≡◌, ℕ, ℤ, pos, List, ◌<◌, ◌≤◌, IfOk, IfErr, IfSome, IfNone, Some, slice_get, replicate, length};
ghost use Rattle.std.specs.List.{All};
ghost use Rattle.affc_rows.specs.Forms.{Affine};
ghost use Rattle.affc_system.specs.Pairs.{IsSubscript};
ghost use Rattle.affc_basis.specs.declared.fold.Mark.TheVariants.{Bound};
ghost use Rattle.affc_basis.specs.Folds.{forms_of, IsTrueMark};
ghost use Rattle.affc_basis.specs.Moduli.{Exceeds, Separates, IsModulus};
ghost use Rattle.affc_split.specs.Budgets.{IsLater};
ghost use Rattle.affc_system.specs.ElementPairs.{IsPairOf};
ghost use Rattle.affc_conflicts.specs.Conditions.{InContext, IsNear, IsConflict};
ghost use Rattle.affc_moduli.specs.Asked.{IsGiven, AreSlicesOf};
ghost use Rattle.affc_moduli.specs.Ended.{IsSpent};
ghost use Rattle.affc_moduli.specs.Rows.{AreKept, AreMarkedOr};

use crate::asked::{Given, Hint};
use crate::reduced::reduce_all;
use crate::row::row_done;
use crate::slices::copies;
use affc_basis::{Basis, Modulus};
use affc_rows::Form;
use affc_split::maximum::Region;
use affc_split::{Answer, Budget, Stop, decide};
use affc_system::{BoxOf, PairSystem, System};
use sqlite_items::Items;
use std::alloc::Global;

/// A point of the context, if the budget lasts.
fn context_point(
    alloc: Global,
    context: &System,
    ranges: &BoxOf,
    budget: &mut Budget,
) -> Result<Option<Vec<i64>>, Stop>
    requires parameters { length ranges.now ≡ context.now.columns }
    requires near { All IsNear ranges.now }
    requires some { (p : List ℤ) × InContext context.now ranges.now p }
    ensures point { IfOk result (λ o. IfSome o (λ p. InContext context.now ranges.now p.items)) }
    ensures none { IfOk result (λ o. IfNone o (IsSpent budget.new)) }
    ensures later { IsLater budget.old budget.new }
    ensures stop { IfErr result (λ e. e ≡ Stop.Memory) }
{
    match decide(alloc, context, ranges, budget) {
        Ok(Answer::Point(point)) => Ok(Some(point)),
        Ok(Answer::Empty(_proof)) => unreachable!(),
        Err(Stop::Budget) => Ok(None),
        Err(Stop::Memory) => Err(Stop::Memory),
    }
}

/// A modulus for each row.
fn all_rows(
    alloc: Global,
    given: &Given<'_>,
    regions: &mut [Region],
    budget: &mut Budget,
) -> Result<Items<Modulus>, Stop>
    requires given { IsGiven given.now }
    requires slices { AreSlicesOf given.now 0 regions.old }
    requires none { IfNone given.now.some.now (IsSpent budget.old) }
    ensures one_each { IfOk result (λ ms. length ms ≡ length given.now.rows.now) }
    ensures kept { IfOk result (AreKept given.now.context.now given.now.ranges.now given.now.pairs.now given.now.rows.now) }
    ensures bound { IfOk result (AreMarkedOr budget.new) }
    ensures later { IsLater budget.old budget.new }
    ensures stop { IfErr result (λ e. e ≡ Stop.Memory) }
{
    let mut made = Items::new(alloc);
    for k in 0..given.rows.len() {
        let Ok(()) = reduce_all(alloc, regions) else {
            return Err(Stop::Memory);
        };
        let modulus = row_done(alloc, given, k, &given.rows[k], regions, budget)?;
        let Ok(()) = made.push(modulus) else {
            return Err(Stop::Memory);
        };
    }
    Ok(made)
}

/// A modulus for each row of the basis, so that the elements of each pair have different places. Where the budget ends,
/// the moduli that aren't found yet are bounds: constants that boxes and parallel rows show to be enough.
pub fn moduli(
    alloc: Global,
    pairs: &[PairSystem],
    basis: &Basis,
    extents: &[Form],
    context: &System,
    ranges: &BoxOf,
    hint: Hint<'_>,
    budget: &mut Budget,
) -> Result<Items<Modulus>, Stop>
    requires parameters { length ranges.now ≡ context.now.columns }
    requires few { context.now.columns ≤ 4 }
    requires near { All IsNear ranges.now }
    requires some { (p : List ℤ) × InContext context.now ranges.now p }
    requires extents { All (IsSubscript context.now.columns) extents.now }
    requires dimensions { length extents.now ≡ length basis.now.rows }
    requires conflicts { All (IsConflict context.now ranges.now extents.now) pairs.now }

    // The fold.
    ensures one_each { IfOk result (λ ms. length ms ≡ length basis.now.rows) }
    ensures limits { IfOk result (λ ms. All (IsModulus context.now.columns) (forms_of ms)) }
    ensures obeys { IfOk result (λ ms. (p : List ℤ) → InContext context.now ranges.now p → Exceeds (IsPairOf pairs.now p) p basis.now.rows (forms_of ms)) }
    ensures admissible { IfOk result (λ ms. (p : List ℤ) → InContext context.now ranges.now p → Separates (IsPairOf pairs.now p) p basis.now.rows (forms_of ms)) }
    ensures marks { IfOk result (λ ms. (k : ℕ) (row : Affine) (m : Modulus) → slice_get basis.now.rows k ≡ Some row → slice_get ms k ≡ Some m → IsTrueMark (InContext context.now ranges.now) (IsPairOf pairs.now) basis.now.rows k row m) }

    // The budget.
    ensures bound { IfOk result (λ ms. (k : ℕ) (m : Modulus) → slice_get ms k ≡ Some m → m.mark ≡ Bound → IsSpent budget.new) }
    ensures flat { IfOk result (λ ms. (k : ℕ) (m : Modulus) → slice_get ms k ≡ Some m → m.mark ≡ Bound → m.form.coefs ≡ replicate context.now.columns (pos 0)) }
    ensures later { IsLater budget.old budget.new }
    ensures stop { IfErr result (λ e. e ≡ Stop.Memory) }
{
    let Ok(mut regions) = copies(alloc, pairs) else {
        return Err(Stop::Memory);
    };
    let some = context_point(alloc, context, ranges, budget)?;
    let rows = basis.rows.as_slice();
    let given = Given {
        pairs,
        extents,
        context,
        ranges,
        rows,
        some: &some,
        hint,
    };
    all_rows(alloc, &given, regions.as_mut_slice(), budget)
}
