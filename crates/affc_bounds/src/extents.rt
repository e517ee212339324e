//! Extents below 1.
ghost use Rattle.std.specs.Prelude.{◌≡◌, ◌∷◌, ◌++◌, [], pos, IfOk, IfErr, Some};
ghost use Rattle.affc_split.specs.Budgets.{IsLater};
ghost use Rattle.affc_nest.specs.Asked.{IsNest, IsExtent};
ghost use Rattle.affc_bounds.specs.Found.{IsFirst};
ghost use Rattle.affc_bounds.specs.Looks.{IsNarrowAt, InExtents, InArrays, AreExtents, HaveExtents};

use crate::fault::MeaningFault;
use crate::found::{Found, nearer};
use crate::points::least_point;
use affc_ast::tree::ArrayId;
use affc_nest::questions::extent_at_most_zero;
use affc_nest::{ArrayInfo, Nest};
use affc_rows::Form;
use affc_split::{Budget, Stop};
use sqlite_items::Items;
use std::alloc::{AllocError, Global};

/// The fault that an extent of this array is below 1 at p.
fn narrow_found(alloc: Global, array: u32, p: &[i64]) -> Result<Found, AllocError>
    ensures key { IfOk result (λ f. f.key ≡ p.now ++ pos array ∷ []) }
    ensures fault { IfOk result (λ f. f.fault ≡ MeaningFault.Extent (record { 0 = array }) p.now) }
{
    let mut key = Items::from_slice(alloc, p)?;
    key.push(i64::from(array))?;
    let p = Items::from_slice(alloc, p)?;
    let array = ArrayId(array);
    Ok(Found {
        key,
        fault: MeaningFault::Extent { array, p },
    })
}

/// The first p at which this extent of the array is below 1.
fn in_extent(
    alloc: Global,
    nest: &Nest,
    array: u32,
    extent: &Form,
    budget: &mut Budget,
) -> Result<Option<Found>, Stop>
    requires nest { IsNest nest.now }
    requires extent { IsExtent nest.now extent.now }
    ensures first { IfOk result (IsFirst (IsNarrowAt nest.now array extent.now)) }
    ensures later { IsLater budget.old budget.new }
    ensures stop { IfErr result (λ e. e ≡ Stop.Budget → budget.new.limit ≡ Some budget.new.spent) }
{
    let question = extent_at_most_zero(alloc, nest, extent)?;
    match least_point(alloc, &question, &nest.params, budget)? {
        None => Ok(None),
        Some(point) => {
            let found = narrow_found(alloc, array, point.as_slice())?;
            Ok(Some(found))
        }
    }
}

/// The first fault among these extents of an array.
fn in_extents(
    alloc: Global,
    nest: &Nest,
    array: u32,
    extents: &[Form],
    budget: &mut Budget,
) -> Result<Option<Found>, Stop>
    requires nest { IsNest nest.now }
    requires extents { AreExtents nest.now extents.now }
    ensures first { IfOk result (IsFirst (InExtents nest.now array extents.now)) }
    ensures later { IsLater budget.old budget.new }
    ensures stop { IfErr result (λ e. e ≡ Stop.Budget → budget.new.limit ≡ Some budget.new.spent) }
{
    match extents {
        [] => Ok(None),
        [extent, rest @ ..] => {
            let here = in_extent(alloc, nest, array, extent, budget)?;
            let others = in_extents(alloc, nest, array, rest, budget)?;
            Ok(nearer(here, others))
        }
    }
}

/// The first fault among the extents of these arrays, of which the first has this number. Past 2^32 arrays there is
/// no memory for them.
pub(crate) fn in_arrays(
    alloc: Global,
    nest: &Nest,
    first: u32,
    arrays: &[ArrayInfo],
    budget: &mut Budget,
) -> Result<Option<Found>, Stop>
    requires nest { IsNest nest.now }
    requires arrays { HaveExtents nest.now arrays.now }
    ensures first { IfOk result (IsFirst (InArrays nest.now first arrays.now)) }
    ensures later { IsLater budget.old budget.new }
    ensures stop { IfErr result (λ e. e ≡ Stop.Budget → budget.new.limit ≡ Some budget.new.spent) }
{
    match arrays {
        [] => Ok(None),
        [array, rest @ ..] => {
            let here = in_extents(alloc, nest, first, array.extents.as_slice(), budget)?;
            let Some(next) = first.checked_add(1) else {
                return Err(Stop::Memory);
            };
            let others = in_arrays(alloc, nest, next, rest, budget)?;
            Ok(nearer(here, others))
        }
    }
}
