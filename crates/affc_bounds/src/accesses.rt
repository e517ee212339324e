//! Accesses outside their arrays.
ghost use Rattle.std.specs.Prelude.{◌≡◌, ◌+◌, ◌≤◌, length, slice_get, IsTrue, IfOk, IfErr, Some};
ghost use Rattle.affc_split.specs.Budgets.{IsLater};
ghost use Rattle.affc_nest.specs.Asked.{IsExtent, IsSubscript};
ghost use Rattle.affc_nest.specs.Questions.{extents_or_none};
ghost use Rattle.affc_bounds.specs.Found.{IsFirst};
ghost use Rattle.affc_bounds.specs.Looks.{IsOutsideAt, box_of, InDimension, InDimensions, InAccesses, InEntry, InEntries, AreExtents, AreSubscripts, HaveSubscripts, IsAlive, AreAlive};
ghost use Rattle.affc_bounds.specs.Spots.{spot_of};

use crate::fault::MeaningFault;
use crate::found::{Found, nearer};
use crate::points::least_point;
use affc_ast::tree::{ArrayId, Instance};
use affc_nest::questions::{subscript_below_zero, subscript_past_extent};
use affc_nest::{Access, Entry, Nest};
use affc_rows::Form;
use affc_split::{Budget, Stop};
use affc_system::{BoxOf, System};
use sqlite_items::Items;
use std::alloc::{AllocError, Global};

/// An entry whose accesses are looked at.
#[derive(Drop)]
struct Look<'a> {
    nest: &'a Nest,
    entry: &'a Entry,
    /// The ranges of the parameters, and then of the iterators.
    ranges: &'a BoxOf,
}

/// The ranges of the parameters, and then of the entry's iterators.
fn box_with(nest: &Nest, entry: &Entry) -> Result<BoxOf, AllocError>
    ensures { IfOk result (λ b. b ≡ box_of nest.now entry.now) }
{
    let mut out = nest.params.clone()?;
    out.append(entry.ranges.ranges())?;
    Ok(out)
}

/// The fault that this access of an instance lies outside its array at p.
fn outside_found(
    alloc: Global,
    statement: u32,
    access: u32,
    array: ArrayId,
    p: &[i64],
    iterators: &[i64],
) -> Result<Found, AllocError>
    ensures key { IfOk result (λ f. f.key ≡ spot_of p.now (record { statement = statement; iterators = iterators.now }) access) }
    ensures fault { IfOk result (λ f. f.fault ≡ MeaningFault.Bounds array access p.now (record { statement = statement; iterators = iterators.now })) }
{
    let mut key = Items::from_slice(alloc, p)?;
    key.push(i64::from(statement))?;
    let turns = Items::from_slice(alloc, iterators)?;
    key.append(turns)?;
    key.push(i64::from(access))?;
    let p = Items::from_slice(alloc, p)?;
    let iterators = Items::from_slice(alloc, iterators)?;
    let instance = Instance {
        statement,
        iterators,
    };
    Ok(Found {
        key,
        fault: MeaningFault::Bounds {
            array,
            access,
            p,
            instance,
        },
    })
}

/// The first point of a question on this access.
fn asked(
    alloc: Global,
    look: &Look<'_>,
    access: u32,
    array: ArrayId,
    question: &System,
    budget: &mut Budget,
) -> Result<Option<Found>, Stop>
    requires alive { IsAlive look.now.nest.now look.now.entry.now }
    requires ranges { look.now.ranges.now ≡ box_of look.now.nest.now look.now.entry.now }
    requires columns { question.now.columns ≡ look.now.entry.now.domain.columns }
    ensures first { IfOk result (IsFirst (IsOutsideAt (length look.now.nest.now.params) look.now.entry.now.statement access array (box_of look.now.nest.now look.now.entry.now) question.now)) }
    ensures later { IsLater budget.old budget.new }
    ensures stop { IfErr result (λ e. e ≡ Stop.Budget → budget.new.limit ≡ Some budget.new.spent) }
{
    let numbers = look.nest.params.ranges().len();
    match least_point(alloc, question, look.ranges, budget)? {
        None => Ok(None),
        Some(point) => {
            let (p, iterators) = point.as_slice().split_at(numbers);
            let statement = look.entry.statement;
            let found = outside_found(alloc, statement, access, array, p, iterators)?;
            Ok(Some(found))
        }
    }
}

/// The first fault of an access in one dimension.
fn in_dimension(
    alloc: Global,
    look: &Look<'_>,
    access: u32,
    array: ArrayId,
    sub: &Form,
    extent: &Form,
    budget: &mut Budget,
) -> Result<Option<Found>, Stop>
    requires alive { IsAlive look.now.nest.now look.now.entry.now }
    requires ranges { look.now.ranges.now ≡ box_of look.now.nest.now look.now.entry.now }
    requires sub { IsSubscript look.now.entry.now sub.now }
    requires extent { IsExtent look.now.nest.now extent.now }
    ensures first { IfOk result (IsFirst (InDimension look.now.nest.now look.now.entry.now access array sub.now extent.now)) }
    ensures later { IsLater budget.old budget.new }
    ensures stop { IfErr result (λ e. e ≡ Stop.Budget → budget.new.limit ≡ Some budget.new.spent) }
{
    let low = subscript_below_zero(alloc, look.nest, look.entry, sub)?;
    let high = subscript_past_extent(alloc, look.nest, look.entry, sub, extent)?;
    let below = asked(alloc, look, access, array, &low, budget)?;
    let past = asked(alloc, look, access, array, &high, budget)?;
    Ok(nearer(below, past))
}

/// The first fault of an access in these dimensions.
fn in_dimensions(
    alloc: Global,
    look: &Look<'_>,
    access: u32,
    array: ArrayId,
    subs: &[Form],
    extents: &[Form],
    budget: &mut Budget,
) -> Result<Option<Found>, Stop>
    requires alive { IsAlive look.now.nest.now look.now.entry.now }
    requires ranges { look.now.ranges.now ≡ box_of look.now.nest.now look.now.entry.now }
    requires subs { AreSubscripts look.now.entry.now subs.now }
    requires extents { AreExtents look.now.nest.now extents.now }
    ensures first { IfOk result (IsFirst (InDimensions look.now.nest.now look.now.entry.now access array subs.now extents.now)) }
    ensures later { IsLater budget.old budget.new }
    ensures stop { IfErr result (λ e. e ≡ Stop.Budget → budget.new.limit ≡ Some budget.new.spent) }
{
    match subs {
        [] => Ok(None),
        [sub, more_subs @ ..] => match extents {
            [] => Ok(None),
            [extent, more_extents @ ..] => {
                let here = in_dimension(alloc, look, access, array, sub, extent, budget)?;
                let others = in_dimensions(
                    alloc,
                    look,
                    access,
                    array,
                    more_subs,
                    more_extents,
                    budget,
                )?;
                Ok(nearer(here, others))
            }
        },
    }
}

/// The extents of an access's array.
fn extents_of<'a>(nest: &'a Nest, array: ArrayId) -> &'a [Form]
    ensures value { result.now ≡ extents_or_none (slice_get nest.now.arrays array.0) }
    ensures extents { AreExtents nest.now result.now }
{
    match nest.arrays.get(array.0 as usize) {
        Some(info) => info.extents.as_slice(),
        None => &[],
    }
}

/// The first fault among these accesses of an entry, of which the first has this number.
fn in_accesses(
    alloc: Global,
    look: &Look<'_>,
    first: u32,
    accesses: &[Access],
    budget: &mut Budget,
) -> Result<Option<Found>, Stop>
    requires alive { IsAlive look.now.nest.now look.now.entry.now }
    requires ranges { look.now.ranges.now ≡ box_of look.now.nest.now look.now.entry.now }
    requires subs { HaveSubscripts look.now.entry.now accesses.now }
    requires few { first + length accesses.now ≤ 16 }
    ensures first { IfOk result (IsFirst (InAccesses look.now.nest.now look.now.entry.now first accesses.now)) }
    ensures later { IsLater budget.old budget.new }
    ensures stop { IfErr result (λ e. e ≡ Stop.Budget → budget.new.limit ≡ Some budget.new.spent) }
{
    match accesses {
        [] => Ok(None),
        [access, rest @ ..] => {
            let array = access.array;
            let extents = extents_of(look.nest, array);
            let subs = access.subs.as_slice();
            let here = in_dimensions(alloc, look, first, array, subs, extents, budget)?;
            let others = in_accesses(alloc, look, first + 1, rest, budget)?;
            Ok(nearer(here, others))
        }
    }
}

/// The first fault among the accesses of an entry.
fn in_entry(
    alloc: Global,
    nest: &Nest,
    entry: &Entry,
    budget: &mut Budget,
) -> Result<Option<Found>, Stop>
    requires alive { IsTrue entry.now.alive → IsAlive nest.now entry.now }
    ensures first { IfOk result (IsFirst (InEntry nest.now entry.now)) }
    ensures later { IsLater budget.old budget.new }
    ensures stop { IfErr result (λ e. e ≡ Stop.Budget → budget.new.limit ≡ Some budget.new.spent) }
{
    if !entry.alive {
        return Ok(None);
    }
    let ranges = box_with(nest, entry)?;
    let look = Look {
        nest,
        entry,
        ranges: &ranges,
    };
    in_accesses(alloc, &look, 0, entry.accesses.as_slice(), budget)
}

/// The first fault among the accesses of these entries.
pub(crate) fn in_entries(
    alloc: Global,
    nest: &Nest,
    entries: &[Entry],
    budget: &mut Budget,
) -> Result<Option<Found>, Stop>
    requires alive { AreAlive nest.now entries.now }
    ensures first { IfOk result (IsFirst (InEntries nest.now entries.now)) }
    ensures later { IsLater budget.old budget.new }
    ensures stop { IfErr result (λ e. e ≡ Stop.Budget → budget.new.limit ≡ Some budget.new.spent) }
{
    match entries {
        [] => Ok(None),
        [entry, rest @ ..] => {
            let here = in_entry(alloc, nest, entry, budget)?;
            let others = in_entries(alloc, nest, rest, budget)?;
            Ok(nearer(here, others))
        }
    }
}
