//! The least point of a box, shown by sums of rows: the box is narrowed to it column by column, and no point comes before.
ghost use Rattle.std.specs.Prelude.{◌≡◌, ℤ, ◌+◌, ◌<◌, ◌-ℤ◌, ◌≤ℤ◌, ◌<ℤ◌, pos, IfOk, IfSome, IsTrue, length};
ghost use Rattle.std.specs.List.{All};
ghost use Rattle.affc_leaf.specs.Bounds.{IsBound, bound_at, lowered};
ghost use Rattle.affc_leaf.specs.Fronts.{IsFront, IsPinned};
ghost use Rattle.affc_leaf.specs.Parts.{IsLeast, NoneIn};

use crate::bounds::{low_ends, lower_half};
use crate::leaves::{is_below_zero, sum_rows};
use affc_simplex::{Bound, Least};
use affc_system::System;
use std::alloc::{AllocError, Global};

/// Whether the sum of these multiples of rows is below 0 in the whole box, which then has no point.
fn is_none_by(
    alloc: Global,
    system: &System,
    bounds: &[Bound],
    by: &[(u32, u64)],
) -> Result<bool, AllocError>
    requires width { length bounds.now ≡ system.now.columns }
    requires ranges { All IsBound bounds.now }
    ensures { IfOk result (λ b. IsTrue b → NoneIn system.now bounds.now) }
{
    let columns = system.columns() as usize;
    let _rows = system.rows();
    let mut zeros = vec![in alloc; 0i128; columns]?;
    let sum = zeros.as_mut_slice();
    let Some(constant) = sum_rows(system, by, sum) else {
        return Ok(false);
    };
    Ok(is_below_zero(sum, constant, bounds))
}

/// Whether these multiples of rows say that no point of a box lies below a value of a column.
fn is_none_below(
    alloc: Global,
    system: &System,
    bounds: &[Bound],
    column: usize,
    value: i64,
    by: &[(u32, u64)],
) -> Result<bool, AllocError>
    requires width { length bounds.now ≡ system.now.columns }
    requires ranges { All IsBound bounds.now }
    requires there { column < length bounds.now }
    requires within { value ≤ℤ (bound_at bounds.now column).high }
    ensures { IfOk result (λ b. IsTrue b → (bound_at bounds.now column).low <ℤ value → NoneIn system.now (lowered bounds.now column (value -ℤ pos 1) (bound_at bounds.now column).high_row)) }
{
    let bound = bounds[column];
    if value <= bound.low {
        return Ok(true);
    }
    let below = lower_half(alloc, bounds, column, value - 1, bound.high_row)?;
    is_none_by(alloc, system, below.as_slice(), by)
}

/// Narrows a column to one value, where these multiples of rows say that no point lies below it.
fn pin(
    alloc: Global,
    system: &System,
    part: &mut Vec<Bound>,
    column: usize,
    value: i64,
    by: &[(u32, u64)],
) -> Result<bool, AllocError>
    requires { IsPinned system.now.columns part.old.items column }
    ensures pinned { IfOk result (λ b. IsTrue b → IsPinned system.now.columns part.new.items (column + 1)) }
    ensures front { IfOk result (λ b. IsTrue b → IsFront system.now part.old.items part.new.items) }
{
    if column >= part.len() {
        return Ok(false);
    }
    let bound = part[column];
    if value < bound.low || value > bound.high {
        return Ok(false);
    }
    if !is_none_below(alloc, system, part.as_slice(), column, value, by)? {
        return Ok(false);
    }
    part[column] = Bound {
        low: value,
        high: value,
        ..bound
    };
    Ok(true)
}

/// The least point of a box, where it is the one that is given and its sums show it.
pub(crate) fn least_point(
    alloc: Global,
    system: &System,
    bounds: &[Bound],
    least: &Least,
) -> Result<Option<Vec<i64>>, AllocError>
    requires width { length bounds.now ≡ system.now.columns }
    requires ranges { All IsBound bounds.now }
    ensures { IfOk result (λ o. IfSome o (λ x. IsLeast system.now bounds.now x.items)) }
{
    let mut part = Vec::from_slice(alloc, bounds)?;
    for (j, value) in least.point.iter().enumerate() {
        let Some(by) = least.sums.get(j) else {
            return Ok(None);
        };
        if !pin(alloc, system, &mut part, j, *value, by.as_slice())? {
            return Ok(None);
        }
    }
    let point = low_ends(alloc, part.as_slice())?;
    if system.holds_at(point.as_slice()) {
        return Ok(Some(point));
    }
    Ok(None)
}
