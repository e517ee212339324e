//! Forms that take few values in a box where a system's rows hold (Lenstra's flat directions): the coordinates of a basis that is
//! reduced in a metric of the rows, in which a step counts by the share of a row's slack that it takes (Dikin's ellipsoid).
//!
//! Nothing is promised: whoever splits on a form shows what he finds on both sides.
use crate::basis::Basis;
use crate::bounds::Bound;
use crate::center::{Center, center_of};
use affc_rows::Form;
use affc_system::System;
use smallvec::SmallVec;
use std::alloc::{AllocError, Global};

/// How much a step counts that takes all of a slack below 1.
const MOST_WEIGHT: i128 = 1 << 16;

/// How much a step of 1 counts where the slack is this.
fn weight_of(slack: i128) -> i128 {
    match MOST_WEIGHT.checked_div(slack.max(0).saturating_add(1)) {
        Some(weight) => weight.max(1),
        None => 1,
    }
}

/// Adds a row with this slack to the metric.
fn measure(basis: &mut Basis, coefs: &[i128], slack: i128) -> Option<()> {
    let weight = weight_of(slack);
    basis.measure(coefs, weight.checked_mul(weight)?)
}

/// Adds the ends of a column's range to the metric.
fn measure_column(
    basis: &mut Basis,
    center: &Center,
    unit: &Form,
    column: usize,
    bound: Bound,
) -> Option<()> {
    let above = center.above(column, bound.low)?;
    let below = center.above(column, bound.high)?.checked_neg()?;
    measure(basis, unit.coefs.as_slice(), above)?;
    measure(basis, unit.coefs.as_slice(), below)
}

/// The basis of the units in the metric of the rows and of the box.
fn measured(
    alloc: Global,
    system: &System,
    bounds: &[Bound],
    center: &Center,
) -> Result<Option<Basis>, AllocError> {
    let columns = system.columns();
    let mut basis = Basis::units(alloc, columns as usize)?;
    for row in system.rows() {
        let Some(slack) = center.slack(row) else {
            return Ok(None);
        };
        let Some(()) = measure(&mut basis, row.coefs.as_slice(), slack) else {
            return Ok(None);
        };
    }
    for (j, bound) in bounds.iter().enumerate() {
        let unit = Form::column(alloc, columns, u32::try_from(j).unwrap_or(0))?;
        let Some(()) = measure_column(&mut basis, center, &unit, j, *bound) else {
            return Ok(None);
        };
    }
    Ok(Some(basis))
}

/// The coordinates of a basis as forms, from the last one on.
fn coordinates_of(alloc: Global, basis: &Basis, columns: u32) -> Result<Vec<Form>, AllocError> {
    let mut forms = Vec::with_capacity(alloc, columns as usize)?;
    for step in 0..columns {
        let last = columns.saturating_sub(step).saturating_sub(1);
        if let Some(coordinate) = basis.coordinate(last as usize) {
            forms.push(Form {
                coefs: SmallVec::from_slice(alloc, coordinate)?,
                constant: 0,
            })?;
        }
    }
    Ok(forms)
}

/// Forms over the system's columns, with the constant 0, by which the whole points of a box where the rows hold are told apart: those
/// with few values there first. None of them where a number doesn't fit. The box has a range for each column of the system.
pub fn flat_forms(
    alloc: Global,
    system: &System,
    bounds: &[Bound],
) -> Result<Vec<Form>, AllocError> {
    let Some(center) = center_of(alloc, system, bounds)? else {
        return Ok(Vec::new(alloc));
    };
    let Some(mut basis) = measured(alloc, system, bounds, &center)? else {
        return Ok(Vec::new(alloc));
    };
    match basis.reduce() {
        Some(()) => coordinates_of(alloc, &basis, system.columns()),
        None => Ok(Vec::new(alloc)),
    }
}
