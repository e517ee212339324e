//! The rows of a part's domain that tell where its instances are. Nothing is promised of them.
//!
//! A domain begins with the ranges of the parameters and the context, in which each load is too. It has the ranges of the iterators:
//! where a loop's bound says as much, or more, the end of its range tells nothing.

use crate::solved::{coefficient, first_column, last_column, mixed};
use affc_flow::questions::Unasked;
use affc_flow::ranges::entry_ranges;
use affc_nest::{Entry, Nest};
use affc_rows::Form;
use affc_system::{BoxOf, interval};
use sqlite_items::Items;
use std::alloc::{AllocError, Global};

/// Whether a row is met wherever another one is, throughout a box.
fn says_less(alloc: Global, row: &Form, other: &Form, ranges: &BoxOf) -> Result<bool, AllocError> {
    let more = match mixed(alloc, row, 1, other, -1) {
        Ok(more) => more,
        Err(Unasked::Large) => return Ok(false),
        Err(Unasked::Memory) => return Err(AllocError),
    };
    if ranges.ranges().len() != more.coefs.len() {
        return Ok(false);
    }
    match interval(&more, ranges) {
        Ok((least, _most)) => Ok(least >= 0),
        Err(_) => Ok(false),
    }
}

/// Whether a row is an end of an iterator's range that tells nothing beside those before it.
fn is_implied(
    alloc: Global,
    before: &[Form],
    row: &Form,
    params: usize,
    ranges: &BoxOf,
) -> Result<bool, AllocError> {
    let Some(at) = last_column(row, params) else {
        return Ok(false);
    };
    if first_column(row, 0) != Some(at) {
        return Ok(false);
    }
    let c = coefficient(row, at);
    for other in before {
        if coefficient(other, at) == c && says_less(alloc, row, other, ranges)? {
            return Ok(true);
        }
    }
    Ok(false)
}

/// The rows of a part's domain that tell something beside the context and those before them.
pub(crate) fn telling_rows(
    alloc: Global,
    nest: &Nest,
    writer: &Entry,
) -> Result<Items<Form>, AllocError> {
    let ranges = entry_ranges(nest, writer)?;
    let params = nest.params.ranges().len();
    let context = nest
        .context
        .rows()
        .len()
        .saturating_add(params)
        .saturating_add(params);
    let mut out = Items::new(alloc);
    for (place, row) in writer.domain.rows().iter().enumerate() {
        if place >= context && !is_implied(alloc, out.as_slice(), row, params, &ranges)? {
            let copy = row.clone()?;
            out.push(copy)?;
        }
    }
    Ok(out)
}
