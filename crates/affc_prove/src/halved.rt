//! Proofs below a box that halve its columns, so that few rows stand at a node.
ghost use Rattle.std.specs.Prelude.{◌≡◌, ◌^◌, ◌<◌, ◌≤◌, ◌↔◌, unsigned_abs, IsTrue, IfSome, length};
ghost use Rattle.std.specs.Bool.{OnTrue};
ghost use Rattle.std.specs.List.{All};
ghost use Rattle.affc_leaf.specs.Bounds.{IsBound};

use affc_farkas::{Proof, depth_at_most};
use affc_leaf::bounds::{lower_half, middle, upper_half};
use affc_leaf::box_cuts::{Seen, seen_at};
use affc_leaf::leaves::row_leaf;
use affc_leaf::tops::broken;
use affc_rows::Form;
use affc_simplex::Bound;
use affc_system::{BoxOf, System};
use std::alloc::{AllocError, Global};

/// How many boxes are looked at for one proof.
const MOST_BOXES: u32 = 1 << 14;

/// The greatest magnitude of a bound.
const MOST_BOUND: u64 = 1 << 60;

/// A part of a system's box.
#[derive(Clone, Copy)]
struct Here<'a> {
    alloc: Global,
    system: &'a System,
    /// Which columns follow from others by one division.
    quotients: &'a [bool],
    bounds: &'a [Bound],
    /// The number of the row that a split adds.
    next: u32,
    /// How many cuts and splits may stand on each way down.
    left: u32,
}

/// A column in two: its values up to one, and those above it.
#[derive(Clone, Copy)]
struct Halves {
    column: usize,
    at: i64,
}

/// A side of a split.
#[derive(Clone, Copy)]
enum Side {
    Low,
    High,
}

/// Whether a range is in order, and within 2^60.
fn is_bound(bound: Bound) -> bool
    ensures { IsTrue result ↔ IsBound bound }
{
    bound.low <= bound.high
        && bound.low.unsigned_abs() <= MOST_BOUND
        && bound.high.unsigned_abs() <= MOST_BOUND
}

/// Whether these are bounds of a system's columns.
fn is_box(system: &System, bounds: &[Bound]) -> bool
    ensures width { OnTrue result (length bounds.now ≡ system.now.columns) }
    ensures ranges { OnTrue result (All IsBound bounds.now) }
{
    bounds.len() == system.columns() as usize && bounds.iter().all(|bound| is_bound(*bound))
}

/// A proof of a part, where one is seen at once: a leaf, or a few cuts of rows in the part and a leaf.
#[inline(never)]
fn seen(here: &Here<'_>) -> Result<Option<Box<Proof>>, AllocError> {
    if !is_box(here.system, here.bounds) {
        return Ok(None);
    }
    if let Some(row) = broken(here.system, here.bounds) {
        let leaf = row_leaf(here.alloc, here.system, here.bounds, row, here.next)?;
        return Ok(Some(leaf));
    }
    match seen_at(here.alloc, here.system, here.bounds, here.next)? {
        Seen::Empty(proof) => Ok(Some(proof)),
        _ => Ok(None),
    }
}

/// Whether these are the same coefficients with the other sign.
fn are_opposite(first: &[i128], second: &[i128]) -> bool {
    for (a, b) in first.iter().zip(second.iter()) {
        if a.checked_add(*b) != Some(0) {
            return false;
        }
    }
    true
}

/// Whether two rows hold a multiple of a column within one remainder of a sum of the others.
fn are_division(first: &Form, second: &Form, column: usize) -> bool {
    let Some(divisor) = first.coefs.as_slice().get(column) else {
        return false;
    };
    if *divisor < 2 {
        return false;
    }
    match first.constant.checked_add(second.constant) {
        Some(most) => {
            most == *divisor - 1 && are_opposite(first.coefs.as_slice(), second.coefs.as_slice())
        }
        None => false,
    }
}

/// Whether a column follows from others by one division.
fn is_quotient(rows: &[Form], column: usize) -> bool {
    for first in rows {
        for second in rows {
            if are_division(first, second, column) {
                return true;
            }
        }
    }
    false
}

/// Which columns follow from others by one division.
fn quotients_of(alloc: Global, system: &System) -> Result<Vec<bool>, AllocError> {
    let mut quotients = Vec::new(alloc);
    for column in 0..system.columns() as usize {
        quotients.push(is_quotient(system.rows(), column))?;
    }
    Ok(quotients)
}

/// How far apart the ends of a range are.
fn gap(bound: Bound) -> u64 {
    u64::try_from(bound.high.saturating_sub(bound.low)).unwrap_or(0)
}

/// The widest column with several values, of the quotients or of the others.
fn widest(here: &Here<'_>, is_quotient: bool) -> Option<usize> {
    let mut found = None;
    let mut most = 0;
    for (column, bound) in here.bounds.iter().enumerate() {
        let gap = gap(*bound);
        if gap > most && here.quotients.get(column) == Some(&is_quotient) {
            found = Some(column);
            most = gap;
        }
    }
    found
}

/// The column to be halved: the widest one, where one can be a quotient only if all others have one value each.
fn free_column(here: &Here<'_>) -> Option<usize> {
    match widest(here, false) {
        Some(column) => Some(column),
        None => widest(here, true),
    }
}

/// A column's halves.
fn halves_of(here: &Here<'_>) -> Option<Halves>
    ensures there { IfSome result (λ h. h.column < length here.now.bounds.now) }
    ensures near { IfSome result (λ h. unsigned_abs h.at ≤ 2 ^ 60) }
{
    let column = free_column(here)?;
    if column >= here.bounds.len() {
        return None;
    }
    let bound = here.bounds[column];
    if !is_bound(bound) || bound.low >= bound.high {
        return None;
    }
    let at = middle(bound.low, bound.high);
    if at.unsigned_abs() > MOST_BOUND {
        return None;
    }
    Some(Halves { column, at })
}

/// One half of a part.
fn half_of(here: &Here<'_>, halves: Halves, side: Side) -> Result<Vec<Bound>, AllocError>
    requires there { halves.column < length here.now.bounds.now }
    requires near { unsigned_abs halves.at ≤ 2 ^ 60 }
{
    let Halves { column, at } = halves;
    match side {
        Side::Low => lower_half(here.alloc, here.bounds, column, at, here.next),
        Side::High => upper_half(here.alloc, here.bounds, column, at, here.next),
    }
}

/// The proof of a part from those of its halves.
fn joined(
    here: &Here<'_>,
    halves: Halves,
    low: Box<Proof>,
    high: Box<Proof>,
) -> Result<Box<Proof>, AllocError> {
    let Ok(column) = u32::try_from(halves.column) else {
        return Err(AllocError);
    };
    let form = Form::column(here.alloc, here.system.columns(), column)?;
    let both = Proof::Split {
        form,
        at: halves.at,
        low,
        high,
    };
    match Box::new(here.alloc, both) {
        Ok(proof) => Ok(proof),
        Err(_) => Err(AllocError),
    }
}

/// A proof of a part, where one is seen at once or its halves have proofs.
#[cycle(parts)]
#[inline(never)]
fn part_proof(here: &Here<'_>, boxes: &mut u32) -> Result<Option<Box<Proof>>, AllocError> {
    let Some(rest) = boxes.checked_sub(1) else {
        return Ok(None);
    };
    *boxes = rest;
    if let Some(proof) = seen(here)? {
        if depth_at_most(&proof, here.left) {
            return Ok(Some(proof));
        }
    }
    let (Some(left), Some(halves)) = (here.left.checked_sub(1), halves_of(here)) else {
        return Ok(None);
    };
    let Some(low) = half_proof(here, halves, Side::Low, left, boxes)? else {
        return Ok(None);
    };
    let Some(high) = half_proof(here, halves, Side::High, left, boxes)? else {
        return Ok(None);
    };
    let proof = joined(here, halves, low, high)?;
    Ok(Some(proof))
}

/// A proof of one half of a part, below which so many cuts and splits may stand.
#[cycle(parts)]
#[inline(never)]
fn half_proof(
    here: &Here<'_>,
    halves: Halves,
    side: Side,
    left: u32,
    boxes: &mut u32,
) -> Result<Option<Box<Proof>>, AllocError>
    requires there { halves.column < length here.now.bounds.now }
    requires near { unsigned_abs halves.at ≤ 2 ^ 60 }
{
    let half = half_of(here, halves, side)?;
    let Some(next) = here.next.checked_add(1) else {
        return Ok(None);
    };
    let there = Here {
        bounds: half.as_slice(),
        next,
        left,
        ..*here
    };
    part_proof(&there, boxes)
}

/// A box as bounds, and the number of the row behind its own.
#[derive(Drop)]
struct Whole {
    bounds: Vec<Bound>,
    next: u32,
}

/// A box whose rows stand behind so many others.
fn whole_box(alloc: Global, ranges: &[(i64, i64)], rows: u32) -> Result<Whole, AllocError> {
    let mut bounds = Vec::new(alloc);
    let mut next = rows;
    for (low, high) in ranges {
        let low_row = next;
        let Some(high_row) = low_row.checked_add(1) else {
            return Err(AllocError);
        };
        let Some(behind) = high_row.checked_add(1) else {
            return Err(AllocError);
        };
        bounds.push(Bound {
            low: *low,
            high: *high,
            low_row,
            high_row,
        })?;
        next = behind;
    }
    Ok(Whole { bounds, next })
}

/// A proof for a system with the rows of its box behind its own, with at most so many cuts and splits on each way down, where
/// halving the box's columns finds one.
pub(crate) fn halved(
    alloc: Global,
    system: &System,
    ranges: &BoxOf,
    left: u32,
) -> Result<Option<Proof>, AllocError> {
    let Ok(rows) = u32::try_from(system.rows().len()) else {
        return Err(AllocError);
    };
    let Whole { bounds, next } = whole_box(alloc, ranges.ranges(), rows)?;
    let quotients = quotients_of(alloc, system)?;
    let here = Here {
        alloc,
        system,
        quotients: quotients.as_slice(),
        bounds: bounds.as_slice(),
        next,
        left,
    };
    let mut boxes = MOST_BOXES;
    match part_proof(&here, &mut boxes)? {
        Some(proof) => Ok(Some(Box::into_inner(proof))),
        None => Ok(None),
    }
}
