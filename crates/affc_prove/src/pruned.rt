//! Proofs below a box as proofs below its system alone.

use crate::bounds::{Ends, Origin, Term, end_at, end_row};
use crate::numbers::{Numbers, mark, mark_all};
use affc_farkas::{MultiplierFault, Multipliers, Proof, depth_at_most};
use affc_system::System;
use std::alloc::{AllocError, Global};

/// What becomes of a proof below a box.
#[derive(Drop)]
pub(crate) enum Fit {
    /// A proof for the system alone.
    Within(Proof),
    /// More rows would stand at a node than may.
    TooLong,
}

/// Why a proof isn't made.
#[derive(Clone, Copy)]
enum Lack {
    /// Two multipliers of one row come to more than one may be.
    Past,
    Memory,
}

impl From<AllocError> for Lack {
    fn from(_e: AllocError) -> Lack {
        Lack::Memory
    }
}

/// Marks the ends whose rows these multipliers name.
fn mark_by(used: &mut Vec<bool>, rows: usize, by: &Multipliers) {
    for (row, _) in by.pairs() {
        if let Some(number) = (*row as usize).checked_sub(rows) {
            mark(used, number);
        }
    }
}

/// Marks the ends whose rows a proof names.
fn mark_proof(proof: &Proof, used: &mut Vec<bool>, rows: usize) {
    match proof {
        Proof::Leaf(by) => mark_by(used, rows, by),
        Proof::Cut { by, rest, .. } => {
            mark_by(used, rows, by);
            mark_proof(rest, used, rows);
        }
        Proof::Split { low, high, .. } => {
            mark_proof(low, used, rows);
            mark_proof(high, used, rows);
        }
    }
}

/// Adds a multiplier to the last one, where both are of one row.
fn add_times(
    out: &mut Multipliers,
    last: Option<(u32, u64)>,
    row: u32,
    times: u64,
) -> Result<Option<(u32, u64)>, Lack> {
    let Some((before, sum)) = last else {
        return Ok(Some((row, times)));
    };
    if before == row {
        let Some(sum) = sum.checked_add(times) else {
            return Err(Lack::Past);
        };
        return Ok(Some((row, sum)));
    }
    put(out, before, sum)?;
    Ok(Some((row, times)))
}

/// Adds a multiplier.
fn put(out: &mut Multipliers, row: u32, times: u64) -> Result<(), Lack> {
    match out.push(row, times) {
        Ok(()) => Ok(()),
        Err(MultiplierFault::Times) => Err(Lack::Past),
        Err(_) => Err(Lack::Memory),
    }
}

/// The multipliers of these rows, in order. Those of one row are summed.
fn gathered(alloc: Global, pairs: &mut Vec<(u32, u64)>) -> Result<Multipliers, Lack> {
    pairs.sort_by_key(|pair| pair.0)?;
    let mut out = Multipliers::new(alloc);
    let mut last = None;
    for (row, times) in pairs.as_slice() {
        last = add_times(&mut out, last, *row, *times)?;
    }
    if let Some((row, times)) = last {
        put(&mut out, row, times)?;
    }
    Ok(out)
}

/// The multipliers of a proof below a box.
fn moved_by(alloc: Global, numbers: &Numbers, by: &Multipliers) -> Result<Multipliers, Lack> {
    let mut pairs = Vec::new(alloc);
    for (row, times) in by.pairs() {
        let Some(place) = numbers.below(*row) else {
            return Err(Lack::Memory);
        };
        let Ok(()) = pairs.push((place, *times)) else {
            return Err(Lack::Memory);
        };
    }
    gathered(alloc, &mut pairs)
}

/// The multipliers of an end's sum.
fn moved_sum(alloc: Global, numbers: &Numbers, by: &[(Term, u64)]) -> Result<Multipliers, Lack> {
    let mut pairs = Vec::new(alloc);
    for (term, times) in by {
        let Some(place) = numbers.term(*term) else {
            return Err(Lack::Memory);
        };
        let Ok(()) = pairs.push((place, *times)) else {
            return Err(Lack::Memory);
        };
    }
    gathered(alloc, &mut pairs)
}

/// A boxed proof.
fn boxed(alloc: Global, proof: Proof) -> Result<Box<Proof>, Lack> {
    match Box::new(alloc, proof) {
        Ok(boxed) => Ok(boxed),
        Err(_) => Err(Lack::Memory),
    }
}

/// A proof below a box with these numbers.
fn moved(proof: &Proof, alloc: Global, numbers: &Numbers) -> Result<Proof, Lack> {
    match proof {
        Proof::Leaf(by) => Ok(Proof::Leaf(moved_by(alloc, numbers, by)?)),
        Proof::Cut { by, g, row, rest } => {
            let by = moved_by(alloc, numbers, by)?;
            let row = row.clone()?;
            let rest = moved(rest, alloc, numbers)?;
            let rest = boxed(alloc, rest)?;
            Ok(Proof::Cut {
                by,
                g: *g,
                row,
                rest,
            })
        }
        Proof::Split {
            form,
            at,
            low,
            high,
        } => {
            let form = form.clone()?;
            let low = moved(low, alloc, numbers)?;
            let low = boxed(alloc, low)?;
            let high = moved(high, alloc, numbers)?;
            let high = boxed(alloc, high)?;
            Ok(Proof::Split {
                form,
                at: *at,
                low,
                high,
            })
        }
    }
}

/// A proof behind the cut that makes the row of this end.
fn behind_cut(
    alloc: Global,
    columns: u32,
    ends: &Ends,
    numbers: &Numbers,
    number: usize,
    rest: Proof,
) -> Result<Proof, Lack> {
    let Some(end) = end_at(ends.ends.as_slice(), number) else {
        return Err(Lack::Memory);
    };
    let (by, g) = match &end.origin {
        Origin::Row(row) => (moved_sum(alloc, numbers, &[(Term::Row(*row), 1)])?, 1),
        Origin::Sum { by, divisor } => (moved_sum(alloc, numbers, by.as_slice())?, *divisor),
    };
    let row = end_row(alloc, columns, number, end.value)?;
    let rest = boxed(alloc, rest)?;
    Ok(Proof::Cut { by, g, row, rest })
}

/// A proof below a box with these numbers, behind the cuts that make the rows of ends.
fn made(
    alloc: Global,
    columns: u32,
    ends: &Ends,
    numbers: &Numbers,
    proof: &Proof,
) -> Result<Proof, Lack> {
    let mut whole = moved(proof, alloc, numbers)?;
    for number in numbers.made.as_slice().iter().rev() {
        whole = behind_cut(alloc, columns, ends, numbers, *number, whole)?;
    }
    Ok(whole)
}

/// The ends whose rows a proof uses.
fn used_ends(
    alloc: Global,
    ends: &Ends,
    rows: usize,
    proof: &Proof,
) -> Result<Vec<bool>, AllocError> {
    let mut used = Vec::new(alloc);
    for _ in ends.ends.as_slice() {
        used.push(false)?;
    }
    mark_proof(proof, &mut used, rows);
    mark_all(&mut used, ends);
    Ok(used)
}

/// How many more rows may stand behind those of a system, where at most so many may stand at a node.
pub(crate) fn room_behind(system: &System, most: usize) -> Option<u32> {
    let room = most.checked_sub(system.rows().len())?;
    u32::try_from(room).ok()
}

/// A proof for the system alone of one for it with the rows of its box, whatever rows stand at its nodes.
fn alone(alloc: Global, system: &System, ends: &Ends, proof: &Proof) -> Result<Proof, AllocError> {
    let count = system.rows().len();
    let Ok(rows) = u32::try_from(count) else {
        return Err(AllocError);
    };
    let used = used_ends(alloc, ends, count, proof)?;
    let columns = system.columns();
    let merged = Numbers::of(alloc, rows, ends, used.as_slice(), true)?;
    match made(alloc, columns, ends, &merged, proof) {
        Ok(whole) => Ok(whole),
        Err(Lack::Memory) => Err(AllocError),
        Err(Lack::Past) => {
            let apart = Numbers::of(alloc, rows, ends, used.as_slice(), false)?;
            match made(alloc, columns, ends, &apart, proof) {
                Ok(whole) => Ok(whole),
                Err(_) => Err(AllocError),
            }
        }
    }
}

/// A proof for the system alone of one for it with the rows of its box: what it uses of these is made by cuts, or stands in the
/// system. At most so many rows may stand at a node.
pub(crate) fn pruned(
    alloc: Global,
    system: &System,
    ends: &Ends,
    proof: &Proof,
    most: usize,
) -> Result<Fit, AllocError> {
    let Some(room) = room_behind(system, most) else {
        return Ok(Fit::TooLong);
    };
    if !depth_at_most(proof, room) {
        return Ok(Fit::TooLong);
    }
    let whole = alone(alloc, system, ends, proof)?;
    if depth_at_most(&whole, room) {
        Ok(Fit::Within(whole))
    } else {
        Ok(Fit::TooLong)
    }
}

/// A proof of a system as one of the system with so many more rows behind its own.
pub fn lengthened(
    alloc: Global,
    system: &System,
    more: u32,
    proof: &Proof,
) -> Result<Proof, AllocError> {
    let Ok(rows) = u32::try_from(system.rows().len()) else {
        return Err(AllocError);
    };
    let Some(numbers) = Numbers::with_more(alloc, rows, more) else {
        return Err(AllocError);
    };
    match moved(proof, alloc, &numbers) {
        Ok(moved) => Ok(moved),
        Err(_) => Err(AllocError),
    }
}
