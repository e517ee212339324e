//! Proofs of questions.
ghost use Rattle.std.specs.Prelude.{◌≡◌, IfErr, Some};
ghost use Rattle.affc_split.specs.Budgets.{IsLater};

use crate::bounds::{Ends, Span};
use crate::halved::halved;
use crate::pruned::{Fit, pruned, room_behind};
use affc_farkas::{Multipliers, Proof};
use affc_split::{Answer, Budget, Stop, decide, within_reach};
use affc_system::system::MOST_ROWS;
use affc_system::{BoxOf, System};
use std::alloc::{AllocError, Global};

/// The proof below a box in which the ends of a column cross.
fn crossed(alloc: Global, rows: usize, column: usize) -> Result<Proof, AllocError> {
    let Some(low) = column.checked_mul(2) else {
        return Err(AllocError);
    };
    let Some(low) = low.checked_add(rows) else {
        return Err(AllocError);
    };
    let Ok(low) = u32::try_from(low) else {
        return Err(AllocError);
    };
    let Some(high) = low.checked_add(1) else {
        return Err(AllocError);
    };
    let mut by = Multipliers::new(alloc);
    let Ok(()) = by.push(low, 1) else {
        return Err(AllocError);
    };
    let Ok(()) = by.push(high, 1) else {
        return Err(AllocError);
    };
    Ok(Proof::Leaf(by))
}

/// What is decided of a system in a box. One that isn't a box of the system's columns, or reaches too far, counts as want of memory.
pub fn decided(
    alloc: Global,
    system: &System,
    ranges: &BoxOf,
    budget: &mut Budget,
) -> Result<Answer, Stop>
    ensures later { IsLater budget.old budget.new }
    ensures stop { IfErr result (λ e. e ≡ Stop.Budget → budget.new.limit ≡ Some budget.new.spent) }
{
    if ranges.ranges().len() != system.columns() as usize || !within_reach(ranges) {
        return Err(Stop::Memory);
    }
    decide(alloc, system, ranges, budget)
}

/// A proof of a system by one below its box. Where more rows would stand at a node than may, it counts as want of memory.
fn alone(
    alloc: Global,
    system: &System,
    ends: &Ends,
    below: &Proof,
    most: usize,
) -> Result<Proof, AllocError> {
    match pruned(alloc, system, ends, below, most)? {
        Fit::Within(proof) => Ok(proof),
        Fit::TooLong => Err(AllocError),
    }
}

/// A proof of a system by halving its box. Where none is found, it counts as want of memory.
fn by_halves(
    alloc: Global,
    system: &System,
    ends: &Ends,
    ranges: &BoxOf,
    most: usize,
) -> Result<Proof, AllocError> {
    let Some(room) = room_behind(system, most) else {
        return Err(AllocError);
    };
    match halved(alloc, system, ranges, room)? {
        Some(below) => alone(alloc, system, ends, &below, most),
        None => Err(AllocError),
    }
}

/// A proof of a system by one below its box, or by halving the box where that one would let more rows stand at a node than may.
fn short(
    alloc: Global,
    system: &System,
    ends: &Ends,
    ranges: &BoxOf,
    below: &Proof,
    most: usize,
) -> Result<Proof, AllocError> {
    match pruned(alloc, system, ends, below, most)? {
        Fit::Within(proof) => Ok(proof),
        Fit::TooLong => by_halves(alloc, system, ends, ranges, most),
    }
}

/// A proof as `refutation` makes it, with at most so many rows at each node.
pub fn refutation_within(
    alloc: Global,
    system: &System,
    most: usize,
    budget: &mut Budget,
) -> Result<Option<Proof>, Stop>
    ensures later { IsLater budget.old budget.new }
    ensures stop { IfErr result (λ e. e ≡ Stop.Budget → budget.new.limit ≡ Some budget.new.spent) }
{
    let ends = Ends::of(alloc, system)?;
    match ends.span(alloc, system.columns() as usize)? {
        Span::Open => Err(Stop::Memory),
        Span::Crossed(column) => {
            let below = crossed(alloc, system.rows().len(), column)?;
            let proof = alone(alloc, system, &ends, &below, most)?;
            Ok(Some(proof))
        }
        Span::Ranges(ranges) => match decided(alloc, system, &ranges, budget)? {
            Answer::Empty(below) => {
                let proof = short(alloc, system, &ends, &ranges, &below, most)?;
                Ok(Some(proof))
            }
            Answer::Point(_point) => Ok(None),
        },
    }
}

/// A proof that a system has no point, if it has none. Where no proof is found that keeps the limits of a certificate, it counts as
/// want of memory.
pub fn refutation(
    alloc: Global,
    system: &System,
    budget: &mut Budget,
) -> Result<Option<Proof>, Stop>
    ensures later { IsLater budget.old budget.new }
    ensures stop { IfErr result (λ e. e ≡ Stop.Budget → budget.new.limit ≡ Some budget.new.spent) }
{
    refutation_within(alloc, system, MOST_ROWS, budget)
}

/// A proof that a system has no point. Where it has one, that counts as want of memory, too.
pub fn proof_of(alloc: Global, system: &System, budget: &mut Budget) -> Result<Proof, Stop>
    ensures later { IsLater budget.old budget.new }
    ensures stop { IfErr result (λ e. e ≡ Stop.Budget → budget.new.limit ≡ Some budget.new.spent) }
{
    match refutation(alloc, system, budget)? {
        Some(proof) => Ok(proof),
        None => Err(Stop::Memory),
    }
}
