//! All later columns eliminated, the one that makes the fewest pairs first.
ghost use Rattle.std.specs.Prelude.{◌≡◌, ℕ, ◌<◌, ◌≤◌, ◌∷◌, [], length, IfOk, IfErr};
ghost use Rattle.std.specs.List.{All, Contains};
ghost use Rattle.affc_eliminate.specs.project.States.{AreInputs, IsDone, IsStop};

use crate::project::contradiction::{alone, contradiction};
use crate::project::work::{Stop, Work, advance, pairs_of};
use crate::{Kept, Screen, Test};
use affc_farkas::Multipliers;
use affc_rows::Form;
use affc_system::System;
use std::alloc::{AllocError, Global};

/// A row as the sum of itself alone.
fn input(alloc: Global, row: &Form, number: u32) -> Result<Kept, AllocError>
    ensures row { IfOk result (λ k. k.row ≡ row.now) }
    ensures from { IfOk result (λ k. k.from ≡ (number, 1) ∷ []) }
    ensures number { IfOk result (λ k. k.number ≡ number) }
{
    let row = row.clone()?;
    let mut from = Multipliers::new(alloc);
    match from.push(number, 1) {
        Ok(()) => Ok(Kept { row, from, number }),
        Err(_) => Err(AllocError),
    }
}

/// The system's rows, each as the sum of itself alone.
fn inputs(alloc: Global, rows: &[Form]) -> Result<Vec<Kept>, AllocError>
    requires { length rows.now ≤ 1024 }
    ensures { IfOk result (λ live. AreInputs rows.now live.items) }
{
    let mut live = Vec::new(alloc);
    for (number, row) in rows.iter().enumerate() {
        live.push(input(alloc, row, number as u32)?)?;
    }
    Ok(live)
}

/// The columns from the first on.
fn columns_from(alloc: Global, first: u32, columns: u32) -> Result<Vec<u32>, AllocError>
    requires { first ≤ columns }
    ensures inside { IfOk result (λ left. All (λ c. (first ≤ c) × (c < columns)) left.items) }
    ensures all { IfOk result (λ left. (j : ℕ) → first ≤ j → j < columns → Contains left.items j) }
{
    let mut left = Vec::new(alloc);
    for column in first..columns {
        left.push(column)?;
    }
    Ok(left)
}

/// The place of the column that makes the fewest pairs.
fn fewest(live: &[Kept], left: &[u32]) -> usize
    requires some { 0 < length left.now }
    requires columns { All (λ c. All (λ k. c < length k.row.coefs) live.now) left.now }
    ensures { result < length left.now }
{
    let mut best = 0usize;
    let mut pairs = usize::MAX;
    for (place, column) in left.iter().enumerate() {
        let made = pairs_of(live, *column as usize);
        if made < pairs {
            best = place;
            pairs = made;
        }
    }
    best
}

/// Eliminates the columns from `keep` on. Once no point meets some row, that row alone is left.
pub(crate) fn eliminated<F: Test>(
    alloc: Global,
    system: &System,
    screen: &Screen<F>,
    keep: u32,
) -> Result<Work, Stop>
    requires { keep ≤ system.now.columns }
    ensures ok { IfOk result (λ work. IsDone system.now.columns system.now.rows keep work.made.items work.live.items) }
    ensures stop { IfErr result (IsStop system.now.columns system.now.rows keep) }
{
    let Ok(live) = inputs(alloc, system.rows()) else {
        return Err(Stop::Memory);
    };
    let Ok(mut left) = columns_from(alloc, keep, system.columns()) else {
        return Err(Stop::Memory);
    };
    let mut work = Work {
        live,
        made: Vec::new(alloc),
    };
    'columns: while !left.is_empty() {
        if let Some(place) = contradiction(work.live.as_slice()) {
            let Ok(last) = alone(alloc, work, place) else {
                return Err(Stop::Memory);
            };
            return Ok(last);
        }
        let place = fewest(work.live.as_slice(), left.as_slice());
        let column = left.remove(place);
        work = match advance(alloc, system, screen, column, work) {
            Ok(next) => next,
            Err(stop) => return Err(stop),
        };
    }
    Ok(work)
}
