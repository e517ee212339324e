//! The rows that are left of an elimination, and one column less.
ghost use Rattle.std.specs.Prelude.{◌≡◌, ◌⊎◌, ℕ, ◌<◌, ◌≤◌, ◌++◌, false, length, IfOk, IfErr, IsTrue};
ghost use Rattle.std.specs.List.{All};
ghost use Rattle.affc_eliminate.specs.project.Projections.{AreFrom};
ghost use Rattle.affc_eliminate.specs.project.States.{IsState, HasContradiction, IsCancelled, IsStop};

use crate::project::contradiction::has_contradiction;
use crate::{Kept, Screen, Step, Test, eliminate};
use affc_farkas::Pair;
use affc_system::System;
use std::alloc::{AllocError, Global};

/// The most pairs of an elimination.
const MOST_PAIRS: usize = 4096;

/// The rows that are left, and the pairs that were made.
#[derive(Drop)]
pub(crate) struct Work {
    pub(crate) live: Vec<Kept>,
    pub(crate) made: Vec<Pair>,
}

/// Why a projection ends early.
#[derive(Drop)]
pub(crate) enum Stop {
    Memory,
    TooMany { made: Vec<Pair> },
    TooWide { made: Vec<Pair>, next: Pair },
}

/// The pairs with more after them.
fn joined(made: Vec<Pair>, more: &[Pair]) -> Result<Vec<Pair>, AllocError>
    ensures { IfOk result (λ all. all.items ≡ made.items ++ more.now) }
{
    let mut all = made;
    all.extend_from_slice(more)?;
    Ok(all)
}

/// Whether these rows are gone on with: the pairs are few, or no point meets some row.
fn may_go_on(live: &[Kept], made: &[Pair]) -> bool
    ensures yes { IsTrue result → (length made.now < 4096) ⊎ HasContradiction live.now }
    ensures no { result ≡ false → 4096 ≤ length made.now }
{
    made.len() < MOST_PAIRS || has_contradiction(live)
}

/// Eliminates the column from the rows. More pairs than the most are kept where some row says that there is no point.
fn cancel<F: Test>(
    alloc: Global,
    system: &System,
    screen: &Screen<F>,
    column: u32,
    live: &[Kept],
    made: Vec<Pair>,
) -> Result<Work, Stop>
    requires column_in { column < system.now.columns }
    requires state { IsState system.now.columns system.now.rows made.items live.now }
    requires few { length made.items < 4096 }
    ensures ok { IfOk result (IsCancelled system.now.columns system.now.rows column made.items live.now) }
    ensures stop { IfErr result (λ stop. (keep : ℕ) → keep ≤ column → AreFrom keep made.items → IsStop system.now.columns system.now.rows keep stop) }
{
    let free = (system.rows().len() + made.len()) as u32;
    let Ok(step) = eliminate(alloc, live, column, free, screen) else {
        return Err(Stop::Memory);
    };
    match step {
        Step::Rows { rows, made: more } => {
            let Ok(mut all) = joined(made, more.as_slice()) else {
                return Err(Stop::Memory);
            };
            if may_go_on(rows.as_slice(), all.as_slice()) {
                return Ok(Work {
                    live: rows,
                    made: all,
                });
            }
            all.truncate(MOST_PAIRS);
            Err(Stop::TooMany { made: all })
        }
        Step::TooWide { made: more, next } => match joined(made, more.as_slice()) {
            Ok(all) => Err(Stop::TooWide { made: all, next }),
            Err(_) => Err(Stop::Memory),
        },
    }
}

/// How many pairs a column makes.
pub(crate) fn pairs_of(live: &[Kept], column: usize) -> usize
    requires { All (λ k. column < length k.row.coefs) live.now }
{
    let mut positive = 0usize;
    let mut negative = 0usize;
    for kept in live {
        let coefficient = kept.row.coefs.as_slice()[column];
        if coefficient > 0 {
            positive = positive.saturating_add(1);
        } else if coefficient < 0 {
            negative = negative.saturating_add(1);
        }
    }
    positive.saturating_mul(negative)
}

/// The fewest rows, from the first on, that make the most pairs of an elimination; all of them where all make fewer.
fn enough(live: &[Kept], column: usize) -> usize
    requires { All (λ k. column < length k.row.coefs) live.now }
    ensures { result ≤ length live.now }
{
    let mut positive = 0usize;
    let mut negative = 0usize;
    for (place, kept) in live.iter().enumerate() {
        let coefficient = kept.row.coefs.as_slice()[column];
        if coefficient > 0 {
            positive = positive.saturating_add(1);
        } else if coefficient < 0 {
            negative = negative.saturating_add(1);
        }
        if positive.saturating_mul(negative) >= MOST_PAIRS {
            return place + 1;
        }
    }
    live.len()
}

/// Eliminates the column from the rows that are left. Where the first rows make too many pairs, they are asked alone, so that no
/// more pairs than just too many are ever made; where these have no point, all have none.
pub(crate) fn advance<F: Test>(
    alloc: Global,
    system: &System,
    screen: &Screen<F>,
    column: u32,
    work: Work,
) -> Result<Work, Stop>
    requires column_in { column < system.now.columns }
    requires state { IsState system.now.columns system.now.rows work.made.items work.live.items }
    requires few { length work.made.items < 4096 }
    ensures ok { IfOk result (IsCancelled system.now.columns system.now.rows column work.made.items work.live.items) }
    ensures stop { IfErr result (λ stop. (keep : ℕ) → keep ≤ column → AreFrom keep work.made.items → IsStop system.now.columns system.now.rows keep stop) }
{
    let Work { live, made } = work;
    let count = enough(live.as_slice(), column as usize);
    if count < live.len() {
        let Ok(copy) = Vec::from_slice(alloc, made.as_slice()) else {
            return Err(Stop::Memory);
        };
        let first = &live.as_slice()[..count];
        match cancel(alloc, system, screen, column, first, copy) {
            Ok(part) => {
                if has_contradiction(part.live.as_slice()) {
                    return Ok(part);
                }
            }
            Err(stop) => return Err(stop),
        }
    }
    cancel(alloc, system, screen, column, live.as_slice(), made)
}
