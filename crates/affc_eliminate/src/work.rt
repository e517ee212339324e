//! One row more, or one pair more, of an elimination.
ghost use Rattle.std.specs.Prelude.{◌≡◌, ◌≢◌, ℕ, ◌^◌, ◌<◌, pos, ◌<ℤ◌, length, IfOk, IfErr};
ghost use Rattle.std.specs.List.{All, Contains};
ghost use Rattle.affc_farkas.specs.Multiples.{entry_of};
ghost use Rattle.affc_eliminate.specs.Steps.{AreReady};
ghost use Rattle.affc_eliminate.specs.Sieves.{AreAdmitted};
ghost use Rattle.affc_eliminate.specs.Works.{IsWork, IsGrown, IsStop, pair_of};

use crate::kept::Kept;
use crate::mixture::mixture;
use crate::screen::{Screen, Test};
use crate::sieve::admit;
use crate::weights::MixFault;
use affc_farkas::{Multipliers, Pair};
use std::alloc::{AllocError, Global};

/// The rows from which a column is eliminated, and the first number for new rows.
#[derive(Clone, Copy)]
pub(crate) struct Task<'a> {
    pub(crate) rows: &'a [Kept],
    pub(crate) column: u32,
    pub(crate) free: u32,
}

/// The rows that are kept, and the pairs that were made.
#[derive(Drop)]
pub(crate) struct Work {
    pub(crate) kept: Vec<Kept>,
    pub(crate) made: Vec<Pair>,
}

/// Why an elimination ends early.
#[derive(Drop)]
pub(crate) enum Stop {
    Memory,
    TooWide { made: Vec<Pair>, next: Pair },
}

/// The same row.
fn copied(alloc: Global, row: &Kept) -> Result<Kept, AllocError>
    ensures { IfOk result (λ k. k ≡ row.now) }
{
    let form = row.row.clone()?;
    let pairs = Vec::from_slice(alloc, row.from.pairs())?;
    let Some(from) = Multipliers::from_pairs(pairs) else {
        unreachable!()
    };
    Ok(Kept {
        row: form,
        from,
        number: row.number,
    })
}

/// A row that is 0 in the column stays.
pub(crate) fn keep_flat<F: Test>(
    alloc: Global,
    row: &Kept,
    screen: &Screen<F>,
    work: Work,
) -> Result<Work, Stop>
    requires { All (λ k. length k.row.coefs ≡ length row.now.row.coefs) work.kept.items }
    ensures admitted { IfOk result (λ new. AreAdmitted (F.answers screen.now.test) work.kept.items row.now new.kept.items) }
    ensures made { IfOk result (λ new. new.made.items ≡ work.made.items) }
    ensures stop { IfErr result (λ stop. stop ≡ Stop.Memory) }
{
    let Work { kept, made } = work;
    let Ok(copy) = copied(alloc, row) else {
        return Err(Stop::Memory);
    };
    match admit(alloc, kept, copy, screen) {
        Ok(kept) => Ok(Work { kept, made }),
        Err(_) => Err(Stop::Memory),
    }
}

/// Adds the row that cancels the column between two rows.
pub(crate) fn combine<F: Test>(
    alloc: Global,
    task: &Task,
    screen: &Screen<F>,
    first: &Kept,
    second: &Kept,
    work: Work,
) -> Result<Work, Stop>
    requires ready { AreReady task.now.rows.now task.now.column task.now.free }
    requires first_in { Contains task.now.rows.now first.now }
    requires second_in { Contains task.now.rows.now second.now }
    requires positive { pos 0 <ℤ entry_of first.now.row task.now.column }
    requires negative { entry_of second.now.row task.now.column <ℤ pos 0 }
    requires other { All (λ q. q ≢ pair_of task.now.column first.now second.now) work.made.items }
    requires work { IsWork (F.answers screen.now.test) task.now.rows.now task.now.column task.now.free work.kept.items work.made.items }
    requires few { length work.made.items < 2 ^ 26 }
    ensures ok { IfOk result (λ new. IsGrown (F.answers screen.now.test) task.now.rows.now task.now.column task.now.free first.now second.now work new) }
    ensures stop { IfErr result (λ stop. IsStop task.now.rows.now task.now.column task.now.free stop) }
{
    let Work { kept, made } = work;
    let next = Pair {
        first: first.number,
        second: second.number,
        column: task.column,
    };
    let number = task.free + made.len() as u32;
    let new = match mixture(alloc, first, second, task.column as usize, number) {
        Ok(new) => new,
        Err(MixFault::Wide) => return Err(Stop::TooWide { made, next }),
        Err(MixFault::Memory) => return Err(Stop::Memory),
    };
    let Ok(kept) = admit(alloc, kept, new, screen) else {
        return Err(Stop::Memory);
    };
    let mut made = made;
    match made.push(next) {
        Ok(()) => Ok(Work { kept, made }),
        Err(_) => Err(Stop::Memory),
    }
}
