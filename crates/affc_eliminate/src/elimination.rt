//! A column eliminated from rows, with a stored screen.
ghost use Rattle.std.specs.Prelude.{◌≡◌, ◌⊎◌, ◌↔◌, ℕ, ◌+◌, ◌<◌, length, IfOk, IfErr, IsTrue};
ghost use Rattle.affc_eliminate.specs.Steps.{AreReady, AreEliminated, IsStep};
ghost use Rattle.affc_eliminate.specs.Works.{IsStop, IsPositiveAt, IsCrossing, AreOpposite, IsReplacing};

use crate::kept::{Kept, Step};
use crate::opposites::{Places, opposites};
use crate::screen::{Screen, Test};
use crate::work::{Stop, Task, Work, combine, keep_flat};
use affc_farkas::row::entry;
use std::alloc::{AllocError, Global};

/// The pair of a positive row with the row at this place, where that is negative.
fn cross_pair<F: Test>(
    alloc: Global,
    task: &Task,
    screen: &Screen<F>,
    i: usize,
    j: usize,
    work: Work,
) -> Result<Work, Stop>
    requires ready { AreReady task.now.rows.now task.now.column task.now.free }
    requires i_in { i < length task.now.rows.now }
    requires j_in { j < length task.now.rows.now }
    requires positive { IsPositiveAt task.now.rows.now task.now.column i }
    requires state { IsCrossing (F.answers screen.now.test) task.now.rows.now task.now.column task.now.free i j work }
    ensures ok { IfOk result (λ new. IsCrossing (F.answers screen.now.test) task.now.rows.now task.now.column task.now.free i (j + 1) new) }
    ensures stop { IfErr result (λ stop. IsStop task.now.rows.now task.now.column task.now.free stop) }
{
    let first = &task.rows[i];
    let second = &task.rows[j];
    if entry(&second.row, task.column as usize) < 0 {
        combine(alloc, task, screen, first, second, work)
    } else {
        Ok(work)
    }
}

/// The pairs of a positive row with each negative one.
fn cross_row<F: Test>(
    alloc: Global,
    task: &Task,
    screen: &Screen<F>,
    i: usize,
    work: Work,
) -> Result<Work, Stop>
    requires ready { AreReady task.now.rows.now task.now.column task.now.free }
    requires i_in { i < length task.now.rows.now }
    requires positive { IsPositiveAt task.now.rows.now task.now.column i }
    requires state { IsCrossing (F.answers screen.now.test) task.now.rows.now task.now.column task.now.free i 0 work }
    ensures ok { IfOk result (λ new. IsCrossing (F.answers screen.now.test) task.now.rows.now task.now.column task.now.free i (length task.now.rows.now) new) }
    ensures stop { IfErr result (λ stop. IsStop task.now.rows.now task.now.column task.now.free stop) }
{
    let mut work = work;
    for j in 0..task.rows.len() {
        work = match cross_pair(alloc, task, screen, i, j, work) {
            Ok(new) => new,
            Err(stop) => return Err(stop),
        };
    }
    Ok(work)
}

/// What becomes of the row at this place: it stays, or it is positive and combined with each negative one.
fn cross_place<F: Test>(
    alloc: Global,
    task: &Task,
    screen: &Screen<F>,
    i: usize,
    work: Work,
) -> Result<Work, Stop>
    requires ready { AreReady task.now.rows.now task.now.column task.now.free }
    requires i_in { i < length task.now.rows.now }
    requires state { IsCrossing (F.answers screen.now.test) task.now.rows.now task.now.column task.now.free i 0 work }
    ensures ok { IfOk result (λ new. IsCrossing (F.answers screen.now.test) task.now.rows.now task.now.column task.now.free (i + 1) 0 new) }
    ensures stop { IfErr result (λ stop. IsStop task.now.rows.now task.now.column task.now.free stop) }
{
    let row = &task.rows[i];
    let coefficient = entry(&row.row, task.column as usize);
    if coefficient == 0 {
        keep_flat(alloc, row, screen, work)
    } else if coefficient > 0 {
        cross_row(alloc, task, screen, i, work)
    } else {
        Ok(work)
    }
}

/// Each positive row is combined with each negative one.
fn cross<F: Test>(alloc: Global, task: &Task, screen: &Screen<F>) -> Result<Work, Stop>
    requires { AreReady task.now.rows.now task.now.column task.now.free }
    ensures ok { IfOk result (λ new. IsCrossing (F.answers screen.now.test) task.now.rows.now task.now.column task.now.free (length task.now.rows.now) 0 new) }
    ensures stop { IfErr result (λ stop. IsStop task.now.rows.now task.now.column task.now.free stop) }
{
    let mut work = Work {
        kept: Vec::new(alloc),
        made: Vec::new(alloc),
    };
    for i in 0..task.rows.len() {
        work = match cross_place(alloc, task, screen, i, work) {
            Ok(new) => new,
            Err(stop) => return Err(stop),
        };
    }
    Ok(work)
}

/// Whether the place is one of the two.
fn is_one(two: Places, i: usize) -> bool
    ensures { IsTrue result ↔ (i ≡ two.positive) ⊎ (i ≡ two.negative) }
{
    i == two.positive || i == two.negative
}

/// What becomes of the row at this place beside two opposite rows: it stays, or it is combined with the one of the other sign.
fn replace_place<F: Test>(
    alloc: Global,
    task: &Task,
    screen: &Screen<F>,
    two: Places,
    i: usize,
    work: Work,
) -> Result<Work, Stop>
    requires ready { AreReady task.now.rows.now task.now.column task.now.free }
    requires two { AreOpposite task.now.rows.now task.now.column two.positive two.negative }
    requires i_in { i < length task.now.rows.now }
    requires state { IsReplacing (F.answers screen.now.test) task.now.rows.now task.now.column task.now.free two.positive two.negative i work }
    ensures ok { IfOk result (λ new. IsReplacing (F.answers screen.now.test) task.now.rows.now task.now.column task.now.free two.positive two.negative (i + 1) new) }
    ensures stop { IfErr result (λ stop. IsStop task.now.rows.now task.now.column task.now.free stop) }
{
    let row = &task.rows[i];
    let coefficient = entry(&row.row, task.column as usize);
    if coefficient == 0 {
        keep_flat(alloc, row, screen, work)
    } else if is_one(two, i) {
        Ok(work)
    } else if coefficient > 0 {
        combine(alloc, task, screen, row, &task.rows[two.negative], work)
    } else {
        combine(alloc, task, screen, &task.rows[two.positive], row, work)
    }
}

/// Each row but two opposite ones is combined with one of these.
fn replace<F: Test>(
    alloc: Global,
    task: &Task,
    screen: &Screen<F>,
    two: Places,
) -> Result<Work, Stop>
    requires ready { AreReady task.now.rows.now task.now.column task.now.free }
    requires two { AreOpposite task.now.rows.now task.now.column two.positive two.negative }
    ensures ok { IfOk result (λ new. IsReplacing (F.answers screen.now.test) task.now.rows.now task.now.column task.now.free two.positive two.negative (length task.now.rows.now) new) }
    ensures stop { IfErr result (λ stop. IsStop task.now.rows.now task.now.column task.now.free stop) }
{
    let mut work = Work {
        kept: Vec::new(alloc),
        made: Vec::new(alloc),
    };
    for i in 0..task.rows.len() {
        work = match replace_place(alloc, task, screen, two, i, work) {
            Ok(new) => new,
            Err(stop) => return Err(stop),
        };
    }
    Ok(work)
}

/// Each positive row is combined with each negative one, or where two rows are opposite, each other row with one of these.
fn run<F: Test>(alloc: Global, task: &Task, screen: &Screen<F>) -> Result<Work, Stop>
    requires { AreReady task.now.rows.now task.now.column task.now.free }
    ensures ok { IfOk result (λ new. AreEliminated (F.answers screen.now.test) task.now.rows.now task.now.column task.now.free new.kept.items new.made.items) }
    ensures stop { IfErr result (λ stop. IsStop task.now.rows.now task.now.column task.now.free stop) }
{
    match opposites(task.rows, task.column as usize) {
        Some(two) => replace(alloc, task, screen, two),
        None => cross(alloc, task, screen),
    }
}

/// Eliminates a column (Fourier and Motzkin): rows that are 0 in it stay, and each positive row is combined with each negative one. Where
/// a row and its opposite stand among the rows, each other row is combined with one of these two alone.
///
/// A row that the screen finds implied by another is left out; of two that imply each other, either may be kept.
pub fn eliminate<F: Test>(
    alloc: Global,
    rows: &[Kept],
    column: u32,
    free: u32,
    screen: &Screen<F>,
) -> Result<Step, AllocError>
    requires { AreReady rows.now column free }
    ensures { IfOk result (IsStep (F.answers screen.now.test) rows.now column free) }
{
    let task = Task { rows, column, free };
    match run(alloc, &task, screen) {
        Ok(work) => {
            let Work { kept, made } = work;
            Ok(Step::Rows { rows: kept, made })
        }
        Err(Stop::TooWide { made, next }) => Ok(Step::TooWide { made, next }),
        Err(Stop::Memory) => Err(AllocError),
    }
}
