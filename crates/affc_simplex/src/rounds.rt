//! Rounds of cuts at the least rational point of a box (Gomory): a line of the tableau whose variable isn't whole there gives
//! multiples of rows, reduced by the line's divisor, and their sum is divided by it. The cuts' lines are put into the tableau, and the
//! columns are made least again, until the point is whole or there is none.
//!
//! Nothing is promised of the cuts: whoever takes them makes each anew from its multiples of rows.
use crate::bounds::Bound;
use crate::cells::{at, put, sum_of};
use crate::least::{Least, Lowest, lowest_of};
use crate::number::Number;
use crate::pairs::put_pair;
use crate::simplex::{Outcome, Start, stand, started};
use crate::tableau::{Tableau, line_at, variable_at, width_of};
use affc_system::System;
use affc_system::system::MOST_ROWS;
use std::alloc::{AllocError, Global};

/// The most rounds.
const MOST_ROUNDS: u32 = 24;

/// The most lines that are cut in a round.
const MOST_LINES: usize = 3;

/// The greatest divisor of a cut.
const MOST_DIVISOR: i64 = 1 << 40;

/// A cut: multiples of rows, and the number by which their sum is divided.
#[derive(Drop)]
pub struct Cut {
    pub own: Vec<(u32, u64)>,
    pub g: i64,
}

/// What the rounds end in.
#[derive(Drop)]
pub enum Ending {
    /// Rows whose sum is below 0 in the whole box.
    Sum(Vec<(u32, u64)>),
    /// The least point.
    Least(Least),
}

/// Cuts and what is found with them. A cut is one of the system's rows and of the cuts before it, which have the numbers behind those
/// of the rows.
#[derive(Drop)]
pub struct Rounds {
    pub cuts: Vec<Cut>,
    pub ending: Ending,
}

/// A cut and its line in a tableau.
#[derive(Drop)]
struct Made<N> {
    cut: Cut,
    line: Vec<N>,
}

/// A tableau, and the cuts whose lines were put into it.
#[derive(Drop)]
struct Work<N> {
    tableau: Tableau<N>,
    cuts: Vec<Cut>,
}

/// What a round comes to.
#[derive(Drop)]
enum Round {
    Cut,
    Ended(Ending),
    Nothing,
    /// A number doesn't fit.
    TooGreat,
}

/// The row that keeps one of the other variables where it is.
#[derive(Clone, Copy)]
struct Keeper {
    row: u32,
    /// Whether the variable is at the high end of its range.
    down: bool,
    /// Whether it has one value alone.
    fixed: bool,
}

/// The row that keeps one of the other variables at this value.
fn keeper_of<N: Number>(variable: u32, value: N, bounds: &[Bound]) -> Option<Keeper> {
    match bounds.get(variable as usize) {
        Some(bound) => {
            let down = value.wide() != i128::from(bound.low);
            Some(Keeper {
                row: if down { bound.high_row } else { bound.low_row },
                down,
                fixed: bound.low == bound.high,
            })
        }
        None => {
            let row = (variable as usize).checked_sub(bounds.len())?;
            Some(Keeper {
                row: u32::try_from(row).ok()?,
                down: false,
                fixed: false,
            })
        }
    }
}

/// The rest of a number, or of its opposite, from 0 on.
fn rest_of<N: Number>(number: N, divisor: N, opposite: bool) -> Option<N> {
    let rest = number.rest(divisor);
    let rest = if opposite { rest.negated()? } else { rest };
    if rest.is_below(N::zero()) {
        rest.plus(divisor)
    } else {
        Some(rest)
    }
}

/// The divisor of a line, where it is within the limits.
fn divisor_of<N: Number>(divisor: N) -> Option<i64> {
    let g = i64::try_from(divisor.wide()).ok()?;
    if g > 1 && g <= MOST_DIVISOR {
        Some(g)
    } else {
        None
    }
}

/// Adds one of the other variables to a cut: the multiple of the row that keeps it, and its entry in the cut's line.
fn add_entry<N: Number>(
    made: &mut Made<N>,
    keeper: Keeper,
    times: N,
    value: N,
) -> Result<Option<()>, AllocError> {
    let Ok(count) = u64::try_from(times.magnitude()) else {
        return Ok(None);
    };
    if count > 0 {
        put_pair(&mut made.cut.own, keeper.row, count)?;
    }
    let Some(entry) = signed(times, keeper.down) else {
        return Ok(None);
    };
    made.line.push(entry)?;
    let Some(constant) = lessened(at(made.line.as_slice(), 0), entry, value) else {
        return Ok(None);
    };
    put(made.line.as_mut_slice(), 0, constant);
    Ok(Some(()))
}

/// A number or its opposite.
fn signed<N: Number>(number: N, opposite: bool) -> Option<N> {
    if opposite {
        number.negated()
    } else {
        Some(number)
    }
}

/// A number less a product.
fn lessened<N: Number>(number: N, first: N, second: N) -> Option<N> {
    number.plus(first.times(second)?.negated()?)
}

/// One of the two cuts of a line whose variable isn't whole: by the rests of its entries, or by those of their opposites. `None` where
/// a number doesn't fit.
fn cut_of<N: Number>(
    alloc: Global,
    tableau: &Tableau<N>,
    bounds: &[Bound],
    line: &[N],
    opposite: bool,
) -> Result<Option<Made<N>>, AllocError> {
    let [constant, divisor, entries @ ..] = line else {
        return Ok(None);
    };
    let values = tableau.cells.as_slice();
    let Some(g) = divisor_of(*divisor) else {
        return Ok(None);
    };
    let Some(above) = gap_of(*constant, *divisor, entries, values, opposite) else {
        return Ok(None);
    };
    let mut made = Made {
        cut: Cut {
            own: Vec::new(alloc),
            g,
        },
        line: Vec::with_capacity(alloc, line.len())?,
    };
    made.line.push(above)?;
    made.line.push(*divisor)?;
    for (j, entry) in entries.iter().enumerate() {
        let value = at(values, j);
        let variable = variable_at(tableau.variables.as_slice(), j);
        let Some(keeper) = keeper_of(variable, value, bounds) else {
            return Ok(None);
        };
        let Some(times) = times_of(*entry, *divisor, keeper, opposite) else {
            return Ok(None);
        };
        let Some(()) = add_entry(&mut made, keeper, times, value)? else {
            return Ok(None);
        };
    }
    Ok(Some(made))
}

/// How often the row of one of the other variables is in a cut.
fn times_of<N: Number>(entry: N, divisor: N, keeper: Keeper, opposite: bool) -> Option<N> {
    if keeper.fixed {
        return Some(N::zero());
    }
    rest_of(entry, divisor, keeper.down != opposite)
}

/// How far a cut is below 0 where the tableau stands, over the line's divisor. `None` where the line's variable is whole there.
fn gap_of<N: Number>(
    constant: N,
    divisor: N,
    entries: &[N],
    values: &[N],
    opposite: bool,
) -> Option<N> {
    let value = sum_of(constant, entries, values)?;
    let rest = rest_of(value, divisor, !opposite)?;
    if rest.is_zero() {
        return None;
    }
    rest.negated()
}

/// Adds both cuts of a line, where its variable isn't whole.
fn add_cuts<N: Number>(
    alloc: Global,
    tableau: &Tableau<N>,
    bounds: &[Bound],
    number: usize,
    found: &mut Vec<Made<N>>,
) -> Result<(), AllocError> {
    let Some(line) = line_at(tableau, bounds.len(), number) else {
        return Ok(());
    };
    if let Some(made) = cut_of(alloc, tableau, bounds, line, false)? {
        found.push(made)?;
    }
    if let Some(made) = cut_of(alloc, tableau, bounds, line, true)? {
        found.push(made)?;
    }
    Ok(())
}

/// The cuts of lines whose variables aren't whole: those of columns in their order, and then those of rows.
fn cuts_at<N: Number>(
    alloc: Global,
    tableau: &Tableau<N>,
    bounds: &[Bound],
) -> Result<Vec<Made<N>>, AllocError> {
    let columns = bounds.len();
    let most = MOST_LINES.saturating_mul(2);
    let mut found = Vec::new(alloc);
    let Some((_, basics)) = tableau.variables.as_slice().split_at_checked(columns) else {
        return Ok(found);
    };
    for column in 0..columns {
        for (number, basic) in basics.iter().enumerate() {
            if *basic as usize == column && found.len() < most {
                add_cuts(alloc, tableau, bounds, number, &mut found)?;
            }
        }
    }
    for (number, basic) in basics.iter().enumerate() {
        if *basic as usize >= columns && found.len() < most {
            add_cuts(alloc, tableau, bounds, number, &mut found)?;
        }
    }
    Ok(found)
}

/// Puts the lines of cuts into the tableau. Answers whether there are some.
fn put_cuts<N: Number>(
    work: &mut Work<N>,
    found: Vec<Made<N>>,
    columns: usize,
    rows: usize,
) -> Result<bool, AllocError> {
    let mut some = false;
    for made in found {
        let Made { cut, line } = made;
        let number = rows.saturating_add(work.cuts.len());
        if number < MOST_ROWS {
            let variable = u32::try_from(columns.saturating_add(number)).unwrap_or(0);
            work.tableau.variables.push(variable)?;
            for cell in line.iter() {
                work.tableau.cells.push(*cell)?;
            }
            work.cuts.push(cut)?;
            some = true;
        }
    }
    Ok(some)
}

/// The tableau without the lines of cuts that don't hold it where it stands.
fn without_slack<N: Number>(
    alloc: Global,
    tableau: &Tableau<N>,
    columns: usize,
    rows: usize,
) -> Result<Tableau<N>, AllocError> {
    let first = columns.saturating_add(rows);
    let mut kept = Tableau {
        cells: Vec::with_capacity(alloc, tableau.cells.len())?,
        variables: Vec::with_capacity(alloc, tableau.variables.len())?,
        left: tableau.left,
    };
    for (place, variable) in tableau.variables.iter().enumerate() {
        match place.checked_sub(columns) {
            None => {
                kept.variables.push(*variable)?;
                kept.cells.push(at(tableau.cells.as_slice(), place))?;
            }
            Some(number) => {
                if let (true, Some(line)) = (
                    (*variable as usize) < first,
                    line_at(tableau, columns, number),
                ) {
                    kept.variables.push(*variable)?;
                    for cell in line {
                        kept.cells.push(*cell)?;
                    }
                }
            }
        }
    }
    Ok(kept)
}

/// One round.
fn one_round<N: Number>(
    alloc: Global,
    work: &mut Work<N>,
    bounds: &[Bound],
    rows: usize,
) -> Result<Round, AllocError> {
    let columns = bounds.len();
    match stand(alloc, &mut work.tableau, bounds)? {
        Some(Outcome::Sum(sum)) => return Ok(Round::Ended(Ending::Sum(sum))),
        Some(Outcome::TooGreat) => return Ok(Round::TooGreat),
        Some(Outcome::Nothing | Outcome::Vertex(_, _)) => return Ok(Round::Nothing),
        None => {}
    }
    match lowest_of(alloc, &mut work.tableau, bounds)? {
        Lowest::Whole(least) => return Ok(Round::Ended(Ending::Least(least))),
        Lowest::Failed => return Ok(Round::TooGreat),
        Lowest::Parted => {}
    }
    let kept = without_slack(alloc, &work.tableau, columns, rows)?;
    work.tableau = kept;
    let found = cuts_at(alloc, &work.tableau, bounds)?;
    if put_cuts(work, found, columns, rows)? {
        Ok(Round::Cut)
    } else {
        Ok(Round::Nothing)
    }
}

/// What is found by rounds, with numbers of one width.
#[derive(Drop)]
enum Found {
    Rounds(Rounds),
    Nothing,
    /// A number doesn't fit.
    TooGreat,
}

/// The rounds, with numbers of one width.
fn rounds_in<N: Number>(
    alloc: Global,
    system: &System,
    bounds: &[Bound],
) -> Result<Found, AllocError> {
    let rows = system.rows().len();
    let tableau = match started::<N>(alloc, system, bounds)? {
        Start::Tableau(tableau) => tableau,
        Start::Ended(Outcome::TooGreat) => return Ok(Found::TooGreat),
        Start::Ended(_) => return Ok(Found::Nothing),
    };
    let mut work = Work {
        tableau,
        cuts: Vec::new(alloc),
    };
    for _ in 0..MOST_ROUNDS {
        match one_round(alloc, &mut work, bounds, rows)? {
            Round::Cut => {}
            Round::Ended(ending) => {
                let Work { tableau: _, cuts } = work;
                return Ok(Found::Rounds(needed(alloc, cuts, ending, rows)?));
            }
            Round::Nothing => return Ok(Found::Nothing),
            Round::TooGreat => return Ok(Found::TooGreat),
        }
    }
    Ok(Found::Nothing)
}

/// Marks the cuts among these rows.
fn mark(used: &mut [bool], rows: usize, pairs: &[(u32, u64)]) {
    for pair in pairs {
        if let Some(place) = (pair.0 as usize).checked_sub(rows) {
            if place < used.len() {
                used[place] = true;
            }
        }
    }
}

/// Marks the cuts that an ending uses.
fn mark_ending(used: &mut [bool], rows: usize, ending: &Ending) {
    match ending {
        Ending::Sum(sum) => mark(used, rows, sum.as_slice()),
        Ending::Least(least) => {
            for sum in least.sums.iter() {
                mark(used, rows, sum.as_slice());
            }
        }
    }
}

/// The numbers that rows get where only the cuts that are marked are kept.
fn numbers_of(alloc: Global, used: &[bool], rows: usize) -> Result<Vec<u32>, AllocError> {
    let mut numbers = Vec::with_capacity(alloc, used.len())?;
    let mut next = u32::try_from(rows).unwrap_or(0);
    for mark in used {
        numbers.push(next)?;
        if *mark {
            next = next.saturating_add(1);
        }
    }
    Ok(numbers)
}

/// Gives rows their new numbers.
fn renumber(pairs: &mut [(u32, u64)], rows: usize, numbers: &[u32]) {
    for pair in pairs.iter_mut() {
        if let Some(place) = (pair.0 as usize).checked_sub(rows) {
            if let Some(number) = numbers.get(place) {
                pair.0 = *number;
            }
        }
    }
}

/// Gives the rows of an ending their new numbers.
fn renumber_ending(ending: &mut Ending, rows: usize, numbers: &[u32]) {
    match ending {
        Ending::Sum(sum) => renumber(sum.as_mut_slice(), rows, numbers),
        Ending::Least(least) => {
            for sum in least.sums.iter_mut() {
                renumber(sum.as_mut_slice(), rows, numbers);
            }
        }
    }
}

/// Marks the cuts that the ending or a needed cut behind them uses.
fn marks_of(
    alloc: Global,
    cuts: &[Cut],
    ending: &Ending,
    rows: usize,
) -> Result<Vec<bool>, AllocError> {
    let mut marks = vec![in alloc; false; cuts.len()]?;
    let used = marks.as_mut_slice();
    mark_ending(used, rows, ending);
    for (before, cut) in cuts.iter().rev().enumerate() {
        let place = used.len().saturating_sub(before).saturating_sub(1);
        if is_marked(used, place) {
            mark(used, rows, cut.own.as_slice());
        }
    }
    Ok(marks)
}

/// The cuts that are marked, with the new numbers of their rows.
fn marked(
    alloc: Global,
    cuts: Vec<Cut>,
    used: &[bool],
    rows: usize,
    numbers: &[u32],
) -> Result<Vec<Cut>, AllocError> {
    let mut kept = Vec::new(alloc);
    for (place, mut cut) in cuts.into_iter().enumerate() {
        if is_marked(used, place) {
            renumber(cut.own.as_mut_slice(), rows, numbers);
            kept.push(cut)?;
        }
    }
    Ok(kept)
}

/// The cuts that the ending or a needed cut behind them uses, and the ending.
fn needed(
    alloc: Global,
    cuts: Vec<Cut>,
    mut ending: Ending,
    rows: usize,
) -> Result<Rounds, AllocError> {
    let used = marks_of(alloc, cuts.as_slice(), &ending, rows)?;
    let numbers = numbers_of(alloc, used.as_slice(), rows)?;
    renumber_ending(&mut ending, rows, numbers.as_slice());
    let cuts = marked(alloc, cuts, used.as_slice(), rows, numbers.as_slice())?;
    Ok(Rounds { cuts, ending })
}

/// Whether a cut is marked.
fn is_marked(used: &[bool], place: usize) -> bool {
    match used.get(place) {
        Some(mark) => *mark,
        None => false,
    }
}

/// Cuts at the least rational point of a box, one round upon another, and what is found with them: rows whose sum is below 0 in the
/// whole box, or the least point. The box has a range for each column of the system, whose rows say the ranges too.
pub fn rounds_at(
    alloc: Global,
    system: &System,
    bounds: &[Bound],
) -> Result<Option<Rounds>, AllocError> {
    let found = match rounds_in::<i64>(alloc, system, bounds)? {
        Found::TooGreat => rounds_in::<i128>(alloc, system, bounds)?,
        found => found,
    };
    match found {
        Found::Rounds(rounds) => Ok(Some(rounds)),
        Found::Nothing | Found::TooGreat => Ok(None),
    }
}
