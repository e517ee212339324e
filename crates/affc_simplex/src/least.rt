//! The lexicographically least rational point of a box at which every row is at least 0, from a tableau that stands at such a point:
//! column by column the others are moved so that it gets less, and then those on which it depends are frozen (Feautrier's
//! parametric integer programming takes the least point in the same order).
//!
//! Nothing is promised of it: whoever takes the point tests it, and the sums by which no whole point comes before it.
use crate::bounds::Bound;
use crate::cells::{at, combine_all, positive, put, sum_of};
use crate::number::Number;
use crate::simplex::push_slack;
use crate::tableau::{
    Broken, Tableau, Way, can_help, entries_at, exchange, high_of, line_at, low_of, put_variable,
    spend, variable_at,
};
use std::alloc::{AllocError, Global};

/// The most moves for one column.
pub(crate) const MOST_MOVES: u32 = 400;

/// A whole point, one number for each column, and for each column multiples of rows, by their numbers, whose sum says that the column isn't less where those before it are as here.
/// A column at the low end of its range has none.
#[derive(Drop)]
pub struct Least {
    pub point: Vec<i64>,
    pub sums: Vec<Vec<(u32, u64)>>,
}

/// The place of a variable among these.
pub(crate) fn place_among(variables: &[u32], variable: u32) -> Option<usize> {
    for (place, other) in variables.iter().enumerate() {
        if *other == variable {
            return Some(place);
        }
    }
    None
}

/// One of the other variables, by its place, and the way in which it moves.
#[derive(Clone, Copy)]
pub(crate) struct Entering {
    pub(crate) place: usize,
    pub(crate) way: Way,
}

/// What is done for a column next.
#[derive(Clone, Copy)]
enum Move {
    Done,
    Enter(Entering),
}

/// Freezes the other variables on which a line depends: the stage is that of the column for which it is done, from 1 on.
fn freeze<N: Number>(entries: &[N], stages: &mut [u32], stage: u32) {
    for (j, entry) in entries.iter().enumerate() {
        if !entry.is_zero() && variable_at(stages, j) == 0 {
            put_variable(stages, j, stage);
        }
    }
}

/// The first of the other variables, in the order of their numbers, that isn't frozen and can make a line less.
fn lessening<N: Number>(
    entries: &[N],
    values: &[N],
    others: &[u32],
    stages: &[u32],
    bounds: &[Bound],
) -> Option<Entering> {
    let mut found = None;
    let mut least = u32::MAX;
    for (place, entry) in entries.iter().enumerate() {
        let variable = variable_at(others, place);
        if variable_at(stages, place) == 0
            && variable < least
            && can_help(variable, at(values, place), *entry, Way::Down, bounds)
        {
            least = variable;
            let way = if entry.is_below(N::zero()) {
                Way::Up
            } else {
                Way::Down
            };
            found = Some(Entering { place, way });
        }
    }
    found
}

/// What is done next so that a column that is one of the other variables gets less.
fn move_of_other<N: Number>(
    value: N,
    bounds: &[Bound],
    stages: &mut [u32],
    place: usize,
    column: u32,
) -> Move {
    if variable_at(stages, place) != 0 {
        return Move::Done;
    }
    let low: N = low_of(column, bounds);
    if low.is_below(value) {
        let way = Way::Down;
        return Move::Enter(Entering { place, way });
    }
    put_variable(stages, place, column.saturating_add(1));
    Move::Done
}

/// What is done next so that a column gets less. Where nothing can be, what it depends on is frozen.
fn next_move<N: Number>(
    tableau: &Tableau<N>,
    bounds: &[Bound],
    stages: &mut [u32],
    column: u32,
) -> Option<Move> {
    let columns = bounds.len();
    let (others, basics) = tableau.variables.as_slice().split_at_checked(columns)?;
    let values = tableau.cells.as_slice();
    if let Some(place) = place_among(others, column) {
        let value = at(values, place);
        return Some(move_of_other(value, bounds, stages, place, column));
    }
    let entries = entries_at(tableau, columns, place_among(basics, column)?)?;
    if let Some(entering) = lessening(entries, values, others, stages, bounds) {
        return Some(Move::Enter(entering));
    }
    freeze(entries, stages, column.saturating_add(1));
    Some(Move::Done)
}

/// How far a variable can move: a quotient, and the line whose variable then meets an end of its range, if one does.
#[derive(Clone, Copy)]
struct Reach<N> {
    over: N,
    by: N,
    line: Option<usize>,
    variable: u32,
    end: N,
}

/// Whether a line stops a variable before another reach does, or at the same time and has a lesser number. `None` where a number
/// doesn't fit.
fn is_nearer<N: Number>(one: &Reach<N>, other: &Reach<N>) -> Option<bool> {
    let here = one.over.times(other.by)?;
    let there = other.over.times(one.by)?;
    let is_first = other.line.is_some() && one.variable < other.variable;
    Some(here.is_below(there) || (!there.is_below(here) && is_first))
}

/// How far a variable can move within its own range.
fn own_reach<N: Number>(variable: u32, way: Way, bounds: &[Bound]) -> Option<Option<Reach<N>>> {
    let low: N = low_of(variable, bounds);
    let Some(high) = high_of::<N>(variable, bounds) else {
        return Some(None);
    };
    Some(Some(Reach {
        over: high.plus(low.negated()?)?,
        by: N::one(),
        line: None,
        variable,
        end: if way == Way::Up { high } else { low },
    }))
}

/// The end of a variable's range on this side.
fn end_of<N: Number>(variable: u32, up: bool, bounds: &[Bound]) -> Option<N> {
    if up {
        high_of(variable, bounds)
    } else {
        Some(low_of(variable, bounds))
    }
}

/// How far a variable can move until the variable of a line of this number meets an end of its range.
fn reach_in<N: Number>(
    tableau: &Tableau<N>,
    bounds: &[Bound],
    entering: Entering,
    number: usize,
) -> Option<Option<Reach<N>>> {
    let columns = bounds.len();
    let [constant, divisor, entries @ ..] = line_at(tableau, columns, number)? else {
        return None;
    };
    let entry = at(entries, entering.place);
    if entry.is_zero() {
        return Some(None);
    }
    let variable = variable_at(tableau.variables.as_slice(), columns.saturating_add(number));
    let up = entry.is_below(N::zero()) != (entering.way == Way::Up);
    let Some(end) = end_of::<N>(variable, up, bounds) else {
        return Some(None);
    };
    let value = sum_of(*constant, entries, tableau.cells.as_slice())?;
    let gap = end.times(*divisor)?.plus(value.negated()?)?;
    Some(Some(Reach {
        over: if up { gap } else { gap.negated()? },
        by: positive(entry)?,
        line: Some(number),
        variable,
        end,
    }))
}

/// The nearer of a reach and what was found in a line.
fn nearer<N: Number>(reach: Option<Reach<N>>, found: Reach<N>) -> Option<Reach<N>> {
    let Some(reach) = reach else {
        return Some(found);
    };
    if is_nearer(&found, &reach)? {
        Some(found)
    } else {
        Some(reach)
    }
}

/// How far one of the other variables can move. `None` where a number doesn't fit.
fn reach_to<N: Number>(
    tableau: &Tableau<N>,
    bounds: &[Bound],
    entering: Entering,
) -> Option<Option<Reach<N>>> {
    let columns = bounds.len();
    let (others, basics) = tableau.variables.as_slice().split_at_checked(columns)?;
    let mut reach = own_reach(variable_at(others, entering.place), entering.way, bounds)?;
    for number in 0..basics.len() {
        if let Some(found) = reach_in(tableau, bounds, entering, number)? {
            reach = Some(nearer(reach, found)?);
        }
    }
    Some(reach)
}

/// Moves one of the other variables as far as it can.
pub(crate) fn moved<N: Number>(
    tableau: &mut Tableau<N>,
    bounds: &[Bound],
    entering: Entering,
) -> Option<()> {
    spend(tableau)?;
    let reach = reach_to(tableau, bounds, entering)??;
    let Some(line) = reach.line else {
        put(tableau.cells.as_mut_slice(), entering.place, reach.end);
        return Some(());
    };
    let broken = Broken {
        line,
        way: entering.way,
        end: reach.end,
    };
    exchange(tableau, bounds.len(), broken, entering.place)
}

/// Makes a column as little as it can be. `None` where that fails.
fn settle<N: Number>(
    tableau: &mut Tableau<N>,
    bounds: &[Bound],
    stages: &mut [u32],
    column: u32,
) -> Option<()> {
    for _ in 0..MOST_MOVES {
        match next_move(tableau, bounds, stages, column)? {
            Move::Done => return Some(()),
            Move::Enter(entering) => moved(tableau, bounds, entering)?,
        }
    }
    None
}

/// The value of a column, where it is whole.
fn whole_value<N: Number>(tableau: &Tableau<N>, columns: usize, column: u32) -> Option<i64> {
    let (others, basics) = tableau.variables.as_slice().split_at_checked(columns)?;
    let values = tableau.cells.as_slice();
    if let Some(place) = place_among(others, column) {
        return i64::try_from(at(values, place).wide()).ok();
    }
    let line = line_at(tableau, columns, place_among(basics, column)?)?;
    let [constant, divisor, entries @ ..] = line else {
        return None;
    };
    let value = sum_of(*constant, entries, values)?;
    if !value.rest(*divisor).is_zero() {
        return None;
    }
    i64::try_from(value.over(*divisor).wide()).ok()
}

/// A tableau at the least point, and the stage at which each of the other variables was frozen.
#[derive(Drop)]
struct Settled<'a, N> {
    tableau: &'a Tableau<N>,
    bounds: &'a [Bound],
    stages: &'a [u32],
}

/// One of the other variables as a sum of them: itself.
fn itself<N: Number>(alloc: Global, others: &[u32], column: u32) -> Result<Vec<N>, AllocError> {
    let mut weights = Vec::with_capacity(alloc, others.len())?;
    for other in others {
        let weight = if *other == column {
            N::one()
        } else {
            N::zero()
        };
        weights.push(weight)?;
    }
    Ok(weights)
}

/// A column as a sum of the other variables: the entries of its line. A column that is one of them, frozen away from its low end
/// for one before it, is itself.
fn weights_of<N: Number>(
    alloc: Global,
    settled: &Settled<'_, N>,
    column: u32,
) -> Result<Option<Vec<N>>, AllocError> {
    let columns = settled.bounds.len();
    let variables = settled.tableau.variables.as_slice();
    let Some((others, basics)) = variables.split_at_checked(columns) else {
        return Ok(None);
    };
    match place_among(basics, column) {
        Some(number) => match entries_at(settled.tableau, columns, number) {
            Some(entries) => Ok(Some(Vec::from_slice(alloc, entries)?)),
            None => Ok(None),
        },
        None => Ok(Some(itself(alloc, others, column)?)),
    }
}

/// The quotient of two magnitudes, rounded up.
fn times_needed<N: Number>(entry: N, other: N) -> Option<N> {
    let divisor = other.magnitude();
    if divisor == 0 {
        return None;
    }
    let quotient = entry.magnitude().div_ceil(divisor);
    N::from_wide(i128::try_from(quotient).ok()?)
}

/// Whether a variable that was frozen at this stage can make a column's sum less.
fn is_held<N: Number>(
    settled: &Settled<'_, N>,
    column: u32,
    stage: u32,
    place: usize,
    weight: N,
) -> bool {
    let variable = variable_at(settled.tableau.variables.as_slice(), place);
    let value = at(settled.tableau.cells.as_slice(), place);
    variable_at(settled.stages, place) == stage
        && variable >= column
        && can_help(variable, value, weight, Way::Down, settled.bounds)
}

/// How often an earlier column's line has to be added, so that no variable that was frozen for it can make the sum less.
fn multiple_for<N: Number>(
    settled: &Settled<'_, N>,
    column: u32,
    stage: u32,
    weights: &[N],
    helpers: &[N],
) -> Option<N> {
    let mut needed = N::zero();
    for (j, weight) in weights.iter().enumerate() {
        if is_held(settled, column, stage, j, *weight) {
            let times = times_needed(*weight, at(helpers, j))?;
            if needed.is_below(times) {
                needed = times;
            }
        }
    }
    Some(needed)
}

/// Adds the line of one column before, so that nothing that was frozen for it can make the sum less.
fn cancel_at<N: Number>(
    settled: &Settled<'_, N>,
    column: u32,
    before: u32,
    weights: &mut [N],
) -> Option<()> {
    let columns = settled.bounds.len();
    let (_, basics) = settled
        .tableau
        .variables
        .as_slice()
        .split_at_checked(columns)?;
    let Some(number) = place_among(basics, before) else {
        return Some(());
    };
    let helpers = entries_at(settled.tableau, columns, number)?;
    let times = multiple_for(settled, column, before.saturating_add(1), weights, helpers)?;
    if times.is_zero() {
        return Some(());
    }
    combine_all(N::one(), weights, times, helpers)
}

/// Adds lines of the columns before, so that nothing that was frozen for them can make the sum less.
fn cancel<N: Number>(settled: &Settled<'_, N>, column: u32, weights: &mut [N]) -> Option<()> {
    for before in (0..column).rev() {
        cancel_at(settled, column, before, weights)?;
    }
    Some(())
}

/// The multiples of rows by which a column isn't less. `None` where they don't fit.
fn sum_for<N: Number>(
    alloc: Global,
    settled: &Settled<'_, N>,
    column: u32,
) -> Result<Option<Vec<(u32, u64)>>, AllocError> {
    let columns = settled.bounds.len();
    let Some(mut weights) = weights_of(alloc, settled, column)? else {
        return Ok(None);
    };
    let Some(()) = cancel(settled, column, weights.as_mut_slice()) else {
        return Ok(None);
    };
    let mut rows = Vec::with_capacity(alloc, columns)?;
    for (j, weight) in weights.iter().enumerate() {
        let variable = variable_at(settled.tableau.variables.as_slice(), j);
        if N::zero().is_below(*weight) {
            push_slack(&mut rows, variable, columns, weight.magnitude())?;
        }
    }
    Ok(Some(rows))
}

/// What comes of the columns' values.
#[derive(Clone, Copy)]
enum Values {
    Whole,
    /// One isn't whole.
    Parted,
    /// They aren't found.
    Failed,
}

/// Sets a point to the columns' values one after another, each as little as it can be, until one isn't whole.
fn least_values<N: Number>(
    tableau: &mut Tableau<N>,
    bounds: &[Bound],
    stages: &mut [u32],
    point: &mut [i64],
) -> Values {
    for (j, value) in point.iter_mut().enumerate() {
        let column = u32::try_from(j).unwrap_or(0);
        let Some(()) = settle(tableau, bounds, stages, column) else {
            return Values::Failed;
        };
        let Some(least) = whole_value(tableau, bounds.len(), column) else {
            return Values::Parted;
        };
        *value = least;
    }
    Values::Whole
}

/// The sum by which a column isn't less than its value. There is none at the low end of its range.
fn sum_at<N: Number>(
    alloc: Global,
    settled: &Settled<'_, N>,
    column: u32,
    is_low: bool,
) -> Result<Option<Vec<(u32, u64)>>, AllocError> {
    if is_low {
        return Ok(Some(Vec::new(alloc)));
    }
    sum_for(alloc, settled, column)
}

/// The sums by which no column is less.
fn sums_for<N: Number>(
    alloc: Global,
    settled: &Settled<'_, N>,
    point: &[i64],
) -> Result<Option<Vec<Vec<(u32, u64)>>>, AllocError> {
    let mut sums = Vec::with_capacity(alloc, point.len())?;
    for (j, (value, bound)) in point.iter().zip(settled.bounds.iter()).enumerate() {
        let column = u32::try_from(j).unwrap_or(0);
        let Some(sum) = sum_at(alloc, settled, column, *value <= bound.low)? else {
            return Ok(None);
        };
        sums.push(sum)?;
    }
    Ok(Some(sums))
}

/// The least rational point.
#[derive(Drop)]
pub(crate) enum Lowest {
    Whole(Least),
    /// A column isn't whole.
    Parted,
    /// It isn't found.
    Failed,
}

/// The least rational point, from a tableau at which every variable is in its range. Where a column isn't whole, those behind it
/// aren't looked at.
pub(crate) fn lowest_of<N: Number>(
    alloc: Global,
    tableau: &mut Tableau<N>,
    bounds: &[Bound],
) -> Result<Lowest, AllocError> {
    let mut stages = vec![in alloc; 0u32; bounds.len()]?;
    let mut point = vec![in alloc; 0i64; bounds.len()]?;
    match least_values(tableau, bounds, stages.as_mut_slice(), point.as_mut_slice()) {
        Values::Whole => {}
        Values::Parted => return Ok(Lowest::Parted),
        Values::Failed => return Ok(Lowest::Failed),
    }
    let settled = Settled {
        tableau,
        bounds,
        stages: stages.as_slice(),
    };
    match sums_for(alloc, &settled, point.as_slice())? {
        Some(sums) => Ok(Lowest::Whole(Least { point, sums })),
        None => Ok(Lowest::Failed),
    }
}

/// The least point, from a tableau at which every variable is in its range. `None` where it isn't whole or isn't found.
pub(crate) fn least_of<N: Number>(
    alloc: Global,
    tableau: &mut Tableau<N>,
    bounds: &[Bound],
) -> Result<Option<Least>, AllocError> {
    match lowest_of(alloc, tableau, bounds)? {
        Lowest::Whole(least) => Ok(Some(least)),
        Lowest::Parted | Lowest::Failed => Ok(None),
    }
}
