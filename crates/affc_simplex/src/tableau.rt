//! Tableaus, and the exchange of a basic variable with another one.
ghost use Rattle.std.specs.Prelude.{◌<◌};

use crate::bounds::Bound;
use crate::cells::{at, combine_all, combined, negate_all, positive, put, reduce};
use crate::number::Number;

/// The most cells that moves go over in one tableau, however many rounds cut it: many rows mean few moves.
pub(crate) const MOST_CELLS: usize = 1 << 25;

/// The basic variables as sums of multiples of the other ones and a constant, each over a divisor of its own.
///
/// The variables are the columns, and then a slack for each row of the system, which is the row's value. `cells` has the values of
/// the other variables, and then a line for each basic one: its constant, its divisor, and an entry for each of the others.
/// `variables` has the others, and then the basic ones in the order of their lines.
#[derive(Drop)]
pub(crate) struct Tableau<N> {
    pub(crate) cells: Vec<N>,
    pub(crate) variables: Vec<u32>,
    /// How many more cells moves may go over.
    pub(crate) left: usize,
}

/// Takes what a move goes over from what is left. `None` where that isn't enough.
pub(crate) fn spend<N: Number>(tableau: &mut Tableau<N>) -> Option<()> {
    tableau.left = tableau.left.checked_sub(tableau.cells.len())?;
    Some(())
}

/// The variable at a place.
pub(crate) fn variable_at(variables: &[u32], place: usize) -> u32 {
    match variables.get(place) {
        Some(variable) => *variable,
        None => 0,
    }
}

/// Changes the variable at a place.
pub(crate) fn put_variable(variables: &mut [u32], place: usize, variable: u32) {
    if place < variables.len() {
        variables[place] = variable;
    }
}

/// The low end of a variable's range: a slack's is 0.
pub(crate) fn low_of<N: Number>(variable: u32, bounds: &[Bound]) -> N {
    match bounds.get(variable as usize) {
        Some(bound) => N::from_word(bound.low),
        None => N::zero(),
    }
}

/// The high end of a variable's range: a slack has none.
pub(crate) fn high_of<N: Number>(variable: u32, bounds: &[Bound]) -> Option<N> {
    match bounds.get(variable as usize) {
        Some(bound) => Some(N::from_word(bound.high)),
        None => None,
    }
}

/// How many cells a line has.
pub(crate) fn width_of(columns: usize) -> usize
    ensures { 0 < result }
{
    columns.saturating_add(2)
}

/// The line with a number.
pub(crate) fn line_at<N: Number>(
    tableau: &Tableau<N>,
    columns: usize,
    number: usize,
) -> Option<&[N]> {
    let width = width_of(columns);
    let place = columns.saturating_add(number.saturating_mul(width));
    let cells = tableau.cells.as_slice();
    cells.get(place..place.saturating_add(width))
}

/// The entries of the line with a number.
pub(crate) fn entries_at<N: Number>(
    tableau: &Tableau<N>,
    columns: usize,
    number: usize,
) -> Option<&[N]> {
    line_at(tableau, columns, number)?.get(2..)
}

/// Which way a basic variable has to move.
#[derive(Clone, Copy, PartialEq, Eq)]
pub(crate) enum Way {
    Up,
    Down,
}

/// A line whose variable is out of its range: the way it has to move, and the end of the range that it meets first.
#[derive(Clone, Copy)]
pub(crate) struct Broken<N> {
    pub(crate) line: usize,
    pub(crate) way: Way,
    pub(crate) end: N,
}

/// Whether a variable at this value can move so that a line with this entry moves its way.
pub(crate) fn can_help<N: Number>(
    variable: u32,
    value: N,
    entry: N,
    way: Way,
    bounds: &[Bound],
) -> bool {
    if entry.is_zero() {
        return false;
    }
    let up = way == Way::Up;
    if up != entry.is_below(N::zero()) {
        match high_of::<N>(variable, bounds) {
            Some(high) => value.is_below(high),
            None => true,
        }
    } else {
        let low: N = low_of(variable, bounds);
        low.is_below(value)
    }
}

/// Solves a line for one of the other variables.
fn turn<N: Number>(line: &mut [N], column: usize) -> Option<()> {
    let [constant, divisor, entries @ ..] = line else {
        return None;
    };
    let pivot = at(entries, column);
    let old = *divisor;
    *divisor = positive(pivot)?;
    if pivot.is_below(N::zero()) {
        put(entries, column, old.negated()?);
    } else {
        *constant = constant.negated()?;
        negate_all(entries)?;
        put(entries, column, old);
    }
    Some(())
}

/// Puts what a variable equals into a line.
fn substitute<N: Number>(line: &mut [N], solved: &[N], column: usize) -> Option<()> {
    let [constant, divisor, entries @ ..] = line else {
        return None;
    };
    let [other_constant, other_divisor, others @ ..] = solved else {
        return None;
    };
    let times = at(entries, column);
    if times.is_zero() {
        return Some(());
    }
    put(entries, column, N::zero());
    combine_all(*other_divisor, entries, times, others)?;
    *constant = combined(*other_divisor, *constant, times, *other_constant)?;
    *divisor = divisor.times(*other_divisor)?;
    if (*divisor).magnitude() != 1 {
        reduce(line);
    }
    Some(())
}

/// Puts what a variable equals into each line.
fn substitute_all<N: Number>(
    cells: &mut [N],
    solved: &[N],
    columns: usize,
    column: usize,
) -> Option<()> {
    if columns > cells.len() {
        return None;
    }
    let (_, lines) = cells.split_at_mut(columns);
    for line in lines.chunks_exact_mut(width_of(columns)) {
        substitute(line, solved, column)?;
    }
    Some(())
}

/// Exchanges two lines.
fn swap_lines<N: Number>(cells: &mut [N], first: usize, second: usize, width: usize) {
    if first == second {
        return;
    }
    for k in 0..width {
        let one = first.saturating_add(k);
        let other = second.saturating_add(k);
        let cell = at(cells, one);
        put(cells, one, at(cells, other));
        put(cells, other, cell);
    }
}

/// Exchanges a basic variable with another one. The line of the basic one comes last.
fn exchange_variables(
    variables: &mut Vec<u32>,
    columns: usize,
    line: usize,
    column: usize,
) -> Option<()> {
    let place = columns.checked_add(line)?;
    if place >= variables.len() || column >= variables.len() {
        return None;
    }
    let leaving = variables.swap_remove(place);
    let entering = *variables.get(column)?;
    put_variable(variables.as_mut_slice(), column, leaving);
    let Ok(()) = variables.push(entering) else {
        return None;
    };
    Some(())
}

/// Solves a line for one of the other variables, which is set to an end of its range, and puts it into the other lines. The line
/// comes last.
fn solve<N: Number>(
    cells: &mut [N],
    columns: usize,
    broken: Broken<N>,
    column: usize,
) -> Option<()> {
    let width = width_of(columns);
    let place = columns.checked_add(broken.line.checked_mul(width)?)?;
    let last = cells.len().checked_sub(width)?;
    swap_lines(cells, place, last, width);
    if last > cells.len() {
        return None;
    }
    let (others, solved) = cells.split_at_mut(last);
    turn(solved, column)?;
    reduce(solved);
    put(others, column, broken.end);
    substitute_all(others, solved, columns, column)
}

/// Exchanges the variable of a line with another one, and sets it to an end of its range.
pub(crate) fn exchange<N: Number>(
    tableau: &mut Tableau<N>,
    columns: usize,
    broken: Broken<N>,
    column: usize,
) -> Option<()> {
    solve(tableau.cells.as_mut_slice(), columns, broken, column)?;
    exchange_variables(&mut tableau.variables, columns, broken.line, column)
}
