//! Sums of rows that are below 0 in a whole box, found by the simplex method with bounded columns (Dutertre and de Moura).
//!
//! What is found is tested by those who use it, so nothing is promised here: where a number is too great, or the pivots are
//! too many, nothing is found. All numbers are `i64` at first, and `i128` where one of them doesn't fit.
use crate::bounds::Bound;
use crate::cells::{at, common_divisor, sum_of};
use crate::least::{Least, least_of};
use crate::number::Number;
use crate::pairs::put_pair;
use crate::tableau::{
    Broken, MOST_CELLS, Tableau, Way, can_help, entries_at, exchange, high_of, line_at, low_of,
    spend, variable_at, width_of,
};
use crate::vertices::Vertex;
use affc_rows::Form;
use affc_system::System;
use std::alloc::{AllocError, Global};

/// The most pivots.
const MOST_PIVOTS: u32 = 400;

/// What is wanted of a box that isn't seen to be empty.
#[derive(Clone, Copy)]
pub enum Wanted {
    AnyVertex,
    LeastPoint,
}

/// What a look at a box comes to.
#[derive(Drop)]
pub enum Outcome {
    /// Rows whose sum is below 0 in the whole box: their numbers with their multipliers, in the order of the rows.
    Sum(Vec<(u32, u64)>),
    /// A rational point of the box at which every row is at least 0, and the least whole one, where it is asked for and found.
    Vertex(Vertex, Option<Least>),
    Nothing,
    /// A number doesn't fit.
    TooGreat,
}

/// The least and the greatest value of a row over the box.
fn reach_of<N: Number>(row: &Form, bounds: &[Bound]) -> Option<(N, N)> {
    let mut least = N::from_wide(row.constant)?;
    let mut greatest = least;
    for (c, bound) in row.coefs.as_slice().iter().zip(bounds.iter()) {
        if *c != 0 {
            let c = N::from_wide(*c)?;
            let at_low = c.times(N::from_word(bound.low))?;
            let at_high = c.times(N::from_word(bound.high))?;
            if c.is_below(N::zero()) {
                least = least.plus(at_high)?;
                greatest = greatest.plus(at_low)?;
            } else {
                least = least.plus(at_low)?;
                greatest = greatest.plus(at_high)?;
            }
        }
    }
    Some((least, greatest))
}

/// The way in which a line's variable has to move into its range, and the end of the range that it meets first.
fn way_of<N: Number>(
    line: &[N],
    variable: u32,
    values: &[N],
    bounds: &[Bound],
) -> Option<Option<(Way, N)>> {
    let [constant, divisor, entries @ ..] = line else {
        return None;
    };
    let value = sum_of(*constant, entries, values)?;
    let low: N = low_of(variable, bounds);
    if value.is_below(low.times(*divisor)?) {
        return Some(Some((Way::Up, low)));
    }
    if let Some(high) = high_of::<N>(variable, bounds) {
        if high.times(*divisor)?.is_below(value) {
            return Some(Some((Way::Down, high)));
        }
    }
    Some(None)
}

/// The first of the other variables that can help a line.
fn helper_of<N: Number>(
    entries: &[N],
    values: &[N],
    others: &[u32],
    way: Way,
    bounds: &[Bound],
) -> Option<usize> {
    for (j, entry) in entries.iter().enumerate() {
        if let Some(variable) = others.get(j) {
            if can_help(*variable, at(values, j), *entry, way, bounds) {
                return Some(j);
            }
        }
    }
    None
}

/// Adds a row's line to a tableau. Answers whether its numbers fit.
fn push_line<N: Number>(cells: &mut Vec<N>, row: &Form) -> Result<Option<()>, AllocError> {
    let Some(constant) = N::from_wide(row.constant) else {
        return Ok(None);
    };
    cells.push(constant)?;
    cells.push(N::one())?;
    for c in row.coefs.as_slice() {
        let Some(entry) = N::from_wide(*c) else {
            return Ok(None);
        };
        cells.push(entry)?;
    }
    Ok(Some(()))
}

/// The tableau of no row, with the columns at the low ends of their ranges, and room for a number of rows.
fn empty_tableau<N: Number>(
    alloc: Global,
    bounds: &[Bound],
    rows: usize,
) -> Result<Tableau<N>, AllocError> {
    let columns = bounds.len();
    let width = width_of(columns);
    let mut cells = Vec::with_capacity(alloc, columns.saturating_add(width.saturating_mul(rows)))?;
    let mut variables = Vec::with_capacity(alloc, columns.saturating_add(rows))?;
    for (j, bound) in bounds.iter().enumerate() {
        cells.push(N::from_word(bound.low))?;
        variables.push(u32::try_from(j).unwrap_or(0))?;
    }
    Ok(Tableau {
        cells,
        variables,
        left: MOST_CELLS,
    })
}

/// One row with the multiplier 1.
fn one_row(alloc: Global, row: u32, columns: usize) -> Result<Vec<(u32, u64)>, AllocError> {
    let mut rows = Vec::with_capacity(alloc, columns.saturating_add(1))?;
    rows.push((row, 1))?;
    Ok(rows)
}

/// The tableau of a system's rows, or what is seen before there is one.
#[derive(Drop)]
pub(crate) enum Start<N> {
    Tableau(Tableau<N>),
    Ended(Outcome),
}

/// Goes along the rows: one that is below 0 in the whole box is a sum by itself, and one that is at least 0 there is in no sum.
pub(crate) fn started<N: Number>(
    alloc: Global,
    system: &System,
    bounds: &[Bound],
) -> Result<Start<N>, AllocError> {
    let rows = system.rows();
    let columns = bounds.len();
    let mut tableau = empty_tableau::<N>(alloc, bounds, rows.len())?;
    for (i, row) in rows.iter().enumerate() {
        let number = u32::try_from(i).unwrap_or(0);
        let Some((least, greatest)) = reach_of::<N>(row, bounds) else {
            return Ok(Start::Ended(Outcome::TooGreat));
        };
        if greatest.is_below(N::zero()) {
            return Ok(Start::Ended(Outcome::Sum(one_row(alloc, number, columns)?)));
        }
        if least.is_below(N::zero()) {
            let Some(()) = push_line(&mut tableau.cells, row)? else {
                return Ok(Start::Ended(Outcome::TooGreat));
            };
            let slack = u32::try_from(columns).unwrap_or(0).saturating_add(number);
            tableau.variables.push(slack)?;
        }
    }
    Ok(Start::Tableau(tableau))
}

/// What a look at a box comes to, with numbers of one width.
fn look<N: Number>(
    alloc: Global,
    system: &System,
    bounds: &[Bound],
    wanted: Wanted,
) -> Result<Outcome, AllocError> {
    let mut tableau = match started::<N>(alloc, system, bounds)? {
        Start::Tableau(tableau) => tableau,
        Start::Ended(outcome) => return Ok(outcome),
    };
    match stand(alloc, &mut tableau, bounds)? {
        Some(outcome) => Ok(outcome),
        None => vertex_of(alloc, &mut tableau, bounds, wanted),
    }
}

/// The line with this number, if it is out of its range. `None` where a number doesn't fit.
fn broken_at<N: Number>(
    line: &[N],
    number: usize,
    variable: u32,
    values: &[N],
    bounds: &[Bound],
) -> Option<Option<Broken<N>>> {
    match way_of(line, variable, values, bounds)? {
        Some((way, end)) => Some(Some(Broken {
            line: number,
            way,
            end,
        })),
        None => Some(None),
    }
}

/// The first line that is out of its range. `None` where a number doesn't fit.
fn first_broken<N: Number>(tableau: &Tableau<N>, bounds: &[Bound]) -> Option<Option<Broken<N>>> {
    let columns = bounds.len();
    let (values, lines) = tableau.cells.as_slice().split_at_checked(columns)?;
    let (_, basics) = tableau.variables.as_slice().split_at_checked(columns)?;
    for (number, line) in lines.chunks_exact(width_of(columns)).enumerate() {
        let variable = *basics.get(number)?;
        if let Some(broken) = broken_at(line, number, variable, values, bounds)? {
            return Some(Some(broken));
        }
    }
    Some(None)
}

/// What one step comes to.
enum Step {
    Moved,
    /// No line is out of its range.
    Stands,
    Ended(Outcome),
}

/// One pivot.
fn one_pivot<N: Number>(
    alloc: Global,
    tableau: &mut Tableau<N>,
    bounds: &[Bound],
) -> Result<Step, AllocError> {
    let columns = bounds.len();
    let Some(found) = first_broken(tableau, bounds) else {
        return Ok(Step::Ended(Outcome::TooGreat));
    };
    let Some(broken) = found else {
        return Ok(Step::Stands);
    };
    let Some(helper) = helper_in(tableau, bounds, broken) else {
        return Ok(Step::Ended(sum_found(alloc, tableau, columns, broken.line)?));
    };
    match exchange(tableau, columns, broken, helper) {
        Some(()) => Ok(Step::Moved),
        None => Ok(Step::Ended(Outcome::TooGreat)),
    }
}

/// The point at which a tableau stands, where its numbers fit, and the least one if it is wanted.
fn vertex_of<N: Number>(
    alloc: Global,
    tableau: &mut Tableau<N>,
    bounds: &[Bound],
    wanted: Wanted,
) -> Result<Outcome, AllocError> {
    let columns = bounds.len();
    let mut vertex = Vertex::new(alloc, columns)?;
    let Some(()) = fill_vertex(tableau, columns, &mut vertex) else {
        return Ok(Outcome::Nothing);
    };
    let least = match wanted {
        Wanted::LeastPoint => least_of(alloc, tableau, bounds)?,
        Wanted::AnyVertex => None,
    };
    Ok(Outcome::Vertex(vertex, least))
}

/// Sets the columns of a point to their values in a tableau.
fn fill_vertex<N: Number>(tableau: &Tableau<N>, columns: usize, vertex: &mut Vertex) -> Option<()> {
    let (values, lines) = tableau.cells.as_slice().split_at_checked(columns)?;
    let (others, basics) = tableau.variables.as_slice().split_at_checked(columns)?;
    for (variable, value) in others.iter().zip(values.iter()) {
        vertex.set(*variable as usize, (*value).wide(), 1)?;
    }
    for (number, line) in lines.chunks_exact(width_of(columns)).enumerate() {
        let variable = *basics.get(number)? as usize;
        if variable < columns {
            let [constant, divisor, entries @ ..] = line else {
                return None;
            };
            let value = sum_of(*constant, entries, values)?;
            vertex.set(variable, value.wide(), (*divisor).wide())?;
        }
    }
    Some(())
}

/// The first variable that can help a broken line.
fn helper_in<N: Number>(
    tableau: &Tableau<N>,
    bounds: &[Bound],
    broken: Broken<N>,
) -> Option<usize> {
    helper_of(
        entries_at(tableau, bounds.len(), broken.line)?,
        tableau.cells.as_slice(),
        tableau.variables.as_slice(),
        broken.way,
        bounds,
    )
}

/// Adds a variable's row with a multiplier, where the variable is a slack.
pub(crate) fn push_slack(
    rows: &mut Vec<(u32, u64)>,
    variable: u32,
    columns: usize,
    times: u128,
) -> Result<(), AllocError> {
    let Some(row) = (variable as usize).checked_sub(columns) else {
        return Ok(());
    };
    let Ok(row) = u32::try_from(row) else {
        return Ok(());
    };
    let Ok(times) = u64::try_from(times) else {
        return Ok(());
    };
    if times != 0 {
        put_pair(rows, row, times)?;
    }
    Ok(())
}

/// The common divisor of a line's divisor and of its entries at slacks.
fn slack_divisor<N: Number>(divisor: N, entries: &[N], variables: &[u32], columns: usize) -> N {
    let mut common = divisor;
    for (entry, variable) in entries.iter().zip(variables.iter()) {
        if *variable as usize >= columns && common.magnitude() != 1 {
            common = common_divisor(common, *entry);
        }
    }
    common
}

/// The rows whose sum a broken line is, where nothing can help it, in the order of the rows.
fn sum_found<N: Number>(
    alloc: Global,
    tableau: &Tableau<N>,
    columns: usize,
    number: usize,
) -> Result<Outcome, AllocError> {
    let Some(line) = line_at(tableau, columns, number) else {
        return Ok(Outcome::Nothing);
    };
    let [_, divisor, entries @ ..] = line else {
        return Ok(Outcome::Nothing);
    };
    let common = slack_divisor(*divisor, entries, tableau.variables.as_slice(), columns);
    let mut rows = Vec::with_capacity(alloc, columns.saturating_mul(2).saturating_add(1))?;
    let basic = variable_at(tableau.variables.as_slice(), columns.saturating_add(number));
    push_slack(&mut rows, basic, columns, divisor.over(common).magnitude())?;
    for (j, entry) in entries.iter().enumerate() {
        let variable = variable_at(tableau.variables.as_slice(), j);
        push_slack(&mut rows, variable, columns, entry.over(common).magnitude())?;
    }
    Ok(Outcome::Sum(rows))
}

/// The pivots of a tableau, until none of its lines is out of its range: `None`, or else what they end in.
pub(crate) fn stand<N: Number>(
    alloc: Global,
    tableau: &mut Tableau<N>,
    bounds: &[Bound],
) -> Result<Option<Outcome>, AllocError> {
    for _ in 0..MOST_PIVOTS {
        let Some(()) = spend(tableau) else {
            return Ok(Some(Outcome::Nothing));
        };
        match one_pivot(alloc, tableau, bounds)? {
            Step::Moved => {}
            Step::Stands => return Ok(None),
            Step::Ended(outcome) => return Ok(Some(outcome)),
        }
    }
    Ok(Some(Outcome::Nothing))
}

/// Rows whose sum is below 0 in the whole box, or a rational point of it, where one of them is found. The box has a range for each
/// column of the system.
pub fn look_at(
    alloc: Global,
    system: &System,
    bounds: &[Bound],
    wanted: Wanted,
) -> Result<Outcome, AllocError> {
    match look::<i64>(alloc, system, bounds, wanted)? {
        Outcome::TooGreat => look::<i128>(alloc, system, bounds, wanted),
        found => Ok(found),
    }
}
