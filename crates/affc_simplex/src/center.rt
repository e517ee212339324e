//! A point well inside the rational points of a box where a system's rows hold: the middle of those at which the columns are least and
//! greatest.
use crate::bounds::Bound;
use crate::cells::{at, sum_of};
use crate::least::{Entering, MOST_MOVES, moved, place_among};
use crate::number::Number;
use crate::simplex::{Start, stand, started};
use crate::tableau::{Tableau, Way, can_help, entries_at, line_at, variable_at};
use affc_rows::Form;
use affc_system::System;
use std::alloc::{AllocError, Global};

/// Coordinates are sums of quotients in 2^20ths.
const PARTS: i128 = 1 << 20;

/// A point: the sum of so many, in 2^20ths.
#[derive(Drop)]
pub(crate) struct Center {
    sums: Vec<i128>,
    count: i128,
}

impl Center {
    /// How far a row is above 0 at the point, rounded down. `None` where a number doesn't fit.
    pub(crate) fn slack(&self, row: &Form) -> Option<i128> {
        let whole = self.count.checked_mul(PARTS)?;
        let mut sum = row.constant.checked_mul(whole)?;
        for (c, x) in row.coefs.as_slice().iter().zip(self.sums.iter()) {
            sum = sum.checked_add(c.checked_mul(*x)?)?;
        }
        sum.checked_div_euclid(whole)
    }

    /// How far a column is above a number there, rounded down.
    pub(crate) fn above(&self, column: usize, low: i64) -> Option<i128> {
        let whole = self.count.checked_mul(PARTS)?;
        let value = self.sums.get(column)?.checked_div_euclid(whole)?;
        value.checked_sub(i128::from(low))
    }
}

/// The move that makes a line's variable go this way: of the variables that can, the one with the least number moves.
fn helping<N: Number>(
    entries: &[N],
    tableau: &Tableau<N>,
    bounds: &[Bound],
    way: Way,
) -> Option<Entering> {
    let mut found = None;
    let mut least = u32::MAX;
    for (place, entry) in entries.iter().enumerate() {
        let variable = variable_at(tableau.variables.as_slice(), place);
        let value = at(tableau.cells.as_slice(), place);
        if variable < least && can_help(variable, value, *entry, way, bounds) {
            least = variable;
            let up = (way == Way::Up) != entry.is_below(N::zero());
            let way = if up { Way::Up } else { Way::Down };
            found = Some(Entering { place, way });
        }
    }
    found
}

/// The move that makes a column go this way, if there is one. `None` where the tableau doesn't have the column.
fn next_push<N: Number>(
    tableau: &Tableau<N>,
    bounds: &[Bound],
    column: u32,
    way: Way,
) -> Option<Option<Entering>> {
    let columns = bounds.len();
    let (others, basics) = tableau.variables.as_slice().split_at_checked(columns)?;
    if let Some(place) = place_among(others, column) {
        let value = at(tableau.cells.as_slice(), place);
        if can_help(column, value, N::one(), way, bounds) {
            return Some(Some(Entering { place, way }));
        }
        return Some(None);
    }
    let entries = entries_at(tableau, columns, place_among(basics, column)?)?;
    Some(helping(entries, tableau, bounds, way))
}

/// Makes a column go this way as far as it can.
fn push<N: Number>(
    tableau: &mut Tableau<N>,
    bounds: &[Bound],
    column: u32,
    way: Way,
) -> Option<()> {
    for _ in 0..MOST_MOVES {
        match next_push(tableau, bounds, column, way)? {
            None => return Some(()),
            Some(entering) => moved(tableau, bounds, entering)?,
        }
    }
    None
}

/// The value of a column, in 2^20ths.
fn value_of<N: Number>(tableau: &Tableau<N>, columns: usize, column: u32) -> Option<i128> {
    let (others, basics) = tableau.variables.as_slice().split_at_checked(columns)?;
    let values = tableau.cells.as_slice();
    if let Some(place) = place_among(others, column) {
        return at(values, place).wide().checked_mul(PARTS);
    }
    let line = line_at(tableau, columns, place_among(basics, column)?)?;
    let [constant, divisor, entries @ ..] = line else {
        return None;
    };
    let value = sum_of(*constant, entries, values)?.wide();
    value
        .checked_mul(PARTS)?
        .checked_div_euclid((*divisor).wide())
}

/// Adds the point at which a tableau stands.
fn add_point<N: Number>(tableau: &Tableau<N>, center: &mut Center) -> Option<()> {
    let columns = center.sums.len();
    for (j, sum) in center.sums.iter_mut().enumerate() {
        let value = value_of(tableau, columns, u32::try_from(j).ok()?)?;
        *sum = sum.checked_add(value)?;
    }
    center.count = center.count.checked_add(1)?;
    Some(())
}

/// Adds the points at which the columns are least and greatest.
fn add_ends<N: Number>(
    tableau: &mut Tableau<N>,
    bounds: &[Bound],
    center: &mut Center,
) -> Option<()> {
    for (j, _) in bounds.iter().enumerate() {
        let column = u32::try_from(j).ok()?;
        push(tableau, bounds, column, Way::Down)?;
        add_point(tableau, center)?;
        push(tableau, bounds, column, Way::Up)?;
        add_point(tableau, center)?;
    }
    Some(())
}

/// The middle, with numbers of one width.
fn middle<N: Number>(
    alloc: Global,
    system: &System,
    bounds: &[Bound],
) -> Result<Option<Center>, AllocError> {
    let mut tableau = match started::<N>(alloc, system, bounds)? {
        Start::Tableau(tableau) => tableau,
        Start::Ended(_) => return Ok(None),
    };
    if let Some(_) = stand(alloc, &mut tableau, bounds)? {
        return Ok(None);
    }
    let mut center = Center {
        sums: vec![in alloc; 0i128; bounds.len()]?,
        count: 0,
    };
    match add_ends(&mut tableau, bounds, &mut center) {
        Some(()) => Ok(Some(center)),
        None => Ok(None),
    }
}

/// A point well inside, if there is a rational point and it is found.
pub(crate) fn center_of(
    alloc: Global,
    system: &System,
    bounds: &[Bound],
) -> Result<Option<Center>, AllocError> {
    match middle::<i64>(alloc, system, bounds)? {
        Some(center) => Ok(Some(center)),
        None => middle::<i128>(alloc, system, bounds),
    }
}
