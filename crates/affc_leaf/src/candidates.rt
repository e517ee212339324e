//! Sums of rows that gain by being cut in a box.
//!
//! A sum is one row, or a row in which equalities have eliminated columns. It is divided by the common divisor of its free columns'
//! coefficients, or of all of them but one, and what the division leaves is put at its greatest. What is found is tested by those who
//! use it, so nothing is promised here: where a number is too great, no more is looked for.
ghost use Rattle.std.specs.Prelude.{◌<◌};

use crate::vertices::{is_whole, value_of};
use affc_rows::Form;
use affc_rows::vocabulary::gcd;
use affc_simplex::cells::{at, reduce};
use affc_simplex::pairs::put_pair;
use affc_simplex::rounds::Cut;
use affc_simplex::{Bound, Vertex};
use affc_system::System;
use smallvec::SmallVec;
use std::alloc::{AllocError, Global};

/// The most candidates in a box.
const MOST_CANDIDATES: usize = 64;

/// The most eliminations in a box.
const MOST_ELIMINATIONS: u32 = 256;

/// A cut with the row that its division gives.
#[derive(Drop)]
pub(crate) struct Proposal {
    pub cut: Cut,
    pub row: Form,
}

/// Two rows of which each is the other's opposite.
#[derive(Clone, Copy)]
struct Equality {
    row: u32,
    opposite: u32,
}

/// A sum of multiples of equalities, and of one further row if there is one. `cells` has the sum's coefficients and its constant, how
/// often the further row is in it, and the multiple of each equality.
#[derive(Drop)]
struct Sum {
    row: Option<u32>,
    cells: Vec<i128>,
}

/// A column that a sum of equalities eliminates from the other sums.
#[derive(Clone, Copy)]
struct Pivot {
    sum: usize,
    column: usize,
    magnitude: u128,
}

/// What is found in a box, whether some of it excludes the rational point of the box that is known, and how many eliminations are
/// left.
#[derive(Drop)]
struct Search<'a> {
    equalities: Vec<Equality>,
    vertex: Option<&'a Vertex>,
    found: Vec<Proposal>,
    excludes: bool,
    left: u32,
}

/// What a division by `g` leaves of a coefficient: all of it, where the column has one value.
pub(crate) fn remainder_of(c: i128, bound: Bound, g: i64) -> i128 {
    if bound.low == bound.high {
        c
    } else {
        c.checked_rem(i128::from(g)).unwrap_or(0)
    }
}

/// The common divisor of the free columns' coefficients, but for one column.
fn divisor_but(coefs: &[i128], bounds: &[Bound], but: Option<usize>) -> i64 {
    let mut common = 0u128;
    for (j, (c, bound)) in coefs.iter().zip(bounds.iter()).enumerate() {
        if *c != 0 && bound.low < bound.high && but != Some(j) {
            common = gcd(common, c.unsigned_abs());
            if common == 1 {
                return 1;
            }
        }
    }
    i64::try_from(common).unwrap_or(0)
}

/// The columns that can be left out of a common divisor so that it is greater than 1: the first whose coefficient is 1 or -1, all
/// where there is none, and none where there are two.
fn columns_to_leave(coefs: &[i128], bounds: &[Bound]) -> (usize, usize) {
    let mut only = None;
    for (j, (c, bound)) in coefs.iter().zip(bounds.iter()).enumerate() {
        if c.unsigned_abs() == 1 && bound.low < bound.high {
            if only.is_some() {
                return (0, 0);
            }
            only = Some(j);
        }
    }
    match only {
        Some(j) => (j, j.saturating_add(1)),
        None => (0, bounds.len()),
    }
}

/// The constant with what a division by `g` leaves at its greatest over the box.
fn constant_left(coefs: &[i128], constant: i128, bounds: &[Bound], g: i64) -> Option<i128> {
    let mut total = constant;
    for (c, bound) in coefs.iter().zip(bounds.iter()) {
        let left = remainder_of(*c, *bound, g);
        if left != 0 {
            let end = if left < 0 { bound.low } else { bound.high };
            total = total.checked_add(left.checked_mul(i128::from(end))?)?;
        }
    }
    Some(total)
}

/// The sum divided by `g`, where the constant is at its greatest.
fn divided_row(
    alloc: Global,
    coefs: &[i128],
    greatest: i128,
    bounds: &[Bound],
    g: i64,
) -> Result<Option<Form>, AllocError> {
    let mut quotients = SmallVec::new(alloc);
    for (c, bound) in coefs.iter().zip(bounds.iter()) {
        let quotient = if bound.low < bound.high {
            c.checked_div(i128::from(g)).unwrap_or(0)
        } else {
            0
        };
        quotients.push(quotient)?;
    }
    let Some(constant) = greatest.checked_div_euclid(i128::from(g)) else {
        return Ok(None);
    };
    Ok(Some(Form {
        coefs: quotients,
        constant,
    }))
}

/// Whether a row is below 0 at the point, or that can't be told.
fn is_excluded(row: &Form, vertex: Option<&Vertex>) -> bool {
    match vertex {
        Some(vertex) => match value_of(vertex, row) {
            Some(value) => value < 0,
            None => true,
        },
        None => true,
    }
}

/// Adds the sum divided by `g`, where it gains by that.
fn add_divided(
    alloc: Global,
    own: &[(u32, u64)],
    coefs: &[i128],
    constant: i128,
    bounds: &[Bound],
    g: i64,
    search: &mut Search,
) -> Result<(), AllocError> {
    if g <= 1 || search.found.len() >= MOST_CANDIDATES {
        return Ok(());
    }
    let Some(greatest) = constant_left(coefs, constant, bounds, g) else {
        return Ok(());
    };
    if greatest.checked_rem(i128::from(g)).unwrap_or(0) == 0 {
        return Ok(());
    }
    if let Some(row) = divided_row(alloc, coefs, greatest, bounds, g)? {
        search.excludes = search.excludes || is_excluded(&row, search.vertex);
        let own = Vec::from_slice(alloc, own)?;
        let cut = Cut { own, g };
        search.found.push(Proposal { cut, row })?;
    }
    Ok(())
}

/// Adds the ways in which a sum gains by being divided.
fn add_sum(
    alloc: Global,
    own: &[(u32, u64)],
    coefs: &[i128],
    constant: i128,
    bounds: &[Bound],
    search: &mut Search,
) -> Result<(), AllocError> {
    let (first, end) = columns_to_leave(coefs, bounds);
    if first >= end {
        return Ok(());
    }
    let common = divisor_but(coefs, bounds, None);
    add_divided(alloc, own, coefs, constant, bounds, common, search)?;
    for j in first..end {
        if at(coefs, j) != 0 {
            let g = divisor_but(coefs, bounds, Some(j));
            if g != common {
                add_divided(alloc, own, coefs, constant, bounds, g, search)?;
            }
        }
    }
    Ok(())
}

/// The first row after a number that is its row's opposite.
fn opposite_of(rows: &[Form], number: usize) -> Option<usize> {
    let row = rows.get(number)?;
    for (other, form) in rows.iter().enumerate() {
        if other > number && row.is_opposite(form) {
            return Some(other);
        }
    }
    None
}

/// The equalities among the rows.
fn equalities_of(alloc: Global, rows: &[Form]) -> Result<Vec<Equality>, AllocError> {
    let mut equalities = Vec::new(alloc);
    for row in 0..rows.len() {
        if let Some(opposite) = opposite_of(rows, row) {
            equalities.push(Equality {
                row: u32::try_from(row).unwrap_or(0),
                opposite: u32::try_from(opposite).unwrap_or(0),
            })?;
        }
    }
    Ok(equalities)
}

/// The row as a sum: the equality with a number, or a further row.
fn sum_of_row(
    alloc: Global,
    form: &Form,
    row: Option<u32>,
    equality: usize,
    equalities: usize,
) -> Result<Sum, AllocError> {
    let coefs = form.coefs.as_slice();
    let width = coefs.len().saturating_add(2).saturating_add(equalities);
    let mut cells = Vec::with_capacity(alloc, width)?;
    for c in coefs {
        cells.push(*c)?;
    }
    cells.push(form.constant)?;
    cells.push(i128::from(row.is_some()))?;
    for other in 0..equalities {
        cells.push(i128::from(row.is_none() && other == equality))?;
    }
    Ok(Sum { row, cells })
}

/// Whether a row is one of an equality.
fn is_in(equalities: &[Equality], row: u32) -> bool {
    equalities
        .iter()
        .any(|equality| equality.row == row || equality.opposite == row)
}

/// Whether a row has two columns or more.
fn is_wide(form: &Form) -> bool {
    let mut count = 0u32;
    for c in form.coefs.as_slice() {
        if *c != 0 {
            if count > 0 {
                return true;
            }
            count = 1;
        }
    }
    false
}

/// The equalities as sums, and the further rows of two columns or more.
fn sums_of(alloc: Global, rows: &[Form], equalities: &[Equality]) -> Result<Vec<Sum>, AllocError> {
    let mut sums = Vec::new(alloc);
    for (number, equality) in equalities.iter().enumerate() {
        if let Some(form) = rows.get(equality.row as usize) {
            sums.push(sum_of_row(alloc, form, None, number, equalities.len())?)?;
        }
    }
    for (number, form) in rows.iter().enumerate() {
        let row = u32::try_from(number).unwrap_or(0);
        if is_wide(form) && !is_in(equalities, row) {
            sums.push(sum_of_row(alloc, form, Some(row), 0, equalities.len())?)?;
        }
    }
    Ok(sums)
}

/// The column of a sum with the least coefficient, if that is less than one before. Only one column is asked for, if that is given.
fn lesser_pivot(
    cells: &[i128],
    sum: usize,
    bounds: &[Bound],
    only: Option<usize>,
    before: Option<Pivot>,
) -> Option<Pivot> {
    let mut least = before;
    for (column, bound) in bounds.iter().enumerate() {
        let magnitude = at(cells, column).unsigned_abs();
        let asked = only.is_none() || only == Some(column);
        let less = match least {
            Some(pivot) => magnitude < pivot.magnitude,
            None => true,
        };
        if asked && bound.low < bound.high && magnitude != 0 && less {
            least = Some(Pivot {
                sum,
                column,
                magnitude,
            });
        }
    }
    least
}

/// The least coefficient in a sum of equalities alone.
fn least_pivot(sums: &[Sum], bounds: &[Bound], only: Option<usize>) -> Option<Pivot> {
    let mut least = None;
    for (number, sum) in sums.iter().enumerate() {
        if sum.row.is_none() {
            least = lesser_pivot(sum.cells.as_slice(), number, bounds, only, least);
        }
    }
    least
}

/// Eliminates a column of a sum, in least terms: the sum is taken a positive number of times.
fn eliminate(cells: &mut [i128], solved: &[i128], column: usize) -> Option<()> {
    let pivot = at(solved, column);
    let entry = at(cells, column);
    let common = gcd(pivot.unsigned_abs(), entry.unsigned_abs());
    let common = i128::try_from(common).ok()?;
    let divided = pivot.checked_div(common)?;
    let times = entry.checked_div(common)?;
    let (scale, times) = if divided < 0 {
        (divided.checked_neg()?, times)
    } else {
        (divided, times.checked_neg()?)
    };
    for (cell, other) in cells.iter_mut().zip(solved.iter()) {
        *cell = cell
            .checked_mul(scale)?
            .checked_add(other.checked_mul(times)?)?;
    }
    reduce(cells);
    Some(())
}

/// The multiples of rows in a sum, in the order of the rows.
fn multiples_of(
    alloc: Global,
    sum: &Sum,
    columns: usize,
    equalities: &[Equality],
) -> Result<Option<Vec<(u32, u64)>>, AllocError> {
    let cells = sum.cells.as_slice();
    let mut own = Vec::new(alloc);
    if let Some(row) = sum.row {
        let Ok(times) = u64::try_from(at(cells, columns.saturating_add(1))) else {
            return Ok(None);
        };
        own.push((row, times))?;
    }
    for (number, equality) in equalities.iter().enumerate() {
        let times = at(cells, columns.saturating_add(2).saturating_add(number));
        let Ok(magnitude) = u64::try_from(times.unsigned_abs()) else {
            return Ok(None);
        };
        if times > 0 {
            put_pair(&mut own, equality.row, magnitude)?;
        } else if times < 0 {
            put_pair(&mut own, equality.opposite, magnitude)?;
        }
    }
    Ok(Some(own))
}

/// The opposite of a sum of equalities.
fn opposite_sum(alloc: Global, sum: &Sum) -> Result<Option<Sum>, AllocError> {
    let mut cells = Vec::with_capacity(alloc, sum.cells.len())?;
    for cell in sum.cells.as_slice() {
        let Some(opposite) = cell.checked_neg() else {
            return Ok(None);
        };
        cells.push(opposite)?;
    }
    Ok(Some(Sum { row: None, cells }))
}

/// Adds the ways in which a sum of rows gains by being divided.
fn add_found(
    alloc: Global,
    sum: &Sum,
    bounds: &[Bound],
    search: &mut Search,
) -> Result<(), AllocError> {
    let columns = bounds.len();
    let cells = sum.cells.as_slice();
    let Some(coefs) = cells.get(..columns) else {
        return Ok(());
    };
    let Some(own) = multiples_of(alloc, sum, columns, search.equalities.as_slice())? else {
        return Ok(());
    };
    let constant = at(cells, columns);
    add_sum(alloc, own.as_slice(), coefs, constant, bounds, search)
}

/// Eliminates a column of each sum, and adds what gains. Answers whether that is done.
fn eliminate_all(
    alloc: Global,
    solved: &Sum,
    column: usize,
    sums: &mut [Sum],
    bounds: &[Bound],
    search: &mut Search,
) -> Result<bool, AllocError> {
    for sum in sums.iter_mut() {
        if at(sum.cells.as_slice(), column) != 0 {
            let Some(left) = search.left.checked_sub(1) else {
                return Ok(false);
            };
            search.left = left;
            let Some(()) = eliminate(sum.cells.as_mut_slice(), solved.cells.as_slice(), column)
            else {
                return Ok(false);
            };
            add_found(alloc, sum, bounds, search)?;
            if sum.row.is_none() {
                if let Some(opposite) = opposite_sum(alloc, sum)? {
                    add_found(alloc, &opposite, bounds, search)?;
                }
            }
        }
    }
    Ok(true)
}

/// Eliminates one column first, and then those with the least coefficients, and adds what gains.
fn eliminate_from(
    alloc: Global,
    first: usize,
    mut sums: Vec<Sum>,
    bounds: &[Bound],
    search: &mut Search,
) -> Result<(), AllocError> {
    let mut next = least_pivot(sums.as_slice(), bounds, Some(first));
    for _ in 0..search.equalities.len() {
        let Some(pivot) = next else {
            return Ok(());
        };
        if pivot.sum >= sums.len() {
            return Ok(());
        }
        let solved = sums.swap_remove(pivot.sum);
        if !eliminate_all(
            alloc,
            &solved,
            pivot.column,
            sums.as_mut_slice(),
            bounds,
            search,
        )? {
            return Ok(());
        }
        next = least_pivot(sums.as_slice(), bounds, None);
    }
    Ok(())
}

/// Whether a column that isn't fixed is in some equality.
fn is_in_equality(rows: &[Form], equalities: &[Equality], column: usize, bounds: &[Bound]) -> bool {
    let free = match bounds.get(column) {
        Some(bound) => bound.low < bound.high,
        None => false,
    };
    free && equalities.iter().any(|equality| match rows.get(equality.row as usize) {
        Some(row) => at(row.coefs.as_slice(), column) != 0,
        None => false,
    })
}

/// Sums of rows that gain by being cut in a box. `None` where none of them excludes the rational point of the box that is given.
pub(crate) fn candidates_in(
    alloc: Global,
    system: &System,
    bounds: &[Bound],
    vertex: Option<&Vertex>,
) -> Result<Option<Vec<Proposal>>, AllocError> {
    if vertex.is_some_and(|v| is_whole(v)) {
        return Ok(None);
    }
    let rows = system.rows();
    let mut search = Search {
        equalities: equalities_of(alloc, rows)?,
        vertex,
        found: Vec::new(alloc),
        excludes: false,
        left: MOST_ELIMINATIONS,
    };
    for (number, row) in rows.iter().enumerate() {
        let own = [(u32::try_from(number).unwrap_or(0), 1)];
        let coefs = row.coefs.as_slice();
        add_sum(alloc, &own, coefs, row.constant, bounds, &mut search)?;
    }
    for first in 0..bounds.len() {
        let is_in = is_in_equality(rows, search.equalities.as_slice(), first, bounds);
        if is_in && search.left > 0 {
            let sums = sums_of(alloc, rows, search.equalities.as_slice())?;
            eliminate_from(alloc, first, sums, bounds, &mut search)?;
        }
    }
    if search.excludes {
        Ok(Some(search.found))
    } else {
        Ok(None)
    }
}
