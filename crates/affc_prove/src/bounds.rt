//! The ends of a system's columns, each found in its rows.

use affc_rows::{Form, Total};
use affc_system::{BoxOf, System};
use smallvec::SmallVec;
use std::alloc::{AllocError, Global};

/// The greatest magnitude of an end.
const MOST_END: u128 = 1 << 60;

/// A row that is at least 0: one of the system, or that of an end of a column. The low end of column `j` has the number `2 j`, and
/// its high end the next one.
#[derive(Clone, Copy)]
pub(crate) enum Term {
    Row(u32),
    End(usize),
}

/// How the row of an end follows.
#[derive(Drop)]
pub(crate) enum Origin {
    /// It is a row of the system.
    Row(u32),
    /// It is a sum of multiples of rows, divided.
    Sum { by: Vec<(Term, u64)>, divisor: i64 },
}

/// An end of a column.
#[derive(Drop)]
pub(crate) struct End {
    pub value: i64,
    pub origin: Origin,
}

/// The ends of a system's columns.
#[derive(Drop)]
pub(crate) struct Ends {
    pub ends: Vec<Option<End>>,
    /// The numbers of those that are found, each behind those from which it follows.
    pub order: Vec<usize>,
}

/// What is known of all columns.
#[derive(Drop)]
pub(crate) enum Span {
    /// Each column has its ends, in order.
    Ranges(BoxOf),
    /// The high end of this column lies below its low end.
    Crossed(usize),
    /// A column has no end on one side.
    Open,
}

/// The number of a column's low end, or of its high one.
fn end_number(column: usize, is_low: bool) -> Option<usize> {
    let low = column.checked_mul(2)?;
    if is_low {
        Some(low)
    } else {
        low.checked_add(1)
    }
}

/// The end with this number, where it is found.
pub(crate) fn end_at(ends: &[Option<End>], number: usize) -> Option<&End> {
    match ends.get(number) {
        Some(Some(end)) => Some(end),
        _ => None,
    }
}

/// The one column of which a row has a coefficient.
fn lone_column(row: &Form) -> Option<usize> {
    let mut lone = None;
    for (column, coefficient) in row.coefs.as_slice().iter().enumerate() {
        if *coefficient != 0 {
            if lone.is_some() {
                return None;
            }
            lone = Some(column);
        }
    }
    lone
}

/// Multiples of rows of which a column is left, and what the others come to with the constants.
#[derive(Drop)]
struct Sum {
    by: Vec<(Term, u64)>,
    total: Total,
}

/// Adds the end of a column that cancels this coefficient, where it is found.
fn add_other(
    sum: &mut Sum,
    ends: &[Option<End>],
    column: usize,
    coefficient: i128,
) -> Result<bool, AllocError> {
    // The high end cancels a positive coefficient.
    let Some(number) = end_number(column, coefficient < 0) else {
        return Ok(false);
    };
    let Some(end) = end_at(ends, number) else {
        return Ok(false);
    };
    let Ok(times) = u64::try_from(coefficient.unsigned_abs()) else {
        return Ok(false);
    };
    let Ok(total) = sum.total.add(coefficient, i128::from(end.value)) else {
        return Ok(false);
    };
    sum.total = total;
    sum.by.push((Term::End(number), times))?;
    Ok(true)
}

/// The sum of a row and of the ends that cancel its other columns, where they are found.
fn summed(
    alloc: Global,
    number: u32,
    row: &Form,
    column: usize,
    ends: &[Option<End>],
) -> Result<Option<Sum>, AllocError> {
    let Ok(total) = Total::zero().add(row.constant, 1) else {
        return Ok(None);
    };
    let mut by = Vec::new(alloc);
    by.push((Term::Row(number), 1))?;
    let mut sum = Sum { by, total };
    for (other, coefficient) in row.coefs.as_slice().iter().enumerate() {
        if other != column && *coefficient != 0 {
            if !add_other(&mut sum, ends, other, *coefficient)? {
                return Ok(None);
            }
        }
    }
    Ok(Some(sum))
}

/// The quotient, rounded down, where an end may be so great.
fn quotient(total: i128, divisor: i64) -> Option<i64> {
    if divisor < 1 {
        return None;
    }
    let quotient = total.div_euclid(i128::from(divisor));
    if quotient.unsigned_abs() > MOST_END {
        return None;
    }
    i64::try_from(quotient).ok()
}

/// The end of a column that a sum gives, where the column has this coefficient.
fn end_of(sum: Sum, number: u32, coefficient: i128) -> Option<End> {
    let Sum { by, total } = sum;
    let divisor = i64::try_from(coefficient.unsigned_abs()).ok()?;
    let quotient = quotient(total.value, divisor)?;
    let value = if coefficient > 0 {
        quotient.checked_neg()?
    } else {
        quotient
    };
    let origin = if divisor == 1 && by.len() == 1 {
        Origin::Row(number)
    } else {
        Origin::Sum { by, divisor }
    };
    Some(End { value, origin })
}

/// Whether an end is nearer than another with its number.
fn is_nearer(number: usize, end: &End, than: &End) -> bool {
    if number % 2 == 0 {
        end.value > than.value
    } else {
        end.value < than.value
    }
}

/// The row of an end of this value.
pub(crate) fn end_row(
    alloc: Global,
    columns: u32,
    number: usize,
    value: i64,
) -> Result<Form, AllocError> {
    let is_low = number % 2 == 0;
    let column = number / 2;
    let mut coefs = SmallVec::new(alloc);
    for j in 0..columns as usize {
        let coefficient = if j != column {
            0
        } else if is_low {
            1
        } else {
            -1
        };
        coefs.push(coefficient)?;
    }
    let value = i128::from(value);
    let constant = if is_low { -value } else { value };
    Ok(Form { coefs, constant })
}

/// The end of a column that a row gives with these ends, by its number, if it gives one.
fn end_from(
    alloc: Global,
    number: u32,
    row: &Form,
    column: usize,
    ends: &[Option<End>],
) -> Result<Option<(usize, End)>, AllocError> {
    let Some(coefficient) = row.coefs.as_slice().get(column) else {
        return Ok(None);
    };
    if *coefficient == 0 {
        return Ok(None);
    }
    let Some(end) = end_number(column, *coefficient > 0) else {
        return Ok(None);
    };
    let Some(sum) = summed(alloc, number, row, column, ends)? else {
        return Ok(None);
    };
    match end_of(sum, number, *coefficient) {
        Some(made) => Ok(Some((end, made))),
        None => Ok(None),
    }
}

impl Ends {
    /// No ends.
    fn none(alloc: Global, columns: usize) -> Result<Ends, AllocError> {
        let mut ends = Vec::new(alloc);
        for _ in 0..columns {
            ends.push(None)?;
            ends.push(None)?;
        }
        Ok(Ends {
            ends,
            order: Vec::new(alloc),
        })
    }

    /// Takes an end that isn't found yet.
    fn take(&mut self, number: usize, end: End) -> Result<(), AllocError> {
        if number < self.ends.len() && end_at(self.ends.as_slice(), number).is_none() {
            self.order.push(number)?;
            self.ends[number] = Some(end);
        }
        Ok(())
    }

    /// Takes an end that is nearer than the one that is found.
    fn take_nearer(&mut self, number: usize, end: End) -> Result<(), AllocError> {
        let Some(old) = end_at(self.ends.as_slice(), number) else {
            return self.take(number, end);
        };
        if is_nearer(number, &end, old) && number < self.ends.len() {
            self.ends[number] = Some(end);
        }
        Ok(())
    }

    /// Takes the ends that rows of one column give.
    fn take_lone(&mut self, alloc: Global, rows: &[Form]) -> Result<(), AllocError> {
        for (number, row) in rows.iter().enumerate() {
            if let Some(column) = lone_column(row) {
                let Ok(number) = u32::try_from(number) else {
                    return Err(AllocError);
                };
                if let Some((end, made)) = end_from(alloc, number, row, column, &[])? {
                    self.take_nearer(end, made)?;
                }
            }
        }
        Ok(())
    }

    /// Takes the ends of a column that rows give with the ends of other columns.
    fn take_column(
        &mut self,
        alloc: Global,
        rows: &[Form],
        column: usize,
    ) -> Result<(), AllocError> {
        for (number, row) in rows.iter().enumerate() {
            let Ok(number) = u32::try_from(number) else {
                return Err(AllocError);
            };
            let ends = self.ends.as_slice();
            if let Some((end, made)) = end_from(alloc, number, row, column, ends)? {
                self.take(end, made)?;
            }
        }
        Ok(())
    }

    /// Takes the nearest ends of a column that rows give with the ends of other columns, of those that aren't found yet.
    fn take_nearest(
        &mut self,
        alloc: Global,
        rows: &[Form],
        column: usize,
    ) -> Result<(), AllocError> {
        let no_low = self.end(column, true).is_none();
        let no_high = self.end(column, false).is_none();
        for (number, row) in rows.iter().enumerate() {
            let Ok(number) = u32::try_from(number) else {
                return Err(AllocError);
            };
            let ends = self.ends.as_slice();
            if let Some((end, made)) = end_from(alloc, number, row, column, ends)? {
                let is_open = if end % 2 == 0 { no_low } else { no_high };
                if is_open {
                    self.take_nearer(end, made)?;
                }
            }
        }
        Ok(())
    }

    /// The low end of a column, or its high one, where it is found.
    fn end(&self, column: usize, is_low: bool) -> Option<&End> {
        match end_number(column, is_low) {
            Some(number) => end_at(self.ends.as_slice(), number),
            None => None,
        }
    }

    /// Whether both ends of a column are found.
    fn has(&self, column: usize) -> bool {
        self.end(column, true).is_some() && self.end(column, false).is_some()
    }

    /// Whether both ends of each of so many columns are found.
    fn has_all(&self, columns: usize) -> bool {
        for column in 0..columns {
            if !self.has(column) {
                return false;
            }
        }
        true
    }

    /// The ends that rows of one column give, and then, as long as there are more, for the columns that have none those that rows give
    /// whose other columns have theirs.
    fn first(alloc: Global, columns: usize, rows: &[Form]) -> Result<Ends, AllocError> {
        let mut ends = Ends::none(alloc, columns)?;
        ends.take_lone(alloc, rows)?;
        for _ in 0..columns {
            let before = ends.order.len();
            for column in 0..columns {
                if !ends.has(column) {
                    ends.take_column(alloc, rows, column)?;
                }
            }
            if ends.order.len() == before {
                break;
            }
        }
        Ok(ends)
    }

    /// As long as there are more, for each column in turn that has none, the nearest ends that rows give whose other columns have
    /// theirs.
    fn nearest(alloc: Global, columns: usize, rows: &[Form]) -> Result<Ends, AllocError> {
        let mut ends = Ends::none(alloc, columns)?;
        for _ in 0..columns {
            let before = ends.order.len();
            for column in 0..columns {
                if !ends.has(column) {
                    ends.take_nearest(alloc, rows, column)?;
                }
            }
            if ends.order.len() == before {
                break;
            }
        }
        Ok(ends)
    }

    /// The ends that follow from a system's rows: the first that are found, or the nearest where a column has none among those, since
    /// ends that lie far may give none to the columns that follow from them.
    pub(crate) fn of(alloc: Global, system: &System) -> Result<Ends, AllocError> {
        let columns = system.columns() as usize;
        let rows = system.rows();
        let ends = Ends::first(alloc, columns, rows)?;
        if ends.has_all(columns) {
            Ok(ends)
        } else {
            Ends::nearest(alloc, columns, rows)
        }
    }

    /// The ranges of so many columns.
    pub(crate) fn span(&self, alloc: Global, columns: usize) -> Result<Span, AllocError> {
        let mut ranges = BoxOf::new(alloc);
        for column in 0..columns {
            let (Some(low), Some(high)) = (self.end(column, true), self.end(column, false)) else {
                return Ok(Span::Open);
            };
            if low.value > high.value {
                return Ok(Span::Crossed(column));
            }
            ranges.push(low.value, high.value)?;
        }
        Ok(Span::Ranges(ranges))
    }
}
