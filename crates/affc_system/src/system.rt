//! Systems.
ghost use Rattle.std.specs.Prelude.{◌≡◌, ℕ, ◌+◌, ◌-◌, ◌*◌, ◌^◌, ◌<◌, ◌≤◌, ◌↔◌, ◌++◌, ◌∷◌, [], pos, ◌≤ℤ◌, ◌+ℤ◌, ◌*ℤ◌, unsigned_abs, IfOk, IfErr, OnOk, OnErr, IsTrue, length, take};
ghost use Rattle.std.specs.List.{All};
ghost use Rattle.affc_rows.specs.Forms.{dot, value};
ghost use Rattle.affc_system.specs.Systems.{FitsRow, IsRow, Meets, IsPoint};

use affc_rows::{Form, Total};
use std::alloc::{AllocError, Global};
use std::marker::Model;
use thiserror::Error;

/// The most columns of a system.
pub const MOST_COLUMNS: u32 = 128;

/// The most rows of a system.
pub const MOST_ROWS: usize = 1024;

/// The greatest magnitude of a coefficient of a system's row.
pub const MOST_COEFFICIENT: u128 = 1 << 40;

/// The greatest magnitude of a constant of a system's row.
pub const MOST_CONSTANT: u128 = 1 << 60;

/// Rows over the same numbered columns, which are to be at least 0: a set of integer points.
///
/// Each value keeps the limits: at most 128 columns and 1,024 rows, coefficients within `2^40`, constants within `2^60`.
#[derive(Drop)]
pub struct System {
    columns: u32,
    rows: Vec<Form>,
}

impl Model for System {
    ghost use Rattle.std.specs.Prelude.{◌≤◌, length};
    ghost use Rattle.std.specs.List.{All};
    ghost use Rattle.affc_system.specs.Systems.{Rows, IsRow};

    ghost Value = { Rows };

    ghost view = { λ s. record { columns = s.columns; rows = s.rows.items } };

    ghost invariant = { λ s. (length s.rows.items ≤ 1024) × (s.columns ≤ 128) × All (IsRow s.columns) s.rows.items };
}

impl Clone for System {
    ghost is_clone = { λ s copy. copy ≡ s };

    fn clone(&self) -> Result<System, AllocError> {
        let rows = self.rows.clone()?;
        Ok(System {
            columns: self.columns,
            rows,
        })
    }
}

/// Why a row isn't added.
#[derive(Debug, Clone, Copy, PartialEq, Eq, Error)]
pub enum RowFault {
    #[error("a coefficient is past 2^40, or the constant past 2^60")]
    Range,
    #[error("the system has 1,024 rows")]
    Full,
    #[error("out of memory")]
    Memory,
}

/// Whether the entries keep the limits of a system's rows.
pub fn fits_row(row: &Form) -> bool
    ensures { IsTrue result ↔ FitsRow row.now }
{
    row.constant.unsigned_abs() <= MOST_CONSTANT
        && row
            .coefs
            .as_slice()
            .iter()
            .all(|c| c.unsigned_abs() <= MOST_COEFFICIENT)
}

/// Whether a row is over so many columns, within the limits of a system's rows.
pub fn is_row(columns: u32, row: &Form) -> bool
    ensures { IsTrue result ↔ IsRow columns row.now }
{
    row.coefs.len() == columns as usize && fits_row(row)
}

/// Whether each row is. The recursion is into halves, since there may be many.
pub fn are_rows(columns: u32, rows: &[Form]) -> bool
    ensures { IsTrue result ↔ All (IsRow columns) rows.now }
{
    match rows {
        [] => true,
        [row] => is_row(columns, row),
        _ => {
            let (first, others) = rows.split_at(rows.len() / 2);
            are_rows(columns, first) && are_rows(columns, others)
        }
    }
}

/// The sum with one product more, of a coefficient within the limits and any `i64`.
fn with_term(sum: Total, c: i128, x: i64) -> Total
    requires small { unsigned_abs c ≤ 2 ^ 40 }
    requires room { sum.magnitude ≤ 127 * 2 ^ 103 }
    ensures value { result.value ≡ sum.value +ℤ (c *ℤ x) }
    ensures magnitude { result.magnitude ≤ sum.magnitude + 2 ^ 103 }
{
    if c == 0 {
        return sum;
    }
    let Ok(next) = sum.add(c, i128::from(x)) else {
        unreachable!()
    };
    next
}

/// The sum of the products of a row's coefficients with a point of machine integers, which never overflows.
fn sum_at(coefs: &[i128], point: &[i64]) -> Total
    requires small { All (λ c. unsigned_abs c ≤ 2 ^ 40) coefs.now }
    requires width { length coefs.now ≡ length point.now }
    requires few { length point.now ≤ 128 }
    ensures value { result.value ≡ dot coefs.now point.now }
    ensures magnitude { result.magnitude ≤ 2 ^ 110 }
{
    let mut sum = Total::zero();
    for (i, c) in coefs.iter().enumerate() {
        sum = with_term(sum, *c, point[i]);
    }
    sum
}

/// The value of a row at a point of machine integers, which never overflows.
pub fn value_at(row: &Form, point: &[i64]) -> i128
    requires fits { FitsRow row.now }
    requires width { length row.now.coefs ≡ length point.now }
    requires few { length point.now ≤ 128 }
    ensures { result ≡ value row.now point.now }
{
    sum_at(row.coefs.as_slice(), point).value + row.constant
}

/// Whether the row is at least 0 at the point.
fn meets(row: &Form, point: &[i64]) -> bool
    requires fits { FitsRow row.now }
    requires width { length row.now.coefs ≡ length point.now }
    requires few { length point.now ≤ 128 }
    ensures { IsTrue result ↔ Meets point.now row.now }
{
    value_at(row, point) >= 0
}

impl System {
    /// A system without rows: every point of so many columns.
    pub fn new(alloc: Global, columns: u32) -> System
        requires { columns ≤ 128 }
        ensures { result ≡ record { columns = columns; rows = [] } }
    {
        System {
            columns,
            rows: Vec::new(alloc),
        }
    }

    /// The rows.
    pub fn rows(&self) -> &[Form]
        ensures rows { result.now ≡ self.now.rows }
        ensures few { length result.now ≤ 1024 }
        ensures fit { All (IsRow self.now.columns) result.now }
    {
        self.rows.as_slice()
    }

    /// The rows, taken out of the system.
    pub fn into_rows(self) -> Vec<Form>
        ensures rows { result.items ≡ self.rows }
        ensures few { length result.items ≤ 1024 }
        ensures fit { All (IsRow self.columns) result.items }
    {
        self.rows
    }

    /// Adds a row that keeps the limits, where there is room.
    pub fn add(&mut self, row: Form) -> Result<(), AllocError>
        requires row { IsRow self.old.columns row }
        requires room { length self.old.rows < 1024 }
        ensures ok { OnOk result (self.new ≡ record self.old { rows = self.old.rows ++ row ∷ [] }) }
        ensures err { OnErr result (self.new ≡ self.old) }
    {
        match self.push(row) {
            Ok(()) => Ok(()),
            Err(RowFault::Range) => unreachable!(),
            Err(RowFault::Full) => unreachable!(),
            Err(RowFault::Memory) => Err(AllocError),
        }
    }

    /// Keeps so many rows, the first ones.
    pub fn truncate(&mut self, count: usize)
        ensures { self.new ≡ record self.old { rows = take count self.old.rows } }
    {
        self.rows.truncate(count);
    }

    /// The number of columns.
    pub fn columns(&self) -> u32
        ensures value { result ≡ self.now.columns }
        ensures few { result ≤ 128 }
    {
        self.columns
    }

    /// Adds a row over the system's columns.
    pub fn push(&mut self, row: Form) -> Result<(), RowFault>
        requires { length row.coefs ≡ self.old.columns }
        ensures ok { OnOk result (self.new ≡ record self.old { rows = self.old.rows ++ row ∷ [] }) }
        ensures err { OnErr result (self.new ≡ self.old) }

        // A row that leaves the limits is reported as such, also by a full system.
        ensures fits { OnOk result (FitsRow row) }
        ensures range { IfErr result (λ e. e ≡ RowFault.Range → ¬ (FitsRow row)) }
        ensures room { OnOk result (length self.old.rows < 1024) }
        ensures full { IfErr result (λ e. e ≡ RowFault.Full → FitsRow row × (length self.old.rows ≡ 1024)) }
    {
        if !fits_row(&row) {
            return Err(RowFault::Range);
        }
        if self.rows.len() == MOST_ROWS {
            return Err(RowFault::Full);
        }
        let Ok(()) = self.rows.push(row) else {
            return Err(RowFault::Memory);
        };
        Ok(())
    }

    /// Whether the point is one of the system's: every row is at least 0 there.
    pub fn holds_at(&self, point: &[i64]) -> bool
        requires { length point.now ≡ self.now.columns }
        ensures { IsTrue result ↔ IsPoint self.now point.now }
    {
        let rows = self.rows.as_slice();
        for row in rows {
            if !meets(row, point) {
                return false;
            }
        }
        true
    }
}
