//! Systems of any number of rows.
ghost use Rattle.std.specs.Prelude.{◌≡◌, ◌≤◌, ◌<◌, ◌↔◌, length, IsTrue, IfOk, IfSome, IfNone};
ghost use Rattle.std.specs.List.{All};
ghost use Rattle.affc_system.specs.Systems.{IsRow, Meets, IsPoint};
ghost use Rattle.affc_products.specs.Parts.{IsWithin};

use affc_nest::questions::add_rows;
use affc_rows::Form;
use affc_system::system::{MOST_COLUMNS, MOST_ROWS, value_at};
use affc_system::{System, are_rows};
use sqlite_items::Items;
use std::alloc::{AllocError, Global};
use std::marker::Model;

/// Rows over numbered columns, which are to be at least 0, within no limits.
#[derive(Drop)]
pub struct Long {
    columns: u32,
    rows: Items<Form>,
}

impl Model for Long {
    ghost use Rattle.affc_system.specs.Systems.{Rows};

    ghost Value = { Rows };

    ghost view = { λ l. record { columns = l.columns; rows = l.rows } };
}

/// Whether each row is at least 0 at the point.
fn all_meet(rows: &[Form], point: &[i64]) -> bool
    requires fit { All (IsRow (length point.now)) rows.now }
    requires few { length point.now ≤ 128 }
    ensures { IsTrue result ↔ All (Meets point.now) rows.now }
{
    match rows {
        [] => true,
        [row, rest @ ..] => value_at(row, point) >= 0 && all_meet(rest, point),
    }
}

impl Long {
    /// The system with these rows.
    pub fn new(columns: u32, rows: Items<Form>) -> Long
        ensures { result ≡ record { columns = columns; rows = rows } }
    {
        Long { columns, rows }
    }

    /// The number of columns.
    pub fn columns(&self) -> u32
        ensures { result ≡ self.now.columns }
    {
        self.columns
    }

    /// The rows.
    pub fn rows(&self) -> &[Form]
        ensures { result.now ≡ self.now.rows }
    {
        self.rows.as_slice()
    }

    /// The same as a system, unless it passes the limits of one.
    pub fn system(&self, alloc: Global) -> Result<Option<System>, AllocError>
        ensures same { IfOk result (λ o. IfSome o (λ s. s ≡ self.now)) }
        ensures within { IfOk result (λ o. IfSome o (λ s. IsWithin self.now)) }
        ensures past { IfOk result (λ o. IfNone o (¬ (IsWithin self.now))) }
    {
        let columns = self.columns();
        let rows = self.rows();
        if columns > MOST_COLUMNS || rows.len() > MOST_ROWS || !are_rows(columns, rows) {
            return Ok(None);
        }
        let mut system = System::new(alloc, columns);
        add_rows(&mut system, rows)?;
        Ok(Some(system))
    }

    /// Whether the point is one of the system's: it has a number for each column, and every row is at least 0 there.
    pub fn holds_at(&self, point: &[i64]) -> bool
        requires columns { self.now.columns ≤ 128 }
        requires rows { All (IsRow self.now.columns) self.now.rows }
        ensures { IsTrue result ↔ IsPoint self.now point.now }
    {
        point.len() == self.columns() as usize && all_meet(self.rows(), point)
    }
}
