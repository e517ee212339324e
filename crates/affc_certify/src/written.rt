//! A question that is written out row by row, and rows of it that show that it has no point.
ghost use Rattle.std.specs.Prelude.{◌≡◌, ◌<◌, ◌≤◌, ◌++◌, ◌∷◌, [], length, OnOk};
ghost use Rattle.std.specs.List.{All};
ghost use Rattle.affc_system.specs.Systems.{FitsRow, IsRow};

use affc_farkas::{MultiplierFault, Multipliers, Proof};
use affc_moduli::{barring, key_of};
use affc_rows::Form;
use affc_system::System;
use std::alloc::{AllocError, Global};

/// Adds a row with the multiplier 1.
fn add_once(by: &mut Multipliers, row: u32) -> Result<(), AllocError>
    requires rising { All (λ p. p.0 < row) by.old }
    requires room { length by.old < 1024 }
    ensures { OnOk result (by.new ≡ by.old ++ (row, 1) ∷ []) }
{
    match by.push(row, 1) {
        Ok(()) => Ok(()),
        Err(MultiplierFault::Times) => unreachable!(),
        Err(MultiplierFault::Order) => unreachable!(),
        Err(MultiplierFault::Full) => unreachable!(),
        Err(MultiplierFault::Memory) => Err(AllocError),
    }
}

/// Rows that show that a question has no point.
#[derive(Clone, Copy, Drop)]
pub(crate) enum Barred {
    /// The row with this number is below 0 everywhere.
    Below(u32),
    /// The rows with these numbers are nowhere both at least 0.
    Parallel(Parallel),
}

/// The numbers of two rows that are parallel the other way round, the lower one first.
#[derive(Clone, Copy, Drop)]
pub(crate) struct Parallel {
    before: u32,
    row: u32,
    ghost rising: { before < row },
}

impl Parallel {
    /// The leaf that adds the two rows.
    fn leaf(self, alloc: Global) -> Result<Proof, AllocError> {
        let mut by = Multipliers::new(alloc);
        add_once(&mut by, self.before)?;
        add_once(&mut by, self.row)?;
        Ok(Proof::Leaf(by))
    }
}

impl Barred {
    /// The leaf that adds the rows.
    pub(crate) fn leaf(self, alloc: Global) -> Result<Proof, AllocError> {
        match self {
            Barred::Below(row) => {
                let mut by = Multipliers::new(alloc);
                add_once(&mut by, row)?;
                Ok(Proof::Leaf(by))
            }
            Barred::Parallel(rows) => rows.leaf(alloc),
        }
    }
}

/// Whether a row is below 0 everywhere.
fn is_below(row: &Form) -> bool {
    row.constant < 0 && row.coefs.as_slice().iter().all(|c| *c == 0)
}

/// The rows of a system and this row behind them that are nowhere both at least 0, since they are parallel the other way round. The
/// first rows of the system have these keys.
fn crossed(system: &System, keys: &[i64], row: &Form) -> Option<Parallel>
    requires row { FitsRow row.now }
    requires first { length keys.now ≤ length system.now.rows }
{
    let rows = system.rows();
    let before = barring(system, keys, row)?;
    Some(Parallel {
        before: before as u32,
        row: rows.len() as u32,
    })
}

/// A question as far as it is written out, with the keys of its rows.
#[derive(Drop)]
pub(crate) struct Written {
    pub system: System,
    keys: Vec<i64>,
    ghost first: { length keys.items ≤ length system.rows },
}

impl Written {
    /// Nothing is written yet.
    pub(crate) fn new(alloc: Global, columns: u32) -> Written
        requires { columns ≤ 128 }
        ensures { result.system.columns ≡ columns }
    {
        Written {
            system: System::new(alloc, columns),
            keys: Vec::new(alloc),
        }
    }

    /// How many rows are written.
    pub(crate) fn len(&self) -> usize {
        self.system.rows().len()
    }

    /// What shows that the question has no point with this row behind, if the row does, alone or with an earlier one.
    fn barred(&self, row: &Form) -> Option<Barred>
        requires { FitsRow row.now }
    {
        if is_below(row) {
            return Some(Barred::Below(self.system.rows().len() as u32));
        }
        let rows = crossed(&self.system, self.keys.as_slice(), row)?;
        Some(Barred::Parallel(rows))
    }

    /// Adds a copy of a row. What shows that the question has no point now comes back, if the row does, alone or with an earlier one.
    /// More rows than a system has count as want of memory.
    fn add_row(&mut self, row: &Form) -> Result<Option<Barred>, AllocError>
        requires { IsRow self.old.system.columns row.now }
        ensures { OnOk result (self.new.system.columns ≡ self.old.system.columns) }
    {
        let barred = self.barred(row);
        let Ok(()) = self.system.push(row.clone()?) else {
            return Err(AllocError);
        };
        self.keys.push(key_of(row))?;
        Ok(barred)
    }

    /// Adds copies of rows, up to one that shows that the question has no point, alone or with an earlier one: that comes back.
    pub(crate) fn add(&mut self, rows: &[Form]) -> Result<Option<Barred>, AllocError>
        requires { All (IsRow self.old.system.columns) rows.now }
        ensures { OnOk result (self.new.system.columns ≡ self.old.system.columns) }
    {
        for row in rows {
            if let Some(barred) = self.add_row(row)? {
                return Ok(Some(barred));
            }
        }
        Ok(None)
    }

    /// Keeps so many rows.
    pub(crate) fn cut_back(&mut self, count: usize)
        ensures { self.new.system.columns ≡ self.old.system.columns }
    {
        self.keys.truncate(count);
        self.system.truncate(count);
    }
}
