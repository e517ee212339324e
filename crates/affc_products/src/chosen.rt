//! Whether multiples of rows that references point to sum to a constant below 0. No row is copied.
ghost use Rattle.std.specs.Prelude.{◌≡◌, ℕ, ◌+◌, ◌*◌, ◌^◌, ◌<◌, ◌≤◌, ◌↔◌, ◌++◌, ◌∷◌, [], unsigned_abs, IsTrue, IfOk, OnOk, length, pos, ◌*ℤ◌};
ghost use Rattle.std.specs.List.{All};
ghost use Rattle.affc_farkas.specs.Multiples.{entry_of, row_at, multiple_sum, AreMultipliers};
ghost use Rattle.affc_farkas.specs.Proofs.{IsLeaf};
ghost use Rattle.affc_system.specs.Systems.{FitsRow, IsRow};
ghost use Rattle.affc_products.specs.Parts.{IsProof};
ghost use Rattle.affc_products.specs.Chosen.{rows_of};

use crate::question::is_proof;
use affc_farkas::Proof;
use affc_rows::Form;
use affc_system::System;
use std::alloc::{AllocError, Global};

/// The entry of a row at a place: a coefficient, or after them the constant.
fn entry(row: &Form, column: usize) -> i128
    requires fits { FitsRow row.now }
    requires column_in { column ≤ length row.now.coefs }
    ensures value { result ≡ entry_of row.now column }
    ensures small { unsigned_abs result ≤ 2 ^ 60 }
{
    let coefs = row.coefs.as_slice();
    if column < coefs.len() {
        coefs[column]
    } else {
        row.constant
    }
}

/// The row with this number.
fn row_of<'a>(columns: u32, rows: &[&'a Form], number: u32) -> &'a Form
    requires fit { All (IsRow columns) (rows_of rows.now) }
    requires there { number < length (rows_of rows.now) }
    ensures row { result.now ≡ row_at columns (rows_of rows.now) number }
    ensures fits { IsRow columns result.now }
{
    let _ = columns;
    rows[number as usize]
}

/// A multiple of an entry.
fn multiple(times: u64, entry: i128) -> i128
    requires times_small { times ≤ 2 ^ 53 }
    requires entry_small { unsigned_abs entry ≤ 2 ^ 60 }
    ensures value { result ≡ pos times *ℤ entry }
    ensures small { unsigned_abs result ≤ 2 ^ 113 }
{
    if entry == 0 {
        return 0;
    }
    i128::from(times) * entry
}

/// The entry of the sum of these multiples at a place.
fn sum_at(by: &[(u32, u64)], columns: u32, rows: &[&Form], column: usize) -> i128
    requires fit { All (IsRow columns) (rows_of rows.now) }
    requires multipliers { AreMultipliers by.now }
    requires there { All (λ p. p.0 < length (rows_of rows.now)) by.now }
    requires column_in { column ≤ columns }
    ensures value { result ≡ entry_of (multiple_sum columns (rows_of rows.now) by.now) column }
    ensures small { unsigned_abs result ≤ 2 ^ 123 }
{
    let mut sum = 0i128;
    for (i, pair) in by.iter().enumerate() {
        let row = row_of(columns, rows, pair.0);
        let part = multiple(pair.1, entry(row, column));
        sum += part;
    }
    sum
}

/// Whether each row number is there.
fn all_there(by: &[(u32, u64)], rows: &[&Form]) -> bool
    requires few { length (rows_of rows.now) ≤ 1024 }
    ensures { IsTrue result ↔ All (λ p. p.0 < length (rows_of rows.now)) by.now }
{
    let count = rows.len() as u32;
    by.iter().all(|pair| pair.0 < count)
}

/// Whether the sum of these multiples has all coefficients 0.
fn cancels(by: &[(u32, u64)], columns: u32, rows: &[&Form]) -> bool
    requires fit { All (IsRow columns) (rows_of rows.now) }
    requires multipliers { AreMultipliers by.now }
    requires there { All (λ p. p.0 < length (rows_of rows.now)) by.now }
    ensures { IsTrue result ↔ ((j : ℕ) → j < columns → entry_of (multiple_sum columns (rows_of rows.now) by.now) j ≡ pos 0) }
{
    for column in 0..columns {
        if sum_at(by, columns, rows, column as usize) != 0 {
            return false;
        }
    }
    true
}

/// The constant of the sum of these multiples.
fn constant_at(by: &[(u32, u64)], columns: u32, rows: &[&Form]) -> i128
    requires fit { All (IsRow columns) (rows_of rows.now) }
    requires multipliers { AreMultipliers by.now }
    requires there { All (λ p. p.0 < length (rows_of rows.now)) by.now }
    ensures value { result ≡ (multiple_sum columns (rows_of rows.now) by.now).constant }
    ensures small { unsigned_abs result ≤ 2 ^ 123 }
{
    sum_at(by, columns, rows, columns as usize)
}

/// Whether these multiples make a leaf below these rows.
pub(crate) fn is_leaf_of(by: &[(u32, u64)], columns: u32, rows: &[&Form]) -> bool
    requires fit { All (IsRow columns) (rows_of rows.now) }
    requires few { length (rows_of rows.now) ≤ 1024 }
    requires multipliers { AreMultipliers by.now }
    ensures { IsTrue result ↔ IsLeaf columns (rows_of rows.now) by.now }
{
    if !all_there(by, rows) {
        return false;
    }
    if !cancels(by, columns, rows) {
        return false;
    }
    constant_at(by, columns, rows) < 0
}

/// Adds a copy of a row that keeps the limits, where there is room.
fn add_copy(system: &mut System, row: &Form) -> Result<(), AllocError>
    requires row { IsRow system.old.columns row.now }
    requires room { length system.old.rows + 1 ≤ 1024 }
    ensures { OnOk result (system.new ≡ record { columns = system.old.columns; rows = system.old.rows ++ row.now ∷ [] }) }
{
    system.add(row.clone()?)
}

/// A system of copies of these rows.
pub(crate) fn copies(alloc: Global, columns: u32, rows: &[&Form]) -> Result<System, AllocError>
    requires few_columns { columns ≤ 128 }
    requires fit { All (IsRow columns) (rows_of rows.now) }
    requires few { length (rows_of rows.now) ≤ 1024 }
    ensures { IfOk result (λ s. s ≡ record { columns = columns; rows = rows_of rows.now }) }
{
    let mut system = System::new(alloc, columns);
    for row in rows {
        add_copy(&mut system, row)?;
    }
    Ok(system)
}

/// Whether a proof is one of these rows, and at most 1,024 rows stand at each of its nodes. For a leaf no row is copied.
pub(crate) fn is_proof_of(
    alloc: Global,
    columns: u32,
    rows: &[&Form],
    proof: &Proof,
) -> Result<bool, AllocError>
    requires few_columns { columns ≤ 128 }
    requires fit { All (IsRow columns) (rows_of rows.now) }
    requires few { length (rows_of rows.now) ≤ 1024 }
    ensures { IfOk result (λ b. IsTrue b ↔ IsProof (record { columns = columns; rows = rows_of rows.now }) proof.now) }
{
    match proof {
        Proof::Leaf(by) => Ok(is_leaf_of(by.pairs(), columns, rows)),
        _ => {
            let system = copies(alloc, columns, rows)?;
            Ok(is_proof(&system, proof))
        }
    }
}
