//! Columns that are quotients of forms, rounded down.
ghost use Rattle.std.specs.Prelude.{◌≡◌, ◌+◌, ◌^◌, ◌≤◌, ◌≤ℤ◌, ◌++◌, ◌∷◌, [], List, ℤ, pos, length, IfOk, OnOk};
ghost use Rattle.affc_rows.specs.Forms.{magnitude};
ghost use Rattle.affc_system.specs.Boxes.{IsCorner};
ghost use Rattle.affc_ast.specs.Index.{floor_of};
ghost use Rattle.affc_nest.specs.Divisions.{multiple, division_rows, held, quotient_range};
ghost use Rattle.affc_nest.specs.Wide.{IsWide};

use crate::lists::add_gap_row;
use affc_rows::Form;
use affc_system::{BoxOf, interval};
use smallvec::SmallVec;
use sqlite_items::Items;
use std::alloc::{AllocError, Global};

/// A form and the number by which it is divided.
#[derive(Drop)]
pub struct Division {
    pub form: Form,
    pub by: i64,
}

// ---- Rows.

/// A form with so many zeros, this coefficient behind them, and this constant.
fn last_column(alloc: Global, columns: u32, by: i64, constant: i64) -> Result<Form, AllocError>
    ensures { IfOk result (λ f. f ≡ multiple columns by constant) }
{
    let mut coefs = SmallVec::new(alloc);
    coefs.push(i128::from(by))?;
    let alone = Form {
        coefs,
        constant: i128::from(constant),
    };
    alone.spread(alloc, 0, columns, 0)
}

/// Adds the rows that the column behind so many is the quotient of a form, rounded down.
pub fn add_division(
    alloc: Global,
    columns: u32,
    form: &Form,
    by: i64,
    out: &mut Items<Form>,
) -> Result<(), AllocError>
    requires form { IsWide columns form.now }
    requires room { columns ≤ 1000 }
    ensures { OnOk result (out.new ≡ out.old ++ division_rows columns form.now by) }
{
    let whole = form.widened(alloc, 1)?;
    let low = last_column(alloc, columns, by, 0)?;
    let high = last_column(alloc, columns, by, by)?;
    add_gap_row(alloc, columns + 1, &low, &whole, 0, out)?;
    add_gap_row(alloc, columns + 1, &whole, &high, 1, out)?;
    Ok(())
}

// ---- Ranges.

/// The greatest magnitude of an end of a range.
const MOST: i128 = 1 << 60;

/// A number held within 2^60.
fn held(value: i128) -> i64
    ensures { result ≡ held (2 ^ 60) value }
{
    if value < -MOST {
        return -MOST as i64;
    }
    if MOST < value {
        return MOST as i64;
    }
    value as i64
}

/// A quotient, rounded down and held within 2^60.
fn quotient(value: i128, by: i64) -> i64
    requires { pos 1 ≤ℤ by }
    ensures { result ≡ held (2 ^ 60) (floor_of value by) }
{
    held(value.div_euclid(i128::from(by)))
}

/// Adds the range of a quotient.
pub fn add_quotient(form: &Form, by: i64, ranges: &mut BoxOf) -> Result<(), AllocError>
    requires width { length form.now.coefs ≡ length ranges.old }
    requires by { pos 1 ≤ℤ by }
    requires fits { (x : List ℤ) → IsCorner ranges.old x → magnitude form.now x ≤ 2 ^ 126 }
    ensures { OnOk result (ranges.new ≡ ranges.old ++ quotient_range ranges.old form.now by ∷ []) }
{
    let _ordered = ranges.ranges();
    let Ok((low, high)) = interval(form, ranges) else {
        unreachable!()
    };
    let first = quotient(low, by);
    let last = quotient(high, by);
    ranges.push(first, last)?;
    Ok(())
}
