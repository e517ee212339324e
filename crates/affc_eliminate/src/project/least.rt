//! Rows over their first columns, in least terms.
ghost use Rattle.std.specs.Prelude.{◌≡◌, ◌≤◌, ◌++◌, ◌∷◌, [], pos, ◌*ℤ◌, unsigned_abs, map, length, IfOk, IfSome, IfNone};
ghost use Rattle.std.specs.List.{All};
ghost use Prim.Native.Nat.{◌∣◌};
ghost use Rattle.affc_eliminate.specs.project.States.{IsDivisor, IsBlank, IsLeast, AreReduced};

use crate::Kept;
use affc_rows::vocabulary::gcd;
use affc_rows::{Coefs, Form};
use smallvec::SmallVec;
use std::alloc::{AllocError, Global};

/// The greatest common divisor of the numbers.
fn common_divisor(numbers: &[i128], last: i128) -> u128
    ensures { IsDivisor result numbers.now last }
{
    let mut divisor = last.unsigned_abs();
    for number in numbers {
        divisor = gcd(divisor, number.unsigned_abs());
    }
    divisor
}

/// The number divided by one that divides it.
fn quotient(number: i128, divisor: u128) -> i128
    requires positive { 1 ≤ divisor }
    requires divides { divisor ∣ unsigned_abs number }
    ensures { number ≡ pos divisor *ℤ result }
{
    let magnitude = number.unsigned_abs() / divisor;
    if number < 0 {
        let Some(negative) = 0i128.checked_sub_unsigned(magnitude) else {
            unreachable!()
        };
        negative
    } else {
        magnitude as i128
    }
}

/// The numbers divided by one that divides each.
fn quotients(alloc: Global, numbers: &[i128], divisor: u128) -> Result<Coefs, AllocError>
    requires positive { 1 ≤ divisor }
    requires divides { All (λ n. divisor ∣ unsigned_abs n) numbers.now }
    ensures { IfOk result (λ v. numbers.now ≡ map (λ z. pos divisor *ℤ z) v.items) }
{
    let mut parts = SmallVec::new(alloc);
    for number in numbers {
        parts.push(quotient(*number, divisor))?;
    }
    Ok(parts)
}

/// The row over its first columns in least terms, unless it is 0 everywhere.
fn least(alloc: Global, row: &Form, keep: usize) -> Result<Option<Form>, AllocError>
    requires { keep ≤ length row.now.coefs }
    ensures some { IfOk result (λ form. IfSome form (IsLeast keep row.now)) }
    ensures none { IfOk result (λ form. IfNone form (IsBlank keep row.now)) }
{
    let first = &row.coefs.as_slice()[..keep];
    let divisor = common_divisor(first, row.constant);
    if divisor == 0 {
        return Ok(None);
    }
    let constant = quotient(row.constant, divisor);
    let coefs = quotients(alloc, first, divisor)?;
    Ok(Some(Form { coefs, constant }))
}

/// The rows with one more, if there is one.
fn extended(rows: Vec<Form>, row: Option<Form>) -> Result<Vec<Form>, AllocError>
    ensures some { IfOk result (λ new. IfSome row (λ f. new.items ≡ rows.items ++ f ∷ [])) }
    ensures none { IfOk result (λ new. IfNone row (new.items ≡ rows.items)) }
{
    let mut rows = rows;
    match row {
        Some(form) => {
            rows.push(form)?;
            Ok(rows)
        }
        None => Ok(rows),
    }
}

/// The rows over their first columns, in least terms, without those that are 0 everywhere.
pub(crate) fn reduced(alloc: Global, live: &[Kept], keep: usize) -> Result<Vec<Form>, AllocError>
    requires { All (λ k. keep ≤ length k.row.coefs) live.now }
    ensures { IfOk result (λ rows. AreReduced keep live.now rows.items) }
{
    let mut rows = Vec::new(alloc);
    for kept in live {
        let row = least(alloc, &kept.row, keep)?;
        let next = extended(rows, row)?;
        rows = next;
    }
    Ok(rows)
}
