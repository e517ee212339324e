//! The greatest values of rows over boxes.
ghost use Rattle.std.specs.Prelude.{◌≡◌, ℤ, ◌+◌, ◌*◌, ◌*ℤ◌, ◌^◌, ◌<◌, ◌≤◌, ◌≤ℤ◌, ◌<ℤ◌, pos, unsigned_abs, IfSome, IfNone, length};
ghost use Rattle.std.specs.List.{All};
ghost use Rattle.affc_farkas.specs.Multiples.{row_at};
ghost use Rattle.affc_leaf.specs.Bounds.{IsBound, IsSum, top, top_at, top_value};

use affc_rows::Form;
use affc_simplex::Bound;
use affc_system::System;

/// A coefficient times an end of a range.
fn product(c: i128, x: i64) -> i128
    requires coefficient { unsigned_abs c ≤ 2 ^ 53 }
    requires end { unsigned_abs x ≤ 2 ^ 60 }
    ensures value { result ≡ c *ℤ x }
    ensures small { unsigned_abs result ≤ 2 ^ 113 }
{
    c * i128::from(x)
}

/// One product at its greatest over a range.
fn top_product(c: i128, bound: Bound) -> i128
    requires coefficient { unsigned_abs c ≤ 2 ^ 53 }
    requires range { IsBound bound }
    ensures value { result ≡ top_at c bound }
    ensures small { unsigned_abs result ≤ 2 ^ 113 }
{
    if c == 0 {
        0
    } else if c < 0 {
        product(c, bound.low)
    } else {
        product(c, bound.high)
    }
}

/// The greatest value of the products over the box.
pub fn top_products(coefs: &[i128], bounds: &[Bound]) -> i128
    requires width { length coefs.now ≡ length bounds.now }
    requires few { length coefs.now ≤ 128 }
    requires small { All (λ c. unsigned_abs c ≤ 2 ^ 53) coefs.now }
    requires ranges { All IsBound bounds.now }
    ensures value { result ≡ top coefs.now bounds.now }
    ensures small { unsigned_abs result ≤ 2 ^ 120 }
{
    let mut sum = 0i128;
    for (i, c) in coefs.iter().enumerate() {
        let part = top_product(*c, bounds[i]);
        sum += part;
    }
    sum
}

/// The greatest value of a row over the box.
pub fn top_of(row: &Form, bounds: &[Bound]) -> i128
    requires sum { IsSum (length bounds.now) row.now }
    requires few { length bounds.now ≤ 128 }
    requires ranges { All IsBound bounds.now }
    ensures value { result ≡ top_value row.now bounds.now }
{
    let sum = top_products(row.coefs.as_slice(), bounds);
    sum + row.constant
}

/// A row that is below 0 in the whole box.
#[tactic(auto, using(crate::proofs::Greatest::row_is_sum))]
pub fn broken(system: &System, bounds: &[Bound]) -> Option<usize>
    requires width { length bounds.now ≡ system.now.columns }
    requires ranges { All IsBound bounds.now }
    ensures found { IfSome result (λ i. (i < length system.now.rows) × (top_value (row_at system.now.columns system.now.rows i) bounds.now <ℤ pos 0)) }
    ensures none { IfNone result (All (λ row. pos 0 ≤ℤ top_value row bounds.now) system.now.rows) }
{
    let _columns = system.columns();
    for (i, row) in system.rows().iter().enumerate() {
        if top_of(row, bounds) < 0 {
            return Some(i);
        }
    }
    None
}
