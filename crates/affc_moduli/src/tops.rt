//! The greatest value of a row over a box, by products of machine integers.
ghost use Rattle.std.specs.Prelude.{◌≡◌, ℤ, List, ◌+◌, ◌^◌, ◌≤◌, ◌≤ℤ◌, ◌+ℤ◌, ◌*ℤ◌, unsigned_abs, true, length};
ghost use Rattle.std.specs.List.{All};
ghost use Rattle.affc_rows.specs.Forms.{dot, value};
ghost use Rattle.affc_system.specs.Boxes.{InBox, end_of, corner};
ghost use Rattle.affc_system.specs.Systems.{IsRow};

use affc_rows::Form;
use affc_system::BoxOf;

/// The end of a range at which the product with a coefficient is greatest.
#[inline]
fn upper_end(c: i128, range: (i64, i64)) -> i64
    ensures { result ≡ end_of true c range }
{
    if c < 0 { range.0 } else { range.1 }
}

/// The product of a coefficient within the limits and a machine integer, which never overflows.
#[inline]
fn product(c: i128, x: i64) -> i128
    requires { unsigned_abs c ≤ 2 ^ 40 }
    ensures value { result ≡ c *ℤ x }
    ensures within { unsigned_abs result ≤ 2 ^ 103 }
{
    i128::from(c as i64) * i128::from(x)
}

/// The sum with the greatest product of one column more.
#[inline]
fn with_column(sum: i128, c: i128, range: (i64, i64)) -> i128
    requires small { unsigned_abs c ≤ 2 ^ 40 }
    requires room { unsigned_abs sum ≤ 2 ^ 112 }
    ensures value { result ≡ sum +ℤ (c *ℤ end_of true c range) }
    ensures within { unsigned_abs result ≤ unsigned_abs sum + 2 ^ 103 }
{
    if c == 0 {
        return sum;
    }
    sum + product(c, upper_end(c, range))
}

/// The greatest sum of the products of a row's coefficients over some ranges, begun with a constant.
fn sum_over(coefs: &[i128], constant: i128, ranges: &[(i64, i64)]) -> i128
    requires width { length coefs.now ≡ length ranges.now }
    requires few { length coefs.now ≤ 128 }
    requires small { All (λ c. unsigned_abs c ≤ 2 ^ 40) coefs.now }
    requires constant { unsigned_abs constant ≤ 2 ^ 60 }
    ensures { result ≡ dot coefs.now (corner true coefs.now ranges.now) +ℤ constant }
{
    let mut sum = constant;
    for (i, c) in coefs.iter().enumerate() {
        sum = with_column(sum, *c, ranges[i]);
    }
    sum
}

/// The greatest value of a row over a box.
pub fn top_over(row: &Form, ranges: &BoxOf) -> i128
    requires row { IsRow (length ranges.now) row.now }
    requires few { length ranges.now ≤ 128 }
    ensures { (x : List ℤ) → InBox ranges.now x → value row.now x ≤ℤ result }
{
    sum_over(row.coefs.as_slice(), row.constant, ranges.ranges())
}
