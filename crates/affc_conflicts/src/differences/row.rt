//! Differences along a row.
ghost use Rattle.std.specs.Prelude.{◌≡◌, ℤ, List, ◌+◌, ◌*◌, ◌^◌, ◌<◌, ◌≤◌, pos, negsuc, ◌+ℤ◌, ◌-ℤ◌, ◌*ℤ◌, unsigned_abs, IfOk, length};
ghost use Rattle.std.specs.List.{All};
ghost use Rattle.affc_rows.specs.Forms.{mixed, value};
ghost use Rattle.affc_system.specs.Pairs.{IsSubscript};
ghost use Rattle.affc_conflicts.specs.differences.Differences.{apart, IsSmall, IsApart};

use affc_rows::Form;
use std::alloc::{AllocError, Global};

/// The form that is 0.
fn zero(alloc: Global, columns: u32) -> Result<Form, AllocError>
    ensures small { IfOk result (λ f. IsSmall columns 0 f) }
    ensures value { IfOk result (λ f. (z : List ℤ) → value f z ≡ pos 0) }
{
    Form::number(alloc, columns, 0)
}

/// The difference of two numbers, as often as a number says.
fn times_apart(c: i128, x: i128, y: i128) -> i128
    requires c { unsigned_abs c ≤ 256 }
    requires x { unsigned_abs x ≤ 2 ^ 24 }
    requires y { unsigned_abs y ≤ 2 ^ 24 }
    ensures value { result ≡ c *ℤ ((pos 1 *ℤ x) +ℤ (negsuc 0 *ℤ y)) }
    ensures small { unsigned_abs result ≤ 2 ^ 33 }
{
    if x == y {
        return 0;
    }
    c * (x - y)
}

/// Adds a multiple of the difference of two lists of coefficients, in place.
fn add_coefs_apart(sum: &mut [i128], c: i128, xs: &[i128], ys: &[i128])
    requires c { unsigned_abs c ≤ 256 }
    requires sum { All (λ v. unsigned_abs v ≤ 2 ^ 40) sum.old }
    requires xs { All (λ v. unsigned_abs v ≤ 65536) xs.now }
    requires ys { All (λ v. unsigned_abs v ≤ 65536) ys.now }
    requires x_each { length xs.now ≡ length sum.old }
    requires y_each { length ys.now ≡ length sum.old }
    ensures { sum.new ≡ mixed (pos 1) sum.old c (mixed (pos 1) xs.now (negsuc 0) ys.now) }
{
    for (i, x) in xs.iter().enumerate() {
        sum[i] += times_apart(c, *x, ys[i]);
    }
}

/// Adds a multiple of the difference of one component, in place.
fn add_apart(sum: &mut Form, c: i128, x: &Form, y: &Form, n: usize, columns: u32)
    requires sum { IsSmall columns n sum.old }
    requires few { n < 8 }
    requires c { unsigned_abs c ≤ 256 }
    requires x { IsSubscript columns x.now }
    requires y { IsSubscript columns y.now }
    ensures small { IsSmall columns (n + 1) sum.new }
    ensures value { (z : List ℤ) → length z ≡ columns → value sum.new z ≡ value sum.old z +ℤ (c *ℤ (value x.now z -ℤ value y.now z)) }
{
    add_coefs_apart(
        sum.coefs.as_mut_slice(),
        c,
        x.coefs.as_slice(),
        y.coefs.as_slice(),
    );
    sum.constant += times_apart(c, x.constant, y.constant);
}

/// Adds a multiple of the difference of one component, in place, where it is other than 0.
fn add_component(sum: &mut Form, c: i128, x: &Form, y: &Form, n: usize, columns: u32)
    requires sum { IsSmall columns n sum.old }
    requires few { n < 8 }
    requires c { unsigned_abs c ≤ 256 }
    requires x { IsSubscript columns x.now }
    requires y { IsSubscript columns y.now }
    ensures small { IsSmall columns (n + 1) sum.new }
    ensures value { (z : List ℤ) → length z ≡ columns → value sum.new z ≡ value sum.old z +ℤ (c *ℤ (value x.now z -ℤ value y.now z)) }
{
    if c != 0 {
        add_apart(sum, c, x, y, n, columns);
    }
}

/// How far apart two elements lie along a row, as a form over the columns of their subscripts.
pub fn difference(
    alloc: Global,
    coefs: &[i128],
    x: &[Form],
    y: &[Form],
    columns: u32,
) -> Result<Form, AllocError>
    requires x_each { length x.now ≡ length coefs.now }
    requires y_each { length y.now ≡ length coefs.now }
    requires few { length coefs.now ≤ 4 }
    requires small { All (λ c. unsigned_abs c ≤ 256) coefs.now }
    requires x { All (IsSubscript columns) x.now }
    requires y { All (IsSubscript columns) y.now }
    ensures small { IfOk result (λ f. IsSmall columns 4 f) }
    ensures value { IfOk result (λ f. (z : List ℤ) → length z ≡ columns → value f z ≡ apart coefs.now x.now y.now z) }
{
    let mut sum = zero(alloc, columns)?;
    for (i, c) in coefs.iter().enumerate() {
        add_component(&mut sum, *c, &x[i], &y[i], i, columns);
    }
    Ok(sum)
}
