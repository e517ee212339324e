//! Rows at rational points.
ghost use Rattle.std.specs.Prelude.{◌≡◌, ◌<◌, ◌≤ℤ◌, ◌+ℤ◌, ◌-ℤ◌, ◌*ℤ◌, pos, IfSome, length};
ghost use Rattle.std.specs.Bool.{OnTrue};
ghost use Rattle.affc_farkas.specs.Rational.{RationalPoint, scaled_value};

use affc_rows::Form;
use affc_simplex::Vertex;
use affc_system::System;

/// Whether all numbers of a point are whole.
pub(crate) fn is_whole(vertex: &Vertex) -> bool {
    vertex.divisor == 1
}

/// As often as the divisor says the value of a row at a point. `None` where a number doesn't fit.
pub(crate) fn value_of(vertex: &Vertex, row: &Form) -> Option<i128> {
    if vertex.numerators.len() != row.coefs.len() {
        return None;
    }
    scaled(row, vertex.numerators.as_slice(), vertex.divisor)
}

/// Whether every row is at least 0 at a point. `false` where that can't be told.
pub(crate) fn meets(vertex: &Vertex, system: &System) -> bool
    ensures { OnTrue result (RationalPoint system.now.columns system.now.rows) }
{
    vertex.divisor >= 1 && meet_at(system, vertex.numerators.as_slice(), vertex.divisor)
}

/// A value with a multiple of the constant in place of the constant. `None` where a number is too great.
fn with_multiple(value: i128, constant: i128, times: i128) -> Option<i128>
    ensures { IfSome result (λ t. t ≡ (value -ℤ constant) +ℤ (times *ℤ constant)) }
{
    let products = value.checked_sub(constant)?;
    let multiple = times.checked_mul(constant)?;
    products.checked_add(multiple)
}

/// `d` times the value of a row at `x / d`. `None` where a number is too great.
fn scaled(row: &Form, x: &[i128], d: i128) -> Option<i128>
    requires { length x.now ≡ length row.now.coefs }
    ensures { IfSome result (λ v. v ≡ scaled_value row.now x.now d) }
{
    let Ok(value) = row.eval(x) else {
        return None;
    };
    let total = with_multiple(value, row.constant, d)?;
    Some(total)
}

/// Whether a row is at least 0 at `x / d`.
fn meets_row(row: &Form, x: &[i128], d: i128) -> bool
    requires { length x.now ≡ length row.now.coefs }
    ensures { OnTrue result (pos 0 ≤ℤ scaled_value row.now x.now d) }
{
    match scaled(row, x, d) {
        Some(value) => value >= 0,
        None => false,
    }
}

/// Whether every row is at least 0 at `x / d`. `false` where a number is too great.
fn meet_at(system: &System, x: &[i128], d: i128) -> bool
    requires { pos 1 ≤ℤ d }
    ensures { OnTrue result (RationalPoint system.now.columns system.now.rows) }
{
    let columns = system.columns() as usize;
    if x.len() != columns {
        return false;
    }
    for row in system.rows() {
        if !meets_row(row, x, d) {
            return false;
        }
    }
    true
}
