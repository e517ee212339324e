//! Places at which a part of a box can be split off since one row is below 0 in it.
ghost use Rattle.std.specs.Prelude.{◌≡◌, ℤ, ◌-◌, ◌<◌, ◌≤◌, ◌≤ℤ◌, ◌<ℤ◌, pos, IfSome, length};
ghost use Rattle.std.specs.Bool.{OnTrue};
ghost use Rattle.std.specs.List.{All};
ghost use Rattle.affc_system.specs.Systems.{IsRow};
ghost use Rattle.affc_farkas.specs.Multiples.{row_at};
ghost use Rattle.affc_leaf.specs.Bounds.{IsBound, bound_at, top_value};

use crate::tops::top_of;
use affc_rows::Form;
use affc_simplex::Bound;
use affc_system::System;

/// A place to split off a part in which a row is below 0.
#[derive(Clone, Copy)]
pub struct Place {
    pub row: usize,
    pub column: usize,
    pub at: i64,
}

/// The quotient rounded down.
fn floor_div(a: i128, b: i128) -> Option<i128> {
    let quotient = a.checked_div(b)?;
    let rest = a.checked_rem(b)?;
    if (rest < 0 && b > 0) || (rest > 0 && b < 0) {
        quotient.checked_sub(1)
    } else {
        Some(quotient)
    }
}

/// Where a row with this greatest value, coefficient and range leaves a part of the range empty.
fn place_of(top: i128, c: i128, bound: Bound) -> Option<i64> {
    let at = if c > 0 {
        // x >= high - top / c
        let steps = floor_div(top, c)?;
        i128::from(bound.high).checked_sub(steps)?.checked_sub(1)?
    } else {
        let steps = floor_div(top, c.checked_neg()?)?;
        i128::from(bound.low).checked_add(steps)?
    };
    i64::try_from(at).ok()
}

/// A part that one row leaves empty.
#[tactic(auto, using(crate::proofs::Greatest::row_is_sum))]
fn place_in(row: &Form, number: usize, bounds: &[Bound]) -> Option<Place>
    requires width { IsRow (length bounds.now) row.now }
    requires few { length bounds.now ≤ 128 }
    requires ranges { All IsBound bounds.now }
    ensures inside { IfSome result (λ p. p.column < length bounds.now) }
    ensures low_in { IfSome result (λ p. (bound_at bounds.now p.column).low ≤ℤ p.at) }
    ensures high_in { IfSome result (λ p. p.at <ℤ (bound_at bounds.now p.column).high) }
{
    let top = top_of(row, bounds);
    let coefs = row.coefs.as_slice();
    for column in 0..bounds.len() {
        let bound = bounds[column];
        let c = coefs[column];
        if c != 0 && bound.low < bound.high {
            if let Some(at) = place_of(top, c, bound) {
                if bound.low <= at && at < bound.high {
                    return Some(Place {
                        row: number,
                        column,
                        at,
                    });
                }
            }
        }
    }
    None
}

/// A part that some row leaves empty.
#[inline(never)]
pub fn find_place(system: &System, bounds: &[Bound]) -> Option<Place>
    requires width { length bounds.now ≡ system.now.columns }
    requires ranges { All IsBound bounds.now }
    ensures inside { IfSome result (λ p. p.column < length bounds.now) }
    ensures low_in { IfSome result (λ p. (bound_at bounds.now p.column).low ≤ℤ p.at) }
    ensures high_in { IfSome result (λ p. p.at <ℤ (bound_at bounds.now p.column).high) }
{
    let _columns = system.columns();
    for (i, row) in system.rows().iter().enumerate() {
        if let Some(found) = place_in(row, i, bounds) {
            return Some(found);
        }
    }
    None
}

/// Whether a row is below 0 in the whole box.
#[inline(never)]
#[tactic(auto, using(crate::proofs::Greatest::row_is_sum))]
pub fn is_below(system: &System, bounds: &[Bound], row: usize) -> bool
    requires width { length bounds.now ≡ system.now.columns }
    requires ranges { All IsBound bounds.now }
    ensures there { OnTrue result (row < length system.now.rows) }
    ensures below { OnTrue result (top_value (row_at system.now.columns system.now.rows row) bounds.now <ℤ pos 0) }
{
    let _columns = system.columns();
    let rows = system.rows();
    if row >= rows.len() {
        return false;
    }
    let form: &Form = &rows[row];
    top_of(form, bounds) < 0
}
