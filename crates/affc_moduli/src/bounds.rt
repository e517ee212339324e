//! How great a form can be in a region, by its box and by single rows, without a question.
ghost use Rattle.std.specs.Prelude.{◌≡◌, ℤ, List, ◌^◌, ◌≤◌, ◌≤ℤ◌, ◌+ℤ◌, ◌⊎◌, unsigned_abs, pos, IsTrue, IfSome, length};
ghost use Rattle.std.specs.List.{All};
ghost use Rattle.affc_system.specs.Systems.{FitsRow, IsRow, Meets};
ghost use Rattle.affc_split.specs.maximum.Regions.{InRegion, IsBounded, IsAskable};
ghost use Rattle.affc_rows.specs.Vocabulary.{AreOpposite};

use crate::distances::MOST_DISTANCE;
use crate::keys::{barring_by_key, key_of};
use crate::tops::top_over;
use affc_rows::Form;
use affc_rows::vocabulary::are_opposite;
use affc_split::maximum::Region;
use affc_system::system::MOST_ROWS;

/// A number within 2^61.
#[derive(Clone, Copy, Drop)]
pub struct Bound {
    pub most: i64,
    ghost near: { unsigned_abs most ≤ 2 ^ 61 },
}

/// The keys of so many rows take little room.
const FEW_ROWS: usize = 64;

/// Whether a row is parallel to a form, the other way round.
fn opposes(row: &Form, form: &Form) -> bool
    ensures { IsTrue result → AreOpposite row.now.coefs form.now.coefs }
{
    are_opposite(row.coefs.as_slice(), form.coefs.as_slice())
}

/// The sum of the constants.
fn sum_of_constants(row: &Form, form: &Form) -> Bound
    requires row { FitsRow row.now }
    requires form { FitsRow form.now }
    ensures { result.most ≡ row.now.constant +ℤ form.now.constant }
{
    Bound {
        most: (row.constant + form.constant) as i64,
    }
}

/// The lesser of a bound and the one that a row gives where it is parallel to the form.
fn lowered(region: &Region, row: &Form, form: &Form, bound: Bound) -> Bound
    requires row { IsRow region.now.system.columns row.now }
    requires form { IsRow region.now.system.columns form.now }
    requires meets { (z : List ℤ) → InRegion region.now z → Meets z row.now }
    requires bounded { IsBounded region.now form.now bound.most }
    ensures bounded { IsBounded region.now form.now result.most }
{
    let sum = sum_of_constants(row, form);
    if sum.most < bound.most && opposes(row, form) {
        sum
    } else {
        bound
    }
}

/// The least of a bound and those that parallel rows give.
fn by_rows(region: &Region, form: &Form, begun: Bound) -> Bound
    requires form { IsRow region.now.system.columns form.now }
    requires bounded { IsBounded region.now form.now begun.most }
    ensures bounded { IsBounded region.now form.now result.most }
{
    let mut bound = begun;
    for row in region.system.rows() {
        bound = lowered(region, row, form, bound);
    }
    bound
}

/// A number that a form isn't above anywhere in its region: its greatest value over the box.
fn top_of(region: &Region, form: &Form) -> i128
    requires { IsRow region.now.system.columns form.now }
    ensures { IsBounded region.now form.now result }
{
    let columns = region.system.columns();
    prove!(columns <= 128);
    top_over(form, &region.ranges)
}

/// The greatest value of a form over the box of its region, where it is within reach.
fn by_box(region: &Region, form: &Form) -> Option<Bound>
    requires form { IsRow region.now.system.columns form.now }
    ensures bounded { IfSome result (λ b. IsBounded region.now form.now b.most) }
{
    let top = top_of(region, form);
    if top.unsigned_abs() <= 1 << 61 {
        Some(Bound { most: top as i64 })
    } else {
        None
    }
}

/// A number that a form isn't above anywhere in its region, by the box and by parallel rows.
fn plain_bound(region: &Region, form: &Form) -> Option<Bound>
    requires form { IsRow region.now.system.columns form.now }
    ensures bounded { IfSome result (λ b. IsBounded region.now form.now b.most) }
{
    match by_box(region, form) {
        Some(bound) => Some(by_rows(region, form, bound)),
        None => None,
    }
}

/// Whether a row is below 0 throughout the box of a region.
fn is_broken(region: &Region, row: &Form) -> bool
    requires row { IsRow region.now.system.columns row.now }
    ensures { IsTrue result → (z : List ℤ) → InRegion region.now z → Meets z row.now → ⊥ }
{
    top_of(region, row) < 0
}

/// Whether a parallel row of the region is nowhere at least 0 where a row is, which has this key. Only the first rows are looked
/// at, of which these are the keys.
fn is_barred(region: &Region, row: &Form, key: i64, keys: &[i64]) -> bool
    requires row { IsRow region.now.system.columns row.now }
    requires first { length keys.now ≤ length region.now.system.rows }
    ensures { IsTrue result → (z : List ℤ) → InRegion region.now z → Meets z row.now → ⊥ }
{
    barring_by_key(&region.system, keys, row, key).is_some()
}

/// Whether a row more, which has this key, is seen to leave a region no point: it is below 0 throughout the box, or parallel to one
/// of the first rows, which have these keys.
pub fn is_out(region: &Region, row: &Form, key: i64, keys: &[i64]) -> bool
    requires row { IsRow region.now.system.columns row.now }
    requires first { length keys.now ≤ length region.now.system.rows }
    ensures { IsTrue result → (z : List ℤ) → InRegion region.now z → Meets z row.now → ⊥ }
{
    if is_broken(region, row) {
        return true;
    }
    is_barred(region, row, key, keys)
}

/// Whether one row is below 0 throughout the box.
fn has_broken_row(region: &Region) -> bool
    ensures { IsTrue result → (z : List ℤ) → InRegion region.now z → ⊥ }
{
    for row in region.system.rows() {
        if is_broken(region, row) {
            return true;
        }
    }
    false
}

/// Whether two rows are nowhere both at least 0, since they are parallel. There is room for the rows' keys.
fn has_barred_row(region: &Region, keys: &mut [i64]) -> bool
    requires { length region.now.system.rows ≤ length keys.old }
    ensures { IsTrue result → (z : List ℤ) → InRegion region.now z → ⊥ }
{
    for (i, row) in region.system.rows().iter().enumerate() {
        let key = key_of(row);
        if is_barred(region, row, key, &keys[..i]) {
            return true;
        }
        keys[i] = key;
    }
    false
}

/// Whether two rows are nowhere both at least 0, since they are parallel.
fn is_barred_somewhere(region: &Region) -> bool
    ensures { IsTrue result → (z : List ℤ) → InRegion region.now z → ⊥ }
{
    if region.system.rows().len() <= FEW_ROWS {
        let mut keys = [0i64; FEW_ROWS];
        return has_barred_row(region, &mut keys);
    }
    let mut keys = [0i64; MOST_ROWS];
    has_barred_row(region, &mut keys)
}

/// Whether a region is seen to have no point: each row is looked at by the box, and then beside those that are parallel to it.
pub fn is_void(region: &Region) -> bool
    ensures { IsTrue result → (z : List ℤ) → InRegion region.now z → ⊥ }
{
    if has_broken_row(region) {
        return true;
    }
    is_barred_somewhere(region)
}

/// Whether the first row is below 0 throughout the box.
fn starts_broken(region: &Region, rows: &[Form]) -> bool
    requires rows { All (IsRow region.now.system.columns) rows.now }
    requires meets { (z : List ℤ) → InRegion region.now z → All (Meets z) rows.now }
    ensures { IsTrue result → (z : List ℤ) → InRegion region.now z → ⊥ }
{
    match rows {
        [] => false,
        [first, ..] => is_broken(region, first),
    }
}

/// Whether a region is seen by its first row to have no point, as one is that was reduced.
pub fn begins_void(region: &Region) -> bool
    ensures { IsTrue result → (z : List ℤ) → InRegion region.now z → ⊥ }
{
    starts_broken(region, region.system.rows())
}

/// A number that a form isn't above anywhere in its region, if one is seen without a question.
///
/// A region that is reduced shows by its first row that it has no point.
pub fn upper_bound(region: &Region, form: &Form) -> Option<Bound>
    requires form { IsRow region.now.system.columns form.now }
    ensures bounded { IfSome result (λ b. IsBounded region.now form.now b.most) }
{
    if begins_void(region) {
        return Some(Bound { most: -1 });
    }
    plain_bound(region, form)
}

/// Whether a form is seen to be at most a number throughout its region.
pub fn is_at_most(region: &Region, form: &Form, most: i64) -> bool
    requires form { IsRow region.now.system.columns form.now }
    ensures { IsTrue result → IsBounded region.now form.now most }
{
    match upper_bound(region, form) {
        Some(bound) => bound.most <= most,
        None => false,
    }
}

/// A bound, but from 0 to the greatest distance.
fn within_distances(bound: Bound) -> Bound
    ensures positive { pos 0 ≤ℤ result.most }
    ensures within { result.most ≤ℤ pos (2 ^ 53) }
    ensures above { (bound.most ≤ℤ result.most) ⊎ (result.most ≡ pos (2 ^ 53)) }
{
    if bound.most < 0 {
        Bound { most: 0 }
    } else if bound.most > MOST_DISTANCE {
        Bound {
            most: MOST_DISTANCE,
        }
    } else {
        bound
    }
}

/// A number that a form isn't above anywhere in its region, from 0 to the greatest distance.
pub fn ceiling_of(region: &Region, form: &Form) -> Bound
    requires askable { IsAskable region.now form.now (pos (2 ^ 53)) }
    ensures bounded { IsBounded region.now form.now result.most }
    ensures positive { pos 0 ≤ℤ result.most }
    ensures within { result.most ≤ℤ pos (2 ^ 53) }
{
    let Some(bound) = upper_bound(region, form) else {
        return Bound {
            most: MOST_DISTANCE,
        };
    };
    within_distances(bound)
}
