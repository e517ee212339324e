//! Leaves: rows whose sum is below 0 in a whole box.
ghost use Rattle.std.specs.Prelude.{◌≡◌, ℕ, ℤ, List, ◌+◌, ◌*◌, ◌^◌, ◌<◌, ◌≤◌, ◌+ℤ◌, ◌*ℤ◌, ◌<ℤ◌, ◌∷◌, ◌++◌, [], pos, replicate, unsigned_abs, IfOk, IfSome, IfNone, IsTrue, ◌↔◌, OnOk, Err, length};
ghost use Rattle.std.specs.Bool.{OnTrue};
ghost use Rattle.std.specs.List.{All};
ghost use Rattle.affc_rows.specs.Forms.{mixed};
ghost use Rattle.affc_farkas.specs.Multiples.{row_at, multiple_sum, AreMultipliers};
ghost use Rattle.affc_leaf.specs.Boxed.{IsLeafProof};
ghost use Rattle.affc_leaf.specs.Bounds.{IsBound, FitsSum, top_value};
ghost use Rattle.affc_leaf.specs.Leaves.{corner_row, corner_rows, SameSum, IsLeafBy};
ghost use Rattle.affc_leaf.specs.Parts.{IsEmpty, IsLeast};

use crate::firsts::least_point;
use crate::tops::top_products;
use affc_farkas::{Multipliers, Proof};
use affc_rows::Form;
use affc_simplex::pairs::put_pair;
use affc_simplex::simplex::{Outcome, Wanted, look_at};
use affc_simplex::{Bound, Least, Vertex};
use affc_system::System;
use std::alloc::{AllocError, Global};

/// The bound that makes a product greatest, as often as the coefficient says.
fn corner(c: i128, bound: Bound) -> Option<(u32, u64)>
    requires { unsigned_abs c ≤ 2 ^ 53 }
    ensures some { IfSome result (λ p. corner_row c bound ≡ p ∷ []) }
    ensures none { IfNone result (corner_row c bound ≡ []) }
{
    if c == 0 {
        return None;
    }
    let times = c.unsigned_abs() as u64;
    if c > 0 {
        Some((bound.high_row, times))
    } else {
        Some((bound.low_row, times))
    }
}

/// Puts in the bound that makes a product greatest.
fn put_corner(pairs: &mut Vec<(u32, u64)>, c: i128, bound: Bound) -> Result<(), AllocError>
    requires { unsigned_abs c ≤ 2 ^ 53 }
    ensures { OnOk result ((rest : List (ℕ × ℕ)) → SameSum (pairs.new.items ++ rest) (pairs.old.items ++ (corner_row c bound ++ rest))) }
{
    let Some((row, times)) = corner(c, bound) else {
        return Ok(());
    };
    put_pair(pairs, row, times)
}

/// Puts in the bounds that make a sum of rows greatest, in the order of their numbers.
pub(crate) fn put_corners(
    pairs: &mut Vec<(u32, u64)>,
    coefs: &[i128],
    bounds: &[Bound],
) -> Result<(), AllocError>
    requires width { length coefs.now ≡ length bounds.now }
    requires small { All (λ c. unsigned_abs c ≤ 2 ^ 53) coefs.now }
    ensures { OnOk result (SameSum pairs.new.items (pairs.old.items ++ corner_rows coefs.now bounds.now)) }
{
    for (i, c) in coefs.iter().enumerate() {
        put_corner(pairs, *c, bounds[i])?;
    }
    Ok(())
}

/// The leaf of these rows, with the bounds that make their sum greatest. `None` where the multipliers break a rule.
pub(crate) fn leaf_with(
    alloc: Global,
    by: Vec<(u32, u64)>,
    coefs: &[i128],
    bounds: &[Bound],
) -> Result<Option<Box<Proof>>, AllocError>
    requires width { length coefs.now ≡ length bounds.now }
    requires small { All (λ c. unsigned_abs c ≤ 2 ^ 53) coefs.now }
    ensures leaf { IfOk result (λ o. IfSome o (λ p. IsLeafProof p.value)) }
    ensures multipliers { IfOk result (λ o. IfSome o (λ p. IsLeafBy (λ m. SameSum m (by.items ++ corner_rows coefs.now bounds.now) × AreMultipliers m) p.value)) }
{
    let mut pairs = by;
    put_corners(&mut pairs, coefs, bounds)?;
    let Some(made) = Multipliers::from_pairs(pairs) else {
        return Ok(None);
    };
    let Ok(leaf) = Box::new(alloc, Proof::Leaf(made)) else {
        return Err(AllocError);
    };
    Ok(Some(leaf))
}

/// A leaf for a row that is below 0 in the whole box.
#[inline(never)]
pub fn row_leaf(
    alloc: Global,
    system: &System,
    bounds: &[Bound],
    row: usize,
    next: u32,
) -> Result<Box<Proof>, AllocError>
    requires width { length bounds.now ≡ system.now.columns }
    requires ranges { All IsBound bounds.now }
    requires there { row < length system.now.rows }
    requires below { top_value (row_at system.now.columns system.now.rows row) bounds.now <ℤ pos 0 }
    ensures answer { IfOk result (λ p. IsEmpty system.now bounds.now next p.value) }
    ensures leaf { IfOk result (λ p. IsLeafProof p.value) }
{
    let _columns = system.columns();
    let rows = system.rows();
    let form: &Form = &rows[row];
    let mut by = Vec::with_capacity(alloc, bounds.len() + 1)?;
    by.push((row as u32, 1))?;
    match leaf_with(alloc, by, form.coefs.as_slice(), bounds)? {
        Some(leaf) => Ok(leaf),
        None => Err(AllocError),
    }
}

/// A number with a multiple of another one added, where it fits.
pub(crate) fn added(sum: i128, times: i128, number: i128) -> Option<i128>
    ensures { IfSome result (λ k. k ≡ (times *ℤ number) +ℤ (pos 1 *ℤ sum)) }
{
    if number == 0 {
        return Some(sum);
    }
    let product = number.checked_mul(times)?;
    product.checked_add(sum)
}

/// Adds a multiple of a row to a sum, in place. Answers whether all numbers fit.
pub(crate) fn add_multiple(sum: &mut [i128], times: i128, row: &[i128]) -> bool
    requires { length row.now ≡ length sum.old }
    ensures { OnTrue result (sum.new ≡ mixed times row.now (pos 1) sum.old) }
{
    for (i, c) in row.iter().enumerate() {
        let Some(next) = added(sum[i], times, *c) else {
            return false;
        };
        sum[i] = next;
    }
    true
}

/// Sums these multiples of rows onto zeros, and answers the sum's constant. `None` where a row isn't there or a number is too great.
pub(crate) fn sum_rows(system: &System, by: &[(u32, u64)], sum: &mut [i128]) -> Option<i128>
    requires { sum.old ≡ replicate system.now.columns (pos 0) }
    ensures sum { IfSome result (λ k. record { coefs = sum.new; constant = k } ≡ multiple_sum system.now.columns system.now.rows by.now) }
    ensures there { IfSome result (λ k. All (λ p. p.0 < length system.now.rows) by.now) }
{
    let rows = system.rows();
    let mut constant = 0i128;
    let mut left = by.len();
    while left > 0 {
        left -= 1;
        let (row, times) = by[left];
        if row as usize >= rows.len() {
            return None;
        }
        let form: &Form = &rows[row as usize];
        if !add_multiple(sum, i128::from(times), form.coefs.as_slice()) {
            return None;
        }
        constant = added(constant, i128::from(times), form.constant)?;
    }
    Some(constant)
}

/// Whether a sum keeps the limits under which bounds can cancel it.
pub(crate) fn fits_sum(coefs: &[i128], constant: i128) -> bool
    ensures { IsTrue result ↔ FitsSum (record { coefs = coefs.now; constant = constant }) }
{
    constant.unsigned_abs() <= 1 << 126 && coefs.iter().all(|c| c.unsigned_abs() <= 1 << 53)
}

/// Whether a sum is below 0 in the whole box.
pub(crate) fn is_below_zero(coefs: &[i128], constant: i128, bounds: &[Bound]) -> bool
    requires few { length bounds.now ≤ 128 }
    requires ranges { All IsBound bounds.now }
    ensures width { OnTrue result (length coefs.now ≡ length bounds.now) }
    ensures fits { OnTrue result (FitsSum (record { coefs = coefs.now; constant = constant })) }
    ensures below { OnTrue result (top_value (record { coefs = coefs.now; constant = constant }) bounds.now <ℤ pos 0) }
{
    if coefs.len() != bounds.len() || !fits_sum(coefs, constant) {
        return false;
    }
    top_products(coefs, bounds) + constant < 0
}

/// A leaf of these multiples of rows, where their sum is below 0 in the whole box.
#[inline(never)]
pub(crate) fn sum_leaf(
    alloc: Global,
    system: &System,
    bounds: &[Bound],
    by: Vec<(u32, u64)>,
    next: u32,
) -> Result<Option<Box<Proof>>, AllocError>
    requires width { length bounds.now ≡ system.now.columns }
    requires ranges { All IsBound bounds.now }
    ensures answer { IfOk result (λ o. IfSome o (λ p. IsEmpty system.now bounds.now next p.value)) }
    ensures leaf { IfOk result (λ o. IfSome o (λ p. IsLeafProof p.value)) }
{
    let columns = system.columns() as usize;
    let _rows = system.rows();
    let mut zeros = vec![in alloc; 0i128; columns]?;
    let sum = zeros.as_mut_slice();
    let Some(constant) = sum_rows(system, by.as_slice(), sum) else {
        return Ok(None);
    };
    if !is_below_zero(sum, constant, bounds) {
        return Ok(None);
    }
    leaf_with(alloc, by, sum, bounds)
}

/// What a look at a box finds: a leaf, or else a rational point of it if one is found, of which nothing is promised, and the least
/// whole point if it is.
#[derive(Drop)]
pub struct Sight {
    pub leaf: Option<Box<Proof>>,
    pub vertex: Option<Vertex>,
    pub least: Option<Vec<i64>>,
}

/// The least point, where one is given and it is shown to be that.
fn shown_least(
    alloc: Global,
    system: &System,
    bounds: &[Bound],
    least: Option<Least>,
) -> Result<Option<Vec<i64>>, AllocError>
    requires width { length bounds.now ≡ system.now.columns }
    requires ranges { All IsBound bounds.now }
    ensures { IfOk result (λ o. IfSome o (λ x. IsLeast system.now bounds.now x.items)) }
{
    match least {
        Some(least) => least_point(alloc, system, bounds, &least),
        None => Ok(None),
    }
}

/// A leaf, where some rows are found whose sum is below 0 in the whole box, or the least point, where such sums show it.
#[inline(never)]
pub fn found_leaf(
    alloc: Global,
    system: &System,
    bounds: &[Bound],
    next: u32,
) -> Result<Sight, AllocError>
    requires width { length bounds.now ≡ system.now.columns }
    requires ranges { All IsBound bounds.now }
    ensures answer { IfOk result (λ s. IfSome s.leaf (λ p. IsEmpty system.now bounds.now next p.value)) }
    ensures leaf { IfOk result (λ s. IfSome s.leaf (λ p. IsLeafProof p.value)) }
    ensures least { IfOk result (λ s. IfSome s.least (λ x. IsLeast system.now bounds.now x.items)) }
{
    match look_at(alloc, system, bounds, Wanted::LeastPoint)? {
        Outcome::Sum(by) => {
            let leaf = sum_leaf(alloc, system, bounds, by, next)?;
            Ok(Sight {
                leaf,
                vertex: None,
                least: None,
            })
        }
        Outcome::Vertex(vertex, least) => {
            let least = shown_least(alloc, system, bounds, least)?;
            Ok(Sight {
                leaf: None,
                vertex: Some(vertex),
                least,
            })
        }
        Outcome::Nothing | Outcome::TooGreat => Ok(Sight {
            leaf: None,
            vertex: None,
            least: None,
        }),
    }
}
