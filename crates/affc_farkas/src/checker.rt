//! The checker of proofs, which takes no memory.
ghost use Rattle.std.specs.Prelude.{◌≡◌, ℕ, ◌+◌, ◌-◌, ◌*◌, ◌^◌, ◌<◌, ◌≤◌, ◌↔◌, ◌++◌, ◌∷◌, [], min, unsigned_abs, IfOk, IfErr, IfSome, IfNone, ◌≤ℤ◌, ◌<ℤ◌, ◌-ℤ◌, OnOk, OnErr, IsTrue, length, if◌then◌else◌, neg_ℤ, false, pos, ◌+ℤ◌, ◌*ℤ◌};
ghost use Rattle.std.specs.List.{All};
ghost use Rattle.affc_farkas.specs.Multiples.{entry_of, row_at, multiple_sum, AreMultipliers};
ghost use Rattle.affc_farkas.specs.Chain.{frame_row, rows_of, IsChain};
ghost use Rattle.affc_system.specs.Systems.{IsRow, HasNoPoint};
ghost use Rattle.affc_farkas.specs.Proofs.{IsLeaf, IsCut, low_row, high_row, IsValid, ValidProof};

use crate::chain::{Added, count, entry_at, multiple, small_entry, with_cut, with_high, with_low};
use crate::proof::Proof;
use affc_rows::Form;
use affc_system::{System, fits_row};

const MOST_COEFFICIENT: u128 = 1 << 40;

const MOST_CONSTANT: u128 = 1 << 60;

const FAR: u128 = 1 << 64;

/// The entry of the sum of these multiples at a place.
fn sum_at(by: &[(u32, u64)], added: &Added, system: &System, column: usize) -> i128
    requires chain { IsChain system.now.columns system.now.rows added.now }
    requires fit { All (IsRow system.now.columns) (rows_of system.now.rows added.now) }
    requires multipliers { AreMultipliers by.now }
    requires there { All (λ p. p.0 < length (rows_of system.now.rows added.now)) by.now }
    requires column_in { column ≤ system.now.columns }
    ensures value { result ≡ entry_of (multiple_sum system.now.columns (rows_of system.now.rows added.now) by.now) column }
    ensures small { unsigned_abs result ≤ 2 ^ 123 }
{
    let mut sum = 0i128;
    for (i, pair) in by.iter().enumerate() {
        let part = multiple(pair.1, entry_at(added, system, pair.0, column));
        sum += part;
    }
    sum
}

/// Whether each row number is there.
fn all_there(by: &[(u32, u64)], added: &Added, system: &System) -> bool
    requires { IsChain system.now.columns system.now.rows added.now }
    ensures { IsTrue result ↔ All (λ p. p.0 < length (rows_of system.now.rows added.now)) by.now }
{
    let rows = count(added, system);
    by.iter().all(|pair| u64::from(pair.0) < rows)
}

/// Whether the sum of these multiples has all coefficients 0.
fn cancels(by: &[(u32, u64)], added: &Added, system: &System) -> bool
    requires chain { IsChain system.now.columns system.now.rows added.now }
    requires fit { All (IsRow system.now.columns) (rows_of system.now.rows added.now) }
    requires multipliers { AreMultipliers by.now }
    requires there { All (λ p. p.0 < length (rows_of system.now.rows added.now)) by.now }
    ensures { IsTrue result ↔ ((j : ℕ) → j < system.now.columns → entry_of (multiple_sum system.now.columns (rows_of system.now.rows added.now) by.now) j ≡ pos 0) }
{
    for column in 0..system.columns() {
        if sum_at(by, added, system, column as usize) != 0 {
            return false;
        }
    }
    true
}

/// `g` times an entry.
fn times(g: i64, entry: i128) -> i128
    requires { unsigned_abs entry ≤ 2 ^ 60 }
    ensures value { result ≡ g *ℤ entry }
    ensures small { unsigned_abs result ≤ 2 ^ 123 }
{
    i128::from(g) * entry
}

/// Whether each coefficient of the sum of these multiples is `g` times that of the row.
fn divides(by: &[(u32, u64)], g: i64, row: &Form, added: &Added, system: &System) -> bool
    requires chain { IsChain system.now.columns system.now.rows added.now }
    requires fit { All (IsRow system.now.columns) (rows_of system.now.rows added.now) }
    requires multipliers { AreMultipliers by.now }
    requires there { All (λ p. p.0 < length (rows_of system.now.rows added.now)) by.now }
    requires row { IsRow system.now.columns row.now }
    ensures { IsTrue result ↔ ((j : ℕ) → j < system.now.columns → entry_of (multiple_sum system.now.columns (rows_of system.now.rows added.now) by.now) j ≡ g *ℤ entry_of row.now j) }
{
    for column in 0..system.columns() {
        let part = times(g, small_entry(row, column as usize));
        if sum_at(by, added, system, column as usize) != part {
            return false;
        }
    }
    true
}

/// Whether each coefficient keeps its limit.
fn coefs_fit(coefs: &[i128]) -> bool
    ensures { IsTrue result ↔ All (λ c. unsigned_abs c ≤ 2 ^ 40) coefs.now }
{
    coefs.iter().all(|c| c.unsigned_abs() <= MOST_COEFFICIENT)
}

/// Whether a form with this constant has the system's columns and keeps the limits.
fn frame_fits(form: &Form, constant: i128, system: &System) -> bool
    ensures { IsTrue result ↔ IsRow system.now.columns (frame_row form.now false constant) }
{
    if form.coefs.len() != system.columns() as usize {
        return false;
    }
    if constant.unsigned_abs() > MOST_CONSTANT {
        return false;
    }
    coefs_fit(form.coefs.as_slice())
}

/// The constant of the sum of these multiples.
#[tactic(auto, using(crate::proofs::Entries::sum_constant))]
fn constant_at(by: &[(u32, u64)], added: &Added, system: &System) -> i128
    requires chain { IsChain system.now.columns system.now.rows added.now }
    requires fit { All (IsRow system.now.columns) (rows_of system.now.rows added.now) }
    requires multipliers { AreMultipliers by.now }
    requires there { All (λ p. p.0 < length (rows_of system.now.rows added.now)) by.now }
    ensures value { result ≡ (multiple_sum system.now.columns (rows_of system.now.rows added.now) by.now).constant }
    ensures small { unsigned_abs result ≤ 2 ^ 123 }
{
    sum_at(by, added, system, system.columns() as usize)
}

/// Whether these multiples make a leaf.
fn is_leaf(pairs: &[(u32, u64)], added: &Added, system: &System) -> bool
    requires chain { IsChain system.now.columns system.now.rows added.now }
    requires fit { All (IsRow system.now.columns) (rows_of system.now.rows added.now) }
    requires multipliers { AreMultipliers pairs.now }
    ensures { IsTrue result ↔ IsLeaf system.now.columns (rows_of system.now.rows added.now) pairs.now }
{
    if !all_there(pairs, added, system) {
        return false;
    }
    if !cancels(pairs, added, system) {
        return false;
    }
    constant_at(pairs, added, system) < 0
}

/// Whether a row has the system's columns and keeps the limits.
fn row_fits(row: &Form, system: &System) -> bool
    ensures { IsTrue result ↔ IsRow system.now.columns row.now }
{
    row.coefs.len() == system.columns() as usize && fits_row(row)
}

/// Whether `g` times the row's constant is the last multiple of `g` up to the sum.
fn is_floor(g: i64, row: &Form, sum: i128, system: &System) -> bool
    requires row { IsRow system.now.columns row.now }
    requires small { unsigned_abs sum ≤ 2 ^ 123 }
    ensures { IsTrue result ↔ (((g *ℤ row.now.constant) ≤ℤ sum) × (sum <ℤ ((g *ℤ row.now.constant) +ℤ g))) }
{
    let low = times(g, row.constant);
    low <= sum && sum < low + i128::from(g)
}

/// Whether these multiples and this row make a cut.
fn is_cut(pairs: &[(u32, u64)], g: i64, row: &Form, added: &Added, system: &System) -> bool
    requires chain { IsChain system.now.columns system.now.rows added.now }
    requires fit { All (IsRow system.now.columns) (rows_of system.now.rows added.now) }
    requires multipliers { AreMultipliers pairs.now }
    ensures { IsTrue result ↔ IsCut system.now.columns (rows_of system.now.rows added.now) pairs.now g row.now }
{
    if g < 1 {
        return false;
    }
    if !row_fits(row, system) {
        return false;
    }
    if !all_there(pairs, added, system) {
        return false;
    }
    if !divides(pairs, g, row, added, system) {
        return false;
    }
    is_floor(g, row, constant_at(pairs, added, system), system)
}

/// A number less a constant.
fn difference(a: i128, b: i128) -> i128
    requires first { unsigned_abs a ≤ 2 ^ 66 }
    requires second { unsigned_abs b ≤ 2 ^ 65 }
    ensures value { result ≡ a -ℤ b }
    ensures small { unsigned_abs result ≤ unsigned_abs a + unsigned_abs b }
{
    a - b
}

/// Whether the row `at - form` keeps the limits.
fn low_fits(form: &Form, at: i64, below: i128, system: &System) -> bool
    requires { below ≡ at -ℤ form.now.constant }
    ensures { IsTrue result ↔ IsRow system.now.columns (low_row form.now at) }
{
    frame_fits(form, below, system)
}

/// Whether the row `form - at - 1` keeps the limits.
fn high_fits(form: &Form, at: i64, above: i128, system: &System) -> bool
    requires { above ≡ (form.now.constant -ℤ at) -ℤ pos 1 }
    ensures { IsTrue result ↔ IsRow system.now.columns (high_row form.now at) }
{
    frame_fits(form, above, system)
}

/// The constants of a split's two rows, where both keep the limits.
fn split_constants(form: &Form, at: i64, system: &System) -> Option<(i128, i128)>
    ensures low { IfSome result (λ k. k.0 ≡ at -ℤ form.now.constant) }
    ensures high { IfSome result (λ k. k.1 ≡ (form.now.constant -ℤ at) -ℤ pos 1) }
    ensures low_row { IfSome result (λ _. IsRow system.now.columns (low_row form.now at)) }
    ensures high_row { IfSome result (λ _. IsRow system.now.columns (high_row form.now at)) }
    ensures none { IfNone result (IsRow system.now.columns (low_row form.now at) → IsRow system.now.columns (high_row form.now at) → ⊥) }
{
    if form.constant.unsigned_abs() > FAR {
        return None;
    }
    let below = difference(i128::from(at), form.constant);
    if !low_fits(form, at, below, system) {
        return None;
    }
    let above = difference(difference(form.constant, i128::from(at)), 1);
    if !high_fits(form, at, above, system) {
        return None;
    }
    Some((below, above))
}

/// Whether the proof is valid below these rows.
fn check_from(proof: &Proof, added: &Added, system: &System) -> bool
    requires chain { IsChain system.now.columns system.now.rows added.now }
    requires fit { All (IsRow system.now.columns) (rows_of system.now.rows added.now) }
    ensures { IsTrue result ↔ IsValid system.now.columns proof.now (rows_of system.now.rows added.now) }
{
    match proof {
        Proof::Leaf(by) => is_leaf(by.pairs(), added, system),
        Proof::Cut { by, g, row, rest } => {
            if !is_cut(by.pairs(), *g, row, added, system) {
                return false;
            }
            let next = with_cut(&*row, &*added, system);
            check_from(rest, &next, system)
        }
        Proof::Split {
            form,
            at,
            low,
            high,
        } => {
            let Some((below, above)) = split_constants(form, *at, system) else {
                return false;
            };
            let under = with_low(&*form, *at, below, &*added, system);
            if !check_from(low, &under, system) {
                return false;
            }
            let over = with_high(&*form, *at, above, &*added, system);
            check_from(high, &over, system)
        }
    }
}

/// Whether the proof is valid: then the system has no integer point.
///
/// It takes no memory, but its stack goes as deep as the proof, some 400 bytes a level. Of a proof that comes from outside ask
/// `depth_at_most` first.
pub fn check(system: &System, proof: &Proof) -> bool
    ensures exact { IsTrue result ↔ ValidProof system.now proof.now }
    ensures sound { IsTrue result → HasNoPoint system.now }
{
    let _rows = system.rows();
    check_from(proof, &Added::Nothing, system)
}
