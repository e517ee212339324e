//! Rows divided by the common divisor of their coefficients, as cuts.
ghost use Rattle.std.specs.Prelude.{◌≡◌, ℤ, ◌+◌, ◌-◌, ◌*◌, ◌<◌, ◌≤◌, ◌*ℤ◌, ◌+ℤ◌, ◌≤ℤ◌, ◌<ℤ◌, ◌∷◌, ◌++◌, [], map, IfOk, IfSome, OnOk, Some, Err};
ghost use Rattle.std.specs.List.{All};
ghost use Rattle.affc_system.specs.Systems.{IsRow};
ghost use Rattle.affc_leaf.specs.Cuts.{IsDivided, IsCutOf, IsCutBefore};

use crate::boxed::push_row;
use affc_farkas::{Multipliers, Proof};
use affc_rows::vocabulary::gcd;
use affc_rows::{Coefs, Form};
use affc_system::System;
use smallvec::SmallVec;
use std::alloc::{AllocError, Global};

/// A row divided by a number, with its constant rounded down, and the number of the row that is divided.
#[derive(Drop)]
pub struct Quotient {
    pub number: usize,
    pub g: i64,
    pub row: Form,
}

/// The common divisor of a row's coefficients, or 0 where nothing is gained by it: it is 1 or divides the constant too.
fn divisor_of(row: &Form) -> i64 {
    let mut common = 0u128;
    for c in row.coefs.as_slice() {
        common = gcd(common, c.unsigned_abs());
        if common == 1 {
            return 0;
        }
    }
    if common == 0 || row.constant.unsigned_abs().checked_rem(common).unwrap_or(0) == 0 {
        return 0;
    }
    i64::try_from(common).unwrap_or(0)
}

/// Whether some row gains by being divided.
pub fn has_cut(system: &System) -> bool {
    system.rows().iter().any(|row| divisor_of(row) > 1)
}

/// The quotient, where it is whole.
fn whole_quotient(c: i128, g: i64) -> Option<i128>
    ensures { IfSome result (λ q. g *ℤ q ≡ c) }
{
    let q = c.checked_div(i128::from(g))?;
    if i128::from(g).checked_mul(q)? == c {
        return Some(q);
    }
    None
}

/// The coefficients divided by a number that divides them all.
fn divided_coefs(alloc: Global, coefs: &[i128], g: i64) -> Result<Option<Coefs>, AllocError>
    ensures { IfOk result (λ o. IfSome o (λ qs. map (λ q. g *ℤ q) qs.items ≡ coefs.now)) }
{
    let mut quotients = SmallVec::new(alloc);
    for c in coefs {
        let Some(q) = whole_quotient(*c, g) else {
            return Ok(None);
        };
        quotients.push(q)?;
    }
    Ok(Some(quotients))
}

/// The constant divided and rounded down.
fn floored(k: i128, g: i64) -> Option<i128>
    ensures low { IfSome result (λ f. (g *ℤ f) ≤ℤ k) }
    ensures high { IfSome result (λ f. k <ℤ ((g *ℤ f) +ℤ g)) }
{
    let floor = k.checked_div_euclid(i128::from(g))?;
    let below = i128::from(g).checked_mul(floor)?;
    let above = below.checked_add(i128::from(g))?;
    if below <= k && k < above {
        return Some(floor);
    }
    None
}

/// A sum divided by a number.
pub(crate) fn divided_sum(
    alloc: Global,
    coefs: &[i128],
    constant: i128,
    g: i64,
) -> Result<Option<Form>, AllocError>
    ensures { IfOk result (λ o. IfSome o (λ f. IsDivided (record { coefs = coefs.now; constant = constant }) g f)) }
{
    if g < 1 {
        return Ok(None);
    }
    let Some(constant) = floored(constant, g) else {
        return Ok(None);
    };
    let Some(coefs) = divided_coefs(alloc, coefs, g)? else {
        return Ok(None);
    };
    Ok(Some(Form { coefs, constant }))
}

/// A row divided by a number.
fn divided(alloc: Global, row: &Form, g: i64) -> Result<Option<Form>, AllocError>
    ensures { IfOk result (λ o. IfSome o (λ f. IsDivided row.now g f)) }
{
    divided_sum(alloc, row.coefs.as_slice(), row.constant, g)
}

/// The first row from a number on, below a count, that gains by being divided.
pub fn next_cut(
    alloc: Global,
    system: &System,
    from: usize,
    count: usize,
) -> Result<Option<Quotient>, AllocError>
    ensures answer { IfOk result (λ o. IfSome o (λ d. IsCutOf system.now d.number d.g d.row)) }
    ensures later { IfOk result (λ o. IfSome o (λ d. from ≤ d.number)) }
    ensures before { IfOk result (λ o. IfSome o (λ d. d.number < count)) }
{
    let _columns = system.columns();
    let rows = system.rows();
    for number in from..count {
        if number >= rows.len() {
            return Ok(None);
        }
        let form: &Form = &rows[number];
        let g = divisor_of(form);
        if g > 1 {
            if let Some(row) = divided(alloc, form, g)? {
                return Ok(Some(Quotient { number, g, row }));
            }
        }
    }
    Ok(None)
}

/// A cut of one row, before the rest of a proof.
pub fn cut_proof(alloc: Global, cut: Quotient, rest: Box<Proof>) -> Result<Box<Proof>, AllocError>
    requires { cut.number < 1024 }
    ensures answer { IfOk result (λ p. IsCutBefore ((cut.number, 1) ∷ []) cut.g cut.row rest.value p.value) }
{
    let Quotient { number, g, row } = cut;
    let mut by = Multipliers::new(alloc);
    let Ok(()) = by.push(number as u32, 1) else {
        return Err(AllocError);
    };
    let Ok(proof) = Box::new(alloc, Proof::Cut { by, g, row, rest }) else {
        return Err(AllocError);
    };
    Ok(proof)
}

/// Adds a divided row to the system.
pub fn push_cut(system: &mut System, cut: &Quotient) -> Result<(), AllocError>
    requires { IsCutOf system.old cut.now.number cut.now.g cut.now.row }
    ensures value { OnOk result (system.new ≡ record system.old { rows = system.old.rows ++ cut.now.row ∷ [] }) }
    ensures fits { OnOk result (IsRow system.old.columns cut.now.row) }
    ensures rows { OnOk result (All (IsRow system.old.columns) system.old.rows) }
{
    let _columns = system.columns();
    let _rows = system.rows();
    let row = cut.row.clone()?;
    push_row(system, row)
}
