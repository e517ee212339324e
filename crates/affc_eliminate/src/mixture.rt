//! The row that cancels a column between two rows.
ghost use Rattle.std.specs.Prelude.{◌≡◌, ℕ, ℤ, ◌^◌, ◌<◌, ◌≤◌, pos, ◌+ℤ◌, ◌*ℤ◌, ◌<ℤ◌, length, IfOk, IfErr, IfSome, IfNone};
ghost use Rattle.std.specs.List.{All};
ghost use Rattle.affc_farkas.specs.Multiples.{entry_of};
ghost use Rattle.affc_farkas.specs.Eliminations.{AreFactors};
ghost use Rattle.affc_eliminate.specs.Mixtures.{PassesSigned, EntryPasses, AreOfOneBase, IsQuotient, IsMixture, IsWide};

use crate::exact::exact_sum;
use crate::kept::Kept;
use crate::weights::{MixFault, least_multipliers};
use affc_farkas::row::entry;
use affc_rows::Form;
use affc_rows::vocabulary::gcd;
use smallvec::SmallVec;
use std::alloc::Global;

/// Two factors.
#[derive(Clone, Copy)]
pub(crate) struct Factors {
    pub(crate) s: u128,
    pub(crate) t: u128,
}

/// The least positive whole factors that make the two numbers one.
fn least_factors(a: u128, b: u128) -> Factors
    requires first { 1 ≤ a }
    requires second { 1 ≤ b }
    ensures factors { AreFactors a b result.s result.t }
    ensures s_positive { 1 ≤ result.s }
    ensures t_positive { 1 ≤ result.t }
{
    let divisor = gcd(a, b);
    Factors {
        s: b / divisor,
        t: a / divisor,
    }
}

/// `s a + t b`, of which this is a divisor, divided by it.
fn quotient(s: u128, a: i128, t: u128, b: i128, divisor: u128) -> Option<i128>
    requires positive { 1 ≤ divisor }
    requires small { divisor < 2 ^ 127 }
    requires divides { (q : ℤ) × (pos divisor *ℤ q ≡ (pos s *ℤ a) +ℤ (pos t *ℤ b)) }
    ensures some { IfSome result (λ z. pos divisor *ℤ z ≡ (pos s *ℤ a) +ℤ (pos t *ℤ b)) }
    ensures none { IfNone result (PassesSigned ((pos s *ℤ a) +ℤ (pos t *ℤ b))) }
{
    let Some(sum) = exact_sum(s, a, t, b) else {
        return None;
    };
    Some(sum / divisor as i128)
}

/// The entry at a place of `s` times a row plus `t` times another, divided by a number that divides it.
fn mixed_at(
    s: u128,
    first: &Form,
    t: u128,
    second: &Form,
    divisor: u128,
    column: usize,
) -> Option<i128>
    requires first_in { column ≤ length first.now.coefs }
    requires second_in { column ≤ length second.now.coefs }
    requires positive { 1 ≤ divisor }
    requires small { divisor < 2 ^ 127 }
    requires divides { (q : ℤ) × (pos divisor *ℤ q ≡ (pos s *ℤ entry_of first.now column) +ℤ (pos t *ℤ entry_of second.now column)) }
    ensures some { IfSome result (λ z. pos divisor *ℤ z ≡ (pos s *ℤ entry_of first.now column) +ℤ (pos t *ℤ entry_of second.now column)) }
    ensures none { IfNone result (PassesSigned ((pos s *ℤ entry_of first.now column) +ℤ (pos t *ℤ entry_of second.now column))) }
{
    let a = entry(first, column);
    let b = entry(second, column);
    quotient(s, a, t, b, divisor)
}

/// `s` times a row plus `t` times another, divided by a number that divides each entry.
fn mixed_row(
    alloc: Global,
    s: u128,
    first: &Form,
    t: u128,
    second: &Form,
    divisor: u128,
) -> Result<Form, MixFault>
    requires widths { length first.now.coefs ≡ length second.now.coefs }
    requires positive { 1 ≤ divisor }
    requires small { divisor < 2 ^ 127 }
    requires divides { (j : ℕ) → j ≤ length first.now.coefs → (q : ℤ) × (pos divisor *ℤ q ≡ (pos s *ℤ entry_of first.now j) +ℤ (pos t *ℤ entry_of second.now j)) }
    ensures ok { IfOk result (λ f. IsQuotient divisor s first.now t second.now f) }
    ensures wide { IfErr result (λ e. e ≡ MixFault.Wide → EntryPasses s first.now t second.now) }
{
    let columns = first.coefs.len();
    let mut coefs = SmallVec::new(alloc);
    for column in 0..columns {
        let Some(part) = mixed_at(s, first, t, second, divisor, column) else {
            return Err(MixFault::Wide);
        };
        let Ok(()) = coefs.push(part) else {
            return Err(MixFault::Memory);
        };
    }
    let Some(constant) = mixed_at(s, first, t, second, divisor, columns) else {
        return Err(MixFault::Wide);
    };
    Ok(Form { coefs, constant })
}

/// The row that cancels the column between a row that is positive there and one that is negative.
pub(crate) fn mixture(
    alloc: Global,
    first: &Kept,
    second: &Kept,
    column: usize,
    number: u32,
) -> Result<Kept, MixFault>
    requires base { AreOfOneBase column first.now second.now }
    requires positive { pos 0 <ℤ entry_of first.now.row column }
    requires negative { entry_of second.now.row column <ℤ pos 0 }
    ensures ok { IfOk result (λ k. IsMixture column first.now second.now k) }
    ensures named { IfOk result (λ k. All (λ p. p.0 < 1024) k.from) }
    ensures number { IfOk result (λ k. k.number ≡ number) }
    ensures wide { IfErr result (λ e. e ≡ MixFault.Wide → IsWide column first.now second.now) }
{
    let a = entry(&first.row, column).unsigned_abs();
    let b = entry(&second.row, column).unsigned_abs();
    let factors = least_factors(a, b);
    let least = match least_multipliers(alloc, factors.s, &first.from, factors.t, &second.from) {
        Ok(least) => least,
        Err(fault) => return Err(fault),
    };
    let row = match mixed_row(
        alloc,
        factors.s,
        &first.row,
        factors.t,
        &second.row,
        least.divisor,
    ) {
        Ok(row) => row,
        Err(fault) => return Err(fault),
    };
    Ok(Kept {
        row,
        from: least.from,
        number,
    })
}
