//! Whether one row says all that another says, where the coefficients of the two differ by a positive factor.
ghost use Rattle.std.specs.Prelude.{◌≡◌, ◌<◌, ℕ, pos, ◌*ℤ◌, ◌≤ℤ◌, length, slice_index_or, IfSome, IsTrue};
ghost use Rattle.affc_eliminate.specs.Points.{Implies};

use affc_rows::Form;

/// The product, where it is known: most factors are small, and need no test of the product.
fn product(a: i128, m: i128) -> Option<i128>
    ensures { IfSome result (λ p. p ≡ a *ℤ m) }
{
    match (i64::try_from(a), i64::try_from(m)) {
        (Ok(a), Ok(m)) => Some(i128::from(a) * i128::from(m)),
        _ => a.checked_mul(m),
    }
}

/// Whether the lists are equally long, and their entries have the same signs.
fn same_signs(first: &[i128], second: &[i128]) -> bool
    ensures { IsTrue result → length first.now ≡ length second.now }
{
    if first.len() != second.len() {
        return false;
    }
    for (j, entry) in first.iter().enumerate() {
        if entry.signum() != second[j].signum() {
            return false;
        }
    }
    true
}

/// Two positive factors.
#[derive(Clone, Copy)]
struct Factors {
    m: i128,
    n: i128,
}

/// Positive factors that make two entries of one sign equal.
fn factors_of(a: i128, b: i128) -> Factors
    ensures first { pos 1 ≤ℤ result.m }
    ensures second { pos 1 ≤ℤ result.n }
{
    if a > 0 && b > 0 {
        Factors { m: b, n: a }
    } else if a < 0 && b < 0 && a > i128::MIN && b > i128::MIN {
        Factors { m: -b, n: -a }
    } else {
        Factors { m: 1, n: 1 }
    }
}

/// Positive factors that make the first entries equal that aren't 0.
fn first_factors(first: &[i128], second: &[i128]) -> Factors
    requires { length first.now ≡ length second.now }
    ensures first { pos 1 ≤ℤ result.m }
    ensures second { pos 1 ≤ℤ result.n }
{
    for (j, entry) in first.iter().enumerate() {
        if *entry != 0 {
            return factors_of(*entry, second[j]);
        }
    }
    factors_of(1, 1)
}

/// Whether `m` times each entry of the first list is seen to be `n` times that of the second.
fn is_parallel(first: &[i128], m: i128, second: &[i128], n: i128) -> bool
    requires { length first.now ≡ length second.now }
    ensures { IsTrue result → ((j : ℕ) → j < length first.now → slice_index_or first.now j (pos 0) *ℤ m ≡ slice_index_or second.now j (pos 0) *ℤ n) }
{
    for (j, entry) in first.iter().enumerate() {
        let (Some(left), Some(right)) = (product(*entry, m), product(second[j], n)) else {
            return false;
        };
        if left != right {
            return false;
        }
    }
    true
}

/// Whether `m` times the first number is seen to be at most `n` times the second.
fn is_at_most(first: i128, m: i128, second: i128, n: i128) -> bool
    ensures { IsTrue result → (first *ℤ m) ≤ℤ (second *ℤ n) }
{
    let (Some(left), Some(right)) = (product(first, m), product(second, n)) else {
        return false;
    };
    left <= right
}

/// Whether the coefficients differ by a positive factor, and the kept row's constant, times that, is at most the other's.
pub(crate) fn same_direction(kept: &Form, other: &Form) -> bool
    ensures { IsTrue result → Implies kept.now other.now }
{
    let coefs = kept.coefs.as_slice();
    let others = other.coefs.as_slice();
    if !same_signs(coefs, others) {
        return false;
    }
    let Factors { m, n } = first_factors(coefs, others);
    if !is_parallel(coefs, m, others, n) {
        return false;
    }
    is_at_most(kept.constant, m, other.constant, n)
}
