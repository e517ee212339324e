//! Rows of which none is implied by another, as far as a screen says.
ghost use Rattle.std.specs.Prelude.{◌≡◌, ◌↔◌, ℕ, false, length, IfOk, IsTrue};
ghost use Rattle.std.specs.List.{All, Contains};
ghost use Rattle.affc_eliminate.specs.Points.{IsTrivial, Implies};
ghost use Rattle.affc_eliminate.specs.Sieves.{AreSieved, AreAdmitted};

use crate::kept::Kept;
use crate::screen::{Screen, Test};
use affc_rows::Form;
use std::alloc::{AllocError, Global};

/// Whether all coefficients are 0, and the constant is at least 0.
fn is_trivial(row: &Form) -> bool
    ensures { IsTrue result ↔ IsTrivial row.now }
{
    row.constant >= 0 && row.coefs.as_slice().iter().all(|c| *c == 0)
}

/// Whether one of the rows implies this one.
fn is_implied<F: Test>(others: &[Kept], row: &Form, screen: &Screen<F>) -> bool
    requires { All (λ k. length k.row.coefs ≡ length row.now.coefs) others.now }
    ensures implied { IsTrue result → (k : _) × Contains others.now k × Implies k.row row.now }
    ensures answered { result ≡ false → All (λ k. F.answers screen.now.test k.row row.now false) others.now }
{
    for other in others {
        if screen.implies(&other.row, row) {
            return true;
        }
    }
    false
}

/// Whether the row implies none of these.
fn implies_none<F: Test>(others: &[Kept], row: &Form, screen: &Screen<F>) -> bool
    requires { All (λ k. length row.now.coefs ≡ length k.row.coefs) others.now }
    ensures { IsTrue result → All (λ k. F.answers screen.now.test row.now k.row false) others.now }
{
    for other in others {
        if screen.implies(row, &other.row) {
            return false;
        }
    }
    true
}

/// The rows that this one doesn't imply: mostly all of them, which then aren't moved.
fn without_implied<F: Test>(
    alloc: Global,
    others: Vec<Kept>,
    row: &Form,
    screen: &Screen<F>,
) -> Result<Vec<Kept>, AllocError>
    requires { All (λ k. length row.now.coefs ≡ length k.row.coefs) others.items }
    ensures { IfOk result (λ left. AreSieved (F.answers screen.now.test) others.items row.now left.items) }
{
    if implies_none(others.as_slice(), row, screen) {
        return Ok(others);
    }
    let mut left = Vec::new(alloc);
    for other in others {
        if !screen.implies(row, &other.row) {
            left.push(other)?;
        }
    }
    Ok(left)
}

/// The rows with this one, unless it is implied; those that it implies are left out.
pub(crate) fn admit<F: Test>(
    alloc: Global,
    others: Vec<Kept>,
    kept: Kept,
    screen: &Screen<F>,
) -> Result<Vec<Kept>, AllocError>
    requires { All (λ k. length k.row.coefs ≡ length kept.row.coefs) others.items }
    ensures { IfOk result (λ new. AreAdmitted (F.answers screen.now.test) others.items kept new.items) }
{
    if is_trivial(&kept.row) || is_implied(others.as_slice(), &kept.row, screen) {
        return Ok(others);
    }
    let mut left = without_implied(alloc, others, &kept.row, screen)?;
    left.push(kept)?;
    Ok(left)
}
