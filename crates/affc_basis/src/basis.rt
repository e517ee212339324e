//! Bases: square lists of forms with their inverse.
ghost use Rattle.std.specs.Prelude.{◌≡◌, ◌<◌, ◌≤◌, ◌↔◌, IsTrue, IfOk, IfErr, IfSome, IfNone, [], ◌∷◌, length, pos};
ghost use Rattle.std.specs.List.{All};
ghost use Rattle.affc_rows.specs.Forms.{dot, HaveColumns, columns_of, composed_form};
ghost use Rattle.affc_trace.specs.Inverses.{column};
ghost use Rattle.affc_basis.specs.Bases.{IsSquare, AreWithin, HaveCoefsWithin, IsComponent, AreComponents, IsFirstBroken, entry_of, entries_of, HaveColumn, identity_entry};

use crate::wide::Wide;
use affc_rows::Form;
use sqlite_items::Items;
use thiserror::Error;

/// The rows of a basis, over an array's dimensions, and the inverse forms over the rows' values.
#[derive(Drop)]
pub struct Basis {
    pub rows: Items<Form>,
    pub inverse: Items<Form>,
    ghost square: { IsSquare rows inverse },
    ghost row_bounds: { HaveCoefsWithin 256 rows },
    ghost inverse_bounds: { HaveCoefsWithin 256 inverse },
    ghost identity: { AreComponents rows inverse },
}

/// The first component at which rows and inverse forms don't multiply to the identity.
#[derive(Debug, Clone, Copy, PartialEq, Eq, Error)]
#[error("the inverse of the basis fails at component {component}")]
pub struct NotInverse {
    pub component: u32,
}

/// The coefficient of a column, or the constant.
fn entry(form: &Form, column: Option<usize>) -> i128
    requires { HaveColumn column (form.now ∷ []) }
    ensures { result ≡ entry_of column form.now }
{
    match column {
        Some(j) => form.coefs.as_slice()[j],
        None => form.constant,
    }
}

/// Whether a row of coefficients times the forms' entries in a column is 1 (`one`) or 0 (otherwise).
fn sums_to(coefs: &[i128], forms: &[Form], column: Option<usize>, one: bool) -> bool
    requires one_each { length coefs.now ≡ length forms.now }
    requires few { length coefs.now ≤ 4 }
    requires bounded { AreWithin 256 coefs.now }
    requires within { HaveColumn column forms.now }
    ensures { IsTrue result ↔ (dot coefs.now (entries_of column forms.now) ≡ identity_entry one) }
{
    let mut sum = Wide::less(one);
    for (i, c) in coefs.iter().enumerate() {
        sum = sum.plus(*c, entry(&forms[i], column));
    }
    sum.is_zero()
}

/// Whether a form without a constant, with the rows put in, is column `k`.
fn gives_column(form: &Form, rows: &[Form], k: usize) -> bool
    requires one_each { length form.now.coefs ≡ length rows.now }
    requires few { length rows.now ≤ 4 }
    requires bounded { AreWithin 256 form.now.coefs }
    requires square { HaveColumns (length rows.now) rows.now }
    requires no_constant { form.now.constant ≡ pos 0 }
    ensures { IsTrue result ↔ (composed_form form.now rows.now ≡ column (columns_of rows.now) k) }
{
    let coefs = form.coefs.as_slice();
    if !sums_to(coefs, rows, None, false) {
        return false;
    }
    for j in 0..rows.len() {
        if !sums_to(coefs, rows, Some(j), j == k) {
            return false;
        }
    }
    true
}

/// Whether rows and inverse forms multiply to the identity at component `k`.
fn is_component(rows: &[Form], inverse: &[Form], k: usize) -> bool
    requires square { IsSquare rows.now inverse.now }
    requires bounded { HaveCoefsWithin 256 inverse.now }
    requires within { k < length rows.now }
    ensures { IsTrue result ↔ IsComponent rows.now inverse.now k }
{
    let row = &rows[k];
    let back = &inverse[k];
    row.constant == 0 && back.constant == 0 && gives_column(back, rows, k)
}

/// The first component at which rows and inverse forms don't multiply to the identity.
fn first_broken(rows: &[Form], inverse: &[Form]) -> Option<u32>
    requires square { IsSquare rows.now inverse.now }
    requires bounded { HaveCoefsWithin 256 inverse.now }
    ensures none { IfNone result (AreComponents rows.now inverse.now) }
    ensures first { IfSome result (λ k. IsFirstBroken rows.now inverse.now k) }
{
    for k in 0..rows.len() {
        if !is_component(rows, inverse, k) {
            return Some(k as u32);
        }
    }
    None
}

/// The basis of these rows, where the inverse forms undo them: no row and no inverse form has a constant, and
/// each inverse form, with the rows put in, is its column. Otherwise the first component at which that fails.
pub fn given(rows: Items<Form>, inverse: Items<Form>) -> Result<Basis, NotInverse>
    requires square { IsSquare rows inverse }
    requires row_bounds { HaveCoefsWithin 256 rows }
    requires inverse_bounds { HaveCoefsWithin 256 inverse }
    ensures rows { IfOk result (λ b. b.rows ≡ rows) }
    ensures inverse { IfOk result (λ b. b.inverse ≡ inverse) }
    ensures broken { IfErr result (λ e. IsFirstBroken rows inverse e.component) }
{
    match first_broken(rows.as_slice(), inverse.as_slice()) {
        Some(component) => Err(NotInverse { component }),
        None => Ok(Basis { rows, inverse }),
    }
}
