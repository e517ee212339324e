//! Folds: a basis with a modulus for each row.
ghost use Rattle.std.specs.Prelude.{◌≡◌, ◌*◌, ◌*ℤ◌, ◌≤ℤ◌, ◌^◌, ◌<◌, ◌≤◌, length, slice_get, Some, unsigned_abs, pos};
ghost use Rattle.std.specs.Int.{int_rem_euclid};
ghost use Rattle.affc_rows.specs.Forms.{Affine, dot, value};
ghost use Rattle.affc_basis.specs.Bases.{AreWithin};
ghost use Rattle.affc_basis.specs.Moduli.{IsModulusAt};

use crate::basis::Basis;
use affc_rows::Form;
use sqlite_items::Items;

/// What is known of a modulus: that it is least, with the values of the parameters and the two elements
/// that show it (none where it is 1), or only that it is large enough.
#[derive(Debug, Drop)]
pub enum Mark {
    Least {
        p: Items<i64>,
        pair: Option<(Items<i64>, Items<i64>)>,
    },
    Bound,
}

/// A modulus: a form over the parameters.
#[derive(Drop)]
pub struct Modulus {
    pub form: Form,
    pub mark: Mark,
}

/// A basis with one modulus for each row.
#[derive(Drop)]
pub struct Fold {
    pub basis: Basis,
    pub moduli: Items<Modulus>,
    ghost one_each: { length moduli ≡ length basis.rows },
}

/// A coefficient times a component of a point.
fn product(c: i128, x: i64) -> i128
    requires { unsigned_abs c ≤ 2 ^ 30 }
    ensures value { result ≡ c *ℤ x }
    ensures size { unsigned_abs result ≤ 2 ^ 93 }
{
    c * i128::from(x)
}

/// A row of coefficients times a point.
fn products(coefs: &[i128], point: &[i64]) -> i128
    requires one_each { length point.now ≡ length coefs.now }
    requires few { length coefs.now ≤ 4 }
    requires bounded { AreWithin (2 ^ 30) coefs.now }
    ensures value { result ≡ dot coefs.now point.now }
    ensures size { unsigned_abs result ≤ 4 * 2 ^ 93 }
{
    let mut sum: i128 = 0;
    for (i, c) in coefs.iter().enumerate() {
        sum += product(*c, point[i]);
    }
    sum
}

/// The value of a modulus.
fn modulus_at(form: &Form, p: &[i64]) -> i128
    requires { IsModulusAt p.now form.now }
    ensures value { result ≡ value form.now p.now }
    ensures low { pos 1 ≤ℤ result }
    ensures high { result ≤ℤ pos (2 ^ 60) }
{
    products(form.coefs.as_slice(), p) + form.constant
}

/// The remainder of a number by a modulus, from 0 to the modulus less 1.
fn reduced(n: i128, by: i128) -> i64
    requires low { pos 1 ≤ℤ by }
    requires high { by ≤ℤ pos (2 ^ 60) }
    ensures { result ≡ int_rem_euclid n by }
{
    n.rem_euclid(by) as i64
}

impl Fold {
    ghost use Rattle.affc_basis.specs.Folds.{forms_of, folded};

    /// Component `k` of the place of an element: its distance along row `k`, reduced to `0 .. b - 1`, where `b`
    /// is the value of modulus `k` at `p`.
    pub fn place(&self, k: u32, element: &[i64], p: &[i64]) -> i64
        requires within { k < length self.now.basis.rows }
        requires dimensions { length element.now ≡ length self.now.basis.rows }
        requires modulus { (b : Affine) → slice_get (forms_of self.now.moduli) k ≡ Some b → IsModulusAt p.now b }
        ensures { slice_get (folded self.now p.now element.now) k ≡ Some result }
    {
        let row = &self.basis.rows.as_slice()[k as usize];
        let modulus = &self.moduli.as_slice()[k as usize];
        let along = products(row.coefs.as_slice(), element);
        reduced(along, modulus_at(&modulus.form, p))
    }
}
