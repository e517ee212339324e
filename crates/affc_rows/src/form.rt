//! Forms: their values, mixtures and compositions.
ghost use Rattle.std.specs.Prelude.{◌≡◌, ℕ, ◌+◌, ◌-◌, ◌*◌, ◌^◌, ◌<◌, ◌≤◌, ◌+ℤ◌, ◌*ℤ◌, unsigned_abs, pos, IfSome, IfOk, IfErr, OnOk, OnErr, length};
ghost use Rattle.std.specs.List.{All};
ghost use Rattle.affc_rows.specs.Forms.{dot, dot_magnitude, value, magnitude, mixed, mixed_magnitudes, mixed_form, mixed_form_magnitudes, entry_magnitude, columns_of, HaveColumns, column_of, constants_of, composed, composed_magnitudes, composed_form, composed_form_magnitudes, AllFit, TooWide};

use crate::total::{Range, Total};
use smallvec::SmallVec;
use std::alloc::{AllocError, Global};
use std::marker::Model;
use thiserror::Error;

/// The coefficients of a form. Up to twelve lie in the value itself; contracts see them as a list.
pub type Coefs = SmallVec<i128, 12, Global>;

/// An affine form: a coefficient for each column, in the columns' order, and a constant.
#[derive(Drop)]
pub struct Form {
    pub coefs: Coefs,
    pub constant: i128,
}

impl Model for Form {
    ghost use Rattle.affc_rows.specs.Forms.{Affine};

    ghost Value = { Affine };

    ghost view = { λ f. record { coefs = f.coefs.items; constant = f.constant } };
}

impl Clone for Form {
    ghost is_clone = { λ f copy. copy ≡ f };

    fn clone(&self) -> Result<Form, AllocError> {
        let coefs = SmallVec::from_slice(*self.coefs.allocator(), self.coefs.as_slice())?;
        Ok(Form {
            coefs,
            constant: self.constant,
        })
    }
}

/// Why no form is made.
#[derive(Debug, Clone, Copy, PartialEq, Eq, Error)]
pub enum FormFault {
    #[error("the magnitudes of the terms of an entry sum to more than 2^126")]
    Range,
    #[error("out of memory")]
    Memory,
}

/// The sum of the products of two lists, onto a total.
fn add_products(start: Total, coefs: &[i128], point: &[i128]) -> Result<Total, Range>
    requires { length coefs.now ≡ length point.now }
    ensures value { IfOk result (λ t. t.value ≡ start.value +ℤ dot coefs.now point.now) }
    ensures magnitude { IfOk result (λ t. t.magnitude ≡ start.magnitude + dot_magnitude coefs.now point.now) }
    ensures fits { OnOk result (start.magnitude + dot_magnitude coefs.now point.now ≤ 2 ^ 126) }
    ensures range { OnErr result (2 ^ 126 < start.magnitude + dot_magnitude coefs.now point.now) }
{
    let mut total = start;
    for (i, c) in coefs.iter().enumerate() {
        total = total.add(*c, point[i])?;
    }
    Ok(total)
}

/// A small factor times a machine integer.
#[inline]
fn times(s: i64, c: i64) -> i128
    requires { unsigned_abs s ≤ 2 ^ 61 }
    ensures value { result ≡ s *ℤ c }
    ensures magnitude { unsigned_abs s * unsigned_abs c ≤ 2 ^ 124 }
    ensures fits { unsigned_abs result ≤ 2 ^ 124 }
{
    i128::from(s) * i128::from(c)
}

/// The two factors of a mixture, where machine integers times them can't pass the limit together.
#[derive(Clone, Copy)]
struct Weights {
    s: i64,
    t: i64,
    ghost small_s: { unsigned_abs s ≤ 2 ^ 61 },
    ghost small_t: { unsigned_abs t ≤ 2 ^ 61 },
}

impl Weights {
    /// The factors, if they are small.
    fn of(s: i128, t: i128) -> Option<Weights>
        ensures { IfSome result (λ w. (w.s ≡ s) × (w.t ≡ t)) }
    {
        if s.unsigned_abs() > 1 << 61 || t.unsigned_abs() > 1 << 61 {
            return None;
        }
        let (Ok(s), Ok(t)) = (i64::try_from(s), i64::try_from(t)) else {
            return None;
        };
        Some(Weights { s, t })
    }

    /// The entry of machine integers.
    #[inline]
    fn entry(self, c: i64, d: i64) -> i128
        ensures value { result ≡ (self.s *ℤ c) +ℤ (self.t *ℤ d) }
        ensures fits { entry_magnitude self.s c self.t d ≤ 2 ^ 126 }
    {
        times(self.s, c) + times(self.t, d)
    }
}

/// One entry of `s` times a form plus `t` times another.
fn entry(s: i128, c: i128, t: i128, d: i128) -> Result<i128, Range>
    ensures value { IfOk result (λ v. v ≡ (s *ℤ c) +ℤ (t *ℤ d)) }
    ensures fits { OnOk result (entry_magnitude s c t d ≤ 2 ^ 126) }
    ensures range { OnErr result (2 ^ 126 < entry_magnitude s c t d) }
{
    let Ok(first) = Total::zero().add(s, c) else {
        return Err(Range);
    };
    let Ok(total) = first.add(t, d) else {
        return Err(Range);
    };
    Ok(total.value)
}

/// One entry. Of small factors and machine integers no magnitudes are summed.
#[inline]
fn entry_by(weights: Option<Weights>, s: i128, c: i128, t: i128, d: i128) -> Result<i128, Range>
    requires { IfSome weights (λ w. (w.s ≡ s) × (w.t ≡ t)) }
    ensures value { IfOk result (λ v. v ≡ (s *ℤ c) +ℤ (t *ℤ d)) }
    ensures fits { OnOk result (entry_magnitude s c t d ≤ 2 ^ 126) }
    ensures range { OnErr result (2 ^ 126 < entry_magnitude s c t d) }
{
    match (weights, i64::try_from(c), i64::try_from(d)) {
        (Some(weights), Ok(c), Ok(d)) => Ok(weights.entry(c, d)),
        _ => entry(s, c, t, d),
    }
}

/// `s` times the first list plus `t` times the second.
fn mixed_coefs(
    alloc: Global,
    s: i128,
    first: &[i128],
    t: i128,
    second: &[i128],
) -> Result<Coefs, FormFault>
    requires { length first.now ≡ length second.now }
    ensures ok { IfOk result (λ v. v.items ≡ mixed s first.now t second.now) }
    ensures fits { OnOk result (AllFit (mixed_magnitudes s first.now t second.now)) }
    ensures range { IfErr result (λ e. e ≡ FormFault.Range → TooWide (mixed_magnitudes s first.now t second.now)) }
{
    let weights = Weights::of(s, t);
    let mut coefs = SmallVec::new(alloc);
    for (i, c) in first.iter().enumerate() {
        let Ok(made) = entry_by(weights, s, *c, t, second[i]) else {
            return Err(FormFault::Range);
        };
        let Ok(()) = coefs.push(made) else {
            return Err(FormFault::Memory);
        };
    }
    Ok(coefs)
}

/// The products of the coefficients with the images' coefficients in one column.
fn column_sum(coefs: &[i128], images: &[Form], column: usize) -> Result<i128, Range>
    requires one_each { length images.now ≡ length coefs.now }
    requires within { All (λ g. column < length g.coefs) images.now }
    ensures value { IfOk result (λ v. v ≡ dot coefs.now (column_of column images.now)) }
    ensures fits { OnOk result (dot_magnitude coefs.now (column_of column images.now) ≤ 2 ^ 126) }
    ensures range { OnErr result (2 ^ 126 < dot_magnitude coefs.now (column_of column images.now)) }
{
    let mut total = Total::zero();
    for (i, c) in coefs.iter().enumerate() {
        let image = &images[i];
        let Ok(next) = total.add(*c, image.coefs.as_slice()[column]) else {
            return Err(Range);
        };
        total = next;
    }
    Ok(total.value)
}

/// The products of the coefficients with the images' constants.
fn constant_sum(coefs: &[i128], images: &[Form]) -> Result<Total, Range>
    requires { length images.now ≡ length coefs.now }
    ensures value { IfOk result (λ t. t.value ≡ dot coefs.now (constants_of images.now)) }
    ensures magnitude { IfOk result (λ t. t.magnitude ≡ dot_magnitude coefs.now (constants_of images.now)) }
    ensures range { OnErr result (2 ^ 126 < dot_magnitude coefs.now (constants_of images.now)) }
{
    let mut total = Total::zero();
    for (i, c) in coefs.iter().enumerate() {
        let image = &images[i];
        let Ok(next) = total.add(*c, image.constant) else {
            return Err(Range);
        };
        total = next;
    }
    Ok(total)
}

/// The number of columns of forms over the same columns.
fn columns_of(images: &[Form]) -> usize
    ensures { result ≡ columns_of images.now }
{
    match images {
        [] => 0,
        [image, ..] => image.coefs.len(),
    }
}

/// The coefficients of a composition over so many columns.
fn composed_coefs(
    alloc: Global,
    coefs: &[i128],
    images: &[Form],
    columns: usize,
) -> Result<Coefs, FormFault>
    requires one_each { length images.now ≡ length coefs.now }
    requires equal_columns { HaveColumns columns images.now }
    ensures ok { IfOk result (λ v. v.items ≡ composed coefs.now images.now 0 columns) }
    ensures fits { OnOk result (AllFit (composed_magnitudes coefs.now images.now 0 columns)) }
    ensures range { IfErr result (λ e. e ≡ FormFault.Range → TooWide (composed_magnitudes coefs.now images.now 0 columns)) }
{
    let mut made = SmallVec::new(alloc);
    for column in 0..columns {
        let Ok(sum) = column_sum(coefs, images, column) else {
            return Err(FormFault::Range);
        };
        let Ok(()) = made.push(sum) else {
            return Err(FormFault::Memory);
        };
    }
    Ok(made)
}

impl Form {
    /// The value at a point: one number for each column.
    pub fn eval(&self, point: &[i128]) -> Result<i128, Range>
        requires { length point.now ≡ length self.now.coefs }
        ensures value { IfOk result (λ v. v ≡ value self.now point.now) }
        ensures fits { OnOk result (magnitude self.now point.now ≤ 2 ^ 126) }
        ensures range { OnErr result (2 ^ 126 < magnitude self.now point.now) }
    {
        let total = add_products(Total::zero(), self.coefs.as_slice(), point)?;
        let total = total.add(self.constant, 1)?;
        Ok(total.value)
    }

    /// `s` times this form plus `t` times the other, over the same columns.
    pub fn scale_add(
        &self,
        alloc: Global,
        s: i128,
        other: &Form,
        t: i128,
    ) -> Result<Form, FormFault>
        requires { length self.now.coefs ≡ length other.now.coefs }
        ensures ok { IfOk result (λ f. f ≡ mixed_form s self.now t other.now) }
        ensures fits { OnOk result (AllFit (mixed_form_magnitudes s self.now t other.now)) }
        ensures range { IfErr result (λ e. e ≡ FormFault.Range → TooWide (mixed_form_magnitudes s self.now t other.now)) }
    {
        let Ok(constant) = entry(s, self.constant, t, other.constant) else {
            return Err(FormFault::Range);
        };
        let coefs = mixed_coefs(alloc, s, self.coefs.as_slice(), t, other.coefs.as_slice())?;
        Ok(Form { coefs, constant })
    }

    /// Each column replaced by its image. A form without columns gives its constant over no columns.
    pub fn compose(&self, alloc: Global, images: &[Form]) -> Result<Form, FormFault>
        requires one_each { length images.now ≡ length self.now.coefs }
        requires equal_columns { HaveColumns (columns_of images.now) images.now }
        ensures ok { IfOk result (λ f. f ≡ composed_form self.now images.now) }
        ensures fits { OnOk result (AllFit (composed_form_magnitudes self.now images.now)) }
        ensures range { IfErr result (λ e. e ≡ FormFault.Range → TooWide (composed_form_magnitudes self.now images.now)) }
    {
        let Ok(sum) = constant_sum(self.coefs.as_slice(), images) else {
            return Err(FormFault::Range);
        };
        let Ok(sum) = sum.add(self.constant, 1) else {
            return Err(FormFault::Range);
        };
        let columns = columns_of(images);
        let coefs = composed_coefs(alloc, self.coefs.as_slice(), images, columns)?;
        Ok(Form {
            coefs,
            constant: sum.value,
        })
    }
}
