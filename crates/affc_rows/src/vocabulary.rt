//! The words of forms: numbers, columns, opposites, forms over more columns, mixtures and images that fit, copies.
ghost use Rattle.std.specs.Prelude.{◌≡◌, ◌++◌, ◌^◌, ◌<◌, ◌≤◌, ◌-ℤ◌, ◌+ℤ◌, neg_ℤ, ◌↔◌, pos, negsuc, unsigned_abs, replicate, length, get_or, IsTrue, IfOk, OnOk};
ghost use Rattle.std.specs.Int.{IsGcd};
ghost use Rattle.affc_rows.specs.Forms.{mixed_form, mixed_form_magnitudes, HaveColumns, composed_form_magnitudes, TooWide};
ghost use Rattle.affc_rows.specs.Vocabulary.{unit_of, column_form, number_form, opposite, HasOpposite, AreOpposite, spread, widened, padded, gap_row, form_at};

use crate::form::{Coefs, Form, FormFault};
use smallvec::SmallVec;
use std::alloc::{AllocError, Global};

/// Adds so many zeros.
fn add_zeros(coefs: &mut Coefs, n: u32) -> Result<(), AllocError>
    ensures { OnOk result (coefs.new.items ≡ coefs.old.items ++ replicate n (pos 0)) }
{
    for _i in 0..n {
        coefs.push(0)?;
    }
    Ok(())
}

/// So many zeros.
fn zeros(alloc: Global, n: u32) -> Result<Coefs, AllocError>
    ensures { IfOk result (λ v. v.items ≡ replicate n (pos 0)) }
{
    let mut made = SmallVec::new(alloc);
    add_zeros(&mut made, n)?;
    Ok(made)
}

/// Sets an entry of a row of zeros to 1, if it has one there.
#[tactic(auto, using(crate::proofs::VocabularyLemmas::none_set))]
fn set_one(coefs: &mut Coefs, columns: u32, x: u32)
    requires { coefs.old.items ≡ replicate columns (pos 0) }
    ensures { coefs.new.items ≡ unit_of columns x }
{
    if x < columns {
        coefs.as_mut_slice()[x as usize] = 1;
    }
}

/// The opposite of a number that has one.
#[inline]
fn negative(c: i128) -> i128
    requires { unsigned_abs c < 2 ^ 127 }
    ensures { result ≡ neg_ℤ c }
{
    -c
}

/// One number less another.
#[inline]
fn difference(c: i128, by: i128) -> i128
    requires minuend { unsigned_abs c ≤ 2 ^ 126 }
    requires subtrahend { unsigned_abs by < 2 ^ 126 }
    ensures { result ≡ c -ℤ by }
{
    c - by
}

/// Whether the numbers of one list are those of the other with the other sign.
pub fn are_opposite(xs: &[i128], ys: &[i128]) -> bool
    ensures { IsTrue result ↔ AreOpposite xs.now ys.now }
{
    match xs {
        [] => ys.is_empty(),
        [x, xs @ ..] => match ys {
            [] => false,
            [y, ys @ ..] => is_negated(*x, *y) && are_opposite(xs, ys),
        },
    }
}

/// Whether the second number is the first with the other sign.
#[inline]
fn is_negated(x: i128, y: i128) -> bool
    ensures { IsTrue result ↔ (x +ℤ y ≡ pos 0) }
{
    x.checked_neg() == Some(y)
}

/// Whether coefficients and a constant are others with the other sign.
#[tactic(auto, using(crate::proofs::VocabularyLemmas::opposite_is, crate::proofs::VocabularyLemmas::is_opposite))]
fn oppose(xs: &[i128], x: i128, ys: &[i128], y: i128) -> bool
    ensures { IsTrue result ↔ (record { coefs = ys.now; constant = y } ≡ opposite (record { coefs = xs.now; constant = x })) }
{
    is_negated(x, y) && are_opposite(xs, ys)
}

/// The greatest common divisor (Euclid).
pub fn gcd(first: u128, second: u128) -> u128
    ensures { IsGcd first second result }
{
    let mut a = first;
    let mut b = second;
    while b != 0 {
        let rest = a % b;
        a = b;
        b = rest;
    }
    a
}

/// Adds copies of forms.
pub fn add_copies(forms: &[Form], out: &mut Vec<Form>) -> Result<(), AllocError>
    ensures { OnOk result (out.new.items ≡ out.old.items ++ forms.now) }
{
    match forms {
        [] => Ok(()),
        [form, rest @ ..] => {
            out.push(form.clone()?)?;
            add_copies(rest, out)
        }
    }
}

/// Copies of forms.
pub fn copies(alloc: Global, forms: &[Form]) -> Result<Vec<Form>, AllocError>
    ensures { IfOk result (λ v. v.items ≡ forms.now) }
{
    let mut out = Vec::new(alloc);
    add_copies(forms, &mut out)?;
    Ok(out)
}

impl Form {
    /// The form of a number.
    pub fn number(alloc: Global, columns: u32, n: i128) -> Result<Form, AllocError>
        ensures value { IfOk result (λ f. f ≡ number_form columns n) }
        ensures width { IfOk result (λ f. length f.coefs ≡ columns) }
    {
        let coefs = zeros(alloc, columns)?;
        Ok(Form { coefs, constant: n })
    }

    /// The form of a column; 0 where there is none such.
    #[tactic(auto, using(crate::proofs::VocabularyLemmas::unit_width))]
    pub fn column(alloc: Global, columns: u32, x: u32) -> Result<Form, AllocError>
        ensures value { IfOk result (λ f. f ≡ column_form columns x) }
        ensures width { IfOk result (λ f. length f.coefs ≡ columns) }
    {
        let mut coefs = zeros(alloc, columns)?;
        set_one(&mut coefs, columns, x);
        Ok(Form { coefs, constant: 0 })
    }

    /// The form with its signs turned.
    pub fn opposite(&self, alloc: Global) -> Result<Form, AllocError>
        requires { HasOpposite self.now }
        ensures { IfOk result (λ f. f ≡ opposite self.now) }
    {
        let mut coefs = SmallVec::new(alloc);
        for c in self.coefs.as_slice() {
            coefs.push(negative(*c))?;
        }
        Ok(Form {
            coefs,
            constant: negative(self.constant),
        })
    }

    /// Whether this form is the other one with its signs turned.
    pub fn is_opposite(&self, other: &Form) -> bool
        ensures { IsTrue result ↔ (other.now ≡ opposite self.now) }
    {
        oppose(
            self.coefs.as_slice(),
            self.constant,
            other.coefs.as_slice(),
            other.constant,
        )
    }

    /// The coefficient of a column, or 0 where there is none such.
    #[inline]
    pub fn coefficient(&self, column: usize) -> i128
        ensures { result ≡ get_or self.now.coefs column (pos 0) }
    {
        match self.coefs.as_slice().get(column) {
            Some(c) => *c,
            None => 0,
        }
    }

    /// The form less a number.
    pub fn less(self, by: i128) -> Form
        requires fits { unsigned_abs self.constant ≤ 2 ^ 126 }
        requires small { unsigned_abs by < 2 ^ 126 }
        ensures { result ≡ record self { constant = self.constant -ℤ by } }
    {
        let Form { coefs, constant } = self;
        Form {
            coefs,
            constant: difference(constant, by),
        }
    }

    /// The form with so many columns more between its parameters and its iterators, and so many behind.
    pub fn spread(
        &self,
        alloc: Global,
        params: u32,
        between: u32,
        behind: u32,
    ) -> Result<Form, AllocError>
        requires { params ≤ length self.now.coefs }
        ensures { IfOk result (λ f. f ≡ spread params between behind self.now) }
    {
        let (front, back) = self.coefs.as_slice().split_at(params as usize);
        let mut coefs = SmallVec::from_slice(alloc, front)?;
        add_zeros(&mut coefs, between)?;
        coefs.extend_from_slice(back)?;
        add_zeros(&mut coefs, behind)?;
        Ok(Form {
            coefs,
            constant: self.constant,
        })
    }

    /// The form with so many columns more behind, on which it doesn't rest.
    pub fn widened(&self, alloc: Global, more: u32) -> Result<Form, AllocError>
        ensures { IfOk result (λ f. f ≡ widened more self.now) }
    {
        self.spread(alloc, 0, 0, more)
    }

    /// The form over so many columns, of which it sees the first.
    pub fn padded(&self, alloc: Global, columns: u32) -> Result<Form, AllocError>
        requires { length self.now.coefs ≤ columns }
        ensures value { IfOk result (λ f. f ≡ padded columns self.now) }
        ensures width { IfOk result (λ f. length f.coefs ≡ columns) }
    {
        self.widened(alloc, columns - self.coefs.len() as u32)
    }

    /// `s` times one form plus `t` times another, where no sum of magnitudes passes the limit.
    pub fn mixture(alloc: Global, s: i128, a: &Form, t: i128, b: &Form) -> Result<Form, AllocError>
        requires columns { length a.now.coefs ≡ length b.now.coefs }
        requires fits { TooWide (mixed_form_magnitudes s a.now t b.now) → ⊥ }
        ensures value { IfOk result (λ f. f ≡ mixed_form s a.now t b.now) }
        ensures width { IfOk result (λ f. length f.coefs ≡ length a.now.coefs) }
        ensures constant { IfOk result (λ f. unsigned_abs f.constant ≤ 2 ^ 126) }
    {
        match a.scale_add(alloc, s, b, t) {
            Ok(form) => Ok(form),
            Err(FormFault::Range) => unreachable!(),
            Err(FormFault::Memory) => Err(AllocError),
        }
    }

    /// The row `b - a - k`, where no sum of magnitudes passes the limit.
    pub fn gap(alloc: Global, a: &Form, b: &Form, k: u32) -> Result<Form, AllocError>
        requires columns { length b.now.coefs ≡ length a.now.coefs }
        requires fits { TooWide (mixed_form_magnitudes (pos 1) b.now (negsuc 0) a.now) → ⊥ }
        ensures value { IfOk result (λ f. f ≡ gap_row a.now b.now k) }
        ensures width { IfOk result (λ f. length f.coefs ≡ length a.now.coefs) }
    {
        let difference = Form::mixture(alloc, 1, b, -1, a)?;
        Ok(difference.less(i128::from(k)))
    }

    /// The form over so many columns with each of its own replaced by its image, where no sum of magnitudes passes the limit.
    ///
    /// There may be no image: then it is the form's constant.
    #[tactic(auto, using(crate::proofs::VocabularyLemmas::image_columns, crate::proofs::VocabularyLemmas::composed_is))]
    pub fn at_images(
        &self,
        alloc: Global,
        columns: u32,
        images: &[Form],
    ) -> Result<Form, AllocError>
        requires one_each { length images.now ≡ length self.now.coefs }
        requires equal_columns { HaveColumns columns images.now }
        requires fits { TooWide (composed_form_magnitudes self.now images.now) → ⊥ }
        ensures { IfOk result (λ f. f ≡ form_at columns images.now self.now) }
    {
        if images.is_empty() {
            return Form::number(alloc, columns, self.constant);
        }
        match self.compose(alloc, images) {
            Ok(form) => Ok(form),
            Err(FormFault::Range) => unreachable!(),
            Err(FormFault::Memory) => Err(AllocError),
        }
    }
}
