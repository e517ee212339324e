//! Index expressions as affine forms.
ghost use Rattle.std.specs.Prelude.{◌≡◌, ◌+◌, ◌^◌, ◌≤◌, ◌<◌, pos, negsuc, true, false, length, replicate, unsigned_abs, IfOk, IsTrue};
ghost use Rattle.affc_rows.specs.Forms.{mixed_form};
ghost use Rattle.affc_domain.specs.Affine.{form_of, unit_of, are_small, is_small, product_form};
ghost use Rattle.affc_domain.specs.Plain.{is_plain};
ghost use Rattle.affc_nest.specs.Sides.{IsSide};
ghost use Rattle.affc_nest.specs.Operands.{kept, mixture, multiple, operand_of, IsOperandOver};

use affc_ast::tree::Ix;
use affc_rows::Form;
use std::alloc::{AllocError, Global};

/// `s` times a small form plus `t` times another.
fn mixed(alloc: Global, s: i128, a: &Form, t: i128, b: &Form) -> Result<Form, AllocError>
    requires columns { length a.now.coefs ≡ length b.now.coefs }
    requires factors { (unsigned_abs s ≤ 2 ^ 24) × (unsigned_abs t ≤ 2 ^ 24) }
    requires small { IsTrue (is_small a.now) × IsTrue (is_small b.now) }
    ensures value { IfOk result (λ f. f ≡ mixed_form s a.now t b.now) }
    ensures width { IfOk result (λ f. length f.coefs ≡ length a.now.coefs) }
{
    Form::mixture(alloc, s, a, t, b)
}

/// Whether an expression holds names, and its form.
#[derive(Drop)]
pub(crate) struct Operand {
    pub named: bool,
    pub form: Form,
}

/// Whether the constant is at most 2^24 and each coefficient at most 2^16 in magnitude.
fn has_small(form: &Form) -> bool
    ensures { result ≡ is_small form.now }
{
    form.constant.unsigned_abs() <= 16777216 && all_small(form.coefs.as_slice())
}

fn all_small(coefs: &[i128]) -> bool
    ensures { result ≡ are_small coefs.now }
{
    for c in coefs {
        if c.unsigned_abs() > 65536 {
            return false;
        }
    }
    true
}

/// The form, if it is small.
fn keep(named: bool, form: Form) -> Option<Operand>
    ensures value { result ≡ kept named form }
    ensures fits { IsOperandOver (length form.coefs) result }
{
    if has_small(&form) {
        Some(Operand { named, form })
    } else {
        None
    }
}

/// `s` times one form plus `t` times another, if it is small.
fn sum(
    alloc: Global,
    columns: u32,
    a: Option<Operand>,
    t: i128,
    b: Option<Operand>,
) -> Result<Option<Operand>, AllocError>
    requires factor { unsigned_abs t ≤ 1 }
    requires first { IsOperandOver columns a }
    requires second { IsOperandOver columns b }
    ensures value { IfOk result (λ r. r ≡ mixture (pos 1) a t b) }
    ensures fits { IfOk result (λ r. IsOperandOver columns r) }
{
    let Some(a) = a else {
        return Ok(None);
    };
    let Some(b) = b else {
        return Ok(None);
    };
    let form = mixed(alloc, 1, &a.form, t, &b.form)?;
    Ok(keep(a.named || b.named, form))
}

/// The opposite, if it is small.
fn opposite(alloc: Global, columns: u32, a: Option<Operand>) -> Result<Option<Operand>, AllocError>
    requires operand { IsOperandOver columns a }
    ensures value { IfOk result (λ r. r ≡ mixture (negsuc 0) a (pos 0) a) }
    ensures fits { IfOk result (λ r. IsOperandOver columns r) }
{
    let Some(a) = a else {
        return Ok(None);
    };
    let form = mixed(alloc, -1, &a.form, 0, &a.form)?;
    Ok(keep(a.named || a.named, form))
}

/// The form of a product, whose first side holds names or not.
fn product_of(alloc: Global, a: &Operand, b: &Operand) -> Result<Form, AllocError>
    requires first { IsTrue (is_small a.now.form) }
    requires second { IsTrue (is_small b.now.form) }
    requires columns { length a.now.form.coefs ≡ length b.now.form.coefs }
    ensures value { IfOk result (λ f. f ≡ product_form a.now.named a.now.form b.now.form) }
    ensures width { IfOk result (λ f. length f.coefs ≡ length a.now.form.coefs) }
{
    if a.named {
        mixed(alloc, b.form.constant, &a.form, 0, &b.form)
    } else {
        mixed(alloc, 0, &a.form, a.form.constant, &b.form)
    }
}

/// The product, if one side holds no name and it is small.
fn product(
    alloc: Global,
    columns: u32,
    a: Option<Operand>,
    b: Option<Operand>,
) -> Result<Option<Operand>, AllocError>
    requires first { IsOperandOver columns a }
    requires second { IsOperandOver columns b }
    ensures value { IfOk result (λ r. r ≡ multiple a b) }
    ensures fits { IfOk result (λ r. IsOperandOver columns r) }
{
    let Some(a) = a else {
        return Ok(None);
    };
    let Some(b) = b else {
        return Ok(None);
    };
    if a.named && b.named {
        return Ok(None);
    }
    let form = product_of(alloc, &a, &b)?;
    Ok(keep(a.named || b.named, form))
}

fn number_operand(alloc: Global, columns: u32, n: i64) -> Result<Option<Operand>, AllocError>
    ensures value { IfOk result (λ r. r ≡ kept false (record { coefs = replicate columns (pos 0); constant = n })) }
    ensures fits { IfOk result (λ r. IsOperandOver columns r) }
{
    Ok(keep(false, Form::number(alloc, columns, i128::from(n))?))
}

fn name_operand(alloc: Global, names: u32, x: u32) -> Result<Option<Operand>, AllocError>
    ensures value { IfOk result (λ r. r ≡ kept true (record { coefs = unit_of names x; constant = pos 0 })) }
    ensures fits { IfOk result (λ r. IsOperandOver names r) }
{
    Ok(keep(true, Form::column(alloc, names, x)?))
}

/// The form of an expression over the names in sight, where each part is affine and small.
#[tactic(auto, using(affc_ast::proofs::Outs::ix_outs))]
fn linear_part(alloc: Global, names: u32, e: &Ix) -> Result<Option<Operand>, AllocError>
    ensures form { IfOk result (λ r. r ≡ operand_of names e.now) }
    ensures fits { IfOk result (λ r. IsOperandOver names r) }
{
    match e {
        Ix::Lit(n) => number_operand(alloc, names, *n),
        Ix::Name(x) => name_operand(alloc, names, x.0),
        Ix::Neg(a) => {
            let a = linear_part(alloc, names, a.get())?;
            opposite(alloc, names, a)
        }
        Ix::Add(a, b) => {
            let a = linear_part(alloc, names, a.get())?;
            let b = linear_part(alloc, names, b.get())?;
            sum(alloc, names, a, 1, b)
        }
        Ix::Sub(a, b) => {
            let a = linear_part(alloc, names, a.get())?;
            let b = linear_part(alloc, names, b.get())?;
            sum(alloc, names, a, -1, b)
        }
        Ix::Mul(a, b) => {
            let a = linear_part(alloc, names, a.get())?;
            let b = linear_part(alloc, names, b.get())?;
            product(alloc, names, a, b)
        }
        Ix::Min(_, _) => Ok(None),
        Ix::Max(_, _) => Ok(None),
        Ix::Floord(_, _) => Ok(None),
        Ix::Ceild(_, _) => Ok(None),
        Ix::Mod(_, _) => Ok(None),
    }
}

/// The form of a plain expression over the names in sight, and so many columns more.
pub fn form_over(alloc: Global, names: u32, more: u32, e: &Ix) -> Result<Form, AllocError>
    requires { IsTrue (is_plain names e.now) }
    ensures value { IfOk result (λ f. f ≡ form_of names more e.now) }
    ensures side { IfOk result (λ f. IsSide (names + more) f) }
{
    let Some(part) = linear_part(alloc, names, e)? else {
        unreachable!()
    };
    let form = part.form.widened(alloc, more)?;
    Ok(form)
}
