//! Affine forms as expressions.
ghost use Rattle.std.specs.Prelude.{◌≡◌, ◌≤◌, ◌<◌, ◌+◌, ◌-◌, ◌^◌, ℕ, pos, unsigned_abs, length, IfOk, None};
ghost use Rattle.std.specs.List.{All};
ghost use Rattle.affc_loops.specs.Trees as specs;
ghost use Rattle.affc_loops.specs.terms.Sizes.{IsModest};
ghost use Rattle.affc_loops.specs.terms.Sums.{with_term, and_one, and_all, finished as ended};

use crate::terms::trees::{add, mul, neg, sub};
use affc_ast::tree::{Ix, NameId};
use affc_rows::Form;
use std::alloc::{AllocError, Global};

/// So many times a name.
#[tactic(auto, using(crate::proofs::terms::TermSteps::times_at, crate::proofs::terms::TermSteps::times_one))]
fn times(alloc: Global, count: u64, name: u32) -> Result<Ix, AllocError>
    requires some { 1 ≤ count }
    requires modest { count ≤ 2 ^ 40 }
    ensures { IfOk result (λ x. x ≡ specs.times (count - 1) name) }
{
    if count == 1 {
        Ok(Ix::Name(NameId(name)))
    } else {
        mul(alloc, Ix::Lit(count as i64), Ix::Name(NameId(name)))
    }
}

/// The sum with one more term behind it; a coefficient of 0 adds none.
#[tactic(auto, using(crate::proofs::terms::TermSteps::added_term, crate::proofs::terms::TermSteps::taken_term, crate::proofs::terms::TermSteps::no_term))]
fn and_term(alloc: Global, e: Ix, c: i64, name: u32) -> Result<Ix, AllocError>
    requires { unsigned_abs c ≤ 2 ^ 40 }
    ensures { IfOk result (λ x. x ≡ with_term e (c, name)) }
{
    if c == 0 {
        Ok(e)
    } else if 0 < c {
        let term = times(alloc, c.unsigned_abs(), name)?;
        add(alloc, e, term)
    } else {
        let term = times(alloc, c.unsigned_abs(), name)?;
        sub(alloc, e, term)
    }
}

/// The first term of a sum, if it isn't 0.
#[tactic(auto, using(crate::proofs::terms::TermSteps::first_added, crate::proofs::terms::TermSteps::first_taken, crate::proofs::terms::TermSteps::no_first))]
fn first_term(alloc: Global, c: i64, name: u32) -> Result<Option<Ix>, AllocError>
    requires { unsigned_abs c ≤ 2 ^ 40 }
    ensures { IfOk result (λ x. x ≡ and_one None (c, name)) }
{
    if c == 0 {
        Ok(None)
    } else if 0 < c {
        Ok(Some(times(alloc, c.unsigned_abs(), name)?))
    } else {
        let term = times(alloc, c.unsigned_abs(), name)?;
        Ok(Some(neg(alloc, term)?))
    }
}

fn next_term(alloc: Global, sum: Option<Ix>, c: i64, name: u32) -> Result<Option<Ix>, AllocError>
    requires { unsigned_abs c ≤ 2 ^ 40 }
    ensures { IfOk result (λ x. x ≡ and_one sum (c, name)) }
{
    match sum {
        None => first_term(alloc, c, name),
        Some(e) => Ok(Some(and_term(alloc, e, c, name)?)),
    }
}

/// A number; a negative one has its minus before it.
#[tactic(auto, using(crate::proofs::terms::TermSteps::number_plain, crate::proofs::terms::TermSteps::number_negative))]
pub fn number(alloc: Global, c: i64) -> Result<Ix, AllocError>
    requires { unsigned_abs c < 2 ^ 62 }
    ensures { IfOk result (λ x. x ≡ specs.number c) }
{
    if 0 <= c {
        Ok(Ix::Lit(c))
    } else {
        neg(alloc, Ix::Lit(-c))
    }
}

/// The sum with its constant.
#[tactic(auto, using(crate::proofs::terms::TermSteps::ends_plain, crate::proofs::terms::TermSteps::ends_added, crate::proofs::terms::TermSteps::ends_taken))]
fn finished(alloc: Global, sum: Option<Ix>, c: i64) -> Result<Ix, AllocError>
    requires { unsigned_abs c < 2 ^ 62 }
    ensures { IfOk result (λ x. x ≡ ended sum c) }
{
    match sum {
        None => number(alloc, c),
        Some(e) => {
            if c == 0 {
                Ok(e)
            } else if 0 < c {
                add(alloc, e, Ix::Lit(c))
            } else {
                sub(alloc, e, Ix::Lit(-c))
            }
        }
    }
}

/// The sum with a term for each of these coefficients, at the names from this number on.
#[tactic(auto, using(crate::proofs::terms::TermSteps::one_more_term))]
fn and_terms(
    alloc: Global,
    sum: Option<Ix>,
    coefs: &[i128],
    from: u32,
) -> Result<Option<Ix>, AllocError>
    requires modest { All (λ c. unsigned_abs c ≤ 2 ^ 40) coefs.now }
    requires seen { from + length coefs.now ≤ 1024 }
    ensures { IfOk result (λ x. x ≡ and_all sum (specs.terms_from from coefs.now)) }
{
    match coefs {
        [] => Ok(sum),
        [c, rest @ ..] => {
            let sum = next_term(alloc, sum, *c as i64, from)?;
            and_terms(alloc, sum, rest, from + 1)
        }
    }
}

fn narrow(c: i128) -> i64
    requires { unsigned_abs c ≤ 2 ^ 59 }
    ensures { result ≡ c }
{
    c as i64
}

/// The form as an expression: its first columns are the first names, and its others, which lead, the names from `from` on.
#[tactic(auto, using(crate::proofs::terms::TermSteps::form_case))]
pub fn form_ix(alloc: Global, first: u32, from: u32, form: &Form) -> Result<Ix, AllocError>
    requires modest { IsModest form.now }
    requires columns { first ≤ length form.now.coefs }
    requires seen { from + length form.now.coefs ≤ 1024 }
    ensures { IfOk result (λ x. x ≡ specs.form_tree first from form.now) }
{
    let coefs = form.coefs.as_slice();
    let sum = and_terms(alloc, None, &coefs[first as usize..], from)?;
    let sum = and_terms(alloc, sum, &coefs[..first as usize], 0)?;
    let constant = narrow(form.constant);
    let made = finished(alloc, sum, constant)?;
    Ok(made)
}
