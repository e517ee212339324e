//! Parts of whole-number expressions whose constant or a coefficient is large.

ghost use Rattle.std.specs.Prelude.{◌≡◌, ℕ, pos, IfOk};
ghost use Rattle.affc_grammar.specs.Draft as grammar;
ghost use Rattle.affc_grammar.specs.Grammar.{Choice, Name, Rounding};
ghost use Rattle.affc_grammar.specs.Limits.{coefficient_of, constant_of, first_token, is_large, large_parts};
ghost use Rattle.affc_syntax.specs.draft.Drafts.{ix};
ghost use Rattle.affc_limits.specs.Coefficients.{number_of};
ghost use Rattle.affc_limits.specs.Parts as spec;
ghost use Rattle.affc_limits.specs.Parts.{HasForm, IsForm};
ghost use Rattle.affc_limits.specs.Places.{least, lesser, place_if};

use crate::forms::{lesser, place_if};
use crate::terms::Coefficients;
use crate::whole::Whole;
use affc_syntax::draft::draft::IxDraft;
use std::alloc::{AllocError, Global};

/// The size, where it is small.
fn small(n: u64) -> Option<u64>
    ensures { result ≡ spec.small n }
{
    if n <= 65536 { Some(n) } else { None }
}

fn size_of_sum(a: Option<u64>, b: Option<u64>) -> Option<u64>
    requires first { spec.IsSmall a }
    requires second { spec.IsSmall b }
    ensures { result ≡ spec.size_of_sum a b }
{
    match a {
        None => None,
        Some(n) => match b {
            None => None,
            Some(m) => small(n + m),
        },
    }
}

fn size_of_product(a: Option<u64>, b: Option<u64>) -> Option<u64>
    requires first { spec.IsSmall a }
    requires second { spec.IsSmall b }
    ensures { result ≡ spec.size_of_product a b }
{
    match a {
        None => None,
        Some(n) => match b {
            None => None,
            Some(m) => small(n * m),
        },
    }
}

fn size_of_choice(a: Option<u64>, b: Option<u64>) -> Option<u64>
    ensures { result ≡ spec.size_of_choice a b }
{
    match a {
        None => None,
        Some(_) => match b {
            None => None,
            Some(_) => Some(0),
        },
    }
}

/// A bound on the constant and on each coefficient of an expression, where one that is small holds for each part of it.
#[tactic(auto, using(affc_syntax::proofs::draft::Outs::ix_outs))]
fn size(e: &IxDraft) -> Option<u64>
    ensures value { result ≡ spec.size (ix e.now) }
    ensures small { spec.IsSmall result }
{
    match e {
        IxDraft::Literal { value, .. } => small(*value),
        IxDraft::Name { .. } => Some(1),
        IxDraft::Negated { of, .. } | IxDraft::Grouped { inside: of, .. } => size(of.get()),
        IxDraft::Sum(a, b) | IxDraft::Difference(a, b) => {
            size_of_sum(size(a.get()), size(b.get()))
        }
        IxDraft::Product { left, right, .. } => {
            size_of_product(size(left.get()), size(right.get()))
        }
        IxDraft::Chosen { left, right, .. } => size_of_choice(size(left.get()), size(right.get())),
        IxDraft::Divided { of, .. } => size_of_choice(size(of.get()), Some(0)),
    }
}

/// An expression: its first token, its constant, its coefficients, and the least first token of a part that is large.
#[derive(Drop)]
struct Form {
    first: usize,
    constant: Whole,
    coefficients: Coefficients,
    past: Option<usize>,
}

/// Whether the constant or a coefficient is large.
fn is_past(constant: &Whole, coefficients: &Coefficients) -> bool
    ensures { (e : grammar.IxDraft) → constant.now ≡ constant_of e → ((w : Name) → number_of coefficients.now w ≡ coefficient_of w e) → result ≡ is_large e }
{
    constant.is_above(16777216) || coefficients.has_large()
}

/// A part, given what was found inside it.
fn form_of(first: usize, constant: Whole, coefficients: Coefficients, inside: Option<usize>) -> Form
    ensures { (e : grammar.IxDraft) → HasForm e first constant (number_of coefficients) → lesser (place_if (is_large e) first) inside ≡ least (large_parts e) → IsForm e result }
{
    let past = lesser(place_if(is_past(&constant, &coefficients), first), inside);
    Form {
        first,
        constant,
        coefficients,
        past,
    }
}

/// A part, given its constant and its coefficients where there was memory for them.
fn form_from(
    first: usize,
    constant: Result<Whole, AllocError>,
    coefficients: Result<Coefficients, AllocError>,
    inside: Option<usize>,
) -> Result<Form, AllocError>
    ensures { (e : grammar.IxDraft) → IfOk constant (λ k. k ≡ constant_of e) → IfOk coefficients (λ c. (w : Name) → number_of c w ≡ coefficient_of w e) → first ≡ first_token e → lesser (place_if (is_large e) first) inside ≡ least (large_parts e) → IfOk result (IsForm e) }
{
    let constant = constant?;
    let coefficients = coefficients?;
    Ok(form_of(first, constant, coefficients, inside))
}

/// A part that is taken to be no form, such as a choice.
fn opaque(alloc: Global, first: usize, inside: Option<usize>) -> Form
    ensures first { result.first ≡ first }
    ensures constant { result.constant ≡ pos 0 }
    ensures coefficients { (w : Name) → number_of result.coefficients w ≡ pos 0 }
    ensures past { result.past ≡ inside }
{
    Form {
        first,
        constant: Whole::zero(alloc),
        coefficients: Coefficients::none(alloc),
        past: inside,
    }
}

fn literal_form(alloc: Global, at: usize, value: u64) -> Result<Form, AllocError>
    ensures { IfOk result (IsForm (grammar.literal at value)) }
{
    let constant = Whole::from_u64(alloc, value)?;
    Ok(form_of(at, constant, Coefficients::none(alloc), None))
}

fn name_form(alloc: Global, at: usize, name: &str) -> Result<Form, AllocError>
    ensures { IfOk result (IsForm (grammar.name at name.now)) }
{
    let coefficients = Coefficients::one(alloc, name)?;
    Ok(form_of(at, Whole::zero(alloc), coefficients, None))
}

fn negation_form(alloc: Global, at: usize, a: Form) -> Result<Form, AllocError>
    ensures { (x : grammar.IxDraft) → IsForm x a → IfOk result (IsForm (grammar.negated at x)) }
{
    form_from(
        at,
        a.constant.opposite(alloc),
        a.coefficients.opposites(alloc),
        a.past,
    )
}

fn grouped_form(at: usize, a: Form) -> Form
    ensures { (x : grammar.IxDraft) → IsForm x a → IsForm (grammar.grouped at x) result }
{
    form_of(at, a.constant, a.coefficients, a.past)
}

/// A quotient, which is taken to be no form.
fn quotient_form(alloc: Global, at: usize, a: Form) -> Form
    ensures { (k : Rounding) (by_at by : ℕ) (x : grammar.IxDraft) → IsForm x a → IsForm (grammar.divided at k x by_at by) result }
{
    opaque(alloc, at, a.past)
}

/// Two operands.
#[derive(Drop)]
struct Two {
    left: Form,
    right: Form,
}

fn sum_form(alloc: Global, two: Two) -> Result<Form, AllocError>
    ensures { (x y : grammar.IxDraft) → IsForm x two.left → IsForm y two.right → IfOk result (IsForm (grammar.sum x y)) }
{
    let Two { left: a, right: b } = two;
    form_from(
        a.first,
        a.constant.plus(&b.constant),
        a.coefficients.plus(alloc, b.coefficients),
        lesser(a.past, b.past),
    )
}

fn difference_form(alloc: Global, two: Two) -> Result<Form, AllocError>
    ensures { (x y : grammar.IxDraft) → IsForm x two.left → IsForm y two.right → IfOk result (IsForm (grammar.difference x y)) }
{
    let Two { left: a, right: b } = two;
    form_from(
        a.first,
        a.constant.minus(&b.constant),
        a.coefficients.minus(alloc, b.coefficients),
        lesser(a.past, b.past),
    )
}

fn product_form(alloc: Global, two: Two) -> Result<Form, AllocError>
    ensures { (at : ℕ) (x y : grammar.IxDraft) → IsForm x two.left → IsForm y two.right → IfOk result (IsForm (grammar.product at x y)) }
{
    let Two { left: a, right: b } = two;
    let left = a.coefficients;
    let right = b.coefficients;
    let constant = a.constant.times(alloc, &b.constant);
    let coefficients = left.cross(alloc, &b.constant, right, &a.constant);
    form_from(a.first, constant, coefficients, lesser(a.past, b.past))
}

/// A choice, which is taken to be no form.
fn choice_form(alloc: Global, at: usize, two: Two) -> Form
    ensures { (k : Choice) (x y : grammar.IxDraft) → IsForm x two.left → IsForm y two.right → IsForm (grammar.chosen at k x y) result }
{
    opaque(alloc, at, lesser(two.left.past, two.right.past))
}

/// An expression and each of its parts, once.
#[cycle(formed)]
#[tactic(auto, using(affc_syntax::proofs::draft::Outs::ix_outs))]
fn formed(alloc: Global, e: &IxDraft) -> Result<Form, AllocError>
    ensures { IfOk result (IsForm (ix e.now)) }
{
    match e {
        IxDraft::Literal { at, value } => literal_form(alloc, *at, *value),
        IxDraft::Name { at, name } => name_form(alloc, *at, name.as_str()),
        IxDraft::Negated { at, of } => negation_form(alloc, *at, formed(alloc, of.get())?),
        IxDraft::Sum(a, b) => sum_form(alloc, both_formed(alloc, a.get(), b.get())?),
        IxDraft::Difference(a, b) => {
            difference_form(alloc, both_formed(alloc, a.get(), b.get())?)
        }
        IxDraft::Product { left, right, .. } => {
            product_form(alloc, both_formed(alloc, left.get(), right.get())?)
        }
        IxDraft::Grouped { at, inside } => Ok(grouped_form(*at, formed(alloc, inside.get())?)),
        IxDraft::Chosen {
            at,
            left,
            right,
            ..
        } => Ok(choice_form(alloc, *at, both_formed(alloc, left.get(), right.get())?)),
        IxDraft::Divided { at, of, .. } => {
            Ok(quotient_form(alloc, *at, formed(alloc, of.get())?))
        }
    }
}

/// Both operands, one after the other.
#[cycle(formed)]
fn both_formed(alloc: Global, left: &IxDraft, right: &IxDraft) -> Result<Two, AllocError>
    ensures left { IfOk result (λ two. IsForm (ix left.now) two.left) }
    ensures right { IfOk result (λ two. IsForm (ix right.now) two.right) }
{
    let left = formed(alloc, left)?;
    let right = formed(alloc, right)?;
    Ok(Two { left, right })
}

/// The least number of a token with which a part begins.
#[tactic(auto, using(affc_syntax::proofs::draft::Outs::ix_outs))]
fn least_token(e: &IxDraft) -> usize
    ensures { result ≡ spec.least_token (ix e.now) }
{
    match e {
        IxDraft::Literal { at, .. } | IxDraft::Name { at, .. } => *at,
        IxDraft::Negated { at, of }
        | IxDraft::Grouped { at, inside: of }
        | IxDraft::Divided { at, of, .. } => (*at).min(least_token(of.get())),
        IxDraft::Sum(left, right)
        | IxDraft::Difference(left, right)
        | IxDraft::Product { left, right, .. } => {
            least_token(left.get()).min(least_token(right.get()))
        }
        IxDraft::Chosen {
            at,
            left,
            right,
            ..
        } => (*at).min(least_token(left.get()).min(least_token(right.get()))),
    }
}

/// Whether a place was found that is no later than this one.
fn is_found_by(before: Option<usize>, at: usize) -> bool
    ensures { result ≡ spec.is_found_by before at }
{
    match before {
        None => false,
        Some(found) => found <= at,
    }
}

/// The least first token of a part whose constant or a coefficient is large, and of a place that was found before. An
/// expression that begins behind that place is not looked at.
pub(crate) fn large_part(
    alloc: Global,
    before: Option<usize>,
    e: &IxDraft,
) -> Result<Option<usize>, AllocError>
    ensures { IfOk result (λ p. p ≡ lesser before (least (large_parts (ix e.now)))) }
{
    if size(e).is_some() {
        return Ok(before);
    }
    if is_found_by(before, least_token(e)) {
        return Ok(before);
    }
    let whole = formed(alloc, e)?;
    Ok(lesser(before, whole.past))
}
