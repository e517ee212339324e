//! Terms: names with numbers.

ghost use Rattle.std.specs.Prelude.{◌≡◌, [], ◌∷◌, ◌++◌, ◌+ℤ◌, ◌*ℤ◌, false, IfOk, MatchOption};
ghost use Rattle.affc_grammar.specs.Grammar.{Name};
ghost use Rattle.affc_limits.specs.Terms as spec;

use crate::whole::Whole;
use affc_ast::Items;
use affc_ast::text::Text;
use affc_syntax::draft::symbol::is;
use std::alloc::{AllocError, Global};

/// A name, and what it is multiplied by.
#[derive(Drop)]
pub struct Term {
    pub name: Text,
    pub number: Whole,
}

/// A number for each name: that of its term times the scale, and 0 where it has no term.
#[derive(Drop)]
pub struct Coefficients {
    pub(crate) scale: Option<Whole>,
    pub(crate) terms: Items<Term>,
    pub ghost apart: { spec.AreApart terms },
}

/// Where the term of a name stands.
fn position(terms: &[Term], name: &str) -> Option<usize>
    ensures { MatchOption result (spec.has name.now terms.now ≡ false) (spec.IsAt name.now terms.now) }
{
    for (i, term) in terms.iter().enumerate() {
        if is(term.name.as_str(), name.as_bytes()) {
            return Some(i);
        }
    }
    None
}

/// A number times the scale, which is 1 where there is none.
pub(crate) fn scaled(
    alloc: Global,
    scale: &Option<Whole>,
    number: &Whole,
) -> Result<Whole, AllocError>
    ensures { IfOk result (λ z. z ≡ spec.scaled scale.now number.now) }
{
    match scale {
        None => Whole::zero(alloc).plus(number),
        Some(by) => number.times(alloc, by),
    }
}

/// With one term more, where its name may have a term.
fn with_term(mut terms: Items<Term>, term: Term) -> Result<Items<Term>, AllocError>
    ensures sums { IfOk result (λ r. (w : Name) → spec.coefficient w r ≡ spec.coefficient w terms +ℤ spec.at_name term.name term.number w) }
    ensures apart { IfOk result (λ r. spec.AreApart terms → spec.AreApart r) }
{
    match position(terms.as_slice(), term.name.as_str()) {
        None => {
            terms.push(term)?;
            Ok(terms)
        }
        Some(i) => {
            let Term { name, number } = term;
            let number = number.plus(&terms.as_slice()[i].number)?;
            terms.set(i, Term { name, number });
            Ok(terms)
        }
    }
}

/// With other terms, each times a scale.
pub(crate) fn with_terms(
    alloc: Global,
    mut terms: Items<Term>,
    mut more: Items<Term>,
    scale: &Option<Whole>,
) -> Result<Items<Term>, AllocError>
    ensures sums { IfOk result (λ r. (w : Name) → spec.coefficient w r ≡ spec.coefficient w terms +ℤ spec.scaled scale.now (spec.coefficient w more)) }
    ensures apart { IfOk result (λ r. spec.AreApart terms → spec.AreApart r) }
{
    while let Some(term) = more.pop() {
        let Term { name, number } = term;
        let number = scaled(alloc, scale, &number)?;
        terms = with_term(terms, Term { name, number })?;
    }
    Ok(terms)
}

/// With one term more behind the others, times a number.
fn with_product(
    alloc: Global,
    mut made: Items<Term>,
    term: Term,
    by: &Whole,
) -> Result<Items<Term>, AllocError>
    ensures { IfOk result (λ r. r ≡ made ++ (record { name = term.name; number = term.number *ℤ by.now }) ∷ []) }
{
    let Term { name, number } = term;
    let number = number.times(alloc, by)?;
    made.push(Term { name, number })?;
    Ok(made)
}

/// Terms, each times a number.
pub(crate) fn all_times(
    alloc: Global,
    mut terms: Items<Term>,
    by: &Whole,
) -> Result<Items<Term>, AllocError>
    ensures sums { IfOk result (λ r. (w : Name) → spec.coefficient w r ≡ spec.coefficient w terms *ℤ by.now) }
    ensures apart { IfOk result (λ r. spec.AreApart terms → spec.AreApart r) }
{
    let mut made = Items::new(alloc);
    while let Some(term) = terms.pop() {
        made = with_product(alloc, made, term, by)?;
    }
    Ok(made)
}
