//! Coefficients of names.

ghost use Rattle.std.specs.Prelude.{◌≡◌, ◌+ℤ◌, ◌-ℤ◌, ◌*ℤ◌, ◌≤◌, ◌↔◌, pos, neg_ℤ, nat_abs, nat_lt, true, IfOk};
ghost use Rattle.affc_grammar.specs.Grammar.{Name};
ghost use Rattle.affc_limits.specs.Terms as spec;
ghost use Rattle.affc_limits.specs.Coefficients.{number_of};

use crate::terms::{Coefficients, Term, all_times, scaled, with_terms};
use crate::whole::Whole;
use affc_ast::Items;
use affc_ast::text::Text;
use std::alloc::{AllocError, Global};

/// The magnitude of the scale, cut off at 2^32.
fn size_of(scale: &Option<Whole>) -> u128
    ensures size { result ≡ spec.size_of scale.now }
    ensures within { result ≤ 4294967296 }
{
    match scale {
        None => 1,
        Some(by) => by.capped().unsigned_abs(),
    }
}

/// Whether a number times this size is above 2^16 in magnitude.
fn is_large(size: u128, number: &Whole) -> bool
    requires { size ≤ 4294967296 }
    ensures { result ≡ spec.is_large_by size number.now }
{
    65536 < number.capped().unsigned_abs() * size
}

fn any_large(scale: &Option<Whole>, terms: &[Term]) -> bool
    ensures { result ≡ spec.any_large_by (spec.size_of scale.now) terms.now }
{
    let size = size_of(scale);
    for term in terms {
        if is_large(size, &term.number) {
            return true;
        }
    }
    false
}

impl Coefficients {
    pub fn none(alloc: Global) -> Coefficients
        ensures { (w : Name) → number_of result w ≡ pos 0 }
    {
        Coefficients {
            scale: None,
            terms: Items::new(alloc),
        }
    }

    /// One at this name, and nothing at the others.
    pub fn one(alloc: Global, name: &str) -> Result<Coefficients, AllocError>
        ensures { IfOk result (λ c. (w : Name) → number_of c w ≡ spec.at_name name.now (pos 1) w) }
    {
        let name = Text::from_str(alloc, name)?;
        let number = Whole::from_u64(alloc, 1)?;
        let mut terms = Items::new(alloc);
        terms.push(Term { name, number })?;
        Ok(Coefficients { scale: None, terms })
    }

    /// Each times a number.
    pub fn times(self, alloc: Global, by: &Whole) -> Result<Coefficients, AllocError>
        ensures { IfOk result (λ c. (w : Name) → number_of c w ≡ number_of self w *ℤ by.now) }
    {
        if self.terms.is_empty() {
            return Ok(self);
        }
        let Coefficients { scale, terms } = self;
        let scale = Some(scaled(alloc, &scale, by)?);
        Ok(Coefficients { scale, terms })
    }

    pub fn opposites(self, alloc: Global) -> Result<Coefficients, AllocError>
        ensures { IfOk result (λ c. (w : Name) → number_of c w ≡ neg_ℤ (number_of self w)) }
    {
        let one = Whole::from_u64(alloc, 1)?;
        let minus = one.opposite(alloc)?;
        self.times(alloc, &minus)
    }

    /// The same, with the scale 1.
    fn spread(self, alloc: Global) -> Result<Items<Term>, AllocError>
        ensures same { IfOk result (λ r. (w : Name) → spec.coefficient w r ≡ number_of self w) }
        ensures apart { IfOk result spec.AreApart }
    {
        let Coefficients { scale, terms } = self;
        match scale {
            None => Ok(terms),
            Some(by) => all_times(alloc, terms, &by),
        }
    }

    /// Terms, and those of another one by one.
    fn joined(
        alloc: Global,
        own: Items<Term>,
        other: Coefficients,
    ) -> Result<Coefficients, AllocError>
        requires { spec.AreApart own }
        ensures { IfOk result (λ c. (w : Name) → number_of c w ≡ spec.coefficient w own +ℤ number_of other w) }
    {
        let Coefficients { scale, terms } = other;
        let terms = with_terms(alloc, own, terms, &scale)?;
        Ok(Coefficients { scale: None, terms })
    }

    /// Those of another one by one, of which there may be none.
    fn with(self, alloc: Global, other: Coefficients) -> Result<Coefficients, AllocError>
        ensures { IfOk result (λ c. (w : Name) → number_of c w ≡ number_of self w +ℤ number_of other w) }
    {
        if other.terms.is_empty() {
            Ok(self)
        } else {
            self.with_each(alloc, other)
        }
    }

    /// Those of another one by one.
    fn with_each(self, alloc: Global, other: Coefficients) -> Result<Coefficients, AllocError>
        ensures { IfOk result (λ c. (w : Name) → number_of c w ≡ number_of self w +ℤ number_of other w) }
    {
        let own = self.spread(alloc)?;
        Coefficients::joined(alloc, own, other)
    }

    /// The sums.
    pub fn plus(self, alloc: Global, other: Coefficients) -> Result<Coefficients, AllocError>
        ensures { IfOk result (λ c. (w : Name) → number_of c w ≡ number_of self w +ℤ number_of other w) }
    {
        if self.terms.len() < other.terms.len() {
            other.with(alloc, self)
        } else {
            self.with(alloc, other)
        }
    }

    /// The differences.
    pub fn minus(self, alloc: Global, other: Coefficients) -> Result<Coefficients, AllocError>
        ensures { IfOk result (λ c. (w : Name) → number_of c w ≡ number_of self w -ℤ number_of other w) }
    {
        let opposites = other.opposites(alloc)?;
        self.plus(alloc, opposites)
    }

    /// The sums of these and others, each of them times a number of its own.
    pub fn cross(
        self,
        alloc: Global,
        by: &Whole,
        other: Coefficients,
        by_other: &Whole,
    ) -> Result<Coefficients, AllocError>
        ensures { IfOk result (λ c. (w : Name) → number_of c w ≡ (number_of self w *ℤ by.now) +ℤ (number_of other w *ℤ by_other.now)) }
    {
        let own = self.times(alloc, by)?;
        let more = other.times(alloc, by_other)?;
        own.plus(alloc, more)
    }

    /// Whether one is above 2^16 in magnitude.
    pub fn has_large(&self) -> bool
        ensures { (result ≡ true) ↔ ((w : Name) × (nat_lt 65536 (nat_abs (number_of self.now w)) ≡ true)) }
    {
        any_large(&self.scale, self.terms.as_slice())
    }
}
