//! Tests of whether one row says all that another says, each beside what is known of it.
ghost use Rattle.std.specs.Prelude.{◌≡◌, ◌↔◌, Bool, false, length, IsTrue};
ghost use Rattle.std.specs.Bool.{Decides};
ghost use Rattle.std.specs.Fn.{FnReturnsAtPair};
ghost use Rattle.affc_rows.specs.Forms.{Affine};
ghost use Rattle.affc_eliminate.specs.Points.{Implies};
ghost use Rattle.affc_eliminate.specs.Screens.{TakesForms, ImpliesWhereTrue, HasSameSlope};

use affc_rows::Form;

/// What answers yes or no of two forms: each function of two forms, and each closure.
pub trait Test: Drop {
    /// Of which forms it may be asked.
    ghost takes: { Self → Affine → Affine → Type 0 };

    /// What it may answer.
    ghost answers: { Self → Affine → Affine → Bool → Type 0 };

    fn at(&self, kept: &Form, other: &Form) -> bool
        requires { takes self.now kept.now other.now }
        ensures { answers self.now kept.now other.now result };
}

impl<F: Fn(&Form, &Form) -> bool> Test for F {
    ghost takes = { λ f kept other. (first second : _) → first.now ≡ kept → second.now ≡ other → F.pre f first second };

    ghost answers = { FnReturnsAtPair F.Fn };

    fn at(&self, kept: &Form, other: &Form) -> bool {
        self(kept, other)
    }
}

/// A stored test of two forms over the same columns: where it answers true, the first form implies the second.
#[derive(Drop)]
pub struct Screen<F: Test> {
    pub test: F,
    ghost takes: { ∥ TakesForms (F.takes test) ∥₁ },
    ghost implies: { ImpliesWhereTrue (F.answers test) },
}

impl<F: Test> Screen<F> {
    pub fn new(test: F) -> Screen<F>
        requires takes { TakesForms (F.takes test) }
        requires implies { ImpliesWhereTrue (F.answers test) }
        ensures { result.test ≡ test }
    {
        Screen { test }
    }

    /// That the test may be asked is kept.
    fn kept(&self)
        ensures { TakesForms (F.takes self.now.test) }
    {}

    /// The stored test's answer; where it is true, the first form implies the second.
    pub fn implies(&self, kept: &Form, other: &Form) -> bool
        requires { length kept.now.coefs ≡ length other.now.coefs }
        ensures answer { F.answers self.now.test kept.now other.now result }
        ensures implies { IsTrue result → Implies kept.now other.now }
    {
        self.kept();
        self.test.at(kept, other)
    }
}

/// Whether the numbers are the same.
fn same_numbers(first: &[i128], second: &[i128]) -> bool
    ensures { Decides result (first.now ≡ second.now) }
{
    first == second
}

/// Equal coefficients, and the kept constant is at most the other's.
pub fn same_slope(kept: &Form, other: &Form) -> bool
    ensures { IsTrue result ↔ HasSameSlope kept.now other.now }
{
    kept.constant <= other.constant && same_numbers(kept.coefs.as_slice(), other.coefs.as_slice())
}

/// No form implies another.
pub fn never(_kept: &Form, _other: &Form) -> bool
    ensures { result ≡ false }
{
    false
}
