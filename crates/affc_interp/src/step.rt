//! The outermost operator of an expression: its first operand, and what is done with that.
ghost use Rattle.std.specs.Prelude.{MatchOption};
ghost use Rattle.affc_interp.specs.Steps.{IsAtom, IsStep};

use affc_ast::tree::Ix;

/// An operator between two expressions.
#[derive(Clone, Copy)]
pub(crate) enum Join {
    Sum,
    Difference,
    Product,
    Least,
    Greatest,
    Remainder,
}

/// An operator, and what stands on its right.
#[derive(Clone, Copy)]
pub(crate) enum Step<'a> {
    Opposite,
    Floor(i64),
    Ceiling(i64),
    Joined(Join, &'a Ix),
}

/// What is done last in an expression, and with what.
pub(crate) fn last_step(e: &Ix) -> Option<(&Ix, Step<'_>)>
    ensures { MatchOption result (IsAtom e.now) (λ r. IsStep e.now r.0.now r.1) }
{
    match e {
        Ix::Lit(_) | Ix::Name(_) => None,
        Ix::Neg(a) => Some((a.get(), Step::Opposite)),
        Ix::Floord(a, n) => Some((a.get(), Step::Floor(*n))),
        Ix::Ceild(a, n) => Some((a.get(), Step::Ceiling(*n))),
        Ix::Add(a, b) => Some((a.get(), Step::Joined(Join::Sum, b.get()))),
        Ix::Sub(a, b) => Some((a.get(), Step::Joined(Join::Difference, b.get()))),
        Ix::Mul(a, b) => Some((a.get(), Step::Joined(Join::Product, b.get()))),
        Ix::Min(a, b) => Some((a.get(), Step::Joined(Join::Least, b.get()))),
        Ix::Max(a, b) => Some((a.get(), Step::Joined(Join::Greatest, b.get()))),
        Ix::Mod(a, b) => Some((a.get(), Step::Joined(Join::Remainder, b.get()))),
    }
}
