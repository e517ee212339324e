//! What an expression is made of, and expressions by their operator.
ghost use Rattle.std.specs.Prelude.{◌≡◌, IfOk};
ghost use Rattle.affc_scan.specs.Operators.{with_one, with_two, shown};

use affc_ast::tree::{Ix, NameId};
use affc_loops::terms::trees::{add, ceild, floord, max, min, modulo, mul, neg, sub};
use std::alloc::{AllocError, Global};

/// An operator before one expression.
#[derive(Clone, Copy)]
pub(crate) enum Unary {
    Opposite,
    Floor(i64),
    Ceiling(i64),
}

/// An operator between two expressions.
#[derive(Clone, Copy)]
pub(crate) enum Binary {
    Sum,
    Difference,
    Product,
    Least,
    Greatest,
    Remainder,
}

/// What an expression is made of.
#[derive(Clone, Copy)]
pub(crate) enum Shape<'a> {
    Number(i64),
    Name(NameId),
    One(Unary, &'a Ix),
    Two(Binary, &'a Ix, &'a Ix),
}

/// What an expression is made of.
pub(crate) fn shape_of(e: &Ix) -> Shape<'_>
    ensures { e.now ≡ shown result }
{
    match e {
        Ix::Lit(n) => Shape::Number(*n),
        Ix::Name(id) => Shape::Name(*id),
        Ix::Neg(a) => Shape::One(Unary::Opposite, a.get()),
        Ix::Floord(a, n) => Shape::One(Unary::Floor(*n), a.get()),
        Ix::Ceild(a, n) => Shape::One(Unary::Ceiling(*n), a.get()),
        Ix::Add(a, b) => Shape::Two(Binary::Sum, a.get(), b.get()),
        Ix::Sub(a, b) => Shape::Two(Binary::Difference, a.get(), b.get()),
        Ix::Mul(a, b) => Shape::Two(Binary::Product, a.get(), b.get()),
        Ix::Min(a, b) => Shape::Two(Binary::Least, a.get(), b.get()),
        Ix::Max(a, b) => Shape::Two(Binary::Greatest, a.get(), b.get()),
        Ix::Mod(a, b) => Shape::Two(Binary::Remainder, a.get(), b.get()),
    }
}

/// The expression with an operator before one expression.
pub(crate) fn with_one(alloc: Global, operator: Unary, a: Ix) -> Result<Ix, AllocError>
    ensures { IfOk result (λ x. x ≡ with_one operator a) }
{
    match operator {
        Unary::Opposite => neg(alloc, a),
        Unary::Floor(n) => floord(alloc, a, n),
        Unary::Ceiling(n) => ceild(alloc, a, n),
    }
}

/// The expression with an operator between two expressions.
pub(crate) fn with_two(alloc: Global, operator: Binary, a: Ix, b: Ix) -> Result<Ix, AllocError>
    ensures { IfOk result (λ x. x ≡ with_two operator a b) }
{
    match operator {
        Binary::Sum => add(alloc, a, b),
        Binary::Difference => sub(alloc, a, b),
        Binary::Product => mul(alloc, a, b),
        Binary::Least => min(alloc, a, b),
        Binary::Greatest => max(alloc, a, b),
        Binary::Remainder => modulo(alloc, a, b),
    }
}
