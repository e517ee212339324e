//! Expressions by their parts.
ghost use Rattle.std.specs.Prelude.{◌≡◌, IfOk};
ghost use Rattle.affc_ast.specs.declared.tree.Ix.TheVariants as trees;

use affc_ast::Boxed;
use affc_ast::tree::Ix;
use std::alloc::{AllocError, Global};

/// The negation.
pub fn neg(alloc: Global, a: Ix) -> Result<Ix, AllocError>
    ensures { IfOk result (λ x. x ≡ trees.Neg a) }
{
    Ok(Ix::Neg(Boxed::new(alloc, a)?))
}

/// The sum.
pub fn add(alloc: Global, a: Ix, b: Ix) -> Result<Ix, AllocError>
    ensures { IfOk result (λ x. x ≡ trees.Add a b) }
{
    let a = Boxed::new(alloc, a)?;
    let b = Boxed::new(alloc, b)?;
    Ok(Ix::Add(a, b))
}

/// The difference.
pub fn sub(alloc: Global, a: Ix, b: Ix) -> Result<Ix, AllocError>
    ensures { IfOk result (λ x. x ≡ trees.Sub a b) }
{
    let a = Boxed::new(alloc, a)?;
    let b = Boxed::new(alloc, b)?;
    Ok(Ix::Sub(a, b))
}

/// The product.
pub fn mul(alloc: Global, a: Ix, b: Ix) -> Result<Ix, AllocError>
    ensures { IfOk result (λ x. x ≡ trees.Mul a b) }
{
    let a = Boxed::new(alloc, a)?;
    let b = Boxed::new(alloc, b)?;
    Ok(Ix::Mul(a, b))
}

/// The lesser of two.
pub fn min(alloc: Global, a: Ix, b: Ix) -> Result<Ix, AllocError>
    ensures { IfOk result (λ x. x ≡ trees.Min a b) }
{
    let a = Boxed::new(alloc, a)?;
    let b = Boxed::new(alloc, b)?;
    Ok(Ix::Min(a, b))
}

/// The greater of two.
pub fn max(alloc: Global, a: Ix, b: Ix) -> Result<Ix, AllocError>
    ensures { IfOk result (λ x. x ≡ trees.Max a b) }
{
    let a = Boxed::new(alloc, a)?;
    let b = Boxed::new(alloc, b)?;
    Ok(Ix::Max(a, b))
}

/// The remainder, which is not negative.
pub fn modulo(alloc: Global, a: Ix, b: Ix) -> Result<Ix, AllocError>
    ensures { IfOk result (λ x. x ≡ trees.Mod a b) }
{
    let a = Boxed::new(alloc, a)?;
    let b = Boxed::new(alloc, b)?;
    Ok(Ix::Mod(a, b))
}

/// The quotient by a number that is at least 1, rounded down.
pub fn floord(alloc: Global, a: Ix, by: i64) -> Result<Ix, AllocError>
    ensures { IfOk result (λ x. x ≡ trees.Floord a by) }
{
    Ok(Ix::Floord(Boxed::new(alloc, a)?, by))
}

/// The quotient by a number that is at least 1, rounded up.
pub fn ceild(alloc: Global, a: Ix, by: i64) -> Result<Ix, AllocError>
    ensures { IfOk result (λ x. x ≡ trees.Ceild a by) }
{
    Ok(Ix::Ceild(Boxed::new(alloc, a)?, by))
}
