//! What no clause says: programs that are well named, and one for each reason why one isn't.
use affc_ast::text::Text;
use affc_ast::tree::{Decl, Ix, NameId, Param, Program, Role};
use affc_ast::{Boxed, Items};
use affc_wellnamed::well_named;
use std::alloc::{AllocError, Global};
use std::test::Fail;

/// A function that does nothing, of a number `N` from -1 to this and an array `out` with this extent.
fn idle(alloc: Global, name: &str, high: i64, extent: Ix) -> Result<Program, AllocError> {
    let mut params = Items::new(alloc);
    let number = Text::from_str(alloc, "N")?;
    params.push(Param::Number {
        name: number,
        low: -1,
        high,
    })?;
    let mut extents = Items::new(alloc);
    extents.push(extent)?;
    let array = Text::from_str(alloc, "out")?;
    params.push(Param::Array(Decl {
        name: array,
        role: Role::Output,
        extents,
    }))?;
    let name = Text::from_str(alloc, name)?;
    Ok(Program {
        name,
        params,
        context: Items::new(alloc),
        temps: Items::new(alloc),
        body: Items::new(alloc),
        prelude: false,
    })
}

fn number() -> Ix {
    Ix::Name(NameId(0))
}

fn product(alloc: Global, a: Ix, b: Ix) -> Result<Ix, AllocError> {
    let left = Boxed::new(alloc, a)?;
    let right = Boxed::new(alloc, b)?;
    Ok(Ix::Mul(left, right))
}

/// `-(-(.. N))`, with so many signs.
fn under_signs(alloc: Global, times: u32) -> Result<Ix, AllocError> {
    let mut inner = number();
    for _ in 0..times {
        inner = Ix::Neg(Boxed::new(alloc, inner)?);
    }
    Ok(inner)
}

/// Whether such a function is well named.
fn is_well_named(alloc: Global, name: &str, high: i64, extent: Ix) -> Result<bool, AllocError> {
    let program = idle(alloc, name, high, extent)?;
    Ok(well_named(&program))
}

#[test]
fn one_for_each_reason(rt: HostRuntime) -> Result<(), Fail> {
    let alloc = rt.alloc();
    assert!(rt; is_well_named(alloc, "f", 4, number())?);
    // a reserved name
    assert!(rt; !is_well_named(alloc, "static", 4, number())?);
    // a product of names
    let square = product(alloc, number(), number())?;
    assert!(rt; !is_well_named(alloc, "f", 4, square)?);
    // a range past the limit
    assert!(rt; !is_well_named(alloc, "f", 16777217, number())?);
    // brackets past the limit
    let deep = under_signs(alloc, 258)?;
    assert!(rt; !is_well_named(alloc, "f", 4, deep)?);
    Ok(())
}
