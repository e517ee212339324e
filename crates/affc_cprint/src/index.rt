//! Whole-number expressions.
ghost use Rattle.std.specs.Prelude.{◌≡◌, OnOk, string_bytes, slice_get, unwrap_or, map, [], decimal as digits_of};
ghost use Rattle.affc_ast.specs.Recursion.{by_ix};
ghost use Rattle.affc_grammar.specs.Printed.{ix_step, number_name};
ghost use Rattle.affc_cprint.specs.Adds.{Adds};
ghost use Rattle.std.specs.List.{flat_map};
ghost use Rattle.affc_cprint.specs.Statements.{dim_added};
ghost use Rattle.affc_cprint.specs.Seen.{seen};
ghost use Rattle.affc_cprint.specs.Places.{ix_at, opened, closed, bracketed, is_inside, is_factor, is_negated, divides, negated_layout, sum_layout, product_layout, called, quotient_layout};

use crate::brackets::{Place, is_divided};
use affc_ast::tree::{Ix, NameId};
use std::alloc::AllocError;

pub fn push(out: &mut String, text: &str) -> Result<(), AllocError>
    ensures { OnOk result (Adds (string_bytes out.old) (string_bytes out.new) text.now) }
{
    out.push_str(text)
}

// A bracket, where it is wanted.
pub fn open(out: &mut String, wanted: bool) -> Result<(), AllocError>
    ensures { OnOk result (Adds (string_bytes out.old) (string_bytes out.new) (opened wanted)) }
{
    if wanted { push(out, "(") } else { Ok(()) }
}

pub fn close(out: &mut String, wanted: bool) -> Result<(), AllocError>
    ensures { OnOk result (Adds (string_bytes out.old) (string_bytes out.new) (closed wanted)) }
{
    if wanted { push(out, ")") } else { Ok(()) }
}

// The name of this number; nothing where there is none.
pub fn name_of<'a>(names: &[&'a str], id: u32) -> &'a str
    ensures { result.now ≡ unwrap_or (slice_get (map (λ w. w.now) names.now) id) [] }
{
    match names.get(id as usize) {
        Some(name) => *name,
        None => "",
    }
}

pub fn decimal(out: &mut String, n: u64) -> Result<(), AllocError>
    ensures { OnOk result (Adds (string_bytes out.old) (string_bytes out.new) (digits_of n)) }
{
    write!(out, "{n}")
}

// The names that are visible, by their numbers.
#[derive(Drop)]
pub struct Names<'a> {
    pub numbers: Vec<&'a str>,
    pub arrays: Vec<&'a str>,
}

fn number(out: &mut String, names: &Names<'_>, id: NameId) -> Result<(), AllocError>
    ensures { OnOk result (Adds (string_bytes out.old) (string_bytes out.new) (number_name (seen names.now) id)) }
{
    push(out, name_of(names.numbers.as_slice(), id.0))
}

/// An expression where it stands. The recursion goes through the functions of one operator each.
#[cycle(ix)]
#[tactic(auto, using(crate::proofs::Places::at_places))]
pub fn ix(
    out: &mut String,
    prelude: bool,
    names: &Names<'_>,
    e: &Ix,
    place: Place,
) -> Result<(), AllocError>
    ensures { OnOk result (Adds (string_bytes out.old) (string_bytes out.new) (ix_at place (by_ix (ix_step prelude (seen names.now)) e.now))) }
{
    match e {
        Ix::Lit(n) => decimal(out, n.unsigned_abs()),
        Ix::Name(id) => number(out, names, *id),
        Ix::Neg(a) => opposite(out, prelude, names, a.get(), place),
        Ix::Add(a, b) => sum(out, prelude, names, a.get(), " + ", b.get(), place),
        Ix::Sub(a, b) => sum(out, prelude, names, a.get(), " - ", b.get(), place),
        Ix::Mul(a, b) => product(out, prelude, names, a.get(), b.get(), place),
        Ix::Min(a, b) => call(out, prelude, names, "affc_min(", a.get(), b.get(), place),
        Ix::Max(a, b) => call(out, prelude, names, "affc_max(", a.get(), b.get(), place),
        Ix::Mod(a, b) => call(out, prelude, names, "affc_mod(", a.get(), b.get(), place),
        Ix::Floord(a, by) => quotient(out, prelude, names, "affc_floord(", a.get(), *by, place),
        Ix::Ceild(a, by) => quotient(out, prelude, names, "affc_ceild(", a.get(), *by, place),
    }
}

/// A minus and what stands under it.
#[cycle(ix)]
fn opposite(
    out: &mut String,
    prelude: bool,
    names: &Names<'_>,
    a: &Ix,
    place: Place,
) -> Result<(), AllocError>
    ensures { OnOk result (Adds (string_bytes out.old) (string_bytes out.new) (bracketed (is_inside place) (negated_layout (by_ix (ix_step prelude (seen names.now)) a.now)))) }
{
    let wanted = place.is_inside();
    open(out, wanted)?;
    push(out, "-")?;
    ix(out, prelude, names, a, Place::UnderMinus)?;
    close(out, wanted)
}

/// A sum or a difference.
#[cycle(ix)]
fn sum(
    out: &mut String,
    prelude: bool,
    names: &Names<'_>,
    a: &Ix,
    mark: &str,
    b: &Ix,
    place: Place,
) -> Result<(), AllocError>
    ensures { OnOk result (Adds (string_bytes out.old) (string_bytes out.new) (bracketed (is_inside place) (sum_layout (by_ix (ix_step prelude (seen names.now)) a.now) mark.now (by_ix (ix_step prelude (seen names.now)) b.now)))) }
{
    let wanted = place.is_inside();
    open(out, wanted)?;
    ix(out, prelude, names, a, Place::Whole)?;
    push(out, mark)?;
    ix(out, prelude, names, b, Place::RightOfSum)?;
    close(out, wanted)
}

/// A product.
#[cycle(ix)]
fn product(
    out: &mut String,
    prelude: bool,
    names: &Names<'_>,
    a: &Ix,
    b: &Ix,
    place: Place,
) -> Result<(), AllocError>
    ensures { OnOk result (Adds (string_bytes out.old) (string_bytes out.new) (bracketed (is_factor place) (product_layout (by_ix (ix_step prelude (seen names.now)) a.now) (by_ix (ix_step prelude (seen names.now)) b.now)))) }
{
    let wanted = place.is_factor();
    open(out, wanted)?;
    ix(out, prelude, names, a, Place::LeftOfProduct)?;
    push(out, " * ")?;
    ix(out, prelude, names, b, Place::RightOfProduct)?;
    close(out, wanted)
}

/// A call of two expressions, which is written with the prelude only.
#[cycle(ix)]
fn call(
    out: &mut String,
    prelude: bool,
    names: &Names<'_>,
    word: &str,
    a: &Ix,
    b: &Ix,
    place: Place,
) -> Result<(), AllocError>
    ensures { OnOk result (Adds (string_bytes out.old) (string_bytes out.new) (called prelude (is_negated place) word.now (by_ix (ix_step prelude (seen names.now)) a.now) (by_ix (ix_step prelude (seen names.now)) b.now))) }
{
    if !prelude {
        return push(out, "0");
    }
    let wanted = place.is_negated();
    open(out, wanted)?;
    push(out, word)?;
    ix(out, prelude, names, a, Place::Whole)?;
    push(out, ", ")?;
    ix(out, prelude, names, b, Place::Whole)?;
    push(out, ")")?;
    close(out, wanted)
}

/// A quotient, which is written with the prelude only, and by no other number than one that divides.
#[cycle(ix)]
fn quotient(
    out: &mut String,
    prelude: bool,
    names: &Names<'_>,
    word: &str,
    a: &Ix,
    by: i64,
    place: Place,
) -> Result<(), AllocError>
    ensures { OnOk result (Adds (string_bytes out.old) (string_bytes out.new) (quotient_layout (divides prelude by) (is_negated place) word.now (by_ix (ix_step prelude (seen names.now)) a.now) by)) }
{
    if !is_divided(prelude, by) {
        return push(out, "0");
    }
    let wanted = place.is_negated();
    open(out, wanted)?;
    push(out, word)?;
    ix(out, prelude, names, a, Place::Whole)?;
    push(out, ", ")?;
    decimal(out, by.unsigned_abs())?;
    push(out, ")")?;
    close(out, wanted)
}

// Subscripts or extents, each in its brackets.
pub fn dims(
    out: &mut String,
    prelude: bool,
    names: &Names<'_>,
    subs: &[Ix],
) -> Result<(), AllocError>
    ensures { OnOk result (Adds (string_bytes out.old) (string_bytes out.new) (flat_map (dim_added prelude (seen names.now)) subs.now)) }
{
    for e in subs {
        push(out, "[")?;
        ix(out, prelude, names, e, Place::Whole)?;
        push(out, "]")?;
    }
    Ok(())
}
