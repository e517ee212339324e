//! The components of places, as they are printed.
ghost use Rattle.std.specs.Prelude.{◌≡◌, ◌≤◌, ◌+◌, ◌++◌, ◌&&◌, pos, length, replicate, IfOk};
ghost use Rattle.std.specs.Cmp.Lexicographic.{pointwise};
ghost use Rattle.std.specs.List.{All};
ghost use Rattle.std.specs.Ordering.{int_eq};
ghost use Rattle.affc_rows.specs.Forms.{composed_form};
ghost use Rattle.affc_basis.specs.Folds.{forms_of};
ghost use Rattle.affc_ast.specs.declared.tree.Ix.TheVariants as made_trees;
ghost use Rattle.affc_rewrite.specs.Rewrite as specs;
ghost use Rattle.affc_rewrite.specs.Sizes.{IsRow, IsPrintable, IsAccess};

use affc_ast::Items;
use affc_ast::tree::Ix;
use affc_basis::Modulus;
use affc_loops::terms::form_ix;
use affc_loops::terms::trees::modulo;
use affc_rows::Form;
use std::alloc::{AllocError, Global};

/// The subscripts of an access as forms over the names in sight, of which the parameters are the first.
#[derive(Clone, Copy, Drop)]
pub(crate) struct Access<'a> {
    pub parameters: u32,
    pub names: u32,
    pub forms: &'a [Form],
}

/// Whether two forms are the same.
pub(crate) fn same(f: &Form, g: &Form) -> bool
    ensures { result ≡ specs.same_form f.now g.now }
{
    f.constant == g.constant && f.coefs.as_slice() == g.coefs.as_slice()
}

fn are_zero(coefs: &[i128]) -> bool
    ensures { result ≡ pointwise int_eq coefs.now (replicate (length coefs.now) (pos 0)) }
{
    match coefs {
        [] => true,
        [c, rest @ ..] => *c == 0 && are_zero(rest),
    }
}

/// Whether a form is the constant 1.
fn is_one(f: &Form) -> bool
    ensures { result ≡ specs.is_one f.now }
{
    f.constant == 1 && are_zero(f.coefs.as_slice())
}

/// Whether a row over so many dimensions is the `k`-th unit row.
pub(crate) fn is_unit(
    alloc: Global,
    dimensions: u32,
    k: u32,
    row: &Form,
) -> Result<bool, AllocError>
    requires { length row.now.coefs ≡ dimensions }
    ensures { IfOk result (λ b. b ≡ specs.is_unit k row.now) }
{
    let unit = Form::column(alloc, dimensions, k)?;
    Ok(same(row, &unit))
}

/// A form over so many names, of which the parameters are the first, as an expression.
#[tactic(auto, using(crate::proofs::Modest::printable_modest))]
pub(crate) fn printed(
    alloc: Global,
    parameters: u32,
    names: u32,
    f: &Form,
) -> Result<Ix, AllocError>
    requires behind { parameters ≤ names }
    requires form { IsPrintable names f.now }
    ensures { IfOk result (λ e. e ≡ specs.printed parameters f.now) }
{
    form_ix(alloc, parameters, parameters, f)
}

/// A row of the subscripts.
fn along(alloc: Global, row: &Form, access: &Access<'_>) -> Result<Form, AllocError>
    requires access { IsAccess access.now }
    requires row { IsRow (length access.now.forms.now) row.now }
    ensures value { IfOk result (λ f. f ≡ composed_form row.now access.now.forms.now) }
    ensures printable { IfOk result (λ f. IsPrintable access.now.names f) }
{
    row.at_images(alloc, access.names, access.forms)
}

/// The remainder of a row of the subscripts by the modulus.
fn remainder(
    alloc: Global,
    access: &Access<'_>,
    row: &Form,
    modulus: &Form,
) -> Result<Ix, AllocError>
    requires access { IsAccess access.now }
    requires row { IsRow (length access.now.forms.now) row.now }
    requires modulus { IsPrintable access.now.parameters modulus.now }
    ensures { IfOk result (λ e. e ≡ made_trees.Mod (specs.printed access.now.parameters (composed_form row.now access.now.forms.now)) (specs.printed access.now.parameters modulus.now)) }
{
    let form = along(alloc, row, access)?;
    let left = printed(alloc, access.parameters, access.names, &form)?;
    let right = printed(alloc, access.parameters, access.parameters, modulus)?;
    modulo(alloc, left, right)
}

/// Whether the source's own subscript stands for component `k`.
fn is_own(
    alloc: Global,
    dimensions: u32,
    k: u32,
    row: &Form,
    modulus: &Form,
    extent: &Form,
) -> Result<bool, AllocError>
    requires { length row.now.coefs ≡ dimensions }
    ensures { IfOk result (λ b. b ≡ (specs.is_unit k row.now && specs.same_form modulus.now extent.now)) }
{
    Ok(is_unit(alloc, dimensions, k, row)? && same(modulus, extent))
}

/// Component `k` of the place of an access.
fn component(
    alloc: Global,
    access: &Access<'_>,
    k: u32,
    row: &Form,
    modulus: &Form,
    extent: &Form,
    own: &Ix,
) -> Result<Ix, AllocError>
    requires access { IsAccess access.now }
    requires row { IsRow (length access.now.forms.now) row.now }
    requires modulus { IsPrintable access.now.parameters modulus.now }
    ensures { IfOk result (λ e. e ≡ specs.component access.now.parameters access.now.forms.now k row.now modulus.now extent.now own.now) }
{
    if is_one(modulus) {
        return Ok(Ix::Lit(0));
    }
    if is_own(alloc, access.forms.len() as u32, k, row, modulus, extent)? {
        return own.to_owned(alloc);
    }
    remainder(alloc, access, row, modulus)
}

/// Adds the components from row `k` on.
#[tactic(auto, using(crate::proofs::Steps::one_more_component))]
pub(crate) fn add_components(
    alloc: Global,
    access: &Access<'_>,
    k: u32,
    rows: &[Form],
    moduli: &[Modulus],
    extents: &[Form],
    own: &[Ix],
    made: Items<Ix>,
) -> Result<Items<Ix>, AllocError>
    requires access { IsAccess access.now }
    requires rows { All (IsRow (length access.now.forms.now)) rows.now }
    requires moduli { All (IsPrintable access.now.parameters) (forms_of moduli.now) }
    requires few { k + length rows.now ≤ 4 }
    ensures { IfOk result (λ x. x ≡ made ++ specs.components_from access.now.parameters access.now.forms.now k rows.now (forms_of moduli.now) extents.now own.now) }
{
    let mut made = made;
    match rows {
        [] => Ok(made),
        [row, rows @ ..] => match moduli {
            [] => Ok(made),
            [modulus, moduli @ ..] => match extents {
                [] => Ok(made),
                [extent, extents @ ..] => match own {
                    [] => Ok(made),
                    [e, own @ ..] => {
                        made.push(component(alloc, access, k, row, &modulus.form, extent, e)?)?;
                        add_components(alloc, access, k + 1, rows, moduli, extents, own, made)
                    }
                },
            },
        },
    }
}
