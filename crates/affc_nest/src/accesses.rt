//! Accesses and extents as forms.
ghost use Rattle.std.specs.Prelude.{◌≡◌, ◌++◌, map, IsTrue, IfOk, OnOk};
ghost use Rattle.affc_ast.specs.Meaning.{arrays_of};
ghost use Rattle.affc_domain.specs.Accesses.{accesses_in};
ghost use Rattle.affc_domain.specs.Affine.{form_of};
ghost use Rattle.affc_domain.specs.Plain.{all_plain, plain_decls, plain_ranges};
ghost use Rattle.affc_domain.specs.Ranges.{number_ranges};
ghost use Rattle.affc_nest.specs.Nests.{access_form, array_of};
ghost use Rattle.affc_nest.specs.Touches.{all_touched, AllPlain};

use crate::forms::form_over;
use crate::nest::{Access, ArrayInfo};
use affc_ast::tree::{ArrayId, Decl, Ix, Param, Val};
use affc_rows::Form;
use affc_system::BoxOf;
use sqlite_items::Items;
use std::alloc::{AllocError, Global};

/// An array and its subscripts.
#[derive(Clone, Copy, Drop)]
pub(crate) struct Touch<'a> {
    pub array: ArrayId,
    pub subs: &'a [Ix],
}

/// Adds the forms of plain expressions over so many names.
fn add_forms(
    alloc: Global,
    names: u32,
    es: &[Ix],
    forms: &mut Items<Form>,
) -> Result<(), AllocError>
    requires { IsTrue (all_plain names es.now) }
    ensures { OnOk result (forms.new ≡ forms.old ++ map (form_of names 0) es.now) }
{
    match es {
        [] => Ok(()),
        [e, rest @ ..] => {
            forms.push(form_over(alloc, names, 0, e)?)?;
            add_forms(alloc, names, rest, forms)
        }
    }
}

/// The forms of plain expressions over so many names.
fn forms_of(alloc: Global, names: u32, es: &[Ix]) -> Result<Items<Form>, AllocError>
    requires { IsTrue (all_plain names es.now) }
    ensures { IfOk result (λ fs. fs ≡ map (form_of names 0) es.now) }
{
    let mut forms = Items::new(alloc);
    add_forms(alloc, names, es, &mut forms)?;
    Ok(forms)
}

/// Adds the loads of a value, in the order of the text.
#[tactic(auto, using(affc_ast::proofs::Outs::val_outs, crate::proofs::RowLemmas::added_twice))]
pub(crate) fn add_loads<'a>(value: &'a Val, out: &mut Vec<Touch<'a>>) -> Result<(), AllocError>
    ensures { OnOk result (all_touched out.new.items ≡ all_touched out.old.items ++ accesses_in value.now) }
{
    match value {
        Val::Load { array, subs } => {
            out.push(Touch {
                array: *array,
                subs: subs.as_slice(),
            })?;
            Ok(())
        }
        Val::Const(_) => Ok(()),
        Val::Cast(_) => Ok(()),
        Val::Not(of) => add_loads(of.get(), out),
        Val::Bin { op: _, left, right } => {
            add_loads(left.get(), out)?;
            add_loads(right.get(), out)?;
            Ok(())
        }
        Val::Shift {
            left: _,
            value,
            by: _,
        } => add_loads(value.get(), out),
    }
}

/// Adds accesses as forms over so many columns.
pub(crate) fn add_accesses(
    alloc: Global,
    columns: u32,
    touches: &[Touch<'_>],
    out: &mut Items<Access>,
) -> Result<(), AllocError>
    requires { AllPlain columns (all_touched touches.now) }
    ensures { OnOk result (out.new ≡ out.old ++ map (access_form columns) (all_touched touches.now)) }
{
    match touches {
        [] => Ok(()),
        [touch, rest @ ..] => {
            let subs = forms_of(alloc, columns, touch.subs)?;
            out.push(Access {
                array: touch.array,
                subs,
            })?;
            add_accesses(alloc, columns, rest, out)
        }
    }
}

/// Adds arrays, with their extents over so many parameters.
pub(crate) fn add_arrays(
    alloc: Global,
    params: u32,
    decls: &[Decl],
    out: &mut Items<ArrayInfo>,
) -> Result<(), AllocError>
    requires { IsTrue (plain_decls params decls.now) }
    ensures { OnOk result (out.new ≡ out.old ++ map (array_of params) decls.now) }
{
    match decls {
        [] => Ok(()),
        [decl, rest @ ..] => {
            let extents = forms_of(alloc, params, decl.extents.as_slice())?;
            out.push(ArrayInfo {
                role: decl.role,
                extents,
            })?;
            add_arrays(alloc, params, rest, out)
        }
    }
}

/// Adds the array parameters, with their extents over so many number parameters.
pub(crate) fn add_array_params(
    alloc: Global,
    numbers: u32,
    params: &[Param],
    out: &mut Items<ArrayInfo>,
) -> Result<(), AllocError>
    requires { IsTrue (plain_decls numbers (arrays_of params.now)) }
    ensures { OnOk result (out.new ≡ out.old ++ map (array_of numbers) (arrays_of params.now)) }
{
    match params {
        [] => Ok(()),
        [param, rest @ ..] => match param {
            Param::Number { .. } => add_array_params(alloc, numbers, rest, out),
            Param::Array(decl) => {
                let extents = forms_of(alloc, numbers, decl.extents.as_slice())?;
                out.push(ArrayInfo {
                    role: decl.role,
                    extents,
                })?;
                add_array_params(alloc, numbers, rest, out)
            }
        },
    }
}

/// Adds the declared ranges of the number parameters.
pub(crate) fn add_numbers(params: &[Param], out: &mut BoxOf) -> Result<(), AllocError>
    requires { IsTrue (plain_ranges (number_ranges params.now)) }
    ensures { OnOk result (out.new ≡ out.old ++ number_ranges params.now) }
{
    match params {
        [] => Ok(()),
        [param, rest @ ..] => match param {
            Param::Number { name: _, low, high } => {
                out.push(*low, *high)?;
                add_numbers(rest, out)
            }
            Param::Array(_) => add_numbers(rest, out),
        },
    }
}
