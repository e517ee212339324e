//! The maps of statements' lines.

ghost use Rattle.std.specs.Prelude.{◌≡◌, ◌≤◌, ◌++◌, ◌↔◌, IfErr, IfOk, IfSome, IfNone, IsTrue};
ghost use Rattle.affc_rows.specs.Forms.{columns_of, composed_form};
ghost use Rattle.affc_trace.specs.Inverses.{column, columns_from, AreInverse};
ghost use Rattle.affc_schedtext.specs.Answers.{IsFirstLost, IsMapOfLine};
ghost use Rattle.affc_schedtext.specs.Rules as rules;
ghost use Rattle.affc_schedtext.specs.Seen.{line_seen};
ghost use Rattle.affc_plan.specs.Composed.{IsComposable};
ghost use Rattle.affc_plan.specs.Lines.{IsFew};
ghost use Rattle.affc_plan.specs.Maps.{ArePair, IsRightLine, LostIn};

use crate::lists::{forms, statement_sides};
use crate::lost::Lost;
use affc_rows::{Form, FormFault};
use affc_schedtext::draft::LineDraft;
use affc_schedtext::outline::Outline;
use affc_trace::schedule::TimeMap;
use sqlite_items::Items;
use std::alloc::{AllocError, Global};

/// The first so many columns, each as a form.
#[tactic(auto, using(crate::proofs::ColumnForms::one_more))]
fn first_columns(alloc: Global, columns: u32, first: u32) -> Result<Items<Form>, AllocError>
    ensures { IfOk result (λ fs. fs ≡ columns_from columns 0 first) }
{
    let mut made = Items::new(alloc);
    for j in 0..first {
        made.push(Form::column(alloc, columns, j)?)?;
    }
    Ok(made)
}

/// What the columns of inverse forms stand for: the first columns, and then the forms.
fn images(
    alloc: Global,
    columns: u32,
    first: u32,
    forms: &[Form],
) -> Result<Items<Form>, AllocError>
    ensures { IfOk result (λ fs. fs ≡ columns_from columns 0 first ++ forms.now) }
{
    let mut images = first_columns(alloc, columns, first)?;
    for form in forms {
        images.push(form.clone()?)?;
    }
    Ok(images)
}

/// A form with the images put in.
fn composed(alloc: Global, form: &Form, images: &[Form]) -> Result<Form, AllocError>
    requires { IsComposable form.now images.now }
    ensures { IfOk result (λ f. f ≡ composed_form form.now images.now) }
{
    match form.compose(alloc, images) {
        Ok(form) => Ok(form),
        Err(FormFault::Range) => unreachable!(),
        Err(FormFault::Memory) => Err(AllocError),
    }
}

fn same(a: &[i128], b: &[i128]) -> bool
    ensures { IsTrue result ↔ (a.now ≡ b.now) }
{
    a == b
}

/// Whether two forms are the same.
fn is_same(a: &Form, b: &Form) -> bool
    ensures { IsTrue result ↔ ((a.now.constant ≡ b.now.constant) × (a.now.coefs ≡ b.now.coefs)) }
{
    if a.constant != b.constant {
        return false;
    }
    same(a.coefs.as_slice(), b.coefs.as_slice())
}

/// Whether it is the form of a column.
fn is_column(alloc: Global, form: &Form, columns: u32, at: u32) -> Result<bool, AllocError>
    ensures { IfOk result (λ b. IsTrue b ↔ (form.now ≡ column columns at)) }
{
    let unit = Form::column(alloc, columns, at)?;
    Ok(is_same(form, &unit))
}

/// Whether an inverse form with the images put in is a column.
fn gives_column(
    alloc: Global,
    inverse: &Form,
    images: &[Form],
    columns: u32,
    at: u32,
) -> Result<bool, AllocError>
    requires { IsComposable inverse.now images.now }
    ensures { IfOk result (λ b. IsTrue b ↔ (composed_form inverse.now images.now ≡ column columns at)) }
{
    let whole = composed(alloc, inverse, images)?;
    is_column(alloc, &whole, columns, at)
}

/// The first inverse form that, with the forms put in, isn't its column.
fn first_lost(
    alloc: Global,
    columns: u32,
    forms: &[Form],
    inverse: &[Form],
) -> Result<Option<u32>, AllocError>
    requires pair { ArePair forms.now inverse.now }
    requires columns { columns ≡ columns_of forms.now }
    ensures none { IfOk result (λ o. IfNone o (AreInverse forms.now inverse.now)) }
    ensures lost { IfOk result (λ o. IfSome o (IsFirstLost forms.now inverse.now)) }
{
    let first = columns - inverse.len() as u32;
    let images = images(alloc, columns, first, forms)?;
    for k in 0..inverse.len() {
        let at = first + k as u32;
        if !gives_column(alloc, &inverse[k], images.as_slice(), columns, at)? {
            return Ok(Some(k as u32));
        }
    }
    Ok(None)
}

/// The map of a line.
pub fn map_of(
    alloc: Global,
    outline: &Outline,
    components: u64,
    line: &LineDraft,
) -> Result<TimeMap, Lost>
    requires few { IsFew outline.now }
    requires some { 1 ≤ components }
    requires length { components ≤ 12 }
    requires right { IsRightLine outline.now components (line_seen line.now) }
    ensures map { IfOk result (IsMapOfLine (rules.statement_sides outline.now components (line_seen line.now))) }
    ensures lost { IfErr result (LostIn (rules.statement_sides outline.now components (line_seen line.now))) }
{
    let sides = statement_sides(outline, components, line);
    let there = forms(alloc, sides.there, line.forms.as_slice())?;
    let back = forms(alloc, sides.back, line.inverse.as_slice())?;
    match first_lost(alloc, sides.there.count, there.as_slice(), back.as_slice())? {
        Some(component) => Err(Lost::Component(component)),
        None => Ok(TimeMap {
            forms: there,
            inverse: back,
        }),
    }
}
