//! Forms within the limits of systems, and where they don't keep them.
ghost use Rattle.std.specs.Prelude.{◌≡◌, ◌≤◌, ◌++◌, [], length, map, IsTrue, IfOk, OnOk};
ghost use Rattle.affc_rows.specs.Forms.{HaveColumns};
ghost use Rattle.affc_nest.specs.Domains.{gap_row};
ghost use Rattle.affc_order.specs.Posed.{form_at};
ghost use Rattle.affc_quast.specs.Leaves.{padded};

use affc_rows::{Form, FormFault};
use affc_system::RowFault;
use sqlite_items::Items;
use std::alloc::{AllocError, Global};
use thiserror::Error;

/// Why questions aren't listed.
#[derive(Debug, Clone, Copy, PartialEq, Eq, Error)]
pub enum Unasked {
    #[error("a question passes the limits of systems")]
    Large,
    #[error("out of memory")]
    Memory,
}

impl From<AllocError> for Unasked {
    fn from(_e: AllocError) -> Unasked {
        Unasked::Memory
    }
}

impl From<FormFault> for Unasked {
    fn from(fault: FormFault) -> Unasked {
        match fault {
            FormFault::Range => Unasked::Large,
            FormFault::Memory => Unasked::Memory,
        }
    }
}

impl From<RowFault> for Unasked {
    fn from(fault: RowFault) -> Unasked {
        match fault {
            RowFault::Range => Unasked::Large,
            RowFault::Full => Unasked::Large,
            RowFault::Memory => Unasked::Memory,
        }
    }
}

/// A number of things.
pub fn count(n: usize) -> Result<u32, Unasked>
    ensures value { IfOk result (λ k. k ≡ n) }
    ensures few { OnOk result (n ≤ 128) }
{
    if n > 128 {
        return Err(Unasked::Large);
    }
    Ok(n as u32)
}

/// The row `b - a - k`.
pub fn gap(alloc: Global, a: &Form, b: &Form, k: u32) -> Result<Form, Unasked>
    ensures { IfOk result (λ f. f ≡ gap_row a.now b.now k) }
{
    if a.coefs.len() != b.coefs.len() {
        return Err(Unasked::Large);
    }
    let Form { coefs, constant } = b.scale_add(alloc, 1, a, -1)?;
    match constant.checked_sub(i128::from(k)) {
        None => Err(Unasked::Large),
        Some(constant) => Ok(Form { coefs, constant }),
    }
}

/// Whether each form has so many columns.
pub fn have_columns(columns: u32, forms: &[Form]) -> bool
    ensures { IsTrue result → HaveColumns columns forms.now }
{
    match forms {
        [] => true,
        [form, rest @ ..] => {
            if form.coefs.len() == columns as usize {
                have_columns(columns, rest)
            } else {
                false
            }
        }
    }
}

/// A form without columns, over so many.
#[tactic(auto, using(crate::proofs::ImageLemmas::constant_at))]
fn constant_form(alloc: Global, columns: u32, form: &Form) -> Result<Form, AllocError>
    requires { length form.now.coefs ≡ 0 }
    ensures { IfOk result (λ f. f ≡ form_at columns [] form.now) }
{
    form.spread(alloc, 0, 0, columns)
}

/// A form with each column replaced by its image.
pub fn at_images(alloc: Global, columns: u32, images: &[Form], form: &Form) -> Result<Form, Unasked>
    ensures { IfOk result (λ f. f ≡ form_at columns images.now form.now) }
{
    if images.len() != form.coefs.len() {
        return Err(Unasked::Large);
    }
    if !have_columns(columns, images) {
        return Err(Unasked::Large);
    }
    if images.is_empty() {
        return Ok(constant_form(alloc, columns, form)?);
    }
    Ok(form.compose(alloc, images)?)
}

/// A form over more columns.
fn padded(alloc: Global, columns: u32, form: &Form) -> Result<Form, Unasked>
    ensures { IfOk result (λ f. f ≡ padded columns form.now) }
{
    if form.coefs.len() > columns as usize {
        return Err(Unasked::Large);
    }
    Ok(form.padded(alloc, columns)?)
}

/// Adds forms, over more columns.
pub fn add_padded(
    alloc: Global,
    columns: u32,
    forms: &[Form],
    out: &mut Items<Form>,
) -> Result<(), Unasked>
    ensures { OnOk result (out.new ≡ out.old ++ map (padded columns) forms.now) }
{
    match forms {
        [] => Ok(()),
        [form, rest @ ..] => {
            out.push(padded(alloc, columns, form)?)?;
            add_padded(alloc, columns, rest, out)
        }
    }
}
