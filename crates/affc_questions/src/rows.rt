//! Rows of comparisons between forms.
ghost use Rattle.std.specs.Prelude.{◌≡◌, ◌≤◌, ◌++◌, ◌∷◌, [], pos, negsuc, IfOk, OnOk};
ghost use Rattle.std.specs.List.{All};
ghost use Rattle.affc_rows.specs.Forms.{mixed_form};
ghost use Rattle.affc_ast.specs.declared.tree.Rel.TheVariants.{Equal};
ghost use Rattle.affc_nest.specs.Domains.{gap_row, compare_rows, number_form};
ghost use Rattle.affc_sched.specs.Questions.{equal_rows};
ghost use Rattle.affc_nest.specs.Wide.{IsWide};

use affc_nest::lists::{add_equal_rows, add_gap_row};
use affc_rows::Form;
use sqlite_items::Items;
use std::alloc::{AllocError, Global};

/// A number as a form.
fn word(alloc: Global, columns: u32, n: i64) -> Result<Form, AllocError>
    ensures value { IfOk result (λ f. f ≡ number_form columns n) }
    ensures wide { IfOk result (λ f. IsWide columns f) }
{
    Form::number(alloc, columns, i128::from(n))
}

/// One form less another.
#[tactic(auto, using(affc_nest::proofs::WideLemmas::not_too_wide))]
pub(crate) fn minus(alloc: Global, columns: u32, a: &Form, b: &Form) -> Result<Form, AllocError>
    requires first { IsWide columns a.now }
    requires second { IsWide columns b.now }
    ensures { IfOk result (λ f. f ≡ mixed_form (pos 1) a.now (negsuc 0) b.now) }
{
    Form::mixture(alloc, 1, a, -1, b)
}

/// Adds the row that a form is at least a number.
pub(crate) fn add_at_least(
    alloc: Global,
    columns: u32,
    form: &Form,
    low: i64,
    out: &mut Items<Form>,
) -> Result<(), AllocError>
    requires { IsWide columns form.now }
    ensures { OnOk result (out.new ≡ out.old ++ gap_row (number_form columns low) form.now 0 ∷ []) }
{
    let low = word(alloc, columns, low)?;
    add_gap_row(alloc, columns, &low, form, 0, out)
}

/// Adds the row that a form is at most a number.
pub(crate) fn add_at_most(
    alloc: Global,
    columns: u32,
    form: &Form,
    high: i64,
    out: &mut Items<Form>,
) -> Result<(), AllocError>
    requires { IsWide columns form.now }
    ensures { OnOk result (out.new ≡ out.old ++ gap_row form.now (number_form columns high) 0 ∷ []) }
{
    let high = word(alloc, columns, high)?;
    add_gap_row(alloc, columns, form, &high, 0, out)
}

/// Adds the rows that a form is 0.
pub(crate) fn add_zero(
    alloc: Global,
    columns: u32,
    form: &Form,
    out: &mut Items<Form>,
) -> Result<(), AllocError>
    requires { IsWide columns form.now }
    ensures { OnOk result (out.new ≡ out.old ++ compare_rows Equal form.now (number_form columns (pos 0))) }
{
    let zero = word(alloc, columns, 0)?;
    add_equal_rows(alloc, columns, form, &zero, out)
}

/// Adds the rows that forms are equal in turn.
#[tactic(auto, using(affc_nest::proofs::WideLemmas::added_twice))]
pub(crate) fn add_equals(
    alloc: Global,
    columns: u32,
    fs: &[Form],
    gs: &[Form],
    out: &mut Items<Form>,
) -> Result<(), AllocError>
    requires firsts { All (IsWide columns) fs.now }
    requires seconds { All (IsWide columns) gs.now }
    ensures { OnOk result (out.new ≡ out.old ++ equal_rows fs.now gs.now) }
{
    match fs {
        [] => Ok(()),
        [f, more_fs @ ..] => match gs {
            [] => Ok(()),
            [g, more_gs @ ..] => {
                add_equal_rows(alloc, columns, f, g, out)?;
                add_equals(alloc, columns, more_fs, more_gs, out)
            }
        },
    }
}
