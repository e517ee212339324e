//! Forms at the columns of a question.
ghost use Rattle.std.specs.Prelude.{◌≡◌, ◌+◌, ◌≤◌, ◌++◌, length, map, IfOk, OnOk};
ghost use Rattle.std.specs.List.{All};
ghost use Rattle.affc_trace.specs.Inverses.{columns_from};
ghost use Rattle.affc_nest.specs.Sides.{IsSide};
ghost use Rattle.affc_order.specs.Spread.{spread};

use affc_rows::Form;
use std::alloc::{AllocError, Global};

/// So many columns from one on, each as a form.
#[tactic(auto, using(crate::proofs::CodeLemmas::one_column_more))]
pub fn columns_from(
    alloc: Global,
    columns: u32,
    first: u32,
    n: u32,
) -> Result<Vec<Form>, AllocError>
    requires { first + n ≤ 1000 }
    ensures value { IfOk result (λ v. v.items ≡ columns_from columns first n) }
    ensures long { IfOk result (λ v. length v.items ≡ n) }
    ensures sides { IfOk result (λ v. All (IsSide columns) v.items) }
{
    let mut made = Vec::new(alloc);
    for i in 0..n {
        made.push(Form::column(alloc, columns, first + i)?)?;
    }
    Ok(made)
}

/// The form with so many columns more between its parameters and its iterators, and so many behind.
#[inline]
pub fn spread(
    alloc: Global,
    form: &Form,
    params: u32,
    between: u32,
    behind: u32,
) -> Result<Form, AllocError>
    requires { params ≤ length form.now.coefs }
    ensures { IfOk result (λ f. f ≡ spread params between behind form.now) }
{
    form.spread(alloc, params, between, behind)
}

/// Adds forms, each spread.
pub fn add_spread(
    alloc: Global,
    forms: &[Form],
    params: u32,
    between: u32,
    behind: u32,
    out: &mut Vec<Form>,
) -> Result<(), AllocError>
    requires { All (λ f. params ≤ length f.coefs) forms.now }
    ensures { OnOk result (out.new.items ≡ out.old.items ++ map (spread params between behind) forms.now) }
{
    match forms {
        [] => Ok(()),
        [form, rest @ ..] => {
            out.push(form.spread(alloc, params, between, behind)?)?;
            add_spread(alloc, rest, params, between, behind, out)
        }
    }
}
