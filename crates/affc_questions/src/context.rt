//! Questions on a modulus over the context.
ghost use Rattle.std.specs.Prelude.{◌≡◌, ◌+◌, ◌^◌, ◌≤◌, ◌++◌, pos, unsigned_abs, length, IfOk, OnOk};
ghost use Rattle.std.specs.List.{All};
ghost use Rattle.affc_rows.specs.Forms.{value};
ghost use Rattle.affc_system.specs.Systems.{IsRow};
ghost use Rattle.affc_ast.specs.declared.tree.Rel.TheVariants.{Equal};
ghost use Rattle.affc_basis.specs.Moduli.{IsModulus};
ghost use Rattle.affc_conflicts.specs.Questions.{positive_question, greater_question};
ghost use Rattle.affc_nest.specs.Asked.{IsNest};
ghost use Rattle.affc_nest.specs.Domains.{range_rows, box_rows, compare_rows, number_form};
ghost use Rattle.affc_nest.specs.Questions.{whole_context};
ghost use Rattle.affc_nest.specs.Wide.{IsWide};

use crate::long::Long;
use crate::rows::{add_at_least, add_at_most};
use affc_nest::Nest;
use affc_nest::lists::{add_copies, add_equal_rows, add_gap_row};
use affc_rows::Form;
use affc_system::system::value_at;
use sqlite_items::Items;
use std::alloc::{AllocError, Global};

/// Adds the rows that a column is in a range.
fn add_range(
    alloc: Global,
    columns: u32,
    j: u32,
    low: i64,
    high: i64,
    out: &mut Items<Form>,
) -> Result<(), AllocError>
    ensures { OnOk result (out.new ≡ out.old ++ range_rows columns j (low, high)) }
{
    let at = Form::column(alloc, columns, j)?;
    add_at_least(alloc, columns, &at, low, out)?;
    add_at_most(alloc, columns, &at, high, out)
}

/// Adds the rows that the columns from `j` on are in their ranges.
fn add_box(
    alloc: Global,
    columns: u32,
    j: u32,
    ranges: &[(i64, i64)],
    out: &mut Items<Form>,
) -> Result<(), AllocError>
    requires { j + length ranges.now ≤ 128 }
    ensures { OnOk result (out.new ≡ out.old ++ box_rows columns j ranges.now) }
{
    match ranges {
        [] => Ok(()),
        [range, rest @ ..] => {
            add_range(alloc, columns, j, range.0, range.1, out)?;
            add_box(alloc, columns, j + 1, rest, out)
        }
    }
}

/// The rows of the parameters' ranges and of the context.
fn context_rows(alloc: Global, nest: &Nest) -> Result<Items<Form>, AllocError>
    requires { IsNest nest.now }
    ensures value { IfOk result (λ r. r ≡ box_rows nest.now.context.columns 0 nest.now.params ++ nest.now.context.rows) }
    ensures fit { IfOk result (λ r. All (IsRow nest.now.context.columns) r) }
{
    let mut rows = Items::new(alloc);
    add_box(
        alloc,
        nest.context.columns(),
        0,
        nest.params.ranges(),
        &mut rows,
    )?;
    add_copies(nest.context.rows(), &mut rows)?;
    Ok(rows)
}

/// The context, with the parameters in their ranges.
pub fn whole_context(alloc: Global, nest: &Nest) -> Result<Long, AllocError>
    requires { IsNest nest.now }
    ensures is { IfOk result (λ s. s ≡ whole_context nest.now) }
    ensures columns { IfOk result (λ s. s.columns ≤ 128) }
    ensures rows { IfOk result (λ s. All (IsRow s.columns) s.rows) }
{
    let rows = context_rows(alloc, nest)?;
    Ok(Long::new(nest.context.columns(), rows))
}

/// The question whether a modulus is at most 0 somewhere in the context.
#[tactic(auto, using(crate::proofs::SizeLemmas::modulus_wide))]
pub fn positive_question(alloc: Global, nest: &Nest, modulus: &Form) -> Result<Long, AllocError>
    requires nest { IsNest nest.now }
    requires modulus { IsModulus nest.now.context.columns modulus.now }
    ensures { IfOk result (λ q. q ≡ positive_question nest.now.context nest.now.params modulus.now) }
{
    let columns = nest.context.columns();
    let mut rows = context_rows(alloc, nest)?;
    let zero = Form::number(alloc, columns, 0)?;
    add_gap_row(alloc, columns, modulus, &zero, 0, &mut rows)?;
    Ok(Long::new(columns, rows))
}

/// A number of 64 bits is within 2^63.
fn word_is_near(x: i64)
    ensures { unsigned_abs x ≤ 2 ^ 63 }
{}

/// And each of these is.
fn words_are_near(p: &[i64])
    ensures { All (λ x. unsigned_abs x ≤ 2 ^ 63) p.now }
{
    match p {
        [] => {}
        [x, rest @ ..] => {
            word_is_near(*x);
            words_are_near(rest);
        }
    }
}

/// The value of a modulus at p, as a form.
fn value_form(alloc: Global, columns: u32, modulus: &Form, p: &[i64]) -> Result<Form, AllocError>
    requires few { columns ≤ 128 }
    requires modulus { IsModulus columns modulus.now }
    requires p { length p.now ≡ columns }
    ensures value { IfOk result (λ f. f ≡ number_form columns (value modulus.now p.now)) }
    ensures wide { IfOk result (λ f. IsWide columns f) }
{
    words_are_near(p);
    let value = value_at(modulus, p);
    Form::number(alloc, columns, value)
}

/// The question whether a modulus is greater somewhere in the context than at p.
#[tactic(auto, using(crate::proofs::SizeLemmas::modulus_wide))]
pub fn greater_question(
    alloc: Global,
    nest: &Nest,
    modulus: &Form,
    p: &[i64],
) -> Result<Long, AllocError>
    requires nest { IsNest nest.now }
    requires modulus { IsModulus nest.now.context.columns modulus.now }
    requires p { length p.now ≡ nest.now.context.columns }
    ensures { IfOk result (λ q. q ≡ greater_question nest.now.context nest.now.params modulus.now p.now) }
{
    let columns = nest.context.columns();
    let mut rows = context_rows(alloc, nest)?;
    let value = value_form(alloc, columns, modulus, p)?;
    add_gap_row(alloc, columns, &value, modulus, 1, &mut rows)?;
    Ok(Long::new(columns, rows))
}

/// The system whose points are those at which a modulus is 1.
#[tactic(auto, using(crate::proofs::SizeLemmas::modulus_wide))]
pub fn one_system(alloc: Global, nest: &Nest, modulus: &Form) -> Result<Long, AllocError>
    requires nest { IsNest nest.now }
    requires modulus { IsModulus nest.now.context.columns modulus.now }
    ensures is { IfOk result (λ s. s ≡ record { columns = nest.now.context.columns; rows = compare_rows Equal modulus.now (number_form nest.now.context.columns (pos 1)) }) }
    ensures columns { IfOk result (λ s. s.columns ≤ 128) }
    ensures rows { IfOk result (λ s. All (IsRow s.columns) s.rows) }
{
    let columns = nest.context.columns();
    let one = Form::number(alloc, columns, 1)?;
    let mut rows = Items::new(alloc);
    add_equal_rows(alloc, columns, modulus, &one, &mut rows)?;
    Ok(Long::new(columns, rows))
}
