//! The leaves of a tree.
ghost use Rattle.std.specs.Prelude.{◌≡◌, ◌+◌, ◌≤◌, ◌++◌, ◌∷◌, [], map, OnOk, IfOk};
ghost use Rattle.affc_nest.specs.Divisions.{division_rows};
ghost use Rattle.affc_quast.specs.Leaves.{leaves_of, negated};
ghost use Rattle.affc_quast.specs.Limits.{Shaped, FitsTree, widest};
ghost use Rattle.affc_quast.specs.Seen.{seen};
ghost use Rattle.affc_quast.specs.SeenLeaves.{division_seen, named_seen, leaf_seen, under, ending};
ghost use Rattle.affc_quast.specs.Trees.{divisions_of};
ghost use Rattle.affc_nest.specs.Wide.{IsWide};

use crate::quast::Quast;
use affc_nest::Division;
use affc_nest::divisions::add_division;
use affc_nest::lists::copied;
use affc_rows::Form;
use sqlite_items::Items;
use std::alloc::{AllocError, Global};

/// An instance of a part, with a form for each of its coordinates.
#[derive(Drop)]
pub struct Named {
    pub part: u32,
    pub forms: Items<Form>,
}

/// A leaf: its columns, the rows of the tests and divisions above it, each over the columns where it stands, those
/// divisions from the outermost, and the instance that it names.
#[derive(Drop)]
pub struct Leaf {
    pub columns: u32,
    pub rows: Items<Form>,
    pub divisions: Items<Division>,
    pub named: Option<Named>,
}

/// Adds copies of divisions.
fn add_divisions(divisions: &[Division], out: &mut Items<Division>) -> Result<(), AllocError>
    ensures { OnOk result (map division_seen out.new ≡ map division_seen out.old ++ map division_seen divisions.now) }
{
    match divisions {
        [] => Ok(()),
        [division, rest @ ..] => {
            out.push(Division {
                form: division.form.clone()?,
                by: division.by,
            })?;
            add_divisions(rest, out)
        }
    }
}

/// The divisions and one more.
fn with_division(
    alloc: Global,
    divisions: &[Division],
    form: &Form,
    by: i64,
) -> Result<Items<Division>, AllocError>
    ensures { IfOk result (λ d. map division_seen d ≡ map division_seen divisions.now ++ (form.now, by) ∷ []) }
{
    let mut out = Items::new(alloc);
    add_divisions(divisions, &mut out)?;
    out.push(Division {
        form: form.clone()?,
        by,
    })?;
    Ok(out)
}

/// Adds the leaf at the end of a path.
fn add_leaf(
    alloc: Global,
    columns: u32,
    rows: &[Form],
    divisions: &[Division],
    named: Option<Named>,
    out: &mut Vec<Leaf>,
) -> Result<(), AllocError>
    ensures { OnOk result (map leaf_seen out.new.items ≡ map leaf_seen out.old.items ++ under rows.now (map division_seen divisions.now) (ending columns (named_seen named)) ∷ []) }
{
    let rows = copied(alloc, rows)?;
    let mut all = Items::new(alloc);
    add_divisions(divisions, &mut all)?;
    out.push(Leaf {
        columns,
        rows,
        divisions: all,
        named,
    })?;
    Ok(())
}

/// The rows and the row of a test.
fn with_test(alloc: Global, rows: &[Form], form: &Form) -> Result<Items<Form>, AllocError>
    ensures { IfOk result (λ r. r ≡ rows.now ++ form.now ∷ []) }
{
    let mut out = copied(alloc, rows)?;
    out.push(form.clone()?)?;
    Ok(out)
}

/// The rows and the row that a test fails.
fn with_failed(
    alloc: Global,
    columns: u32,
    rows: &[Form],
    form: &Form,
) -> Result<Items<Form>, AllocError>
    requires { IsWide columns form.now }
    ensures { IfOk result (λ r. r ≡ rows.now ++ negated form.now ∷ []) }
{
    let mut out = copied(alloc, rows)?;
    out.push(negated(alloc, columns, form)?)?;
    Ok(out)
}

/// The rows and those of a division.
fn with_quotient(
    alloc: Global,
    columns: u32,
    rows: &[Form],
    form: &Form,
    by: i64,
) -> Result<Items<Form>, AllocError>
    requires form { IsWide columns form.now }
    requires room { columns ≤ 1000 }
    ensures { IfOk result (λ r. r ≡ rows.now ++ division_rows columns form.now by) }
{
    let mut out = copied(alloc, rows)?;
    add_division(alloc, columns, form, by, &mut out)?;
    Ok(out)
}

/// Copies of forms.
fn forms_of(alloc: Global, part: u32, forms: &[Form]) -> Result<Named, AllocError>
    ensures { IfOk result (λ n. n ≡ record { part = part; forms = forms.now }) }
{
    Ok(Named {
        part,
        forms: copied(alloc, forms)?,
    })
}

/// Adds the leaves of a tree over so many columns, at the end of a path.
fn add_leaves(
    alloc: Global,
    columns: u32,
    tree: &Quast,
    rows: &[Form],
    divisions: &[Division],
    out: &mut Vec<Leaf>,
) -> Result<(), AllocError>
    requires shaped { Shaped columns (seen tree.now) }
    requires fits { FitsTree widest (seen tree.now) }
    requires room { columns + divisions_of (seen tree.now) ≤ 1000 }
    ensures { OnOk result (map leaf_seen out.new.items ≡ map leaf_seen out.old.items ++ map (under rows.now (map division_seen divisions.now)) (leaves_of columns (seen tree.now))) }
{
    match tree {
        Quast::Test { form, yes, no } => {
            let on = with_test(alloc, rows, form)?;
            add_leaves(alloc, columns, yes, on.as_slice(), divisions, out)?;
            let off = with_failed(alloc, columns, rows, form)?;
            add_leaves(alloc, columns, no, off.as_slice(), divisions, out)?;
            Ok(())
        }
        Quast::Div { form, by, rest } => {
            let path = with_quotient(alloc, columns, rows, form, *by)?;
            let all = with_division(alloc, divisions, form, *by)?;
            let more = columns + 1;
            add_leaves(alloc, more, rest, path.as_slice(), all.as_slice(), out)?;
            Ok(())
        }
        Quast::Source { part, forms } => {
            let named = forms_of(alloc, *part, forms.as_slice())?;
            add_leaf(alloc, columns, rows, divisions, Some(named), out)
        }
        Quast::Input => add_leaf(alloc, columns, rows, divisions, None, out),
    }
}

/// The leaves of a tree over so many columns, in order.
pub fn leaves(alloc: Global, columns: u32, tree: &Quast) -> Result<Vec<Leaf>, AllocError>
    requires shaped { Shaped columns (seen tree.now) }
    requires fits { FitsTree widest (seen tree.now) }
    requires room { columns + divisions_of (seen tree.now) ≤ 1000 }
    ensures { IfOk result (λ v. map leaf_seen v.items ≡ leaves_of columns (seen tree.now)) }
{
    let mut out = Vec::new(alloc);
    add_leaves(alloc, columns, tree, &[], &[], &mut out)?;
    Ok(out)
}

/// The row that says that a form is below 0.
pub fn negated(alloc: Global, columns: u32, form: &Form) -> Result<Form, AllocError>
    requires { IsWide columns form.now }
    ensures { IfOk result (λ f. f ≡ negated form.now) }
{
    let zero = Form::number(alloc, columns, 0)?;
    Form::gap(alloc, form, &zero, 1)
}
