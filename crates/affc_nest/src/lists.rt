//! Rows behind any number of others: copies, and comparisons.
ghost use Rattle.std.specs.Prelude.{◌≡◌, ◌≤◌, ◌++◌, ◌∷◌, [], IfOk, OnOk};
ghost use Rattle.affc_ast.specs.declared.tree.Rel.TheVariants.{Equal};
ghost use Rattle.affc_nest.specs.Domains.{compare_rows, gap_row};
ghost use Rattle.affc_nest.specs.Wide.{IsWide};

use affc_rows::Form;
use affc_rows::vocabulary::copies;
use sqlite_items::Items;
use std::alloc::{AllocError, Global};

/// Adds copies of rows.
pub fn add_copies(rows: &[Form], out: &mut Items<Form>) -> Result<(), AllocError>
    ensures { OnOk result (out.new ≡ out.old ++ rows.now) }
{
    match rows {
        [] => Ok(()),
        [row, rest @ ..] => {
            out.push(row.clone()?)?;
            add_copies(rest, out)
        }
    }
}

/// A copy of rows.
pub fn copied(alloc: Global, rows: &[Form]) -> Result<Items<Form>, AllocError>
    ensures { IfOk result (λ r. r ≡ rows.now) }
{
    Ok(Items::from_vec(copies(alloc, rows)?))
}

/// Adds the row `b - a - k`.
#[tactic(auto, using(crate::proofs::WideLemmas::not_too_wide))]
pub fn add_gap_row(
    alloc: Global,
    columns: u32,
    a: &Form,
    b: &Form,
    k: u32,
    out: &mut Items<Form>,
) -> Result<(), AllocError>
    requires first { IsWide columns a.now }
    requires second { IsWide columns b.now }
    requires step { k ≤ 1 }
    ensures { OnOk result (out.new ≡ out.old ++ gap_row a.now b.now k ∷ []) }
{
    out.push(Form::gap(alloc, a, b, k)?)
}

/// Adds the rows that two forms are equal.
#[tactic(auto, using(crate::proofs::WideLemmas::added_twice))]
pub fn add_equal_rows(
    alloc: Global,
    columns: u32,
    a: &Form,
    b: &Form,
    out: &mut Items<Form>,
) -> Result<(), AllocError>
    requires first { IsWide columns a.now }
    requires second { IsWide columns b.now }
    ensures { OnOk result (out.new ≡ out.old ++ compare_rows Equal a.now b.now) }
{
    add_gap_row(alloc, columns, b, a, 0, out)?;
    add_gap_row(alloc, columns, a, b, 0, out)
}
