//! The path to a leaf of a tree: a leaf that names nothing yet. What is put behind it is taken from it again.
ghost use Rattle.std.specs.Prelude.{◌≡◌, ◌+◌, ◌≤◌, OnOk};
ghost use Rattle.affc_nest.specs.Wide.{IsWide};
ghost use Rattle.affc_life.specs.Paths.{at_root, with_row, IsDivided, LosesRow, LosesDivision};

use affc_nest::Division;
use affc_nest::divisions::add_division;
use affc_quast::leaves::Leaf;
use affc_rows::Form;
use sqlite_items::Items;
use std::alloc::{AllocError, Global};

/// The path to the root of a tree over so many columns.
pub fn root(alloc: Global, columns: u32) -> Leaf
    ensures { result ≡ at_root columns }
{
    Leaf {
        columns,
        rows: Items::new(alloc),
        divisions: Items::new(alloc),
        named: None,
    }
}

/// Puts a row behind a path.
pub fn add_row(path: &mut Leaf, row: Form) -> Result<(), AllocError>
    ensures { OnOk result (path.new ≡ with_row path.old row) }
{
    path.rows.push(row)?;
    Ok(())
}

/// Puts a copy of a row behind a path.
pub fn add_copy(path: &mut Leaf, row: &Form) -> Result<(), AllocError>
    ensures { OnOk result (path.new ≡ with_row path.old row.now) }
{
    add_row(path, row.clone()?)
}

/// Takes the last row from a path.
pub fn drop_row(path: &mut Leaf)
    ensures { LosesRow path.old path.new }
{
    let _row = path.rows.pop();
}

/// Puts a division behind a path.
pub fn divide(alloc: Global, path: &mut Leaf, form: &Form, by: i64) -> Result<(), AllocError>
    requires form { IsWide path.old.columns form.now }
    requires room { path.old.columns + 1 ≤ 1000 }
    ensures { OnOk result (IsDivided path.old form.now by path.new) }
{
    add_division(alloc, path.columns, form, by, &mut path.rows)?;
    path.divisions.push(Division {
        form: form.clone()?,
        by,
    })?;
    path.columns += 1;
    Ok(())
}

/// Takes the last division from a path.
pub fn undivide(path: &mut Leaf)
    requires { 1 ≤ path.old.columns }
    ensures { LosesDivision path.old path.new }
{
    path.columns -= 1;
    let _division = path.divisions.pop();
    let _high = path.rows.pop();
    let _low = path.rows.pop();
}
