//! The factors of drafts: between two orders, two elements differ.
ghost use Rattle.std.specs.Prelude.{◌≡◌, ◌++◌, ◌∷◌, [], IfOk, OnOk};
ghost use Rattle.std.specs.List.{All};
ghost use Rattle.affc_life.specs.Clashes.{apart_rows, differing};
ghost use Rattle.affc_nest.specs.Wide.{IsWide};

use affc_nest::lists::{add_equal_rows, add_gap_row, copied};
use affc_rows::Form;
use sqlite_items::Items;
use std::alloc::{AllocError, Global};

/// Adds the lists of rows that say, behind these rows, that two lists of forms differ.
fn add_apart(
    alloc: Global,
    columns: u32,
    fs: &[Form],
    gs: &[Form],
    rows: &[Form],
    out: &mut Items<Items<Form>>,
) -> Result<(), AllocError>
    requires firsts { All (IsWide columns) fs.now }
    requires seconds { All (IsWide columns) gs.now }
    ensures { OnOk result (out.new ≡ out.old ++ apart_rows fs.now gs.now rows.now) }
{
    match fs {
        [] => Ok(()),
        [f, later_fs @ ..] => match gs {
            [] => Ok(()),
            [g, later_gs @ ..] => {
                let mut less = copied(alloc, rows)?;
                add_gap_row(alloc, columns, f, g, 1, &mut less)?;
                out.push(less)?;
                let mut greater = copied(alloc, rows)?;
                add_gap_row(alloc, columns, g, f, 1, &mut greater)?;
                out.push(greater)?;
                let mut equal = copied(alloc, rows)?;
                add_equal_rows(alloc, columns, f, g, &mut equal)?;
                add_apart(alloc, columns, later_fs, later_gs, equal.as_slice(), out)
            }
        },
    }
}

/// The three factors of a draft: these orders, these, and that two lists of forms differ, if they have to.
pub(crate) fn factors_between(
    alloc: Global,
    columns: u32,
    differ: bool,
    after: Vec<Items<Form>>,
    before: Vec<Items<Form>>,
    fs: &[Form],
    gs: &[Form],
) -> Result<Items<Items<Items<Form>>>, AllocError>
    requires firsts { All (IsWide columns) fs.now }
    requires seconds { All (IsWide columns) gs.now }
    ensures { IfOk result (λ factors. factors ≡ after.items ∷ before.items ∷ differing differ fs.now gs.now [] ∷ []) }
{
    let start = Items::new(alloc);
    let mut apart = Items::new(alloc);
    if differ {
        add_apart(alloc, columns, fs, gs, start.as_slice(), &mut apart)?;
    } else {
        apart.push(start)?;
    }
    let mut factors = Items::new(alloc);
    factors.push(Items::from_vec(after))?;
    factors.push(Items::from_vec(before))?;
    factors.push(apart)?;
    Ok(factors)
}
