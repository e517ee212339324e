//! Comparisons of forms in turn, as lists of rows.
ghost use Rattle.std.specs.Prelude.{◌≡◌, ℕ, List, ◌++◌, ◌∷◌, [], map, IfOk, OnOk};
ghost use Rattle.std.specs.List.{All};
ghost use Rattle.affc_rows.specs.Forms.{Affine};
ghost use Rattle.affc_ast.specs.declared.tree.Rel.TheVariants.{Less, Equal};
ghost use Rattle.affc_nest.specs.Domains.{compare_rows};
ghost use Rattle.affc_nest.specs.Wide.{IsWide};
ghost use Rattle.affc_order.specs.Systems.{lex_systems, rows_in};

use affc_nest::lists::{add_equal_rows, add_gap_row, copied};
use affc_rows::Form;
use sqlite_items::Items;
use std::alloc::{AllocError, Global};

/// Adds the rows of a tie, where it decides.
fn add_tie(
    alloc: Global,
    equal: &[Form],
    tie: bool,
    out: &mut Vec<Items<Form>>,
) -> Result<(), AllocError>
    ensures { (columns : ℕ) → (fs gs : List Affine) → OnOk result (out.new.items ≡ out.old.items ++ map rows_in (lex_systems columns 0 fs gs equal.now tie)) }
{
    if tie {
        out.push(copied(alloc, equal)?)?;
    }
    Ok(())
}

/// Adds, behind these rows, those that one form is less than another; and answers those that both are equal.
fn add_pair(
    alloc: Global,
    columns: u32,
    f: &Form,
    g: &Form,
    equal: &[Form],
    out: &mut Vec<Items<Form>>,
) -> Result<Items<Form>, AllocError>
    requires first { IsWide columns f.now }
    requires second { IsWide columns g.now }
    ensures less { OnOk result (out.new.items ≡ out.old.items ++ (equal.now ++ compare_rows Less f.now g.now) ∷ []) }
    ensures both { IfOk result (λ r. r ≡ equal.now ++ compare_rows Equal f.now g.now) }
{
    let mut less = copied(alloc, equal)?;
    add_gap_row(alloc, columns, f, g, 1, &mut less)?;
    out.push(less)?;
    let mut both = copied(alloc, equal)?;
    add_equal_rows(alloc, columns, f, g, &mut both)?;
    Ok(both)
}

/// Adds the rows of a comparison of forms in turn: behind these rows, one list for each pair of forms, and one for the
/// tie where it decides.
pub fn add_lex(
    alloc: Global,
    columns: u32,
    n: usize,
    fs: &[Form],
    gs: &[Form],
    equal: &[Form],
    tie: bool,
    out: &mut Vec<Items<Form>>,
) -> Result<(), AllocError>
    requires firsts { All (IsWide columns) fs.now }
    requires seconds { All (IsWide columns) gs.now }
    ensures { OnOk result (out.new.items ≡ out.old.items ++ map rows_in (lex_systems columns n fs.now gs.now equal.now tie)) }
{
    if n == 0 {
        return add_tie(alloc, equal, tie, out);
    }
    match fs {
        [] => Ok(()),
        [f, later_fs @ ..] => match gs {
            [] => Ok(()),
            [g, later_gs @ ..] => {
                let both = add_pair(alloc, columns, f, g, equal, out)?;
                add_lex(
                    alloc,
                    columns,
                    n - 1,
                    later_fs,
                    later_gs,
                    both.as_slice(),
                    tie,
                    out,
                )
            }
        },
    }
}
