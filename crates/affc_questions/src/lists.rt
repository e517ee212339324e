//! Lists of rows, and the groups of questions of which they are the last rows.
ghost use Rattle.std.specs.Prelude.{◌≡◌, ◌++◌, ◌∷◌, [], map, flat_map, OnOk};
ghost use Rattle.std.specs.List.{All};
ghost use Rattle.affc_nest.specs.Domains.{gap_row};
ghost use Rattle.affc_quast.specs.Leaves.{negated};
ghost use Rattle.affc_questions.specs.Listed.{asked, asks, sides, joined};
ghost use Rattle.affc_nest.specs.Wide.{IsWide};

use crate::ranged::Ranged;
use affc_nest::lists::add_gap_row;
use affc_products::Group;
use affc_quast::leaves::negated;
use affc_rows::Form;
use affc_system::BoxOf;
use sqlite_items::Items;
use std::alloc::{AllocError, Global};

/// Adds a list of rows.
pub(crate) fn add_list(rows: Items<Form>, out: &mut Vec<Items<Form>>) -> Result<(), AllocError>
    ensures { OnOk result (out.new.items ≡ out.old.items ++ rows ∷ []) }
{
    out.push(rows)?;
    Ok(())
}

/// Adds for each form the row that says that it is below 0.
pub(crate) fn add_below_zero(
    alloc: Global,
    columns: u32,
    forms: &[Form],
    out: &mut Vec<Items<Form>>,
) -> Result<(), AllocError>
    requires { All (IsWide columns) forms.now }
    ensures { OnOk result (out.new.items ≡ out.old.items ++ map (λ f. negated f ∷ []) forms.now) }
{
    match forms {
        [] => Ok(()),
        [form, rest @ ..] => {
            let row = negated(alloc, columns, form)?;
            let mut rows = Items::new(alloc);
            rows.push(row)?;
            add_list(rows, out)?;
            add_below_zero(alloc, columns, rest, out)
        }
    }
}

/// Adds the row that one form is less than another.
fn add_less(
    alloc: Global,
    columns: u32,
    a: &Form,
    b: &Form,
    out: &mut Vec<Items<Form>>,
) -> Result<(), AllocError>
    requires first { IsWide columns a.now }
    requires second { IsWide columns b.now }
    ensures { OnOk result (out.new.items ≡ out.old.items ++ (gap_row a.now b.now 1 ∷ []) ∷ []) }
{
    let mut rows = Items::new(alloc);
    add_gap_row(alloc, columns, a, b, 1, &mut rows)?;
    add_list(rows, out)
}

/// Adds for each two forms in turn the row that the first is greater, and the row that it is less.
pub(crate) fn add_sides(
    alloc: Global,
    columns: u32,
    fs: &[Form],
    gs: &[Form],
    out: &mut Vec<Items<Form>>,
) -> Result<(), AllocError>
    requires firsts { All (IsWide columns) fs.now }
    requires seconds { All (IsWide columns) gs.now }
    ensures { OnOk result (out.new.items ≡ out.old.items ++ sides fs.now gs.now) }
{
    match fs {
        [] => Ok(()),
        [f, more_fs @ ..] => match gs {
            [] => Ok(()),
            [g, more_gs @ ..] => {
                add_less(alloc, columns, g, f, out)?;
                add_less(alloc, columns, f, g, out)?;
                add_sides(alloc, columns, more_fs, more_gs, out)
            }
        },
    }
}

// ---- Groups.

/// Adds a group.
#[tactic(auto, using(crate::proofs::ListedLemmas::asked_more))]
fn add_group(group: Group, behind: BoxOf, out: &mut Vec<Ranged>) -> Result<(), AllocError>
    ensures { OnOk result (flat_map asked out.new.items ≡ flat_map asked out.old.items ++ asked (record { group = group; behind = behind })) }
{
    out.push(Ranged { group, behind })?;
    Ok(())
}

/// Adds the question of these rows, over the columns of a leaf.
pub(crate) fn add_front(
    alloc: Global,
    columns: u32,
    front: Items<Form>,
    out: &mut Vec<Ranged>,
) -> Result<(), AllocError>
    ensures { OnOk result (flat_map asked out.new.items ≡ flat_map asked out.old.items ++ asks columns front [] [] ∷ []) }
{
    let factors = Items::new(alloc);
    let group = Group {
        columns,
        front,
        factors,
    };
    add_group(group, BoxOf::new(alloc), out)
}

/// Adds the questions of these lists behind these rows.
pub(crate) fn add_each(
    alloc: Global,
    columns: u32,
    front: Items<Form>,
    lists: Vec<Items<Form>>,
    behind: BoxOf,
    out: &mut Vec<Ranged>,
) -> Result<(), AllocError>
    ensures { OnOk result (flat_map asked out.new.items ≡ flat_map asked out.old.items ++ map (asks columns front behind) lists.items) }
{
    let mut factors = Items::new(alloc);
    factors.push(Items::from_vec(lists))?;
    let group = Group {
        columns,
        front,
        factors,
    };
    add_group(group, behind, out)
}

/// Adds the questions of each of the second lists behind each of the first, behind these rows.
pub(crate) fn add_joined(
    alloc: Global,
    columns: u32,
    front: Items<Form>,
    firsts: Vec<Items<Form>>,
    seconds: Vec<Items<Form>>,
    behind: BoxOf,
    out: &mut Vec<Ranged>,
) -> Result<(), AllocError>
    ensures { OnOk result (flat_map asked out.new.items ≡ flat_map asked out.old.items ++ map (asks columns front behind) (joined firsts.items seconds.items)) }
{
    let mut factors = Items::new(alloc);
    factors.push(Items::from_vec(firsts))?;
    factors.push(Items::from_vec(seconds))?;
    let group = Group {
        columns,
        front,
        factors,
    };
    add_group(group, behind, out)
}
