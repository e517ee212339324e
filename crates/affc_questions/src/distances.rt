//! Questions on the distances between the elements of a clash system along a row of a basis.
ghost use Rattle.std.specs.Prelude.{◌≡◌, ℕ, ◌-◌, ◌∷◌, [], ◌++◌, ◌≤◌, pos, negsuc, if◌then◌else◌, int_lt, length, take, IsTrue, IfOk, OnOk};
ghost use Rattle.std.specs.List.{All};
ghost use Rattle.affc_rows.specs.Forms.{value, mixed_form};
ghost use Rattle.affc_system.specs.Pairs.{IsSubscript};
ghost use Rattle.affc_system.specs.Systems.{IsRow};
ghost use Rattle.affc_trace.specs.Law.{IsIn};
ghost use Rattle.affc_ast.specs.declared.tree.Rel.TheVariants.{Equal};
ghost use Rattle.affc_nest.specs.Domains.{gap_row, compare_rows, number_form};
ghost use Rattle.affc_conflicts.specs.Questions.{differences, distance, agree_rows, over_columns};
ghost use Rattle.affc_questions.specs.Asked.{AreBasisRows, IsAlong, IsModulusOver, AreElements};
ghost use Rattle.affc_nest.specs.Wide.{IsWide};
ghost use Rattle.affc_questions.specs.Tails.{distance_tail, shown_tail};

use crate::rows::{add_at_least, add_zero, minus};
use affc_nest::lists::{add_equal_rows, add_gap_row, copied};
use affc_order::images::image_of;
use affc_rows::Form;
use affc_system::PairSystem;
use affc_system::system::value_at;
use sqlite_items::Items;
use std::alloc::{AllocError, Global};

/// Adds the differences of subscripts in turn.
#[tactic(auto, using(crate::proofs::SizeLemmas::subscript_wide))]
fn add_differences(
    alloc: Global,
    columns: u32,
    xs: &[Form],
    ys: &[Form],
    out: &mut Vec<Form>,
) -> Result<(), AllocError>
    requires firsts { All (IsSubscript columns) xs.now }
    requires seconds { All (IsSubscript columns) ys.now }
    ensures { OnOk result (out.new.items ≡ out.old.items ++ differences xs.now ys.now) }
{
    match xs {
        [] => Ok(()),
        [x, more_xs @ ..] => match ys {
            [] => Ok(()),
            [y, more_ys @ ..] => {
                let made = minus(alloc, columns, x, y)?;
                out.push(made)?;
                add_differences(alloc, columns, more_xs, more_ys, out)
            }
        },
    }
}

/// A form without its constant.
fn plain(form: &Form) -> Result<Form, AllocError>
    ensures { IfOk result (λ f. f ≡ record form.now { constant = pos 0 }) }
{
    let coefs = form.coefs.clone()?;
    Ok(Form { coefs, constant: 0 })
}

/// How far x lies behind y along a row.
fn distance(
    alloc: Global,
    columns: u32,
    row: &Form,
    xs: &[Form],
    ys: &[Form],
) -> Result<Form, AllocError>
    requires { AreElements columns row.now xs.now ys.now }
    ensures value { IfOk result (λ f. f ≡ distance row.now xs.now ys.now) }
    ensures wide { IfOk result (λ f. IsWide columns f) }
    ensures row { IfOk result (λ f. IsRow columns f) }
{
    let mut images = Vec::new(alloc);
    add_differences(alloc, columns, xs, ys, &mut images)?;
    let row = plain(row)?;
    image_of(alloc, columns, images.as_slice(), &row)
}

/// Adds the rows that two elements don't lie apart along a row.
fn add_level(
    alloc: Global,
    pair: &PairSystem,
    row: &Form,
    out: &mut Items<Form>,
) -> Result<(), AllocError>
    requires { AreElements pair.now.system.columns row.now pair.now.x.items pair.now.y.items }
    ensures { OnOk result (out.new ≡ out.old ++ compare_rows Equal (distance row.now pair.now.x.items pair.now.y.items) (number_form pair.now.system.columns (pos 0))) }
{
    let columns = pair.system.columns();
    let apart = distance(alloc, columns, row, pair.x.as_slice(), pair.y.as_slice())?;
    add_zero(alloc, columns, &apart, out)
}

/// Adds the rows that two elements lie apart along none of these rows.
#[tactic(auto, using(affc_nest::proofs::WideLemmas::added_twice))]
fn add_agree(
    alloc: Global,
    pair: &PairSystem,
    rows: &[Form],
    out: &mut Items<Form>,
) -> Result<(), AllocError>
    requires { All (λ row. AreElements pair.now.system.columns row pair.now.x.items pair.now.y.items) rows.now }
    ensures { OnOk result (out.new ≡ out.old ++ agree_rows pair.now rows.now) }
{
    match rows {
        [] => Ok(()),
        [row, rest @ ..] => {
            add_level(alloc, pair, row, out)?;
            add_agree(alloc, pair, rest, out)
        }
    }
}

/// The first k rows.
fn first_rows(rows: &[Form], k: usize) -> &[Form]
    ensures { result.now ≡ take k rows.now }
{
    let n = if k < rows.len() { k } else { rows.len() };
    let (first, _others) = rows.split_at(n);
    first
}

/// A modulus over more columns.
fn over_columns(alloc: Global, columns: u32, modulus: &Form) -> Result<Form, AllocError>
    requires { IsModulusOver columns modulus.now }
    ensures value { IfOk result (λ f. f ≡ over_columns columns modulus.now) }
    ensures wide { IfOk result (λ f. IsWide columns f) }
{
    modulus.padded(alloc, columns)
}

/// A modulus less 1, over more columns.
fn less_one(alloc: Global, columns: u32, modulus: &Form) -> Result<Form, AllocError>
    requires { IsModulusOver columns modulus.now }
    ensures value { IfOk result (λ f. f ≡ mixed_form (pos 1) (over_columns columns modulus.now) (negsuc 0) (number_form columns (pos 1))) }
    ensures wide { IfOk result (λ f. IsWide columns f) }
{
    let most = over_columns(alloc, columns, modulus)?;
    let one = Form::number(alloc, columns, 1)?;
    minus(alloc, columns, &most, &one)
}

/// The row `- apart - most`.
#[tactic(auto, using(crate::proofs::TurnedLemmas::turned_narrow))]
fn turned(alloc: Global, columns: u32, apart: &Form, most: &Form) -> Result<Form, AllocError>
    requires first { IsWide columns apart.now }
    requires second { IsWide columns most.now }
    ensures { IfOk result (λ f. f ≡ mixed_form (negsuc 0) apart.now (negsuc 0) most.now) }
{
    Form::mixture(alloc, -1, apart, -1, most)
}

/// Adds the row `apart - most` to the first rows, and `- apart - most` to the second ones.
fn add_both_ways(
    alloc: Global,
    columns: u32,
    apart: &Form,
    most: &Form,
    first: &mut Items<Form>,
    second: &mut Items<Form>,
) -> Result<(), AllocError>
    requires apart { IsWide columns apart.now }
    requires most { IsWide columns most.now }
    ensures first { OnOk result (first.new ≡ first.old ++ gap_row most.now apart.now 0 ∷ []) }
    ensures second { OnOk result (second.new ≡ second.old ++ mixed_form (negsuc 0) apart.now (negsuc 0) most.now ∷ []) }
{
    add_gap_row(alloc, columns, most, apart, 0, first)?;
    second.push(turned(alloc, columns, apart, most)?)
}

/// Adds the row that x lies behind y by at least the modulus to the first rows, and that y lies behind x to the second ones.
fn add_distances(
    alloc: Global,
    row: &Form,
    modulus: &Form,
    pair: &PairSystem,
    first: &mut Items<Form>,
    second: &mut Items<Form>,
) -> Result<(), AllocError>
    requires straight { AreElements pair.now.system.columns row.now pair.now.x.items pair.now.y.items }
    requires turned { AreElements pair.now.system.columns row.now pair.now.y.items pair.now.x.items }
    requires modulus { IsModulusOver pair.now.system.columns modulus.now }
    ensures first { OnOk result (first.new ≡ first.old ++ gap_row (over_columns pair.now.system.columns modulus.now) (distance row.now pair.now.x.items pair.now.y.items) 0 ∷ []) }
    ensures second { OnOk result (second.new ≡ second.old ++ gap_row (over_columns pair.now.system.columns modulus.now) (distance row.now pair.now.y.items pair.now.x.items) 0 ∷ []) }
{
    let columns = pair.system.columns();
    let most = over_columns(alloc, columns, modulus)?;
    let apart = distance(alloc, columns, row, pair.x.as_slice(), pair.y.as_slice())?;
    add_both_ways(alloc, columns, &apart, &most, first, second)
}

/// The rows that the two questions of a clash system have behind the system's: whether, in the slice of the first k rows, the
/// elements lie apart along the row by at least the modulus, the first one ahead, and the second one ahead.
pub fn distance_rows(
    alloc: Global,
    rows: &[Form],
    k: usize,
    row: &Form,
    modulus: &Form,
    pair: &PairSystem,
) -> Result<(Items<Form>, Items<Form>), AllocError>
    requires { IsAlong rows.now row.now modulus.now pair.now }
    ensures first { IfOk result (λ more. more.0 ≡ distance_tail rows.now k row.now modulus.now pair.now pair.now.x.items pair.now.y.items) }
    ensures second { IfOk result (λ more. more.1 ≡ distance_tail rows.now k row.now modulus.now pair.now pair.now.y.items pair.now.x.items) }
{
    let mut second = Items::new(alloc);
    add_agree(alloc, pair, first_rows(rows, k), &mut second)?;
    let mut first = copied(alloc, second.as_slice())?;
    add_distances(alloc, row, modulus, pair, &mut first, &mut second)?;
    Ok((first, second))
}

/// Whether at a point the first element lies behind the second along the row.
pub fn is_behind(
    alloc: Global,
    row: &Form,
    pair: &PairSystem,
    point: &[i64],
) -> Result<bool, AllocError>
    requires elements { AreElements pair.now.system.columns row.now pair.now.x.items pair.now.y.items }
    requires point { length point.now ≡ pair.now.system.columns }
    ensures { IfOk result (λ b. b ≡ int_lt (value (distance row.now pair.now.x.items pair.now.y.items) point.now) (pos 0)) }
{
    let columns = pair.system.columns();
    let apart = distance(alloc, columns, row, pair.x.as_slice(), pair.y.as_slice())?;
    Ok(value_at(&apart, point) < 0)
}

/// Adds the rows that a form is a modulus less 1.
fn add_less_one(
    alloc: Global,
    columns: u32,
    form: &Form,
    modulus: &Form,
    out: &mut Items<Form>,
) -> Result<(), AllocError>
    requires form { IsWide columns form.now }
    requires modulus { IsModulusOver columns modulus.now }
    ensures { OnOk result (out.new ≡ out.old ++ compare_rows Equal form.now (mixed_form (pos 1) (over_columns columns modulus.now) (negsuc 0) (number_form columns (pos 1)))) }
{
    let less = less_one(alloc, columns, modulus)?;
    add_equal_rows(alloc, columns, form, &less, out)
}

/// Adds the rows that x lies behind y by the modulus less 1, and by at least 1.
fn add_shown(
    alloc: Global,
    row: &Form,
    modulus: &Form,
    pair: &PairSystem,
    xs: &[Form],
    ys: &[Form],
    out: &mut Items<Form>,
) -> Result<(), AllocError>
    requires elements { AreElements pair.now.system.columns row.now xs.now ys.now }
    requires modulus { IsModulusOver pair.now.system.columns modulus.now }
    ensures { OnOk result (out.new ≡ out.old ++ (compare_rows Equal (distance row.now xs.now ys.now) (mixed_form (pos 1) (over_columns pair.now.system.columns modulus.now) (negsuc 0) (number_form pair.now.system.columns (pos 1))) ++ gap_row (number_form pair.now.system.columns (pos 1)) (distance row.now xs.now ys.now) 0 ∷ [])) }
{
    let columns = pair.system.columns();
    let apart = distance(alloc, columns, row, xs, ys)?;
    add_less_one(alloc, columns, &apart, modulus, out)?;
    add_at_least(alloc, columns, &apart, 1, out)
}

/// The rows behind a clash system's at whose points x lies behind y by the modulus less 1, and by at least 1.
fn shown(
    alloc: Global,
    rows: &[Form],
    k: usize,
    row: &Form,
    modulus: &Form,
    pair: &PairSystem,
    xs: &[Form],
    ys: &[Form],
) -> Result<Items<Form>, AllocError>
    requires rows { All (λ r. AreElements pair.now.system.columns r pair.now.x.items pair.now.y.items) rows.now }
    requires elements { AreElements pair.now.system.columns row.now xs.now ys.now }
    requires modulus { IsModulusOver pair.now.system.columns modulus.now }
    ensures { IfOk result (λ r. r ≡ shown_tail rows.now k row.now modulus.now pair.now xs.now ys.now) }
{
    let mut made = Items::new(alloc);
    add_agree(alloc, pair, first_rows(rows, k), &mut made)?;
    add_shown(alloc, row, modulus, pair, xs, ys, &mut made)?;
    Ok(made)
}

/// The rows behind a clash system's at whose points two elements lie apart along the row by the modulus less 1, and by at least 1:
/// the first one of the clash system ahead, or the second one where they are turned.
pub fn shown_rows(
    alloc: Global,
    rows: &[Form],
    k: usize,
    row: &Form,
    modulus: &Form,
    pair: &PairSystem,
    turned: bool,
) -> Result<Items<Form>, AllocError>
    requires { IsAlong rows.now row.now modulus.now pair.now }
    ensures is { IfOk result (λ r. r ≡ (if turned then shown_tail rows.now k row.now modulus.now pair.now pair.now.y.items pair.now.x.items else shown_tail rows.now k row.now modulus.now pair.now pair.now.x.items pair.now.y.items)) }
    ensures rows { IfOk result (λ r. All (IsRow pair.now.system.columns) r) }
{
    let (xs, ys) = (pair.x.as_slice(), pair.y.as_slice());
    if turned {
        shown(alloc, rows, k, row, modulus, pair, ys, xs)
    } else {
        shown(alloc, rows, k, row, modulus, pair, xs, ys)
    }
}
