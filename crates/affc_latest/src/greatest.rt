//! The lexicographically greatest point of a system in a box: the least one, with each column turned round.
ghost use Rattle.std.specs.Prelude.{◌≡◌, ◌+◌, ◌^◌, ◌<◌, ◌≤◌, ◌≤ℤ◌, ◌++◌, ◌∷◌, [], length, map, neg_ℤ, unsigned_abs, IfOk, IfErr, OnOk, Some};
ghost use Rattle.std.specs.List.{All};
ghost use Rattle.affc_system.specs.Pairs.{WithinReach};
ghost use Rattle.affc_system.specs.Systems.{FitsRow, IsRow};
ghost use Rattle.affc_split.specs.Budgets.{IsLater};
ghost use Rattle.affc_nest.specs.Domains.{with_rows};
ghost use Rattle.affc_latest.specs.Opposites.{opposite_row, opposite_system, opposite_range, IsLeastIn, IsGreatestIn};

use affc_rows::{Coefs, Form};
use affc_split::{Answer, Budget, Stop, decide};
use affc_system::{BoxOf, System};
use smallvec::SmallVec;
use sqlite_items::Items;
use std::alloc::{AllocError, Global};

/// Adds the opposites of coefficients.
fn add_coefs(coefs: &[i128], out: &mut Coefs) -> Result<(), AllocError>
    requires { All (λ c. unsigned_abs c ≤ 2 ^ 40) coefs.now }
    ensures { OnOk result (out.new.items ≡ out.old.items ++ map neg_ℤ coefs.now) }
{
    match coefs {
        [] => Ok(()),
        [c, rest @ ..] => {
            out.push(-*c)?;
            add_coefs(rest, out)
        }
    }
}

/// The row at the opposite of each point.
fn opposite_row(alloc: Global, row: &Form) -> Result<Form, AllocError>
    requires { FitsRow row.now }
    ensures value { IfOk result (λ f. f ≡ opposite_row row.now) }
{
    let mut coefs = SmallVec::new(alloc);
    add_coefs(row.coefs.as_slice(), &mut coefs)?;
    Ok(Form {
        coefs,
        constant: row.constant,
    })
}

/// Adds a row, turned round.
fn add_opposite_row(alloc: Global, row: &Form, system: &mut System) -> Result<(), AllocError>
    requires row { IsRow system.old.columns row.now }
    requires room { length system.old.rows < 1024 }
    ensures { OnOk result (system.new ≡ with_rows system.old (opposite_row row.now ∷ [])) }
{
    let turned = opposite_row(alloc, row)?;
    system.add(turned)
}

/// Adds rows, each turned round.
fn add_opposite_rows(alloc: Global, rows: &[Form], system: &mut System) -> Result<(), AllocError>
    requires fit { All (IsRow system.old.columns) rows.now }
    requires room { length system.old.rows + length rows.now ≤ 1024 }
    ensures { OnOk result (system.new ≡ with_rows system.old (map opposite_row rows.now)) }
{
    match rows {
        [] => Ok(()),
        [row, rest @ ..] => {
            add_opposite_row(alloc, row, system)?;
            add_opposite_rows(alloc, rest, system)
        }
    }
}

/// The system of the opposites of its points.
fn opposite_system(alloc: Global, system: &System) -> Result<System, AllocError>
    ensures { IfOk result (λ s. s ≡ opposite_system system.now) }
{
    let mut turned = System::new(alloc, system.columns());
    add_opposite_rows(alloc, system.rows(), &mut turned)?;
    Ok(turned)
}

/// The range of the opposites.
fn opposite_range(range: (i64, i64)) -> (i64, i64)
    requires { WithinReach range }
    ensures { result ≡ opposite_range range }
{
    (-range.1, -range.0)
}

/// Adds ranges, each turned round.
fn add_opposite_ranges(ranges: &[(i64, i64)], out: &mut BoxOf) -> Result<(), AllocError>
    requires ordered { All (λ r. r.0 ≤ℤ r.1) ranges.now }
    requires reach { All WithinReach ranges.now }
    ensures { OnOk result (out.new ≡ out.old ++ map opposite_range ranges.now) }
{
    match ranges {
        [] => Ok(()),
        [range, rest @ ..] => {
            let turned = opposite_range(*range);
            out.push(turned.0, turned.1)?;
            add_opposite_ranges(rest, out)
        }
    }
}

/// Adds the opposites of numbers.
fn add_opposites(point: &[i64], out: &mut Items<i64>) -> Result<(), AllocError>
    requires { All (λ x. unsigned_abs x ≤ 2 ^ 60) point.now }
    ensures { OnOk result (out.new ≡ out.old ++ map neg_ℤ point.now) }
{
    match point {
        [] => Ok(()),
        [x, rest @ ..] => {
            out.push(-*x)?;
            add_opposites(rest, out)
        }
    }
}

/// The box of the opposites of its points.
fn opposite_box(alloc: Global, ranges: &BoxOf) -> Result<BoxOf, AllocError>
    requires { All WithinReach ranges.now }
    ensures { IfOk result (λ b. b ≡ map opposite_range ranges.now) }
{
    let mut turned = BoxOf::new(alloc);
    add_opposite_ranges(ranges.ranges(), &mut turned)?;
    Ok(turned)
}

/// The least point of a system in a box, if it has one there.
fn least_point(
    alloc: Global,
    system: &System,
    ranges: &BoxOf,
    budget: &mut Budget,
) -> Result<Option<Items<i64>>, Stop>
    requires columns { length ranges.now ≡ system.now.columns }
    requires reach { All WithinReach ranges.now }
    ensures least { IfOk result (IsLeastIn system.now ranges.now) }
    ensures later { IsLater budget.old budget.new }
    ensures stop { IfErr result (λ e. e ≡ Stop.Budget → budget.new.limit ≡ Some budget.new.spent) }
{
    match decide(alloc, system, ranges, budget)? {
        Answer::Empty(_) => Ok(None),
        Answer::Point(point) => Ok(Some(Items::from_vec(point))),
    }
}

/// The greatest point of a system in a box, if it has one there.
pub(crate) fn greatest_point(
    alloc: Global,
    system: &System,
    ranges: &BoxOf,
    budget: &mut Budget,
) -> Result<Option<Items<i64>>, Stop>
    requires columns { length ranges.now ≡ system.now.columns }
    requires reach { All WithinReach ranges.now }
    ensures greatest { IfOk result (IsGreatestIn system.now ranges.now) }
    ensures later { IsLater budget.old budget.new }
    ensures stop { IfErr result (λ e. e ≡ Stop.Budget → budget.new.limit ≡ Some budget.new.spent) }
{
    let turned = opposite_system(alloc, system)?;
    let turned_ranges = opposite_box(alloc, ranges)?;
    match least_point(alloc, &turned, &turned_ranges, budget)? {
        None => Ok(None),
        Some(point) => {
            let mut greatest = Items::new(alloc);
            add_opposites(point.as_slice(), &mut greatest)?;
            Ok(Some(greatest))
        }
    }
}
