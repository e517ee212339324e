//! The greatest value by one question: the least gap up to a ceiling, as a column before all others, and the least point that has it.
ghost use Rattle.std.specs.Prelude.{◌≡◌, ℤ, ◌+◌, ◌^◌, ◌<◌, ◌≤◌, ◌++◌, [], pos, ◌<ℤ◌, unsigned_abs, IfOk, IfErr, IfSome, OnOk, Some, length, map};
ghost use Rattle.std.specs.List.{All};
ghost use Rattle.affc_rows.specs.Forms.{value};
ghost use Rattle.affc_system.specs.Systems.{IsRow};
ghost use Rattle.affc_system.specs.Boxes.{IsBox};
ghost use Rattle.affc_leaf.specs.Points.{IsLeastPoint};
ghost use Rattle.affc_split.specs.Budgets.{IsLater};
ghost use Rattle.affc_split.specs.maximum.Regions.{IsMeasure, IsAnswer};
ghost use Rattle.affc_split.specs.maximum.Searches.{IsObjective};
ghost use Rattle.affc_split.specs.maximum.Gaps.{behind, gap_system, gap_box};

use crate::maximum::search::{Best, Objective, less};
use crate::{Answer, Budget, Stop, decide};
use affc_rows::Form;
use affc_system::{BoxOf, System};
use smallvec::SmallVec;
use std::alloc::{AllocError, Global};

/// The row with a column before its own, with this coefficient.
fn behind(alloc: Global, first: i128, row: &Form) -> Result<Form, AllocError>
    ensures { IfOk result (λ f. f ≡ behind first row.now) }
{
    let mut coefs = SmallVec::new(alloc);
    coefs.push(first)?;
    coefs.extend_from_slice(row.coefs.as_slice())?;
    Ok(Form {
        coefs,
        constant: row.constant,
    })
}

/// Adds rows, each with a column before its own on which it doesn't rest.
fn add_behind(
    alloc: Global,
    rows: &[Form],
    columns: u32,
    system: &mut System,
) -> Result<(), AllocError>
    requires fit { All (IsRow columns) rows.now }
    requires width { system.old.columns ≡ columns + 1 }
    requires room { length system.old.rows + length rows.now ≤ 1024 }
    ensures { OnOk result (system.new ≡ record system.old { rows = system.old.rows ++ map (behind (pos 0)) rows.now }) }
{
    match rows {
        [] => Ok(()),
        [row, rest @ ..] => {
            system.add(behind(alloc, 0, row)?)?;
            add_behind(alloc, rest, columns, system)
        }
    }
}

/// The points of a system behind a number that is at least the gap from a form's value up to the ceiling.
fn with_gap(alloc: Global, system: &System, form: &Form, ceiling: i64) -> Result<System, AllocError>
    requires measure { IsMeasure system.now.columns form.now }
    requires near { unsigned_abs ceiling ≤ 2 ^ 55 }
    requires room { length system.now.rows < 1024 }
    requires few { system.now.columns < 128 }
    ensures { IfOk result (λ s. s ≡ gap_system system.now form.now ceiling) }
{
    let columns = system.columns();
    let mut longer = System::new(alloc, columns + 1);
    let gap = less(alloc, form, ceiling)?;
    longer.add(behind(alloc, 1, &gap)?)?;
    add_behind(alloc, system.rows(), columns, &mut longer)?;
    Ok(longer)
}

/// The box with a range for the gap, where the form is above the floor.
fn box_with_gap(
    alloc: Global,
    ranges: &BoxOf,
    floor: i64,
    ceiling: i64,
) -> Result<BoxOf, AllocError>
    requires floor_near { unsigned_abs floor ≤ 2 ^ 55 }
    requires ceiling_near { unsigned_abs ceiling ≤ 2 ^ 55 }
    requires order { floor <ℤ ceiling }
    ensures { IfOk result (λ b. b ≡ gap_box ranges.now floor ceiling) }
{
    let mut longer = BoxOf::new(alloc);
    longer.push(0, ceiling - floor - 1)?;
    longer.append(ranges.ranges())?;
    Ok(longer)
}

/// The greatest value, from the least point that has a gap before it.
fn best_at(alloc: Global, objective: &Objective<'_>, point: &[i64]) -> Result<Best, AllocError>
    requires objective { IsObjective objective.now }
    requires least { IsLeastPoint (gap_system objective.now.region.now.system objective.now.form.now objective.now.ceiling) (gap_box objective.now.region.now.ranges objective.now.floor objective.now.ceiling) point.now }
    ensures answer { IfOk result (λ b. IsAnswer objective.now.region.now objective.now.form.now objective.now.floor (Some b)) }
    ensures near { IfOk result (λ b. unsigned_abs b.value ≤ 2 ^ 55) }
{
    let [gap, rest @ ..] = point else {
        unreachable!()
    };
    Ok(Best {
        value: objective.ceiling - *gap,
        point: Vec::from_slice(alloc, rest)?,
    })
}

/// The greatest value above the floor, with the least point that attains it.
pub(crate) fn at_once(
    alloc: Global,
    objective: &Objective<'_>,
    budget: &mut Budget,
) -> Result<Option<Best>, Stop>
    requires objective { IsObjective objective.now }
    requires order { objective.now.floor <ℤ objective.now.ceiling }
    requires room { length objective.now.region.now.system.rows < 1024 }
    requires few { objective.now.region.now.system.columns < 128 }
    ensures answer { IfOk result (λ o. IsAnswer objective.now.region.now objective.now.form.now objective.now.floor o) }
    ensures near { IfOk result (λ o. IfSome o (λ b. unsigned_abs b.value ≤ 2 ^ 55)) }
    ensures later { IsLater budget.old budget.new }
    ensures stop { IfErr result (λ e. e ≡ Stop.Budget → budget.new.limit ≡ Some budget.new.spent) }
{
    let region = objective.region;
    let system = with_gap(alloc, &region.system, objective.form, objective.ceiling)?;
    let ranges = box_with_gap(alloc, &region.ranges, objective.floor, objective.ceiling)?;
    match decide(alloc, &system, &ranges, budget)? {
        Answer::Point(point) => Ok(Some(best_at(alloc, objective, point.as_slice())?)),
        Answer::Empty(_proof) => Ok(None),
    }
}
