//! The point at which the elements that are shown for a distance come first.
ghost use Rattle.std.specs.Prelude.{◌≡◌, ◌^◌, ◌≤◌, ◌↔◌, unsigned_abs, Some, IfOk, IfErr, IsTrue, length};
ghost use Rattle.std.specs.List.{All};
ghost use Rattle.affc_system.specs.Pairs.{IsSubscript};
ghost use Rattle.affc_split.specs.Budgets.{IsLater};
ghost use Rattle.affc_rows.specs.Forms.{value};
ghost use Rattle.affc_split.specs.maximum.Regions.{InRegion, IsMeasure};

use crate::asked::Way;
use crate::reordered::{Inserted, Lack, reordered, restored};
use affc_rows::Form;
use affc_split::maximum::Region;
use affc_split::points::lies_in;
use affc_split::{Answer, Budget, Stop, decide, within_reach};
use affc_system::{BoxOf, PairSystem, System, value_at};
use std::alloc::{AllocError, Global};

/// The value of a subscript at a point.
fn entry(form: &Form, point: &[i64]) -> i128
    requires subscript { IsSubscript (length point.now) form.now }
    requires few { length point.now ≤ 128 }
{
    value_at(form, point)
}

/// Adds an element.
fn add_element(key: &mut Vec<i128>, forms: &[Form], point: &[i64]) -> Result<(), AllocError>
    requires subscripts { All (IsSubscript (length point.now)) forms.now }
    requires few { length point.now ≤ 128 }
{
    for form in forms {
        key.push(entry(form, point))?;
    }
    Ok(())
}

/// The subscripts of one of a system's elements.
fn element_of(system: &PairSystem, second: bool) -> &[Form]
    ensures { All (IsSubscript system.now.system.columns) result.now }
{
    if second {
        system.y.as_slice()
    } else {
        system.x.as_slice()
    }
}

/// What the elements of a system at a point are compared by, in the order in which they are shown.
pub fn key_of(
    alloc: Global,
    system: &PairSystem,
    turned: bool,
    point: &[i64],
) -> Result<Vec<i128>, AllocError> {
    let mut key = Vec::new(alloc);
    if point.len() == system.system.columns() as usize {
        add_element(&mut key, element_of(system, turned), point)?;
        add_element(&mut key, element_of(system, !turned), point)?;
    }
    Ok(key)
}

/// Whether one list of numbers is before another of its length.
pub fn is_before(first: &[i128], second: &[i128]) -> bool {
    for (a, b) in first.iter().zip(second) {
        if a != b {
            return a < b;
        }
    }
    false
}

/// Whether a point is one of a region.
fn is_in_region(region: &Region, point: &[i64]) -> bool
    ensures { IsTrue result → InRegion region.now point.now }
{
    if point.len() != region.system.columns() as usize {
        return false;
    }
    region.system.holds_at(point) && lies_in(point, region.ranges.ranges())
}

/// Whether a form has a value at a point.
fn has_value(region: &Region, form: &Form, number: i64, point: &[i64]) -> bool
    requires measure { IsMeasure region.now.system.columns form.now }
    requires inside { InRegion region.now point.now }
    ensures { IsTrue result → value form.now point.now ≡ number }
{
    let columns = region.system.columns();
    prove!(columns <= 128);
    value_at(form, point) == i128::from(number)
}

/// The region's points with a point's parameters at which a form is at least a number, with the columns in the order in which
/// the elements are shown.
fn in_order(
    alloc: Global,
    way: &Way<'_>,
    value: i64,
    point: &[i64],
    parameters: usize,
) -> Result<(System, BoxOf), Lack>
    requires { unsigned_abs way.now.form.now.constant ≤ 2 ^ 58 }
{
    let form = way.form.clone()?.less(i128::from(value));
    let first = element_of(way.system, way.turned);
    let second = element_of(way.system, !way.turned);
    reordered(alloc, way.region, &form, point, first, second, parameters)
}

/// The least point of a system in a box, without the elements' columns.
fn least_of(
    alloc: Global,
    system: &System,
    ranges: &BoxOf,
    inserted: Inserted,
    budget: &mut Budget,
) -> Result<Option<Vec<i64>>, Stop>
    ensures later { IsLater budget.old budget.new }
    ensures stop { IfErr result (λ e. e ≡ Stop.Budget → budget.new.limit ≡ Some budget.new.spent) }
{
    if ranges.ranges().len() != system.columns() as usize || !within_reach(ranges) {
        return Ok(None);
    }
    match decide(alloc, system, ranges, budget)? {
        Answer::Point(point) => {
            let Ok(rest) = restored(alloc, point.as_slice(), inserted) else {
                return Err(Stop::Memory);
            };
            Ok(Some(rest))
        }
        Answer::Empty(_proof) => Ok(None),
    }
}

/// The point with a point's parameters at which the elements that lie as far apart come first, where there is room to ask.
fn closer(
    alloc: Global,
    way: &Way<'_>,
    value: i64,
    point: &[i64],
    parameters: usize,
    budget: &mut Budget,
) -> Result<Option<Vec<i64>>, Stop>
    requires { unsigned_abs way.now.form.now.constant ≤ 2 ^ 58 }
    ensures later { IsLater budget.old budget.new }
    ensures stop { IfErr result (λ e. e ≡ Stop.Budget → budget.new.limit ≡ Some budget.new.spent) }
{
    let (x, y) = (way.system.x.as_slice(), way.system.y.as_slice());
    let inserted = Inserted {
        after: parameters,
        count: x.len().saturating_add(y.len()),
    };
    match in_order(alloc, way, value, point, parameters) {
        Ok((rows, ranges)) => least_of(alloc, &rows, &ranges, inserted, budget),
        Err(Lack::Room) => Ok(None),
        Err(Lack::Memory) => Err(Stop::Memory),
    }
}

/// The first of two points, if it is one of the region at which the form has a value, or else the second.
fn either(way: &Way<'_>, number: i64, first: Option<Vec<i64>>, known: Vec<i64>) -> Vec<i64>
    requires measure { IsMeasure way.now.region.now.system.columns way.now.form.now }
    requires inside { InRegion way.now.region.now known.items }
    requires attained { value way.now.form.now known.items ≡ number }
    ensures inside { InRegion way.now.region.now result.items }
    ensures attained { value way.now.form.now result.items ≡ number }
{
    let Some(first) = first else {
        return known;
    };
    if !is_in_region(way.region, first.as_slice()) {
        return known;
    }
    if has_value(way.region, way.form, number, first.as_slice()) {
        first
    } else {
        known
    }
}

/// The point with the same parameters at which a form has its value too and the elements come first, where there is room to
/// ask and the budget lasts, or else the point that is known.
pub fn settled(
    alloc: Global,
    way: &Way<'_>,
    number: i64,
    known: Vec<i64>,
    parameters: usize,
    budget: &mut Budget,
) -> Result<Vec<i64>, Stop>
    requires measure { IsMeasure way.now.region.now.system.columns way.now.form.now }
    requires inside { InRegion way.now.region.now known.items }
    requires attained { value way.now.form.now known.items ≡ number }
    ensures inside { IfOk result (λ z. InRegion way.now.region.now z.items) }
    ensures attained { IfOk result (λ z. value way.now.form.now z.items ≡ number) }
    ensures later { IsLater budget.old budget.new }
    ensures stop { IfErr result (λ e. e ≡ Stop.Budget → budget.new.limit ≡ Some budget.new.spent) }
{
    let first = match closer(alloc, way, number, known.as_slice(), parameters, budget) {
        Ok(first) => first,
        Err(Stop::Budget) => None,
        Err(Stop::Memory) => return Err(Stop::Memory),
    };
    Ok(either(way, number, first, known))
}
