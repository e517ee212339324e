//! Moduli as forms over the parameters: proposed by the extents of some dimensions, and tested.
ghost use Rattle.std.specs.Prelude.{◌≡◌, ◌^◌, ◌<◌, ◌≤◌, unsigned_abs, pos, Some, IfOk, IfErr, IfSome, IsTrue, ◌↔◌, length};
ghost use Rattle.std.specs.List.{All};
ghost use Rattle.affc_rows.specs.Forms.{HaveColumns};
ghost use Rattle.affc_split.specs.Budgets.{IsLater};
ghost use Rattle.affc_basis.specs.Moduli.{IsModulus};
ghost use Rattle.affc_conflicts.specs.Conditions.{IsNear};
ghost use Rattle.affc_moduli.specs.Asked.{IsAsked};
ghost use Rattle.affc_moduli.specs.Enough.{IsSuitable};

use crate::asked::AskedRow;
use crate::enough::{all_below, is_positive, is_within};
use affc_rows::{Form, FormFault};
use affc_split::maximum::{Region, maximum};
use affc_split::{Budget, Stop};
use affc_system::system::MOST_ROWS;
use affc_system::{BoxOf, System, fits_row, interval};
use std::alloc::{AllocError, Global};

/// A form that is tried as a modulus, and its value at the low ends of the parameters' ranges.
#[derive(Drop)]
struct Proposal {
    form: Form,
    low: i128,
}

/// The context as a region.
pub fn context_region(context: &System, ranges: &BoxOf) -> Result<Region, AllocError>
    requires parameters { length ranges.now ≡ context.now.columns }
    requires near { All IsNear ranges.now }
    ensures system { IfOk result (λ r. r.system ≡ context.now) }
    ensures ranges { IfOk result (λ r. r.ranges ≡ ranges.now) }
{
    let system = context.clone()?;
    let ranges = ranges.clone()?;
    Ok(Region { system, ranges })
}

/// Whether a form keeps the limits of a modulus.
fn keeps_limits(form: &Form, parameters: usize) -> bool
    ensures { IsTrue result ↔ IsModulus parameters form.now }
{
    form.coefs.len() == parameters
        && form.constant.unsigned_abs() <= 1 << 55
        && form
            .coefs
            .as_slice()
            .iter()
            .all(|c| c.unsigned_abs() <= 1 << 30)
}

/// The value of a form at the low ends of the ranges.
fn at_lows(alloc: Global, form: &Form, ranges: &[(i64, i64)]) -> Result<Option<i128>, AllocError>
    requires { length ranges.now ≡ length form.now.coefs }
{
    let mut lows = Vec::new(alloc);
    for range in ranges {
        lows.push(i128::from(range.0))?;
    }
    match form.eval(lows.as_slice()) {
        Ok(value) => Ok(Some(value)),
        Err(_range) => Ok(None),
    }
}

/// Whether a dimension is in a set of dimensions.
fn has(set: u32, dimension: usize) -> bool {
    dimension < 32 && (set >> dimension) & 1 == 1
}

/// The magnitude of a coefficient of a basis.
fn magnitude(c: i128) -> i128
    requires { unsigned_abs c ≤ 256 }
{
    if c < 0 { -c } else { c }
}

/// The magnitude of a coefficient where the dimension is in the set, or 0.
fn weight(set: u32, dimension: usize, coef: i128) -> i128
    requires { unsigned_abs coef ≤ 256 }
{
    if has(set, dimension) {
        magnitude(coef)
    } else {
        0
    }
}

/// Whether a dimension of the set adds no slope.
fn is_idle(set: u32, dimension: usize, coef: i128, extent: &Form) -> bool {
    has(set, dimension) && (coef == 0 || extent.coefs.as_slice().iter().all(|c| *c == 0))
}

/// A form and a multiple of another, where the numbers fit.
pub fn with_multiple(
    alloc: Global,
    sum: &Form,
    extent: &Form,
    times: i128,
) -> Result<Option<Form>, AllocError>
    requires { length sum.now.coefs ≡ length extent.now.coefs }
    ensures { IfOk result (λ o. IfSome o (λ f. length f.coefs ≡ length sum.now.coefs)) }
{
    match sum.scale_add(alloc, 1, extent, times) {
        Ok(longer) => Ok(Some(longer)),
        Err(FormFault::Memory) => Err(AllocError),
        Err(FormFault::Range) => Ok(None),
    }
}

/// The sum of the extents of a set of dimensions, each times the magnitude of its coefficient in a row.
///
/// Nothing where a dimension of the set adds no slope: then a smaller set has the same slopes.
fn sum_of(
    alloc: Global,
    coefs: &[i128],
    extents: &[Form],
    set: u32,
    parameters: u32,
) -> Result<Option<Form>, AllocError>
    requires one_each { length coefs.now ≡ length extents.now }
    requires small { All (λ c. unsigned_abs c ≤ 256) coefs.now }
    requires wide { HaveColumns parameters extents.now }
    ensures { IfOk result (λ o. IfSome o (λ f. length f.coefs ≡ parameters)) }
{
    let mut sum = Form::number(alloc, parameters, 0)?;
    for (j, extent) in extents.iter().enumerate() {
        if is_idle(set, j, coefs[j], extent) {
            return Ok(None);
        }
        let longer = with_multiple(alloc, &sum, extent, weight(set, j, coefs[j]))?;
        match longer {
            Some(longer) => sum = longer,
            None => return Ok(None),
        }
    }
    Ok(Some(sum))
}

/// The greatest value of a form without a constant over the context, where it is within reach.
fn top_of(
    alloc: Global,
    context: &Region,
    form: &Form,
    budget: &mut Budget,
) -> Result<Option<i64>, Stop>
    requires width { length form.now.coefs ≡ context.now.system.columns }
    requires constant { form.now.constant ≡ pos 0 }
    ensures later { IsLater budget.old budget.new }
    ensures stop { IfErr result (λ e. e ≡ Stop.Budget → budget.new.limit ≡ Some budget.new.spent) }
{
    let Ok((low, high)) = interval(form, &context.ranges) else {
        return Ok(None);
    };
    if low < -(1 << 54) || low > 1 << 54 || high < -(1 << 54) || high > 1 << 54 || !fits_row(form) {
        return Ok(None);
    }
    let rows = context.system.rows().len();
    if rows == 0 {
        return Ok(Some(high as i64));
    }
    if rows >= MOST_ROWS {
        return Ok(None);
    }
    let floor = low as i64 - 1;
    match maximum(
        alloc,
        context,
        form,
        floor,
        high as i64,
        high as i64,
        budget,
    )? {
        Some(best) => Ok(Some(best.value)),
        None => Ok(None),
    }
}

/// The form of a set of dimensions whose greatest value is the need, where it is below the need at the low ends of the ranges.
fn proposed(
    alloc: Global,
    asked: &AskedRow<'_>,
    set: u32,
    context: &Region,
    need: i64,
    budget: &mut Budget,
) -> Result<Option<Proposal>, Stop>
    requires asked { IsAsked asked.now }
    requires context { context.now.system ≡ asked.now.given.context.now }
    ensures later { IsLater budget.old budget.new }
    ensures stop { IfErr result (λ e. e ≡ Stop.Budget → budget.new.limit ≡ Some budget.new.spent) }
{
    let row = asked.line.row;
    let coefs = row.coefs.as_slice();
    let parameters = context.system.columns();
    let Some(sum) = sum_of(alloc, coefs, asked.given.extents, set, parameters)? else {
        return Ok(None);
    };
    let slopes = Form {
        coefs: sum.coefs,
        constant: 0,
    };
    let Some(top) = top_of(alloc, context, &slopes, budget)? else {
        return Ok(None);
    };
    let form = Form {
        coefs: slopes.coefs,
        constant: i128::from(need) - i128::from(top),
    };
    let Some(low) = at_lows(alloc, &form, context.ranges.ranges())? else {
        return Ok(None);
    };
    if low >= i128::from(need) {
        return Ok(None);
    }
    Ok(Some(Proposal { form, low }))
}

/// Where a proposal stands among others in the order of their low values: behind those that aren't greater.
fn place_of(proposals: &[Proposal], low: i128) -> usize
    ensures { result ≤ length proposals.now }
{
    for (i, proposal) in proposals.iter().enumerate() {
        if proposal.low > low {
            return i;
        }
    }
    proposals.len()
}

/// The forms of all sets of dimensions that are below the need at the low ends of the ranges, the least first.
fn all_proposed(
    alloc: Global,
    asked: &AskedRow<'_>,
    context: &Region,
    need: i64,
    budget: &mut Budget,
) -> Result<Vec<Proposal>, Stop>
    requires asked { IsAsked asked.now }
    requires context { context.now.system ≡ asked.now.given.context.now }
    ensures later { IsLater budget.old budget.new }
    ensures stop { IfErr result (λ e. e ≡ Stop.Budget → budget.new.limit ≡ Some budget.new.spent) }
{
    let mut proposals = Vec::new(alloc);
    let sets = 1u32 << asked.given.extents.len();
    for set in 1..sets {
        if let Some(made) = proposed(alloc, asked, set, context, need, budget)? {
            let place = place_of(proposals.as_slice(), made.low);
            let Ok(()) = proposals.insert(place, made) else {
                return Err(Stop::Memory);
            };
        }
    }
    Ok(proposals)
}

/// Whether a form is a modulus that exceeds each distance, is at least 1, and is nowhere above the need.
fn suits(
    alloc: Global,
    asked: &AskedRow<'_>,
    context: &Region,
    form: &Form,
    need: i64,
    budget: &mut Budget,
) -> Result<bool, Stop>
    requires asked { IsAsked asked.now }
    requires context { context.now.system ≡ asked.now.given.context.now }
    requires room { length context.now.system.rows < 1024 }
    requires need { unsigned_abs need ≤ 2 ^ 55 }
    ensures suitable { IfOk result (λ b. IsTrue b → IsSuitable context.now asked.now.regions.now asked.now.line.fs.now asked.now.line.gs.now form.now need) }
    ensures later { IsLater budget.old budget.new }
    ensures stop { IfErr result (λ e. e ≡ Stop.Budget → budget.new.limit ≡ Some budget.new.spent) }
{
    let parameters = context.system.columns() as usize;
    if !keeps_limits(form, parameters) {
        return Ok(false);
    }
    if !is_within(alloc, context, form, need, budget)? {
        return Ok(false);
    }
    if !is_positive(alloc, context, form, budget)? {
        return Ok(false);
    }
    if !all_below(alloc, asked.regions, asked.line.fs, form, budget)? {
        return Ok(false);
    }
    all_below(alloc, asked.regions, asked.line.gs, form, budget)
}

/// The first proposal that suits.
fn first_suited(
    alloc: Global,
    asked: &AskedRow<'_>,
    context: &Region,
    need: i64,
    budget: &mut Budget,
) -> Result<Option<Form>, Stop>
    requires asked { IsAsked asked.now }
    requires context { context.now.system ≡ asked.now.given.context.now }
    requires need { unsigned_abs need ≤ 2 ^ 55 }
    ensures suitable { IfOk result (λ o. IfSome o (λ f. IsSuitable context.now asked.now.regions.now asked.now.line.fs.now asked.now.line.gs.now f need)) }
    ensures later { IsLater budget.old budget.new }
    ensures stop { IfErr result (λ e. e ≡ Stop.Budget → budget.new.limit ≡ Some budget.new.spent) }
{
    if context.system.rows().len() >= MOST_ROWS {
        return Ok(None);
    }
    let proposals = all_proposed(alloc, asked, context, need, budget)?;
    for proposal in proposals {
        if suits(alloc, asked, context, &proposal.form, need, budget)? {
            return Ok(Some(proposal.form));
        }
    }
    Ok(None)
}

/// The first proposal that suits, while the budget lasts.
pub fn chosen(
    alloc: Global,
    asked: &AskedRow<'_>,
    context: &Region,
    need: i64,
    budget: &mut Budget,
) -> Result<Option<Form>, Stop>
    requires asked { IsAsked asked.now }
    requires context { context.now.system ≡ asked.now.given.context.now }
    requires need { unsigned_abs need ≤ 2 ^ 55 }
    ensures suitable { IfOk result (λ o. IfSome o (λ f. IsSuitable context.now asked.now.regions.now asked.now.line.fs.now asked.now.line.gs.now f need)) }
    ensures later { IsLater budget.old budget.new }
    ensures stop { IfErr result (λ e. e ≡ Stop.Memory) }
{
    match first_suited(alloc, asked, context, need, budget) {
        Ok(found) => Ok(found),
        Err(Stop::Budget) => Ok(None),
        Err(Stop::Memory) => Err(Stop::Memory),
    }
}
