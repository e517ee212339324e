//! What shows the marks of folds.
ghost use Rattle.std.specs.Prelude.{◌≡◌, IfErr, Some};
ghost use Rattle.affc_split.specs.Budgets.{IsLater};

use crate::clashing::{Clash, Clashes};
use affc_basis::fold::Mark;
use affc_certvalue::fold::fold::CertLeast;
use affc_prove::decided;
use affc_rows::Form;
use affc_split::{Answer, Budget, Stop};
use affc_system::{BoxOf, PairSystem, System};
use smallvec::SmallVec;
use sqlite_items::Items;
use std::alloc::{AllocError, Global};

/// Two elements at values of the parameters.
#[derive(Clone, Copy, Drop)]
struct Elements<'a> {
    p: &'a [i64],
    x: &'a [i64],
    y: &'a [i64],
}

/// The ranges with the first ones narrowed to one value each, unless one of these isn't in its range.
fn narrowed(alloc: Global, ranges: &BoxOf, p: &[i64]) -> Result<Option<BoxOf>, AllocError> {
    let mut out = BoxOf::new(alloc);
    for (column, range) in ranges.ranges().iter().enumerate() {
        let (low, high) = *range;
        match p.get(column) {
            Some(value) => {
                if *value < low || high < *value {
                    return Ok(None);
                }
                out.push(*value, *value)?;
            }
            None => {
                if high < low {
                    return Ok(None);
                }
                out.push(low, high)?;
            }
        }
    }
    Ok(Some(out))
}

/// Adds a row.
fn add_row(system: &mut System, row: Form) -> Result<(), AllocError> {
    if row.coefs.len() != system.columns() as usize {
        return Err(AllocError);
    }
    match system.push(row) {
        Ok(()) => Ok(()),
        Err(_) => Err(AllocError),
    }
}

/// The form less a number, or the number less the form.
fn difference(
    alloc: Global,
    form: &Form,
    number: i64,
    is_turned: bool,
) -> Result<Form, AllocError> {
    let Some(constant) = form.constant.checked_sub(i128::from(number)) else {
        return Err(AllocError);
    };
    let mut coefs = SmallVec::new(alloc);
    for coefficient in form.coefs.as_slice() {
        let Some(negated) = coefficient.checked_neg() else {
            return Err(AllocError);
        };
        coefs.push(if is_turned { negated } else { *coefficient })?;
    }
    let Some(negated) = constant.checked_neg() else {
        return Err(AllocError);
    };
    let constant = if is_turned { negated } else { constant };
    Ok(Form { coefs, constant })
}

/// Adds the rows that these forms have these values.
fn add_equal(
    alloc: Global,
    system: &mut System,
    forms: &[Form],
    values: &[i64],
) -> Result<(), AllocError> {
    for (form, value) in forms.iter().zip(values) {
        let above = difference(alloc, form, *value, false)?;
        add_row(system, above)?;
        let below = difference(alloc, form, *value, true)?;
        add_row(system, below)?;
    }
    Ok(())
}

/// A clash system of a product with this base.
#[derive(Clone, Copy, Drop)]
struct Live<'a> {
    base: &'a PairSystem,
    system: &'a System,
}

/// The points of a clash system with these elements.
fn with_elements(
    alloc: Global,
    live: Live<'_>,
    x: &[i64],
    y: &[i64],
) -> Result<System, AllocError> {
    let mut system = live.system.clone()?;
    add_equal(alloc, &mut system, live.base.x.as_slice(), x)?;
    add_equal(alloc, &mut system, live.base.y.as_slice(), y)?;
    Ok(system)
}

/// A point of a clash system at which it has these elements, if there is one.
fn point_in(
    alloc: Global,
    live: Live<'_>,
    elements: Elements<'_>,
    budget: &mut Budget,
) -> Result<Option<Items<i64>>, Stop>
    ensures later { IsLater budget.old budget.new }
    ensures stop { IfErr result (λ e. e ≡ Stop.Budget → budget.new.limit ≡ Some budget.new.spent) }
{
    let Some(ranges) = narrowed(alloc, &live.base.ranges, elements.p)? else {
        return Ok(None);
    };
    let system = with_elements(alloc, live, elements.x, elements.y)?;
    match decided(alloc, &system, &ranges, budget)? {
        Answer::Point(point) => Ok(Some(Items::from_vec(point))),
        Answer::Empty(_proof) => Ok(None),
    }
}

/// A clash system, unless it is known to have no point.
fn live_one<'a>(clashes: &'a Clashes, clash: &'a Clash) -> Option<Live<'a>> {
    let Clash::Live(product, system) = clash else {
        return None;
    };
    let product = clashes.products.get(*product)?;
    Some(Live {
        base: &product.base,
        system,
    })
}

/// The first clash system that has these elements, in this order or in the other, with a point. Those without points are passed.
fn pair_shown(
    alloc: Global,
    clashes: &Clashes,
    elements: Elements<'_>,
    budget: &mut Budget,
) -> Result<(i64, Items<i64>), Stop>
    ensures later { IsLater budget.old budget.new }
    ensures stop { IfErr result (λ e. e ≡ Stop.Budget → budget.new.limit ≡ Some budget.new.spent) }
{
    let turned = Elements {
        p: elements.p,
        x: elements.y,
        y: elements.x,
    };
    for (number, clash) in clashes.known.as_slice().iter().enumerate() {
        let Some(live) = live_one(clashes, clash) else {
            continue;
        };
        let Ok(number) = i64::try_from(number) else {
            return Err(Stop::Memory);
        };
        if let Some(point) = point_in(alloc, live, elements, budget)? {
            return Ok((number, point));
        }
        if let Some(point) = point_in(alloc, live, turned, budget)? {
            return Ok((number, point));
        }
    }
    Err(Stop::Memory)
}

/// What shows that a modulus is least, if it is marked so.
pub(crate) fn mark_shown(
    alloc: Global,
    clashes: &Clashes,
    mark: &Mark,
    budget: &mut Budget,
) -> Result<Option<CertLeast>, Stop>
    ensures later { IsLater budget.old budget.new }
    ensures stop { IfErr result (λ e. e ≡ Stop.Budget → budget.new.limit ≡ Some budget.new.spent) }
{
    let Mark::Least { p, pair } = mark else {
        return Ok(None);
    };
    let values = Items::from_slice(alloc, p.as_slice())?;
    let Some((x, y)) = pair else {
        return Ok(Some(CertLeast {
            p: values,
            pair: None,
        }));
    };
    let elements = Elements {
        p: p.as_slice(),
        x: x.as_slice(),
        y: y.as_slice(),
    };
    let pair = pair_shown(alloc, clashes, elements, budget)?;
    Ok(Some(CertLeast {
        p: values,
        pair: Some(pair),
    }))
}
