//! The modulus of one row.
ghost use Rattle.std.specs.Prelude.{◌≡◌, ℤ, ◌+◌, ◌^◌, ◌<◌, ◌≤◌, ◌+ℤ◌, unsigned_abs, pos, Some, None, slice_get, take, replicate, IfOk, IfErr, IfNone, OnOk, length};
ghost use Rattle.std.specs.List.{All};
ghost use Rattle.affc_rows.specs.Forms.{value, values_of};
ghost use Rattle.affc_rows.specs.Vocabulary.{number_form};
ghost use Rattle.affc_system.specs.Pairs.{IsSubscript};
ghost use Rattle.affc_split.specs.Budgets.{IsLater};
ghost use Rattle.affc_conflicts.specs.Conditions.{InContext};
ghost use Rattle.affc_moduli.specs.Asked.{IsGiven, IsLine, IsAsked, AreSlicesOf, IsDoneFor, IsKeptFor, IsFarthestOf};
ghost use Rattle.affc_moduli.specs.Ended.{IsSpent, IsFar};
ghost use Rattle.affc_moduli.specs.Rows.{IsKept};
ghost use Rattle.affc_moduli.specs.Shown.{other_way, swapped, IsEitherWay};

use crate::asked::{Aim, AskedRow, Given, Hint, Line};
use crate::bounds::Bound;
use crate::ceilings::bound_of;
use crate::distances::{MOST_DISTANCE, forward, opposites};
use crate::extremes::{Reach, Shown, farthest};
use crate::forms::{chosen, context_region};
use crate::slices::narrow_all;
use affc_basis::{Mark, Modulus};
use affc_rows::Form;
use affc_split::maximum::{Found, Region};
use affc_split::{Budget, Stop};
use affc_system::{PairSystem, value_at};
use sqlite_items::Items;
use std::alloc::{AllocError, Global};

/// The value of a subscript at a point.
fn subscript_at(form: &Form, point: &[i64]) -> i64
    requires subscript { IsSubscript (length point.now) form.now }
    requires few { length point.now ≤ 128 }
    requires near { unsigned_abs (value form.now point.now) ≤ 2 ^ 43 }
    ensures { result ≡ value form.now point.now }
{
    value_at(form, point) as i64
}

/// The element at a point.
fn element(alloc: Global, forms: &[Form], point: &[i64]) -> Result<Items<i64>, AllocError>
    requires subscripts { All (IsSubscript (length point.now)) forms.now }
    requires few { length point.now ≤ 128 }
    requires near { All (λ f. unsigned_abs (value f point.now) ≤ 2 ^ 43) forms.now }
    ensures { IfOk result (λ x. x ≡ values_of forms.now point.now) }
{
    let mut x = Vec::new(alloc);
    for form in forms {
        x.push(subscript_at(form, point))?;
    }
    Ok(Items::from_vec(x))
}

/// A number and 1 more, as a form over the parameters.
fn next_to(alloc: Global, parameters: u32, n: i64) -> Result<Form, AllocError>
    ensures { IfOk result (λ f. f ≡ number_form parameters (n +ℤ pos 1)) }
{
    Form::number(alloc, parameters, i128::from(n) + 1)
}

/// The modulus 1, of a row along which nothing lies apart.
fn without_pair(alloc: Global, p: &[i64]) -> Result<Modulus, AllocError>
    requires { length p.now ≤ 128 }
    ensures form { IfOk result (λ m. m.form ≡ record { coefs = replicate (length p.now) (pos 0); constant = pos 1 }) }
    ensures mark { IfOk result (λ m. m.mark ≡ Mark.Least p.now None) }
{
    let form = Form::number(alloc, p.len() as u32, 1)?;
    let p = Items::from_slice(alloc, p)?;
    Ok(Modulus {
        form,
        mark: Mark::Least { p, pair: None },
    })
}

/// A modulus that is 1 more than the distance of the elements at a point.
fn with_pair(
    alloc: Global,
    system: &PairSystem,
    point: &[i64],
    distance: i64,
    parameters: u32,
) -> Result<Modulus, AllocError>
    requires width { length point.now ≡ system.now.system.columns }
    requires within { parameters ≤ length point.now }
    requires few { length point.now ≤ 128 }
    requires x { All (λ f. unsigned_abs (value f point.now) ≤ 2 ^ 43) system.now.x.items }
    requires y { All (λ f. unsigned_abs (value f point.now) ≤ 2 ^ 43) system.now.y.items }
    requires distance { unsigned_abs distance ≤ 2 ^ 53 }
    ensures form { IfOk result (λ m. m.form ≡ record { coefs = replicate parameters (pos 0); constant = distance +ℤ pos 1 }) }
    ensures mark { IfOk result (λ m. m.mark ≡ Mark.Least (take parameters point.now) (Some (values_of system.now.x.items point.now, values_of system.now.y.items point.now))) }
{
    let form = next_to(alloc, parameters, distance)?;
    let p = Items::from_slice(alloc, &point[..parameters as usize])?;
    let x = element(alloc, system.x.as_slice(), point)?;
    let y = element(alloc, system.y.as_slice(), point)?;
    Ok(Modulus {
        form,
        mark: Mark::Least {
            p,
            pair: Some((x, y)),
        },
    })
}

/// The modulus of a row along which two elements at a point of a region lie farthest apart.
fn shown(alloc: Global, asked: &AskedRow<'_>, found: &Found) -> Result<Modulus, AllocError>
    requires asked { IsAsked asked.now }
    requires farthest { IsFarthestOf asked.now (Some found.now) }
    ensures done { IfOk result (IsDoneFor asked.now.given asked.now.line) }
    ensures flat { IfOk result (λ m. m.form.coefs ≡ replicate asked.now.given.context.now.columns (pos 0)) }
{
    let system = &asked.given.pairs[found.number];
    let columns = system.system.columns();
    prove!(columns <= 128);
    let parameters = asked.given.context.columns();
    let point = found.point.as_slice();
    with_pair(alloc, system, point, found.value, parameters)
}

/// The modulus of a row, from the greatest distance in its slice.
fn modulus_of(
    alloc: Global,
    asked: &AskedRow<'_>,
    some: &[i64],
    found: &Option<Found>,
) -> Result<Modulus, AllocError>
    requires asked { IsAsked asked.now }
    requires some { InContext asked.now.given.context.now asked.now.given.ranges.now some.now }
    requires farthest { IsFarthestOf asked.now found.now }
    ensures done { IfOk result (IsDoneFor asked.now.given asked.now.line) }
    ensures flat { IfOk result (λ m. m.form.coefs ≡ replicate asked.now.given.context.now.columns (pos 0)) }
{
    match found {
        None => without_pair(alloc, some),
        Some(f) => shown(alloc, asked, f),
    }
}

/// Two elements in the other order.
fn swapped(pair: Option<(Items<i64>, Items<i64>)>) -> Option<(Items<i64>, Items<i64>)>
    ensures { result ≡ swapped pair }
{
    match pair {
        Some(elements) => Some((elements.1, elements.0)),
        None => None,
    }
}

/// A mark with its elements in the other order.
fn other_way(mark: Mark) -> Mark
    ensures { result ≡ other_way mark }
{
    match mark {
        Mark::Least { p, pair } => {
            let pair = swapped(pair);
            Mark::Least { p, pair }
        }
        Mark::Bound => Mark::Bound,
    }
}

/// The modulus with the elements of its mark in the other order.
fn turned(modulus: Modulus) -> Modulus
    ensures form { result.form ≡ modulus.form }
    ensures mark { result.mark ≡ other_way modulus.mark }
{
    let form = modulus.form;
    let mark = other_way(modulus.mark);
    Modulus { form, mark }
}

/// The modulus with the elements of its mark in the order in which they are shown.
fn in_order(modulus: Modulus, turns: bool) -> Modulus
    ensures { IsEitherWay modulus result }
{
    if turns { turned(modulus) } else { modulus }
}

/// The constant of a form.
fn constant_of(form: &Form) -> i64
    requires { unsigned_abs form.now.constant ≤ 2 ^ 55 }
    ensures { result ≡ form.now.constant }
{
    form.constant as i64
}

/// The modulus with another form.
fn with_form(modulus: Modulus, form: Form) -> Modulus
    ensures form { result.form ≡ form }
    ensures mark { result.mark ≡ modulus.mark }
{
    Modulus {
        form,
        mark: modulus.mark,
    }
}

/// The modulus of a row, with the form that is chosen in place of a constant while the budget lasts.
fn formed(
    alloc: Global,
    asked: &AskedRow<'_>,
    constant: Modulus,
    budget: &mut Budget,
) -> Result<Modulus, Stop>
    requires asked { IsAsked asked.now }
    requires done { IsDoneFor asked.now.given asked.now.line constant }
    requires flat { constant.form.coefs ≡ replicate asked.now.given.context.now.columns (pos 0) }
    ensures done { IfOk result (IsDoneFor asked.now.given asked.now.line) }
    ensures later { IsLater budget.old budget.new }
    ensures stop { IfErr result (λ e. e ≡ Stop.Memory) }
{
    let Ok(context) = context_region(asked.given.context, asked.given.ranges) else {
        return Err(Stop::Memory);
    };
    let need = constant_of(&constant.form);
    match chosen(alloc, asked, &context, need, budget)? {
        Some(form) => Ok(with_form(constant, form)),
        None => Ok(constant),
    }
}

/// A modulus that is 1 more than a bound, without a mark.
fn unmarked(alloc: Global, parameters: u32, bound: &Bound) -> Result<Modulus, AllocError>
    requires { unsigned_abs bound.now.most ≤ 2 ^ 53 }
    ensures form { IfOk result (λ m. m.form ≡ record { coefs = replicate parameters (pos 0); constant = bound.now.most +ℤ pos 1 }) }
    ensures mark { IfOk result (λ m. m.mark ≡ Mark.Bound) }
{
    let form = next_to(alloc, parameters, bound.most)?;
    Ok(Modulus {
        form,
        mark: Mark::Bound,
    })
}

/// The modulus of a row along which no elements lie farther apart than a bound says: 1 more, without a mark.
fn bounded(alloc: Global, asked: &AskedRow<'_>, bound: &Bound) -> Result<Modulus, AllocError>
    requires asked { IsAsked asked.now }
    requires far { IsFar asked.now.given.pairs.now asked.now.regions.now asked.now.line.row.now.coefs bound.now.most }
    ensures { IfOk result (IsKeptFor asked.now.given asked.now.line) }
{
    unmarked(alloc, asked.given.context.columns(), bound)
}

/// The modulus of a row along which elements lie farthest apart where it is shown.
fn marked(
    alloc: Global,
    asked: &AskedRow<'_>,
    some: &[i64],
    shown: &Shown,
    budget: &mut Budget,
) -> Result<Modulus, Stop>
    requires asked { IsAsked asked.now }
    requires some { InContext asked.now.given.context.now asked.now.given.ranges.now some.now }
    requires farthest { IsFarthestOf asked.now shown.now.found }
    ensures done { IfOk result (IsDoneFor asked.now.given asked.now.line) }
    ensures later { IsLater budget.old budget.new }
    ensures stop { IfErr result (λ e. e ≡ Stop.Memory) }
{
    let Ok(modulus) = modulus_of(alloc, asked, some, &shown.found) else {
        return Err(Stop::Memory);
    };
    let constant = in_order(modulus, shown.turned);
    if asked.given.hint.quick {
        return Ok(constant);
    }
    formed(alloc, asked, constant, budget)
}

/// The modulus of a row for which no question is asked.
fn unasked(alloc: Global, asked: &AskedRow<'_>) -> Result<Modulus, AllocError>
    requires asked { IsAsked asked.now }
    ensures { IfOk result (IsKeptFor asked.now.given asked.now.line) }
{
    let bound = bound_of(asked, 0, Bound { most: 0 });
    bounded(alloc, asked, &bound)
}

/// How the greatest distance along the row with this number is sought.
fn aim_at(hint: Hint<'_>, k: usize) -> Aim {
    let start = match hint.known.get(k) {
        Some(value) if 1 <= *value && *value <= MOST_DISTANCE as u64 => (*value - 1) as i64,
        _ => 0,
    };
    Aim {
        quick: hint.quick,
        start,
    }
}

/// The modulus of a row, by questions while the budget lasts.
fn by_questions(
    alloc: Global,
    asked: &AskedRow<'_>,
    some: &[i64],
    budget: &mut Budget,
) -> Result<Modulus, Stop>
    requires asked { IsAsked asked.now }
    requires some { InContext asked.now.given.context.now asked.now.given.ranges.now some.now }
    ensures kept { IfOk result (IsKeptFor asked.now.given asked.now.line) }
    ensures bound { IfOk result (λ m. m.mark ≡ Mark.Bound → IsSpent budget.new) }
    ensures later { IsLater budget.old budget.new }
    ensures stop { IfErr result (λ e. e ≡ Stop.Memory) }
{
    let aim = aim_at(asked.given.hint, asked.line.k);
    match farthest(alloc, asked, aim, budget)? {
        Reach::Farthest(shown) => marked(alloc, asked, some, &shown, budget),
        Reach::Within(bound) => {
            let Ok(modulus) = bounded(alloc, asked, &bound) else {
                return Err(Stop::Memory);
            };
            Ok(modulus)
        }
    }
}

/// The modulus of a row. Without a point of the context no question is asked.
fn modulus_along(
    alloc: Global,
    given: &Given<'_>,
    line: &Line<'_>,
    regions: &[Region],
    budget: &mut Budget,
) -> Result<Modulus, Stop>
    requires given { IsGiven given.now }
    requires line { IsLine given.now line.now }
    requires slices { AreSlicesOf given.now line.now.k regions.now }
    requires none { IfNone given.now.some.now (IsSpent budget.old) }
    ensures kept { IfOk result (IsKeptFor given.now line.now) }
    ensures bound { IfOk result (λ m. m.mark ≡ Mark.Bound → IsSpent budget.new) }
    ensures later { IsLater budget.old budget.new }
    ensures stop { IfErr result (λ e. e ≡ Stop.Memory) }
{
    let asked = AskedRow {
        given: *given,
        line: *line,
        regions,
    };
    match given.some {
        Some(p) => by_questions(alloc, &asked, p.as_slice(), budget),
        None => {
            let Ok(modulus) = unasked(alloc, &asked) else {
                return Err(Stop::Memory);
            };
            Ok(modulus)
        }
    }
}

/// The modulus of a row, from the forms of the distances. The regions become the slice of the next row, if there is one.
fn made(
    alloc: Global,
    given: &Given<'_>,
    line: &Line<'_>,
    regions: &mut [Region],
    budget: &mut Budget,
) -> Result<Modulus, Stop>
    requires given { IsGiven given.now }
    requires line { IsLine given.now line.now }
    requires slices { AreSlicesOf given.now line.now.k regions.old }
    requires none { IfNone given.now.some.now (IsSpent budget.old) }
    ensures kept { IfOk result (IsKeptFor given.now line.now) }
    ensures bound { IfOk result (λ m. m.mark ≡ Mark.Bound → IsSpent budget.new) }
    ensures slices { OnOk result (line.now.k + 1 < length given.now.rows.now → AreSlicesOf given.now (line.now.k + 1) regions.new) }
    ensures later { IsLater budget.old budget.new }
    ensures stop { IfErr result (λ e. e ≡ Stop.Memory) }
{
    let modulus = modulus_along(alloc, given, line, regions, budget)?;
    if given.rows.len() <= line.k + 1 {
        return Ok(modulus);
    }
    let Ok(()) = narrow_all(regions, line.fs, line.gs) else {
        return Err(Stop::Memory);
    };
    Ok(modulus)
}

/// The modulus of the row with this number. The regions become the slice of the next row, if there is one.
pub fn row_done(
    alloc: Global,
    given: &Given<'_>,
    k: usize,
    row: &Form,
    regions: &mut [Region],
    budget: &mut Budget,
) -> Result<Modulus, Stop>
    requires given { IsGiven given.now }
    requires row { slice_get given.now.rows.now k ≡ Some row.now }
    requires slices { AreSlicesOf given.now k regions.old }
    requires none { IfNone given.now.some.now (IsSpent budget.old) }
    ensures kept { IfOk result (IsKept given.now.context.now given.now.ranges.now given.now.pairs.now given.now.rows.now k row.now) }
    ensures bound { IfOk result (λ m. m.mark ≡ Mark.Bound → IsSpent budget.new) }
    ensures slices { OnOk result (k + 1 < length given.now.rows.now → AreSlicesOf given.now (k + 1) regions.new) }
    ensures later { IsLater budget.old budget.new }
    ensures stop { IfErr result (λ e. e ≡ Stop.Memory) }
{
    let coefs = row.coefs.as_slice();
    let Ok(fs) = forward(alloc, coefs, given.pairs) else {
        return Err(Stop::Memory);
    };
    let Ok(gs) = opposites(alloc, fs.as_slice()) else {
        return Err(Stop::Memory);
    };
    let line = Line {
        k,
        row,
        fs: fs.as_slice(),
        gs: gs.as_slice(),
    };
    made(alloc, given, &line, regions, budget)
}
