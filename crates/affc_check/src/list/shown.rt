//! What a certificate shows of a modulus.
ghost use Rattle.std.specs.Prelude.{flat_map, ◌≡◌, ◌≤◌, length, map, Some, None, IfOk, IfErr, IfSome, IfNone, OnOk};
ghost use Rattle.std.specs.Cmp.Lexicographic.{slice_cmp};
ghost use Rattle.std.specs.Ordering.{is_eq, int_cmp};
ghost use Rattle.affc_basis.specs.Moduli.{IsModulus};
ghost use Rattle.affc_nest.specs.Asked.{IsNest};
ghost use Rattle.affc_nest.specs.Nests.{nowhere};
ghost use Rattle.affc_sched.specs.Touched.{Each};
ghost use Rattle.affc_certvalue.specs.fold.Limits.{IsMarkWithin};
ghost use Rattle.affc_questions.specs.Asked.{IsAlong};
ghost use Rattle.affc_check.specs.list.Certs.{least_said};
ghost use Rattle.affc_check.specs.list.Held.{listed_said, point_item, context_item, no_item};
ghost use Rattle.affc_check.specs.list.Items.{numbered, is_point_at, farthest, pair_in, pair_item, mark_items};
ghost use Rattle.affc_check.specs.list.Limits.{AnyPasses};
ghost use Rattle.affc_check.specs.list.Listed.{AreListed};
ghost use Rattle.affc_check.specs.list.Walks.{clash_systems};
ghost use Rattle.affc_life.specs.Products.{found_system};
ghost use Rattle.affc_nest.specs.Domains.{with_rows};
ghost use Rattle.affc_system.specs.Systems.{IsRow};
ghost use Rattle.std.specs.List.{All};

use crate::list::item::{Listed, Point};
use crate::list::listing::{add_long, add_point};
use crate::list::stop::Stop;
use affc_certvalue::fold::fold::CertLeast;
use affc_life::{ClashProduct, Found, found_at};
use affc_nest::Nest;
use affc_nest::lists::{add_copies, copied};
use affc_questions::{Long, greater_question, is_behind, one_system, shown_rows, whole_context};
use affc_rows::Form;
use affc_system::PairSystem;
use smallvec::SmallVec;
use sqlite_items::Items;
use std::alloc::{AllocError, Global};

/// A row of a fold's basis, with its number and its modulus, and the clash systems of the array.
#[derive(Clone, Copy, Drop)]
pub struct Along<'a> {
    pub nest: &'a Nest,
    pub systems: &'a [ClashProduct],
    pub rows: &'a [Form],
    pub k: usize,
    pub row: &'a Form,
    pub modulus: &'a Form,
}

/// The clash system with this number: its product, and its rows behind the product's.
pub fn system_at<'a>(
    alloc: Global,
    systems: &'a [ClashProduct],
    number: i64,
) -> Result<Option<Found<'a>>, AllocError>
    ensures some { IfOk result (λ o. IfSome o (λ f. numbered (clash_systems systems.now) number ≡ Some (found_system f))) }
    ensures fit { IfOk result (λ o. IfSome o (λ f. All (IsRow f.product.now.base.system.columns) f.rows)) }
    ensures none { IfOk result (λ o. IfNone o (numbered (clash_systems systems.now) number ≡ None)) }
{
    match usize::try_from(number) {
        Ok(n) => found_at(alloc, systems, n),
        Err(_) => Ok(None),
    }
}

/// Whether two lists have the same numbers.
fn same(a: &[i64], b: &[i64]) -> bool
    ensures { result ≡ is_eq (slice_cmp int_cmp a.now b.now) }
{
    a.cmp(b).is_eq()
}

/// Whether the point has a number for each column of the system, the first ones being p.
pub(crate) fn is_at(parameters: usize, p: &[i64], point: &[i64], pair: &PairSystem) -> bool
    requires { parameters ≤ pair.now.system.columns }
    ensures { result ≡ is_point_at parameters p.now point.now pair.now }
{
    if point.len() != pair.system.columns() as usize {
        return false;
    }
    same(&point[..parameters], p)
}

/// A system without points, over no columns.
fn no_system(alloc: Global) -> Result<Long, AllocError>
    ensures { IfOk result (λ s. s ≡ nowhere 0) }
{
    let mut rows = Items::new(alloc);
    rows.push(Form {
        coefs: SmallVec::new(alloc),
        constant: -1,
    })?;
    Ok(Long::new(0, rows))
}

/// What shows nothing.
fn nothing(alloc: Global) -> Result<Point, AllocError>
    ensures { IfOk result (λ x. point_item x ≡ no_item) }
{
    let system = no_system(alloc)?;
    let point = Items::new(alloc);
    Ok(Point { system, point })
}

/// The rows of a clash system, and these behind them.
fn with_tail(alloc: Global, found: &Found<'_>, tail: &[Form]) -> Result<Long, AllocError>
    requires found { All (IsRow found.now.product.now.base.system.columns) found.now.rows }
    requires tail { All (IsRow found.now.product.now.base.system.columns) tail.now }
    ensures is { IfOk result (λ s. s ≡ with_rows (found_system found.now).system tail.now) }
    ensures columns { IfOk result (λ s. s.columns ≤ 128) }
    ensures rows { IfOk result (λ s. All (IsRow s.columns) s.rows) }
{
    let system = &found.product.base.system;
    let columns = system.columns();
    let mut rows = copied(alloc, system.rows())?;
    add_copies(found.rows.as_slice(), &mut rows)?;
    add_copies(tail, &mut rows)?;
    Ok(Long::new(columns, rows))
}

/// That two elements of a clash system lie apart at a point by the modulus less 1.
fn apart(
    alloc: Global,
    along: &Along<'_>,
    found: &Found<'_>,
    point: &[i64],
) -> Result<Point, AllocError>
    requires along { IsAlong along.now.rows.now along.now.row.now along.now.modulus.now (found_system found.now) }
    requires found { All (IsRow found.now.product.now.base.system.columns) found.now.rows }
    requires point { length point.now ≡ found.now.product.now.base.system.columns }
    ensures { IfOk result (λ x. point_item x ≡ farthest along.now.nest.now along.now.rows.now along.now.k along.now.row.now along.now.modulus.now (found_system found.now) point.now) }
{
    let (rows, k, row, modulus) = (along.rows, along.k, along.row, along.modulus);
    let base = &found.product.base;
    let turned = is_behind(alloc, row, base, point)?;
    let tail = shown_rows(alloc, rows, k, row, modulus, base, turned)?;
    let system = with_tail(alloc, found, tail.as_slice())?;
    let point = Items::from_slice(alloc, point)?;
    Ok(Point { system, point })
}

/// That the elements of the clash system with this number lie apart at a point of p by the modulus less 1.
fn pair_shown(
    alloc: Global,
    along: &Along<'_>,
    p: &[i64],
    number: i64,
    point: &[i64],
) -> Result<Point, AllocError>
    requires along { Each (IsAlong along.now.rows.now along.now.row.now along.now.modulus.now) (clash_systems along.now.systems.now) }
    requires modulus { IsModulus along.now.nest.now.context.columns along.now.modulus.now }
    ensures { IfOk result (λ x. point_item x ≡ pair_in along.now.nest.now along.now.rows.now along.now.k along.now.row.now along.now.modulus.now p.now point.now (numbered (clash_systems along.now.systems.now) number)) }
{
    let Some(found) = system_at(alloc, along.systems, number)? else {
        return nothing(alloc);
    };
    let parameters = along.nest.context.columns() as usize;
    if !is_at(parameters, p, point, &found.product.base) {
        return nothing(alloc);
    }
    apart(alloc, along, &found, point)
}

/// That the modulus is 1 at p, or a pair there.
fn need_shown(alloc: Global, along: &Along<'_>, least: &CertLeast) -> Result<Point, AllocError>
    requires nested { IsNest along.now.nest.now }
    requires along { Each (IsAlong along.now.rows.now along.now.row.now along.now.modulus.now) (clash_systems along.now.systems.now) }
    requires modulus { IsModulus along.now.nest.now.context.columns along.now.modulus.now }
    ensures { IfOk result (λ x. point_item x ≡ pair_item along.now.nest.now along.now.rows.now along.now.k along.now.row.now along.now.modulus.now (clash_systems along.now.systems.now) least.now.p least.now.pair) }
{
    match &least.pair {
        None => {
            let system = one_system(alloc, along.nest, along.modulus)?;
            let point = Items::from_slice(alloc, least.p.as_slice())?;
            Ok(Point { system, point })
        }
        Some((number, point)) => {
            pair_shown(alloc, along, least.p.as_slice(), *number, point.as_slice())
        }
    }
}

/// A p in the context.
pub(crate) fn context_shown(alloc: Global, nest: &Nest, p: &[i64]) -> Result<Point, AllocError>
    requires { IsNest nest.now }
    ensures { IfOk result (λ x. point_item x ≡ context_item nest.now p.now) }
{
    let system = whole_context(alloc, nest)?;
    let point = Items::from_slice(alloc, p)?;
    Ok(Point { system, point })
}

/// Adds what shows that a modulus is least, if it is said.
pub(crate) fn add_mark(
    alloc: Global,
    along: &Along<'_>,
    least: &Option<CertLeast>,
    out: &mut Vec<Listed<'_>>,
) -> Result<(), Stop>
    requires nested { IsNest along.now.nest.now }
    requires along { Each (IsAlong along.now.rows.now along.now.row.now along.now.modulus.now) (clash_systems along.now.systems.now) }
    requires modulus { IsModulus along.now.nest.now.context.columns along.now.modulus.now }
    requires mark { IsMarkWithin along.now.nest.now.context.columns least.now }
    ensures ok { OnOk result (AreListed (flat_map listed_said out.old.items) (flat_map listed_said out.new.items) (mark_items along.now.nest.now along.now.rows.now along.now.k along.now.row.now along.now.modulus.now (clash_systems along.now.systems.now) (least_said least.now))) }
    ensures past { IfErr result (λ e. e ≡ Stop.Past → AnyPasses (mark_items along.now.nest.now along.now.rows.now along.now.k along.now.row.now along.now.modulus.now (clash_systems along.now.systems.now) (least_said least.now))) }
{
    match least {
        None => Ok(()),
        Some(least) => {
            let p = least.p.as_slice();
            add_point(out, context_shown(alloc, along.nest, p)?)?;
            add_point(out, need_shown(alloc, along, least)?)?;
            let greater = greater_question(alloc, along.nest, along.modulus, p)?;
            add_long(alloc, &greater, out)
        }
    }
}
