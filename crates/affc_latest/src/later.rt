//! The later of two instances.
ghost use Rattle.std.specs.Prelude.{◌≡◌, ◌↔◌, ◌⊎◌, ◌++◌, ◌≤◌, length, map, IsTrue, IfOk, IfSome};
ghost use Rattle.std.specs.List.{All};
ghost use Rattle.affc_nest.specs.Asked.{IsNest};
ghost use Rattle.affc_order.specs.Laws.{IsPointOfOne};
ghost use Rattle.affc_order.specs.Placed.{IsOrder};
ghost use Rattle.affc_order.specs.Systems.{over, source_systems};
ghost use Rattle.affc_latest.specs.Stores.{IsNumbered, IsLaterOf};

use crate::pairs::with_order;
use affc_ast::tree::Instance;
use affc_nest::Nest;
use affc_order::source_before;
use affc_rows::Form;
use affc_system::System;
use sqlite_items::Items;
use std::alloc::{AllocError, Global};

/// Whether the point meets the rows of one of these orders.
fn meets_one(
    alloc: Global,
    columns: u32,
    orders: &[Items<Form>],
    point: &[i64],
) -> Result<bool, AllocError>
    requires few { columns ≤ 128 }
    requires fit { All (IsOrder columns) orders.now }
    requires long { length point.now ≡ columns }
    ensures { IfOk result (λ t. IsTrue t ↔ IsPointOfOne (map (over columns) orders.now) point.now) }
{
    match orders {
        [] => Ok(false),
        [order, rest @ ..] => {
            let system = with_order(&System::new(alloc, columns), order.as_slice())?;
            if system.holds_at(point) {
                Ok(true)
            } else {
                meets_one(alloc, columns, rest, point)
            }
        }
    }
}

/// Three lists of numbers, one behind the other.
#[tactic(auto, using(crate::proofs::LaterLemmas::three_lists))]
fn joined(alloc: Global, p: &[i64], first: &[i64], second: &[i64]) -> Result<Items<i64>, AllocError>
    ensures { IfOk result (λ z. z ≡ p.now ++ (first.now ++ second.now)) }
{
    let mut point = Items::from_slice(alloc, p)?;
    let front = Items::from_slice(alloc, first)?;
    point.append(front)?;
    let back = Items::from_slice(alloc, second)?;
    point.append(back)?;
    Ok(point)
}

/// Whether the first of two instances is earlier.
fn is_earlier(
    alloc: Global,
    nest: &Nest,
    p: &[i64],
    first: &Instance,
    second: &Instance,
) -> Result<bool, AllocError>
    requires nest { IsNest nest.now }
    requires params { length p.now ≡ length nest.now.params }
    requires first { IsNumbered nest.now first.now }
    requires second { IsNumbered nest.now second.now }
    ensures { IfOk result (λ t. IsTrue t ↔ IsPointOfOne (source_systems nest.now first.now.statement second.now.statement) (p.now ++ (first.now.iterators ++ second.now.iterators))) }
{
    let orders = source_before(alloc, nest, first.statement, second.statement)?;
    let point = joined(
        alloc,
        p,
        first.iterators.as_slice(),
        second.iterators.as_slice(),
    )?;
    let columns = point.len() as u32;
    meets_one(alloc, columns, orders.as_slice(), point.as_slice())
}

/// The later of two instances, of which there may be none.
pub(crate) fn later(
    alloc: Global,
    nest: &Nest,
    p: &[i64],
    first: Option<Instance>,
    second: Option<Instance>,
) -> Result<Option<Instance>, AllocError>
    requires nest { IsNest nest.now }
    requires params { length p.now ≡ length nest.now.params }
    requires first { IfSome first (IsNumbered nest.now) }
    requires second { IfSome second (IsNumbered nest.now) }
    ensures later { IfOk result (IsLaterOf nest.now p.now first second) }
    ensures either { IfOk result (λ o. (o ≡ first) ⊎ (o ≡ second)) }
{
    match first {
        None => Ok(second),
        Some(u) => match second {
            None => Ok(Some(u)),
            Some(w) => {
                let earlier = is_earlier(alloc, nest, p, &u, &w)?;
                if earlier { Ok(Some(w)) } else { Ok(Some(u)) }
            }
        },
    }
}
