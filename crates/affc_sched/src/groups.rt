//! The questions on a schedule in product form.
ghost use Rattle.std.specs.Prelude.{◌≡◌, ◌≤◌, ◌∷◌, [], length, map, flat_map, IfOk, OnOk};
ghost use Rattle.std.specs.List.{All};
ghost use Rattle.affc_order.specs.Placed.{IsOrder};
ghost use Rattle.affc_products.specs.Groups.{group_systems};
ghost use Rattle.affc_products.specs.Parts.{IsWithin};
ghost use Rattle.affc_sched.specs.Legality.{IsAsked};
ghost use Rattle.affc_sched.specs.Pairs.{AreAdded, IsGroupOf, IsPair, asked_of};
ghost use Rattle.affc_sched.specs.Questions.{legality_questions};

use crate::pairs::{Pair, asked_pairs};
use crate::systems::pair_rows;
use affc_nest::Nest;
use affc_order::{source_before, target_after};
use affc_products::Group;
use affc_rows::Form;
use affc_system::System;
use affc_trace::schedule::Schedule;
use sqlite_items::Items;
use std::alloc::{AllocError, Global};

/// The group of a system's rows, with orders as its factors.
fn group_with(
    alloc: Global,
    pair: System,
    earlier: Vec<Items<Form>>,
    later: Vec<Items<Form>>,
) -> Result<Group, AllocError>
    requires pair { length pair.rows ≤ 900 }
    requires earlier { All (IsOrder pair.columns) earlier.items }
    requires later { All (IsOrder pair.columns) later.items }
    ensures value { IfOk result (λ g. g ≡ record { columns = pair.columns; front = pair.rows; factors = earlier.items ∷ later.items ∷ [] }) }
    ensures within { IfOk result (λ g. All IsWithin (group_systems g)) }
{
    let columns = pair.columns();
    let mut factors = Items::new(alloc);
    factors.push(Items::from_vec(earlier))?;
    factors.push(Items::from_vec(later))?;
    let front = Items::from_vec(pair.into_rows());
    Ok(Group {
        columns,
        front,
        factors,
    })
}

/// The questions on two accesses as a group, unless there is none. Their rows are made only where the source has an order and the
/// target one.
pub fn pair_group(
    alloc: Global,
    nest: &Nest,
    schedule: &Schedule,
    pair: &Pair<'_>,
) -> Result<Option<Group>, AllocError>
    requires asked { IsAsked nest.now schedule.now }
    requires pair { IsPair nest.now pair.now }
    ensures { IfOk result (λ g. IsGroupOf g (asked_of nest.now schedule.now pair.now)) }
{
    let (first, second) = (pair.from.entry, pair.to.entry);
    let earlier = source_before(alloc, nest, first.part, second.part)?;
    if earlier.is_empty() {
        return Ok(None);
    }
    let later = target_after(alloc, nest, schedule, first.part, second.part)?;
    if later.is_empty() {
        return Ok(None);
    }
    let rows = pair_rows(alloc, nest, first, second, pair.from.access, pair.to.access)?;
    let group = group_with(alloc, rows, earlier, later)?;
    Ok(Some(group))
}

/// Adds the questions on two accesses, if there are any.
fn add_group(
    alloc: Global,
    nest: &Nest,
    schedule: &Schedule,
    pair: &Pair<'_>,
    out: &mut Vec<Group>,
) -> Result<(), AllocError>
    requires asked { IsAsked nest.now schedule.now }
    requires pair { IsPair nest.now pair.now }
    ensures { OnOk result (AreAdded out.old.items out.new.items (asked_of nest.now schedule.now pair.now)) }
{
    match pair_group(alloc, nest, schedule, pair)? {
        None => Ok(()),
        Some(group) => {
            out.push(group)?;
            Ok(())
        }
    }
}

/// The questions on a schedule, whose systems are to have no integer point, in groups: at most one for each two accesses of one
/// array of which one stores, and none where they have no question.
pub fn legality_groups(
    alloc: Global,
    nest: &Nest,
    schedule: &Schedule,
) -> Result<Vec<Group>, AllocError>
    requires { IsAsked nest.now schedule.now }
    ensures value { IfOk result (λ v. flat_map group_systems v.items ≡ map (λ q. q.system) (legality_questions nest.now schedule.now)) }
    ensures within { IfOk result (λ v. All IsWithin (flat_map group_systems v.items)) }
{
    let pairs = asked_pairs(alloc, nest, schedule)?;
    let mut groups = Vec::new(alloc);
    for pair in pairs.as_slice() {
        add_group(alloc, nest, schedule, pair, &mut groups)?;
    }
    Ok(groups)
}
