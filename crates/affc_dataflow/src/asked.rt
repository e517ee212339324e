//! The questions of a leaf under the rows of a path, as whole systems.
ghost use Rattle.std.specs.Prelude.{◌≡◌, ◌+◌, ◌≤◌, ◌++◌, IsTrue, Some, None, drop, flat_map, length, map, IfOk, IfSome, OnOk, OnSome};
ghost use Rattle.affc_nest.specs.Parts.{coordinates};
ghost use Rattle.affc_order.specs.Placed.{IsPlaced};
ghost use Rattle.affc_order.specs.Posed.{Posed};
ghost use Rattle.affc_quast.specs.SeenLeaves.{named_seen, leaf_seen};
ghost use Rattle.affc_flow.specs.Questions.{leaf_questions};
ghost use Rattle.affc_questions.specs.Asked.{IsLeafOf};
ghost use Rattle.affc_questions.specs.Listed.{in_ranges};
ghost use Rattle.affc_dataflow.specs.Guesses.{asked, leaf_under};
ghost use Rattle.affc_dataflow.specs.Searches.{IsLoad};

use crate::path::Place;
use affc_flow::load::Load;
use affc_flow::questions::Unasked;
use affc_flow::ranges::joined_ranges;
use affc_nest::Nest;
use affc_nest::lists::copied;
use affc_quast::leaves::{Leaf, Named};
use affc_questions::ranged::systems;
use affc_questions::{Ranged, leaf_questions};
use affc_rows::Form;
use affc_system::{BoxOf, System, are_rows};
use sqlite_items::Items;
use std::alloc::{AllocError, Global};

/// A system, and the ranges of its columns.
#[derive(Drop)]
pub(crate) struct Question {
    pub(crate) system: System,
    pub(crate) ranges: BoxOf,
}

// ---- Systems of groups.

/// Adds the questions of systems in the same ranges.
fn add_systems(
    systems: Vec<System>,
    ranges: &BoxOf,
    out: &mut Vec<Question>,
) -> Result<(), AllocError>
    ensures { OnOk result (map asked out.new.items ≡ map asked out.old.items ++ map (λ s. record { system = s; ranges = ranges.now }) systems.items) }
{
    for system in systems {
        out.push(Question {
            system,
            ranges: ranges.clone()?,
        })?;
    }
    Ok(())
}

/// Adds the questions of a group, where the columns of the leaf have these ranges.
fn add_group(
    alloc: Global,
    ranges: &BoxOf,
    group: &Ranged,
    out: &mut Vec<Question>,
) -> Result<(), Unasked>
    ensures { OnOk result (map asked out.new.items ≡ map asked out.old.items ++ in_ranges ranges.now group.now) }
{
    let Some(systems) = systems(alloc, &group.group)? else {
        return Err(Unasked::Large);
    };
    let all = joined_ranges(ranges, &group.behind)?;
    add_systems(systems, &all, out)?;
    Ok(())
}

/// Adds those of groups. The recursion is into halves, since there may be many.
fn add_groups(
    alloc: Global,
    ranges: &BoxOf,
    groups: &[Ranged],
    out: &mut Vec<Question>,
) -> Result<(), Unasked>
    ensures { OnOk result (map asked out.new.items ≡ map asked out.old.items ++ flat_map (in_ranges ranges.now) groups.now) }
{
    match groups {
        [] => Ok(()),
        [group] => add_group(alloc, ranges, group, out),
        _ => {
            let (first, others) = groups.split_at(groups.len() / 2);
            add_groups(alloc, ranges, first, out)?;
            add_groups(alloc, ranges, others, out)
        }
    }
}

// ---- The leaf.

/// Whether an instance is one of a part, by a form for each of its coordinates within the limits of rows.
fn is_placed(nest: &Nest, columns: u32, named: &Named) -> bool
    ensures { IsTrue result → IsPlaced nest.now columns (record { part = named.now.part; iterators = named.now.forms }) }
{
    let Some(entry) = nest.entries.as_slice().get(named.part as usize) else {
        return false;
    };
    if named.forms.len() != entry.coordinates() {
        return false;
    }
    are_rows(columns, named.forms.as_slice())
}

/// The rows of a path behind those of the domain of the load's part, if its columns are that part's and perhaps more.
fn tests_of<'a>(load: &Load<'_>, path: &'a System) -> Option<&'a [Form]>
    ensures rows { IfSome result (λ r. r.now ≡ drop (length load.now.reader.now.domain.rows) path.now.rows) }
    ensures first { OnSome result (length load.now.nest.now.params + coordinates load.now.reader.now ≤ path.now.columns) }
{
    let columns = path.columns() as usize;
    let params = load.nest.params.ranges().len();
    if params > columns {
        return None;
    }
    if load.reader.coordinates() > columns - params {
        return None;
    }
    let rows = path.rows();
    let given = load.reader.domain.rows().len();
    if given > rows.len() {
        return None;
    }
    let (_domain, tests) = rows.split_at(given);
    Some(tests)
}

/// The leaf under a path that names this, if the path's columns are the load's and perhaps more.
fn leaf_of(
    alloc: Global,
    load: &Load<'_>,
    path: &System,
    named: Option<Named>,
) -> Result<Option<Leaf>, AllocError>
    requires load { IsLoad load.now.nest.now load.now.reader.now load.now.access.now load.now.number }
    requires named { (a : Posed) → named_seen named ≡ Some a → IsPlaced load.now.nest.now path.now.columns a }
    ensures is { IfOk result (λ o. IfSome o (λ l. leaf_seen l ≡ leaf_under load.now.reader.now path.now (named_seen named))) }
    ensures leaf { IfOk result (λ o. IfSome o (λ l. IsLeafOf load.now.nest.now load.now.reader.now load.now.access.now (leaf_seen l))) }
{
    let columns = path.columns();
    let _rows = path.rows();
    let Some(tests) = tests_of(load, path) else {
        return Ok(None);
    };
    let rows = copied(alloc, tests)?;
    let divisions = Items::new(alloc);
    Ok(Some(Leaf {
        columns,
        rows,
        divisions,
        named,
    }))
}

/// The questions of the leaf that names this under a path.
fn questions_of(
    alloc: Global,
    load: &Load<'_>,
    place: &Place<'_>,
    named: Option<Named>,
) -> Result<Vec<Question>, Unasked>
    requires load { IsLoad load.now.nest.now load.now.reader.now load.now.access.now load.now.number }
    requires named { (a : Posed) → named_seen named ≡ Some a → IsPlaced load.now.nest.now place.now.path.now.columns a }
    ensures { IfOk result (λ v. map asked v.items ≡ leaf_questions load.now.nest.now load.now.reader.now load.now.access.now place.now.ranges.now (leaf_under load.now.reader.now place.now.path.now (named_seen named))) }
{
    let Some(leaf) = leaf_of(alloc, load, place.path, named)? else {
        return Err(Unasked::Large);
    };
    let groups = leaf_questions(alloc, load.nest, load.reader, load.access, &leaf)?;
    let mut out = Vec::new(alloc);
    add_groups(alloc, place.ranges, groups.as_slice(), &mut out)?;
    Ok(out)
}

/// The questions whether no instance is read under a path.
pub(crate) fn input_questions(
    alloc: Global,
    load: &Load<'_>,
    place: &Place<'_>,
) -> Result<Vec<Question>, Unasked>
    requires load { IsLoad load.now.nest.now load.now.reader.now load.now.access.now load.now.number }
    ensures { IfOk result (λ v. map asked v.items ≡ leaf_questions load.now.nest.now load.now.reader.now load.now.access.now place.now.ranges.now (leaf_under load.now.reader.now place.now.path.now None)) }
{
    questions_of(alloc, load, place, None)
}

/// The questions whether this instance is read under a path.
pub(crate) fn source_questions(
    alloc: Global,
    load: &Load<'_>,
    place: &Place<'_>,
    part: u32,
    forms: &[Form],
) -> Result<Vec<Question>, Unasked>
    requires load { IsLoad load.now.nest.now load.now.reader.now load.now.access.now load.now.number }
    ensures { IfOk result (λ v. map asked v.items ≡ leaf_questions load.now.nest.now load.now.reader.now load.now.access.now place.now.ranges.now (leaf_under load.now.reader.now place.now.path.now (Some (record { part = part; iterators = forms.now })))) }
{
    let forms = copied(alloc, forms)?;
    let named = Named { part, forms };
    if !is_placed(load.nest, place.path.columns(), &named) {
        return Err(Unasked::Large);
    }
    questions_of(alloc, load, place, Some(named))
}
