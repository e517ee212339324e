//! The questions of a leaf with instances of parts that store the array.
ghost use Rattle.std.specs.Prelude.{◌≡◌, ◌+◌, ◌≤◌, ◌++◌, ◌∷◌, [], length, flat_map, IfOk, OnOk};
ghost use Rattle.std.specs.List.{All};
ghost use Rattle.affc_trace.specs.Law.{IsIn};
ghost use Rattle.affc_nest.specs.Parts.{coordinates};
ghost use Rattle.affc_flow.specs.Questions.{beside_rows};
ghost use Rattle.affc_quast.specs.SeenLeaves.{leaf_seen};
ghost use Rattle.affc_order.specs.Placed.{IsPlaced};
ghost use Rattle.affc_life.specs.Drafts.{instance_named};
ghost use Rattle.affc_questions.specs.Asked.{IsReading, IsWriter};
ghost use Rattle.affc_questions.specs.Listed.{asked, earlier_listed, between_listed, all_earlier, all_between};

use crate::lists::{add_each, add_joined};
use crate::ranged::Ranged;
use crate::reading::Reading;
use crate::rows::add_equals;
use crate::writer::Writer;
use affc_flow::store_for;
use affc_life::stores::{coordinates, front_rows, loaded, stored, stored_after, stored_before};
use affc_nest::Entry;
use affc_quast::leaves::{Leaf, Named};
use affc_rows::Form;
use affc_trace::schedule::Schedule;
use sqlite_items::Items;
use std::alloc::{AllocError, Global};

/// The columns of a leaf and the coordinates of a part.
fn columns_beside(leaf: &Leaf, writer: &Entry) -> u32
    requires leaf { leaf.now.columns ≤ 410 }
    requires writer { coordinates writer.now ≤ 6 }
    ensures { result ≡ leaf.now.columns + coordinates writer.now }
{
    leaf.columns + coordinates(writer)
}

/// The path, the part's domain, and equal subscripts.
fn beside_rows(
    alloc: Global,
    reading: &Reading<'_>,
    writer: &Writer<'_>,
) -> Result<Items<Form>, AllocError>
    requires reading { IsReading reading.now }
    requires writer { IsWriter reading.now.nest.now writer.now.entry.now writer.now.store.now }
    ensures { IfOk result (λ r. r ≡ beside_rows reading.now.nest.now reading.now.reader.now reading.now.load.now [] (leaf_seen reading.now.leaf.now) writer.now.entry.now writer.now.store.now) }
{
    let (nest, reader, leaf) = (reading.nest, reading.reader, reading.leaf);
    let entry = writer.entry;
    let columns = columns_beside(leaf, entry);
    let front = front_rows(alloc, nest, reader, leaf, entry)?;
    let read = loaded(alloc, nest, reader, reading.load, leaf, entry)?;
    let written = stored(alloc, nest, reader, leaf, entry, writer.store)?;
    let mut rows = Items::from_vec(front);
    add_equals(
        alloc,
        columns,
        read.as_slice(),
        written.as_slice(),
        &mut rows,
    )?;
    Ok(rows)
}

/// Adds the questions whether an instance of the part is earlier than the load.
fn add_earlier(
    alloc: Global,
    reading: &Reading<'_>,
    writer: &Writer<'_>,
    out: &mut Vec<Ranged>,
) -> Result<(), AllocError>
    requires reading { IsReading reading.now }
    requires writer { IsWriter reading.now.nest.now writer.now.entry.now writer.now.store.now }
    ensures { OnOk result (flat_map asked out.new.items ≡ flat_map asked out.old.items ++ earlier_listed reading.now.nest.now reading.now.reader.now reading.now.load.now (leaf_seen reading.now.leaf.now) writer.now.entry.now writer.now.store.now) }
{
    let (nest, reader, leaf) = (reading.nest, reading.reader, reading.leaf);
    let columns = columns_beside(leaf, writer.entry);
    let front = beside_rows(alloc, reading, writer)?;
    let before = stored_before(alloc, nest, &Schedule::Source, reader, leaf, writer.entry)?;
    let ranges = writer.entry.ranges.clone()?;
    add_each(alloc, columns, front, before, ranges, out)
}

/// Adds the questions whether an instance of the part is later than the one that is named and earlier than the load.
fn add_between(
    alloc: Global,
    reading: &Reading<'_>,
    named: &Named,
    writer: &Writer<'_>,
    out: &mut Vec<Ranged>,
) -> Result<(), AllocError>
    requires reading { IsReading reading.now }
    requires named { IsPlaced reading.now.nest.now reading.now.leaf.now.columns (instance_named named.now) }
    requires writer { IsWriter reading.now.nest.now writer.now.entry.now writer.now.store.now }
    ensures { OnOk result (flat_map asked out.new.items ≡ flat_map asked out.old.items ++ between_listed reading.now.nest.now reading.now.reader.now reading.now.load.now (leaf_seen reading.now.leaf.now) writer.now.entry.now writer.now.store.now (instance_named named.now)) }
{
    let (nest, reader, leaf) = (reading.nest, reading.reader, reading.leaf);
    let entry = writer.entry;
    let columns = columns_beside(leaf, entry);
    let front = beside_rows(alloc, reading, writer)?;
    let before = stored_before(alloc, nest, &Schedule::Source, reader, leaf, entry)?;
    let after = stored_after(alloc, nest, &Schedule::Source, reader, leaf, named, entry)?;
    let ranges = entry.ranges.clone()?;
    add_joined(alloc, columns, front, after, before, ranges, out)
}

/// Adds those of a part, if it stores the array.
fn add_earlier_of(
    alloc: Global,
    reading: &Reading<'_>,
    entry: &Entry,
    out: &mut Vec<Ranged>,
) -> Result<(), AllocError>
    requires reading { IsReading reading.now }
    requires entry { IsIn entry.now reading.now.nest.now.entries }
    ensures { OnOk result (flat_map asked out.new.items ≡ flat_map asked out.old.items ++ all_earlier reading.now.nest.now reading.now.reader.now reading.now.load.now (leaf_seen reading.now.leaf.now) (entry.now ∷ [])) }
{
    match store_for(entry, reading.load.array.0) {
        None => Ok(()),
        Some(store) => add_earlier(alloc, reading, &Writer { entry, store }, out),
    }
}

/// Adds the questions whether an instance that stores the array is earlier than the load. The recursion is into halves.
pub(crate) fn add_all_earlier(
    alloc: Global,
    reading: &Reading<'_>,
    entries: &[Entry],
    out: &mut Vec<Ranged>,
) -> Result<(), AllocError>
    requires reading { IsReading reading.now }
    requires entries { All (λ e. IsIn e reading.now.nest.now.entries) entries.now }
    ensures { OnOk result (flat_map asked out.new.items ≡ flat_map asked out.old.items ++ all_earlier reading.now.nest.now reading.now.reader.now reading.now.load.now (leaf_seen reading.now.leaf.now) entries.now) }
{
    match entries {
        [] => Ok(()),
        [entry] => add_earlier_of(alloc, reading, entry, out),
        _ => {
            let (first, others) = entries.split_at(entries.len() / 2);
            add_all_earlier(alloc, reading, first, out)?;
            add_all_earlier(alloc, reading, others, out)
        }
    }
}

/// Adds those of a part, if it stores the array.
fn add_between_of(
    alloc: Global,
    reading: &Reading<'_>,
    named: &Named,
    entry: &Entry,
    out: &mut Vec<Ranged>,
) -> Result<(), AllocError>
    requires reading { IsReading reading.now }
    requires named { IsPlaced reading.now.nest.now reading.now.leaf.now.columns (instance_named named.now) }
    requires entry { IsIn entry.now reading.now.nest.now.entries }
    ensures { OnOk result (flat_map asked out.new.items ≡ flat_map asked out.old.items ++ all_between reading.now.nest.now reading.now.reader.now reading.now.load.now (leaf_seen reading.now.leaf.now) (instance_named named.now) (entry.now ∷ [])) }
{
    match store_for(entry, reading.load.array.0) {
        None => Ok(()),
        Some(store) => add_between(alloc, reading, named, &Writer { entry, store }, out),
    }
}

/// Adds the questions whether an instance that stores the array is later than the one that is named and earlier than the load.
/// The recursion is into halves.
pub(crate) fn add_all_between(
    alloc: Global,
    reading: &Reading<'_>,
    named: &Named,
    entries: &[Entry],
    out: &mut Vec<Ranged>,
) -> Result<(), AllocError>
    requires reading { IsReading reading.now }
    requires named { IsPlaced reading.now.nest.now reading.now.leaf.now.columns (instance_named named.now) }
    requires entries { All (λ e. IsIn e reading.now.nest.now.entries) entries.now }
    ensures { OnOk result (flat_map asked out.new.items ≡ flat_map asked out.old.items ++ all_between reading.now.nest.now reading.now.reader.now reading.now.load.now (leaf_seen reading.now.leaf.now) (instance_named named.now) entries.now) }
{
    match entries {
        [] => Ok(()),
        [entry] => add_between_of(alloc, reading, named, entry, out),
        _ => {
            let (first, others) = entries.split_at(entries.len() / 2);
            add_all_between(alloc, reading, named, first, out)?;
            add_all_between(alloc, reading, named, others, out)
        }
    }
}
