//! The clash systems of a load, a leaf of its tree and a store, as drafts.
ghost use Rattle.std.specs.Prelude.{◌≡◌, ◌+◌, ◌≤◌, ◌++◌, drop, length, map, flat_map, IsTrue, IfOk, OnOk};
ghost use Rattle.std.specs.List.{All};
ghost use Rattle.affc_trace.specs.Law.{IsIn};
ghost use Rattle.affc_nest.specs.Parts.{coordinates};
ghost use Rattle.affc_order.specs.Asked.{IsScheduled};
ghost use Rattle.affc_order.specs.Placed.{IsPlaced};
ghost use Rattle.affc_order.specs.Systems.{rows_in};
ghost use Rattle.affc_quast.specs.SeenLeaves.{leaf_seen};
ghost use Rattle.affc_life.specs.Asked.{AreSeated, StandBeside};
ghost use Rattle.affc_life.specs.Clashes.{of_reader, of_writer, front_rows, clashes_of_store};
ghost use Rattle.affc_life.specs.Drafts.{drafted, instance_named, after_named, before_load, AreScheduled, walk_of};

use crate::columns::add_padded;
use crate::draft::{Draft, Walking};
use crate::drafts::factors_between;
use crate::ranges::clash_ranges;
use affc_nest::{Access, Entry, Nest};
use affc_order::columns::{add_spread, columns_from};
use affc_order::{Placed, target_order};
use affc_quast::leaves::{Leaf, Named};
use affc_rows::Form;
use affc_sched::systems::own_rows;
use affc_trace::schedule::Schedule;
use sqlite_items::Items;
use std::alloc::{AllocError, Global};

/// The number of parameters.
pub fn params_in(nest: &Nest) -> u32
    requires { length nest.now.params ≤ 4 }
    ensures { result ≡ length nest.now.params }
{
    nest.params.ranges().len() as u32
}

/// How many coordinates an instance of a part has.
pub fn coordinates(entry: &Entry) -> u32
    requires { coordinates entry.now ≤ 6 }
    ensures { result ≡ coordinates entry.now }
{
    entry.coordinates() as u32
}

/// The columns of a leaf and the coordinates of a writer.
fn columns_in(leaf: &Leaf, writer: &Entry) -> u32
    requires leaf { leaf.now.columns ≤ 410 }
    requires writer { coordinates writer.now ≤ 6 }
    ensures { result ≡ leaf.now.columns + coordinates writer.now }
{
    leaf.columns + coordinates(writer)
}

/// The rows of the reader's domain, of the leaf, and of the writer's domain.
pub fn front_rows(
    alloc: Global,
    nest: &Nest,
    reader: &Entry,
    leaf: &Leaf,
    writer: &Entry,
) -> Result<Vec<Form>, AllocError>
    requires { StandBeside nest.now reader.now (leaf_seen leaf.now) writer.now }
    ensures { IfOk result (λ v. v.items ≡ front_rows nest.now reader.now (leaf_seen leaf.now) writer.now) }
{
    let params = params_in(nest);
    let columns = columns_in(leaf, writer);
    let own = own_rows(nest, writer);
    let mut rows = Vec::new(alloc);
    add_padded(alloc, columns, reader.domain.rows(), &mut rows)?;
    add_padded(alloc, columns, leaf.rows.as_slice(), &mut rows)?;
    let between = leaf.columns - params;
    add_spread(alloc, own, params, between, 0, &mut rows)?;
    Ok(rows)
}

/// The subscripts of the element that is loaded.
pub fn loaded(
    alloc: Global,
    nest: &Nest,
    reader: &Entry,
    load: &Access,
    leaf: &Leaf,
    writer: &Entry,
) -> Result<Vec<Form>, AllocError>
    requires seated { StandBeside nest.now reader.now (leaf_seen leaf.now) writer.now }
    requires load { IsIn load.now reader.now.accesses }
    ensures { IfOk result (λ v. v.items ≡ map (of_reader nest.now reader.now (leaf_seen leaf.now) writer.now) load.now.subs) }
{
    let columns = columns_in(leaf, writer);
    let mut subs = Vec::new(alloc);
    add_padded(alloc, columns, load.subs.as_slice(), &mut subs)?;
    Ok(subs)
}

/// The subscripts of the element that is stored.
pub fn stored(
    alloc: Global,
    nest: &Nest,
    reader: &Entry,
    leaf: &Leaf,
    writer: &Entry,
    store: &Access,
) -> Result<Vec<Form>, AllocError>
    requires seated { StandBeside nest.now reader.now (leaf_seen leaf.now) writer.now }
    requires store { IsIn store.now writer.now.accesses }
    ensures { IfOk result (λ v. v.items ≡ map (of_writer nest.now reader.now (leaf_seen leaf.now) writer.now) store.now.subs) }
{
    let params = params_in(nest);
    let mut subs = Vec::new(alloc);
    let between = leaf.columns - params;
    add_spread(alloc, store.subs.as_slice(), params, between, 0, &mut subs)?;
    Ok(subs)
}

/// The rows that say that the schedule runs the store after the instance that the leaf names.
pub fn stored_after(
    alloc: Global,
    nest: &Nest,
    schedule: &Schedule,
    reader: &Entry,
    leaf: &Leaf,
    named: &Named,
    writer: &Entry,
) -> Result<Vec<Items<Form>>, AllocError>
    requires asked { IsScheduled nest.now schedule.now }
    requires seated { StandBeside nest.now reader.now (leaf_seen leaf.now) writer.now }
    requires named { IsPlaced nest.now leaf.now.columns (instance_named named.now) }
    ensures { IfOk result (λ v. v.items ≡ map rows_in (after_named nest.now schedule.now reader.now (leaf_seen leaf.now) (instance_named named.now) writer.now)) }
{
    let own = coordinates(writer);
    let columns = columns_in(leaf, writer);
    let mut names = Vec::new(alloc);
    add_padded(alloc, columns, named.forms.as_slice(), &mut names)?;
    let stores = columns_from(alloc, columns, leaf.columns, own)?;
    let first = Placed {
        part: named.part,
        forms: names.as_slice(),
    };
    let second = Placed {
        part: writer.part,
        forms: stores.as_slice(),
    };
    target_order(alloc, nest, schedule, columns, &first, &second)
}

/// The rows that say that the schedule runs the store before the load.
pub fn stored_before(
    alloc: Global,
    nest: &Nest,
    schedule: &Schedule,
    reader: &Entry,
    leaf: &Leaf,
    writer: &Entry,
) -> Result<Vec<Items<Form>>, AllocError>
    requires asked { IsScheduled nest.now schedule.now }
    requires seated { StandBeside nest.now reader.now (leaf_seen leaf.now) writer.now }
    ensures { IfOk result (λ v. v.items ≡ map rows_in (before_load nest.now schedule.now reader.now (leaf_seen leaf.now) writer.now)) }
{
    let params = params_in(nest);
    let own = coordinates(writer);
    let columns = columns_in(leaf, writer);
    let stores = columns_from(alloc, columns, leaf.columns, own)?;
    let loads = columns_from(alloc, columns, params, coordinates(reader))?;
    let first = Placed {
        part: writer.part,
        forms: stores.as_slice(),
    };
    let second = Placed {
        part: reader.part,
        forms: loads.as_slice(),
    };
    target_order(alloc, nest, schedule, columns, &first, &second)
}

/// Adds the systems of a load, a leaf that names this instance, and a store.
pub(crate) fn add_store(
    alloc: Global,
    asked: &Walking<'_>,
    reader: &Entry,
    load: &Access,
    leaf: &Leaf,
    named: &Named,
    writer: &Entry,
    store: &Access,
    out: &mut Vec<Draft>,
) -> Result<(), AllocError>
    requires scheduled { AreScheduled asked.now }
    requires seated { AreSeated asked.now.nest.now reader.now (leaf_seen leaf.now) writer.now }
    requires load { IsIn load.now reader.now.accesses }
    requires named { IsPlaced asked.now.nest.now leaf.now.columns (instance_named named.now) }
    requires store { IsIn store.now writer.now.accesses }
    ensures { OnOk result (flat_map drafted out.new.items ≡ flat_map drafted out.old.items ++ clashes_of_store asked.now.nest.now reader.now (leaf_seen leaf.now) writer.now (walk_of asked.now) load.now (instance_named named.now) store.now) }
{
    let (nest, differ) = (asked.nest, asked.differ);
    let x = loaded(alloc, nest, reader, load, leaf, writer)?;
    let y = stored(alloc, nest, reader, leaf, writer, store)?;
    let ranges = clash_ranges(nest, reader, leaf, writer)?;
    let front = front_rows(alloc, nest, reader, leaf, writer)?;
    let after = stored_after(alloc, nest, asked.after, reader, leaf, named, writer)?;
    let before = stored_before(alloc, nest, asked.before, reader, leaf, writer)?;
    let columns = columns_in(leaf, writer);
    let (xs, ys) = (x.as_slice(), y.as_slice());
    let factors = factors_between(alloc, columns, differ, after, before, xs, ys)?;
    out.push(Draft {
        columns,
        front,
        factors,
        ranges,
        x,
        y,
    })?;
    Ok(())
}
