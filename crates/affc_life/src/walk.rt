//! All clash systems of an array.
ghost use Rattle.std.specs.Prelude.{◌≡◌, ◌+◌, ◌++◌, ◌<◌, ◌≤◌, None, Some, drop, length, map, flat_map, slice_get, IfOk, IfErr, OnOk};
ghost use Rattle.std.specs.List.{All};
ghost use Rattle.affc_trace.specs.Law.{IsIn};
ghost use Rattle.affc_nest.specs.Parts.{coordinates};
ghost use Rattle.affc_order.specs.Asked.{IsScheduled};
ghost use Rattle.affc_order.specs.Placed.{IsPlaced};
ghost use Rattle.affc_sched.specs.Touched.{Each};
ghost use Rattle.affc_quast.specs.Leaves.{leaves_of};
ghost use Rattle.affc_quast.specs.Limits.{Shaped, FitsTree, widest};
ghost use Rattle.affc_quast.specs.Seen.{seen, trees_of};
ghost use Rattle.affc_quast.specs.SeenLeaves.{leaf_seen};
ghost use Rattle.affc_quast.specs.Sources.{loads_in, loads_before};
ghost use Rattle.affc_quast.specs.Trees.{divisions_of};
ghost use Rattle.affc_life.specs.Asked.{KeepLimits, KeepsLimits, IsLiving, IsPath, AreLoads};
ghost use Rattle.affc_life.specs.Clashes.{clash_of, live_walk, clashes_with, clashes_of_entry, numbered_loads, clashes_of, clashes};
ghost use Rattle.affc_life.specs.Drafts.{drafted, IsPaired, AreScheduled, walk_of, instance_named, clashes_of_leaf, clashes_of_load};
ghost use Rattle.affc_life.specs.Paths.{with_named, leaves_under};
ghost use Rattle.affc_life.specs.Products.{systems_in};
ghost use Rattle.affc_life.specs.Sizes.{AnyLarge};

use crate::clash::ClashProduct;
use crate::draft::{Draft, Walking};
use crate::fault::ClashFault;
use crate::path::{add_copy, add_row, divide, drop_row, root, undivide};
use crate::products::products_of;
use crate::stores::{add_store, coordinates, params_in};
use affc_ast::tree::ArrayId;
use affc_nest::lists::copied;
use affc_nest::{Access, Entry, Nest};
use affc_quast::leaves::{Leaf, Named, negated};
use affc_quast::{Flow, Quast};
use affc_system::PairSystem;
use affc_trace::schedule::Schedule;
use std::alloc::{AllocError, Global};

/// Adds the systems of a load, a leaf that names this instance, and a part.
fn add_writer(
    alloc: Global,
    asked: &Walking<'_>,
    reader: &Entry,
    load: &Access,
    leaf: &Leaf,
    named: &Named,
    writer: &Entry,
    out: &mut Vec<Draft>,
) -> Result<(), AllocError>
    requires scheduled { AreScheduled asked.now }
    requires reads { IsLiving asked.now.nest.now reader.now }
    requires load { IsIn load.now reader.now.accesses }
    requires path { IsPath asked.now.nest.now (length asked.now.nest.now.params + coordinates reader.now) (leaf_seen leaf.now) }
    requires named { IsPlaced asked.now.nest.now leaf.now.columns (instance_named named.now) }
    requires writer { IsIn writer.now asked.now.nest.now.entries }
    ensures { OnOk result (flat_map drafted out.new.items ≡ flat_map drafted out.old.items ++ clashes_with asked.now.nest.now (walk_of asked.now) reader.now load.now (leaf_seen leaf.now) (instance_named named.now) writer.now) }
{
    if !writer.alive {
        return Ok(());
    }
    let Some(store) = writer.accesses.as_slice().last() else {
        return Ok(());
    };
    if store.array.0 != asked.stored.0 {
        return Ok(());
    }
    add_store(alloc, asked, reader, load, leaf, named, writer, store, out)
}

/// Adds the systems of a load, a leaf that names this instance, and these parts.
fn add_writers(
    alloc: Global,
    asked: &Walking<'_>,
    reader: &Entry,
    load: &Access,
    leaf: &Leaf,
    named: &Named,
    writers: &[Entry],
    out: &mut Vec<Draft>,
) -> Result<(), AllocError>
    requires scheduled { AreScheduled asked.now }
    requires reads { IsLiving asked.now.nest.now reader.now }
    requires load { IsIn load.now reader.now.accesses }
    requires path { IsPath asked.now.nest.now (length asked.now.nest.now.params + coordinates reader.now) (leaf_seen leaf.now) }
    requires named { IsPlaced asked.now.nest.now leaf.now.columns (instance_named named.now) }
    requires writers { Each (λ e. IsIn e asked.now.nest.now.entries) writers.now }
    ensures { OnOk result (flat_map drafted out.new.items ≡ flat_map drafted out.old.items ++ flat_map (clashes_with asked.now.nest.now (walk_of asked.now) reader.now load.now (leaf_seen leaf.now) (instance_named named.now)) writers.now) }
{
    match writers {
        [] => Ok(()),
        [writer, rest @ ..] => {
            add_writer(alloc, asked, reader, load, leaf, named, writer, out)?;
            add_writers(alloc, asked, reader, load, leaf, named, rest, out)
        }
    }
}

/// Adds the systems of a load and a leaf.
fn add_leaf(
    alloc: Global,
    asked: &Walking<'_>,
    reader: &Entry,
    load: &Access,
    leaf: &Leaf,
    out: &mut Vec<Draft>,
) -> Result<(), AllocError>
    requires scheduled { AreScheduled asked.now }
    requires reads { IsLiving asked.now.nest.now reader.now }
    requires load { IsIn load.now reader.now.accesses }
    requires path { IsPath asked.now.nest.now (length asked.now.nest.now.params + coordinates reader.now) (leaf_seen leaf.now) }
    ensures { OnOk result (flat_map drafted out.new.items ≡ flat_map drafted out.old.items ++ clashes_of_leaf asked.now.nest.now (walk_of asked.now) reader.now load.now (leaf_seen leaf.now)) }
{
    match &leaf.named {
        None => Ok(()),
        Some(named) => {
            let writers = asked.nest.entries.as_slice();
            add_writers(alloc, asked, reader, load, leaf, named, writers, out)
        }
    }
}

/// Adds the systems of a load and the leaf at the end of a path, which comes back as it was.
fn add_end(
    alloc: Global,
    asked: &Walking<'_>,
    reader: &Entry,
    load: &Access,
    named: Option<Named>,
    path: &mut Leaf,
    out: &mut Vec<Draft>,
) -> Result<(), AllocError>
    requires scheduled { AreScheduled asked.now }
    requires reads { IsLiving asked.now.nest.now reader.now }
    requires load { IsIn load.now reader.now.accesses }
    requires open { path.old.named ≡ None }
    requires path { IsPath asked.now.nest.now (length asked.now.nest.now.params + coordinates reader.now) (leaf_seen (with_named path.old named)) }
    ensures kept { OnOk result (path.new ≡ path.old) }
    ensures made { OnOk result (flat_map drafted out.new.items ≡ flat_map drafted out.old.items ++ clashes_of_leaf asked.now.nest.now (walk_of asked.now) reader.now load.now (leaf_seen (with_named path.old named))) }
{
    path.named = named;
    add_leaf(alloc, asked, reader, load, path, out)?;
    path.named = None;
    Ok(())
}

/// Adds the systems of a load and the leaves of a tree at the end of a path, which comes back as it was.
fn add_under(
    alloc: Global,
    asked: &Walking<'_>,
    reader: &Entry,
    load: &Access,
    tree: &Quast,
    path: &mut Leaf,
    out: &mut Vec<Draft>,
) -> Result<(), AllocError>
    requires scheduled { AreScheduled asked.now }
    requires reads { IsLiving asked.now.nest.now reader.now }
    requires load { IsIn load.now reader.now.accesses }
    requires open { path.old.named ≡ None }
    requires shaped { Shaped path.old.columns (seen tree.now) }
    requires fits { FitsTree widest (seen tree.now) }
    requires room { path.old.columns + divisions_of (seen tree.now) ≤ 1000 }
    requires paths { Each (IsPath asked.now.nest.now (length asked.now.nest.now.params + coordinates reader.now)) (leaves_under path.old (seen tree.now)) }
    ensures kept { OnOk result (path.new ≡ path.old) }
    ensures made { OnOk result (flat_map drafted out.new.items ≡ flat_map drafted out.old.items ++ flat_map (clashes_of_leaf asked.now.nest.now (walk_of asked.now) reader.now load.now) (leaves_under path.old (seen tree.now))) }
{
    match tree {
        Quast::Test { form, yes, no } => {
            let off = negated(alloc, path.columns, form)?;
            add_copy(path, form)?;
            add_under(alloc, asked, reader, load, yes, path, out)?;
            drop_row(path);
            add_row(path, off)?;
            add_under(alloc, asked, reader, load, no, path, out)?;
            drop_row(path);
            Ok(())
        }
        Quast::Div { form, by, rest } => {
            divide(alloc, path, form, *by)?;
            add_under(alloc, asked, reader, load, rest, path, out)?;
            undivide(path);
            Ok(())
        }
        Quast::Source { part, forms } => {
            let forms = copied(alloc, forms.as_slice())?;
            let named = Named { part: *part, forms };
            add_end(alloc, asked, reader, load, Some(named), path, out)
        }
        Quast::Input => add_end(alloc, asked, reader, load, None, path, out),
    }
}

/// Adds the systems of a load with this tree.
fn add_tree(
    alloc: Global,
    asked: &Walking<'_>,
    reader: &Entry,
    load: &Access,
    tree: &Quast,
    out: &mut Vec<Draft>,
) -> Result<(), AllocError>
    requires scheduled { AreScheduled asked.now }
    requires reads { IsLiving asked.now.nest.now reader.now }
    requires load { IsIn load.now reader.now.accesses }
    requires tree { KeepsLimits asked.now.nest.now (length asked.now.nest.now.params + coordinates reader.now) (seen tree.now) }
    ensures { OnOk result (flat_map drafted out.new.items ≡ flat_map drafted out.old.items ++ flat_map (clashes_of_leaf asked.now.nest.now (walk_of asked.now) reader.now load.now) (leaves_of (length asked.now.nest.now.params + coordinates reader.now) (seen tree.now))) }
{
    let columns = params_in(asked.nest) + coordinates(reader);
    let mut path = root(alloc, columns);
    add_under(alloc, asked, reader, load, tree, &mut path, out)
}

/// Adds the systems of a load with this number.
fn add_load(
    alloc: Global,
    asked: &Walking<'_>,
    reader: &Entry,
    trees: &[Quast],
    number: usize,
    load: &Access,
    out: &mut Vec<Draft>,
) -> Result<(), AllocError>
    requires scheduled { AreScheduled asked.now }
    requires reads { IsLiving asked.now.nest.now reader.now }
    requires loads { AreLoads asked.now.nest.now reader.now (map seen trees.now) }
    requires load { slice_get reader.now.accesses number ≡ Some load.now }
    requires counts { number < loads_in reader.now }
    ensures { OnOk result (flat_map drafted out.new.items ≡ flat_map drafted out.old.items ++ clashes_of_load asked.now.nest.now (walk_of asked.now) reader.now (map seen trees.now) (number, load.now)) }
{
    if load.array.0 != asked.loaded.0 {
        return Ok(());
    }
    match trees.get(number) {
        None => Ok(()),
        Some(tree) => { add_tree(alloc, asked, reader, load, tree, out) }
    }
}

/// Adds the systems of the loads from one on.
fn add_loads(
    alloc: Global,
    asked: &Walking<'_>,
    reader: &Entry,
    trees: &[Quast],
    number: usize,
    accesses: &[Access],
    out: &mut Vec<Draft>,
) -> Result<(), AllocError>
    requires scheduled { AreScheduled asked.now }
    requires reads { IsLiving asked.now.nest.now reader.now }
    requires loads { AreLoads asked.now.nest.now reader.now (map seen trees.now) }
    requires rest { accesses.now ≡ drop number reader.now.accesses }
    ensures { OnOk result (flat_map drafted out.new.items ≡ flat_map drafted out.old.items ++ flat_map (clashes_of_load asked.now.nest.now (walk_of asked.now) reader.now (map seen trees.now)) (numbered_loads number accesses.now)) }
{
    match accesses {
        [] => Ok(()),
        [load, rest @ ..] => {
            if rest.is_empty() {
                return Ok(());
            }
            add_load(alloc, asked, reader, trees, number, load, out)?;
            add_loads(alloc, asked, reader, trees, number + 1, rest, out)
        }
    }
}

/// The trees of the loads of a part and of those behind it.
pub fn trees_from<'a>(entries: &[Entry], part: u32, trees: &'a [Quast]) -> &'a [Quast]
    ensures { map seen result.now ≡ drop (loads_before entries.now part) (map seen trees.now) }
{
    match entries {
        [] => trees,
        [entry, rest @ ..] => {
            if part == 0 {
                return trees;
            }
            let loads = entry.accesses.len().saturating_sub(1);
            if loads > trees.len() {
                return &[];
            }
            let (_own, others) = trees.split_at(loads);
            trees_from(rest, part - 1, others)
        }
    }
}

/// Adds the systems of a part's loads.
fn add_reader(
    alloc: Global,
    asked: &Walking<'_>,
    trees: &[Quast],
    reader: &Entry,
    out: &mut Vec<Draft>,
) -> Result<(), AllocError>
    requires scheduled { AreScheduled asked.now }
    requires limits { KeepLimits asked.now.nest.now (map seen trees.now) }
    requires reader { IsIn reader.now asked.now.nest.now.entries }
    ensures { OnOk result (flat_map drafted out.new.items ≡ flat_map drafted out.old.items ++ clashes_of_entry asked.now.nest.now (walk_of asked.now) (map seen trees.now) reader.now) }
{
    if !reader.alive {
        return Ok(());
    }
    let own = trees_from(asked.nest.entries.as_slice(), reader.part, trees);
    let accesses = reader.accesses.as_slice();
    add_loads(alloc, asked, reader, own, 0, accesses, out)
}

/// Adds the systems of the loads of these parts.
fn add_readers(
    alloc: Global,
    asked: &Walking<'_>,
    trees: &[Quast],
    readers: &[Entry],
    out: &mut Vec<Draft>,
) -> Result<(), AllocError>
    requires scheduled { AreScheduled asked.now }
    requires limits { KeepLimits asked.now.nest.now (map seen trees.now) }
    requires readers { Each (λ e. IsIn e asked.now.nest.now.entries) readers.now }
    ensures { OnOk result (flat_map drafted out.new.items ≡ flat_map drafted out.old.items ++ flat_map (clashes_of_entry asked.now.nest.now (walk_of asked.now) (map seen trees.now)) readers.now) }
{
    match readers {
        [] => Ok(()),
        [reader, rest @ ..] => {
            add_reader(alloc, asked, trees, reader, out)?;
            add_readers(alloc, asked, trees, rest, out)
        }
    }
}

/// The clash systems of a walk, as drafts.
fn drafts_of(alloc: Global, asked: &Walking<'_>, flow: &Flow) -> Result<Vec<Draft>, AllocError>
    requires scheduled { AreScheduled asked.now }
    requires trees { KeepLimits asked.now.nest.now (trees_of flow.now) }
    ensures all { IfOk result (λ drafts. flat_map drafted drafts.items ≡ clashes_of asked.now.nest.now (trees_of flow.now) (walk_of asked.now)) }
    ensures paired { IfOk result (λ drafts. All IsPaired (flat_map drafted drafts.items)) }
{
    let mut drafts = Vec::new(alloc);
    let trees = flow.trees.as_slice();
    let readers = asked.nest.entries.as_slice();
    add_readers(alloc, asked, trees, readers, &mut drafts)?;
    Ok(drafts)
}

/// The clash systems of an array in product form: by loads, leaves of their trees, storing parts, the two orders, and the
/// dimension in which the elements differ.
///
/// `x` is the element that is loaded and `y` the one that is stored between. The columns of a system are the parameters,
/// the load's iterators, the quotients of its leaf and the store's iterators.
pub fn clash_products(
    alloc: Global,
    nest: &Nest,
    flow: &Flow,
    schedule: &Schedule,
    array: ArrayId,
) -> Result<Vec<ClashProduct>, ClashFault>
    requires scheduled { IsScheduled nest.now schedule.now }
    requires trees { KeepLimits nest.now (trees_of flow.now) }
    ensures ok { IfOk result (λ ps. map clash_of (flat_map systems_in ps.items) ≡ clashes nest.now (trees_of flow.now) schedule.now array.0) }
    ensures fits { IfOk result (λ ps. ¬ (AnyLarge (clashes nest.now (trees_of flow.now) schedule.now array.0))) }
    ensures large { IfErr result (λ e. e ≡ ClashFault.Large → AnyLarge (clashes nest.now (trees_of flow.now) schedule.now array.0)) }
{
    let asked = Walking {
        nest,
        loaded: array,
        stored: array,
        after: schedule,
        before: schedule,
        differ: true,
    };
    let drafts = drafts_of(alloc, &asked, flow)?;
    products_of(alloc, drafts)
}

/// The clash systems of a load and a leaf of its tree, as drafts.
fn drafts_at(
    alloc: Global,
    asked: &Walking<'_>,
    reader: &Entry,
    load: &Access,
    leaf: &Leaf,
) -> Result<Vec<Draft>, AllocError>
    requires scheduled { AreScheduled asked.now }
    requires reads { IsLiving asked.now.nest.now reader.now }
    requires load { IsIn load.now reader.now.accesses }
    requires path { IsPath asked.now.nest.now (length asked.now.nest.now.params + coordinates reader.now) (leaf_seen leaf.now) }
    ensures all { IfOk result (λ drafts. flat_map drafted drafts.items ≡ clashes_of_leaf asked.now.nest.now (walk_of asked.now) reader.now load.now (leaf_seen leaf.now)) }
    ensures paired { IfOk result (λ drafts. All IsPaired (flat_map drafted drafts.items)) }
{
    let mut drafts = Vec::new(alloc);
    add_leaf(alloc, asked, reader, load, leaf, &mut drafts)?;
    Ok(drafts)
}

/// The clash systems of an array, of one of its loads and a leaf of the load's tree.
pub fn leaf_products(
    alloc: Global,
    nest: &Nest,
    schedule: &Schedule,
    array: ArrayId,
    reader: &Entry,
    load: &Access,
    leaf: &Leaf,
) -> Result<Vec<ClashProduct>, ClashFault>
    requires scheduled { IsScheduled nest.now schedule.now }
    requires reads { IsLiving nest.now reader.now }
    requires load { IsIn load.now reader.now.accesses }
    requires path { IsPath nest.now (length nest.now.params + coordinates reader.now) (leaf_seen leaf.now) }
    ensures ok { IfOk result (λ ps. map clash_of (flat_map systems_in ps.items) ≡ clashes_of_leaf nest.now (live_walk nest.now schedule.now array.0) reader.now load.now (leaf_seen leaf.now)) }
    ensures fits { IfOk result (λ ps. ¬ (AnyLarge (clashes_of_leaf nest.now (live_walk nest.now schedule.now array.0) reader.now load.now (leaf_seen leaf.now)))) }
    ensures large { IfErr result (λ e. e ≡ ClashFault.Large → AnyLarge (clashes_of_leaf nest.now (live_walk nest.now schedule.now array.0) reader.now load.now (leaf_seen leaf.now))) }
{
    let asked = Walking {
        nest,
        loaded: array,
        stored: array,
        after: schedule,
        before: schedule,
        differ: true,
    };
    let drafts = drafts_at(alloc, &asked, reader, load, leaf)?;
    products_of(alloc, drafts)
}
