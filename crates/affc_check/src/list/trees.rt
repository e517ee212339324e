//! Questions on trees.
ghost use Rattle.std.specs.Prelude.{◌≡◌, ◌+◌, ◌-◌, ◌<◌, ◌≤◌, ◌++◌, [], drop, length, map, flat_map, slice_get, replicate, IsTrue, IfOk, OnOk};
ghost use Rattle.affc_trace.specs.Law.{IsIn};
ghost use Rattle.affc_nest.specs.Asked.{IsNest};
ghost use Rattle.affc_nest.specs.Parts.{coordinates};
ghost use Rattle.affc_sched.specs.Touched.{Each};
ghost use Rattle.affc_quast.specs.Leaves.{leaves_of};
ghost use Rattle.affc_quast.specs.Seen.{seen, trees_of};
ghost use Rattle.affc_quast.specs.SeenLeaves.{leaf_seen};
ghost use Rattle.affc_quast.specs.Sources.{loads_in, loads_before};
ghost use Rattle.affc_life.specs.Asked.{KeepLimits, KeepsLimits, IsLiving, IsPath, AreLoads};
ghost use Rattle.affc_life.specs.Clashes.{Walk, clashes_of_entry, numbered_loads};
ghost use Rattle.affc_life.specs.Drafts.{clashes_of_load};
ghost use Rattle.affc_check.specs.list.Groups.{part_items, AreTreeGroups};
ghost use Rattle.affc_check.specs.list.Loads.{part_said, part_clashes, IsPart, PartsPut, AreTreeParts};
ghost use Rattle.affc_check.specs.list.Passes.{items_by_entry};
ghost use Rattle.affc_check.specs.list.Walks.{leaf_items, load_items, own_items};

use crate::list::item::Loaded;
use affc_life::stores::{coordinates, params_in};
use affc_life::walk::trees_from;
use affc_nest::{Access, Entry, Nest};
use affc_products::Group;
use affc_quast::leaves::{Leaf, leaves};
use affc_quast::{Flow, Quast};
use affc_questions::{Ranged, leaf_questions};
use sqlite_items::Items;
use std::alloc::{AllocError, Global};

/// Adds groups, whatever the ranges of their columns are.
fn add_ranged(ranged: Vec<Ranged>, out: &mut Vec<Group>) -> Result<(), AllocError>
    ensures { OnOk result (out.new.items ≡ out.old.items ++ map (λ r. r.group) ranged.items) }
{
    for each in ranged {
        let Ranged { group, behind: _ } = each;
        out.push(group)?;
    }
    Ok(())
}

/// Adds the questions of a leaf.
pub(crate) fn add_leaf(
    alloc: Global,
    nest: &Nest,
    reader: &Entry,
    load: &Access,
    leaf: &Leaf,
    out: &mut Vec<Group>,
) -> Result<(), AllocError>
    requires nested { IsNest nest.now }
    requires reads { IsLiving nest.now reader.now }
    requires load { IsIn load.now reader.now.accesses }
    requires path { IsPath nest.now (length nest.now.params + coordinates reader.now) (leaf_seen leaf.now) }
    ensures { OnOk result (part_items out.new.items ≡ part_items out.old.items ++ leaf_items nest.now reader.now load.now (leaf_seen leaf.now)) }
{
    let ranged = leaf_questions(alloc, nest, reader, load, leaf)?;
    add_ranged(ranged, out)
}

/// Adds the questions of these leaves. The recursion is into halves, since there may be many.
fn add_leaves(
    alloc: Global,
    nest: &Nest,
    reader: &Entry,
    load: &Access,
    leaves: &[Leaf],
    out: &mut Vec<Group>,
) -> Result<(), AllocError>
    requires nested { IsNest nest.now }
    requires reads { IsLiving nest.now reader.now }
    requires load { IsIn load.now reader.now.accesses }
    requires paths { Each (IsPath nest.now (length nest.now.params + coordinates reader.now)) (map leaf_seen leaves.now) }
    ensures { OnOk result (part_items out.new.items ≡ part_items out.old.items ++ flat_map (leaf_items nest.now reader.now load.now) (map leaf_seen leaves.now)) }
{
    match leaves {
        [] => Ok(()),
        [leaf] => add_leaf(alloc, nest, reader, load, leaf, out),
        _ => {
            let (first, others) = leaves.split_at(leaves.len() / 2);
            add_leaves(alloc, nest, reader, load, first, out)?;
            add_leaves(alloc, nest, reader, load, others, out)
        }
    }
}

/// How many columns the tree of a load in an entry is over.
pub(crate) fn columns_of(nest: &Nest, reader: &Entry) -> u32
    requires nested { IsNest nest.now }
    requires reads { IsIn reader.now nest.now.entries }
    ensures value { result ≡ length nest.now.params + coordinates reader.now }
    ensures few { result ≤ 10 }
{
    params_in(nest) + coordinates(reader)
}

/// Adds the questions of a load with this tree.
fn add_tree(
    alloc: Global,
    nest: &Nest,
    reader: &Entry,
    load: &Access,
    tree: &Quast,
    out: &mut Vec<Group>,
) -> Result<(), AllocError>
    requires nested { IsNest nest.now }
    requires reads { IsLiving nest.now reader.now }
    requires load { IsIn load.now reader.now.accesses }
    requires tree { KeepsLimits nest.now (length nest.now.params + coordinates reader.now) (seen tree.now) }
    ensures { OnOk result (part_items out.new.items ≡ part_items out.old.items ++ flat_map (leaf_items nest.now reader.now load.now) (leaves_of (length nest.now.params + coordinates reader.now) (seen tree.now))) }
{
    let leaves = leaves(alloc, columns_of(nest, reader), tree)?;
    add_leaves(alloc, nest, reader, load, leaves.as_slice(), out)
}

/// The questions of a part.
fn groups_in(
    alloc: Global,
    nest: &Nest,
    part: &Option<Loaded<'_>>,
) -> Result<Items<Group>, AllocError>
    requires nested { IsNest nest.now }
    requires part { IsPart nest.now part.now }
    ensures { IfOk result (λ groups. part_items groups ≡ part_said nest.now part.now) }
{
    match part {
        None => Ok(Items::new(alloc)),
        Some(of) => {
            let mut groups = Vec::new(alloc);
            add_tree(alloc, nest, of.reader, of.load, of.tree, &mut groups)?;
            Ok(Items::from_vec(groups))
        }
    }
}

/// Adds the questions of these parts.
fn add_groups_in(
    alloc: Global,
    nest: &Nest,
    parts: &[Option<Loaded<'_>>],
    out: &mut Items<Items<Group>>,
) -> Result<(), AllocError>
    requires nested { IsNest nest.now }
    requires parts { Each (IsPart nest.now) parts.now }
    ensures { OnOk result (map part_items out.new ≡ map part_items out.old ++ map (part_said nest.now) parts.now) }
{
    match parts {
        [] => Ok(()),
        [part, rest @ ..] => {
            let groups = groups_in(alloc, nest, part)?;
            out.push(groups)?;
            add_groups_in(alloc, nest, rest, out)
        }
    }
}

// ---- Parts

/// The part of the load with this number, where the entry's loads have these trees.
fn part_of<'a>(
    nest: &Nest,
    reader: &'a Entry,
    trees: &'a [Quast],
    number: usize,
    load: &'a Access,
) -> Option<Loaded<'a>>
    requires reads { IsLiving nest.now reader.now }
    requires loads { AreLoads nest.now reader.now (map seen trees.now) }
    requires load { IsIn load.now reader.now.accesses }
    requires counts { number < loads_in reader.now }
    ensures said { part_said nest.now result ≡ load_items nest.now reader.now load.now (slice_get (map seen trees.now) number) }
    ensures clashing { (walk : Walk) → part_clashes nest.now walk result ≡ clashes_of_load nest.now walk reader.now (map seen trees.now) (number, load.now) }
    ensures part { IsPart nest.now result }
{
    let _nest = nest;
    match trees.get(number) {
        None => None,
        Some(tree) => Some(Loaded { reader, load, tree }),
    }
}

/// Adds the parts of the loads from one on.
fn add_loads<'a>(
    nest: &Nest,
    reader: &'a Entry,
    trees: &'a [Quast],
    number: usize,
    accesses: &'a [Access],
    out: &mut Items<Option<Loaded<'a>>>,
) -> Result<(), AllocError>
    requires nested { IsNest nest.now }
    requires reads { IsLiving nest.now reader.now }
    requires loads { AreLoads nest.now reader.now (map seen trees.now) }
    requires rest { accesses.now ≡ drop number reader.now.accesses }
    ensures { OnOk result (PartsPut nest.now (own_items nest.now (map seen trees.now) reader.now number accesses.now) (λ walk. flat_map (clashes_of_load nest.now walk reader.now (map seen trees.now)) (numbered_loads number accesses.now)) out.old out.new) }
{
    match accesses {
        [] => Ok(()),
        [load, rest @ ..] => {
            if rest.is_empty() {
                return Ok(());
            }
            let part = part_of(nest, reader, trees, number, load);
            out.push(part)?;
            add_loads(nest, reader, trees, number + 1, rest, out)
        }
    }
}

/// Adds so many parts without questions.
fn add_none(
    nest: &Nest,
    loads: usize,
    out: &mut Items<Option<Loaded<'_>>>,
) -> Result<(), AllocError>
    ensures { OnOk result (PartsPut nest.now (replicate loads []) (λ walk. []) out.old out.new) }
{
    if loads == 0 {
        return Ok(());
    }
    out.push(None)?;
    add_none(nest, loads - 1, out)
}

/// Adds the parts of an entry's loads.
fn add_reader<'a>(
    nest: &'a Nest,
    trees: &'a [Quast],
    reader: &'a Entry,
    out: &mut Items<Option<Loaded<'a>>>,
) -> Result<(), AllocError>
    requires nested { IsNest nest.now }
    requires limits { KeepLimits nest.now (map seen trees.now) }
    requires reader { IsIn reader.now nest.now.entries }
    ensures { OnOk result (PartsPut nest.now (items_by_entry nest.now (map seen trees.now) reader.now) (λ walk. clashes_of_entry nest.now walk (map seen trees.now) reader.now) out.old out.new) }
{
    let accesses = reader.accesses.as_slice();
    if !reader.alive {
        return add_none(nest, reader.accesses.len().saturating_sub(1), out);
    }
    let own = trees_from(nest.entries.as_slice(), reader.part, trees);
    add_loads(nest, reader, own, 0, accesses, out)
}

/// Adds the parts of the loads of these entries.
fn add_readers<'a>(
    nest: &'a Nest,
    trees: &'a [Quast],
    readers: &'a [Entry],
    out: &mut Items<Option<Loaded<'a>>>,
) -> Result<(), AllocError>
    requires nested { IsNest nest.now }
    requires limits { KeepLimits nest.now (map seen trees.now) }
    requires readers { Each (λ e. IsIn e nest.now.entries) readers.now }
    ensures { OnOk result (PartsPut nest.now (flat_map (items_by_entry nest.now (map seen trees.now)) readers.now) (λ walk. flat_map (clashes_of_entry nest.now walk (map seen trees.now)) readers.now) out.old out.new) }
{
    match readers {
        [] => Ok(()),
        [reader, rest @ ..] => {
            add_reader(nest, trees, reader, out)?;
            add_readers(nest, trees, rest, out)
        }
    }
}

/// The parts of all trees, one for each.
pub(crate) fn tree_parts<'a>(
    alloc: Global,
    nest: &'a Nest,
    flow: &'a Flow,
) -> Result<Items<Option<Loaded<'a>>>, AllocError>
    requires nested { IsNest nest.now }
    requires limits { KeepLimits nest.now (trees_of flow.now) }
    ensures { IfOk result (AreTreeParts nest.now (trees_of flow.now)) }
{
    let mut parts = Items::new(alloc);
    let trees = flow.trees.as_slice();
    add_readers(nest, trees, nest.entries.as_slice(), &mut parts)?;
    Ok(parts)
}

/// The questions of all trees, a part for each.
pub(crate) fn tree_groups(
    alloc: Global,
    nest: &Nest,
    flow: &Flow,
) -> Result<Items<Items<Group>>, AllocError>
    requires nested { IsNest nest.now }
    requires limits { KeepLimits nest.now (trees_of flow.now) }
    ensures { IfOk result (AreTreeGroups nest.now (trees_of flow.now)) }
{
    let parts = tree_parts(alloc, nest, flow)?;
    let mut groups = Items::new(alloc);
    add_groups_in(alloc, nest, parts.as_slice(), &mut groups)?;
    Ok(groups)
}
