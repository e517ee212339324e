//! Walks over the clash systems of an array, leaf by leaf.
ghost use Rattle.std.specs.Prelude.{◌≡◌, ◌+◌, ◌≤◌, ℤ, [], flat_map, length, map, None, Some, IfOk, IfErr, OnOk};
ghost use Rattle.affc_nest.specs.Parts.{coordinates};
ghost use Rattle.affc_order.specs.Asked.{IsScheduled};
ghost use Rattle.affc_sched.specs.Touched.{Each};
ghost use Rattle.affc_quast.specs.Limits.{Shaped, FitsTree, widest};
ghost use Rattle.affc_quast.specs.Seen.{seen};
ghost use Rattle.affc_quast.specs.SeenLeaves.{leaf_seen};
ghost use Rattle.affc_quast.specs.Trees.{divisions_of};
ghost use Rattle.affc_life.specs.Clashes.{clash_of};
ghost use Rattle.affc_life.specs.Paths.{with_named, leaves_under};
ghost use Rattle.affc_life.specs.Sizes.{AnyLarge};
ghost use Rattle.affc_check.specs.Looked.{AreLooked};
ghost use Rattle.affc_check.specs.list.Limits.{AnyPasses};
ghost use Rattle.affc_check.specs.list.Loads.{part_clashes, IsLoaded, IsPart};
ghost use Rattle.affc_check.specs.list.Walks.{clash_systems};
ghost use Rattle.affc_check.specs.Walked.{along_items, AreAlong, IsFurther, Seeks, Walked, Breaks, leaf_clashes, walk_in, IsWalked};

use crate::checks::{Looked, look_all};
use crate::list::folds::add_distances;
use crate::list::item::Loaded;
use crate::list::shown::Along;
use crate::list::stop::Stop;
use crate::list::trees::columns_of;
use affc_ast::tree::ArrayId;
use affc_life::path::{add_copy, add_row, divide, drop_row, root, undivide};
use affc_life::{ClashFault, ClashProduct, Place, leaf_products, place_of};
use affc_nest::Nest;
use affc_nest::lists::copied;
use affc_quast::Quast;
use affc_quast::leaves::{Leaf, Named, negated};
use affc_trace::schedule::Schedule;
use std::alloc::{AllocError, Global};

/// What a walk is over: the loads of an array under a schedule. Where a row of a basis is given, the questions on distances along it
/// are looked at.
#[derive(Clone, Copy, Drop)]
pub(crate) struct Clashing<'a> {
    pub nest: &'a Nest,
    pub schedule: &'a Schedule,
    pub array: ArrayId,
    pub along: Option<Along<'a>>,
}

/// Where a walk is that seeks a clash system by its number.
#[derive(Drop)]
pub(crate) enum Sought {
    /// So many others stand before it.
    Ahead(usize),
    /// It is the one with this number among those of a leaf.
    Here(Vec<ClashProduct>, usize),
    /// None has the number.
    Nowhere,
}

/// What a walk carries along: how far items are looked at, and where the clash system is that it seeks.
#[derive(Drop)]
pub(crate) struct Carried<'p> {
    pub looked: Looked<'p>,
    pub sought: Sought,
}

// ---- A leaf

/// Looks at the questions on the distances in these clash systems along a row.
fn look_along<'p>(
    alloc: Global,
    along: &Along<'_>,
    products: &[ClashProduct],
    looked: Looked<'p>,
) -> Result<Looked<'p>, Stop>
    requires { AreAlong (Some along.now) (map clash_of (clash_systems products.now)) }
    ensures ok { IfOk result (λ new. AreLooked looked.entry new (along_items (Some along.now) (map clash_of (clash_systems products.now)))) }
    ensures past { IfErr result (λ e. e ≡ Stop.Past → AnyPasses (along_items (Some along.now) (map clash_of (clash_systems products.now)))) }
{
    let mut listed = Vec::new(alloc);
    add_distances(alloc, along, products, &mut listed)?;
    let after = look_all(alloc, listed.as_slice(), looked)?;
    Ok(after)
}

/// The same, if a row is given.
fn look_distances<'p>(
    alloc: Global,
    along: &Option<Along<'_>>,
    products: &[ClashProduct],
    looked: Looked<'p>,
) -> Result<Looked<'p>, Stop>
    requires { AreAlong along.now (map clash_of (clash_systems products.now)) }
    ensures ok { IfOk result (λ new. AreLooked looked.entry new (along_items along.now (map clash_of (clash_systems products.now)))) }
    ensures past { IfErr result (λ e. e ≡ Stop.Past → AnyPasses (along_items along.now (map clash_of (clash_systems products.now)))) }
{
    match along {
        None => Ok(looked),
        Some(along) => look_along(alloc, along, products, looked),
    }
}

/// How far a number is past all clash systems of these products, unless one of them has it.
fn further(
    alloc: Global,
    products: &[ClashProduct],
    number: usize,
) -> Result<Option<usize>, AllocError>
    ensures { IfOk result (IsFurther (clash_systems products.now) number) }
{
    match place_of(alloc, products, number)? {
        Place::Here(_found) => Ok(None),
        Place::Past(left) => Ok(Some(left)),
    }
}

/// Seeks the clash system before which so many others stand among those of a leaf.
fn seek_among(
    alloc: Global,
    number: usize,
    products: Vec<ClashProduct>,
) -> Result<Sought, AllocError>
    ensures { IfOk result (λ new. Seeks (Sought.Ahead number) new (map clash_of (clash_systems products.items))) }
{
    match further(alloc, products.as_slice(), number)? {
        Some(left) => Ok(Sought::Ahead(left)),
        None => Ok(Sought::Here(products, number)),
    }
}

/// Seeks on among the clash systems of a leaf, which are kept if the one that is sought is among them.
fn seek_on(alloc: Global, sought: Sought, products: Vec<ClashProduct>) -> Result<Sought, AllocError>
    ensures { IfOk result (λ new. Seeks sought new (map clash_of (clash_systems products.items))) }
{
    match sought {
        Sought::Ahead(number) => seek_among(alloc, number, products),
        Sought::Here(found, number) => Ok(Sought::Here(found, number)),
        Sought::Nowhere => Ok(Sought::Nowhere),
    }
}

/// Walks on over the clash systems of a leaf.
fn take_products<'p>(
    alloc: Global,
    along: &Option<Along<'_>>,
    products: Vec<ClashProduct>,
    carried: Carried<'p>,
) -> Result<Carried<'p>, Stop>
    requires along { AreAlong along.now (map clash_of (clash_systems products.items)) }
    requires fits { ¬ (AnyLarge (map clash_of (clash_systems products.items))) }
    ensures ok { IfOk result (λ new. Walked along.now carried.entry new (map clash_of (clash_systems products.items))) }
    ensures past { IfErr result (λ e. e ≡ Stop.Past → Breaks along.now (map clash_of (clash_systems products.items))) }
{
    let Carried { looked, sought } = carried;
    let looked = look_distances(alloc, along, products.as_slice(), looked)?;
    let sought = seek_on(alloc, sought, products)?;
    Ok(Carried { looked, sought })
}

/// Walks on over a leaf of a load's tree.
fn walk_leaf<'p>(
    alloc: Global,
    asked: &Clashing<'_>,
    of: &Loaded<'_>,
    leaf: &Leaf,
    carried: Carried<'p>,
) -> Result<Carried<'p>, Stop>
    requires scheduled { IsScheduled asked.now.nest.now asked.now.schedule.now }
    requires loaded { IsLoaded asked.now.nest.now of.now }
    requires leaf { IsWalked asked.now of.now (leaf_seen leaf.now) }
    ensures ok { IfOk result (λ new. Walked asked.now.along carried.entry new (leaf_clashes asked.now of.now (leaf_seen leaf.now))) }
    ensures past { IfErr result (λ e. e ≡ Stop.Past → Breaks asked.now.along (leaf_clashes asked.now of.now (leaf_seen leaf.now))) }
{
    let (nest, schedule, array) = (asked.nest, asked.schedule, asked.array);
    match leaf_products(alloc, nest, schedule, array, of.reader, of.load, leaf) {
        Ok(products) => take_products(alloc, &asked.along, products, carried),
        Err(ClashFault::Large) => Err(Stop::Past),
        Err(ClashFault::Memory) => Err(Stop::Memory),
    }
}

// ---- A tree

/// Walks on over the leaf at the end of a path, which comes back as it was.
fn walk_end<'p>(
    alloc: Global,
    asked: &Clashing<'_>,
    of: &Loaded<'_>,
    named: Option<Named>,
    path: &mut Leaf,
    carried: Carried<'p>,
) -> Result<Carried<'p>, Stop>
    requires scheduled { IsScheduled asked.now.nest.now asked.now.schedule.now }
    requires loaded { IsLoaded asked.now.nest.now of.now }
    requires open { path.old.named ≡ None }
    requires leaf { IsWalked asked.now of.now (leaf_seen (with_named path.old named)) }
    ensures kept { OnOk result (path.new ≡ path.old) }
    ensures ok { IfOk result (λ new. Walked asked.now.along carried.entry new (leaf_clashes asked.now of.now (leaf_seen (with_named path.old named)))) }
    ensures past { IfErr result (λ e. e ≡ Stop.Past → Breaks asked.now.along (leaf_clashes asked.now of.now (leaf_seen (with_named path.old named)))) }
{
    path.named = named;
    let after = walk_leaf(alloc, asked, of, path, carried)?;
    path.named = None;
    Ok(after)
}

/// Walks on over the leaves of a tree at the end of a path, which comes back as it was.
fn walk_tree<'p>(
    alloc: Global,
    asked: &Clashing<'_>,
    of: &Loaded<'_>,
    tree: &Quast,
    path: &mut Leaf,
    carried: Carried<'p>,
) -> Result<Carried<'p>, Stop>
    requires scheduled { IsScheduled asked.now.nest.now asked.now.schedule.now }
    requires loaded { IsLoaded asked.now.nest.now of.now }
    requires open { path.old.named ≡ None }
    requires shaped { Shaped path.old.columns (seen tree.now) }
    requires fits { FitsTree widest (seen tree.now) }
    requires room { path.old.columns + divisions_of (seen tree.now) ≤ 1000 }
    requires leaves { Each (IsWalked asked.now of.now) (leaves_under path.old (seen tree.now)) }
    ensures kept { OnOk result (path.new ≡ path.old) }
    ensures ok { IfOk result (λ new. Walked asked.now.along carried.entry new (flat_map (leaf_clashes asked.now of.now) (leaves_under path.old (seen tree.now)))) }
    ensures past { IfErr result (λ e. e ≡ Stop.Past → Breaks asked.now.along (flat_map (leaf_clashes asked.now of.now) (leaves_under path.old (seen tree.now)))) }
{
    match tree {
        Quast::Test { form, yes, no } => {
            let off = negated(alloc, path.columns, form)?;
            add_copy(path, form)?;
            let half = walk_tree(alloc, asked, of, yes, path, carried)?;
            drop_row(path);
            add_row(path, off)?;
            let whole = walk_tree(alloc, asked, of, no, path, half)?;
            drop_row(path);
            Ok(whole)
        }
        Quast::Div { form, by, rest } => {
            divide(alloc, path, form, *by)?;
            let whole = walk_tree(alloc, asked, of, rest, path, carried)?;
            undivide(path);
            Ok(whole)
        }
        Quast::Source { part, forms } => {
            let forms = copied(alloc, forms.as_slice())?;
            let named = Named { part: *part, forms };
            walk_end(alloc, asked, of, Some(named), path, carried)
        }
        Quast::Input => walk_end(alloc, asked, of, None, path, carried),
    }
}

// ---- Loads

/// Walks on over a load of the array.
fn walk_load<'p>(
    alloc: Global,
    asked: &Clashing<'_>,
    of: &Loaded<'_>,
    carried: Carried<'p>,
) -> Result<Carried<'p>, Stop>
    requires scheduled { IsScheduled asked.now.nest.now asked.now.schedule.now }
    requires loaded { IsLoaded asked.now.nest.now of.now }
    requires array { of.now.load.now.array.0 ≡ asked.now.array.0 }
    requires along { AreAlong asked.now.along (part_clashes asked.now.nest.now (walk_in asked.now) (Some of.now)) }
    ensures ok { IfOk result (λ new. Walked asked.now.along carried.entry new (part_clashes asked.now.nest.now (walk_in asked.now) (Some of.now))) }
    ensures past { IfErr result (λ e. e ≡ Stop.Past → Breaks asked.now.along (part_clashes asked.now.nest.now (walk_in asked.now) (Some of.now))) }
{
    let mut path = root(alloc, columns_of(asked.nest, of.reader));
    walk_tree(alloc, asked, of, of.tree, &mut path, carried)
}

/// Walks on over a load, if it is one of the array.
fn walk_part<'p>(
    alloc: Global,
    asked: &Clashing<'_>,
    part: &Option<Loaded<'_>>,
    carried: Carried<'p>,
) -> Result<Carried<'p>, Stop>
    requires scheduled { IsScheduled asked.now.nest.now asked.now.schedule.now }
    requires part { IsPart asked.now.nest.now part.now }
    requires along { AreAlong asked.now.along (part_clashes asked.now.nest.now (walk_in asked.now) part.now) }
    ensures ok { IfOk result (λ new. Walked asked.now.along carried.entry new (part_clashes asked.now.nest.now (walk_in asked.now) part.now)) }
    ensures past { IfErr result (λ e. e ≡ Stop.Past → Breaks asked.now.along (part_clashes asked.now.nest.now (walk_in asked.now) part.now)) }
{
    match part {
        None => Ok(carried),
        Some(of) => {
            if of.load.array.0 == asked.array.0 {
                return walk_load(alloc, asked, of, carried);
            }
            Ok(carried)
        }
    }
}

/// Walks over the clash systems of these loads.
pub(crate) fn walk_parts<'p>(
    alloc: Global,
    asked: &Clashing<'_>,
    parts: &[Option<Loaded<'_>>],
    carried: Carried<'p>,
) -> Result<Carried<'p>, Stop>
    requires scheduled { IsScheduled asked.now.nest.now asked.now.schedule.now }
    requires parts { Each (IsPart asked.now.nest.now) parts.now }
    requires along { AreAlong asked.now.along (flat_map (part_clashes asked.now.nest.now (walk_in asked.now)) parts.now) }
    ensures ok { IfOk result (λ new. Walked asked.now.along carried.entry new (flat_map (part_clashes asked.now.nest.now (walk_in asked.now)) parts.now)) }
    ensures past { IfErr result (λ e. e ≡ Stop.Past → Breaks asked.now.along (flat_map (part_clashes asked.now.nest.now (walk_in asked.now)) parts.now)) }
{
    match parts {
        [] => Ok(carried),
        [part, rest @ ..] => {
            let after = walk_part(alloc, asked, part, carried)?;
            walk_parts(alloc, asked, rest, after)
        }
    }
}
