//! Items that are looked at as they are made, leaf by leaf.
ghost use Rattle.std.specs.Prelude.{◌≡◌, ℕ, ◌+◌, ◌≤◌, ◌++◌, ◌∷◌, [], length, map, flat_map, None, IfOk, IfErr, OnOk};
ghost use Rattle.affc_nest.specs.Asked.{IsNest};
ghost use Rattle.affc_nest.specs.Parts.{coordinates};
ghost use Rattle.affc_nest.specs.Questions.{extent_questions, bound_questions};
ghost use Rattle.affc_sched.specs.Legality.{IsAsked};
ghost use Rattle.affc_sched.specs.Questions.{legality_questions};
ghost use Rattle.affc_sched.specs.Touched.{Each};
ghost use Rattle.affc_quast.specs.Limits.{Shaped, FitsTree, widest};
ghost use Rattle.affc_quast.specs.Seen.{seen};
ghost use Rattle.affc_quast.specs.SeenLeaves.{leaf_seen};
ghost use Rattle.affc_quast.specs.Trees.{divisions_of};
ghost use Rattle.affc_life.specs.Asked.{IsPath};
ghost use Rattle.affc_check.specs.Looked.{Looks, AreLooked, PartsLooked, AllLooked};
ghost use Rattle.affc_check.specs.Walked.{IsSetting};
ghost use Rattle.affc_life.specs.Paths.{with_named, leaves_under};
ghost use Rattle.affc_check.specs.list.Certs.{IsCertWithin};
ghost use Rattle.affc_check.specs.list.Groups.{part_items};
ghost use Rattle.affc_check.specs.list.Held.{context_item, legality_item};
ghost use Rattle.affc_check.specs.list.Items.{Question};
ghost use Rattle.affc_check.specs.list.Limits.{AnyPasses};
ghost use Rattle.affc_check.specs.list.Listed.{IsFirstPart};
ghost use Rattle.affc_check.specs.list.Loads.{part_said, IsLoaded, IsPart};
ghost use Rattle.affc_check.specs.list.Passes.{PassesFirst};
ghost use Rattle.affc_check.specs.list.Walks.{leaf_items, load_items};

use crate::checks::{Looked, look_all};
use crate::fold_looks::{Setting, look_folds};
use crate::list::bounds::{add_bound_questions, add_extent_questions};
use crate::list::groups::{add_groups, add_kept};
use crate::list::item::Loaded;
use crate::list::listing::add_point;
use crate::list::shown::context_shown;
use crate::list::stop::{PartStop, Stop, at_part};
use crate::list::trees::{add_leaf, columns_of};
use affc_cert::Cert;
use affc_life::path::{add_copy, add_row, divide, drop_row, root, undivide};
use affc_nest::Nest;
use affc_nest::lists::copied;
use affc_products::Group;
use affc_quast::Quast;
use affc_quast::leaves::{Leaf, Named, negated};
use affc_sched::legality_groups;
use affc_trace::schedule::Schedule;
use std::alloc::{AllocError, Global};

// ---- A leaf

/// Looks at the questions of these groups, if all keep the limits.
fn look_groups<'p>(alloc: Global, groups: &[Group], looked: Looked<'p>) -> Result<Looked<'p>, Stop>
    ensures ok { IfOk result (λ new. AreLooked looked.entry new (part_items groups.now)) }
    ensures past { IfErr result (λ e. e ≡ Stop.Past → AnyPasses (part_items groups.now)) }
{
    let mut listed = Vec::new(alloc);
    add_groups(alloc, groups, &mut listed)?;
    let after = look_all(alloc, listed.as_slice(), looked)?;
    Ok(after)
}

/// Looks at the questions of a leaf of a load's tree, if all keep the limits.
fn look_leaf<'p>(
    alloc: Global,
    nest: &Nest,
    of: &Loaded<'_>,
    leaf: &Leaf,
    looked: Looked<'p>,
) -> Result<Looked<'p>, Stop>
    requires nested { IsNest nest.now }
    requires loaded { IsLoaded nest.now of.now }
    requires path { IsPath nest.now (length nest.now.params + coordinates of.now.reader.now) (leaf_seen leaf.now) }
    ensures ok { IfOk result (λ new. AreLooked looked.entry new (leaf_items nest.now of.now.reader.now of.now.load.now (leaf_seen leaf.now))) }
    ensures past { IfErr result (λ e. e ≡ Stop.Past → AnyPasses (leaf_items nest.now of.now.reader.now of.now.load.now (leaf_seen leaf.now))) }
{
    let mut groups = Vec::new(alloc);
    add_leaf(alloc, nest, of.reader, of.load, leaf, &mut groups)?;
    look_groups(alloc, groups.as_slice(), looked)
}

// ---- A tree

/// Looks at the questions of the leaf at the end of a path, which comes back as it was.
fn look_end<'p>(
    alloc: Global,
    nest: &Nest,
    of: &Loaded<'_>,
    named: Option<Named>,
    path: &mut Leaf,
    looked: Looked<'p>,
) -> Result<Looked<'p>, Stop>
    requires nested { IsNest nest.now }
    requires loaded { IsLoaded nest.now of.now }
    requires open { path.old.named ≡ None }
    requires path { IsPath nest.now (length nest.now.params + coordinates of.now.reader.now) (leaf_seen (with_named path.old named)) }
    ensures kept { OnOk result (path.new ≡ path.old) }
    ensures ok { IfOk result (λ new. AreLooked looked.entry new (leaf_items nest.now of.now.reader.now of.now.load.now (leaf_seen (with_named path.old named)))) }
    ensures past { IfErr result (λ e. e ≡ Stop.Past → AnyPasses (leaf_items nest.now of.now.reader.now of.now.load.now (leaf_seen (with_named path.old named)))) }
{
    path.named = named;
    let after = look_leaf(alloc, nest, of, path, looked)?;
    path.named = None;
    Ok(after)
}

/// Looks at the questions of the leaves of a tree at the end of a path, which comes back as it was, if all keep the limits.
fn look_tree<'p>(
    alloc: Global,
    nest: &Nest,
    of: &Loaded<'_>,
    tree: &Quast,
    path: &mut Leaf,
    looked: Looked<'p>,
) -> Result<Looked<'p>, Stop>
    requires nested { IsNest nest.now }
    requires loaded { IsLoaded nest.now of.now }
    requires open { path.old.named ≡ None }
    requires shaped { Shaped path.old.columns (seen tree.now) }
    requires fits { FitsTree widest (seen tree.now) }
    requires room { path.old.columns + divisions_of (seen tree.now) ≤ 1000 }
    requires paths { Each (IsPath nest.now (length nest.now.params + coordinates of.now.reader.now)) (leaves_under path.old (seen tree.now)) }
    ensures kept { OnOk result (path.new ≡ path.old) }
    ensures ok { IfOk result (λ new. AreLooked looked.entry new (flat_map (leaf_items nest.now of.now.reader.now of.now.load.now) (leaves_under path.old (seen tree.now)))) }
    ensures past { IfErr result (λ e. e ≡ Stop.Past → AnyPasses (flat_map (leaf_items nest.now of.now.reader.now of.now.load.now) (leaves_under path.old (seen tree.now)))) }
{
    match tree {
        Quast::Test { form, yes, no } => {
            let off = negated(alloc, path.columns, form)?;
            add_copy(path, form)?;
            let half = look_tree(alloc, nest, of, yes, path, looked)?;
            drop_row(path);
            add_row(path, off)?;
            let whole = look_tree(alloc, nest, of, no, path, half)?;
            drop_row(path);
            Ok(whole)
        }
        Quast::Div { form, by, rest } => {
            divide(alloc, path, form, *by)?;
            let whole = look_tree(alloc, nest, of, rest, path, looked)?;
            undivide(path);
            Ok(whole)
        }
        Quast::Source { part, forms } => {
            let forms = copied(alloc, forms.as_slice())?;
            let named = Named { part: *part, forms };
            look_end(alloc, nest, of, Some(named), path, looked)
        }
        Quast::Input => look_end(alloc, nest, of, None, path, looked),
    }
}

// ---- Parts

/// Looks at the questions of a load with its tree, if all keep the limits.
fn look_load<'p>(
    alloc: Global,
    nest: &Nest,
    of: &Loaded<'_>,
    looked: Looked<'p>,
) -> Result<Looked<'p>, Stop>
    requires nested { IsNest nest.now }
    requires loaded { IsLoaded nest.now of.now }
    ensures ok { IfOk result (λ new. AreLooked looked.entry new (part_said nest.now (Some of.now))) }
    ensures past { IfErr result (λ e. e ≡ Stop.Past → AnyPasses (part_said nest.now (Some of.now))) }
{
    let mut path = root(alloc, columns_of(nest, of.reader));
    look_tree(alloc, nest, of, of.tree, &mut path, looked)
}

/// Looks at the questions of a part, if all keep the limits.
fn look_part<'p>(
    alloc: Global,
    nest: &Nest,
    part: &Option<Loaded<'_>>,
    looked: Looked<'p>,
) -> Result<Looked<'p>, Stop>
    requires nested { IsNest nest.now }
    requires part { IsPart nest.now part.now }
    ensures ok { IfOk result (λ new. AreLooked looked.entry new (part_said nest.now part.now)) }
    ensures past { IfErr result (λ e. e ≡ Stop.Past → AnyPasses (part_said nest.now part.now)) }
{
    match part {
        None => Ok(looked),
        Some(of) => look_load(alloc, nest, of, looked),
    }
}

/// Looks at the questions of the part with this number, if all keep the limits.
fn look_numbered<'p>(
    alloc: Global,
    nest: &Nest,
    part: &Option<Loaded<'_>>,
    number: usize,
    looked: Looked<'p>,
) -> Result<Looked<'p>, PartStop>
    requires nested { IsNest nest.now }
    requires part { IsPart nest.now part.now }
    ensures ok { IfOk result (λ new. AreLooked looked.entry new (part_said nest.now part.now)) }
    ensures past { IfErr result (λ e. (n : ℕ) → e ≡ PartStop.Part n → (n ≡ number) × AnyPasses (part_said nest.now part.now)) }
{
    match look_part(alloc, nest, part, looked) {
        Ok(after) => Ok(after),
        Err(stop) => Err(at_part(stop, number)),
    }
}

/// Looks at the questions of these parts, which are numbered from `first` on. Past 2^64 parts there is no memory for them.
fn look_parts<'p>(
    alloc: Global,
    nest: &Nest,
    parts: &[Option<Loaded<'_>>],
    first: usize,
    looked: Looked<'p>,
) -> Result<Looked<'p>, PartStop>
    requires nested { IsNest nest.now }
    requires parts { Each (IsPart nest.now) parts.now }
    ensures ok { IfOk result (λ new. PartsLooked looked.entry new (map (part_said nest.now) parts.now)) }
    ensures past { IfErr result (λ e. (n : ℕ) → e ≡ PartStop.Part n → IsFirstPart AnyPasses first (map (part_said nest.now) parts.now) n) }
{
    match parts {
        [] => Ok(looked),
        [part, rest @ ..] => {
            let after = look_numbered(alloc, nest, part, first, looked)?;
            let Some(next) = first.checked_add(1) else {
                return Err(PartStop::Memory);
            };
            look_parts(alloc, nest, rest, next, after)
        }
    }
}

// ---- A certificate

/// Looks at the context, and the questions on extents and accesses.
fn look_bounds<'p>(
    alloc: Global,
    nest: &Nest,
    p: &[i64],
    looked: Looked<'p>,
) -> Result<Looked<'p>, AllocError>
    requires { IsNest nest.now }
    ensures { IfOk result (λ new. Looks looked.entry new (context_item nest.now p.now ∷ (map Question (extent_questions nest.now) ++ map Question (bound_questions nest.now)))) }
{
    let mut listed = Vec::new(alloc);
    add_point(&mut listed, context_shown(alloc, nest, p)?)?;
    add_extent_questions(alloc, nest, &mut listed)?;
    add_bound_questions(alloc, nest, &mut listed)?;
    look_all(alloc, listed.as_slice(), looked)
}

/// Looks at the questions on the schedule.
fn look_schedule<'p>(
    alloc: Global,
    nest: &Nest,
    schedule: &Schedule,
    looked: Looked<'p>,
) -> Result<Looked<'p>, AllocError>
    requires { IsAsked nest.now schedule.now }
    ensures { IfOk result (λ new. Looks looked.entry new (map legality_item (legality_questions nest.now schedule.now))) }
{
    let groups = legality_groups(alloc, nest, schedule)?;
    let mut listed = Vec::new(alloc);
    add_kept(alloc, groups.as_slice(), &mut listed)?;
    look_all(alloc, listed.as_slice(), looked)
}

/// Looks at the items of a certificate: no part of it passes the limits, or the first that does is told.
pub(crate) fn look_items<'p>(
    alloc: Global,
    of: &Setting<'_>,
    cert: &'p Cert,
) -> Result<Looked<'p>, PartStop>
    requires setting { IsSetting of.now }
    requires flow { of.now.flow.now ≡ cert.now.flow }
    requires certificate { IsCertWithin of.now.nest.now cert.now }
    ensures ok { IfOk result (AllLooked of.now.nest.now of.now.schedule.now cert.now) }
    ensures past { IfErr result (λ e. (n : ℕ) → e ≡ PartStop.Part n → PassesFirst of.now.nest.now of.now.schedule.now cert.now n) }
{
    let (nest, schedule) = (of.nest, of.schedule);
    let none = Looked::Holding(cert.proofs.as_slice(), 0);
    let bounds = look_bounds(alloc, nest, cert.context.as_slice(), none)?;
    let trees = look_parts(alloc, nest, of.parts, 1, bounds)?;
    let legal = look_schedule(alloc, nest, schedule, trees)?;
    let Some(first) = cert.flow.trees.len().checked_add(1) else {
        return Err(PartStop::Memory);
    };
    let folds = cert.folds.as_slice();
    look_folds(alloc, of, folds, first, legal)
}
