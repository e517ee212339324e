//! All items of a certificate.
ghost use Rattle.std.specs.Prelude.{flat_map, ◌≡◌, ℕ, map, IfOk, IfErr, OnOk};
ghost use Rattle.affc_quast.specs.Seen.{trees_of};
ghost use Rattle.affc_sched.specs.Touched.{Each};
ghost use Rattle.affc_sched.specs.Legality.{IsAsked};
ghost use Rattle.affc_life.specs.Clashes.{clashes};
ghost use Rattle.affc_life.specs.Sizes.{AnyLarge};
ghost use Rattle.affc_check.specs.list.Certs.{IsCertWithin, IsFoldSaid, AreItems};
ghost use Rattle.affc_check.specs.list.Groups.{AreGroups};
ghost use Rattle.affc_check.specs.list.Held.{item_said, listed_said};
ghost use Rattle.affc_check.specs.list.Items.{fold_items};
ghost use Rattle.affc_check.specs.list.Listed.{AreListed, IsFirstPart};
ghost use Rattle.affc_check.specs.list.Passes.{FoldPasses, PassesFirst, NonePasses};
ghost use Rattle.affc_check.specs.list.Walks.{clash_systems, fold_shown, IsFoldAsked, AreSystems, SystemsAdded, FoldsListed, IsListing};

use crate::list::bounds::{add_bound_questions, add_extent_questions};
use crate::list::folds::add_fold;
use crate::list::groups::{add_kept, add_parts};
use crate::list::item::{Groups, Item, Listed};
use crate::list::listing::{add_point, wholes};
use crate::list::shown::context_shown;
use crate::list::stop::{PartStop, at_part};
use crate::list::trees::tree_groups;
use affc_cert::Cert;
use affc_certvalue::fold::fold::CertFold;
use affc_life::{ClashFault, ClashProduct, clash_products};
use affc_nest::Nest;
use affc_quast::Flow;
use affc_sched::legality_groups;
use affc_trace::schedule::Schedule;
use sqlite_items::Items;
use std::alloc::{AllocError, Global};

/// Adds the clash systems of the arrays of these folds, up to the first of which one passes the limits.
fn add_systems(
    alloc: Global,
    nest: &Nest,
    flow: &Flow,
    schedule: &Schedule,
    folds: &[CertFold],
    out: &mut Items<Items<ClashProduct>>,
) -> Result<(), AllocError>
    requires asked { IsAsked nest.now schedule.now }
    requires folds { Each (IsFoldAsked nest.now (trees_of flow.now)) folds.now }
    ensures { OnOk result (SystemsAdded nest.now schedule.now (trees_of flow.now) folds.now (map clash_systems out.old) (map clash_systems out.new)) }
{
    match folds {
        [] => Ok(()),
        [fold, rest @ ..] => match clash_products(alloc, nest, flow, schedule, fold.array) {
            Ok(systems) => {
                out.push(Items::from_vec(systems))?;
                add_systems(alloc, nest, flow, schedule, rest, out)
            }
            Err(ClashFault::Large) => Ok(()),
            Err(ClashFault::Memory) => Err(AllocError),
        },
    }
}

/// The clash systems of the arrays of a certificate's folds, up to the first fold of which one passes the limits.
pub fn systems_of(
    alloc: Global,
    nest: &Nest,
    schedule: &Schedule,
    cert: &Cert,
) -> Result<Items<Items<ClashProduct>>, AllocError>
    requires asked { IsAsked nest.now schedule.now }
    requires certificate { IsCertWithin nest.now cert.now }
    ensures { IfOk result (λ s. AreSystems nest.now schedule.now (trees_of cert.now.flow) cert.now.folds (map clash_systems s)) }
{
    let mut systems = Items::new(alloc);
    add_systems(
        alloc,
        nest,
        &cert.flow,
        schedule,
        cert.folds.as_slice(),
        &mut systems,
    )?;
    Ok(systems)
}

/// The questions of a certificate's trees and on the schedule.
pub fn groups_of(
    alloc: Global,
    nest: &Nest,
    schedule: &Schedule,
    cert: &Cert,
) -> Result<Groups, AllocError>
    requires asked { IsAsked nest.now schedule.now }
    requires certificate { IsCertWithin nest.now cert.now }
    ensures { IfOk result (AreGroups nest.now schedule.now (trees_of cert.now.flow)) }
{
    let trees = tree_groups(alloc, nest, &cert.flow)?;
    let groups = legality_groups(alloc, nest, schedule)?;
    Ok(Groups {
        trees,
        schedule: Items::from_vec(groups),
    })
}

/// Adds the items of a fold whose array has these clash systems, which are those of the part with this number.
fn add_part<'a>(
    alloc: Global,
    nest: &'a Nest,
    flow: &Flow,
    schedule: &Schedule,
    fold: &'a CertFold,
    systems: &'a [ClashProduct],
    part: usize,
    out: &mut Vec<Listed<'a>>,
) -> Result<(), PartStop>
    requires asked { IsAsked nest.now schedule.now }
    requires fold { IsFoldAsked nest.now (trees_of flow.now) fold.now }
    requires said { IsFoldSaid nest.now schedule.now (trees_of flow.now) fold.now (fold_shown fold.now (clash_systems systems.now)) }
    requires fits { ¬ (AnyLarge (clashes nest.now (trees_of flow.now) schedule.now fold.now.array.0)) }
    ensures ok { OnOk result (AreListed (flat_map listed_said out.old.items) (flat_map listed_said out.new.items) (fold_items nest.now (fold_shown fold.now (clash_systems systems.now)))) }
    ensures within { OnOk result (¬ (FoldPasses nest.now schedule.now (trees_of flow.now) fold.now)) }
    ensures past { IfErr result (λ e. (n : ℕ) → e ≡ PartStop.Part n → (n ≡ part) × FoldPasses nest.now schedule.now (trees_of flow.now) fold.now) }
{
    let (_flow, _schedule) = (flow, schedule);
    match add_fold(alloc, nest, fold, systems, out) {
        Ok(()) => Ok(()),
        Err(stop) => Err(at_part(stop, part)),
    }
}

/// Adds the items of these folds, whose parts are numbered from `first` on and whose arrays have these clash systems. Past 2^64
/// parts there is no memory for them.
pub(crate) fn add_folds<'a>(
    alloc: Global,
    nest: &'a Nest,
    flow: &Flow,
    schedule: &Schedule,
    folds: &'a [CertFold],
    systems: &'a [Items<ClashProduct>],
    first: usize,
    out: &mut Vec<Listed<'a>>,
) -> Result<(), PartStop>
    requires asked { IsAsked nest.now schedule.now }
    requires folds { Each (IsFoldAsked nest.now (trees_of flow.now)) folds.now }
    requires systems { AreSystems nest.now schedule.now (trees_of flow.now) folds.now (map clash_systems systems.now) }
    ensures ok { OnOk result (FoldsListed nest.now schedule.now (trees_of flow.now) folds.now (map clash_systems systems.now) (flat_map listed_said out.old.items) (flat_map listed_said out.new.items)) }
    ensures past { IfErr result (λ e. (n : ℕ) → e ≡ PartStop.Part n → IsFirstPart (FoldPasses nest.now schedule.now (trees_of flow.now)) first folds.now n) }
{
    match folds {
        [] => Ok(()),
        [fold, rest @ ..] => match systems {
            [] => Err(PartStop::Part(first)),
            [own, others @ ..] => {
                let own = own.as_slice();
                add_part(alloc, nest, flow, schedule, fold, own, first, out)?;
                let Some(next) = first.checked_add(1) else {
                    return Err(PartStop::Memory);
                };
                add_folds(alloc, nest, flow, schedule, rest, others, next, out)
            }
        },
    }
}

/// Lists the items of a certificate, whose folds' arrays have these clash systems and whose trees and schedule these questions: no
/// part of it passes the limits, or the first that does is told.
pub fn list_all<'a>(
    alloc: Global,
    nest: &'a Nest,
    schedule: &Schedule,
    cert: &'a Cert,
    systems: &'a [Items<ClashProduct>],
    groups: &'a Groups,
) -> Result<Vec<Listed<'a>>, PartStop>
    requires asked { IsAsked nest.now schedule.now }
    requires certificate { IsCertWithin nest.now cert.now }
    requires systems { AreSystems nest.now schedule.now (trees_of cert.now.flow) cert.now.folds (map clash_systems systems.now) }
    requires groups { AreGroups nest.now schedule.now (trees_of cert.now.flow) groups.now }
    ensures ok { IfOk result (λ l. IsListing nest.now schedule.now cert.now (flat_map listed_said l.items) (map clash_systems systems.now)) }
    ensures past { IfErr result (λ e. (n : ℕ) → e ≡ PartStop.Part n → PassesFirst nest.now schedule.now cert.now n) }
{
    let mut items = Vec::new(alloc);
    let flow = &cert.flow;
    add_point(
        &mut items,
        context_shown(alloc, nest, cert.context.as_slice())?,
    )?;
    add_extent_questions(alloc, nest, &mut items)?;
    add_bound_questions(alloc, nest, &mut items)?;
    add_parts(alloc, groups.trees.as_slice(), 1, &mut items)?;
    add_kept(alloc, groups.schedule.as_slice(), &mut items)?;
    let Some(first) = cert.flow.trees.len().checked_add(1) else {
        return Err(PartStop::Memory);
    };
    let folds = cert.folds.as_slice();
    add_folds(
        alloc, nest, flow, schedule, folds, systems, first, &mut items,
    )?;
    Ok(items)
}

/// The items of a certificate: no part of it passes the limits, or the first that does is told.
pub fn all_items(
    alloc: Global,
    nest: &Nest,
    schedule: &Schedule,
    cert: &Cert,
) -> Result<Vec<Item>, PartStop>
    requires asked { IsAsked nest.now schedule.now }
    requires certificate { IsCertWithin nest.now cert.now }
    ensures ok { IfOk result (λ v. AreItems nest.now schedule.now cert.now (map item_said v.items)) }
    ensures within { OnOk result (NonePasses nest.now schedule.now cert.now) }
    ensures past { IfErr result (λ e. (n : ℕ) → e ≡ PartStop.Part n → PassesFirst nest.now schedule.now cert.now n) }
{
    let systems = systems_of(alloc, nest, schedule, cert)?;
    let groups = groups_of(alloc, nest, schedule, cert)?;
    let systems = systems.as_slice();
    let listed = list_all(alloc, nest, schedule, cert, systems, &groups)?;
    let items = wholes(alloc, listed)?;
    Ok(items)
}
