//! The entries of assignments.
ghost use Rattle.std.specs.Prelude.{◌≡◌, ◌+◌, ◌≤◌, ◌∷◌, ◌++◌, [], length, map, IsTrue, IfOk, OnOk};
ghost use Rattle.affc_domain.specs.Accesses.{accesses_of, own_access};
ghost use Rattle.affc_domain.specs.Plain.{plain_tests};
ghost use Rattle.affc_domain.specs.Ranges.{first_wide_of};
ghost use Rattle.affc_nest.specs.Entries.{ArePlainPlaces, IsPlainPlace, entry_at, entries_at, wide_loop, first_there, first_wide_at};
ghost use Rattle.affc_nest.specs.Nests.{access_form, nowhere};
ghost use Rattle.affc_nest.specs.Sides.{NearRanges};
ghost use Rattle.affc_nest.specs.Sites.{place, places};
ghost use Rattle.affc_nest.specs.Touches.{all_touched, AllPlain};

use crate::accesses::{Touch, add_accesses, add_loads};
use crate::domains::{count_loops, domain};
use crate::nest::Entry;
use crate::ranges::{Fit, fits};
use crate::sites::Site;
use affc_ast::tree::Compare;
use affc_rows::Form;
use affc_system::{BoxOf, System};
use sqlite_items::Items;
use std::alloc::{AllocError, Global};

/// Adds the load that `op=` makes of its own element.
#[tactic(auto, using(affc_trace::proofs::LastStores::map_append, affc_trace::proofs::LastStores::append_nil))]
fn add_own<'a>(site: &Site<'a>, out: &mut Vec<Touch<'a>>) -> Result<(), AllocError>
    ensures { OnOk result (all_touched out.new.items ≡ all_touched out.old.items ++ own_access site.now.op (site.now.array, site.now.subs.now)) }
{
    match site.op {
        None => Ok(()),
        Some(_) => {
            out.push(Touch {
                array: site.array,
                subs: site.subs,
            })?;
            Ok(())
        }
    }
}

/// The accesses of an assignment, before their forms are made.
#[tactic(auto, using(affc_trace::proofs::LastStores::map_append, affc_trace::proofs::EndedReads::append_assoc))]
fn touches<'a>(alloc: Global, site: &Site<'a>) -> Result<Vec<Touch<'a>>, AllocError>
    ensures { IfOk result (λ v. all_touched v.items ≡ accesses_of (place site.now).assignment) }
{
    let mut touches = Vec::new(alloc);
    add_own(site, &mut touches)?;
    add_loads(site.value, &mut touches)?;
    touches.push(Touch {
        array: site.array,
        subs: site.subs,
    })?;
    Ok(touches)
}

/// The system without points.
fn empty_domain(alloc: Global, columns: u32) -> Result<System, AllocError>
    requires { columns ≤ 128 }
    ensures { IfOk result (λ s. s ≡ nowhere columns) }
{
    let row = Form::number(alloc, columns, -1)?;
    let mut system = System::new(alloc, columns);
    system.add(row)?;
    Ok(system)
}

/// The entry of an assignment, from its domain over so many columns.
fn entry_with(
    alloc: Global,
    statement: u32,
    site: &Site<'_>,
    alive: bool,
    columns: u32,
    domain: System,
    ranges: BoxOf,
) -> Result<Entry, AllocError>
    requires plain { AllPlain columns (accesses_of (place site.now).assignment) }
    ensures part { IfOk result (λ e. e.part ≡ statement) }
    ensures statement { IfOk result (λ e. e.statement ≡ statement) }
    ensures alive { IfOk result (λ e. e.alive ≡ alive) }
    ensures loops { IfOk result (λ e. e.loops ≡ (place site.now).loops) }
    ensures domain { IfOk result (λ e. e.domain ≡ domain) }
    ensures ranges { IfOk result (λ e. e.ranges ≡ ranges) }
    ensures accesses { IfOk result (λ e. e.accesses ≡ map (access_form columns) (accesses_of (place site.now).assignment)) }
{
    let loops = Items::from_slice(alloc, site.loops.as_slice())?;
    let touches = touches(alloc, site)?;
    let mut accesses = Items::new(alloc);
    add_accesses(alloc, columns, touches.as_slice(), &mut accesses)?;
    Ok(Entry {
        part: statement,
        statement,
        alive,
        loops,
        domain,
        ranges,
        accesses,
    })
}

/// The entry of an assignment, and the first loop round it whose range passes 2^31, counted from the outermost, if one does.
#[tactic(auto, using(crate::proofs::PlaceProofs::near_within, crate::proofs::PlaceProofs::none_wide, crate::proofs::PlaceProofs::never_wide, crate::proofs::PlaceProofs::one_wide))]
fn entry(
    alloc: Global,
    params: &BoxOf,
    context: &[Compare],
    statement: u32,
    site: &Site<'_>,
) -> Result<(Entry, Option<u32>), AllocError>
    requires few_params { length params.now ≤ 4 }
    requires near_params { NearRanges params.now }
    requires few_conditions { length context.now ≤ 16 }
    requires plain_context { IsTrue (plain_tests (length params.now) context.now) }
    requires plain { IsPlainPlace (length params.now) (place site.now) }
    ensures value { IfOk result (λ e. e.0 ≡ entry_at params.now context.now statement (place site.now)) }
    ensures wide { IfOk result (λ e. wide_loop statement e.1 ≡ first_wide_of params.now statement ((place site.now).around ∷ [])) }
{
    let frames = site.frames.as_slice();
    let columns = params.ranges().len() as u32 + count_loops(frames);
    let mut all = params.clone()?;
    let mut own = BoxOf::new(alloc);
    match fits(alloc, &mut all, &mut own, frames, 0)? {
        Fit::Near => {
            let domain = domain(alloc, params, context, &own, frames)?;
            let entry = entry_with(alloc, statement, site, true, columns, domain, own)?;
            Ok((entry, None))
        }
        Fit::Missed => {
            let domain = empty_domain(alloc, columns)?;
            let ranges = BoxOf::new(alloc);
            let entry = entry_with(alloc, statement, site, false, columns, domain, ranges)?;
            Ok((entry, None))
        }
        Fit::Far { loop_number } => {
            let ranges = BoxOf::new(alloc);
            let domain = domain(alloc, params, context, &ranges, frames)?;
            let entry = entry_with(alloc, statement, site, true, columns, domain, ranges)?;
            Ok((entry, Some(loop_number)))
        }
    }
}

/// The loop of this number round this statement, if there is one, or else another.
fn first_of(
    statement: u32,
    loop_number: Option<u32>,
    other: Option<(u32, u32)>,
) -> Option<(u32, u32)>
    ensures { result ≡ first_there (wide_loop statement loop_number) other }
{
    match loop_number {
        Some(loop_number) => Some((statement, loop_number)),
        None => other,
    }
}

/// Adds the entries of assignments, of which the first has this number. The first loop whose range passes 2^31 comes back, if one
/// does: the number of the assignment, and that of the loop round it.
#[tactic(auto, using(crate::proofs::PlaceProofs::first_wide_there))]
pub(crate) fn add_entries(
    alloc: Global,
    params: &BoxOf,
    context: &[Compare],
    sites: &[Site<'_>],
    statement: u32,
    out: &mut Items<Entry>,
) -> Result<Option<(u32, u32)>, AllocError>
    requires few_params { length params.now ≤ 4 }
    requires near_params { NearRanges params.now }
    requires few_conditions { length context.now ≤ 16 }
    requires plain_context { IsTrue (plain_tests (length params.now) context.now) }
    requires plain { ArePlainPlaces (length params.now) (places sites.now) }
    requires few { statement + length sites.now ≤ 64 }
    ensures value { OnOk result (out.new ≡ out.old ++ entries_at params.now context.now statement (places sites.now)) }
    ensures wide { IfOk result (λ wide. wide ≡ first_wide_at params.now statement (places sites.now)) }
{
    match sites {
        [] => Ok(None),
        [site, rest @ ..] => {
            let (entry, loop_number) = entry(alloc, params, context, statement, site)?;
            out.push(entry)?;
            let other = add_entries(alloc, params, context, rest, statement + 1, out)?;
            Ok(first_of(statement, loop_number, other))
        }
    }
}
