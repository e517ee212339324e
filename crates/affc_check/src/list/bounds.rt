//! Questions on extents and accesses.
ghost use Rattle.std.specs.Prelude.{◌≡◌, ◌++◌, length, map, flat_map, slice_get, OnOk};
ghost use Rattle.affc_trace.specs.Law.{IsIn};
ghost use Rattle.affc_nest.specs.Asked.{IsNest, IsExtent, IsSubscript};
ghost use Rattle.affc_nest.specs.Parts.{coordinates};
ghost use Rattle.affc_nest.specs.Questions.{extent_question, extents_or_none, extents_of_access, questions_of, entry_questions, extent_questions, bound_questions};
ghost use Rattle.affc_sched.specs.Touched.{Each};
ghost use Rattle.affc_check.specs.list.Held.{listed_said};
ghost use Rattle.affc_check.specs.list.Items.{Question};

use crate::list::item::Listed;
use crate::list::listing::add_question;
use affc_ast::tree::ArrayId;
use affc_nest::questions::{extent_at_most_zero, subscript_below_zero, subscript_past_extent};
use affc_nest::{Access, ArrayInfo, Entry, Nest};
use affc_rows::Form;
use std::alloc::{AllocError, Global};

/// Adds the questions on these extents.
fn add_extents(
    alloc: Global,
    nest: &Nest,
    extents: &[Form],
    out: &mut Vec<Listed<'_>>,
) -> Result<(), AllocError>
    requires nest { IsNest nest.now }
    requires extents { Each (IsExtent nest.now) extents.now }
    ensures { OnOk result (flat_map listed_said out.new.items ≡ flat_map listed_said out.old.items ++ map Question (map (extent_question nest.now) extents.now)) }
{
    match extents {
        [] => Ok(()),
        [extent, rest @ ..] => {
            let system = extent_at_most_zero(alloc, nest, extent)?;
            add_question(out, system)?;
            add_extents(alloc, nest, rest, out)
        }
    }
}

/// Adds the questions on the extents of these arrays.
fn add_arrays(
    alloc: Global,
    nest: &Nest,
    arrays: &[ArrayInfo],
    out: &mut Vec<Listed<'_>>,
) -> Result<(), AllocError>
    requires nest { IsNest nest.now }
    requires arrays { Each (λ a. IsIn a nest.now.arrays) arrays.now }
    ensures { OnOk result (flat_map listed_said out.new.items ≡ flat_map listed_said out.old.items ++ map Question (flat_map (λ a. map (extent_question nest.now) a.extents) arrays.now)) }
{
    match arrays {
        [] => Ok(()),
        [array, rest @ ..] => {
            add_extents(alloc, nest, array.extents.as_slice(), out)?;
            add_arrays(alloc, nest, rest, out)
        }
    }
}

/// Adds the questions on all extents.
pub(crate) fn add_extent_questions(
    alloc: Global,
    nest: &Nest,
    out: &mut Vec<Listed<'_>>,
) -> Result<(), AllocError>
    requires { IsNest nest.now }
    ensures { OnOk result (flat_map listed_said out.new.items ≡ flat_map listed_said out.old.items ++ map Question (extent_questions nest.now)) }
{
    add_arrays(alloc, nest, nest.arrays.as_slice(), out)
}

/// Adds the questions on an access of an entry, by the subscripts and extents of its dimensions.
fn add_dimensions(
    alloc: Global,
    nest: &Nest,
    entry: &Entry,
    subs: &[Form],
    extents: &[Form],
    out: &mut Vec<Listed<'_>>,
) -> Result<(), AllocError>
    requires nest { IsNest nest.now }
    requires entry { IsIn entry.now nest.now.entries }
    requires subs { Each (IsSubscript entry.now) subs.now }
    requires extents { Each (IsExtent nest.now) extents.now }
    ensures { OnOk result (flat_map listed_said out.new.items ≡ flat_map listed_said out.old.items ++ map Question (questions_of entry.now.domain (coordinates entry.now) subs.now extents.now)) }
{
    match subs {
        [] => Ok(()),
        [sub, more_subs @ ..] => match extents {
            [] => Ok(()),
            [extent, more_extents @ ..] => {
                let low = subscript_below_zero(alloc, nest, entry, sub)?;
                add_question(out, low)?;
                let high = subscript_past_extent(alloc, nest, entry, sub, extent)?;
                add_question(out, high)?;
                add_dimensions(alloc, nest, entry, more_subs, more_extents, out)
            }
        },
    }
}

/// The extents of an array.
fn extents_of<'a>(nest: &'a Nest, array: ArrayId) -> &'a [Form]
    ensures value { result.now ≡ extents_or_none (slice_get nest.now.arrays array.0) }
    ensures extents { Each (IsExtent nest.now) result.now }
{
    match nest.arrays.get(array.0 as usize) {
        Some(info) => info.extents.as_slice(),
        None => &[],
    }
}

/// Adds the questions on these accesses of an entry.
fn add_accesses(
    alloc: Global,
    nest: &Nest,
    entry: &Entry,
    accesses: &[Access],
    out: &mut Vec<Listed<'_>>,
) -> Result<(), AllocError>
    requires nest { IsNest nest.now }
    requires entry { IsIn entry.now nest.now.entries }
    requires accesses { Each (λ x. IsIn x entry.now.accesses) accesses.now }
    ensures { OnOk result (flat_map listed_said out.new.items ≡ flat_map listed_said out.old.items ++ map Question (flat_map (λ x. questions_of entry.now.domain (coordinates entry.now) x.subs (extents_of_access nest.now x)) accesses.now)) }
{
    match accesses {
        [] => Ok(()),
        [access, rest @ ..] => {
            let extents = extents_of(nest, access.array);
            let subs = access.subs.as_slice();
            add_dimensions(alloc, nest, entry, subs, extents, out)?;
            add_accesses(alloc, nest, entry, rest, out)
        }
    }
}

/// Adds the questions on the accesses of an entry.
fn add_entry(
    alloc: Global,
    nest: &Nest,
    entry: &Entry,
    out: &mut Vec<Listed<'_>>,
) -> Result<(), AllocError>
    requires nest { IsNest nest.now }
    requires entry { IsIn entry.now nest.now.entries }
    ensures { OnOk result (flat_map listed_said out.new.items ≡ flat_map listed_said out.old.items ++ map Question (entry_questions nest.now entry.now)) }
{
    if !entry.alive {
        return Ok(());
    }
    add_accesses(alloc, nest, entry, entry.accesses.as_slice(), out)
}

/// Adds the questions on the accesses of these entries.
fn add_entries(
    alloc: Global,
    nest: &Nest,
    entries: &[Entry],
    out: &mut Vec<Listed<'_>>,
) -> Result<(), AllocError>
    requires nest { IsNest nest.now }
    requires entries { Each (λ e. IsIn e nest.now.entries) entries.now }
    ensures { OnOk result (flat_map listed_said out.new.items ≡ flat_map listed_said out.old.items ++ map Question (flat_map (entry_questions nest.now) entries.now)) }
{
    match entries {
        [] => Ok(()),
        [entry, rest @ ..] => {
            add_entry(alloc, nest, entry, out)?;
            add_entries(alloc, nest, rest, out)
        }
    }
}

/// Adds the questions on all accesses.
pub(crate) fn add_bound_questions(
    alloc: Global,
    nest: &Nest,
    out: &mut Vec<Listed<'_>>,
) -> Result<(), AllocError>
    requires { IsNest nest.now }
    ensures { OnOk result (flat_map listed_said out.new.items ≡ flat_map listed_said out.old.items ++ map Question (bound_questions nest.now)) }
{
    add_entries(alloc, nest, nest.entries.as_slice(), out)
}
