//! What is known of a candidate under a path: its conditions, and whether its leaf is right; and the tree of a test.
ghost use Rattle.std.specs.Prelude.{◌≡◌, ◌-◌, ◌≤◌, ◌∷◌, [], length, IfOk, IfErr, IfSome, Some};
ghost use Rattle.affc_split.specs.Budgets.{IsLater};
ghost use Rattle.affc_nest.specs.Domains.{with_rows};
ghost use Rattle.affc_quast.specs.Leaves.{negated};
ghost use Rattle.affc_quast.specs.Limits.{narrow, FitsForm};
ghost use Rattle.affc_quast.specs.Seen.{seen};
ghost use Rattle.affc_quast.specs.Trees.{Test};
ghost use Rattle.affc_dataflow.specs.Guesses.{CoversOn};
ghost use Rattle.affc_dataflow.specs.Searches.{IsLoad};

use crate::path::{Place, negation, push_row, push_rows};
use crate::tested::{has_none, is_narrow, source_leaf};
use affc_drafts::{Candidate, stands};
use affc_flow::asking::store_for;
use affc_flow::load::Load;
use affc_flow::questions::Unasked;
use affc_quast::Quast;
use affc_rows::Form;
use affc_split::{Budget, Stop};
use affc_system::System;
use std::alloc::{AllocError, Global};

/// How many tests and divisions may stand above a leaf at most, and how many of them may be divisions.
#[derive(Clone, Copy)]
pub(crate) struct Depth {
    pub(crate) left: u32,
    pub(crate) divisions: u32,
}

// ---- Both sides of a test.

/// A path with a row more.
fn with_row(path: &System, row: Form) -> Result<System, Unasked>
    ensures rows { IfOk result (λ s. s ≡ with_rows path.now (row ∷ [])) }
    ensures wide { IfOk result (λ s. length row.coefs ≡ path.now.columns) }
{
    let mut system = path.clone()?;
    push_row(&mut system, row)?;
    Ok(system)
}

/// A test, and the paths of its sides.
#[derive(Drop)]
pub(crate) struct Sides {
    pub(crate) form: Form,
    pub(crate) yes: System,
    pub(crate) no: System,
}

/// Both sides of a test under a path.
fn both_sides(alloc: Global, path: &System, row: &Form) -> Result<Sides, Unasked>
    ensures yes { IfOk result (λ s. s.yes ≡ with_rows path.now (s.form ∷ [])) }
    ensures no { IfOk result (λ s. s.no ≡ with_rows path.now (negated s.form ∷ [])) }
    ensures wide { IfOk result (λ s. length s.form.coefs ≡ path.now.columns) }
    ensures fits { IfOk result (λ s. FitsForm narrow s.form) }
{
    if !is_narrow(row) {
        return Err(Unasked::Large);
    }
    let form = row.clone()?;
    let negated = negation(alloc, row)?;
    let no = with_row(path, negated)?;
    let copy = row.clone()?;
    let yes = with_row(path, copy)?;
    Ok(Sides { form, yes, no })
}

/// Both sides of a test under a path, if they can be had.
pub(crate) fn sides_of(
    alloc: Global,
    path: &System,
    row: &Form,
) -> Result<Option<Sides>, AllocError>
    ensures yes { IfOk result (λ o. IfSome o (λ s. s.yes ≡ with_rows path.now (s.form ∷ []))) }
    ensures no { IfOk result (λ o. IfSome o (λ s. s.no ≡ with_rows path.now (negated s.form ∷ []))) }
    ensures wide { IfOk result (λ o. IfSome o (λ s. length s.form.coefs ≡ path.now.columns)) }
    ensures fits { IfOk result (λ o. IfSome o (λ s. FitsForm narrow s.form)) }
{
    match both_sides(alloc, path, row) {
        Ok(sides) => Ok(Some(sides)),
        Err(Unasked::Large) => Ok(None),
        Err(Unasked::Memory) => Err(AllocError),
    }
}

/// The tree of a test.
fn test_of(alloc: Global, form: Form, yes: Quast, no: Quast) -> Result<Quast, AllocError>
    ensures { IfOk result (λ t. seen t ≡ Test form (seen yes) (seen no)) }
{
    let Ok(yes) = Box::new(alloc, yes) else {
        return Err(AllocError);
    };
    let Ok(no) = Box::new(alloc, no) else {
        return Err(AllocError);
    };
    Ok(Quast::Test { form, yes, no })
}

/// The tree of both sides.
pub(crate) fn joined(
    alloc: Global,
    load: &Load<'_>,
    place: &Place<'_>,
    depth: Depth,
    sides: Sides,
    yes: Quast,
    no: Quast,
) -> Result<Quast, AllocError>
    requires some { 1 ≤ depth.left }
    requires up { sides.yes ≡ with_rows place.now.path.now (sides.form ∷ []) }
    requires down { sides.no ≡ with_rows place.now.path.now (negated sides.form ∷ []) }
    requires wide { length sides.form.coefs ≡ place.now.path.now.columns }
    requires fits { FitsForm narrow sides.form }
    requires on { CoversOn load.now.nest.now load.now.reader.now load.now.access.now sides.yes place.now.ranges.now (depth.left - 1) depth.divisions (seen yes) }
    requires off { CoversOn load.now.nest.now load.now.reader.now load.now.access.now sides.no place.now.ranges.now (depth.left - 1) depth.divisions (seen no) }
    ensures right { IfOk result (λ t. CoversOn load.now.nest.now load.now.reader.now load.now.access.now place.now.path.now place.now.ranges.now depth.left depth.divisions (seen t)) }
{
    test_of(alloc, sides.form, yes, no)
}

// ---- What is known of a candidate under a path.

/// Whether the path with these rows more is shown to have no point.
pub(crate) fn has_none_with(
    alloc: Global,
    place: &Place<'_>,
    rows: &[Form],
    asks: &mut u32,
    budget: &mut Budget,
) -> Result<bool, Stop>
    ensures later { IsLater budget.old budget.new }
    ensures stop { IfErr result (λ e. e ≡ Stop.Budget → budget.new.limit ≡ Some budget.new.spent) }
{
    let mut system = place.path.clone()?;
    match push_rows(&mut system, rows) {
        Ok(()) => has_none(alloc, &system, place.ranges, asks, budget),
        Err(Unasked::Large) => Ok(false),
        Err(Unasked::Memory) => Err(Stop::Memory),
    }
}

/// Whether a row is shown to be met under the path.
fn is_given(
    alloc: Global,
    place: &Place<'_>,
    row: &Form,
    asks: &mut u32,
    budget: &mut Budget,
) -> Result<bool, Stop>
    ensures later { IsLater budget.old budget.new }
    ensures stop { IfErr result (λ e. e ≡ Stop.Budget → budget.new.limit ≡ Some budget.new.spent) }
{
    if stands(row, place.path.rows()) {
        return Ok(true);
    }
    match negation(alloc, row) {
        Ok(negated) => has_none_with(alloc, place, &[negated], asks, budget),
        Err(Unasked::Large) => Ok(false),
        Err(Unasked::Memory) => Err(Stop::Memory),
    }
}

/// The first of these rows behind the first few that isn't shown to be met under the path, counted on from a number.
pub(crate) fn first_open(
    alloc: Global,
    place: &Place<'_>,
    rows: &[Form],
    known: usize,
    at: usize,
    asks: &mut u32,
    budget: &mut Budget,
) -> Result<Option<usize>, Stop>
    ensures later { IsLater budget.old budget.new }
    ensures stop { IfErr result (λ e. e ≡ Stop.Budget → budget.new.limit ≡ Some budget.new.spent) }
{
    match rows {
        [] => Ok(None),
        [row, rest @ ..] => {
            let next = at.saturating_add(1);
            if known > 0 {
                return first_open(alloc, place, rest, known - 1, next, asks, budget);
            }
            if !is_given(alloc, place, row, asks, budget)? {
                return Ok(Some(at));
            }
            first_open(alloc, place, rest, 0, next, asks, budget)
        }
    }
}

// ---- Leaves.

/// The leaf of a candidate, if it is right under the path.
pub(crate) fn leaf_of(
    alloc: Global,
    load: &Load<'_>,
    place: &Place<'_>,
    candidate: &Candidate,
    asks: &mut u32,
    budget: &mut Budget,
) -> Result<Option<Quast>, Stop>
    requires load { IsLoad load.now.nest.now load.now.reader.now load.now.access.now load.now.number }
    ensures right { IfOk result (λ o. IfSome o (λ t. CoversOn load.now.nest.now load.now.reader.now load.now.access.now place.now.path.now place.now.ranges.now 0 0 (seen t))) }
    ensures later { IsLater budget.old budget.new }
    ensures stop { IfErr result (λ e. e ≡ Stop.Budget → budget.new.limit ≡ Some budget.new.spent) }
{
    let part = candidate.part as usize;
    let Some(writer) = load.nest.entries.as_slice().get(part) else {
        return Ok(None);
    };
    let Some(store) = store_for(writer, load.access.array.0) else {
        return Ok(None);
    };
    let forms = candidate.forms.as_slice();
    source_leaf(alloc, load, place, writer, store, forms, asks, budget)
}
