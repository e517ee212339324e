//! Leaves that are tested by their questions, under the rows of a path.
ghost use Rattle.std.specs.Prelude.{◌≡◌, ◌^◌, ◌≤◌, ℤ, unsigned_abs, List, map, IsTrue, IfOk, IfErr, IfSome, Some, None};
ghost use Rattle.std.specs.List.{All};
ghost use Rattle.affc_system.specs.Boxes.{InBox};
ghost use Rattle.affc_system.specs.Systems.{IsPoint};
ghost use Rattle.affc_split.specs.Budgets.{IsLater};
ghost use Rattle.affc_quast.specs.Limits.{narrow, FitsForm};
ghost use Rattle.affc_quast.specs.Seen.{seen};
ghost use Rattle.affc_flow.specs.Questions.{leaf_questions};
ghost use Rattle.affc_flow.specs.Laws.{NoneHasAPoint};
ghost use Rattle.affc_dataflow.specs.Guesses.{asked, leaf_under, CoversOn};
ghost use Rattle.affc_dataflow.specs.Searches.{IsLoad};
ghost use Rattle.affc_flow.specs.Writers.{Writes};

use crate::asked::{Question, input_questions, source_questions};
use crate::path::Place;
use affc_flow::load::Load;
use affc_flow::questions::{Unasked, have_columns};
use affc_nest::lists::copied;
use affc_nest::{Access, Entry};
use affc_quast::Quast;
use affc_rows::Form;
use affc_split::{Answer, Budget, Stop, decide_any, within_reach};
use affc_system::{BoxOf, System};
use std::alloc::Global;

// ---- Questions without points.

/// Whether a system is shown to have no point; no more than so many are asked.
pub(crate) fn has_none(
    alloc: Global,
    system: &System,
    ranges: &BoxOf,
    asks: &mut u32,
    budget: &mut Budget,
) -> Result<bool, Stop>
    ensures none { IfOk result (λ t. IsTrue t → (x : List ℤ) → InBox ranges.now x → IsPoint system.now x → ⊥) }
    ensures later { IsLater budget.old budget.new }
    ensures stop { IfErr result (λ e. e ≡ Stop.Budget → budget.new.limit ≡ Some budget.new.spent) }
{
    if *asks == 0 {
        return Ok(false);
    }
    *asks -= 1;
    if ranges.ranges().len() != system.columns() as usize {
        return Ok(false);
    }
    if !within_reach(ranges) {
        return Ok(false);
    }
    match decide_any(alloc, system, ranges, budget)? {
        Answer::Empty(_) => Ok(true),
        Answer::Point(_) => Ok(false),
    }
}

/// Whether each of these questions is shown to have no point. The recursion is into halves.
fn are_empty(
    alloc: Global,
    questions: &[Question],
    asks: &mut u32,
    budget: &mut Budget,
) -> Result<bool, Stop>
    ensures none { IfOk result (λ t. IsTrue t → NoneHasAPoint (map asked questions.now)) }
    ensures later { IsLater budget.old budget.new }
    ensures stop { IfErr result (λ e. e ≡ Stop.Budget → budget.new.limit ≡ Some budget.new.spent) }
{
    match questions {
        [] => Ok(true),
        [question] => { has_none(alloc, &question.system, &question.ranges, asks, budget) }
        _ => {
            let (first, others) = questions.split_at(questions.len() / 2);
            if !are_empty(alloc, first, asks, budget)? {
                return Ok(false);
            }
            are_empty(alloc, others, asks, budget)
        }
    }
}

// ---- A leaf that names an instance.

/// Whether the questions of the instance have no point.
fn is_source(
    alloc: Global,
    load: &Load<'_>,
    place: &Place<'_>,
    part: u32,
    forms: &[Form],
    asks: &mut u32,
    budget: &mut Budget,
) -> Result<bool, Stop>
    requires load { IsLoad load.now.nest.now load.now.reader.now load.now.access.now load.now.number }
    ensures none { IfOk result (λ t. IsTrue t → NoneHasAPoint (leaf_questions load.now.nest.now load.now.reader.now load.now.access.now place.now.ranges.now (leaf_under load.now.reader.now place.now.path.now (Some (record { part = part; iterators = forms.now }))))) }
    ensures later { IsLater budget.old budget.new }
    ensures stop { IfErr result (λ e. e ≡ Stop.Budget → budget.new.limit ≡ Some budget.new.spent) }
{
    match source_questions(alloc, load, place, part, forms) {
        Ok(questions) => { are_empty(alloc, questions.as_slice(), asks, budget) }
        Err(Unasked::Large) => Ok(false),
        Err(Unasked::Memory) => Err(Stop::Memory),
    }
}

/// Whether coefficients are within 2^20.
fn are_narrow(coefs: &[i128]) -> bool
    ensures { IsTrue result → All (λ c. unsigned_abs c ≤ 2 ^ 20) coefs.now }
{
    match coefs {
        [] => true,
        [c, rest @ ..] => {
            if c.unsigned_abs() <= 1048576 {
                are_narrow(rest)
            } else {
                false
            }
        }
    }
}

/// Whether a form keeps the limits of a tree.
pub(crate) fn is_narrow(form: &Form) -> bool
    ensures { IsTrue result → FitsForm narrow form.now }
{
    form.constant.unsigned_abs() <= 1099511627776 && are_narrow(form.coefs.as_slice())
}

/// Whether forms keep the limits of a tree.
fn keep_limits(forms: &[Form]) -> bool
    ensures { IsTrue result → All (FitsForm narrow) forms.now }
{
    match forms {
        [] => true,
        [form, rest @ ..] => {
            if is_narrow(form) {
                keep_limits(rest)
            } else {
                false
            }
        }
    }
}

/// The leaf that names the instance, if it is right under the path.
pub(crate) fn source_leaf(
    alloc: Global,
    load: &Load<'_>,
    place: &Place<'_>,
    writer: &Entry,
    store: &Access,
    forms: &[Form],
    asks: &mut u32,
    budget: &mut Budget,
) -> Result<Option<Quast>, Stop>
    requires load { IsLoad load.now.nest.now load.now.reader.now load.now.access.now load.now.number }
    requires writes { Writes load.now.nest.now load.now.access.now.array.0 writer.now store.now }
    ensures right { IfOk result (λ o. IfSome o (λ t. CoversOn load.now.nest.now load.now.reader.now load.now.access.now place.now.path.now place.now.ranges.now 0 0 (seen t))) }
    ensures later { IsLater budget.old budget.new }
    ensures stop { IfErr result (λ e. e ≡ Stop.Budget → budget.new.limit ≡ Some budget.new.spent) }
{
    let columns = place.path.columns();
    let _rows = place.path.rows();
    if forms.len() != writer.coordinates() {
        return Ok(None);
    }
    if !have_columns(columns, forms) {
        return Ok(None);
    }
    if !keep_limits(forms) {
        return Ok(None);
    }
    if !is_source(alloc, load, place, writer.part, forms, asks, budget)? {
        return Ok(None);
    }
    let forms = copied(alloc, forms)?;
    Ok(Some(Quast::Source {
        part: writer.part,
        forms,
    }))
}

// ---- A leaf that names none.

/// Whether the questions of a leaf that names none have no point.
fn is_input(
    alloc: Global,
    load: &Load<'_>,
    place: &Place<'_>,
    asks: &mut u32,
    budget: &mut Budget,
) -> Result<bool, Stop>
    requires load { IsLoad load.now.nest.now load.now.reader.now load.now.access.now load.now.number }
    ensures none { IfOk result (λ t. IsTrue t → NoneHasAPoint (leaf_questions load.now.nest.now load.now.reader.now load.now.access.now place.now.ranges.now (leaf_under load.now.reader.now place.now.path.now None))) }
    ensures later { IsLater budget.old budget.new }
    ensures stop { IfErr result (λ e. e ≡ Stop.Budget → budget.new.limit ≡ Some budget.new.spent) }
{
    match input_questions(alloc, load, place) {
        Ok(questions) => { are_empty(alloc, questions.as_slice(), asks, budget) }
        Err(Unasked::Large) => Ok(false),
        Err(Unasked::Memory) => Err(Stop::Memory),
    }
}

/// The leaf that names none, if it is right under the path.
pub(crate) fn input_leaf(
    alloc: Global,
    load: &Load<'_>,
    place: &Place<'_>,
    asks: &mut u32,
    budget: &mut Budget,
) -> Result<Option<Quast>, Stop>
    requires load { IsLoad load.now.nest.now load.now.reader.now load.now.access.now load.now.number }
    ensures right { IfOk result (λ o. IfSome o (λ t. CoversOn load.now.nest.now load.now.reader.now load.now.access.now place.now.path.now place.now.ranges.now 0 0 (seen t))) }
    ensures later { IsLater budget.old budget.new }
    ensures stop { IfErr result (λ e. e ≡ Stop.Budget → budget.new.limit ≡ Some budget.new.spent) }
{
    let _rows = place.path.rows();
    if is_input(alloc, load, place, asks, budget)? {
        Ok(Some(Quast::Input))
    } else {
        Ok(None)
    }
}
