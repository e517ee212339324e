//! The rows of a domain, put into a system one after the other.
ghost use Rattle.std.specs.Prelude.{◌≡◌, ◌+◌, ◌*◌, ◌^◌, ◌<◌, ◌≤◌, [], length, map, unsigned_abs, IsTrue, IfOk, OnOk};
ghost use Rattle.affc_ast.specs.Fits.{all_true};
ghost use Rattle.affc_ast.specs.Joined.{tests_of};
ghost use Rattle.affc_ast.specs.Pieces.{added, comparisons_of};
ghost use Rattle.affc_domain.specs.Affine.{form_of};
ghost use Rattle.affc_domain.specs.Plain.{is_plain, plain_cond, plain_tests};
ghost use Rattle.affc_domain.specs.Rounds.{loops_in, comparisons_in};
ghost use Rattle.affc_nest.specs.Domains.{compare_rows, test_rows, bounds_of, range_rows, box_rows, loop_rows, condition_rows, domain_rows, with_rows};
ghost use Rattle.affc_nest.specs.Frames.{denied_if, opposite_if, tests_of_each, all_seen, plain_at};
ghost use Rattle.affc_nest.specs.Sides.{NearRanges};

use crate::forms::form_over;
use crate::frames::Frame;
use crate::rows::{add_compare, add_gap};
use affc_ast::tree::{Compare, Cond, Ix, Rel};
use affc_rows::Form;
use affc_system::{BoxOf, System};
use std::alloc::{AllocError, Global};

/// Adds the rows of a comparison.
fn add_test(
    alloc: Global,
    system: &mut System,
    names: u32,
    more: u32,
    rel: Rel,
    left: &Ix,
    right: &Ix,
) -> Result<(), AllocError>
    requires left { IsTrue (is_plain names left.now) }
    requires right { IsTrue (is_plain names right.now) }
    requires columns { system.old.columns ≡ names + more }
    requires room { length system.old.rows + 1 < 1024 }
    ensures { OnOk result (system.new ≡ with_rows system.old (compare_rows rel (form_of names more left.now) (form_of names more right.now))) }
{
    let left = form_over(alloc, names, more, left)?;
    let right = form_over(alloc, names, more, right)?;
    add_compare(alloc, system, rel, &left, &right)
}

/// Adds the rows of comparisons over so many names in sight, and columns that they don't see.
#[tactic(auto, using(crate::proofs::RowLemmas::few_tests))]
pub(crate) fn add_tests(
    alloc: Global,
    system: &mut System,
    names: u32,
    more: u32,
    conds: &[Compare],
) -> Result<(), AllocError>
    requires plain { IsTrue (plain_tests names conds.now) }
    requires columns { system.old.columns ≡ names + more }
    requires room { length system.old.rows + 2 * length conds.now < 1024 }
    ensures value { OnOk result (system.new ≡ with_rows system.old (test_rows names more conds.now)) }
    ensures grows { OnOk result (length system.new.rows ≤ length system.old.rows + 2 * length conds.now) }
{
    match conds {
        [] => Ok(()),
        [cond, rest @ ..] => {
            add_test(
                alloc,
                system,
                names,
                more,
                cond.rel,
                &cond.left,
                &cond.right,
            )?;
            add_tests(alloc, system, names, more, rest)
        }
    }
}

/// The relation, or its opposite.
pub fn relation(rel: Rel, is_denied: bool) -> Rel
    ensures { result ≡ opposite_if is_denied rel }
{
    if !is_denied {
        return rel;
    }
    match rel {
        Rel::Less => Rel::GreaterEqual,
        Rel::LessEqual => Rel::Greater,
        Rel::Greater => Rel::LessEqual,
        Rel::GreaterEqual => Rel::Less,
        Rel::Equal => Rel::NotEqual,
        Rel::NotEqual => Rel::Equal,
    }
}

/// Adds the rows of the comparisons that are joined in a condition, or in its denial.
#[cycle(conds)]
fn add_cond(
    alloc: Global,
    system: &mut System,
    names: u32,
    more: u32,
    cond: &Cond,
    is_denied: bool,
) -> Result<(), AllocError>
    requires plain { IsTrue (plain_cond names cond.now) }
    requires columns { system.old.columns ≡ names + more }
    requires room { length system.old.rows + 2 * comparisons_of cond.now < 1024 }
    ensures value { OnOk result (system.new ≡ with_rows system.old (test_rows names more (tests_of (denied_if is_denied cond.now)))) }
    ensures grows { OnOk result (length system.new.rows ≤ length system.old.rows + 2 * comparisons_of cond.now) }
{
    match cond {
        Cond::Compare { rel, left, right } => {
            let rel = relation(*rel, is_denied);
            add_test(alloc, system, names, more, rel, left, right)
        }
        Cond::All(conds) => {
            if is_denied {
                return Ok(());
            }
            add_conds(alloc, system, names, more, conds.as_slice(), false)
        }
        Cond::Any(conds) => {
            if !is_denied {
                return Ok(());
            }
            add_conds(alloc, system, names, more, conds.as_slice(), true)
        }
        Cond::Divides {
            value: _,
            by: _,
            yes: _,
        } => Ok(()),
    }
}

/// The same for conditions one after the other.
#[cycle(conds)]
fn add_conds(
    alloc: Global,
    system: &mut System,
    names: u32,
    more: u32,
    conds: &[Cond],
    is_denied: bool,
) -> Result<(), AllocError>
    requires plain { IsTrue (all_true (map (plain_cond names) conds.now)) }
    requires columns { system.old.columns ≡ names + more }
    requires room { length system.old.rows + 2 * added (map comparisons_of conds.now) < 1024 }
    ensures value { OnOk result (system.new ≡ with_rows system.old (test_rows names more (tests_of_each is_denied conds.now))) }
    ensures grows { OnOk result (length system.new.rows ≤ length system.old.rows + 2 * added (map comparisons_of conds.now)) }
{
    for cond in conds {
        add_cond(alloc, system, names, more, cond, is_denied)?;
    }
    Ok(())
}

/// Adds the rows of a condition that stands round a statement, or of its denial.
fn add_condition(
    alloc: Global,
    system: &mut System,
    names: u32,
    more: u32,
    cond: &Cond,
    is_denied: bool,
) -> Result<(), AllocError>
    requires plain { IsTrue (plain_cond names (denied_if is_denied cond.now)) }
    requires columns { system.old.columns ≡ names + more }
    requires room { length system.old.rows + 2 * comparisons_of (denied_if is_denied cond.now) < 1024 }
    ensures value { OnOk result (system.new ≡ with_rows system.old (test_rows names more (tests_of (denied_if is_denied cond.now)))) }
    ensures grows { OnOk result (length system.new.rows ≤ length system.old.rows + 2 * comparisons_of (denied_if is_denied cond.now)) }
{
    add_cond(alloc, system, names, more, cond, is_denied)
}

/// Adds the two rows of a column's range.
fn add_range(
    alloc: Global,
    system: &mut System,
    j: u32,
    low: i64,
    high: i64,
) -> Result<(), AllocError>
    requires low { unsigned_abs low ≤ 2 ^ 32 }
    requires high { unsigned_abs high ≤ 2 ^ 32 }
    requires room { length system.old.rows + 1 < 1024 }
    ensures { OnOk result (system.new ≡ with_rows system.old (range_rows system.old.columns j (low, high))) }
{
    let columns = system.columns();
    let x = Form::column(alloc, columns, j)?;
    let least = Form::number(alloc, columns, i128::from(low))?;
    let greatest = Form::number(alloc, columns, i128::from(high))?;
    add_gap(alloc, system, &least, &x, 0)?;
    add_gap(alloc, system, &x, &greatest, 0)
}

/// Adds the rows of a loop's bounds: its iterator is the first of so many columns behind the names in sight.
fn add_bounds(
    alloc: Global,
    system: &mut System,
    names: u32,
    more: u32,
    low: &Ix,
    rel: Rel,
    high: &Ix,
) -> Result<(), AllocError>
    requires first { IsTrue (is_plain names low.now) }
    requires last { IsTrue (is_plain names high.now) }
    requires columns { system.old.columns ≡ names + more }
    requires room { length system.old.rows + 2 < 1024 }
    ensures { OnOk result (system.new ≡ with_rows system.old (bounds_of names low.now rel high.now more)) }
{
    let x = Form::column(alloc, system.columns(), names)?;
    let from = form_over(alloc, names, more, low)?;
    let to = form_over(alloc, names, more, high)?;
    add_gap(alloc, system, &from, &x, 0)?;
    add_compare(alloc, system, rel, &x, &to)
}

/// Adds the rows of the ranges of the columns from `j` on.
#[tactic(auto, using(crate::proofs::RowLemmas::few_box))]
pub(crate) fn add_box(
    alloc: Global,
    system: &mut System,
    j: u32,
    ranges: &[(i64, i64)],
) -> Result<(), AllocError>
    requires near { NearRanges ranges.now }
    requires few { j + length ranges.now ≤ 128 }
    requires room { length system.old.rows + 2 * length ranges.now < 1024 }
    ensures value { OnOk result (system.new ≡ with_rows system.old (box_rows system.old.columns j ranges.now)) }
    ensures grows { OnOk result (length system.new.rows ≤ length system.old.rows + 2 * length ranges.now) }
{
    match ranges {
        [] => Ok(()),
        [range, rest @ ..] => {
            add_range(alloc, system, j, range.0, range.1)?;
            add_box(alloc, system, j + 1, rest)
        }
    }
}

/// Adds the rows of the loops among these frames, which have these ranges, where so many names are in sight outside.
#[tactic(auto, using(crate::proofs::RowLemmas::few_loop_rows))]
pub(crate) fn add_loops(
    alloc: Global,
    system: &mut System,
    names: u32,
    ranges: &[(i64, i64)],
    frames: &[Frame<'_>],
) -> Result<(), AllocError>
    requires plain { IsTrue (plain_at names (all_seen frames.now)) }
    requires columns { system.old.columns ≡ names + loops_in (all_seen frames.now) }
    requires few { system.old.columns ≤ 128 }
    requires near { NearRanges ranges.now }
    requires room { length system.old.rows + 5 * loops_in (all_seen frames.now) < 1024 }
    ensures value { OnOk result (system.new ≡ with_rows system.old (loop_rows names ranges.now (all_seen frames.now))) }
    ensures grows { OnOk result (length system.new.rows ≤ length system.old.rows + 5 * loops_in (all_seen frames.now)) }
{
    match frames {
        [] => Ok(()),
        [frame, rest @ ..] => match frame {
            Frame::Test {
                cond: _,
                is_denied: _,
            } => add_loops(alloc, system, names, ranges, rest),
            Frame::Loop {
                iter: _,
                low,
                rel,
                high,
            } => match ranges {
                [] => Ok(()),
                [range, others @ ..] => {
                    let more = system.columns() - names;
                    add_bounds(alloc, system, names, more, low, *rel, high)?;
                    add_range(alloc, system, names, range.0, range.1)?;
                    add_loops(alloc, system, names + 1, others, rest)?;
                    Ok(())
                }
            },
        },
    }
}

/// Adds the rows of the conditions among these frames, where so many names are in sight outside.
pub(crate) fn add_conditions(
    alloc: Global,
    system: &mut System,
    names: u32,
    frames: &[Frame<'_>],
) -> Result<(), AllocError>
    requires plain { IsTrue (plain_at names (all_seen frames.now)) }
    requires columns { system.old.columns ≡ names + loops_in (all_seen frames.now) }
    requires few { system.old.columns ≤ 128 }
    requires room { length system.old.rows + 2 * comparisons_in (all_seen frames.now) < 1024 }
    ensures { OnOk result (system.new ≡ with_rows system.old (condition_rows names (all_seen frames.now))) }
{
    match frames {
        [] => Ok(()),
        [frame, rest @ ..] => match frame {
            Frame::Test { cond, is_denied } => {
                let more = system.columns() - names;
                add_condition(alloc, system, names, more, cond, *is_denied)?;
                add_conditions(alloc, system, names, rest)
            }
            Frame::Loop {
                iter: _,
                low: _,
                rel: _,
                high: _,
            } => add_conditions(alloc, system, names + 1, rest),
        },
    }
}

/// How many loops these frames hold.
pub(crate) fn count_loops(frames: &[Frame<'_>]) -> u32
    requires { loops_in (all_seen frames.now) ≤ 128 }
    ensures { result ≡ loops_in (all_seen frames.now) }
{
    match frames {
        [] => 0,
        [frame, rest @ ..] => match frame {
            Frame::Test {
                cond: _,
                is_denied: _,
            } => count_loops(rest),
            Frame::Loop {
                iter: _,
                low: _,
                rel: _,
                high: _,
            } => count_loops(rest) + 1,
        },
    }
}

/// The domain under these frames, where the parameters and the loops have these ranges.
pub(crate) fn domain(
    alloc: Global,
    params: &BoxOf,
    context: &[Compare],
    ranges: &BoxOf,
    frames: &[Frame<'_>],
) -> Result<System, AllocError>
    requires few_params { length params.now ≤ 4 }
    requires near_params { NearRanges params.now }
    requires near { NearRanges ranges.now }
    requires few_conditions { length context.now ≤ 16 }
    requires plain_context { IsTrue (plain_tests (length params.now) context.now) }
    requires plain { IsTrue (plain_at (length params.now) (all_seen frames.now)) }
    requires few_loops { loops_in (all_seen frames.now) ≤ 6 }
    requires few_comparisons { comparisons_in (all_seen frames.now) ≤ 32 }
    ensures { IfOk result (λ s. s ≡ with_rows (record { columns = length params.now + loops_in (all_seen frames.now); rows = [] }) (domain_rows params.now context.now ranges.now (all_seen frames.now))) }
{
    let names = params.ranges().len() as u32;
    let loops = count_loops(frames);
    let mut system = System::new(alloc, names + loops);
    add_box(alloc, &mut system, 0, params.ranges())?;
    add_tests(alloc, &mut system, names, loops, context)?;
    add_loops(alloc, &mut system, names, ranges.ranges(), frames)?;
    add_conditions(alloc, &mut system, names, frames)?;
    Ok(system)
}
