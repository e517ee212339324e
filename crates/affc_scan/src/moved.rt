//! Conditions, values and assignments of a source where more names stand in sight.
ghost use Rattle.std.specs.Prelude.{◌≡◌, ◌≤◌, ◌++◌, map, IfOk, true};
ghost use Rattle.affc_ast.specs.declared.tree.Val.TheVariants as values;
ghost use Rattle.affc_ast.specs.Fits.{all_true};
ghost use Rattle.affc_loops.specs.Trees.{moved, moved_value};
ghost use Rattle.affc_loops.specs.Trees as trees;
ghost use Rattle.affc_nest.specs.Frames.{denied_if};
ghost use Rattle.affc_scan.specs.InSight.{all_in_sight, cond_in_sight, value_in_sight};
ghost use Rattle.affc_scan.specs.Conditions.{joined_as, moved_each};

use crate::trees::moved_ix;
use affc_ast::tree::{Cond, Ix, Op, Val};
use affc_ast::{Boxed, Items};
use affc_nest::relation;
use std::alloc::{AllocError, Global};

/// Conditions joined by `||` where that is so, and else by `&&`.
fn joined(conds: Items<Cond>, is_any: bool) -> Cond
    ensures { result ≡ joined_as is_any conds }
{
    if is_any {
        Cond::Any(conds)
    } else {
        Cond::All(conds)
    }
}

/// The condition, or its denial, where so many more names stand behind the first ones.
#[cycle(conds)]
#[tactic(auto, using(crate::proofs::MovedSteps::compare_moved, crate::proofs::MovedSteps::all_moved, crate::proofs::MovedSteps::any_moved, crate::proofs::MovedSteps::remainder_moved, crate::proofs::MovedSteps::all_seen, crate::proofs::MovedSteps::any_seen, crate::proofs::MovedSteps::compare_seen, crate::proofs::MovedSteps::remainder_seen))]
pub(crate) fn moved_cond(
    alloc: Global,
    first: u32,
    more: u32,
    cond: &Cond,
    is_denied: bool,
) -> Result<Cond, AllocError>
    requires few { more ≤ 1024 }
    requires seen { cond_in_sight cond.now ≡ true }
    ensures { IfOk result (λ x. x ≡ trees.moved_cond first more (denied_if is_denied cond.now)) }
{
    match cond {
        Cond::Compare { rel, left, right } => {
            let left = moved_ix(alloc, first, more, left)?;
            let right = moved_ix(alloc, first, more, right)?;
            let rel = relation(*rel, is_denied);
            Ok(Cond::Compare { rel, left, right })
        }
        Cond::All(entries) => {
            let entries = moved_conds(alloc, first, more, entries.as_slice(), is_denied)?;
            Ok(joined(entries, is_denied))
        }
        Cond::Any(entries) => {
            let entries = moved_conds(alloc, first, more, entries.as_slice(), is_denied)?;
            Ok(joined(entries, !is_denied))
        }
        Cond::Divides { value, by, yes } => {
            let value = moved_ix(alloc, first, more, value)?;
            let yes = if is_denied { !*yes } else { *yes };
            Ok(Cond::Divides {
                value,
                by: *by,
                yes,
            })
        }
    }
}

/// The same of conditions one after the other.
#[cycle(conds)]
#[tactic(auto, using(crate::proofs::MovedSteps::one_more_cond, crate::proofs::MovedSteps::first_seen, crate::proofs::MovedSteps::rest_seen))]
fn moved_conds(
    alloc: Global,
    first: u32,
    more: u32,
    conds: &[Cond],
    is_denied: bool,
) -> Result<Items<Cond>, AllocError>
    requires few { more ≤ 1024 }
    requires seen { all_true (map cond_in_sight conds.now) ≡ true }
    ensures { IfOk result (λ x. x ≡ moved_each first more is_denied conds.now) }
{
    let mut made = Items::new(alloc);
    for cond in conds {
        made.push(moved_cond(alloc, first, more, cond, is_denied)?)?;
    }
    Ok(made)
}

/// Adds expressions.
#[tactic(auto, using(crate::proofs::MovedSteps::one_more_ix))]
fn add_all(
    alloc: Global,
    first: u32,
    more: u32,
    es: &[Ix],
    made: Items<Ix>,
) -> Result<Items<Ix>, AllocError>
    requires few { more ≤ 1024 }
    requires seen { all_in_sight es.now ≡ true }
    ensures { IfOk result (λ x. x ≡ made ++ map (moved first more) es.now) }
{
    let mut made = made;
    match es {
        [] => Ok(made),
        [e, rest @ ..] => {
            made.push(moved_ix(alloc, first, more, e)?)?;
            add_all(alloc, first, more, rest, made)
        }
    }
}

/// The expressions where so many more names stand behind the first ones.
pub(crate) fn moved_all(
    alloc: Global,
    first: u32,
    more: u32,
    es: &[Ix],
) -> Result<Items<Ix>, AllocError>
    requires few { more ≤ 1024 }
    requires seen { all_in_sight es.now ≡ true }
    ensures { IfOk result (λ x. x ≡ map (moved first more) es.now) }
{
    add_all(alloc, first, more, es, Items::new(alloc))
}

fn not(alloc: Global, a: Val) -> Result<Val, AllocError>
    ensures { IfOk result (λ x. x ≡ values.Not a) }
{
    Ok(Val::Not(Boxed::new(alloc, a)?))
}

fn bin(alloc: Global, op: Op, left: Val, right: Val) -> Result<Val, AllocError>
    ensures { IfOk result (λ x. x ≡ values.Bin op left right) }
{
    let left = Boxed::new(alloc, left)?;
    let right = Boxed::new(alloc, right)?;
    Ok(Val::Bin { op, left, right })
}

fn shift(alloc: Global, left: bool, value: Val, by: u8) -> Result<Val, AllocError>
    ensures { IfOk result (λ x. x ≡ values.Shift left value by) }
{
    let value = Boxed::new(alloc, value)?;
    Ok(Val::Shift { left, value, by })
}

/// The value where so many more names stand behind the first ones.
#[tactic(auto, using(affc_ast::proofs::Outs::val_outs))]
pub(crate) fn moved_val(alloc: Global, first: u32, more: u32, e: &Val) -> Result<Val, AllocError>
    requires few { more ≤ 1024 }
    requires seen { value_in_sight e.now ≡ true }
    ensures { IfOk result (λ x. x ≡ moved_value first more e.now) }
{
    match e {
        Val::Load { array, subs } => {
            let subs = moved_all(alloc, first, more, subs.as_slice())?;
            Ok(Val::Load {
                array: *array,
                subs,
            })
        }
        Val::Const(n) => Ok(Val::Const(*n)),
        Val::Cast(e) => {
            let e = moved_ix(alloc, first, more, e)?;
            Ok(Val::Cast(e))
        }
        Val::Not(of) => {
            let of = moved_val(alloc, first, more, of.get())?;
            not(alloc, of)
        }
        Val::Bin { op, left, right } => {
            let left = moved_val(alloc, first, more, left.get())?;
            let right = moved_val(alloc, first, more, right.get())?;
            bin(alloc, *op, left, right)
        }
        Val::Shift { left, value, by } => {
            let value = moved_val(alloc, first, more, value.get())?;
            shift(alloc, *left, value, *by)
        }
    }
}
