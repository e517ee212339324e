//! Values and statements with folded subscripts.
ghost use Rattle.std.specs.Prelude.{◌≡◌, ◌≤◌, ◌+◌, length, map, IfOk, true};
ghost use Rattle.affc_ast.specs.Recursion.{by_stmt};
ghost use Rattle.affc_ast.specs.declared.tree.Stmt.TheVariants as made;
ghost use Rattle.affc_ast.specs.declared.tree.Val.TheVariants as values;
ghost use Rattle.affc_domain.specs.Plain.{all_plain, plain_value};
ghost use Rattle.affc_foldloops.specs.Refolds.{refold_value, refold_step, each_under};
ghost use Rattle.affc_rewrite.specs.Sizes.{IsWalk, at, all_under, accesses_step};

use crate::subscripts::{Folding, subscripts};
use affc_ast::copies::all as copies;
use affc_ast::text::Text;
use affc_ast::tree::{ArrayId, Cond, Ix, Local, Op, Rel, Stmt, Val};
use affc_ast::{Boxed, Items};
use std::alloc::{AllocError, Global};

fn not(alloc: Global, a: Val) -> Result<Val, AllocError>
    ensures { IfOk result (λ x. x ≡ values.Not a) }
{
    Ok(Val::Not(Boxed::new(alloc, a)?))
}

fn bin(alloc: Global, op: Op, left: Val, right: Val) -> Result<Val, AllocError>
    ensures { IfOk result (λ x. x ≡ values.Bin op left right) }
{
    let left = Boxed::new(alloc, left)?;
    let right = Boxed::new(alloc, right)?;
    Ok(Val::Bin { op, left, right })
}

fn shift(alloc: Global, left: bool, value: Val, by: u8) -> Result<Val, AllocError>
    ensures { IfOk result (λ x. x ≡ values.Shift left value by) }
{
    let value = Boxed::new(alloc, value)?;
    Ok(Val::Shift { left, value, by })
}

/// The value with folded subscripts, where so many names are in sight.
#[tactic(auto, using(affc_ast::proofs::Outs::val_outs))]
fn value(alloc: Global, folding: &Folding<'_>, names: u32, e: &Val) -> Result<Val, AllocError>
    requires walk { IsWalk folding.now names }
    requires plain { plain_value e.now names ≡ true }
    ensures { IfOk result (λ x. x ≡ refold_value (at folding.now) names e.now) }
{
    match e {
        Val::Load { array, subs } => {
            let subs = subscripts(alloc, folding, names, *array, subs.as_slice())?;
            Ok(Val::Load {
                array: *array,
                subs,
            })
        }
        Val::Const(n) => Ok(Val::Const(*n)),
        Val::Cast(e) => Ok(Val::Cast(e.to_owned(alloc)?)),
        Val::Not(of) => {
            let of = value(alloc, folding, names, of.get())?;
            not(alloc, of)
        }
        Val::Bin { op, left, right } => {
            let left = value(alloc, folding, names, left.get())?;
            let right = value(alloc, folding, names, right.get())?;
            bin(alloc, *op, left, right)
        }
        Val::Shift {
            left,
            value: of,
            by,
        } => {
            let of = value(alloc, folding, names, of.get())?;
            shift(alloc, *left, of, *by)
        }
    }
}

/// A loop with this body.
fn for_loop(
    alloc: Global,
    iter: &Text,
    low: &Ix,
    rel: Rel,
    high: &Ix,
    body: Items<Stmt>,
) -> Result<Stmt, AllocError>
    ensures { IfOk result (λ x. x ≡ made.For iter.now low.now rel high.now body) }
{
    let iter = Text::from_str(alloc, iter.as_str())?;
    let low = low.to_owned(alloc)?;
    let high = high.to_owned(alloc)?;
    Ok(Stmt::For {
        iter,
        low,
        rel,
        high,
        body,
    })
}

/// An `if` with these branches.
fn tested(
    alloc: Global,
    cond: &Cond,
    body: Items<Stmt>,
    other: Items<Stmt>,
) -> Result<Stmt, AllocError>
    ensures { IfOk result (λ x. x ≡ made.If cond.now body other) }
{
    let cond = cond.to_owned(alloc)?;
    Ok(Stmt::If { cond, body, other })
}

/// An assignment with folded subscripts.
fn assignment(
    alloc: Global,
    folding: &Folding<'_>,
    names: u32,
    op: Option<Op>,
    array: ArrayId,
    subs: &[Ix],
    e: &Val,
) -> Result<Stmt, AllocError>
    requires walk { IsWalk folding.now names }
    requires subs { all_plain names subs.now ≡ true }
    requires value { plain_value e.now names ≡ true }
    ensures { IfOk result (λ x. x ≡ made.Assign op array (at folding.now names array subs.now) (refold_value (at folding.now) names e.now)) }
{
    let subs = subscripts(alloc, folding, names, array, subs)?;
    let value = value(alloc, folding, names, e)?;
    Ok(Stmt::Assign {
        op,
        array,
        subs,
        value,
    })
}

/// A block with this body.
fn block(alloc: Global, locals: &[Local], body: Items<Stmt>) -> Result<Stmt, AllocError>
    ensures { IfOk result (λ x. x ≡ made.Block locals.now body) }
{
    let locals = copies(alloc, locals)?;
    Ok(Stmt::Block { locals, body })
}

/// The number of names in sight inside a block.
fn inside(names: u32, locals: &[Local]) -> u32
    requires { names + length locals.now ≤ 16 }
    ensures { result ≡ names + length locals.now }
{
    names + locals.len() as u32
}

/// The statement with folded subscripts, where so many names are in sight.
#[cycle(walk)]
#[tactic(auto, using(crate::proofs::Arms::assign_subs, crate::proofs::Arms::assign_value, crate::proofs::Arms::assign_arm))]
fn statement(alloc: Global, folding: &Folding<'_>, names: u32, s: &Stmt) -> Result<Stmt, AllocError>
    requires walk { IsWalk folding.now names }
    requires plain { by_stmt accesses_step s.now names ≡ true }
    ensures { IfOk result (λ x. x ≡ by_stmt (refold_step (at folding.now)) s.now names) }
{
    match s {
        Stmt::For {
            iter,
            low,
            rel,
            high,
            body,
        } => {
            let body = statements(alloc, folding, names + 1, body.as_slice())?;
            for_loop(alloc, iter, low, *rel, high, body)
        }
        Stmt::If { cond, body, other } => {
            let body = statements(alloc, folding, names, body.as_slice())?;
            let other = statements(alloc, folding, names, other.as_slice())?;
            tested(alloc, cond, body, other)
        }
        Stmt::Assign {
            op,
            array,
            subs,
            value,
        } => assignment(alloc, folding, names, *op, *array, subs.as_slice(), value),
        Stmt::Block { locals, body } => {
            let names = inside(names, locals.as_slice());
            let body = statements(alloc, folding, names, body.as_slice())?;
            block(alloc, locals.as_slice(), body)
        }
    }
}

/// The same for statements one after the other.
#[cycle(walk)]
#[tactic(auto, using(crate::proofs::Arms::first_plain, crate::proofs::Arms::rest_plain, crate::proofs::Arms::statement_front))]
pub(crate) fn statements(
    alloc: Global,
    folding: &Folding<'_>,
    names: u32,
    body: &[Stmt],
) -> Result<Items<Stmt>, AllocError>
    requires walk { IsWalk folding.now names }
    requires plain { all_under (map (by_stmt accesses_step) body.now) names ≡ true }
    ensures { IfOk result (λ x. x ≡ each_under (map (by_stmt (refold_step (at folding.now))) body.now) names) }
{
    let mut made = Items::new(alloc);
    for s in body {
        made.push(statement(alloc, folding, names, s)?)?;
    }
    Ok(made)
}
