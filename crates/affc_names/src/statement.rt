//! Trees of statements.

ghost use Rattle.std.specs.Prelude.{◌≡◌, ◌+◌, None, length, map, OnOk};
ghost use Rattle.affc_grammar.specs.Draft as d;
ghost use Rattle.affc_grammar.specs.Names as names;
ghost use Rattle.affc_syntax.specs.draft.Drafts as seen;
ghost use Rattle.affc_names.specs.Stored as stored;
ghost use Rattle.affc_names.specs.Visible.{without};
ghost use Rattle.affc_names.specs.Gives.{Gives, GivesWith, Allows};
ghost use Rattle.affc_names.specs.Locals.{local_tree};

use crate::condition::cond_tree;
use crate::fault::NameFault;
use crate::index::{ix_tree, ix_trees};
use crate::scope::Scope;
use crate::value::{array_named, value_tree};
use crate::why::{why_declared, why_repeated};
use affc_ast::Items;
use affc_ast::text::Text;
use affc_ast::tree::{Ix, Local, Op, Stmt};
use affc_grammar::fault::NameWhy;
use affc_syntax::draft::draft::{
    CondDraft, HeadDraft, IxDraft, LocalDraft, StmtDraft, ValueDraft, WordDraft,
};
use std::alloc::{AllocError, Global};

/// The name whose token has this number is refused, where there is a reason.
pub(crate) fn allowed(why: Option<NameWhy>, at: usize) -> Result<(), NameFault>
    ensures { Allows result why at }
{
    match why {
        None => Ok(()),
        Some(why) => Err(NameFault::Refused { at, why }),
    }
}

/// A word that is declared.
fn declared(scope: &Scope, is_iterator: bool, word: &WordDraft) -> Result<(), NameFault>
    ensures allows { Allows result (names.why_declared scope.now is_iterator word.now.name) word.now.at }
    ensures free { OnOk result (names.thing_of scope.now word.now.name ≡ None) }
{
    allowed(
        why_declared(scope, is_iterator, word.name.as_str()),
        word.at,
    )
}

/// The second or the third word of a `for`.
fn repeated(scope: &Scope, iterator: &WordDraft, word: &WordDraft) -> Result<(), NameFault>
    ensures { Allows result (names.why_repeated scope.now iterator.now.name word.now.name) word.now.at }
{
    let why = why_repeated(scope, iterator.name.as_str(), word.name.as_str());
    allowed(why, word.at)
}

/// A local, which is visible from then on.
fn add_local(alloc: Global, scope: &mut Scope, draft: &LocalDraft) -> Result<Local, NameFault>
    ensures { GivesWith result scope.new (local_tree scope.old (stored.local (seen.local draft.now))) }
{
    let name = draft.name.as_str();
    allowed(why_declared(scope, false, name), draft.at)?;
    let value = ix_tree(alloc, scope, &draft.value)?;
    scope.add_number(alloc, name, false)?;
    let name = Text::from_str(alloc, name)?;
    Ok(Local { name, value })
}

/// A block's locals in order, which are visible from then on.
fn add_locals(
    alloc: Global,
    scope: &mut Scope,
    drafts: &[LocalDraft],
) -> Result<Items<Local>, NameFault>
    ensures { GivesWith result scope.new (names.locals_tree scope.old (map stored.local (map seen.local drafts.now))) }
{
    let mut locals = Items::new(alloc);
    for draft in drafts {
        let local = add_local(alloc, scope, draft)?;
        locals.push(local)?;
    }
    Ok(locals)
}

/// The names that were added last are visible no longer.
fn forget(scope: &mut Scope, count: usize)
    ensures { scope.new ≡ without count scope.old }
{
    for gone in 0..count {
        scope.forget_last();
    }
}

/// The bounds of a `for`, whose iterator isn't visible in them.
fn bounds(alloc: Global, scope: &Scope, head: &HeadDraft) -> Result<(Ix, Ix), NameFault>
    ensures tree { Gives result (names.head_tree scope.now (stored.head (seen.head head.now))) }
    ensures free { OnOk result (names.thing_of scope.now head.now.iterator.name ≡ None) }
{
    declared(scope, true, &head.iterator)?;
    let low = ix_tree(alloc, scope, &head.low)?;
    repeated(scope, &head.iterator, &head.tested)?;
    let high = ix_tree(alloc, scope, &head.high)?;
    repeated(scope, &head.iterator, &head.stepped)?;
    Ok((low, high))
}

fn assign_tree(
    alloc: Global,
    scope: &Scope,
    array: &WordDraft,
    subs: &[IxDraft],
    op: Option<Op>,
    value: &ValueDraft,
) -> Result<Stmt, NameFault>
    ensures { Gives result (names.stmt_tree scope.now (stored.stmt (d.assign (seen.word array.now) (map seen.ix subs.now) op (seen.value value.now)))) }
{
    let id = array_named(scope, array.at, array.name.as_str(), true, subs.len())?;
    let subs = ix_trees(alloc, scope, subs)?;
    let value = value_tree(alloc, scope, value)?;
    Ok(Stmt::Assign {
        op,
        array: id,
        subs,
        value,
    })
}

#[cycle(stmts)]
fn for_tree(
    alloc: Global,
    scope: &mut Scope,
    head: &HeadDraft,
    body: &[StmtDraft],
) -> Result<Stmt, NameFault>
    ensures tree { Gives result (names.stmt_tree scope.old (stored.stmt (d.for_loop (seen.head head.now) (seen.stmts_of (map seen.stmt body.now))))) }
    ensures same { OnOk result (scope.new ≡ scope.old) }
{
    let (low, high) = bounds(alloc, scope, head)?;
    let iterator = head.iterator.name.as_str();
    scope.add_number(alloc, iterator, true)?;
    let body = stmts_tree(alloc, scope, body)?;
    scope.forget_last();
    let iter = Text::from_str(alloc, iterator)?;
    Ok(Stmt::For {
        iter,
        low,
        rel: head.rel,
        high,
        body,
    })
}

#[cycle(stmts)]
fn if_tree(
    alloc: Global,
    scope: &mut Scope,
    cond: &CondDraft,
    body: &[StmtDraft],
    other: &[StmtDraft],
) -> Result<Stmt, NameFault>
    ensures tree { Gives result (names.stmt_tree scope.old (stored.stmt (d.if_cond 0 (seen.cond cond.now) (seen.stmts_of (map seen.stmt body.now)) (seen.stmts_of (map seen.stmt other.now))))) }
    ensures same { OnOk result (scope.new ≡ scope.old) }
{
    let cond = cond_tree(alloc, scope, cond)?;
    let body = stmts_tree(alloc, scope, body)?;
    let other = stmts_tree(alloc, scope, other)?;
    Ok(Stmt::If { cond, body, other })
}

#[cycle(stmts)]
fn block_tree(
    alloc: Global,
    scope: &mut Scope,
    locals: &[LocalDraft],
    body: &[StmtDraft],
) -> Result<Stmt, NameFault>
    ensures tree { Gives result (names.stmt_tree scope.old (stored.stmt (d.block (map seen.local locals.now) (seen.stmts_of (map seen.stmt body.now))))) }
    ensures same { OnOk result (scope.new ≡ scope.old) }
{
    let count = locals.len();
    let locals = add_locals(alloc, scope, locals)?;
    let body = stmts_tree(alloc, scope, body)?;
    forget(scope, count);
    Ok(Stmt::Block { locals, body })
}

#[cycle(stmts)]
#[tactic(auto, using(affc_syntax::proofs::draft::Outs::stmt_outs))]
fn stmt_tree(alloc: Global, scope: &mut Scope, draft: &StmtDraft) -> Result<Stmt, NameFault>
    ensures tree { Gives result (names.stmt_tree scope.old (stored.stmt (seen.stmt draft.now))) }
    ensures same { OnOk result (scope.new ≡ scope.old) }
{
    match draft {
        StmtDraft::For { head, body } => for_tree(alloc, scope, head, body.as_slice()),
        StmtDraft::If {
            cond,
            body,
            other,
            ..
        } => if_tree(alloc, scope, cond, body.as_slice(), other.as_slice()),
        StmtDraft::Assign {
            array,
            subs,
            op,
            value,
        } => assign_tree(alloc, scope, array, subs.as_slice(), *op, value),
        StmtDraft::Block { locals, body } => {
            block_tree(alloc, scope, locals.as_slice(), body.as_slice())
        }
    }
}

/// The statements in order.
#[cycle(stmts)]
pub(crate) fn stmts_tree(
    alloc: Global,
    scope: &mut Scope,
    drafts: &[StmtDraft],
) -> Result<Items<Stmt>, NameFault>
    ensures tree { Gives result (names.stmts_tree scope.old (stored.stmts (seen.stmts_of (map seen.stmt drafts.now)))) }
    ensures same { OnOk result (scope.new ≡ scope.old) }
{
    let mut stmts = Items::new(alloc);
    for draft in drafts {
        let stmt = stmt_tree(alloc, scope, draft)?;
        stmts.push(stmt)?;
    }
    Ok(stmts)
}
