//! Whether a statement calls a function of the prelude.
ghost use Rattle.std.specs.Prelude.{◌≡◌, map};
ghost use Rattle.std.specs.List.{list_any};
ghost use Rattle.affc_ast.specs.Recursion.{by_val, by_stmt};
ghost use Rattle.affc_rewrite.specs.Rewrite as specs;

use affc_ast::tree::{Cond, Ix, Local, Stmt, Val};

#[tactic(auto, using(affc_ast::proofs::Outs::ix_outs))]
fn has_call(e: &Ix) -> bool
    ensures { result ≡ specs.has_call e.now }
{
    match e {
        Ix::Lit(_) => false,
        Ix::Name(_) => false,
        Ix::Neg(a) => has_call(a.get()),
        Ix::Add(a, b) => has_call(a.get()) || has_call(b.get()),
        Ix::Sub(a, b) => has_call(a.get()) || has_call(b.get()),
        Ix::Mul(a, b) => has_call(a.get()) || has_call(b.get()),
        Ix::Min(_, _) => true,
        Ix::Max(_, _) => true,
        Ix::Floord(_, _) => true,
        Ix::Ceild(_, _) => true,
        Ix::Mod(_, _) => true,
    }
}

fn some_call(es: &[Ix]) -> bool
    ensures { result ≡ specs.some_call es.now }
{
    match es {
        [] => false,
        [e, rest @ ..] => has_call(e) || some_call(rest),
    }
}

#[tactic(auto, using(affc_ast::proofs::Outs::val_outs))]
fn value_calls(e: &Val) -> bool
    ensures { result ≡ by_val specs.value_call_step e.now }
{
    match e {
        Val::Load { array: _, subs } => some_call(subs.as_slice()),
        Val::Const(_) => false,
        Val::Cast(e) => has_call(e),
        Val::Not(of) => value_calls(of.get()),
        Val::Bin { op: _, left, right } => value_calls(left.get()) || value_calls(right.get()),
        Val::Shift {
            left: _,
            value,
            by: _,
        } => value_calls(value.get()),
    }
}

#[cycle(conds)]
#[tactic(auto, using(affc_ast::proofs::Outs::cond_outs))]
fn cond_calls(cond: &Cond) -> bool
    ensures { result ≡ specs.cond_calls cond.now }
{
    match cond {
        Cond::Compare {
            rel: _,
            left,
            right,
        } => has_call(left) || has_call(right),
        Cond::All(entries) => some_cond_calls(entries.as_slice()),
        Cond::Any(entries) => some_cond_calls(entries.as_slice()),
        Cond::Divides {
            value,
            by: _,
            yes: _,
        } => has_call(value),
    }
}

#[cycle(conds)]
fn some_cond_calls(conds: &[Cond]) -> bool
    ensures { result ≡ list_any (λ b. b) (map specs.cond_calls conds.now) }
{
    for cond in conds {
        if cond_calls(cond) {
            return true;
        }
    }
    false
}

fn local_calls(locals: &[Local]) -> bool
    ensures { result ≡ list_any (λ l. specs.has_call l.value) locals.now }
{
    match locals {
        [] => false,
        [l, rest @ ..] => has_call(&l.value) || local_calls(rest),
    }
}

#[cycle(walk)]
#[tactic(auto, using(crate::proofs::Arms::for_calls, crate::proofs::Arms::if_calls, crate::proofs::Arms::assign_calls, crate::proofs::Arms::block_calls))]
fn stmt_calls(s: &Stmt) -> bool
    ensures { result ≡ by_stmt specs.stmt_call_step s.now }
{
    match s {
        Stmt::For {
            iter: _,
            low,
            rel: _,
            high,
            body,
        } => has_call(low) || (has_call(high) || calls(body.as_slice())),
        Stmt::If { cond, body, other } => {
            cond_calls(cond) || (calls(body.as_slice()) || calls(other.as_slice()))
        }
        Stmt::Assign {
            op: _,
            array: _,
            subs,
            value,
        } => some_call(subs.as_slice()) || value_calls(value),
        Stmt::Block { locals, body } => local_calls(locals.as_slice()) || calls(body.as_slice()),
    }
}

/// Whether one of these statements calls a function of the prelude.
#[cycle(walk)]
pub(crate) fn calls(body: &[Stmt]) -> bool
    ensures { result ≡ list_any (λ b. b) (map (by_stmt specs.stmt_call_step) body.now) }
{
    for s in body {
        if stmt_calls(s) {
            return true;
        }
    }
    false
}
