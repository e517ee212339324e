//! What the limits on statements, arrays and lines ask of a tree.
ghost use Rattle.std.specs.Prelude.{◌≡◌, map};
ghost use Rattle.std.specs.List.{list_all};
ghost use Rattle.affc_ast.specs.Fits.{all_true};
ghost use Rattle.affc_grammar.specs.Limits.{is_range};
ghost use Rattle.affc_wellnamed.specs.Work as spec;

use crate::known::number_count;
use crate::shape::{larger, plus};
use affc_ast::tree::{Cond, Decl, Op, Param, Program, Stmt, Val};

#[tactic(auto, using(affc_ast::proofs::Outs::val_outs))]
fn loads(v: &Val) -> u64
    ensures { result ≡ spec.loads v.now }
{
    match v {
        Val::Load { .. } => 1,
        Val::Const(_) | Val::Cast(_) => 0,
        Val::Not(a) | Val::Shift { value: a, .. } => loads(a.get()),
        Val::Bin { left, right, .. } => plus(loads(left.get()), loads(right.get())),
    }
}

// Assignments: how many, how many loops stand round one, and whether one has too many accesses.
#[derive(Clone, Copy)]
pub struct Work {
    statements: u64,
    loops: u64,
    crowded: bool,
}

fn no_work() -> Work
    ensures { result ≡ spec.no_work }
{
    Work {
        statements: 0,
        loops: 0,
        crowded: false,
    }
}

fn one_work(op: Option<Op>, loaded: u64) -> Work
    ensures { result ≡ spec.one_work op loaded }
{
    let own = match op {
        None => 1,
        Some(_) => 2,
    };
    Work {
        statements: 1,
        loops: 0,
        crowded: 16 < plus(loaded, own),
    }
}

fn both(a: Work, b: Work) -> Work
    ensures { result ≡ spec.both a b }
{
    Work {
        statements: plus(a.statements, b.statements),
        loops: larger(a.loops, b.loops),
        crowded: a.crowded || b.crowded,
    }
}

// In one loop more.
fn looped(a: Work) -> Work
    ensures { result ≡ spec.looped a }
{
    Work {
        statements: a.statements,
        loops: if 0 < a.statements {
            plus(a.loops, 1)
        } else {
            0
        },
        crowded: a.crowded,
    }
}

#[cycle(statements)]
#[tactic(auto, using(affc_ast::proofs::Outs::stmt_outs))]
fn work_of(s: &Stmt) -> Work
    ensures { result ≡ spec.work s.now }
{
    match s {
        Stmt::For { body, .. } => looped(stmts_behind(no_work(), body.as_slice())),
        Stmt::If { body, other, .. } => both(
            stmts_behind(no_work(), body.as_slice()),
            stmts_behind(no_work(), other.as_slice()),
        ),
        Stmt::Block { body, .. } => stmts_behind(no_work(), body.as_slice()),
        Stmt::Assign { op, value, .. } => one_work(*op, loads(value)),
    }
}

// Statements behind so much.
#[cycle(statements)]
fn stmts_behind(before: Work, body: &[Stmt]) -> Work
    ensures { result ≡ spec.stmts_behind before body.now }
{
    let mut all = before;
    for s in body {
        all = both(all, work_of(s));
    }
    all
}

fn is_bounded(a: Work) -> bool
    ensures { result ≡ spec.is_bounded a }
{
    a.statements <= 64 && a.loops <= 12 && !a.crowded
}

// ---- Remainders

fn is_small(by: i64) -> bool
    ensures { result ≡ spec.is_small by }
{
    by.unsigned_abs() <= 1 << 62
}

// Whether the number of each remainder is within the limit.
#[cycle(conditions)]
#[tactic(auto, using(affc_ast::proofs::Outs::cond_outs))]
fn cond_fits(c: &Cond) -> bool
    ensures { result ≡ spec.cond_fits c.now }
{
    match c {
        Cond::Compare { .. } => true,
        Cond::All(entries) | Cond::Any(entries) => conds_fit(entries.as_slice()),
        Cond::Divides { by, .. } => is_small(*by),
    }
}

#[cycle(conditions)]
fn conds_fit(cs: &[Cond]) -> bool
    ensures { result ≡ all_true (map spec.cond_fits cs.now) }
{
    for c in cs {
        if !cond_fits(c) {
            return false;
        }
    }
    true
}

#[cycle(numbers)]
#[tactic(auto, using(affc_ast::proofs::Outs::stmt_outs))]
fn stmt_fits(s: &Stmt) -> bool
    ensures { result ≡ spec.stmt_fits s.now }
{
    match s {
        Stmt::For { body, .. } | Stmt::Block { body, .. } => stmts_fit(body.as_slice()),
        Stmt::If { cond, body, other } => {
            cond_fits(cond) && (stmts_fit(body.as_slice()) && stmts_fit(other.as_slice()))
        }
        Stmt::Assign { .. } => true,
    }
}

#[cycle(numbers)]
fn stmts_fit(body: &[Stmt]) -> bool
    ensures { result ≡ all_true (map spec.stmt_fits body.now) }
{
    for s in body {
        if !stmt_fits(s) {
            return false;
        }
    }
    true
}

// ---- Declarations and lines

fn has_few(d: &Decl) -> bool
    ensures { result ≡ spec.has_few d.now }
{
    d.extents.len() <= 4
}

fn is_range(low: i64, high: i64) -> bool
    ensures { result ≡ is_range low high }
{
    low <= high && low.unsigned_abs() <= 1 << 24 && high.unsigned_abs() <= 1 << 24
}

fn param_fits(param: &Param) -> bool
    ensures { result ≡ spec.param_fits param.now }
{
    match param {
        Param::Number { low, high, .. } => is_range(*low, *high),
        Param::Array(d) => has_few(d),
    }
}

fn params_fit(params: &[Param]) -> bool
    ensures { result ≡ list_all spec.param_fits params.now }
{
    for param in params {
        if !param_fits(param) {
            return false;
        }
    }
    true
}

fn temps_fit(temps: &[Decl]) -> bool
    ensures { result ≡ list_all spec.has_few temps.now }
{
    for temp in temps {
        if !has_few(temp) {
            return false;
        }
    }
    true
}

/// Whether a program keeps the limits on its statements, arrays and lines.
pub fn program_fits(program: &Program) -> bool
    ensures { result ≡ spec.program_fits program.now }
{
    let params = program.params.as_slice();
    number_count(params) <= 4
        && program.context.len() <= 16
        && ((params_fit(params) && temps_fit(program.temps.as_slice()))
            && (is_bounded(stmts_behind(no_work(), program.body.as_slice()))
                && stmts_fit(program.body.as_slice())))
}
