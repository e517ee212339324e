//! Whether the conditions of a program's `if`s are comparisons joined by `&&`, without `!=`, and no `else` follows.

ghost use Rattle.std.specs.Prelude.{◌≡◌, map};
ghost use Rattle.affc_ast.specs.Fits.{all_true};
ghost use Rattle.affc_ast.specs.Joined as spec;
ghost use Rattle.affc_ast.specs.Recursion.{by_stmt};

use affc_ast::tree::{Cond, Program, Rel, Stmt};

fn is_ordered(rel: Rel) -> bool
    ensures { result ≡ spec.is_ordered rel }
{
    match rel {
        Rel::NotEqual => false,
        Rel::Less => true,
        Rel::LessEqual => true,
        Rel::Greater => true,
        Rel::GreaterEqual => true,
        Rel::Equal => true,
    }
}

#[cycle(conditions)]
fn are_joined(entries: &[Cond]) -> bool
    ensures { result ≡ all_true (map spec.is_joined entries.now) }
{
    for entry in entries {
        if !is_joined(entry) {
            return false;
        }
    }
    true
}

#[cycle(conditions)]
#[tactic(auto, using(affc_ast::proofs::Outs::cond_outs))]
fn is_joined(cond: &Cond) -> bool
    ensures { result ≡ spec.is_joined cond.now }
{
    match cond {
        Cond::Compare { rel, .. } => is_ordered(*rel),
        Cond::All(entries) => are_joined(entries.as_slice()),
        Cond::Any(_) => false,
        Cond::Divides { .. } => false,
    }
}

#[cycle(statements)]
#[tactic(auto, using(affc_ast::proofs::Outs::stmt_outs))]
fn stmt_joined(s: &Stmt) -> bool
    ensures { result ≡ by_stmt spec.joined_tests_step s.now }
{
    match s {
        Stmt::For { body, .. } => stmts_joined(body.as_slice()),
        Stmt::If { cond, body, other } => {
            other.is_empty() && is_joined(cond) && stmts_joined(body.as_slice())
        }
        Stmt::Assign { .. } => true,
        Stmt::Block { body, .. } => stmts_joined(body.as_slice()),
    }
}

#[cycle(statements)]
fn stmts_joined(body: &[Stmt]) -> bool
    ensures { result ≡ all_true (map (by_stmt spec.joined_tests_step) body.now) }
{
    for s in body {
        if !stmt_joined(s) {
            return false;
        }
    }
    true
}

/// Whether the conditions of a program's `if`s are comparisons joined by `&&`, without `!=`, and no `else` follows.
pub fn joined_tests(program: &Program) -> bool
    ensures { result ≡ spec.has_joined_tests program.now }
{
    stmts_joined(program.body.as_slice())
}
