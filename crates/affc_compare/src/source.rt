//! Instances in the order of the text.
ghost use Rattle.std.specs.Prelude.{◌≡◌, ◌<◌, ◌≤◌, ◌^◌, length, map, take};
ghost use Rattle.std.specs.Ordering.{int_cmp};
ghost use Rattle.std.specs.Cmp.Lexicographic.{slice_cmp};
ghost use Rattle.affc_compare.specs.Sharing.{sharing, assigns_among, loops_among};
ghost use Rattle.affc_compare.specs.Source.{source_cmp, HaveLoops};

use affc_ast::tree::{Instance, Program, Stmt};
use std::cmp::Ordering;

/// How many assignments the statement has.
#[cycle(counts)]
#[tactic(auto, using(affc_ast::proofs::Outs::stmt_outs))]
fn assign_count(s: &Stmt) -> u32
    requires { (sharing s.now).assigns < 2 ^ 32 }
    ensures { result ≡ (sharing s.now).assigns }
{
    match s {
        Stmt::Assign { .. } => 1,
        Stmt::For { body, .. } => count_among(body.as_slice()),
        Stmt::If { body, other, .. } => {
            count_among(body.as_slice()) + count_among(other.as_slice())
        }
        Stmt::Block { body, .. } => count_among(body.as_slice()),
    }
}

/// How many these statements have.
#[cycle(counts)]
fn count_among(body: &[Stmt]) -> u32
    requires { assigns_among (map sharing body.now) < 2 ^ 32 }
    ensures { result ≡ assigns_among (map sharing body.now) }
{
    let mut count = 0;
    for s in body {
        count += assign_count(s);
    }
    count
}

/// How many loops of the statement two of its assignments share.
#[cycle(sharing)]
#[tactic(auto, using(affc_ast::proofs::Outs::stmt_outs))]
fn loops_in(s: &Stmt, a: u32, b: u32) -> usize
    requires few { (sharing s.now).assigns < 2 ^ 32 }
    requires shallow { (sharing s.now).loops a b < 2 ^ 32 }
    ensures { result ≡ (sharing s.now).loops a b }
{
    match s {
        Stmt::For { body, .. } => 1 + loops_among(body.as_slice(), a, b),
        Stmt::If { body, other, .. } => {
            let count = count_among(body.as_slice());
            if a < count {
                if b < count {
                    return loops_among(body.as_slice(), a, b);
                }
                return 0;
            }
            if b < count {
                return 0;
            }
            loops_among(other.as_slice(), a - count, b - count)
        }
        Stmt::Assign { .. } => 0,
        Stmt::Block { body, .. } => loops_among(body.as_slice(), a, b),
    }
}

/// The same of statements one after the other.
#[cycle(sharing)]
fn loops_among(body: &[Stmt], a: u32, b: u32) -> usize
    requires few { assigns_among (map sharing body.now) < 2 ^ 32 }
    requires shallow { loops_among (map sharing body.now) a b < 2 ^ 32 }
    ensures { result ≡ loops_among (map sharing body.now) a b }
{
    let (mut first, mut second) = (a, b);
    for s in body {
        let count = assign_count(s);
        if first < count && second < count {
            return loops_in(s, first, second);
        }
        if first < count || second < count {
            return 0;
        }
        first -= count;
        second -= count;
    }
    0
}

/// By the iterators of the loops that both share, and then by the statement's number.
pub(crate) fn by_loops(program: &Program, a: &Instance, b: &Instance) -> Ordering
    requires { HaveLoops program.now a.now b.now }
    ensures { result ≡ source_cmp program.now a.now b.now }
{
    let common = loops_among(program.body.as_slice(), a.statement, b.statement);
    let first = &a.iterators.as_slice()[..common];
    let second = &b.iterators.as_slice()[..common];
    first.cmp(second).then(a.statement.cmp(&b.statement))
}
