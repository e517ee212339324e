//! The numbers of remainders that are above their limit.

ghost use Rattle.std.specs.Prelude.{◌≡◌, map};
ghost use Rattle.affc_grammar.specs.Limits.{cond_past, conds_past, divisors_past_in};
ghost use Rattle.affc_grammar.specs.Limits as limits;
ghost use Rattle.affc_syntax.specs.draft.Drafts.{cond, conds_of, stmt, stmts_of};
ghost use Rattle.affc_limits.specs.Places.{least};

use crate::forms::{lesser, place_if};
use affc_syntax::draft::draft::{CondDraft, StmtDraft};

/// The least place of such a number in a condition. The recursion goes as deep as `&&` and `||` stand in one another.
#[cycle(conditions)]
#[tactic(auto, using(affc_syntax::proofs::draft::Outs::cond_outs))]
fn in_cond(limit: u64, c: &CondDraft) -> Option<usize>
    ensures { result ≡ least (cond_past limit (cond c.now)) }
{
    match c {
        CondDraft::Compare(_) => None,
        CondDraft::Divides { by_at, by, .. } => place_if(limit < *by, *by_at),
        CondDraft::All(entries) => in_conds(limit, entries.as_slice()),
        CondDraft::Any(entries) => in_conds(limit, entries.as_slice()),
    }
}

#[cycle(conditions)]
fn in_conds(limit: u64, items: &[CondDraft]) -> Option<usize>
    ensures { result ≡ least (conds_past limit (conds_of (map cond items.now))) }
{
    let mut found = None;
    for item in items {
        found = lesser(found, in_cond(limit, item));
    }
    found
}

/// The least place of such a number in a statement.
#[cycle(statements)]
fn in_stmt(limit: u64, s: &StmtDraft) -> Option<usize>
    ensures { result ≡ least (divisors_past_in limit (stmt s.now)) }
{
    match s {
        StmtDraft::For { body, .. } => divisors_past(limit, body.as_slice()),
        StmtDraft::If {
            cond,
            body,
            other,
            ..
        } => {
            let tests = in_cond(limit, cond);
            let inside = divisors_past(limit, body.as_slice());
            let behind = divisors_past(limit, other.as_slice());
            lesser(lesser(tests, inside), behind)
        }
        StmtDraft::Assign { .. } => None,
        StmtDraft::Block { body, .. } => divisors_past(limit, body.as_slice()),
    }
}

/// The least place of such a number in statements.
#[cycle(statements)]
pub(crate) fn divisors_past(limit: u64, body: &[StmtDraft]) -> Option<usize>
    ensures { result ≡ least (limits.divisors_past limit (stmts_of (map stmt body.now))) }
{
    let mut found = None;
    for item in body {
        found = lesser(found, in_stmt(limit, item));
    }
    found
}
