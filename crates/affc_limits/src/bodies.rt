//! What is asked of statements and the loops round them.

ghost use Rattle.std.specs.Prelude.{◌≡◌, map};
ghost use Rattle.affc_syntax.specs.draft.Drafts.{stmt};
ghost use Rattle.affc_limits.specs.Bodies as spec;

use crate::forms::{lesser, place_if};
use affc_syntax::draft::draft::StmtDraft;

/// Whether statements hold an assignment, the least place of a `for` or `if` in them that holds none, and the least
/// place of a `for` that is one too many round an assignment.
#[derive(Clone, Copy, Drop)]
pub(crate) struct Bodies {
    pub assigns: bool,
    pub empty: Option<usize>,
    pub loops: Option<usize>,
}

fn none() -> Bodies
    ensures { result ≡ spec.no_bodies }
{
    Bodies {
        assigns: false,
        empty: None,
        loops: None,
    }
}

fn both(a: Bodies, b: Bodies) -> Bodies
    ensures { result ≡ spec.both a b }
{
    Bodies {
        assigns: a.assigns || b.assigns,
        empty: lesser(a.empty, b.empty),
        loops: lesser(a.loops, b.loops),
    }
}

/// The least place of a word without an assignment inside, where this word stands round so much.
fn empty_at(at: usize, inside: Bodies) -> Option<usize>
    ensures { result ≡ spec.empty_at at inside }
{
    lesser(place_if(!inside.assigns, at), inside.empty)
}

fn under_if(at: usize, inside: Bodies) -> Bodies
    ensures { result ≡ spec.under_if at inside }
{
    Bodies {
        assigns: inside.assigns,
        empty: empty_at(at, inside),
        loops: inside.loops,
    }
}

fn under_for(left: usize, at: usize, inside: Bodies) -> Bodies
    ensures { result ≡ spec.under_for left at inside }
{
    Bodies {
        assigns: inside.assigns,
        empty: empty_at(at, inside),
        loops: lesser(place_if(left == 0 && inside.assigns, at), inside.loops),
    }
}

/// What the rules on bodies ask of a statement, where `left` loops more may stand round an assignment.
#[cycle(statements)]
#[tactic(auto, using(affc_syntax::proofs::draft::Outs::stmt_outs, crate::proofs::BodyLaws::body_laws))]
fn bodies_of(left: usize, s: &StmtDraft) -> Bodies
    ensures { result ≡ spec.bodies left (stmt s.now) }
{
    match s {
        StmtDraft::For { head, body } => {
            let inside = bodies_of_all(left.saturating_sub(1), body.as_slice());
            under_for(left, head.at, inside)
        }
        StmtDraft::If {
            at,
            body,
            other,
            ..
        } => {
            let inside = bodies_of_all(left, body.as_slice());
            let behind = bodies_of_all(left, other.as_slice());
            under_if(*at, both(inside, behind))
        }
        StmtDraft::Assign { .. } => Bodies {
            assigns: true,
            empty: None,
            loops: None,
        },
        StmtDraft::Block { body, .. } => bodies_of_all(left, body.as_slice()),
    }
}

/// What they ask of statements, one after another.
#[cycle(statements)]
pub(crate) fn bodies_of_all(left: usize, body: &[StmtDraft]) -> Bodies
    ensures { result ≡ spec.all_bodies left (map stmt body.now) }
{
    let mut inside = none();
    for item in body {
        inside = both(inside, bodies_of(left, item));
    }
    inside
}
