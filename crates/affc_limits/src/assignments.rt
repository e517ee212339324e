//! The limits on assignments: how many, how many accesses each has, and how many comparisons and pieces of conditions
//! stand round it.

ghost use Rattle.std.specs.Prelude.{◌≡◌, ◌-◌, map, fold};
ghost use Rattle.affc_grammar.specs.Limits.{no_round, assigned, assigned_in, loads_in};
ghost use Rattle.affc_syntax.specs.draft.Drafts.{stmt, stmts_of, value};
ghost use Rattle.affc_limits.specs.Assignments as spec;
ghost use Rattle.affc_limits.specs.Assignments.{count_one, no_tally};

use crate::conditions::{Counted, count, product, sum};
use crate::forms::{lesser, place_if};
use crate::rests::Rest;
use affc_ast::tree::Op;
use affc_syntax::draft::draft::{StmtDraft, ValueDraft};

/// How many assignments more are within their limit, and the least place of one past it, of one that has too many
/// accesses, of one under too many comparisons, and of one under conditions of too many pieces.
#[derive(Clone, Copy, Drop)]
pub(crate) struct Tally {
    pub statements: Rest,
    pub accesses: Option<usize>,
    pub comparisons: Option<usize>,
    pub pieces: Option<usize>,
}

/// What stands round an assignment: comparisons and remainders as far as 33, and pieces of the conditions as far as 17.
#[derive(Clone, Copy, Drop)]
pub(crate) struct Round {
    comparisons: usize,
    pieces: usize,
}

fn under_body(c: Counted, round: Round) -> Round
    ensures { result ≡ spec.under_body c round }
{
    Round {
        comparisons: sum(33, round.comparisons, c.comparisons),
        pieces: product(17, round.pieces, c.plain),
    }
}

fn under_other(c: Counted, round: Round) -> Round
    ensures { result ≡ spec.under_other c round }
{
    Round {
        comparisons: sum(33, round.comparisons, c.comparisons),
        pieces: product(17, round.pieces, c.denied),
    }
}

fn with_one(tally: Tally, at: usize, accesses: bool, round: Round) -> Tally
    ensures { result ≡ spec.with_one tally at accesses (spec.round_of round) }
{
    Tally {
        statements: tally.statements.next(at),
        accesses: lesser(tally.accesses, place_if(accesses, at)),
        comparisons: lesser(tally.comparisons, place_if(32 < round.comparisons, at)),
        pieces: lesser(tally.pieces, place_if(16 < round.pieces, at)),
    }
}

/// How many loads more there is room for behind those of a value. The recursion is into right operands alone.
#[tactic(auto, using(affc_syntax::proofs::draft::Outs::value_outs))]
fn room_behind(room: usize, v: &ValueDraft) -> usize
    ensures { result ≡ room - loads_in (value v.now) }
{
    let mut here = v;
    let mut room = room;
    loop {
        match here {
            ValueDraft::Load { .. } => return room.saturating_sub(1),
            ValueDraft::Constant(_) | ValueDraft::Cast(_) => return room,
            ValueDraft::Complement(of) | ValueDraft::Shift { of, .. } => here = of.get(),
            ValueDraft::Binary { left, right, .. } => {
                room = room_behind(room, right.get());
                here = left.get();
            }
        }
    }
}

fn is_crowded(op: &Option<Op>, v: &ValueDraft) -> bool
    ensures { result ≡ spec.is_crowded op.now (loads_in (value v.now)) }
{
    match op {
        None => room_behind(16, v) == 0,
        Some(_) => room_behind(15, v) == 0,
    }
}

/// With the assignments of a statement, where so much stands round it.
#[cycle(statements)]
fn with_stmt(tally: Tally, round: Round, s: &StmtDraft) -> Tally
    ensures { result ≡ fold count_one tally (assigned_in (spec.round_of round) (stmt s.now)) }
{
    match s {
        StmtDraft::For { body, .. } => with_stmts(tally, round, body.as_slice()),
        StmtDraft::If {
            cond,
            body,
            other,
            ..
        } => {
            let c = count(cond);
            let inside = with_stmts(tally, under_body(c, round), body.as_slice());
            with_stmts(inside, under_other(c, round), other.as_slice())
        }
        StmtDraft::Assign {
            array,
            op,
            value,
            ..
        } => with_one(tally, array.at, is_crowded(op, value), round),
        StmtDraft::Block { body, .. } => with_stmts(tally, round, body.as_slice()),
    }
}

/// With the assignments of statements, one after another.
#[cycle(statements)]
fn with_stmts(tally: Tally, round: Round, body: &[StmtDraft]) -> Tally
    ensures { result ≡ fold count_one tally (assigned (spec.round_of round) (stmts_of (map stmt body.now))) }
{
    let mut made = tally;
    for item in body {
        made = with_stmt(made, round, item);
    }
    made
}

pub(crate) fn tally_of(body: &[StmtDraft]) -> Tally
    ensures { result ≡ fold count_one no_tally (assigned no_round (stmts_of (map stmt body.now))) }
{
    let none = Tally {
        statements: Rest::of(64),
        accesses: None,
        comparisons: None,
        pieces: None,
    };
    let round = Round {
        comparisons: 0,
        pieces: 1,
    };
    with_stmts(none, round, body)
}
