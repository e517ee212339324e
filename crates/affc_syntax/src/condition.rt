//! Reading conditions: comparisons and remainders, joined by `&&` and `||`, and conditions in parentheses, which become part of what is joined by
//! the same. `wide` conditions are those of an `if`; a line has comparisons without `!=`, joined by `&&`.

ghost use Rattle.std.specs.Prelude.{◌≡◌, ◌≤◌, ◌++◌, drop, length, map, reverse, IfOk, true};
ghost use Rattle.affc_syntax.specs.draft.Drafts.{compare, cond, conds_of, ix};
ghost use Rattle.affc_syntax.specs.draft.Symbols.{seen};
ghost use Rattle.affc_grammar.specs.Draft as d;
ghost use Rattle.affc_grammar.specs.Reading as grammar;
ghost use Rattle.affc_syntax.specs.CondReading as reading;
ghost use Rattle.affc_syntax.specs.CondReading.{mixed_seen};
ghost use Rattle.affc_syntax.specs.IxReading.{inside as ix_inside};
ghost use Rattle.affc_syntax.specs.Readers as readers;
ghost use Rattle.affc_syntax.specs.Readers.{Gives};

use crate::ahead::{
    Answer, Stop, behind, behind_zero, counted, past_mark, past_relation, past_zero_sign,
};
use crate::draft::draft::{CompareDraft, CondDraft, IxDraft};
use crate::draft::symbol::Symbol;
use crate::expression::{divisor, expression, factors, grouped, number_of_first, terms};
use affc_ast::Items;
use std::alloc::{AllocError, Global};

/// What is read before it is known whether a condition or an expression stands in parentheses.
#[derive(Drop)]
pub enum Mixed {
    Condition(CondDraft),
    Index(IxDraft),
}

fn alone(alloc: Global, x: CondDraft) -> Result<Items<CondDraft>, AllocError>
    ensures { IfOk result (λ xs. conds_of (map cond xs) ≡ d.alone (cond x)) }
{
    let mut conds = Items::new(alloc);
    conds.push(x)?;
    Ok(conds)
}

/// What is joined by `&&`.
#[tactic(auto, using(crate::proofs::draft::Outs::cond_made))]
fn conjuncts(alloc: Global, x: CondDraft) -> Result<Items<CondDraft>, AllocError>
    ensures { IfOk result (λ xs. conds_of (map cond xs) ≡ d.conjuncts (cond x)) }
{
    match x {
        CondDraft::All(conds) => Ok(conds),
        CondDraft::Any(conds) => alone(alloc, CondDraft::Any(conds)),
        CondDraft::Compare(c) => alone(alloc, CondDraft::Compare(c)),
        CondDraft::Divides {
            value,
            by_at,
            by,
            yes,
        } => alone(
            alloc,
            CondDraft::Divides {
                value,
                by_at,
                by,
                yes,
            },
        ),
    }
}

/// What is joined by `||`.
#[tactic(auto, using(crate::proofs::draft::Outs::cond_made))]
fn disjuncts(alloc: Global, x: CondDraft) -> Result<Items<CondDraft>, AllocError>
    ensures { IfOk result (λ xs. conds_of (map cond xs) ≡ d.disjuncts (cond x)) }
{
    match x {
        CondDraft::Any(conds) => Ok(conds),
        CondDraft::All(conds) => alone(alloc, CondDraft::All(conds)),
        CondDraft::Compare(c) => alone(alloc, CondDraft::Compare(c)),
        CondDraft::Divides {
            value,
            by_at,
            by,
            yes,
        } => alone(
            alloc,
            CondDraft::Divides {
                value,
                by_at,
                by,
                yes,
            },
        ),
    }
}

#[tactic(auto, using(crate::proofs::draft::Outs::cond_joined))]
fn joined_by_and(alloc: Global, x: CondDraft, y: CondDraft) -> Result<CondDraft, AllocError>
    ensures { IfOk result (λ z. cond z ≡ reading.all_joined (cond x) (cond y)) }
{
    let mut conds = conjuncts(alloc, x)?;
    let more = conjuncts(alloc, y)?;
    conds.append(more)?;
    Ok(CondDraft::All(conds))
}

#[tactic(auto, using(crate::proofs::draft::Outs::cond_joined))]
fn joined_by_or(alloc: Global, x: CondDraft, y: CondDraft) -> Result<CondDraft, AllocError>
    ensures { IfOk result (λ z. cond z ≡ reading.any_joined (cond x) (cond y)) }
{
    let mut conds = disjuncts(alloc, x)?;
    let more = disjuncts(alloc, y)?;
    conds.append(more)?;
    Ok(CondDraft::Any(conds))
}

/// Whether it is no sum and no difference, if not in parentheses.
#[tactic(auto, using(crate::proofs::draft::Outs::ix_outs))]
fn is_term(a: &IxDraft) -> bool
    ensures { result ≡ reading.is_term (ix a.now) }
{
    match a {
        IxDraft::Sum(_, _) => false,
        IxDraft::Difference(_, _) => false,
        IxDraft::Literal { .. } => true,
        IxDraft::Name { .. } => true,
        IxDraft::Negated { .. } => true,
        IxDraft::Product { .. } => true,
        IxDraft::Grouped { .. } => true,
        IxDraft::Chosen { .. } => true,
        IxDraft::Divided { .. } => true,
    }
}

/// Behind the `%` of a remainder.
fn remainder(a: IxDraft, symbols: &[Symbol<'_>], next: usize) -> Answer<Mixed>
    ensures { Gives (map seen symbols.now) mixed_seen result (reading.remainder (length symbols.now) (ix a) (drop next (map seen symbols.now))) }
{
    let by_at = number_of_first(symbols, next);
    let (by, next) = divisor(symbols, next)?;
    match past_zero_sign(symbols, next) {
        Some((yes, next)) => {
            let next = behind_zero(symbols, next)?;
            let c = CondDraft::Divides {
                value: a,
                by_at,
                by,
                yes,
            };
            Ok((Mixed::Condition(c), next))
        }
        None => Err(Stop::At(next)),
    }
}

/// Behind an expression that isn't compared, which may have a remainder.
fn divided(may: bool, a: IxDraft, symbols: &[Symbol<'_>], next: usize) -> Answer<Mixed>
    ensures { Gives (map seen symbols.now) mixed_seen result (reading.divided (length symbols.now) may (ix a) (drop next (map seen symbols.now))) }
{
    if !may {
        return Ok((Mixed::Index(a), next));
    }
    match past_mark(b"%", symbols, next) {
        Some(next) => remainder(a, symbols, next),
        None => Ok((Mixed::Index(a), next)),
    }
}

/// Behind an expression.
fn compared(
    alloc: Global,
    prelude: bool,
    wide: bool,
    room: u32,
    left: IxDraft,
    symbols: &[Symbol<'_>],
    next: usize,
) -> Answer<Mixed>
    ensures { Gives (map seen symbols.now) mixed_seen result (reading.compared prelude wide (length symbols.now) (ix_inside prelude (length symbols.now) room) (ix left) (drop next (map seen symbols.now))) }
{
    match past_relation(wide, symbols, next) {
        Some((rel, next)) => {
            let (right, next) = expression(alloc, prelude, room, symbols, next)?;
            let c = CondDraft::Compare(CompareDraft { rel, left, right });
            Ok((Mixed::Condition(c), next))
        }
        None => {
            let may = wide && is_term(&left);
            divided(may, left, symbols, next)
        }
    }
}

/// Behind the `)` of an expression in parentheses.
fn behind_grouped(
    alloc: Global,
    prelude: bool,
    wide: bool,
    room: u32,
    at: usize,
    inside: IxDraft,
    symbols: &[Symbol<'_>],
    next: usize,
) -> Answer<Mixed>
    ensures { Gives (map seen symbols.now) mixed_seen result (reading.behind_parens prelude wide (length symbols.now) (ix_inside prelude (length symbols.now) room) at (reading.index (ix inside)) (drop next (map seen symbols.now))) }
{
    let a = grouped(alloc, at, inside)?;
    let (b, next) = factors(alloc, prelude, room, a, symbols, next)?;
    let (c, next) = terms(alloc, prelude, room, b, symbols, next)?;
    compared(alloc, prelude, wide, room, c, symbols, next)
}

/// Behind the `)` of what stands in parentheses.
fn behind_parens(
    alloc: Global,
    prelude: bool,
    wide: bool,
    room: u32,
    at: usize,
    inside: Mixed,
    symbols: &[Symbol<'_>],
    next: usize,
) -> Answer<Mixed>
    ensures { Gives (map seen symbols.now) mixed_seen result (reading.behind_parens prelude wide (length symbols.now) (ix_inside prelude (length symbols.now) room) at (mixed_seen inside) (drop next (map seen symbols.now))) }
{
    match inside {
        Mixed::Condition(c) => Ok((Mixed::Condition(c), next)),
        Mixed::Index(a) => behind_grouped(alloc, prelude, wide, room, at, a, symbols, next),
    }
}

/// A condition, or an expression behind which no comparison follows.
#[cycle(conds)]
fn half(
    alloc: Global,
    prelude: bool,
    wide: bool,
    room: u32,
    symbols: &[Symbol<'_>],
    next: usize,
) -> Answer<Mixed>
    ensures { Gives (map seen symbols.now) mixed_seen result (reading.half prelude wide (length symbols.now) (ix_inside prelude (length symbols.now) room) (reading.mixed_inside prelude wide (length symbols.now) room) (drop next (map seen symbols.now))) }
{
    match past_mark(b"(", symbols, next) {
        Some(opened) => {
            let at = number_of_first(symbols, next);
            let (m, next) = mixed_inside(alloc, prelude, wide, room, symbols, opened)?;
            let next = behind(b")", symbols, next)?;
            behind_parens(alloc, prelude, wide, room, at, m, symbols, next)
        }
        None => {
            let (a, next) = expression(alloc, prelude, room, symbols, next)?;
            compared(alloc, prelude, wide, room, a, symbols, next)
        }
    }
}

fn only_condition(m: Mixed, next: usize, symbols: &[Symbol<'_>]) -> Answer<CondDraft>
    ensures { Gives (map seen symbols.now) cond result (reading.only_condition (mixed_seen m) (drop next (map seen symbols.now))) }
{
    match m {
        Mixed::Condition(c) => Ok((c, next)),
        Mixed::Index(_) => Err(Stop::At(next)),
    }
}

/// A comparison, a remainder, or a condition in parentheses.
#[cycle(conds)]
fn prim(
    alloc: Global,
    prelude: bool,
    wide: bool,
    room: u32,
    symbols: &[Symbol<'_>],
    next: usize,
) -> Answer<CondDraft>
    ensures { Gives (map seen symbols.now) cond result (reading.prim prelude wide (length symbols.now) (ix_inside prelude (length symbols.now) room) (reading.mixed_inside prelude wide (length symbols.now) room) (drop next (map seen symbols.now))) }
{
    let (m, next) = half(alloc, prelude, wide, room, symbols, next)?;
    only_condition(m, next, symbols)
}

/// Behind a `&&`.
#[cycle(conds)]
fn and_prim(
    alloc: Global,
    prelude: bool,
    wide: bool,
    room: u32,
    left: CondDraft,
    symbols: &[Symbol<'_>],
    next: usize,
) -> Answer<CondDraft>
    ensures { Gives (map seen symbols.now) cond result (reading.and_prim prelude wide (length symbols.now) (ix_inside prelude (length symbols.now) room) (reading.mixed_inside prelude wide (length symbols.now) room) tt (cond left) (drop next (map seen symbols.now))) }
{
    let (right, next) = prim(alloc, prelude, wide, room, symbols, next)?;
    let c = joined_by_and(alloc, left, right)?;
    Ok((c, next))
}

/// With what further is joined by `&&`.
#[cycle(conds)]
fn more_ands(
    alloc: Global,
    prelude: bool,
    wide: bool,
    room: u32,
    first: CondDraft,
    symbols: &[Symbol<'_>],
    next: usize,
) -> Answer<CondDraft>
    ensures { Gives (map seen symbols.now) cond result (reading.ands prelude wide (length symbols.now) (ix_inside prelude (length symbols.now) room) (reading.mixed_inside prelude wide (length symbols.now) room) (cond first) (drop next (map seen symbols.now))) }
{
    let mut left = first;
    let mut next = next;
    while let Some(behind) = past_mark(b"&&", symbols, next) {
        let (longer, rest) = and_prim(alloc, prelude, wide, room, left, symbols, behind)?;
        left = longer;
        next = rest;
    }
    Ok((left, next))
}

/// Behind a `||`.
#[cycle(conds)]
fn or_all(
    alloc: Global,
    prelude: bool,
    wide: bool,
    room: u32,
    left: CondDraft,
    symbols: &[Symbol<'_>],
    next: usize,
) -> Answer<CondDraft>
    ensures { Gives (map seen symbols.now) cond result (reading.or_all prelude wide (length symbols.now) (ix_inside prelude (length symbols.now) room) (reading.mixed_inside prelude wide (length symbols.now) room) tt (cond left) (drop next (map seen symbols.now))) }
{
    let (first, next) = prim(alloc, prelude, wide, room, symbols, next)?;
    let (right, next) = more_ands(alloc, prelude, wide, room, first, symbols, next)?;
    let c = joined_by_or(alloc, left, right)?;
    Ok((c, next))
}

/// With what further is joined by `||`.
#[cycle(conds)]
fn more_ors(
    alloc: Global,
    prelude: bool,
    wide: bool,
    room: u32,
    first: CondDraft,
    symbols: &[Symbol<'_>],
    next: usize,
) -> Answer<CondDraft>
    ensures { Gives (map seen symbols.now) cond result (reading.more_ors prelude wide (length symbols.now) (ix_inside prelude (length symbols.now) room) (reading.mixed_inside prelude wide (length symbols.now) room) (cond first) (drop next (map seen symbols.now))) }
{
    let mut left = first;
    let mut next = next;
    while let Some(behind) = past_mark(b"||", symbols, next) {
        let (longer, rest) = or_all(alloc, prelude, wide, room, left, symbols, behind)?;
        left = longer;
        next = rest;
    }
    Ok((left, next))
}

/// With what further is joined.
#[cycle(conds)]
fn joined(
    alloc: Global,
    prelude: bool,
    wide: bool,
    room: u32,
    first: CondDraft,
    symbols: &[Symbol<'_>],
    next: usize,
) -> Answer<CondDraft>
    ensures { Gives (map seen symbols.now) cond result (reading.joined prelude wide (length symbols.now) (ix_inside prelude (length symbols.now) room) (reading.mixed_inside prelude wide (length symbols.now) room) (cond first) (drop next (map seen symbols.now))) }
{
    let (c, next) = more_ands(alloc, prelude, wide, room, first, symbols, next)?;
    if wide {
        more_ors(alloc, prelude, wide, room, c, symbols, next)
    } else {
        Ok((c, next))
    }
}

/// With what further is joined to a condition, and with nothing behind an expression.
#[cycle(conds)]
fn behind_half(
    alloc: Global,
    prelude: bool,
    wide: bool,
    room: u32,
    m: Mixed,
    symbols: &[Symbol<'_>],
    next: usize,
) -> Answer<Mixed>
    ensures { Gives (map seen symbols.now) mixed_seen result (reading.half_more prelude wide (length symbols.now) (ix_inside prelude (length symbols.now) room) (reading.mixed_inside prelude wide (length symbols.now) room) (mixed_seen m) (drop next (map seen symbols.now))) }
{
    match m {
        Mixed::Condition(first) => {
            let (c, next) = joined(alloc, prelude, wide, room, first, symbols, next)?;
            Ok((Mixed::Condition(c), next))
        }
        Mixed::Index(a) => Ok((Mixed::Index(a), next)),
    }
}

/// Behind a bracket that was opened where `room` could be.
#[cycle(conds)]
#[tactic(auto, unfolding(crate::specs::CondReading::mixed_inside))]
fn mixed_inside(
    alloc: Global,
    prelude: bool,
    wide: bool,
    room: u32,
    symbols: &[Symbol<'_>],
    next: usize,
) -> Answer<Mixed>
    ensures { Gives (map seen symbols.now) mixed_seen result (reading.mixed_inside prelude wide (length symbols.now) room (drop next (map seen symbols.now))) }
{
    if room == 0 {
        return Err(Stop::Deep);
    }
    let (m, next) = half(alloc, prelude, wide, room - 1, symbols, next)?;
    behind_half(alloc, prelude, wide, room - 1, m, symbols, next)
}

/// The condition that stands here.
pub(crate) fn condition(
    alloc: Global,
    prelude: bool,
    wide: bool,
    room: u32,
    symbols: &[Symbol<'_>],
    next: usize,
) -> Answer<CondDraft>
    ensures { Gives (map seen symbols.now) cond result (reading.whole prelude wide (length symbols.now) room (drop next (map seen symbols.now))) }
{
    let (first, next) = prim(alloc, prelude, wide, room, symbols, next)?;
    joined(alloc, prelude, wide, room, first, symbols, next)
}

/// With what is a comparison.
#[tactic(auto, using(crate::proofs::draft::Outs::cond_joined))]
fn with_comparison(
    back: Items<CompareDraft>,
    x: CondDraft,
) -> Result<Items<CompareDraft>, AllocError>
    ensures { IfOk result (λ cs. map compare cs ≡ map compare back ++ d.comparison_in (cond x)) }
{
    let mut back = back;
    match x {
        CondDraft::Compare(c) => {
            back.push(c)?;
            Ok(back)
        }
        CondDraft::Divides { .. } => Ok(back),
        CondDraft::All(_) => Ok(back),
        CondDraft::Any(_) => Ok(back),
    }
}

/// The comparisons among these, from the last.
fn last_first(alloc: Global, conds: Items<CondDraft>) -> Result<Items<CompareDraft>, AllocError>
    ensures { IfOk result (λ cs. reverse (map compare cs) ≡ d.comparisons_of (conds_of (map cond conds))) }
{
    let mut conds = conds;
    let mut back = Items::new(alloc);
    while let Some(x) = conds.pop() {
        back = with_comparison(back, x)?;
    }
    Ok(back)
}

/// From the last to the first.
fn turned(alloc: Global, back: Items<CompareDraft>) -> Result<Items<CompareDraft>, AllocError>
    ensures { IfOk result (λ cs. map compare cs ≡ reverse (map compare back)) }
{
    let mut back = back;
    let mut comparisons = Items::new(alloc);
    while let Some(c) = back.pop() {
        comparisons.push(c)?;
    }
    Ok(comparisons)
}

/// The comparisons that a condition joins by `&&`.
fn comparisons_in(alloc: Global, x: CondDraft) -> Result<Items<CompareDraft>, AllocError>
    ensures { IfOk result (λ cs. map compare cs ≡ d.comparisons_in (cond x)) }
{
    let conds = conjuncts(alloc, x)?;
    let back = last_first(alloc, conds)?;
    turned(alloc, back)
}

/// The comparisons of a line that stand here, joined by `&&`.
pub(crate) fn comparisons(
    alloc: Global,
    prelude: bool,
    room: u32,
    symbols: &[Symbol<'_>],
    next: usize,
) -> Answer<Items<CompareDraft>>
    ensures { Gives (map seen symbols.now) (map compare) result (reading.comparisons prelude (length symbols.now) room (drop next (map seen symbols.now))) }
{
    let (x, next) = condition(alloc, prelude, false, room, symbols, next)?;
    let cs = comparisons_in(alloc, x)?;
    Ok((cs, next))
}

/// The condition of an `if` that stands at the token of this number, and the number behind it.
pub fn read_cond(
    alloc: Global,
    prelude: bool,
    room: u32,
    symbols: &[Symbol<'_>],
    next: usize,
) -> Answer<CondDraft>
    requires { next ≤ length symbols.now }
    ensures read { Gives (map seen symbols.now) cond result (readers.mapped (d.cond_draft next) (grammar.read_cond prelude true room (drop next (map seen symbols.now)))) }
    ensures within { readers.IsWithin symbols.now result }
{
    let answer = condition(alloc, prelude, true, room, symbols, next);
    counted(symbols, answer)
}
