//! Reading statements. `room` is how many brackets may still be opened, `next` is the number of the next token.

ghost use Rattle.std.specs.Prelude.{◌≡◌, ◌∷◌, [], drop, length, map, IfOk};
ghost use Rattle.affc_syntax.specs.draft.Drafts.{cond as cond_seen, ix, local as local_seen, stmt, word};
ghost use Rattle.affc_syntax.specs.draft.Symbols.{seen};
ghost use Rattle.affc_grammar.specs.Draft as d;
ghost use Rattle.affc_grammar.specs.Reading as grammar;
ghost use Rattle.affc_syntax.specs.Readers.{Gives};
ghost use Rattle.affc_text.specs.Parts as parts;
ghost use Rattle.affc_text.specs.Parts.{first_seen, head_seen, heads_seen, turn_seen, closing_seen, block_seen};
ghost use Rattle.affc_text.specs.StmtReading as reading;

use crate::ahead::{
    First, assignment, behind_one, compared, head_word, is_assigned, is_first_word, named,
    number_before, past_first,
};
use affc_ast::Items;
use affc_syntax::ahead::{
    Answer, Stop, behind, behind_word, drafted_word, past_mark, past_this_word,
};
use affc_syntax::draft::draft::{CondDraft, HeadDraft, IxDraft, LocalDraft, StmtDraft, WordDraft};
use affc_syntax::draft::symbol::Symbol;
use affc_syntax::here::{condition_here, dims_here, expression_here, inside_here, value_here};
use std::alloc::{AllocError, Global};

/// What stands before a body.
#[derive(Drop)]
pub(crate) enum Head {
    For(HeadDraft),
    If {
        at: usize,
        cond: CondDraft,
    },
    /// An `if` with its body and the `else`.
    Else {
        at: usize,
        cond: CondDraft,
        body: Items<StmtDraft>,
    },
}

/// Heads one before another, each of them the beginning of the body of the one before.
#[derive(Drop)]
pub(crate) struct Heads {
    outer: Items<Head>,
    inner: Head,
}

/// Heads whose body is still to be read, or the one or two statements that were read.
#[derive(Drop)]
pub(crate) enum Turn {
    Going(Heads),
    Done(Items<StmtDraft>),
}

/// What a body under heads makes.
#[derive(Drop)]
pub(crate) enum Closing {
    Closed(StmtDraft),
    /// The nearest `if` without `else`, and the heads before it.
    Waiting {
        heads: Items<Head>,
        at: usize,
        cond: CondDraft,
        body: Items<StmtDraft>,
    },
}

/// What was read of a block.
#[derive(Drop)]
pub(crate) struct Block {
    locals: Items<LocalDraft>,
    stmts: Items<StmtDraft>,
}

/// Behind the `(` of a condition.
#[tactic(auto, unfolding(crate::specs::StmtReading::cond_inside))]
fn cond_inside(
    alloc: Global,
    prelude: bool,
    room: u32,
    symbols: &[Symbol<'_>],
    next: usize,
) -> Answer<CondDraft>
    ensures { Gives (map seen symbols.now) cond_seen result (reading.cond_inside prelude (length symbols.now) room (drop next (map seen symbols.now))) }
{
    if room == 0 {
        return Err(Stop::Deep);
    }
    condition_here(alloc, prelude, room - 1, symbols, next)
}

// ---- Heads

/// Behind the Word with which a step begins.
fn behind_stepped(symbols: &[Symbol<'_>], next: usize, w: WordDraft) -> Answer<WordDraft>
    ensures { Gives (map seen symbols.now) word result (reading.stepped (word w) (drop next (map seen symbols.now))) }
{
    match past_mark(b"++", symbols, next) {
        Some(next) => Ok((w, next)),
        None => {
            let next = behind(b"+=", symbols, next)?;
            let next = behind_one(symbols, next)?;
            Ok((w, next))
        }
    }
}

fn step(alloc: Global, symbols: &[Symbol<'_>], next: usize) -> Answer<WordDraft>
    ensures { Gives (map seen symbols.now) word result (reading.step (length symbols.now) (drop next (map seen symbols.now))) }
{
    match past_mark(b"++", symbols, next) {
        Some(next) => named(alloc, symbols, next),
        None => {
            let (w, next) = named(alloc, symbols, next)?;
            behind_stepped(symbols, next, w)
        }
    }
}

/// The step of a `for`, from the `;` before it up to its `)`.
fn step_closed(alloc: Global, symbols: &[Symbol<'_>], next: usize) -> Answer<WordDraft>
    ensures { Gives (map seen symbols.now) word result (reading.step_closed (length symbols.now) (drop next (map seen symbols.now))) }
{
    let next = behind(b";", symbols, next)?;
    let (stepped, next) = step(alloc, symbols, next)?;
    let next = behind(b")", symbols, next)?;
    Ok((stepped, next))
}

/// Behind the first `;` of a `for`.
fn tested(
    alloc: Global,
    prelude: bool,
    room: u32,
    at: usize,
    iterator: WordDraft,
    low: IxDraft,
    symbols: &[Symbol<'_>],
    next: usize,
) -> Answer<Head>
    ensures { Gives (map seen symbols.now) head_seen result (reading.tested prelude (length symbols.now) room at (word iterator) (ix low) (drop next (map seen symbols.now))) }
{
    let (tested, next) = named(alloc, symbols, next)?;
    let (rel, next) = compared(symbols, next)?;
    let (high, next) = inside_here(alloc, prelude, room, symbols, next)?;
    let (stepped, next) = step_closed(alloc, symbols, next)?;
    let head = HeadDraft {
        at,
        iterator,
        low,
        tested,
        rel,
        high,
        stepped,
    };
    Ok((Head::For(head), next))
}

/// Behind `for (`.
fn for_behind(
    alloc: Global,
    prelude: bool,
    room: u32,
    at: usize,
    symbols: &[Symbol<'_>],
    next: usize,
) -> Answer<Head>
    ensures { Gives (map seen symbols.now) head_seen result (reading.for_behind prelude (length symbols.now) room at (drop next (map seen symbols.now))) }
{
    let next = behind_word(b"int64_t", symbols, next)?;
    let (iterator, next) = named(alloc, symbols, next)?;
    let next = behind(b"=", symbols, next)?;
    let (low, next) = inside_here(alloc, prelude, room, symbols, next)?;
    let next = behind(b";", symbols, next)?;
    tested(alloc, prelude, room, at, iterator, low, symbols, next)
}

/// Behind `if (`.
fn if_behind(
    alloc: Global,
    prelude: bool,
    room: u32,
    at: usize,
    symbols: &[Symbol<'_>],
    next: usize,
) -> Answer<Head>
    ensures { Gives (map seen symbols.now) head_seen result (reading.if_behind prelude (length symbols.now) room at (drop next (map seen symbols.now))) }
{
    let (cond, next) = cond_inside(alloc, prelude, room, symbols, next)?;
    let next = behind(b")", symbols, next)?;
    Ok((Head::If { at, cond }, next))
}

fn head_behind(
    alloc: Global,
    prelude: bool,
    room: u32,
    at: usize,
    is_for: bool,
    symbols: &[Symbol<'_>],
    next: usize,
) -> Answer<Head>
    ensures { Gives (map seen symbols.now) head_seen result (reading.head_behind prelude (length symbols.now) room at is_for (drop next (map seen symbols.now))) }
{
    if is_for {
        for_behind(alloc, prelude, room, at, symbols, next)
    } else {
        if_behind(alloc, prelude, room, at, symbols, next)
    }
}

/// All the heads, in one list.
#[tactic(auto, using(crate::proofs::StmtReads::parts))]
fn listed(heads: Heads) -> Result<Items<Head>, AllocError>
    ensures { IfOk result (λ hs. map head_seen hs ≡ parts.listed (heads_seen heads)) }
{
    let Heads { mut outer, inner } = heads;
    outer.push(inner)?;
    Ok(outer)
}

// ---- A body under heads

#[tactic(auto, using(affc_syntax::proofs::draft::Outs::stmt_made))]
fn with_head(alloc: Global, h: Head, body: Items<StmtDraft>) -> StmtDraft
    ensures { stmt result ≡ parts.with_head (head_seen h) (parts.stmts body) }
{
    match h {
        Head::For(head) => StmtDraft::For { head, body },
        Head::If { at, cond } => StmtDraft::If {
            at,
            cond,
            body,
            other: Items::new(alloc),
        },
        Head::Else {
            at,
            cond,
            body: first,
        } => StmtDraft::If {
            at,
            cond,
            body: first,
            other: body,
        },
    }
}

#[tactic(auto, using(crate::proofs::StmtReads::parts))]
fn alone(alloc: Global, s: StmtDraft) -> Result<Items<StmtDraft>, AllocError>
    ensures stmts { IfOk result (λ xs. parts.stmts xs ≡ d.and_stmt d.no_stmts (stmt s)) }
    ensures list { IfOk result (λ xs. map stmt xs ≡ stmt s ∷ []) }
{
    let mut items = Items::new(alloc);
    items.push(s)?;
    Ok(items)
}

/// Each of the heads, from the last, over the statement alone.
fn covered(alloc: Global, heads: Items<Head>, s: StmtDraft) -> Result<StmtDraft, AllocError>
    ensures { IfOk result (λ t. stmt t ≡ parts.covered (map head_seen heads) (stmt s)) }
{
    let mut heads = heads;
    let mut s = s;
    while let Some(h) = heads.pop() {
        let body = alone(alloc, s)?;
        s = with_head(alloc, h, body);
    }
    Ok(s)
}

/// The body under the last of the heads: a statement that an `else` could go on with, where the head is an `if`.
fn under_one(
    alloc: Global,
    heads: Items<Head>,
    h: Head,
    body: Items<StmtDraft>,
) -> Result<Closing, AllocError>
    ensures { IfOk result (λ k. closing_seen k ≡ parts.under_one (map head_seen heads) (head_seen h) (parts.stmts body)) }
{
    match h {
        Head::If { at, cond } => Ok(Closing::Waiting {
            heads,
            at,
            cond,
            body,
        }),
        Head::For(head) => close(alloc, heads, with_head(alloc, Head::For(head), body)),
        Head::Else {
            at,
            cond,
            body: first,
        } => close(
            alloc,
            heads,
            with_head(
                alloc,
                Head::Else {
                    at,
                    cond,
                    body: first,
                },
                body,
            ),
        ),
    }
}

/// The heads, from the last, over a statement that no `else` could go on with, up to the nearest `if` without `else`.
fn close(alloc: Global, heads: Items<Head>, s: StmtDraft) -> Result<Closing, AllocError>
    ensures { IfOk result (λ k. closing_seen k ≡ parts.close (map head_seen heads) (stmt s)) }
{
    let mut heads = heads;
    let mut s = s;
    while let Some(h) = heads.pop() {
        let body = alone(alloc, s)?;
        match h {
            Head::If { at, cond } => {
                return Ok(Closing::Waiting {
                    heads,
                    at,
                    cond,
                    body,
                });
            }
            Head::For(head) => s = with_head(alloc, Head::For(head), body),
            Head::Else {
                at,
                cond,
                body: first,
            } => {
                s = with_head(
                    alloc,
                    Head::Else {
                        at,
                        cond,
                        body: first,
                    },
                    body,
                );
            }
        }
    }
    Ok(Closing::Closed(s))
}

// ---- Statements

/// Behind the first Word of an assignment.
fn assigned(
    alloc: Global,
    prelude: bool,
    room: u32,
    at: usize,
    name: &str,
    symbols: &[Symbol<'_>],
    next: usize,
) -> Answer<StmtDraft>
    ensures { Gives (map seen symbols.now) stmt result (reading.assigned prelude (length symbols.now) room at name.now (drop next (map seen symbols.now))) }
{
    let (subs, next) = dims_here(alloc, prelude, room, symbols, next)?;
    let (op, next) = assignment(symbols, next)?;
    let (value, next) = value_here(alloc, prelude, room, symbols, next)?;
    let next = behind(b";", symbols, next)?;
    let array = drafted_word(alloc, at, name)?;
    Ok((
        StmtDraft::Assign {
            array,
            subs,
            op,
            value,
        },
        next,
    ))
}

/// Behind `else` after an `if` without one: it is the first of an assignment, or that of the `if`.
#[tactic(auto, using(crate::proofs::StmtReads::parts))]
fn else_behind(
    alloc: Global,
    prelude: bool,
    room: u32,
    heads: Items<Head>,
    at: usize,
    cond: CondDraft,
    body: Items<StmtDraft>,
    symbols: &[Symbol<'_>],
    next: usize,
) -> Answer<Turn>
    ensures { Gives (map seen symbols.now) turn_seen result (reading.else_behind prelude (length symbols.now) room (map head_seen heads) at (cond_seen cond) (parts.stmts body) (drop next (map seen symbols.now))) }
{
    if !is_assigned(symbols, next) {
        let inner = Head::Else { at, cond, body };
        return Ok((
            Turn::Going(Heads {
                outer: heads,
                inner,
            }),
            next,
        ));
    }
    let word = number_before(symbols, next);
    let (second, next) = assigned(alloc, prelude, room, word, "else", symbols, next)?;
    let s = with_head(alloc, Head::If { at, cond }, body);
    let first = covered(alloc, heads, s)?;
    let mut both = alone(alloc, first)?;
    both.push(second)?;
    Ok((Turn::Done(both), next))
}

/// Behind what a body under heads makes.
fn closed_behind(
    alloc: Global,
    prelude: bool,
    room: u32,
    k: Closing,
    symbols: &[Symbol<'_>],
    next: usize,
) -> Answer<Turn>
    ensures { Gives (map seen symbols.now) turn_seen result (reading.closed_behind prelude (length symbols.now) room (closing_seen k) (drop next (map seen symbols.now))) }
{
    match k {
        Closing::Closed(s) => {
            let whole = alone(alloc, s)?;
            Ok((Turn::Done(whole), next))
        }
        Closing::Waiting {
            heads,
            at,
            cond,
            body,
        } => match past_this_word(b"else", symbols, next) {
            Some(behind) => else_behind(
                alloc, prelude, room, heads, at, cond, body, symbols, behind,
            ),
            None => {
                let s = with_head(alloc, Head::If { at, cond }, body);
                let s = covered(alloc, heads, s)?;
                let whole = alone(alloc, s)?;
                Ok((Turn::Done(whole), next))
            }
        },
    }
}

fn assigned_under(
    alloc: Global,
    prelude: bool,
    room: u32,
    heads: Items<Head>,
    at: usize,
    name: &str,
    symbols: &[Symbol<'_>],
    next: usize,
) -> Answer<Turn>
    ensures { Gives (map seen symbols.now) turn_seen result (reading.assigned_under prelude (length symbols.now) room (map head_seen heads) at name.now (drop next (map seen symbols.now))) }
{
    let (s, next) = assigned(alloc, prelude, room, at, name, symbols, next)?;
    let k = close(alloc, heads, s)?;
    closed_behind(alloc, prelude, room, k, symbols, next)
}

/// Behind a Word, which is a head's where a `(` follows; else it is the first of an assignment.
fn worded(
    alloc: Global,
    prelude: bool,
    room: u32,
    heads: Items<Head>,
    at: usize,
    name: &str,
    symbols: &[Symbol<'_>],
    next: usize,
) -> Answer<Turn>
    ensures { Gives (map seen symbols.now) turn_seen result (reading.worded prelude (length symbols.now) room (map head_seen heads) at name.now (grammar.choose grammar.head_words name.now) (drop next (map seen symbols.now))) }
{
    match head_word(name) {
        None => assigned_under(alloc, prelude, room, heads, at, name, symbols, next),
        Some(is_for) => match past_mark(b"(", symbols, next) {
            Some(next) => {
                let (h, next) = head_behind(alloc, prelude, room, at, is_for, symbols, next)?;
                Ok((
                    Turn::Going(Heads {
                        outer: heads,
                        inner: h,
                    }),
                    next,
                ))
            }
            None => assigned_under(alloc, prelude, room, heads, at, name, symbols, next),
        },
    }
}

/// Behind the first token of a body behind heads.
#[cycle(stmt)]
fn body_turn(
    alloc: Global,
    prelude: bool,
    room: u32,
    first: First<'_>,
    heads: Heads,
    symbols: &[Symbol<'_>],
    next: usize,
) -> Answer<Turn>
    ensures { Gives (map seen symbols.now) turn_seen result (reading.body_turn prelude (length symbols.now) room (reading.stmts_inside prelude (length symbols.now) room) (first_seen first.entry) (heads_seen heads) (drop next (map seen symbols.now))) }
{
    match first {
        First::Word(name) => {
            let at = number_before(symbols, next);
            let heads = listed(heads)?;
            worded(alloc, prelude, room, heads, at, name, symbols, next)
        }
        First::Brace => {
            let (body, next) = stmts_inside(alloc, prelude, room, symbols, next)?;
            let Heads { outer, inner } = heads;
            let k = under_one(alloc, outer, inner, body)?;
            closed_behind(alloc, prelude, room, k, symbols, next)
        }
    }
}

/// The body behind heads, and further heads where they stand before it.
#[cycle(stmt)]
fn under_heads(
    alloc: Global,
    prelude: bool,
    room: u32,
    heads: Heads,
    symbols: &[Symbol<'_>],
    next: usize,
) -> Answer<Items<StmtDraft>>
    ensures { Gives (map seen symbols.now) (map stmt) result (reading.under_heads prelude (length symbols.now) room (reading.stmts_inside prelude (length symbols.now) room) (heads_seen heads) (drop next (map seen symbols.now))) }
{
    let mut heads = heads;
    let mut next = next;
    while let Some((first, behind)) = past_first(symbols, next) {
        let (turn, rest) = body_turn(alloc, prelude, room, first, heads, symbols, behind)?;
        match turn {
            Turn::Going(longer) => {
                heads = longer;
                next = rest;
            }
            Turn::Done(read) => return Ok((read, rest)),
        }
    }
    Err(Stop::At(next))
}

/// Behind the first Word of a statement.
#[cycle(stmt)]
fn simple(
    alloc: Global,
    prelude: bool,
    room: u32,
    at: usize,
    name: &str,
    symbols: &[Symbol<'_>],
    next: usize,
) -> Answer<Items<StmtDraft>>
    ensures { Gives (map seen symbols.now) (map stmt) result (reading.simple prelude (length symbols.now) room (reading.stmts_inside prelude (length symbols.now) room) at name.now (drop next (map seen symbols.now))) }
{
    let none = Items::new(alloc);
    let (turn, next) = worded(alloc, prelude, room, none, at, name, symbols, next)?;
    match turn {
        Turn::Going(heads) => under_heads(alloc, prelude, room, heads, symbols, next),
        Turn::Done(read) => Ok((read, next)),
    }
}

/// Behind the first token of a statement: that statement, and where it is an open one, an assignment to an array `else` behind it.
#[cycle(stmt)]
pub(crate) fn statement(
    alloc: Global,
    prelude: bool,
    room: u32,
    first: First<'_>,
    symbols: &[Symbol<'_>],
    next: usize,
) -> Answer<Items<StmtDraft>>
    ensures { Gives (map seen symbols.now) (map stmt) result (reading.statement prelude (length symbols.now) room (reading.stmts_inside prelude (length symbols.now) room) (reading.block_inside prelude (length symbols.now) room) (first_seen first.entry) (drop next (map seen symbols.now))) }
{
    match first {
        First::Word(name) => {
            let at = number_before(symbols, next);
            simple(alloc, prelude, room, at, name, symbols, next)
        }
        First::Brace => {
            let (s, next) = block_inside(alloc, prelude, room, symbols, next)?;
            let whole = alone(alloc, s)?;
            Ok((whole, next))
        }
    }
}

#[cycle(stmt)]
#[tactic(auto, using(crate::proofs::StmtReads::parts))]
fn stmt_more(
    alloc: Global,
    prelude: bool,
    room: u32,
    first: First<'_>,
    stmts: Items<StmtDraft>,
    symbols: &[Symbol<'_>],
    next: usize,
) -> Answer<Items<StmtDraft>>
    ensures { Gives (map seen symbols.now) parts.stmts result (reading.stmt_more prelude (length symbols.now) room (reading.stmts_inside prelude (length symbols.now) room) (reading.block_inside prelude (length symbols.now) room) (first_seen first.entry) (parts.stmts stmts) (drop next (map seen symbols.now))) }
{
    let (read, next) = statement(alloc, prelude, room, first, symbols, next)?;
    let mut stmts = stmts;
    stmts.append(read)?;
    Ok((stmts, next))
}

/// The statements that stand here.
#[cycle(stmt)]
fn stmts(
    alloc: Global,
    prelude: bool,
    room: u32,
    symbols: &[Symbol<'_>],
    next: usize,
) -> Answer<Items<StmtDraft>>
    ensures { Gives (map seen symbols.now) parts.stmts result (reading.stmts prelude (length symbols.now) room d.no_stmts (drop next (map seen symbols.now))) }
{
    let mut stmts = Items::new(alloc);
    let mut next = next;
    while let Some((first, behind)) = past_first(symbols, next) {
        let (longer, rest) = stmt_more(alloc, prelude, room, first, stmts, symbols, behind)?;
        stmts = longer;
        next = rest;
    }
    Ok((stmts, next))
}

/// Behind the `{` of a body.
#[cycle(stmt)]
#[tactic(auto, unfolding(crate::specs::StmtReading::stmts_inside))]
pub(crate) fn stmts_inside(
    alloc: Global,
    prelude: bool,
    room: u32,
    symbols: &[Symbol<'_>],
    next: usize,
) -> Answer<Items<StmtDraft>>
    ensures { Gives (map seen symbols.now) parts.stmts result (reading.stmts_inside prelude (length symbols.now) room (drop next (map seen symbols.now))) }
{
    if room == 0 {
        return Err(Stop::Deep);
    }
    let (stmts, next) = stmts(alloc, prelude, room - 1, symbols, next)?;
    let next = behind(b"}", symbols, next)?;
    Ok((stmts, next))
}

/// A local, behind its `const int64_t`.
fn local(alloc: Global, room: u32, symbols: &[Symbol<'_>], next: usize) -> Answer<LocalDraft>
    ensures { Gives (map seen symbols.now) local_seen result (reading.local (length symbols.now) room (drop next (map seen symbols.now))) }
{
    let (word, next) = named(alloc, symbols, next)?;
    let next = behind(b"=", symbols, next)?;
    let (value, next) = expression_here(alloc, true, room, symbols, next)?;
    let next = behind(b";", symbols, next)?;
    let WordDraft { at, name } = word;
    Ok((LocalDraft { at, name, value }, next))
}

/// Behind `const int64_t`.
#[tactic(auto, using(crate::proofs::StmtReads::parts))]
fn local_behind(
    alloc: Global,
    room: u32,
    block: Block,
    symbols: &[Symbol<'_>],
    next: usize,
) -> Answer<Block>
    ensures { Gives (map seen symbols.now) block_seen result (reading.local_behind (length symbols.now) room (block_seen block) (drop next (map seen symbols.now))) }
{
    let (local, next) = local(alloc, room, symbols, next)?;
    let Block { mut locals, stmts } = block;
    locals.push(local)?;
    Ok((Block { locals, stmts }, next))
}

#[cycle(stmt)]
#[tactic(auto, using(crate::proofs::StmtReads::parts))]
fn block_stmt(
    alloc: Global,
    prelude: bool,
    room: u32,
    first: First<'_>,
    block: Block,
    symbols: &[Symbol<'_>],
    next: usize,
) -> Answer<Block>
    ensures { Gives (map seen symbols.now) block_seen result (reading.block_stmt prelude (length symbols.now) room (reading.stmts_inside prelude (length symbols.now) room) (reading.block_inside prelude (length symbols.now) room) (first_seen first.entry) (block_seen block) (drop next (map seen symbols.now))) }
{
    let (read, next) = statement(alloc, prelude, room, first, symbols, next)?;
    let Block { locals, mut stmts } = block;
    stmts.append(read)?;
    Ok((Block { locals, stmts }, next))
}

#[tactic(auto, using(crate::proofs::StmtReads::nones))]
pub(crate) fn is_none(stmts: &Items<StmtDraft>) -> bool
    ensures { result ≡ reading.is_none (parts.stmts stmts.now) }
{
    stmts.len() == 0
}

fn may_be_local(prelude: bool, first: First<'_>, stmts: &Items<StmtDraft>) -> bool
    ensures { result ≡ reading.may_be_local prelude (first_seen first.entry) (parts.stmts stmts.now) }
{
    prelude && (is_none(stmts) && is_first_word(first, b"const"))
}

#[cycle(stmt)]
fn block_more(
    alloc: Global,
    prelude: bool,
    room: u32,
    first: First<'_>,
    block: Block,
    symbols: &[Symbol<'_>],
    next: usize,
) -> Answer<Block>
    ensures { Gives (map seen symbols.now) block_seen result (reading.block_more prelude (length symbols.now) room (reading.stmts_inside prelude (length symbols.now) room) (reading.block_inside prelude (length symbols.now) room) (first_seen first.entry) (block_seen block) (drop next (map seen symbols.now))) }
{
    if may_be_local(prelude, first, &block.stmts) {
        match past_this_word(b"int64_t", symbols, next) {
            Some(next) => local_behind(alloc, room, block, symbols, next),
            None => block_stmt(alloc, prelude, room, first, block, symbols, next),
        }
    } else {
        block_stmt(alloc, prelude, room, first, block, symbols, next)
    }
}

/// The locals and statements that stand here.
#[cycle(stmt)]
fn items(
    alloc: Global,
    prelude: bool,
    room: u32,
    symbols: &[Symbol<'_>],
    next: usize,
) -> Answer<Block>
    ensures { Gives (map seen symbols.now) block_seen result (reading.items prelude (length symbols.now) room parts.no_items (drop next (map seen symbols.now))) }
{
    let mut block = Block {
        locals: Items::new(alloc),
        stmts: Items::new(alloc),
    };
    let mut next = next;
    while let Some((first, behind)) = past_first(symbols, next) {
        let (longer, rest) = block_more(alloc, prelude, room, first, block, symbols, behind)?;
        block = longer;
        next = rest;
    }
    Ok((block, next))
}

/// Behind the `{` of a block.
#[cycle(stmt)]
#[tactic(auto, unfolding(crate::specs::StmtReading::stmts_inside), using(affc_syntax::proofs::draft::Outs::stmt_made))]
fn block_inside(
    alloc: Global,
    prelude: bool,
    room: u32,
    symbols: &[Symbol<'_>],
    next: usize,
) -> Answer<StmtDraft>
    ensures { Gives (map seen symbols.now) stmt result (reading.block_inside prelude (length symbols.now) room (drop next (map seen symbols.now))) }
{
    if room == 0 {
        return Err(Stop::Deep);
    }
    let (block, next) = items(alloc, prelude, room - 1, symbols, next)?;
    let next = behind(b"}", symbols, next)?;
    let Block { locals, stmts } = block;
    Ok((
        StmtDraft::Block {
            locals,
            body: stmts,
        },
        next,
    ))
}
