//! Reading the lines before the function. `room` is how many brackets may still be opened, `next` is the number of the next token.

ghost use Rattle.std.specs.Prelude.{◌≡◌, [], drop, length, map};
ghost use Rattle.affc_syntax.specs.draft.Drafts.{pragma};
ghost use Rattle.affc_syntax.specs.draft.Symbols.{seen};
ghost use Rattle.affc_grammar.specs.Grammar as grammar;
ghost use Rattle.affc_syntax.specs.Readers.{Gives};
ghost use Rattle.affc_text.specs.Calls as calls;
ghost use Rattle.affc_text.specs.Parts as parts;
ghost use Rattle.affc_text.specs.Parts.{lines_seen};
ghost use Rattle.affc_text.specs.TextReading as reading;

use crate::ahead::{behind_line, named, number_before, past_hash};
use affc_ast::Items;
use affc_syntax::ahead::{
    Answer, Stop, behind_word, first, past_mark, past_number, past_this_word,
};
use affc_syntax::draft::draft::PragmaDraft;
use affc_syntax::draft::symbol::{Symbol, is, is_mark_kind, is_word_kind};
use affc_syntax::expression::number_of_first;
use affc_syntax::here::comparisons_here;
use std::alloc::Global;

/// The lines that were read, and whether a context among them has a call.
#[derive(Drop)]
pub(crate) struct Lines {
    pub(crate) pragmas: Items<PragmaDraft>,
    pub(crate) calls: bool,
}

fn int(symbols: &[Symbol<'_>], next: usize) -> Answer<i128>
    ensures { Gives (map seen symbols.now) reading.itself result (reading.int (drop next (map seen symbols.now))) }
{
    match past_mark(b"-", symbols, next) {
        Some(behind) => match past_number(symbols, behind) {
            Some((value, next)) => Ok((-i128::from(value), next)),
            None => Err(Stop::At(behind)),
        },
        None => match past_number(symbols, next) {
            Some((value, next)) => Ok((i128::from(value), next)),
            None => Err(Stop::At(next)),
        },
    }
}

/// Behind the word `param`.
#[tactic(auto, using(crate::proofs::StmtReads::parts))]
fn range_behind(alloc: Global, lines: Lines, symbols: &[Symbol<'_>], next: usize) -> Answer<Lines>
    ensures { Gives (map seen symbols.now) lines_seen result (reading.range_behind (length symbols.now) (lines_seen lines) (drop next (map seen symbols.now))) }
{
    let (word, next) = named(alloc, symbols, next)?;
    let low_at = number_of_first(symbols, next);
    let (low, next) = int(symbols, next)?;
    let (high, next) = int(symbols, next)?;
    let next = behind_line(symbols, next)?;
    let Lines { mut pragmas, calls } = lines;
    pragmas.push(PragmaDraft::Range {
        word,
        low_at,
        low,
        high,
    })?;
    Ok((Lines { pragmas, calls }, next))
}

/// Whether a Word stands here, directly before a `(`.
fn begins_call(symbols: &[Symbol<'_>], at: usize) -> bool
    ensures { result ≡ calls.begins_call (drop at (map seen symbols.now)) }
{
    match first(symbols, at) {
        Some(word) => match first(symbols, at + 1) {
            Some(open) => {
                is_word_kind(word.kind) && is_mark_kind(open.kind) && is(open.text, b"(")
            }
            None => false,
        },
        None => false,
    }
}

/// Whether a Word stands directly before a `(` among the tokens from one place to the other.
fn has_call(symbols: &[Symbol<'_>], from: usize, to: usize) -> bool
    ensures { result ≡ grammar.has_call (reading.taken (drop from (map seen symbols.now)) (drop to (map seen symbols.now))) }
{
    let start = number_of_first(symbols, from);
    let mut left = number_of_first(symbols, to).saturating_sub(start);
    let mut at = from;
    while 1 < left && at < symbols.len() {
        if begins_call(symbols, at) {
            return true;
        }
        left -= 1;
        at += 1;
    }
    false
}

/// Behind the word `context`.
#[tactic(auto, using(crate::proofs::StmtReads::parts))]
fn context_behind(
    alloc: Global,
    room: u32,
    lines: Lines,
    symbols: &[Symbol<'_>],
    next: usize,
) -> Answer<Lines>
    ensures { Gives (map seen symbols.now) lines_seen result (reading.context_behind (length symbols.now) room (lines_seen lines) (drop next (map seen symbols.now))) }
{
    let at = number_before(symbols, next);
    let (conds, rest) = comparisons_here(alloc, true, room, symbols, next)?;
    let end = behind_line(symbols, rest)?;
    let Lines { mut pragmas, calls } = lines;
    pragmas.push(PragmaDraft::Context { at, conds })?;
    let calls = calls || has_call(symbols, next, rest);
    Ok((Lines { pragmas, calls }, end))
}

/// Behind a `#`.
fn line_more(
    alloc: Global,
    room: u32,
    lines: Lines,
    symbols: &[Symbol<'_>],
    next: usize,
) -> Answer<Lines>
    ensures { Gives (map seen symbols.now) lines_seen result (reading.line_more (length symbols.now) room tt (lines_seen lines) (drop next (map seen symbols.now))) }
{
    let next = behind_word(b"pragma", symbols, next)?;
    let next = behind_word(b"affc", symbols, next)?;
    match past_this_word(b"param", symbols, next) {
        Some(next) => range_behind(alloc, lines, symbols, next),
        None => {
            let next = behind_word(b"context", symbols, next)?;
            context_behind(alloc, room, lines, symbols, next)
        }
    }
}

/// The lines that stand here.
pub(crate) fn read_lines(
    alloc: Global,
    room: u32,
    symbols: &[Symbol<'_>],
    next: usize,
) -> Answer<Lines>
    ensures { Gives (map seen symbols.now) lines_seen result (reading.more_lines (length symbols.now) room parts.no_lines (drop next (map seen symbols.now))) }
{
    let mut lines = Lines {
        pragmas: Items::new(alloc),
        calls: false,
    };
    let mut next = next;
    while let Some(behind) = past_hash(symbols, next) {
        let (longer, rest) = line_more(alloc, room, lines, symbols, behind)?;
        lines = longer;
        next = rest;
    }
    Ok((lines, next))
}
