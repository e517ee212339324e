//! Where a schedule's text stops, and its draft where it doesn't.

ghost use Rattle.std.specs.Prelude.{◌≡◌, ◌≤◌, All, length, map, take, IfOk, IfErr};
ghost use Rattle.affc_lex.specs.Lexes.{IsIn, Lexes, lexemes};
ghost use Rattle.affc_syntax.specs.draft.Symbols.{seen};
ghost use Rattle.affc_plan.specs.Stages.{IsStopBehind, IsReach, IsDraftOf, IsFrontPlace, SyntaxFault};

use crate::front::longest;
use affc_lex::lex;
use affc_lex::token::{LexFault, Token};
use affc_parse::place::place_of;
use affc_parse::symbols::symbols_of;
use affc_schedtext::draft::Draft;
use affc_schedtext::lines::read_draft;
use affc_schedtext::outline::Outline;
use affc_schedtext::plan::SchedFault;
use affc_schedtext::products::first_product;
use affc_syntax::ahead::Stop;
use affc_syntax::draft::symbol::Symbol;
use std::alloc::{AllocError, Global};

/// How many brackets may be open at once: all of a text below 4 GiB.
const ROOM: u32 = 4294967295;

/// The first product among the first so many symbols, or else the symbol behind them.
fn stop_behind(alloc: Global, symbols: &[Symbol<'_>], to: usize) -> Result<usize, AllocError>
    requires { to ≤ length symbols.now }
    ensures { IfOk result (IsStopBehind (take to (map seen symbols.now))) }
{
    match first_product(alloc, &symbols[..to])? {
        Some(at) => Ok(at),
        None => Ok(to),
    }
}

/// How many of the symbols begin a text of the grammar: as many as there are that do.
fn reach(alloc: Global, outline: &Outline, symbols: &[Symbol<'_>]) -> Result<usize, AllocError>
    ensures within { IfOk result (λ to. to ≤ length symbols.now) }
    ensures reach { IfOk result (IsReach outline.now (map seen symbols.now)) }
{
    match read_draft(alloc, outline, ROOM, symbols) {
        Ok(_) => Ok(symbols.len()),
        Err(Stop::At(to)) => Ok(to),
        Err(Stop::Deep) => Err(AllocError),
        Err(Stop::Memory) => Err(AllocError),
    }
}

/// The place of the symbol that can't stand before a fault of the lexer, or else of this fault.
fn front_place(
    alloc: Global,
    text: &[u8],
    outline: &Outline,
    of_fault: usize,
) -> Result<usize, AllocError>
    requires { of_fault ≤ length text.now }
    ensures { IfOk result (IsFrontPlace text.now outline.now of_fault) }
{
    let front = longest(alloc, text, of_fault)?;
    let symbols = symbols_of(alloc, &text[..front.to], &front.tokens)?;
    let to = reach(alloc, outline, &symbols)?;
    let at = stop_behind(alloc, &symbols, to)?;
    Ok(place_of(&text[..of_fault], &front.tokens, at))
}

/// The tokens of the text.
pub(crate) fn tokens_of(
    alloc: Global,
    text: &[u8],
    outline: &Outline,
) -> Result<Vec<Token>, SchedFault>
    ensures tokens { IfOk result (λ v. Lexes text.now (lexemes text.now v.items)) }
    ensures within { IfOk result (λ v. All (IsIn (length text.now)) v.items) }
    ensures fault { IfErr result (SyntaxFault text.now outline.now) }
{
    match lex(alloc, text) {
        Ok(tokens) => Ok(tokens),
        Err(LexFault::BadByte(at)) => Err(SchedFault::Syntax(front_place(
            alloc, text, outline, at,
        )?)),
        Err(LexFault::OpenComment(at)) => Err(SchedFault::Syntax(front_place(
            alloc, text, outline, at,
        )?)),
        Err(LexFault::LongNumber(at)) => Err(SchedFault::Syntax(front_place(
            alloc, text, outline, at,
        )?)),
        Err(LexFault::Memory) => Err(SchedFault::Memory),
    }
}

/// The draft of the text.
pub(crate) fn draft_of(
    alloc: Global,
    text: &[u8],
    outline: &Outline,
    tokens: &[Token],
) -> Result<Draft, SchedFault>
    requires lexes { Lexes text.now (lexemes text.now tokens.now) }
    requires within { All (IsIn (length text.now)) tokens.now }
    ensures draft { IfOk result (IsDraftOf text.now outline.now (lexemes text.now tokens.now)) }
    ensures fault { IfErr result (SyntaxFault text.now outline.now) }
{
    let symbols = symbols_of(alloc, text, tokens)?;
    match read_draft(alloc, outline, ROOM, &symbols) {
        Ok(draft) => match first_product(alloc, &symbols)? {
            None => Ok(draft),
            Some(at) => Err(SchedFault::Syntax(place_of(text, tokens, at))),
        },
        Err(Stop::At(to)) => {
            let at = stop_behind(alloc, &symbols, to)?;
            Err(SchedFault::Syntax(place_of(text, tokens, at)))
        }
        Err(Stop::Deep) => Err(SchedFault::Memory),
        Err(Stop::Memory) => Err(SchedFault::Memory),
    }
}
