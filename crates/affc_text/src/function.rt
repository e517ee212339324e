//! Reading the function. `room` is how many brackets may still be opened, `next` is the number of the next token.

ghost use Rattle.std.specs.Prelude.{◌≡◌, [], drop, length, map};
ghost use Rattle.affc_syntax.specs.draft.Drafts as drafts;
ghost use Rattle.affc_syntax.specs.draft.Drafts.{decl, ix, param as param_seen, word};
ghost use Rattle.affc_syntax.specs.draft.Symbols.{seen};
ghost use Rattle.affc_syntax.specs.Readers.{Gives};
ghost use Rattle.affc_text.specs.Parts as parts;
ghost use Rattle.affc_text.specs.Parts.{first_seen, inside_seen, function_seen};
ghost use Rattle.affc_text.specs.TextReading as reading;

use crate::ahead::{First, is_first_word, named, number_before, past_first};
use crate::statement::{is_none, statement};
use affc_ast::Items;
use affc_ast::tree::Role;
use affc_syntax::ahead::{
    Answer, Stop, behind, behind_word, drafted_word, past_mark, past_this_word, past_word,
};
use affc_syntax::draft::draft::{DeclDraft, IxDraft, ParamDraft, StmtDraft, WordDraft};
use affc_syntax::draft::symbol::Symbol;
use affc_syntax::here::{dims_here, inside_here};
use std::alloc::Global;

/// What was read of the function's braces.
#[derive(Drop)]
pub(crate) struct Inside {
    temps: Items<DeclDraft>,
    stmts: Items<StmtDraft>,
}

/// The function.
#[derive(Drop)]
pub(crate) struct Function {
    pub(crate) name: WordDraft,
    pub(crate) params: Items<ParamDraft>,
    pub(crate) temps: Items<DeclDraft>,
    pub(crate) stmts: Items<StmtDraft>,
}

// ---- Parameters

/// The extents that stand here, of which there is one or more.
#[tactic(auto, using(crate::proofs::StmtReads::parts))]
fn extents(
    alloc: Global,
    prelude: bool,
    room: u32,
    symbols: &[Symbol<'_>],
    next: usize,
) -> Answer<Items<IxDraft>>
    ensures { Gives (map seen symbols.now) (map ix) result (reading.extents prelude (length symbols.now) room (drop next (map seen symbols.now))) }
{
    let next = behind(b"[", symbols, next)?;
    let (first, next) = inside_here(alloc, prelude, room, symbols, next)?;
    let next = behind(b"]", symbols, next)?;
    let (others, next) = dims_here(alloc, prelude, room, symbols, next)?;
    let mut extents = Items::new(alloc);
    extents.push(first)?;
    extents.append(others)?;
    Ok((extents, next))
}

/// Behind `uint64_t`.
fn array(
    alloc: Global,
    prelude: bool,
    room: u32,
    role: Role,
    symbols: &[Symbol<'_>],
    next: usize,
) -> Answer<ParamDraft>
    ensures { Gives (map seen symbols.now) param_seen result (reading.array prelude (length symbols.now) room role (drop next (map seen symbols.now))) }
{
    let (word, next) = named(alloc, symbols, next)?;
    let (extents, next) = extents(alloc, prelude, room, symbols, next)?;
    let array = DeclDraft {
        word,
        role,
        extents,
    };
    Ok((ParamDraft::Array(array), next))
}

fn param(
    alloc: Global,
    prelude: bool,
    room: u32,
    symbols: &[Symbol<'_>],
    next: usize,
) -> Answer<ParamDraft>
    ensures { Gives (map seen symbols.now) param_seen result (reading.param prelude (length symbols.now) room (drop next (map seen symbols.now))) }
{
    if let Some(next) = past_this_word(b"int64_t", symbols, next) {
        let (word, next) = named(alloc, symbols, next)?;
        return Ok((ParamDraft::Number(word), next));
    }
    match past_this_word(b"const", symbols, next) {
        Some(next) => {
            let next = behind_word(b"uint64_t", symbols, next)?;
            array(alloc, prelude, room, Role::Input, symbols, next)
        }
        None => {
            let next = behind_word(b"uint64_t", symbols, next)?;
            array(alloc, prelude, room, Role::Output, symbols, next)
        }
    }
}

#[tactic(auto, using(crate::proofs::StmtReads::parts))]
fn param_more(
    alloc: Global,
    prelude: bool,
    room: u32,
    params: Items<ParamDraft>,
    symbols: &[Symbol<'_>],
    next: usize,
) -> Answer<Items<ParamDraft>>
    ensures { Gives (map seen symbols.now) (map param_seen) result (reading.param_more prelude (length symbols.now) room tt (map param_seen params) (drop next (map seen symbols.now))) }
{
    let (a, next) = param(alloc, prelude, room, symbols, next)?;
    let mut params = params;
    params.push(a)?;
    Ok((params, next))
}

/// Further parameters, where they follow.
fn more_params(
    alloc: Global,
    prelude: bool,
    room: u32,
    params: Items<ParamDraft>,
    symbols: &[Symbol<'_>],
    next: usize,
) -> Answer<Items<ParamDraft>>
    ensures { Gives (map seen symbols.now) (map param_seen) result (reading.more_params prelude (length symbols.now) room (map param_seen params) (drop next (map seen symbols.now))) }
{
    let mut params = params;
    let mut next = next;
    while let Some(behind) = past_mark(b",", symbols, next) {
        let (longer, rest) = param_more(alloc, prelude, room, params, symbols, behind)?;
        params = longer;
        next = rest;
    }
    Ok((params, next))
}

/// Behind the `(` of the parameters.
#[tactic(auto, unfolding(crate::specs::TextReading::params_inside))]
fn params_inside(
    alloc: Global,
    prelude: bool,
    room: u32,
    symbols: &[Symbol<'_>],
    next: usize,
) -> Answer<Items<ParamDraft>>
    ensures { Gives (map seen symbols.now) (map param_seen) result (reading.params_inside prelude (length symbols.now) room (drop next (map seen symbols.now))) }
{
    if room == 0 {
        return Err(Stop::Deep);
    }
    let params = Items::new(alloc);
    let (params, next) = param_more(alloc, prelude, room - 1, params, symbols, next)?;
    more_params(alloc, prelude, room - 1, params, symbols, next)
}

// ---- Declarations

/// Behind the Word of a temporary.
#[tactic(auto, using(crate::proofs::StmtReads::parts))]
fn temp(
    alloc: Global,
    prelude: bool,
    room: u32,
    temps: Items<DeclDraft>,
    word: WordDraft,
    symbols: &[Symbol<'_>],
    next: usize,
) -> Answer<Items<DeclDraft>>
    ensures { Gives (map seen symbols.now) (map decl) result (reading.temp prelude (length symbols.now) room (map decl temps) (drafts.word word) (drop next (map seen symbols.now))) }
{
    let (extents, next) = dims_here(alloc, prelude, room, symbols, next)?;
    let mut temps = temps;
    temps.push(DeclDraft {
        word,
        role: Role::Temp,
        extents,
    })?;
    Ok((temps, next))
}

fn temp_more(
    alloc: Global,
    prelude: bool,
    room: u32,
    temps: Items<DeclDraft>,
    symbols: &[Symbol<'_>],
    next: usize,
) -> Answer<Items<DeclDraft>>
    ensures { Gives (map seen symbols.now) (map decl) result (reading.temp_more prelude (length symbols.now) room tt (map decl temps) (drop next (map seen symbols.now))) }
{
    let (word, next) = named(alloc, symbols, next)?;
    temp(alloc, prelude, room, temps, word, symbols, next)
}

/// Further temporaries, where they follow.
fn more_temps(
    alloc: Global,
    prelude: bool,
    room: u32,
    temps: Items<DeclDraft>,
    symbols: &[Symbol<'_>],
    next: usize,
) -> Answer<Items<DeclDraft>>
    ensures { Gives (map seen symbols.now) (map decl) result (reading.more_temps prelude (length symbols.now) room (map decl temps) (drop next (map seen symbols.now))) }
{
    let mut temps = temps;
    let mut next = next;
    while let Some(behind) = past_mark(b",", symbols, next) {
        let (longer, rest) = temp_more(alloc, prelude, room, temps, symbols, behind)?;
        temps = longer;
        next = rest;
    }
    Ok((temps, next))
}

/// Behind `uint64_t` and a Word.
fn decl_behind(
    alloc: Global,
    prelude: bool,
    room: u32,
    inside: Inside,
    name: &str,
    symbols: &[Symbol<'_>],
    next: usize,
) -> Answer<Inside>
    ensures { Gives (map seen symbols.now) inside_seen result (reading.decl_behind prelude (length symbols.now) room (inside_seen inside) name.now (drop next (map seen symbols.now))) }
{
    let at = number_before(symbols, next);
    let word = drafted_word(alloc, at, name)?;
    let Inside { temps, stmts } = inside;
    let (temps, next) = temp(alloc, prelude, room, temps, word, symbols, next)?;
    let (temps, next) = more_temps(alloc, prelude, room, temps, symbols, next)?;
    let next = behind(b";", symbols, next)?;
    Ok((Inside { temps, stmts }, next))
}

// ---- What stands in the function

#[tactic(auto, using(crate::proofs::StmtReads::parts))]
fn inside_stmt(
    alloc: Global,
    prelude: bool,
    room: u32,
    first: First<'_>,
    inside: Inside,
    symbols: &[Symbol<'_>],
    next: usize,
) -> Answer<Inside>
    ensures { Gives (map seen symbols.now) inside_seen result (reading.inside_stmt prelude (length symbols.now) room (first_seen first.entry) (inside_seen inside) (drop next (map seen symbols.now))) }
{
    let (read, next) = statement(alloc, prelude, room, first, symbols, next)?;
    let Inside { temps, mut stmts } = inside;
    stmts.append(read)?;
    Ok((Inside { temps, stmts }, next))
}

fn may_be_decl(first: First<'_>, stmts: &Items<StmtDraft>) -> bool
    ensures { result ≡ reading.may_be_decl (first_seen first.entry) (parts.stmts stmts.now) }
{
    is_none(stmts) && is_first_word(first, b"uint64_t")
}

fn inside_more(
    alloc: Global,
    prelude: bool,
    room: u32,
    first: First<'_>,
    inside: Inside,
    symbols: &[Symbol<'_>],
    next: usize,
) -> Answer<Inside>
    ensures { Gives (map seen symbols.now) inside_seen result (reading.inside_more prelude (length symbols.now) room (first_seen first.entry) (inside_seen inside) (drop next (map seen symbols.now))) }
{
    if may_be_decl(first, &inside.stmts) {
        match past_word(symbols, next) {
            Some((name, next)) => decl_behind(alloc, prelude, room, inside, name, symbols, next),
            None => inside_stmt(alloc, prelude, room, first, inside, symbols, next),
        }
    } else {
        inside_stmt(alloc, prelude, room, first, inside, symbols, next)
    }
}

/// The declarations and statements that stand here.
fn inner(
    alloc: Global,
    prelude: bool,
    room: u32,
    symbols: &[Symbol<'_>],
    next: usize,
) -> Answer<Inside>
    ensures { Gives (map seen symbols.now) inside_seen result (reading.inner prelude (length symbols.now) room parts.no_inside (drop next (map seen symbols.now))) }
{
    let mut inside = Inside {
        temps: Items::new(alloc),
        stmts: Items::new(alloc),
    };
    let mut next = next;
    while let Some((first, behind)) = past_first(symbols, next) {
        let (longer, rest) = inside_more(alloc, prelude, room, first, inside, symbols, behind)?;
        inside = longer;
        next = rest;
    }
    Ok((inside, next))
}

/// Behind the `{` of the function.
#[tactic(auto, unfolding(crate::specs::TextReading::function_inside))]
fn function_inside(
    alloc: Global,
    prelude: bool,
    room: u32,
    symbols: &[Symbol<'_>],
    next: usize,
) -> Answer<Inside>
    ensures { Gives (map seen symbols.now) inside_seen result (reading.function_inside prelude (length symbols.now) room (drop next (map seen symbols.now))) }
{
    if room == 0 {
        return Err(Stop::Deep);
    }
    inner(alloc, prelude, room - 1, symbols, next)
}

/// Behind the parameters.
fn function_behind(
    alloc: Global,
    prelude: bool,
    room: u32,
    name: WordDraft,
    params: Items<ParamDraft>,
    symbols: &[Symbol<'_>],
    next: usize,
) -> Answer<Function>
    ensures { Gives (map seen symbols.now) function_seen result (reading.function_behind prelude (length symbols.now) room (word name) (map param_seen params) (drop next (map seen symbols.now))) }
{
    let next = behind(b")", symbols, next)?;
    let next = behind(b"{", symbols, next)?;
    let (inside, next) = function_inside(alloc, prelude, room, symbols, next)?;
    let next = behind(b"}", symbols, next)?;
    let Inside { temps, stmts } = inside;
    let function = Function {
        name,
        params,
        temps,
        stmts,
    };
    Ok((function, next))
}

/// The function that stands here.
pub(crate) fn read_function(
    alloc: Global,
    prelude: bool,
    room: u32,
    symbols: &[Symbol<'_>],
    next: usize,
) -> Answer<Function>
    ensures { Gives (map seen symbols.now) function_seen result (reading.function prelude (length symbols.now) room (drop next (map seen symbols.now))) }
{
    let next = behind_word(b"void", symbols, next)?;
    let (name, next) = named(alloc, symbols, next)?;
    let next = behind(b"(", symbols, next)?;
    let (params, next) = params_inside(alloc, prelude, room, symbols, next)?;
    function_behind(alloc, prelude, room, name, params, symbols, next)
}
