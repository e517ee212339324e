//! Reading values: levels of operators over names, constants, casts and what stands in parentheses.

ghost use Rattle.std.specs.Prelude.{◌≡◌, ◌-◌, ◌+◌, ◌≤◌, drop, length, map, IfOk, Ok};
ghost use Rattle.affc_syntax.specs.draft.Drafts.{ix, value};
ghost use Rattle.affc_syntax.specs.draft.Symbols.{seen};
ghost use Rattle.affc_grammar.specs.Draft as d;
ghost use Rattle.affc_grammar.specs.Reading as grammar;
ghost use Rattle.affc_syntax.specs.Readers as readers;
ghost use Rattle.affc_syntax.specs.Readers.{Gives};
ghost use Rattle.affc_syntax.specs.ValueReading as reading;
ghost use Rattle.affc_syntax.specs.ValueReading.{value_inside as inner};

use crate::ahead::{
    Answer, Stop, behind, counted, past_constant, past_mark, past_operation, past_places,
    past_shift, past_word,
};
use crate::draft::draft::{IxDraft, ValueDraft};
use crate::draft::symbol::{Symbol, is};
use crate::expression::{dims, inside, number_of_first};
use affc_ast::Boxed;
use affc_ast::text::Text;
use affc_ast::tree::Op;
use std::alloc::{AllocError, Global};

/// The highest level of operators, that of `|`.
const LOOSEST: u32 = 6;

/// The level of shifts.
const SHIFTS: u32 = 3;

#[tactic(auto, using(crate::proofs::ValueMade::value_made))]
fn binary(alloc: Global, op: Op, a: ValueDraft, b: ValueDraft) -> Result<ValueDraft, AllocError>
    ensures { IfOk result (λ v. value v ≡ d.binary op (value a) (value b)) }
{
    let left = Boxed::new(alloc, a)?;
    let right = Boxed::new(alloc, b)?;
    Ok(ValueDraft::Binary { op, left, right })
}

#[tactic(auto, using(crate::proofs::ValueMade::value_made))]
fn shift(alloc: Global, left: bool, a: ValueDraft, by: u64) -> Result<ValueDraft, AllocError>
    ensures { IfOk result (λ v. value v ≡ d.shift left (value a) by) }
{
    let of = Boxed::new(alloc, a)?;
    Ok(ValueDraft::Shift { left, of, by })
}

#[tactic(auto, using(crate::proofs::ValueMade::value_made))]
fn complement(alloc: Global, a: ValueDraft) -> Result<ValueDraft, AllocError>
    ensures { IfOk result (λ v. value v ≡ d.complement (value a)) }
{
    let of = Boxed::new(alloc, a)?;
    Ok(ValueDraft::Complement(of))
}

fn complements(alloc: Global, tildes: usize, a: ValueDraft) -> Result<ValueDraft, AllocError>
    ensures { IfOk result (λ v. value v ≡ reading.complements tildes (value a)) }
{
    let mut v = a;
    let mut left = tildes;
    while left > 0 {
        v = complement(alloc, v)?;
        left -= 1;
    }
    Ok(v)
}

/// How many `~` stand here, and the place behind them.
fn tildes(symbols: &[Symbol<'_>], next: usize) -> (usize, usize)
    ensures { reading.more_tildes 0 (drop next (map seen symbols.now)) ≡ Ok (result.0, drop result.1 (map seen symbols.now)) }
{
    let mut count = 0;
    let mut next = next;
    while let Some(behind) = past_mark(b"~", symbols, next) {
        count += 1;
        next = behind;
    }
    (count, next)
}

/// Whether a name with these subscripts is `uint64_t` alone, as the token of this number.
fn is_type_word(first: usize, at: usize, word: &str, subs: &[IxDraft]) -> bool
    ensures { result ≡ reading.is_type_at first (d.load at word.now (map ix subs.now)) }
{
    if subs.len() == 0 {
        at == first && is(word, b"uint64_t")
    } else {
        false
    }
}

/// Whether a value is `uint64_t` alone, as the token of this number.
#[tactic(auto, using(crate::proofs::draft::Outs::value_outs))]
fn is_type_at(first: usize, v: &ValueDraft) -> bool
    ensures { result ≡ reading.is_type_at first (value v.now) }
{
    match v {
        ValueDraft::Load { at, name, subs } => {
            is_type_word(first, *at, name.as_str(), subs.as_slice())
        }
        _ => false,
    }
}

/// The expression of a cast, behind its second `(`.
fn cast(
    alloc: Global,
    prelude: bool,
    room: u32,
    symbols: &[Symbol<'_>],
    next: usize,
) -> Answer<ValueDraft>
    ensures { Gives (map seen symbols.now) value result (reading.cast_of prelude (length symbols.now) room (drop next (map seen symbols.now))) }
{
    let (a, next) = inside(alloc, prelude, room, symbols, next)?;
    let next = behind(b")", symbols, next)?;
    Ok((ValueDraft::Cast(a), next))
}

/// Behind the `)` of what stands in parentheses.
fn behind_parens(
    alloc: Global,
    prelude: bool,
    room: u32,
    v: ValueDraft,
    is_type: bool,
    symbols: &[Symbol<'_>],
    next: usize,
) -> Answer<ValueDraft>
    ensures { Gives (map seen symbols.now) value result (reading.behind_parens prelude (length symbols.now) room (value v) is_type (drop next (map seen symbols.now))) }
{
    if !is_type {
        return Ok((v, next));
    }
    match past_mark(b"(", symbols, next) {
        Some(next) => cast(alloc, prelude, room, symbols, next),
        None => Ok((v, next)),
    }
}

/// Behind a `(`.
#[cycle(value)]
fn parens(
    alloc: Global,
    prelude: bool,
    room: u32,
    symbols: &[Symbol<'_>],
    next: usize,
) -> Answer<ValueDraft>
    ensures { Gives (map seen symbols.now) value result (reading.parens prelude (length symbols.now) room (inner prelude (length symbols.now) room) (drop next (map seen symbols.now))) }
{
    let first = number_of_first(symbols, next);
    let (v, next) = value_inside(alloc, prelude, room, symbols, next)?;
    let next = behind(b")", symbols, next)?;
    let is_type = is_type_at(first, &v);
    behind_parens(alloc, prelude, room, v, is_type, symbols, next)
}

/// Behind a name.
fn loaded(
    alloc: Global,
    prelude: bool,
    room: u32,
    at: usize,
    word: &str,
    symbols: &[Symbol<'_>],
    next: usize,
) -> Answer<ValueDraft>
    ensures { Gives (map seen symbols.now) value result (reading.loaded prelude (length symbols.now) room at word.now (drop next (map seen symbols.now))) }
{
    let (subs, next) = dims(alloc, prelude, room, symbols, next)?;
    let name = Text::from_str(alloc, word)?;
    Ok((ValueDraft::Load { at, name, subs }, next))
}

/// A value without `~` in front.
#[cycle(value)]
fn plain(
    alloc: Global,
    prelude: bool,
    room: u32,
    symbols: &[Symbol<'_>],
    next: usize,
) -> Answer<ValueDraft>
    ensures { Gives (map seen symbols.now) value result (reading.plain prelude (length symbols.now) room (inner prelude (length symbols.now) room) (drop next (map seen symbols.now))) }
{
    match past_constant(symbols, next) {
        Some((n, next)) => Ok((ValueDraft::Constant(n), next)),
        None => match past_word(symbols, next) {
            Some((word, behind)) => {
                let at = number_of_first(symbols, next);
                loaded(alloc, prelude, room, at, word, symbols, behind)
            }
            None => match past_mark(b"(", symbols, next) {
                Some(next) => parens(alloc, prelude, room, symbols, next),
                None => Err(Stop::At(next)),
            },
        },
    }
}

#[cycle(value)]
fn primary(
    alloc: Global,
    prelude: bool,
    room: u32,
    symbols: &[Symbol<'_>],
    next: usize,
) -> Answer<ValueDraft>
    ensures { Gives (map seen symbols.now) value result (reading.primary prelude (length symbols.now) room (inner prelude (length symbols.now) room) (drop next (map seen symbols.now))) }
{
    let (count, next) = tildes(symbols, next);
    let (v, next) = plain(alloc, prelude, room, symbols, next)?;
    let v = complements(alloc, count, v)?;
    Ok((v, next))
}

/// Behind a `<<` or a `>>`.
fn shifted(
    alloc: Global,
    is_left: bool,
    a: ValueDraft,
    symbols: &[Symbol<'_>],
    next: usize,
) -> Answer<ValueDraft>
    ensures { Gives (map seen symbols.now) value result (reading.shifted is_left (value a) (drop next (map seen symbols.now))) }
{
    match past_places(symbols, next) {
        Some((by, next)) => {
            let v = shift(alloc, is_left, a, by)?;
            Ok((v, next))
        }
        None => Err(Stop::At(next)),
    }
}

/// Further shifts, where they follow.
fn more_shifts(
    alloc: Global,
    a: ValueDraft,
    symbols: &[Symbol<'_>],
    next: usize,
) -> Answer<ValueDraft>
    ensures { Gives (map seen symbols.now) value result (reading.more_shifts (value a) (drop next (map seen symbols.now))) }
{
    let mut left = a;
    let mut next = next;
    while let Some((is_left, behind)) = past_shift(symbols, next) {
        let (longer, rest) = shifted(alloc, is_left, left, symbols, behind)?;
        left = longer;
        next = rest;
    }
    Ok((left, next))
}

/// A value with operators of this level and of tighter ones.
#[cycle(value)]
fn value_level(
    alloc: Global,
    prelude: bool,
    room: u32,
    level: u32,
    symbols: &[Symbol<'_>],
    next: usize,
) -> Answer<ValueDraft>
    ensures { Gives (map seen symbols.now) value result (reading.value_level (reading.primary prelude (length symbols.now) room (inner prelude (length symbols.now) room)) level (drop next (map seen symbols.now))) }
{
    if level == 0 {
        return primary(alloc, prelude, room, symbols, next);
    }
    let (a, next) = value_level(alloc, prelude, room, level - 1, symbols, next)?;
    if level == SHIFTS {
        return more_shifts(alloc, a, symbols, next);
    }
    let mut left = a;
    let mut next = next;
    while let Some((op, behind)) = past_operation(level, symbols, next) {
        let (right, rest) = value_level(alloc, prelude, room, level - 1, symbols, behind)?;
        left = binary(alloc, op, left, right)?;
        next = rest;
    }
    Ok((left, next))
}

/// Behind a bracket that was opened where `room` could be.
#[cycle(value)]
#[tactic(auto, unfolding(crate::specs::ValueReading::value_inside))]
fn value_inside(
    alloc: Global,
    prelude: bool,
    room: u32,
    symbols: &[Symbol<'_>],
    next: usize,
) -> Answer<ValueDraft>
    ensures { Gives (map seen symbols.now) value result (inner prelude (length symbols.now) room (drop next (map seen symbols.now))) }
{
    if room == 0 {
        return Err(Stop::Deep);
    }
    value_level(alloc, prelude, room - 1, LOOSEST, symbols, next)
}

/// The value that stands here.
pub(crate) fn whole_value(
    alloc: Global,
    prelude: bool,
    room: u32,
    symbols: &[Symbol<'_>],
    next: usize,
) -> Answer<ValueDraft>
    ensures { Gives (map seen symbols.now) value result (reading.value prelude (length symbols.now) room (drop next (map seen symbols.now))) }
{
    value_level(alloc, prelude, room, LOOSEST, symbols, next)
}

/// The value that stands at the token of this number, and the number behind it.
pub fn read_value(
    alloc: Global,
    prelude: bool,
    room: u32,
    symbols: &[Symbol<'_>],
    next: usize,
) -> Answer<ValueDraft>
    requires { next ≤ length symbols.now }
    ensures read { Gives (map seen symbols.now) value result (readers.mapped (d.value_draft next) (grammar.read_value prelude room (drop next (map seen symbols.now)))) }
    ensures within { readers.IsWithin symbols.now result }
{
    let answer = whole_value(alloc, prelude, room, symbols, next);
    counted(symbols, answer)
}
