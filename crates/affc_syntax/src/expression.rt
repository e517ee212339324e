//! Reading whole-number expressions. `room` is how many brackets may still be opened, `next` is the number of the next token.

ghost use Rattle.std.specs.Prelude.{◌≡◌, ◌-◌, ◌≤◌, drop, length, map, IfOk};
ghost use Rattle.affc_syntax.specs.draft.Drafts as drafts;
ghost use Rattle.affc_syntax.specs.draft.Drafts.{ix};
ghost use Rattle.affc_grammar.specs.Draft as d;
ghost use Rattle.affc_grammar.specs.Reading as grammar;
ghost use Rattle.affc_syntax.specs.draft.Symbols.{seen};
ghost use Rattle.affc_syntax.specs.IxReading as reading;
ghost use Rattle.affc_syntax.specs.Readers as readers;
ghost use Rattle.affc_syntax.specs.Readers.{Gives};
ghost use Rattle.affc_syntax.specs.Callees as callees;

use crate::ahead::{
    Answer, Callee, Stop, behind, callee_of, counted, past_divisor, past_mark, past_number,
    past_sign, past_word,
};
use crate::draft::draft::{Choice, IxDraft, Rounding};
use crate::draft::symbol::Symbol;
use affc_ast::text::Text;
use affc_ast::{Boxed, Items};
use std::alloc::{AllocError, Global};

/// The number of the first of the tokens that are left.
#[tactic(auto, using(crate::proofs::Readers::lengths))]
pub fn number_of_first(symbols: &[Symbol<'_>], next: usize) -> usize
    ensures { result ≡ (length symbols.now) - length (drop next (map seen symbols.now)) }
{
    let left = symbols.len().saturating_sub(next);
    symbols.len() - left
}

#[tactic(auto, using(crate::proofs::draft::Outs::ix_made))]
fn name(alloc: Global, at: usize, word: &str) -> Result<IxDraft, AllocError>
    ensures { IfOk result (λ a. ix a ≡ d.name at word.now) }
{
    let name = Text::from_str(alloc, word)?;
    Ok(IxDraft::Name { at, name })
}

/// Behind this mark, with what was read before it.
fn closed(mark: &[u8], a: IxDraft, symbols: &[Symbol<'_>], next: usize) -> Answer<IxDraft>
    ensures { Gives (map seen symbols.now) ix result (readers.closed mark.now (ix a) (drop next (map seen symbols.now))) }
{
    let next = behind(mark, symbols, next)?;
    Ok((a, next))
}

#[tactic(auto, using(crate::proofs::draft::Outs::ix_made))]
fn sum_parsed(alloc: Global, is_plus: bool, a: IxDraft, b: IxDraft) -> Result<IxDraft, AllocError>
    ensures { IfOk result (λ c. ix c ≡ reading.joined is_plus (ix a) (ix b)) }
{
    let a = Boxed::new(alloc, a)?;
    let b = Boxed::new(alloc, b)?;
    if is_plus {
        Ok(IxDraft::Sum(a, b))
    } else {
        Ok(IxDraft::Difference(a, b))
    }
}

#[tactic(auto, using(crate::proofs::draft::Outs::ix_made))]
fn product_parsed(alloc: Global, at: usize, a: IxDraft, b: IxDraft) -> Result<IxDraft, AllocError>
    ensures { IfOk result (λ c. ix c ≡ d.product at (ix a) (ix b)) }
{
    let left = Boxed::new(alloc, a)?;
    let right = Boxed::new(alloc, b)?;
    Ok(IxDraft::Product { at, left, right })
}

#[tactic(auto, using(crate::proofs::draft::Outs::ix_made))]
fn chosen(
    alloc: Global,
    at: usize,
    choice: Choice,
    a: IxDraft,
    b: IxDraft,
) -> Result<IxDraft, AllocError>
    ensures { IfOk result (λ c. ix c ≡ d.chosen at (drafts.choice choice) (ix a) (ix b)) }
{
    let left = Boxed::new(alloc, a)?;
    let right = Boxed::new(alloc, b)?;
    Ok(IxDraft::Chosen {
        at,
        choice,
        left,
        right,
    })
}

#[tactic(auto, using(crate::proofs::draft::Outs::ix_made))]
fn divided(
    alloc: Global,
    at: usize,
    rounding: Rounding,
    a: IxDraft,
    by_at: usize,
    by: u64,
) -> Result<IxDraft, AllocError>
    ensures { IfOk result (λ c. ix c ≡ d.divided at (drafts.rounding rounding) (ix a) by_at by) }
{
    let of = Boxed::new(alloc, a)?;
    Ok(IxDraft::Divided {
        at,
        rounding,
        of,
        by_at,
        by,
    })
}

#[tactic(auto, using(crate::proofs::draft::Outs::ix_made))]
pub(crate) fn grouped(alloc: Global, at: usize, a: IxDraft) -> Result<IxDraft, AllocError>
    ensures { IfOk result (λ c. ix c ≡ d.grouped at (ix a)) }
{
    let inside = Boxed::new(alloc, a)?;
    Ok(IxDraft::Grouped { at, inside })
}

#[tactic(auto, using(crate::proofs::draft::Outs::ix_made))]
fn negation_parsed(alloc: Global, at: usize, a: IxDraft) -> Result<IxDraft, AllocError>
    ensures { IfOk result (λ c. ix c ≡ d.negated at (ix a)) }
{
    let of = Boxed::new(alloc, a)?;
    Ok(IxDraft::Negated { at, of })
}

/// Behind the `(` of a group.
#[cycle(ix)]
fn group(
    alloc: Global,
    prelude: bool,
    room: u32,
    at: usize,
    symbols: &[Symbol<'_>],
    next: usize,
) -> Answer<IxDraft>
    ensures { Gives (map seen symbols.now) ix result (reading.group at (reading.inside prelude (length symbols.now) room) (drop next (map seen symbols.now))) }
{
    let (a, next) = inside(alloc, prelude, room, symbols, next)?;
    let a = grouped(alloc, at, a)?;
    closed(b")", a, symbols, next)
}

/// Behind the `(` of `affc_min`, `affc_max` or `affc_mod`.
#[cycle(ix)]
fn choice_call(
    alloc: Global,
    prelude: bool,
    room: u32,
    at: usize,
    choice: Choice,
    symbols: &[Symbol<'_>],
    next: usize,
) -> Answer<IxDraft>
    ensures { Gives (map seen symbols.now) ix result (reading.choice_call at (reading.inside prelude (length symbols.now) room) (drafts.choice choice) (drop next (map seen symbols.now))) }
{
    let (a, next) = inside(alloc, prelude, room, symbols, next)?;
    let next = behind(b",", symbols, next)?;
    let (b, next) = inside(alloc, prelude, room, symbols, next)?;
    let c = chosen(alloc, at, choice, a, b)?;
    closed(b")", c, symbols, next)
}

/// A Number of at least 1.
pub(crate) fn divisor(symbols: &[Symbol<'_>], next: usize) -> Answer<u64>
    ensures { Gives (map seen symbols.now) readers.itself result (reading.divisor (drop next (map seen symbols.now))) }
{
    match past_divisor(symbols, next) {
        Some((by, next)) => Ok((by, next)),
        None => Err(Stop::At(next)),
    }
}

/// Behind the `(` of `affc_floord` or `affc_ceild`.
#[cycle(ix)]
fn rounding_call(
    alloc: Global,
    prelude: bool,
    room: u32,
    at: usize,
    rounding: Rounding,
    symbols: &[Symbol<'_>],
    next: usize,
) -> Answer<IxDraft>
    ensures { Gives (map seen symbols.now) ix result (reading.rounding_call (length symbols.now) at (reading.inside prelude (length symbols.now) room) (drafts.rounding rounding) (drop next (map seen symbols.now))) }
{
    let (a, next) = inside(alloc, prelude, room, symbols, next)?;
    let next = behind(b",", symbols, next)?;
    let by_at = number_of_first(symbols, next);
    let (by, next) = divisor(symbols, next)?;
    let c = divided(alloc, at, rounding, a, by_at, by)?;
    closed(b")", c, symbols, next)
}

/// Behind a name.
#[cycle(ix)]
fn called(
    alloc: Global,
    prelude: bool,
    room: u32,
    at: usize,
    word: &str,
    symbols: &[Symbol<'_>],
    next: usize,
) -> Answer<IxDraft>
    ensures { Gives (map seen symbols.now) ix result (reading.called (length symbols.now) at (reading.inside prelude (length symbols.now) room) word.now (callees.callee prelude word.now) (drop next (map seen symbols.now))) }
{
    match callee_of(prelude, word) {
        None => {
            let a = name(alloc, at, word)?;
            Ok((a, next))
        }
        Some(f) => match past_mark(b"(", symbols, next) {
            Some(next) => match f {
                Callee::OfChoice(choice) => choice_call(
                    alloc, prelude, room, at, choice, symbols, next,
                ),
                Callee::OfRounding(rounding) => rounding_call(
                    alloc, prelude, room, at, rounding, symbols, next,
                ),
            },
            None => {
                let a = name(alloc, at, word)?;
                Ok((a, next))
            }
        },
    }
}

#[cycle(ix)]
fn atom(
    alloc: Global,
    prelude: bool,
    room: u32,
    symbols: &[Symbol<'_>],
    next: usize,
) -> Answer<IxDraft>
    ensures { Gives (map seen symbols.now) ix result (reading.atom prelude (length symbols.now) (reading.inside prelude (length symbols.now) room) (drop next (map seen symbols.now))) }
{
    let at = number_of_first(symbols, next);
    match past_number(symbols, next) {
        Some((value, next)) => Ok((IxDraft::Literal { at, value }, next)),
        None => match past_word(symbols, next) {
            Some((word, next)) => called(alloc, prelude, room, at, word, symbols, next),
            None => match past_mark(b"(", symbols, next) {
                Some(next) => group(alloc, prelude, room, at, symbols, next),
                None => Err(Stop::At(next)),
            },
        },
    }
}

#[cycle(ix)]
fn factor(
    alloc: Global,
    prelude: bool,
    room: u32,
    symbols: &[Symbol<'_>],
    next: usize,
) -> Answer<IxDraft>
    ensures { Gives (map seen symbols.now) ix result (reading.factor prelude (length symbols.now) (reading.inside prelude (length symbols.now) room) (drop next (map seen symbols.now))) }
{
    match past_mark(b"-", symbols, next) {
        Some(behind) => {
            let at = number_of_first(symbols, next);
            let (a, next) = atom(alloc, prelude, room, symbols, behind)?;
            let a = negation_parsed(alloc, at, a)?;
            Ok((a, next))
        }
        None => atom(alloc, prelude, room, symbols, next),
    }
}

/// Behind a `*`.
#[cycle(ix)]
fn multiplied(
    alloc: Global,
    prelude: bool,
    room: u32,
    left: IxDraft,
    symbols: &[Symbol<'_>],
    next: usize,
) -> Answer<IxDraft>
    ensures { Gives (map seen symbols.now) ix result (reading.times prelude (length symbols.now) (reading.inside prelude (length symbols.now) room) tt (ix left) (drop next (map seen symbols.now))) }
{
    let at = number_of_first(symbols, next).saturating_sub(1);
    let (a, next) = factor(alloc, prelude, room, symbols, next)?;
    let a = product_parsed(alloc, at, left, a)?;
    Ok((a, next))
}

/// Further factors, where they follow.
#[cycle(ix)]
pub(crate) fn factors(
    alloc: Global,
    prelude: bool,
    room: u32,
    left: IxDraft,
    symbols: &[Symbol<'_>],
    next: usize,
) -> Answer<IxDraft>
    ensures { Gives (map seen symbols.now) ix result (reading.factors prelude (length symbols.now) (reading.inside prelude (length symbols.now) room) (ix left) (drop next (map seen symbols.now))) }
{
    let mut left = left;
    let mut next = next;
    while let Some(behind) = past_mark(b"*", symbols, next) {
        let (longer, rest) = multiplied(alloc, prelude, room, left, symbols, behind)?;
        left = longer;
        next = rest;
    }
    Ok((left, next))
}

#[cycle(ix)]
fn term(
    alloc: Global,
    prelude: bool,
    room: u32,
    symbols: &[Symbol<'_>],
    next: usize,
) -> Answer<IxDraft>
    ensures { Gives (map seen symbols.now) ix result (reading.term prelude (length symbols.now) (reading.inside prelude (length symbols.now) room) (drop next (map seen symbols.now))) }
{
    let (a, next) = factor(alloc, prelude, room, symbols, next)?;
    factors(alloc, prelude, room, a, symbols, next)
}

/// Behind a `+` or a `-`.
#[cycle(ix)]
fn added(
    alloc: Global,
    prelude: bool,
    room: u32,
    is_plus: bool,
    left: IxDraft,
    symbols: &[Symbol<'_>],
    next: usize,
) -> Answer<IxDraft>
    ensures { Gives (map seen symbols.now) ix result (reading.added prelude (length symbols.now) (reading.inside prelude (length symbols.now) room) is_plus (ix left) (drop next (map seen symbols.now))) }
{
    let (a, next) = term(alloc, prelude, room, symbols, next)?;
    let a = sum_parsed(alloc, is_plus, left, a)?;
    Ok((a, next))
}

/// Further terms, where they follow.
#[cycle(ix)]
pub(crate) fn terms(
    alloc: Global,
    prelude: bool,
    room: u32,
    left: IxDraft,
    symbols: &[Symbol<'_>],
    next: usize,
) -> Answer<IxDraft>
    ensures { Gives (map seen symbols.now) ix result (reading.terms prelude (length symbols.now) (reading.inside prelude (length symbols.now) room) (ix left) (drop next (map seen symbols.now))) }
{
    let mut left = left;
    let mut next = next;
    while let Some((is_plus, behind)) = past_sign(symbols, next) {
        let (longer, rest) = added(alloc, prelude, room, is_plus, left, symbols, behind)?;
        left = longer;
        next = rest;
    }
    Ok((left, next))
}

/// The expression that stands here.
#[cycle(ix)]
pub(crate) fn expression(
    alloc: Global,
    prelude: bool,
    room: u32,
    symbols: &[Symbol<'_>],
    next: usize,
) -> Answer<IxDraft>
    ensures { Gives (map seen symbols.now) ix result (reading.expression prelude (length symbols.now) (reading.inside prelude (length symbols.now) room) (drop next (map seen symbols.now))) }
{
    let (a, next) = term(alloc, prelude, room, symbols, next)?;
    terms(alloc, prelude, room, a, symbols, next)
}

/// Behind a bracket that was opened where `room` could be.
#[cycle(ix)]
#[tactic(auto, unfolding(crate::specs::IxReading::inside))]
pub(crate) fn inside(
    alloc: Global,
    prelude: bool,
    room: u32,
    symbols: &[Symbol<'_>],
    next: usize,
) -> Answer<IxDraft>
    ensures { Gives (map seen symbols.now) ix result (reading.inside prelude (length symbols.now) room (drop next (map seen symbols.now))) }
{
    if room == 0 {
        return Err(Stop::Deep);
    }
    expression(alloc, prelude, room - 1, symbols, next)
}

/// Behind the `[` of a dimension.
#[tactic(auto, using(crate::proofs::Readers::lists))]
fn dim(
    alloc: Global,
    prelude: bool,
    room: u32,
    dims: Items<IxDraft>,
    symbols: &[Symbol<'_>],
    next: usize,
) -> Answer<Items<IxDraft>>
    ensures { Gives (map seen symbols.now) (map ix) result (reading.dim prelude (length symbols.now) room tt (map ix dims) (drop next (map seen symbols.now))) }
{
    let (a, next) = inside(alloc, prelude, room, symbols, next)?;
    let next = behind(b"]", symbols, next)?;
    let mut dims = dims;
    dims.push(a)?;
    Ok((dims, next))
}

/// The dimensions that stand here.
pub(crate) fn dims(
    alloc: Global,
    prelude: bool,
    room: u32,
    symbols: &[Symbol<'_>],
    next: usize,
) -> Answer<Items<IxDraft>>
    ensures { Gives (map seen symbols.now) (map ix) result (reading.dims prelude (length symbols.now) room (drop next (map seen symbols.now))) }
{
    let mut dims = Items::new(alloc);
    let mut next = next;
    while let Some(behind) = past_mark(b"[", symbols, next) {
        let (longer, rest) = dim(alloc, prelude, room, dims, symbols, behind)?;
        dims = longer;
        next = rest;
    }
    Ok((dims, next))
}

/// The expression that stands at the token of this number, and the number behind it.
pub fn read_expression(
    alloc: Global,
    prelude: bool,
    room: u32,
    symbols: &[Symbol<'_>],
    next: usize,
) -> Answer<IxDraft>
    requires { next ≤ length symbols.now }
    ensures read { Gives (map seen symbols.now) ix result (readers.mapped (d.ix_draft next) (grammar.read_ix prelude room (drop next (map seen symbols.now)))) }
    ensures within { readers.IsWithin symbols.now result }
{
    let answer = expression(alloc, prelude, room, symbols, next);
    counted(symbols, answer)
}

/// The expression that stands at the token of this number, behind a bracket that was opened where `room` could be, and the number behind it.
pub fn read_inside(
    alloc: Global,
    prelude: bool,
    room: u32,
    symbols: &[Symbol<'_>],
    next: usize,
) -> Answer<IxDraft>
    requires { next ≤ length symbols.now }
    ensures read { Gives (map seen symbols.now) ix result (readers.mapped (d.ix_draft next) (grammar.ix_inside prelude room (drop next (map seen symbols.now)))) }
    ensures within { readers.IsWithin symbols.now result }
{
    let answer = inside(alloc, prelude, room, symbols, next);
    counted(symbols, answer)
}

/// The dimensions that stand at the token of this number, and the number behind them.
pub fn read_dims(
    alloc: Global,
    prelude: bool,
    room: u32,
    symbols: &[Symbol<'_>],
    next: usize,
) -> Answer<Items<IxDraft>>
    requires { next ≤ length symbols.now }
    ensures read { Gives (map seen symbols.now) (map ix) result (readers.mapped (d.dims_draft next) (grammar.read_dims prelude room (drop next (map seen symbols.now)))) }
    ensures within { readers.IsWithin symbols.now result }
{
    let answer = dims(alloc, prelude, room, symbols, next);
    counted(symbols, answer)
}
