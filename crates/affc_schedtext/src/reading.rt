//! Reading a term token by token, with the open brackets on a stack.

ghost use Rattle.std.specs.Prelude.{◌≡◌, [], drop, length, map, is_some, reverse, IfOk, None, Some};
ghost use Rattle.affc_grammar.specs.Reading as tests;
ghost use Rattle.affc_syntax.specs.draft.Symbols.{seen};
ghost use Rattle.affc_syntax.specs.Readers.{Gives};
ghost use Rattle.affc_schedtext.specs.declared.reading.Place.TheVariants as places;
ghost use Rattle.affc_schedtext.specs.Drafting as drafting;
ghost use Rattle.affc_schedtext.specs.Grammar as grammar;
ghost use Rattle.affc_schedtext.specs.Seen.{scope_seen};
ghost use Rattle.affc_schedtext.specs.Terms as terms;
ghost use Rattle.affc_schedtext.specs.Terms.{term};
ghost use Rattle.affc_schedtext.specs.TermReading as spec;
ghost use Rattle.affc_schedtext.specs.TermReading.{reading_seen, turned_seen};

use crate::scope::{Scope, sees};
use crate::terms::{Step, Term};
use affc_ast::Items;
use affc_ast::text::Text;
use affc_lex::token::Kind;
use affc_syntax::ahead::{Answer, Stop};
use affc_syntax::draft::symbol::{Symbol, is, is_mark_kind, is_word_kind};
use std::alloc::{AllocError, Global};

/// Where the tokens of a bracket end.
#[derive(Clone, Copy, Drop)]
enum Place {
    /// Before a factor: whether a `+` stands before its term, or a `-`, and the `*` before it.
    Before(Option<bool>, Option<usize>),
    /// Behind the `-` of a factor, of this number.
    Signed(Option<bool>, Option<usize>, usize),
    /// Behind a factor.
    Behind(Option<bool>),
}

/// An open bracket, with what stands before it, and how many more might have been opened there.
#[derive(Clone, Copy, Drop)]
struct Bracket {
    at: usize,
    sign: Option<bool>,
    star: Option<usize>,
    minus: Option<usize>,
    room: u32,
}

/// What is read of a term.
#[derive(Drop)]
struct Reading {
    place: Place,
    room: u32,
    opened: Vec<Bracket>,
    steps: Items<Step>,
}

#[derive(Drop)]
enum Turned {
    Going(Reading),
    /// The term doesn't go on with the token.
    Off(Reading),
    Deep,
}

// ---- Steps

#[tactic(auto, using(crate::proofs::Steps::steps))]
fn with_step(steps: Items<Step>, step: Step) -> Result<Items<Step>, AllocError>
    ensures { IfOk result (λ longer. terms.made_all longer [] ≡ terms.made step (terms.made_all steps [])) }
{
    let mut steps = steps;
    steps.push(step)?;
    Ok(steps)
}

/// With the factor whose last operand is read.
fn factored(
    steps: Items<Step>,
    star: Option<usize>,
    minus: Option<usize>,
) -> Result<Items<Step>, AllocError>
    ensures { IfOk result (λ longer. terms.made_all longer [] ≡ spec.factored star minus (terms.made_all steps [])) }
{
    let steps = match minus {
        Some(at) => with_step(steps, Step::Negated(at))?,
        None => steps,
    };
    match star {
        Some(at) => with_step(steps, Step::Product(at)),
        None => Ok(steps),
    }
}

/// With the sum whose last term is read.
fn summed(steps: Items<Step>, sign: Option<bool>) -> Result<Items<Step>, AllocError>
    ensures { IfOk result (λ longer. terms.made_all longer [] ≡ spec.plus sign (terms.made_all steps [])) }
{
    match sign {
        Some(true) => with_step(steps, Step::Sum),
        Some(false) => with_step(steps, Step::Difference),
        None => Ok(steps),
    }
}

// ---- One token

/// Behind the operand that a step makes.
fn behind_operand(
    reading: Reading,
    sign: Option<bool>,
    star: Option<usize>,
    minus: Option<usize>,
    step: Step,
) -> Result<Turned, AllocError>
    ensures { IfOk result (λ t. turned_seen t ≡ spec.going (spec.behind (reading_seen reading) sign (spec.factored star minus (terms.made step (reading_seen reading).operands)))) }
{
    let Reading {
        place: _,
        room,
        opened,
        steps,
    } = reading;
    let steps = with_step(steps, step)?;
    let steps = factored(steps, star, minus)?;
    Ok(Turned::Going(Reading {
        place: Place::Behind(sign),
        room,
        opened,
        steps,
    }))
}

/// Behind a `(`.
fn opened(
    at: usize,
    sign: Option<bool>,
    star: Option<usize>,
    minus: Option<usize>,
    reading: Reading,
) -> Result<Turned, AllocError>
    ensures { IfOk result (λ t. turned_seen t ≡ spec.opened_in (reading_seen reading).room at sign star minus (reading_seen reading)) }
{
    let Reading {
        place: _,
        room,
        mut opened,
        steps,
    } = reading;
    if room == 0 {
        return Ok(Turned::Deep);
    }
    opened.push(Bracket {
        at,
        sign,
        star,
        minus,
        room,
    })?;
    Ok(Turned::Going(Reading {
        place: Place::Before(None, None),
        room: room - 1,
        opened,
        steps,
    }))
}

fn is_this(symbol: &Symbol<'_>, mark: &[u8]) -> bool
    ensures { result ≡ is_some (tests.this_mark mark.now (seen symbol.now)) }
{
    is_mark_kind(symbol.kind) && is(symbol.text, mark)
}

/// At the first token of an atom.
fn at_atom(
    alloc: Global,
    at: usize,
    sign: Option<bool>,
    star: Option<usize>,
    minus: Option<usize>,
    reading: Reading,
    symbol: &Symbol<'_>,
) -> Result<Turned, AllocError>
    ensures { IfOk result (λ t. turned_seen t ≡ spec.at_atom at sign star minus (reading_seen reading) (seen symbol.now)) }
{
    match symbol.kind {
        Kind::Number => behind_operand(
            reading,
            sign,
            star,
            minus,
            Step::Literal {
                at,
                value: symbol.value,
            },
        ),
        Kind::Word => {
            let name = Text::from_str(alloc, symbol.text)?;
            behind_operand(reading, sign, star, minus, Step::Name { at, name })
        }
        _ => {
            if is_this(symbol, b"(") {
                opened(at, sign, star, minus, reading)
            } else {
                Ok(Turned::Off(reading))
            }
        }
    }
}

/// Before a factor, or behind its `-`, of the number `minus`.
fn at_factor(
    alloc: Global,
    at: usize,
    sign: Option<bool>,
    star: Option<usize>,
    reading: Reading,
    symbol: &Symbol<'_>,
) -> Result<Turned, AllocError>
    ensures { IfOk result (λ t. turned_seen t ≡ spec.turn_at at (reading_seen reading) (seen symbol.now) (places.Before sign star)) }
{
    if is_this(symbol, b"-") {
        let place = Place::Signed(sign, star, at);
        Ok(Turned::Going(Reading { place, ..reading }))
    } else {
        at_atom(alloc, at, sign, star, None, reading, symbol)
    }
}

/// Behind a `*` or a sign.
fn operated(sign: Option<bool>, star: Option<usize>, reading: Reading) -> Turned
    ensures { turned_seen result ≡ spec.going (spec.before (reading_seen reading) sign star (reading_seen reading).operands) }
{
    Turned::Going(Reading {
        place: Place::Before(sign, star),
        ..reading
    })
}

fn sign_of(symbol: &Symbol<'_>) -> Option<bool>
    ensures { result ≡ tests.sum_sign (seen symbol.now) }
{
    if is_this(symbol, b"+") {
        Some(true)
    } else if is_this(symbol, b"-") {
        Some(false)
    } else {
        None
    }
}

/// Behind a sign, with the sum before it.
fn signed(is_plus: bool, sign: Option<bool>, reading: Reading) -> Result<Turned, AllocError>
    ensures { IfOk result (λ t. turned_seen t ≡ spec.going (spec.before (reading_seen reading) (Some is_plus) None (spec.plus sign (reading_seen reading).operands))) }
{
    let Reading {
        place: _,
        room,
        opened,
        steps,
    } = reading;
    let steps = summed(steps, sign)?;
    Ok(Turned::Going(Reading {
        place: Place::Before(Some(is_plus), None),
        room,
        opened,
        steps,
    }))
}

/// Behind a bracket with this sum.
fn grouped(
    bracket: Bracket,
    sign: Option<bool>,
    opened: Vec<Bracket>,
    steps: Items<Step>,
) -> Result<Reading, AllocError>
    ensures { IfOk result (λ r. reading_seen r ≡ spec.grouped_behind sign bracket (reverse opened.items) (terms.made_all steps [])) }
{
    let steps = summed(steps, sign)?;
    let steps = with_step(steps, Step::Grouped(bracket.at))?;
    let steps = factored(steps, bracket.star, bracket.minus)?;
    Ok(Reading {
        place: Place::Behind(bracket.sign),
        room: bracket.room,
        opened,
        steps,
    })
}

/// At a `)`.
fn closed(sign: Option<bool>, reading: Reading) -> Result<Turned, AllocError>
    ensures { IfOk result (λ t. turned_seen t ≡ spec.closing_turn sign (reading_seen reading) (reading_seen reading).opened (Some tt)) }
{
    let Reading {
        place,
        room,
        mut opened,
        steps,
    } = reading;
    match opened.pop() {
        Some(bracket) => Ok(Turned::Going(grouped(bracket, sign, opened, steps)?)),
        None => Ok(Turned::Off(Reading {
            place,
            room,
            opened,
            steps,
        })),
    }
}

/// Behind a factor.
fn behind(
    at: usize,
    sign: Option<bool>,
    reading: Reading,
    symbol: &Symbol<'_>,
) -> Result<Turned, AllocError>
    ensures { IfOk result (λ t. turned_seen t ≡ spec.turn_at at (reading_seen reading) (seen symbol.now) (places.Behind sign)) }
{
    if is_this(symbol, b"*") {
        return Ok(operated(sign, Some(at), reading));
    }
    match sign_of(symbol) {
        Some(is_plus) => signed(is_plus, sign, reading),
        None => {
            if is_this(symbol, b")") {
                closed(sign, reading)
            } else {
                Ok(Turned::Off(reading))
            }
        }
    }
}

fn turn(
    alloc: Global,
    at: usize,
    reading: Reading,
    symbol: &Symbol<'_>,
) -> Result<Turned, AllocError>
    ensures { IfOk result (λ t. turned_seen t ≡ spec.turn at (reading_seen reading) (seen symbol.now)) }
{
    match reading.place {
        Place::Before(sign, star) => at_factor(alloc, at, sign, star, reading, symbol),
        Place::Signed(sign, star, minus) => at_atom(
            alloc,
            at,
            sign,
            star,
            Some(minus),
            reading,
            symbol,
        ),
        Place::Behind(sign) => behind(at, sign, reading, symbol),
    }
}

// ---- All tokens

/// The term that ends before the token of this number.
fn ended(reading: Reading, symbols: &[Symbol<'_>], next: usize) -> Answer<Term>
    ensures { Gives (map seen symbols.now) term result (spec.ended (reading_seen reading).place (reading_seen reading) (drop next (map seen symbols.now))) }
{
    match reading.place {
        Place::Behind(sign) => {
            if reading.opened.is_empty() {
                let steps = summed(reading.steps, sign)?;
                Ok((Term { steps }, next))
            } else {
                Err(Stop::At(next))
            }
        }
        Place::Before(..) | Place::Signed(..) => Err(Stop::At(next)),
    }
}

/// Whether it is no name, or one that stands for a column.
fn is_seen(scope: Scope<'_>, symbol: &Symbol<'_>) -> bool
    ensures { result ≡ grammar.is_seen (scope_seen scope.entry) (seen symbol.now) }
{
    !is_word_kind(symbol.kind) || sees(scope, symbol.text)
}

/// The term that stands here.
pub(crate) fn read_term(
    alloc: Global,
    room: u32,
    scope: Scope<'_>,
    symbols: &[Symbol<'_>],
    next: usize,
) -> Answer<Term>
    ensures { Gives (map seen symbols.now) term result (drafting.form (length symbols.now) room (scope_seen scope.entry) (drop next (map seen symbols.now))) }
{
    if symbols.len() < next {
        return Err(Stop::At(next));
    }
    let mut reading = Reading {
        place: Place::Before(None, None),
        room,
        opened: Vec::new(alloc),
        steps: Items::new(alloc),
    };
    let mut at = next;
    while at < symbols.len() {
        let symbol = &symbols[at];
        if !is_seen(scope, symbol) {
            return ended(reading, symbols, at);
        }
        match turn(alloc, at, reading, symbol)? {
            Turned::Going(longer) => reading = longer,
            Turned::Off(whole) => return ended(whole, symbols, at),
            Turned::Deep => return Err(Stop::Deep),
        }
        at += 1;
    }
    ended(reading, symbols, at)
}
