//! What stands first among tokens, and the tokens behind it.

ghost use Rattle.std.specs.Prelude.{◌≡◌, ◌<◌, ◌≤◌, ◌+◌, ◌∷◌, [], drop, length, map, None, Some, IfOk, IfSome, MatchOption, MatchResult, is_some};
ghost use Rattle.affc_lex.specs.Bytes as bytes;
ghost use Rattle.affc_grammar.specs.Grammar as grammar;
ghost use Rattle.affc_grammar.specs.Reading as tests;
ghost use Rattle.affc_grammar.specs.Draft as d;
ghost use Rattle.affc_syntax.specs.draft.Drafts.{word};
ghost use Rattle.affc_syntax.specs.draft.Symbols.{seen};
ghost use Rattle.affc_syntax.specs.Ahead as ahead;
ghost use Rattle.affc_syntax.specs.Callees as callees;
ghost use Rattle.affc_syntax.specs.Readers as readers;
ghost use Rattle.affc_syntax.specs.ValueTests as values;
ghost use Rattle.affc_syntax.specs.declared.ahead.Stop.TheVariants as stop;
ghost use Rattle.std.specs.Option.{option_map};

use crate::draft::draft::{Choice, Rounding, WordDraft};
use crate::draft::symbol::{Symbol, is_mark_kind, is_word_kind};
use affc_ast::text::Text;
use affc_ast::tree::{Op, Rel};
use affc_lex::token::Kind;
use std::alloc::{AllocError, Global};

fn same(a: &[u8], b: &str) -> bool
    ensures { result ≡ bytes.same a.now b.now }
{
    a == b.as_bytes()
}

fn is_this_mark(symbol: &Symbol<'_>, mark: &[u8]) -> bool
    ensures { result ≡ is_some (tests.this_mark mark.now (seen symbol.now)) }
{
    is_mark_kind(symbol.kind) && same(mark, symbol.text)
}

/// The token of this number, where it is one.
pub fn first<'a, 't>(symbols: &'a [Symbol<'t>], at: usize) -> Option<&'a Symbol<'t>>
    ensures { MatchOption result
        (drop at (map seen symbols.now) ≡ [])
        (λ s. (drop at (map seen symbols.now) ≡ seen s.now ∷ drop (at + 1) (map seen symbols.now)) × (at < length symbols.now)) }
{
    if at < symbols.len() {
        Some(&symbols[at])
    } else {
        None
    }
}

/// Behind this mark.
pub fn past_mark(mark: &[u8], symbols: &[Symbol<'_>], at: usize) -> Option<usize>
    ensures rest { MatchOption result
        (ahead.past (tests.this_mark mark.now) (drop at (map seen symbols.now)) ≡ None)
        (λ next. ahead.past (tests.this_mark mark.now) (drop at (map seen symbols.now)) ≡ Some (tt, drop next (map seen symbols.now))) }
    ensures next { IfSome result (λ next. (next ≡ at + 1) × (next ≤ length symbols.now)) }
{
    match first(symbols, at) {
        Some(symbol) => {
            if is_this_mark(symbol, mark) {
                Some(at + 1)
            } else {
                None
            }
        }
        None => None,
    }
}

fn is_this_word(symbol: &Symbol<'_>, word: &[u8]) -> bool
    ensures { result ≡ is_some (tests.this_word word.now (seen symbol.now)) }
{
    is_word_kind(symbol.kind) && same(word, symbol.text)
}

/// Behind this word.
pub fn past_this_word(word: &[u8], symbols: &[Symbol<'_>], at: usize) -> Option<usize>
    ensures { MatchOption result
        (ahead.past (tests.this_word word.now) (drop at (map seen symbols.now)) ≡ None)
        (λ next. ahead.past (tests.this_word word.now) (drop at (map seen symbols.now)) ≡ Some (tt, drop next (map seen symbols.now))) }
{
    match first(symbols, at) {
        Some(symbol) => {
            if is_this_word(symbol, word) {
                Some(at + 1)
            } else {
                None
            }
        }
        None => None,
    }
}

/// Behind this word, which has to stand here.
pub fn behind_word(word: &[u8], symbols: &[Symbol<'_>], at: usize) -> Result<usize, Stop>
    ensures { MatchResult result
        (λ next. ahead.past (tests.this_word word.now) (drop at (map seen symbols.now)) ≡ Some (tt, drop next (map seen symbols.now)))
        (λ f. (f ≡ stop.At at) × (ahead.past (tests.this_word word.now) (drop at (map seen symbols.now)) ≡ None)) }
{
    match past_this_word(word, symbols, at) {
        Some(next) => Ok(next),
        None => Err(Stop::At(at)),
    }
}

fn number(symbol: &Symbol<'_>) -> Option<u64>
    ensures { result ≡ ahead.number_value (seen symbol.now) }
{
    match symbol.kind {
        Kind::Number => Some(symbol.value),
        _ => None,
    }
}

/// The number of a Number, and the place behind it.
pub fn past_number(symbols: &[Symbol<'_>], at: usize) -> Option<(u64, usize)>
    ensures rest { MatchOption result
        (ahead.past ahead.number_value (drop at (map seen symbols.now)) ≡ None)
        (λ r. ahead.past ahead.number_value (drop at (map seen symbols.now)) ≡ Some (r.0, drop r.1 (map seen symbols.now))) }
    ensures next { IfSome result (λ r. (r.1 ≡ at + 1) × (r.1 ≤ length symbols.now)) }
{
    match first(symbols, at) {
        Some(symbol) => match number(symbol) {
            Some(value) => Some((value, at + 1)),
            None => None,
        },
        None => None,
    }
}

/// A Word, and the place behind it.
pub fn past_word<'t>(symbols: &[Symbol<'t>], at: usize) -> Option<(&'t str, usize)>
    ensures rest { MatchOption result
        (ahead.past tests.any_word (drop at (map seen symbols.now)) ≡ None)
        (λ r. ahead.past tests.any_word (drop at (map seen symbols.now)) ≡ Some (r.0.now, drop r.1 (map seen symbols.now))) }
    ensures next { IfSome result (λ r. (r.1 ≡ at + 1) × (r.1 ≤ length symbols.now)) }
{
    match first(symbols, at) {
        Some(symbol) => {
            if is_word_kind(symbol.kind) {
                Some((symbol.text, at + 1))
            } else {
                None
            }
        }
        None => None,
    }
}

fn divisor(symbol: &Symbol<'_>) -> Option<u64>
    ensures { result ≡ ahead.divisor_value (seen symbol.now) }
{
    match symbol.kind {
        Kind::Number => {
            if 1 <= symbol.value {
                Some(symbol.value)
            } else {
                None
            }
        }
        _ => None,
    }
}

/// The number of a Number of at least 1, and the place behind it.
pub fn past_divisor(symbols: &[Symbol<'_>], at: usize) -> Option<(u64, usize)>
    ensures rest { MatchOption result
        (ahead.past ahead.divisor_value (drop at (map seen symbols.now)) ≡ None)
        (λ r. ahead.past ahead.divisor_value (drop at (map seen symbols.now)) ≡ Some (r.0, drop r.1 (map seen symbols.now))) }
    ensures next { IfSome result (λ r. (r.1 ≡ at + 1) × (r.1 ≤ length symbols.now)) }
{
    match first(symbols, at) {
        Some(symbol) => match divisor(symbol) {
            Some(value) => Some((value, at + 1)),
            None => None,
        },
        None => None,
    }
}

/// Whether a `+` or a `-` is a `+`, and the place behind it.
pub fn past_sign(symbols: &[Symbol<'_>], at: usize) -> Option<(bool, usize)>
    ensures rest { MatchOption result
        (ahead.past tests.sum_sign (drop at (map seen symbols.now)) ≡ None)
        (λ r. ahead.past tests.sum_sign (drop at (map seen symbols.now)) ≡ Some (r.0, drop r.1 (map seen symbols.now))) }
    ensures next { IfSome result (λ r. (r.1 ≡ at + 1) × (r.1 ≤ length symbols.now)) }
{
    match first(symbols, at) {
        Some(symbol) => match sign(symbol) {
            Some(is_plus) => Some((is_plus, at + 1)),
            None => None,
        },
        None => None,
    }
}

fn sign(symbol: &Symbol<'_>) -> Option<bool>
    ensures { result ≡ tests.sum_sign (seen symbol.now) }
{
    if !is_mark_kind(symbol.kind) {
        None
    } else if same(b"+", symbol.text) {
        Some(true)
    } else if same(b"-", symbol.text) {
        Some(false)
    } else {
        None
    }
}

fn relation(wide: bool, symbol: &Symbol<'_>) -> Option<Rel>
    ensures { result ≡ ahead.relation_value wide (seen symbol.now) }
{
    if !is_mark_kind(symbol.kind) {
        None
    } else if same(b"<", symbol.text) {
        Some(Rel::Less)
    } else if same(b"<=", symbol.text) {
        Some(Rel::LessEqual)
    } else if same(b">", symbol.text) {
        Some(Rel::Greater)
    } else if same(b">=", symbol.text) {
        Some(Rel::GreaterEqual)
    } else if same(b"==", symbol.text) {
        Some(Rel::Equal)
    } else if wide && same(b"!=", symbol.text) {
        Some(Rel::NotEqual)
    } else {
        None
    }
}

/// What a mark compares by, and the place behind it; a `!=` compares where `wide`.
pub fn past_relation(wide: bool, symbols: &[Symbol<'_>], at: usize) -> Option<(Rel, usize)>
    ensures rest { MatchOption result
        (ahead.past (ahead.relation_value wide) (drop at (map seen symbols.now)) ≡ None)
        (λ r. ahead.past (ahead.relation_value wide) (drop at (map seen symbols.now)) ≡ Some (r.0, drop r.1 (map seen symbols.now))) }
    ensures next { IfSome result (λ r. (r.1 ≡ at + 1) × (r.1 ≤ length symbols.now)) }
{
    match first(symbols, at) {
        Some(symbol) => match relation(wide, symbol) {
            Some(rel) => Some((rel, at + 1)),
            None => None,
        },
        None => None,
    }
}

fn zero_sign(symbol: &Symbol<'_>) -> Option<bool>
    ensures { result ≡ tests.zero_sign (seen symbol.now) }
{
    if !is_mark_kind(symbol.kind) {
        None
    } else if same(b"==", symbol.text) {
        Some(true)
    } else if same(b"!=", symbol.text) {
        Some(false)
    } else {
        None
    }
}

/// Whether a `==` or a `!=` is a `==`, and the place behind it.
pub fn past_zero_sign(symbols: &[Symbol<'_>], at: usize) -> Option<(bool, usize)>
    ensures rest { MatchOption result
        (ahead.past tests.zero_sign (drop at (map seen symbols.now)) ≡ None)
        (λ r. ahead.past tests.zero_sign (drop at (map seen symbols.now)) ≡ Some (r.0, drop r.1 (map seen symbols.now))) }
    ensures next { IfSome result (λ r. (r.1 ≡ at + 1) × (r.1 ≤ length symbols.now)) }
{
    match first(symbols, at) {
        Some(symbol) => match zero_sign(symbol) {
            Some(yes) => Some((yes, at + 1)),
            None => None,
        },
        None => None,
    }
}

fn is_zero(symbol: &Symbol<'_>) -> bool
    ensures { result ≡ is_some (tests.zero_number (seen symbol.now)) }
{
    match symbol.kind {
        Kind::Number => same(b"0", symbol.text),
        _ => false,
    }
}

/// The place behind the Number `0`.
pub fn behind_zero(symbols: &[Symbol<'_>], at: usize) -> Result<usize, Stop>
    ensures { MatchResult result
        (λ next. ahead.past tests.zero_number (drop at (map seen symbols.now)) ≡ Some (tt, drop next (map seen symbols.now)))
        (λ f. (f ≡ stop.At at) × (ahead.past tests.zero_number (drop at (map seen symbols.now)) ≡ None)) }
{
    match first(symbols, at) {
        Some(symbol) => {
            if is_zero(symbol) {
                Ok(at + 1)
            } else {
                Err(Stop::At(at))
            }
        }
        None => Err(Stop::At(at)),
    }
}

fn constant(symbol: &Symbol<'_>) -> Option<u64>
    ensures { result ≡ values.constant_value (seen symbol.now) }
{
    match symbol.kind {
        Kind::Value => Some(symbol.value),
        _ => None,
    }
}

/// The number of a Value, and the place behind it.
pub fn past_constant(symbols: &[Symbol<'_>], at: usize) -> Option<(u64, usize)>
    ensures rest { MatchOption result
        (ahead.past values.constant_value (drop at (map seen symbols.now)) ≡ None)
        (λ r. ahead.past values.constant_value (drop at (map seen symbols.now)) ≡ Some (r.0, drop r.1 (map seen symbols.now))) }
    ensures next { IfSome result (λ r. (r.1 ≡ at + 1) × (r.1 ≤ length symbols.now)) }
{
    match first(symbols, at) {
        Some(symbol) => match constant(symbol) {
            Some(value) => Some((value, at + 1)),
            None => None,
        },
        None => None,
    }
}

fn places(symbol: &Symbol<'_>) -> Option<u64>
    ensures { result ≡ values.shift_value (seen symbol.now) }
{
    match symbol.kind {
        Kind::Number => {
            if symbol.value <= 63 {
                Some(symbol.value)
            } else {
                None
            }
        }
        _ => None,
    }
}

/// The number of a Number from 0 to 63, and the place behind it.
pub fn past_places(symbols: &[Symbol<'_>], at: usize) -> Option<(u64, usize)>
    ensures rest { MatchOption result
        (ahead.past values.shift_value (drop at (map seen symbols.now)) ≡ None)
        (λ r. ahead.past values.shift_value (drop at (map seen symbols.now)) ≡ Some (r.0, drop r.1 (map seen symbols.now))) }
    ensures next { IfSome result (λ r. (r.1 ≡ at + 1) × (r.1 ≤ length symbols.now)) }
{
    match first(symbols, at) {
        Some(symbol) => match places(symbol) {
            Some(by) => Some((by, at + 1)),
            None => None,
        },
        None => None,
    }
}

fn shift(symbol: &Symbol<'_>) -> Option<bool>
    ensures { result ≡ tests.shift_sign (seen symbol.now) }
{
    if !is_mark_kind(symbol.kind) {
        None
    } else if same(b"<<", symbol.text) {
        Some(true)
    } else if same(b">>", symbol.text) {
        Some(false)
    } else {
        None
    }
}

/// Whether a `<<` or a `>>` is a `<<`, and the place behind it.
pub fn past_shift(symbols: &[Symbol<'_>], at: usize) -> Option<(bool, usize)>
    ensures rest { MatchOption result
        (ahead.past tests.shift_sign (drop at (map seen symbols.now)) ≡ None)
        (λ r. ahead.past tests.shift_sign (drop at (map seen symbols.now)) ≡ Some (r.0, drop r.1 (map seen symbols.now))) }
    ensures next { IfSome result (λ r. (r.1 ≡ at + 1) × (r.1 ≤ length symbols.now)) }
{
    match first(symbols, at) {
        Some(symbol) => match shift(symbol) {
            Some(left) => Some((left, at + 1)),
            None => None,
        },
        None => None,
    }
}

fn operation(text: &str) -> Option<Op>
    ensures { result ≡ tests.choose tests.ops text.now }
{
    if same(b"*", text) {
        Some(Op::Mul)
    } else if same(b"+", text) {
        Some(Op::Add)
    } else if same(b"-", text) {
        Some(Op::Sub)
    } else if same(b"&", text) {
        Some(Op::And)
    } else if same(b"^", text) {
        Some(Op::Xor)
    } else if same(b"|", text) {
        Some(Op::Or)
    } else {
        None
    }
}

/// How loosely an operator binds.
fn level_of(op: Op) -> u32
    ensures { result ≡ grammar.level_of op }
{
    match op {
        Op::Mul => 1,
        Op::Add | Op::Sub => 2,
        Op::And => 4,
        Op::Xor => 5,
        Op::Or => 6,
    }
}

fn operation_of(level: u32, symbol: &Symbol<'_>) -> Option<Op>
    ensures { result ≡ values.op_at level (seen symbol.now) }
{
    if !is_mark_kind(symbol.kind) {
        return None;
    }
    match operation(symbol.text) {
        Some(op) => {
            if level_of(op) == level {
                Some(op)
            } else {
                None
            }
        }
        None => None,
    }
}

/// An operator of this level, and the place behind it.
pub fn past_operation(level: u32, symbols: &[Symbol<'_>], at: usize) -> Option<(Op, usize)>
    ensures rest { MatchOption result
        (ahead.past (values.op_at level) (drop at (map seen symbols.now)) ≡ None)
        (λ r. ahead.past (values.op_at level) (drop at (map seen symbols.now)) ≡ Some (r.0, drop r.1 (map seen symbols.now))) }
    ensures next { IfSome result (λ r. (r.1 ≡ at + 1) × (r.1 ≤ length symbols.now)) }
{
    match first(symbols, at) {
        Some(symbol) => match operation_of(level, symbol) {
            Some(op) => Some((op, at + 1)),
            None => None,
        },
        None => None,
    }
}

/// What a name calls.
#[derive(Clone, Copy, Drop)]
pub enum Callee {
    OfChoice(Choice),
    OfRounding(Rounding),
}

pub fn callee_of(prelude: bool, word: &str) -> Option<Callee>
    ensures { option_map callees.callee_seen result ≡ callees.callee prelude word.now }
{
    if !prelude {
        None
    } else if same(b"affc_min", word) {
        Some(Callee::OfChoice(Choice::Minimum))
    } else if same(b"affc_max", word) {
        Some(Callee::OfChoice(Choice::Maximum))
    } else if same(b"affc_mod", word) {
        Some(Callee::OfChoice(Choice::Remainder))
    } else if same(b"affc_floord", word) {
        Some(Callee::OfRounding(Rounding::Down))
    } else if same(b"affc_ceild", word) {
        Some(Callee::OfRounding(Rounding::Up))
    } else {
        None
    }
}

/// Why nothing was read: the number of the first token that cannot stand on, or behind the last.
#[derive(Clone, Copy)]
pub enum Stop {
    Memory,
    Deep,
    At(usize),
}

impl From<AllocError> for Stop {
    ghost use Rattle.affc_syntax.specs.declared.ahead.Stop.TheVariants.{Memory};
    ghost use Rattle.std.specs.Prelude.{◌≡◌};

    ghost from_gives = { λ _ e. e ≡ Memory };

    fn from(_: AllocError) -> Stop {
        Stop::Memory
    }
}

/// What was read, and the number of the token behind it.
pub type Answer<T> = Result<(T, usize), Stop>;

/// Behind this mark, which has to stand here.
pub fn behind(mark: &[u8], symbols: &[Symbol<'_>], at: usize) -> Result<usize, Stop>
    ensures rest { MatchResult result
        (λ next. ahead.past (tests.this_mark mark.now) (drop at (map seen symbols.now)) ≡ Some (tt, drop next (map seen symbols.now)))
        (λ f. (f ≡ stop.At at) × (ahead.past (tests.this_mark mark.now) (drop at (map seen symbols.now)) ≡ None)) }
    ensures next { IfOk result (λ next. (next ≡ at + 1) × (next ≤ length symbols.now)) }
{
    match past_mark(mark, symbols, at) {
        Some(next) => Ok(next),
        None => Err(Stop::At(at)),
    }
}

/// The same, with a number behind the last token as that of the end.
pub(crate) fn counted<T: Drop>(symbols: &[Symbol<'_>], answer: Answer<T>) -> Answer<T>
    ensures { result ≡ readers.counted (length symbols.now) answer }
{
    match answer {
        Ok((read, next)) => Ok((read, next.min(symbols.len()))),
        Err(Stop::At(next)) => Err(Stop::At(next.min(symbols.len()))),
        Err(Stop::Deep) => Err(Stop::Deep),
        Err(Stop::Memory) => Err(Stop::Memory),
    }
}

/// A word, and the number of its token.
pub fn drafted_word(alloc: Global, at: usize, name: &str) -> Result<WordDraft, AllocError>
    ensures { IfOk result (λ w. word w ≡ d.word_draft at name.now) }
{
    let name = Text::from_str(alloc, name)?;
    Ok(WordDraft { at, name })
}
