//! What stands first among tokens, of what only statements, the function and the lines before it have.

ghost use Rattle.std.specs.Prelude.{◌≡◌, ◌-◌, codes, drop, length, map, None, Some, MatchOption, MatchResult, is_some};
ghost use Rattle.affc_lex.specs.Bytes as bytes;
ghost use Rattle.affc_grammar.specs.Draft as d;
ghost use Rattle.affc_grammar.specs.Reading as tests;
ghost use Rattle.affc_syntax.specs.draft.Drafts.{word};
ghost use Rattle.affc_syntax.specs.draft.Symbols.{seen};
ghost use Rattle.affc_syntax.specs.Ahead as ahead;
ghost use Rattle.affc_syntax.specs.Readers.{Gives};
ghost use Rattle.affc_syntax.specs.declared.ahead.Stop.TheVariants as stop;
ghost use Rattle.affc_text.specs.StmtReading as reading;
ghost use Rattle.affc_text.specs.Parts.{first_seen};

use affc_ast::tree::{Op, Rel};
use affc_lex::prelude::PRELUDE;
use affc_lex::token::Kind;
use affc_syntax::ahead::{Answer, Stop, drafted_word, first, past_mark, past_word};
use affc_syntax::draft::draft::WordDraft;
use affc_syntax::draft::symbol::{Symbol, is_mark_kind};
use affc_syntax::expression::number_of_first;
use std::alloc::Global;

fn same(a: &[u8], b: &str) -> bool
    ensures { result ≡ bytes.same a.now b.now }
{
    a == b.as_bytes()
}

fn is_one(symbol: &Symbol<'_>) -> bool
    ensures { result ≡ is_some (tests.one (seen symbol.now)) }
{
    matches!(symbol.kind, Kind::Number) && same(b"1", symbol.text)
}

/// Behind a Number 1, which has to stand here.
pub(crate) fn behind_one(symbols: &[Symbol<'_>], at: usize) -> Result<usize, Stop>
    ensures { MatchResult result
        (λ next. ahead.past tests.one (drop at (map seen symbols.now)) ≡ Some (tt, drop next (map seen symbols.now)))
        (λ f. (f ≡ stop.At at) × (ahead.past tests.one (drop at (map seen symbols.now)) ≡ None)) }
{
    match first(symbols, at) {
        Some(symbol) => {
            if is_one(symbol) {
                Ok(at + 1)
            } else {
                Err(Stop::At(at))
            }
        }
        None => Err(Stop::At(at)),
    }
}

fn is_hash(symbol: &Symbol<'_>) -> bool
    ensures { result ≡ is_some (tests.hash (seen symbol.now)) }
{
    matches!(symbol.kind, Kind::Hash) && same(b"#", symbol.text)
}

/// Behind a Hash.
pub(crate) fn past_hash(symbols: &[Symbol<'_>], at: usize) -> Option<usize>
    ensures { MatchOption result
        (ahead.past tests.hash (drop at (map seen symbols.now)) ≡ None)
        (λ next. ahead.past tests.hash (drop at (map seen symbols.now)) ≡ Some (tt, drop next (map seen symbols.now))) }
{
    match first(symbols, at) {
        Some(symbol) => { if is_hash(symbol) { Some(at + 1) } else { None } }
        None => None,
    }
}

/// Behind a Hash, which has to stand here.
pub(crate) fn behind_hash(symbols: &[Symbol<'_>], at: usize) -> Result<usize, Stop>
    ensures { MatchResult result
        (λ next. ahead.past tests.hash (drop at (map seen symbols.now)) ≡ Some (tt, drop next (map seen symbols.now)))
        (λ f. (f ≡ stop.At at) × (ahead.past tests.hash (drop at (map seen symbols.now)) ≡ None)) }
{
    match past_hash(symbols, at) {
        Some(next) => Ok(next),
        None => Err(Stop::At(at)),
    }
}

fn is_header(symbol: &Symbol<'_>) -> bool
    ensures { result ≡ is_some (tests.header (seen symbol.now)) }
{
    matches!(symbol.kind, Kind::Header) && same(b"<stdint.h>", symbol.text)
}

/// Behind the Header, which has to stand here.
pub(crate) fn behind_header(symbols: &[Symbol<'_>], at: usize) -> Result<usize, Stop>
    ensures { MatchResult result
        (λ next. ahead.past tests.header (drop at (map seen symbols.now)) ≡ Some (tt, drop next (map seen symbols.now)))
        (λ f. (f ≡ stop.At at) × (ahead.past tests.header (drop at (map seen symbols.now)) ≡ None)) }
{
    match first(symbols, at) {
        Some(symbol) => {
            if is_header(symbol) {
                Ok(at + 1)
            } else {
                Err(Stop::At(at))
            }
        }
        None => Err(Stop::At(at)),
    }
}

fn is_prelude(symbol: &Symbol<'_>) -> bool
    ensures { result ≡ is_some (tests.the_prelude (seen symbol.now)) }
{
    matches!(symbol.kind, Kind::Prelude) && same(PRELUDE.as_bytes(), symbol.text)
}

/// Behind the prelude.
pub(crate) fn past_prelude(symbols: &[Symbol<'_>], at: usize) -> Option<usize>
    ensures { MatchOption result
        (ahead.past tests.the_prelude (drop at (map seen symbols.now)) ≡ None)
        (λ next. ahead.past tests.the_prelude (drop at (map seen symbols.now)) ≡ Some (tt, drop next (map seen symbols.now))) }
{
    match first(symbols, at) {
        Some(symbol) => {
            if is_prelude(symbol) {
                Some(at + 1)
            } else {
                None
            }
        }
        None => None,
    }
}

fn ends_line(symbol: &Symbol<'_>) -> bool
    ensures { result ≡ is_some (tests.line_end (seen symbol.now)) }
{
    matches!(symbol.kind, Kind::LineEnd) && (same(b"\n", symbol.text) || same(b"", symbol.text))
}

/// Behind the end of a line, which has to stand here.
pub(crate) fn behind_line(symbols: &[Symbol<'_>], at: usize) -> Result<usize, Stop>
    ensures { MatchResult result
        (λ next. ahead.past reading.ends_line (drop at (map seen symbols.now)) ≡ Some (tt, drop next (map seen symbols.now)))
        (λ f. (f ≡ stop.At at) × (ahead.past reading.ends_line (drop at (map seen symbols.now)) ≡ None)) }
{
    match first(symbols, at) {
        Some(symbol) => {
            if ends_line(symbol) {
                Ok(at + 1)
            } else {
                Err(Stop::At(at))
            }
        }
        None => Err(Stop::At(at)),
    }
}

fn bound(symbol: &Symbol<'_>) -> Option<bool>
    ensures { result ≡ tests.bound_of (seen symbol.now) }
{
    if !is_mark_kind(symbol.kind) {
        None
    } else if same(b"<", symbol.text) {
        Some(true)
    } else if same(b"<=", symbol.text) {
        Some(false)
    } else {
        None
    }
}

fn bound_rel(strict: bool) -> Rel
    ensures { result ≡ d.bound_rel strict }
{
    if strict { Rel::Less } else { Rel::LessEqual }
}

/// The `<` or `<=` that has to stand here.
pub(crate) fn compared(symbols: &[Symbol<'_>], at: usize) -> Answer<Rel>
    ensures { Gives (map seen symbols.now) reading.rel_itself result (reading.compared (drop at (map seen symbols.now))) }
{
    match first(symbols, at) {
        Some(symbol) => match bound(symbol) {
            Some(strict) => Ok((bound_rel(strict), at + 1)),
            None => Err(Stop::At(at)),
        },
        None => Err(Stop::At(at)),
    }
}

fn assigning(symbol: &Symbol<'_>) -> Option<Option<Op>>
    ensures { result ≡ tests.assign_of (seen symbol.now) }
{
    if !is_mark_kind(symbol.kind) {
        None
    } else if same(b"=", symbol.text) {
        Some(None)
    } else if same(b"+=", symbol.text) {
        Some(Some(Op::Add))
    } else if same(b"-=", symbol.text) {
        Some(Some(Op::Sub))
    } else if same(b"*=", symbol.text) {
        Some(Some(Op::Mul))
    } else if same(b"&=", symbol.text) {
        Some(Some(Op::And))
    } else if same(b"|=", symbol.text) {
        Some(Some(Op::Or))
    } else if same(b"^=", symbol.text) {
        Some(Some(Op::Xor))
    } else {
        None
    }
}

fn is_bracket(symbol: &Symbol<'_>) -> bool
    ensures { result ≡ is_some (tests.this_mark (codes "[") (seen symbol.now)) }
{
    is_mark_kind(symbol.kind) && same(b"[", symbol.text)
}

/// How the mark that has to stand here assigns.
pub(crate) fn assignment(symbols: &[Symbol<'_>], at: usize) -> Answer<Option<Op>>
    ensures { Gives (map seen symbols.now) reading.op_itself result (reading.assignment (drop at (map seen symbols.now))) }
{
    match first(symbols, at) {
        Some(symbol) => match assigning(symbol) {
            Some(op) => Ok((op, at + 1)),
            None => Err(Stop::At(at)),
        },
        None => Err(Stop::At(at)),
    }
}

/// Whether a word that stands before here is the first of an assignment.
pub(crate) fn is_assigned(symbols: &[Symbol<'_>], at: usize) -> bool
    ensures { result ≡ reading.is_assigned (drop at (map seen symbols.now)) }
{
    match first(symbols, at) {
        Some(symbol) => is_bracket(symbol) || assigning(symbol).is_some(),
        None => false,
    }
}

/// The first token of a statement.
#[derive(Clone, Copy)]
pub(crate) enum First<'t> {
    Word(&'t str),
    Brace,
}

/// The first token of a statement, where one stands here, and the place behind it.
pub(crate) fn past_first<'t>(symbols: &[Symbol<'t>], at: usize) -> Option<(First<'t>, usize)>
    ensures { MatchOption result
        (ahead.past tests.first_of (drop at (map seen symbols.now)) ≡ None)
        (λ r. ahead.past tests.first_of (drop at (map seen symbols.now)) ≡ Some (first_seen r.0, drop r.1 (map seen symbols.now))) }
{
    match past_word(symbols, at) {
        Some((word, next)) => Some((First::Word(word), next)),
        None => match past_mark(b"{", symbols, at) {
            Some(next) => Some((First::Brace, next)),
            None => None,
        },
    }
}

/// Whether a word before a `(` is `for` or `if`, and which.
pub(crate) fn head_word(word: &str) -> Option<bool>
    ensures { result ≡ tests.choose tests.head_words word.now }
{
    if same(b"for", word) {
        Some(true)
    } else if same(b"if", word) {
        Some(false)
    } else {
        None
    }
}

/// Whether the token is this word.
pub(crate) fn is_first_word(first: First<'_>, word: &[u8]) -> bool
    ensures { result ≡ reading.is_first_word (first_seen first.entry) word.now }
{
    match first {
        First::Word(w) => is_same(w, word),
        First::Brace => false,
    }
}

fn is_same(a: &str, b: &[u8]) -> bool
    ensures { result ≡ bytes.same a.now b.now }
{
    a.as_bytes() == b
}

/// The Word that has to stand here.
pub(crate) fn named(alloc: Global, symbols: &[Symbol<'_>], next: usize) -> Answer<WordDraft>
    ensures { Gives (map seen symbols.now) word result (reading.named (length symbols.now) (drop next (map seen symbols.now))) }
{
    let at = number_of_first(symbols, next);
    match past_word(symbols, next) {
        Some((name, next)) => {
            let word = drafted_word(alloc, at, name)?;
            Ok((word, next))
        }
        None => Err(Stop::At(next)),
    }
}

/// The number of the token before this place.
pub(crate) fn number_before(symbols: &[Symbol<'_>], next: usize) -> usize
    ensures { result ≡ (length symbols.now) - length (drop next (map seen symbols.now)) - 1 }
{
    number_of_first(symbols, next).saturating_sub(1)
}
