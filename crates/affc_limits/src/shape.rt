//! The limits that are looked at before the grammar: on tokens, runs, open brackets, and `for` and `if`.

ghost use Rattle.std.specs.Prelude.{◌≡◌, ◌+◌, ◌<◌, ◌^◌, ◌-◌, MatchOption, map, None, Some};
ghost use Rattle.std.specs.Option.{option_map};
ghost use Rattle.affc_lex.specs.Lexes.{is_line_end};
ghost use Rattle.affc_grammar.specs.Limits as spec;
ghost use Rattle.affc_grammar.specs.Limits.{limits_of, least, shape_passed};
ghost use Rattle.affc_syntax.specs.draft.Symbols.{seen, passed_seen};
ghost use Rattle.affc_limits.specs.Shape as shape;

use affc_grammar::fault::LimitName;
use affc_lex::token::Kind;
use affc_syntax::draft::passed::Passed;
use affc_syntax::draft::symbol::{Symbol, is, is_mark_kind, is_word_kind};

/// What is counted along the tokens; also how far each may be counted.
#[derive(Clone, Copy, Drop)]
pub(crate) struct Counts {
    tokens: usize,
    run: usize,
    brackets: usize,
    items: usize,
}

fn limits(has_prelude: bool) -> Counts
    ensures { result ≡ shape.counts_of (limits_of has_prelude) }
{
    if has_prelude {
        Counts {
            tokens: 16777216,
            run: 65536,
            brackets: 256,
            items: 4096,
        }
    } else {
        Counts {
            tokens: 65536,
            run: 2048,
            brackets: 64,
            items: 256,
        }
    }
}

fn is_opening(symbol: &Symbol<'_>) -> bool
    ensures { result ≡ spec.is_opening (seen symbol.now) }
{
    is_mark_kind(symbol.kind)
        && (is(symbol.text, b"(") || is(symbol.text, b"[") || is(symbol.text, b"{"))
}

fn is_closing(symbol: &Symbol<'_>) -> bool
    ensures { result ≡ spec.is_closing (seen symbol.now) }
{
    is_mark_kind(symbol.kind)
        && (is(symbol.text, b")") || is(symbol.text, b"]") || is(symbol.text, b"}"))
}

fn is_line_end(kind: Kind) -> bool
    ensures { result ≡ is_line_end kind }
{
    matches!(kind, Kind::LineEnd)
}

fn is_separator(symbol: &Symbol<'_>) -> bool
    ensures { result ≡ spec.is_separator (seen symbol.now) }
{
    is_line_end(symbol.kind)
        || (is_mark_kind(symbol.kind)
            && (is(symbol.text, b";") || is(symbol.text, b"{") || is(symbol.text, b"}")))
}

fn is_item(symbol: &Symbol<'_>) -> bool
    ensures { result ≡ spec.is_item (seen symbol.now) }
{
    is_word_kind(symbol.kind) && (is(symbol.text, b"for") || is(symbol.text, b"if"))
}

fn brackets_behind(brackets: usize, symbol: &Symbol<'_>) -> usize
    requires { brackets < 2 ^ 63 }
    ensures { result ≡ spec.count_open brackets (seen symbol.now) }
{
    if is_opening(symbol) {
        brackets + 1
    } else if is_closing(symbol) {
        brackets.saturating_sub(1)
    } else {
        brackets
    }
}

fn counts_behind(counts: Counts, symbol: &Symbol<'_>) -> Counts
    requires { shape.AreSmall counts }
    ensures { result ≡ shape.counts_behind counts (seen symbol.now) }
{
    Counts {
        tokens: counts.tokens + 1,
        run: if is_separator(symbol) {
            0
        } else {
            counts.run + 1
        },
        brackets: brackets_behind(counts.brackets, symbol),
        items: if is_item(symbol) {
            counts.items + 1
        } else {
            counts.items
        },
    }
}

fn first_above(limits: Counts, counts: Counts) -> Option<LimitName>
    ensures { result ≡ shape.first_above limits counts }
{
    if limits.tokens < counts.tokens {
        Some(LimitName::Tokens)
    } else if limits.run < counts.run {
        Some(LimitName::Run)
    } else if limits.brackets < counts.brackets {
        Some(LimitName::Depth)
    } else if limits.items < counts.items {
        Some(LimitName::Items)
    } else {
        None
    }
}

/// The first token at which a limit on the shape is passed, and the limit.
pub fn shape_fault(has_prelude: bool, symbols: &[Symbol<'_>]) -> Option<Passed>
    ensures { option_map passed_seen result ≡ least (shape_passed (limits_of has_prelude) (map seen symbols.now)) }
{
    let limits = limits(has_prelude);
    let mut counts = Counts {
        tokens: 0,
        run: 0,
        brackets: 0,
        items: 0,
    };
    for (at, symbol) in symbols.iter().enumerate() {
        counts = counts_behind(counts, symbol);
        if let Some(which) = first_above(limits, counts) {
            return Some(Passed { at, which });
        }
    }
    None
}
