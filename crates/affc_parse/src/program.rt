//! The one program that a text reads as, or the first thing that is wrong with it.

ghost use Rattle.std.specs.Prelude.{◌≡◌, map, IfOk, IfErr, Err, None};
ghost use Rattle.affc_lex.specs.Lexes.{lexemes};
ghost use Rattle.affc_syntax.specs.draft.Drafts as drafts;
ghost use Rattle.affc_syntax.specs.draft.Symbols.{seen};
ghost use Rattle.affc_grammar.specs.Limits.{limits_of, count_open, products_of_names};
ghost use Rattle.affc_limits.specs.Places.{first};
ghost use Rattle.affc_grammar.specs.Reader.{Within};
ghost use Rattle.affc_grammar.specs.Reads as reads;
ghost use Rattle.affc_names.specs.Answers.{IsNamed};
ghost use Rattle.affc_parse.specs.Answers.{Answers, HasTokens, HasShape, limits_with};
ghost use Rattle.affc_parse.specs.Shown.{shown};
ghost use Rattle.affc_parse.specs.Written.{IsWritten};

use crate::fault::ParseFault;
use crate::place::{has_prelude, place_of};
use crate::size::{MOST_BYTES, is_long};
use crate::symbols::symbols_of;
use crate::tokens::tokens_of;
use affc_ast::tree::Program;
use affc_grammar::fault::LimitName;
use affc_lex::token::Token;
use affc_limits::limits::limit_fault;
use affc_limits::shape::shape_fault;
use affc_limits::texts::first_product;
use affc_names::fault::NameFault;
use affc_names::program::program_of;
use affc_names::spread::Spread;
use affc_syntax::ahead::Stop;
use affc_syntax::draft::draft::TextDraft;
use affc_syntax::draft::symbol::Symbol;
use affc_text::read_text;
use std::alloc::Global;

/// How many brackets may be open at once.
fn room(prelude: bool) -> u32
    ensures { result ≡ (limits_of prelude).depth }
{
    if prelude { 256 } else { 64 }
}

/// The draft of tokens whose shape keeps the limits.
fn draft_of(
    alloc: Global,
    text: &[u8],
    tokens: &[Token],
    symbols: &[Symbol<'_>],
    room: u32,
) -> Result<TextDraft, ParseFault>
    requires shape { HasShape text.now (lexemes text.now tokens.now) }
    requires its_symbols { map seen symbols.now ≡ map shown (lexemes text.now tokens.now) }
    requires enough { Within count_open room 0 (map seen symbols.now) }
    ensures draft { IfOk result (λ d. IsWritten (lexemes text.now tokens.now) (drafts.text d)) }
    ensures fault { IfErr result (λ f. Answers text.now (Err f)) }
{
    match read_text(alloc, room, symbols) {
        Ok(draft) => Ok(draft),
        Err(Stop::Memory) => Err(ParseFault::Memory),
        Err(Stop::At(at)) => Err(ParseFault::Syntax(place_of(text, tokens, at))),
        // No more brackets are open than there is room for.
        Err(Stop::Deep) => Err(ParseFault::Syntax(text.len())),
    }
}

/// The tree of a draft whose names and products are all right, where it keeps the limits.
fn within_limits(
    alloc: Global,
    text: &[u8],
    tokens: &[Token],
    prelude: bool,
    draft: &TextDraft,
    tree: Program,
) -> Result<Program, ParseFault>
    requires shape { HasShape text.now (lexemes text.now tokens.now) }
    requires limits { limits_of prelude ≡ limits_with (lexemes text.now tokens.now) }
    requires written { IsWritten (lexemes text.now tokens.now) (drafts.text draft.now) }
    requires named { IsNamed (drafts.text draft.now) tree }
    requires affine { None ≡ first (products_of_names (drafts.text draft.now)) }
    ensures { Answers text.now result }
{
    match limit_fault(alloc, prelude, draft)? {
        None => Ok(tree),
        Some(passed) => Err(ParseFault::Limit {
            place: place_of(text, tokens, passed.at),
            which: passed.which,
        }),
    }
}

/// The tree of a draft whose names are all right: products, then limits.
fn affine(
    alloc: Global,
    text: &[u8],
    tokens: &[Token],
    prelude: bool,
    draft: &TextDraft,
    tree: Program,
) -> Result<Program, ParseFault>
    requires shape { HasShape text.now (lexemes text.now tokens.now) }
    requires limits { limits_of prelude ≡ limits_with (lexemes text.now tokens.now) }
    requires written { IsWritten (lexemes text.now tokens.now) (drafts.text draft.now) }
    requires named { IsNamed (drafts.text draft.now) tree }
    ensures { Answers text.now result }
{
    match first_product(draft) {
        Some(at) => Err(ParseFault::NotAffine(place_of(text, tokens, at))),
        None => within_limits(alloc, text, tokens, prelude, draft, tree),
    }
}

/// The tree of a draft: names, then products, then limits.
fn tree_of(
    alloc: Global,
    text: &[u8],
    tokens: &[Token],
    prelude: bool,
    draft: &TextDraft,
) -> Result<Program, ParseFault>
    requires shape { HasShape text.now (lexemes text.now tokens.now) }
    requires limits { limits_of prelude ≡ limits_with (lexemes text.now tokens.now) }
    requires written { IsWritten (lexemes text.now tokens.now) (drafts.text draft.now) }
    ensures { Answers text.now result }
{
    match program_of(alloc, Spread::by(text), draft) {
        Ok(tree) => affine(alloc, text, tokens, prelude, draft, tree),
        Err(NameFault::Memory) => Err(ParseFault::Memory),
        Err(NameFault::Refused { at, why }) => Err(ParseFault::Name {
            place: place_of(text, tokens, at),
            why,
        }),
    }
}

/// What the tokens read as: their shape first.
fn read(
    alloc: Global,
    text: &[u8],
    tokens: &[Token],
    symbols: &[Symbol<'_>],
) -> Result<Program, ParseFault>
    requires its_tokens { HasTokens text.now (lexemes text.now tokens.now) }
    requires its_symbols { map seen symbols.now ≡ map shown (lexemes text.now tokens.now) }
    ensures { Answers text.now result }
{
    let prelude = has_prelude(symbols);
    match shape_fault(prelude, symbols) {
        Some(passed) => Err(ParseFault::Limit {
            place: place_of(text, tokens, passed.at),
            which: passed.which,
        }),
        None => {
            let draft = draft_of(alloc, text, tokens, symbols, room(prelude))?;
            tree_of(alloc, text, tokens, prelude, &draft)
        }
    }
}

/// The one program that the text reads as, or the first thing that is wrong with it. Looked at are its size, its tokens,
/// their shape, the grammar, names, products and the other limits, in this order, and of each the first place.
pub fn parse(alloc: Global, text: &[u8]) -> Result<Program, ParseFault>
    ensures { Answers text.now result }
{
    if is_long(text) {
        return Err(ParseFault::Limit {
            place: MOST_BYTES,
            which: LimitName::Size,
        });
    }
    let tokens = tokens_of(alloc, text)?;
    let symbols = symbols_of(alloc, text, &tokens)?;
    read(alloc, text, &tokens, &symbols)
}
