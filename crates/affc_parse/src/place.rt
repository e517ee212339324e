//! Places of tokens, and whether the prelude is among them.

ghost use Rattle.std.specs.Prelude.{◌≡◌, map};
ghost use Rattle.affc_lex.specs.Lexes.{lexemes};
ghost use Rattle.affc_syntax.specs.draft.Symbols.{seen};
ghost use Rattle.affc_grammar.specs.Reads as reads;

use affc_lex::token::{Kind, Token};
use affc_syntax::draft::symbol::Symbol;
use sqlite_items::at as at_index;

/// Where the token of this number begins; behind the last token, the text's end.
pub fn place_of(text: &[u8], tokens: &[Token], at: usize) -> usize
    ensures { result ≡ reads.place_of text.now (lexemes text.now tokens.now) at }
{
    match at_index(tokens, at) {
        Some(token) => token.start,
        None => text.len(),
    }
}

fn is_prelude(kind: Kind) -> bool
    ensures { result ≡ reads.is_prelude kind }
{
    matches!(kind, Kind::Prelude)
}

pub(crate) fn has_prelude(symbols: &[Symbol<'_>]) -> bool
    ensures { result ≡ reads.has_prelude (map seen symbols.now) }
{
    for symbol in symbols {
        if is_prelude(symbol.kind) {
            return true;
        }
    }
    false
}
