//! Tokens with their text, as the grammar has them, and tests of their kind and text.

ghost use Rattle.std.specs.Prelude.{◌≡◌, ◌&&◌, map, None, Some, MatchOption};
ghost use Rattle.affc_lex.specs.Bytes as bytes;
ghost use Rattle.affc_grammar.specs.Grammar as grammar;
ghost use Rattle.affc_syntax.specs.draft.Numbers.{number_of};

use affc_lex::token::Kind;

/// A token of a text, with its bytes; of a Number and a Value also the number that its digits write.
#[derive(Clone, Copy, Drop)]
pub struct Symbol<'a> {
    pub kind: Kind,
    pub text: &'a str,
    pub value: u64,
    pub ghost valued: { value ≡ number_of kind text.now },
}

pub fn is_word_kind(kind: Kind) -> bool
    ensures { result ≡ grammar.is_word_kind kind }
{
    matches!(kind, Kind::Word)
}

pub fn is_mark_kind(kind: Kind) -> bool
    ensures { result ≡ grammar.is_mark_kind kind }
{
    matches!(kind, Kind::Mark)
}

/// Whether the texts are the same.
pub fn is(text: &str, other: &[u8]) -> bool
    ensures { result ≡ bytes.same text.now other.now }
{
    text.as_bytes() == other
}
