//! The tokens of a text, or its first fault.

ghost use Rattle.std.specs.Prelude.{◌≡◌, All, length, false, IfOk, IfErr, Err};
ghost use Rattle.affc_lex.specs.Lexes.{IsIn, lexemes};
ghost use Rattle.affc_parse.specs.Answers.{Answers, HasTokens, is_long};

use crate::fault::ParseFault;
use affc_lex::lex;
use affc_lex::token::{LexFault, Token};
use std::alloc::Global;

/// Of a text that isn't too long.
pub(crate) fn tokens_of(alloc: Global, text: &[u8]) -> Result<Vec<Token>, ParseFault>
    requires { is_long text.now ≡ false }
    ensures tokens { IfOk result (λ v. HasTokens text.now (lexemes text.now v.items)) }
    ensures within { IfOk result (λ v. All (IsIn (length text.now)) v.items) }
    ensures fault { IfErr result (λ f. Answers text.now (Err f)) }
{
    match lex(alloc, text) {
        Ok(tokens) => Ok(tokens),
        Err(LexFault::Memory) => Err(ParseFault::Memory),
        Err(LexFault::BadByte(place)) => Err(ParseFault::BadByte(place)),
        Err(LexFault::OpenComment(place)) => Err(ParseFault::OpenComment(place)),
        Err(LexFault::LongNumber(place)) => Err(ParseFault::LongNumber(place)),
    }
}
