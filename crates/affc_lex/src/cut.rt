//! A text cut into its pieces.

ghost use Rattle.std.specs.Prelude.{◌≡◌, ◌++◌, ◌≤◌, length, OnOk, MatchResult};
ghost use Rattle.affc_lex.specs.Cutting.{made, TokensOf, StopsWith};

use crate::piece::{Found, Spot, What, is_on_directive, next_piece, next_spot};
use crate::token::{Kind, LexFault, Token};
use std::alloc::{AllocError, Global};

/// Adds the token that a piece is, if it is one.
fn add(tokens: &mut Vec<Token>, what: What, start: usize, end: usize) -> Result<(), AllocError>
    ensures { OnOk result (tokens.new.items ≡ tokens.old.items ++ made what start end) }
{
    if let What::Token(kind) = what {
        tokens.push(Token { kind, start, end })?;
    }
    Ok(())
}

/// The tokens of all pieces, also those of lines that are dropped later, or the fault at which
/// the pieces end.
pub fn all_tokens(alloc: Global, text: &[u8]) -> Result<Vec<Token>, LexFault>
    ensures { MatchResult result (λ v. TokensOf text.now v.items) (StopsWith text.now) }
{
    let mut tokens = Vec::new(alloc);
    let mut spot = Spot::Fresh;
    let mut at = 0;
    while at < text.len() {
        let rest = &text[at..];
        match next_piece(spot, rest) {
            Found::Piece(what, length) => {
                add(&mut tokens, what, at, at + length)?;
                spot = next_spot(spot, what, &rest[..length]);
                at += length;
            }
            Found::Bad(length) => return Err(LexFault::BadByte(at + length)),
            Found::Open => return Err(LexFault::OpenComment(at)),
            Found::Long => return Err(LexFault::LongNumber(at)),
        }
    }
    if is_on_directive(spot) {
        add(&mut tokens, What::Token(Kind::LineEnd), at, at)?;
    }
    Ok(tokens)
}
