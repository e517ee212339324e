//! The tokens before a fault of the lexer.

ghost use Rattle.std.specs.Prelude.{◌<◌, ◌≤◌, All, length, take, IfOk};
ghost use Rattle.affc_lex.specs.Lexes.{IsIn, lexemes};
ghost use Rattle.affc_schedtext.specs.Answers.{AreBefore};
ghost use Rattle.affc_plan.specs.Fronts.{IsTried};

use affc_lex::lex;
use affc_lex::token::{LexFault, Token};
use std::alloc::{AllocError, Global};

/// A beginning of a text, of so many bytes, with its tokens.
#[derive(Drop)]
pub struct Beginning {
    pub to: usize,
    pub tokens: Vec<Token>,
}

/// What is found of a beginning of a text.
#[derive(Drop)]
enum Tried {
    Tokens(Vec<Token>),
    /// Neither this beginning has tokens nor a shorter one that ends behind this place.
    Shorter(usize),
}

/// The tokens of the first so many bytes, or how many there are at most in a beginning that has tokens. A comment that has no end
/// there has none in what ends inside it, either.
fn lexed(alloc: Global, text: &[u8], to: usize) -> Result<Tried, AllocError>
    requires within { to ≤ length text.now }
    requires some { 0 < to }
    ensures { IfOk result (IsTried text.now to) }
{
    match lex(alloc, &text[..to]) {
        Ok(tokens) => Ok(Tried::Tokens(tokens)),
        Err(LexFault::OpenComment(at)) => Ok(Tried::Shorter(at)),
        Err(LexFault::BadByte(_)) => Ok(Tried::Shorter(to - 1)),
        Err(LexFault::LongNumber(_)) => Ok(Tried::Shorter(to - 1)),
        Err(LexFault::Memory) => Err(AllocError),
    }
}

/// The longest beginning of the text, up to the place, that has tokens.
pub fn longest(alloc: Global, text: &[u8], place: usize) -> Result<Beginning, AllocError>
    requires { place ≤ length text.now }
    ensures before { IfOk result (λ b. AreBefore text.now place (lexemes (take b.to text.now) b.tokens.items)) }
    ensures within { IfOk result (λ b. All (IsIn b.to) b.tokens.items) }
    ensures end { IfOk result (λ b. b.to ≤ place) }
{
    let mut to = place;
    while 0 < to {
        match lexed(alloc, text, to)? {
            Tried::Tokens(tokens) => return Ok(Beginning { to, tokens }),
            Tried::Shorter(at) => to = at,
        }
    }
    Ok(Beginning {
        to: 0,
        tokens: Vec::new(alloc),
    })
}
