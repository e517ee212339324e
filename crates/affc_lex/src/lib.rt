//! The tokens of a source text.
#![tactic(auto)]

ghost use Rattle.std.specs.Prelude.{◌≡◌, List, Option, All, length, IfOk, IfErr, MatchResult};
ghost use Rattle.affc_lex.specs.declared.token.LexFault.TheVariants.{Memory};
ghost use Rattle.affc_lex.specs.Lexes.{InOrder, IsIn, Lexeme, Lexes, lexemes};
ghost use Rattle.affc_lex.specs.Faults.{FirstFault, fault_place};
ghost use Rattle.affc_lex.specs.Cutting.{earlier};

mod cut;
pub mod examples;
pub mod laws;
mod piece;
pub mod prelude;
pub mod scan;
mod scop;
pub mod token;

use crate::cut::all_tokens;
use crate::scan::first_refused;
use crate::scop::drop_scop_lines;
use crate::token::{LexFault, Token};
use std::alloc::Global;

fn place(fault: &LexFault) -> usize
    ensures { result ≡ fault_place fault.now }
{
    match fault {
        LexFault::BadByte(at) | LexFault::OpenComment(at) | LexFault::LongNumber(at) => *at,
        LexFault::Memory => 0,
    }
}

/// The fault, or the first refused sequence where that comes before.
fn first_of(fault: LexFault, refused: Option<usize>) -> LexFault
    ensures { result ≡ earlier fault refused }
{
    match refused {
        Some(at) => {
            if at < place(&fault) {
                LexFault::BadByte(at)
            } else {
                fault
            }
        }
        None => fault,
    }
}

fn read_text(alloc: Global, text: &[u8]) -> Result<Vec<Token>, LexFault>
    ensures tokens { IfOk result (λ v. Lexes text.now (lexemes text.now v.items)) }
    ensures within { IfOk result (λ v. All (IsIn (length text.now)) v.items) }
    ensures fault { IfErr result (FirstFault text.now) }
{
    let refused = first_refused(text);
    match all_tokens(alloc, text) {
        Ok(mut tokens) => match refused {
            Some(at) => Err(LexFault::BadByte(at)),
            None => {
                drop_scop_lines(text, &mut tokens);
                Ok(tokens)
            }
        },
        Err(fault) => Err(first_of(fault, refused)),
    }
}

/// The tokens of the text, in their order, or the first fault in it.
pub fn lex(alloc: Global, text: &[u8]) -> Result<Vec<Token>, LexFault>
    // What is answered are the text's tokens.
    ensures tokens { IfOk result (λ v. Lexes text.now (lexemes text.now v.items)) }
    // Each token's bytes are a slice of the text, behind those of the token before.
    ensures within { IfOk result (λ v. All (IsIn (length text.now)) v.items) }
    ensures order { IfOk result (λ v. InOrder 0 v.items (length text.now)) }
    // A text that has tokens is answered by these, or by want of memory.
    ensures only { (ts : List Lexeme) → Lexes text.now ts
        → MatchResult result (λ v. lexemes text.now v.items ≡ ts) (λ fault. fault ≡ Memory) }
    // A fault other than want of memory stands in the text, and none stands before it.
    ensures fault { IfErr result (FirstFault text.now) }
{
    read_text(alloc, text)
}
