//! A source, read.
ghost use Rattle.std.specs.Prelude.{◌≡◌, IfOk, IfErr, IsTrue, length};
ghost use Rattle.std.specs.List.{All};
ghost use Rattle.affc_driver.specs.Printed.{HasPrelude, ReadsPrinted, holds_prelude};
ghost use Rattle.affc_driver.specs.Programs.{IsRead};
ghost use Rattle.affc_lex.specs.Lexes.{IsIn, lexemes};
ghost use Rattle.affc_driver.specs.Refusals.{UnreadSays, ReadsWide};
ghost use Rattle.affc_driver.specs.Refusals as refusals;

use crate::unread::Unread;
use affc_ast::tree::Program;
use affc_lex::lex;
use affc_lex::token::{Kind, Token};
use affc_parse::fault::ParseFault;
use affc_parse::parse;
use affc_plain::joined::joined_tests;
use std::alloc::Global;

// The place of the prelude, which is one of the tokens.
fn prelude_of(tokens: &[Token]) -> usize
    requires { IsTrue (holds_prelude tokens.now) }
    ensures { HasPrelude tokens.now result }
{
    for token in tokens {
        if token.kind == Kind::Prelude {
            return token.start;
        }
    }
    unreachable!()
}

// The refusal of a text that reads as a program with the prelude, at the prelude's token.
fn printed(alloc: Global, source: &[u8]) -> Unread
    requires { ReadsPrinted source.now }
    ensures { UnreadSays source.now result }
{
    match lex(alloc, source) {
        Ok(tokens) => Unread::Printed(prelude_of(&tokens)),
        Err(_) => Unread::Memory,
    }
}

fn is_wide_mark(bytes: &[u8]) -> bool
    ensures { result ≡ refusals.is_wide_mark bytes.now }
{
    bytes == b"else".as_slice()
        || bytes == b"||".as_slice()
        || bytes == b"!=".as_slice()
        || bytes == b"%".as_slice()
}

// The place of the first token that a program with joined tests alone needn't have.
#[tactic(auto, using(crate::proofs::WideMarks::mark_passed, crate::proofs::WideMarks::mark_found))]
fn first_wide_mark(source: &[u8], tokens: &[Token]) -> usize
    requires { All (IsIn (length source.now)) tokens.now }
    ensures { result ≡ refusals.first_wide_mark source.now (lexemes source.now tokens.now) }
{
    for token in tokens {
        if is_wide_mark(&source[token.start..token.end]) {
            return token.start;
        }
    }
    source.len()
}

// The refusal of a text that reads as a program with other conditions, at the first token of these.
fn wide(alloc: Global, source: &[u8]) -> Unread
    requires { ReadsWide source.now }
    ensures { UnreadSays source.now result }
{
    match lex(alloc, source) {
        Ok(tokens) => Unread::Source(ParseFault::Syntax(first_wide_mark(source, &tokens))),
        Err(_) => Unread::Memory,
    }
}

/// The program that a source reads as, which is without the prelude, has no `else`, and no conditions but comparisons joined by `&&`; or
/// why there is none.
pub fn read(alloc: Global, source: &[u8]) -> Result<Program, Unread>
    ensures ok { IfOk result (IsRead source.now) }
    ensures err { IfErr result (UnreadSays source.now) }
{
    match parse(alloc, source) {
        Ok(program) => {
            if program.prelude {
                return Err(printed(alloc, source));
            }
            if !joined_tests(&program) {
                return Err(wide(alloc, source));
            }
            Ok(program)
        }
        Err(ParseFault::Memory) => Err(Unread::Memory),
        Err(fault) => Err(Unread::Source(fault)),
    }
}
