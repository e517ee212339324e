//! Programs as text.
#![tactic(auto)]

ghost use Rattle.std.specs.Prelude.{◌≡◌, ◌↔◌, IfOk};
ghost use Rattle.affc_grammar.specs.Reads.{ReadsWide, WellNamed};
ghost use Rattle.affc_cprint.specs.Layout.{printed_text};

pub mod brackets;
pub mod examples;
mod index;
pub mod laws;
mod program;
mod stmt;
mod value;

use affc_ast::tree::Program;
use std::alloc::Global;
use thiserror::Error;

/// Too little memory for the text.
#[derive(Debug, Drop, Error)]
#[error("out of memory")]
pub struct Memory;

/// The text of a program in its one layout: two spaces for each level, one statement, brace or declaration in a
/// line, and parentheses where an operator binds looser, round a negation except by itself and left of + and -,
/// and round a call under a minus.
pub fn print(alloc: Global, program: &Program) -> Result<Vec<u8>, Memory>
    ensures text { IfOk result (λ v. v.items ≡ printed_text program.now) }
    ensures reads { IfOk result (λ v. WellNamed program.now ↔ ReadsWide v.items program.now) }
{
    match program::text(alloc, program) {
        Ok(text) => Ok(text.into_bytes()),
        Err(_) => Err(Memory),
    }
}
