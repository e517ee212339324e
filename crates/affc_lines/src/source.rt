//! What a source reads as, and the refusal of one that reads as nothing that is compiled.
ghost use Rattle.std.specs.Prelude.{IfOk, IfErr};
ghost use Rattle.affc_ast.specs.Counted.{IsCounted};
ghost use Rattle.affc_grammar.specs.Reads.{Reads};
ghost use Rattle.affc_lines.specs.Causes.{UnreadCause};

use crate::refusal::Refusal;
use affc_ast::tree::Program;
use affc_driver::Unread;
use affc_grammar::laws::reads_counted;
use affc_parse::fault::ParseFault;
use affc_parse::parse;
use std::alloc::Global;

/// The program that the source reads as, with the prelude or without it.
pub fn program_of(alloc: Global, source: &[u8]) -> Result<Program, Refusal>
    ensures ok { IfOk result (Reads source.now) }
    ensures counted { IfOk result IsCounted }
    ensures err { IfErr result (UnreadCause source.now) }
{
    reads_counted();
    match parse(alloc, source) {
        Ok(program) => Ok(program),
        Err(ParseFault::Memory) => Err(Refusal::Memory),
        Err(fault) => Err(Refusal::Source(fault)),
    }
}

impl From<Unread> for Refusal {
    ghost use Rattle.std.specs.Prelude.{◌≡◌};
    ghost use Rattle.affc_lines.specs.Causes.{refusal_of};

    ghost from_gives = { λ unread refusal. refusal ≡ refusal_of unread };

    fn from(unread: Unread) -> Refusal {
        match unread {
            Unread::Source(fault) => Refusal::Source(fault),
            Unread::Printed(place) => Refusal::Printed(place),
            Unread::Memory => Refusal::Memory,
        }
    }
}
