//! One source, compiled by a certificate.
ghost use Rattle.std.specs.Prelude.{ℕ, List, IfOk, IfErr};
ghost use Rattle.affc_grammar.specs.Reads.{Reads};
ghost use Rattle.affc_replay.specs.Refusals.{ReplayRefuses};
ghost use Rattle.affc_replay.specs.Replays.{ReplaysTo};
ghost use Rattle.affc_cli.specs.Replay.{ReplayTextCause};

use crate::pieces::Pieces;
use affc_ast::tree::Program;
use affc_driver::read;
use affc_lines::meaning::ranged;
use affc_lines::refusal::Refusal;
use affc_lines::schedule::unplanned;
use affc_replay::{Refusal as ReplayRefusal, Replayed, replay_program};
use std::alloc::Global;

// The refusal of a program that isn't replayed, as it is told of a source that reads as it.
fn told(alloc: Global, program: &Program, refusal: ReplayRefusal) -> Refusal
    ensures { (source : List ℕ) (schedule : List ℕ) (certificate : List ℕ) → Reads source program.now → ReplayRefuses source schedule certificate refusal → ReplayTextCause source schedule certificate result }
{
    match refusal {
        ReplayRefusal::Source(fault) => Refusal::Source(fault),
        ReplayRefusal::Printed(place) => Refusal::Printed(place),
        ReplayRefusal::Schedule(fault) => unplanned(alloc, program, &fault),
        ReplayRefusal::IteratorRange {
            statement,
            loop_number,
        } => ranged(alloc, program, statement, loop_number),
        ReplayRefusal::Certificate(fault) => Refusal::Certificate(fault),
        ReplayRefusal::Check(fault) => Refusal::Check(fault),
        ReplayRefusal::Memory => Refusal::Memory,
    }
}

/// The text that does what the source does, in the order of the schedule and on temporaries that are folded as the certificate
/// shows, or why there is none.
pub fn replay(
    alloc: Global,
    source: &[u8],
    schedule: &[u8],
    certificate: &[u8],
) -> Result<Pieces, Refusal>
    ensures ok { IfOk result (λ made. ReplaysTo source.now schedule.now certificate.now made.text.items made.report.items) }
    ensures err { IfErr result (ReplayTextCause source.now schedule.now certificate.now) }
{
    let program = read(alloc, source)?;
    match replay_program(alloc, &program, schedule, certificate) {
        Ok(Replayed { text, report }) => Ok(Pieces {
            certificate: Vec::new(alloc),
            text,
            report,
        }),
        Err(refusal) => Err(told(alloc, &program, refusal)),
    }
}
