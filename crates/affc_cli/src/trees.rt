//! The last-write trees of one source.
ghost use Rattle.std.specs.Prelude.{◌≡◌, ◌≢◌, ℕ, List, [], IfOk, IfErr};
ghost use Rattle.affc_grammar.specs.Reads.{Reads};
ghost use Rattle.affc_driver.specs.Flows.{FlowsTo};
ghost use Rattle.affc_driver.specs.Refusals.{FlowRefusalSays};
ghost use Rattle.affc_driver.specs.declared.refusal.Refusal.TheVariants.{Budget as Spent};
ghost use Rattle.affc_cli.specs.Refusal.{FlowTextCause};

use crate::pieces::Pieces;
use affc_ast::tree::Program;
use affc_driver::{Refusal as FlowRefusal, flow_program, read};
use affc_lines::meaning::{meaning, unwritten};
use affc_lines::refusal::Refusal;
use affc_split::Budget;
use std::alloc::Global;

// The refusal of a program whose trees aren't told, as it is told of a source that reads as it.
fn told(alloc: Global, program: &Program, refusal: FlowRefusal) -> Refusal
    requires says { (source : List ℕ) × FlowRefusalSays source refusal }
    requires uncounted { refusal ≢ Spent }
    ensures { (source : List ℕ) → Reads source program.now → FlowRefusalSays source refusal → FlowTextCause source result }
{
    match refusal {
        FlowRefusal::Source(fault) => Refusal::Source(fault),
        FlowRefusal::Printed(place) => Refusal::Printed(place),
        FlowRefusal::Meaning(fault) => meaning(alloc, program, &fault),
        FlowRefusal::Unwritten {
            array: _,
            access,
            p,
            instance,
        } => unwritten(alloc, program, access, p.as_slice(), &instance),
        FlowRefusal::Memory => Refusal::Memory,
        FlowRefusal::Schedule(_) => unreachable!(),
        FlowRefusal::Illegal { p: _, a: _, b: _ } => unreachable!(),
        FlowRefusal::Budget => unreachable!(),
    }
}

/// The trees of the source's loads, or why there are none.
pub fn trees(alloc: Global, source: &[u8]) -> Result<Pieces, Refusal>
    ensures ok { IfOk result (λ made. FlowsTo source.now made.text.items) }
    ensures no_report { IfOk result (λ made. made.report.items ≡ []) }
    ensures err { IfErr result (FlowTextCause source.now) }
{
    let program = read(alloc, source)?;
    let mut units = Budget::new(None);
    match flow_program(alloc, &program, &mut units) {
        Ok(text) => Ok(Pieces {
            certificate: Vec::new(alloc),
            text,
            report: Vec::new(alloc),
        }),
        Err(refusal) => Err(told(alloc, &program, refusal)),
    }
}
