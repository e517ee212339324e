//! A source's last-write trees, as text.
ghost use Rattle.std.specs.Prelude.{◌≡◌, ◌≤◌, IfOk, IfErr, IsNone, Some};
ghost use Rattle.affc_domain.specs.Plain.{IsPlain};
ghost use Rattle.affc_split.specs.Budgets.{IsLater};
ghost use Rattle.affc_nest.specs.Laws.{NamesArrays};
ghost use Rattle.affc_nest.specs.Nests.{nest_of};
ghost use Rattle.affc_bounds.specs.Faults.{StaysWithin};
ghost use Rattle.affc_quast.specs.Limits.{narrow, AreTreesWithin};
ghost use Rattle.affc_quast.specs.Seen.{trees_of};
ghost use Rattle.affc_report.specs.Trees.{flow_text};
ghost use Rattle.affc_schedtext.specs.Outline.{outline};
ghost use Rattle.affc_driver.specs.Flows.{FlowsTo};
ghost use Rattle.affc_driver.specs.Programs.{IsOfText, OfEachText};
ghost use Rattle.affc_driver.specs.Refusals.{FlowRefusalSays};

use crate::meaning::{nest_within, trees_within};
use crate::reading::read;
use crate::refusal::Refusal;
use affc_ast::tree::Program;
use affc_nest::Nest;
use affc_quast::Flow;
use affc_report::flow_text;
use affc_schedtext::program::outline_of;
use affc_split::Budget;
use std::alloc::{AllocError, Global};

// Trees within the limits of the search, as text.
fn trees_text(
    alloc: Global,
    program: &Program,
    nest: &Nest,
    flow: &Flow,
) -> Result<Vec<u8>, AllocError>
    requires plain { IsPlain program.now }
    requires arrays { NamesArrays program.now }
    requires nest { nest.now ≡ nest_of program.now }
    requires within { StaysWithin program.now }
    requires limits { AreTreesWithin narrow 302 12 nest.now (trees_of flow.now) }
    ensures { IfOk result (λ text. text.items ≡ flow_text (outline program.now) nest.now (trees_of flow.now)) }
{
    let outline = outline_of(alloc, program)?;
    flow_text(alloc, &outline, nest, flow)
}

/// The last-write trees of the loads of a program that was read, as text, or why there are none.
pub fn flow_program(
    alloc: Global,
    program: &Program,
    budget: &mut Budget,
) -> Result<Vec<u8>, Refusal>
    requires { IsOfText program.now }
    ensures ok { IfOk result (λ text. OfEachText program.now (λ source. FlowsTo source text.items)) }
    ensures err { IfErr result (λ refusal. OfEachText program.now (λ source. FlowRefusalSays source refusal)) }
    ensures later { IsLater budget.old budget.new }
    ensures stop { IfErr result (λ refusal. refusal ≡ Refusal.Budget → budget.new.limit ≡ Some budget.new.spent) }
{
    let nest = match nest_within(alloc, program, budget) {
        Ok(nest) => nest,
        Err(refusal) => return Err(refusal),
    };
    let flow = match trees_within(alloc, program, &nest, budget) {
        Ok(flow) => flow,
        Err(refusal) => return Err(refusal),
    };
    match trees_text(alloc, program, &nest, &flow) {
        Ok(text) => Ok(text),
        Err(_) => Err(Refusal::Memory),
    }
}

/// The last-write trees of the loads of a source, as text, or why there are none. A unit of the budget is a box of a
/// question that is opened.
pub fn flow(alloc: Global, source: &[u8], budget: &mut Budget) -> Result<Vec<u8>, Refusal>
    ensures ok { IfOk result (λ text. FlowsTo source.now text.items) }
    ensures err { IfErr result (FlowRefusalSays source.now) }
    ensures limit { budget.new.limit ≡ budget.old.limit }
    ensures grows { budget.old.spent ≤ budget.new.spent }
    ensures uncounted { IsNone budget.old.limit → budget.new.spent ≡ budget.old.spent }
    ensures stop { IfErr result (λ refusal. refusal ≡ Refusal.Budget → budget.new.limit ≡ Some budget.new.spent) }
{
    let program = read(alloc, source)?;
    flow_program(alloc, &program, budget)
}
