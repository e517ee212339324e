//! What is wrong with a program by itself, whatever its schedule: how it uses its arrays, and then its dataflow.
ghost use Rattle.std.specs.Prelude.{◌≡◌, ◌≢◌, IfOk, OnOk, IfErr, Some, None};
ghost use Rattle.affc_domain.specs.Plain.{IsPlain};
ghost use Rattle.affc_domain.specs.Ranges.{first_wide};
ghost use Rattle.affc_split.specs.Budgets.{IsLater};
ghost use Rattle.affc_nest.specs.Laws.{NamesArrays};
ghost use Rattle.affc_nest.specs.Nests.{nest_of};
ghost use Rattle.affc_bounds.specs.Faults.{StaysWithin};
ghost use Rattle.affc_quast.specs.Limits.{narrow, AreTreesWithin};
ghost use Rattle.affc_quast.specs.Seen.{trees_of};
ghost use Rattle.affc_dataflow.specs.Finds.{AreInputs};
ghost use Rattle.affc_driver.specs.Flows.{NameThroughout};
ghost use Rattle.affc_driver.specs.Programs.{OfEachPlan};
ghost use Rattle.affc_driver.specs.Refusals.{MeaningSays};

use crate::refusal::Refusal;
use affc_ast::tree::Program;
use affc_bounds::{Halt, check, nest};
use affc_dataflow::{FlowStop, find};
use affc_nest::Nest;
use affc_quast::Flow;
use affc_schedtext::Plan;
use affc_split::Budget;
use std::alloc::Global;

/// The nest of a program. No unit of a budget is spent.
pub(crate) fn nest_of(alloc: Global, program: &Program) -> Result<Nest, Refusal>
    requires plain { IsPlain program.now }
    ensures nest { IfOk result (λ nest. nest ≡ nest_of program.now) }
    ensures near { OnOk result (first_wide program.now ≡ None) }
    ensures err { IfErr result (λ refusal. (plan : Plan) → OfEachPlan program.now plan (λ text schedule. MeaningSays text schedule refusal)) }
    ensures free { IfErr result (λ refusal. refusal ≢ Refusal.Budget) }
{
    match nest(alloc, program) {
        Ok(nest) => Ok(nest),
        Err(Halt::Meaning(fault)) => Err(Refusal::Meaning(fault)),
        Err(Halt::Budget) => unreachable!(),
        Err(Halt::Memory) => Err(Refusal::Memory),
    }
}

/// Whether a program keeps to its arrays.
pub(crate) fn stays_within(
    alloc: Global,
    program: &Program,
    nest: &Nest,
    budget: &mut Budget,
) -> Result<(), Refusal>
    requires plain { IsPlain program.now }
    requires arrays { NamesArrays program.now }
    requires near { first_wide program.now ≡ None }
    requires nest { nest.now ≡ nest_of program.now }
    ensures within { OnOk result (StaysWithin program.now) }
    ensures err { IfErr result (λ refusal. (plan : Plan) → OfEachPlan program.now plan (λ text schedule. MeaningSays text schedule refusal)) }
    ensures later { IsLater budget.old budget.new }
    ensures stop { IfErr result (λ refusal. refusal ≡ Refusal.Budget → budget.new.limit ≡ Some budget.new.spent) }
{
    match check(alloc, program, nest, budget) {
        Ok(()) => Ok(()),
        Err(Halt::Meaning(fault)) => Err(Refusal::Meaning(fault)),
        Err(Halt::Budget) => Err(Refusal::Budget),
        Err(Halt::Memory) => Err(Refusal::Memory),
    }
}

/// The nest of a program that keeps to its arrays.
pub(crate) fn nest_within(
    alloc: Global,
    program: &Program,
    budget: &mut Budget,
) -> Result<Nest, Refusal>
    requires plain { IsPlain program.now }
    requires arrays { NamesArrays program.now }
    ensures nest { IfOk result (λ nest. nest ≡ nest_of program.now) }
    ensures within { OnOk result (StaysWithin program.now) }
    ensures err { IfErr result (λ refusal. (plan : Plan) → OfEachPlan program.now plan (λ text schedule. MeaningSays text schedule refusal)) }
    ensures later { IsLater budget.old budget.new }
    ensures stop { IfErr result (λ refusal. refusal ≡ Refusal.Budget → budget.new.limit ≡ Some budget.new.spent) }
{
    let nest = nest_of(alloc, program)?;
    stays_within(alloc, program, &nest, budget)?;
    Ok(nest)
}

/// The last-write trees of a program that keeps to its arrays, where each load of a temporary is written before.
pub(crate) fn trees_within(
    alloc: Global,
    program: &Program,
    nest: &Nest,
    budget: &mut Budget,
) -> Result<Flow, Refusal>
    requires plain { IsPlain program.now }
    requires arrays { NamesArrays program.now }
    requires nest { nest.now ≡ nest_of program.now }
    requires within { StaysWithin program.now }
    ensures named { IfOk result (λ flow. NameThroughout program.now (trees_of flow)) }
    ensures limits { IfOk result (λ flow. AreTreesWithin narrow 302 12 nest.now (trees_of flow)) }
    ensures inputs { IfOk result (λ flow. AreInputs nest.now (trees_of flow)) }
    ensures err { IfErr result (λ refusal. (plan : Plan) → OfEachPlan program.now plan (λ text schedule. MeaningSays text schedule refusal)) }
    ensures later { IsLater budget.old budget.new }
    ensures stop { IfErr result (λ refusal. refusal ≡ Refusal.Budget → budget.new.limit ≡ Some budget.new.spent) }
{
    match find(alloc, nest, budget) {
        Ok(flow) => Ok(flow),
        Err(
            FlowStop::Unwritten {
                array,
                access,
                p,
                instance,
            },
        ) => Err(Refusal::Unwritten {
            array,
            access,
            p,
            instance,
        }),
        Err(FlowStop::Budget) => Err(Refusal::Budget),
        Err(FlowStop::Memory) => Err(Refusal::Memory),
    }
}
