//! The folds of a program's temporaries under the schedule of its plan, once its dataflow and the order are looked at.
ghost use Rattle.std.specs.Prelude.{◌≡◌, IfOk, OnOk, IfErr, Some, option_map};
ghost use Rattle.affc_trace.specs.Dataflow.{LivePair};
ghost use Rattle.affc_split.specs.Budgets.{IsLater};
ghost use Rattle.affc_quast.specs.Limits.{narrow, AreTreesWithin};
ghost use Rattle.affc_quast.specs.Seen.{trees_of};
ghost use Rattle.affc_folds.specs.Folding.{AreFoldsUnder};
ghost use Rattle.affc_driver.specs.Certificates.{HasCertificate};
ghost use Rattle.affc_driver.specs.Compilations.{IsCompilation};
ghost use Rattle.affc_driver.specs.Flows.{NameThroughout};
ghost use Rattle.affc_driver.specs.Made.{AreDecided};
ghost use Rattle.affc_driver.specs.Plans.{LegalThroughout, WrittenThroughout};
ghost use Rattle.affc_driver.specs.Programs.{OfEachText, OfEachPlan};
ghost use Rattle.affc_driver.specs.Refusals.{RefusalSays};

use crate::meaning::trees_within;
use crate::refusal::Refusal;
use crate::wanted::Wanted;
use affc_ast::tree::Program;
use affc_certify::{CertDraft, Certified, certify, make_draft};
use affc_folds::{Folded, fold_all};
use affc_legal::{SchedStop, legal};
use affc_nest::Nest;
use affc_quast::Flow;
use affc_schedtext::Plan;
use affc_split::{Budget, Stop};
use affc_weigh::{Cost, Weigher};
use sqlite_items::Items;
use std::alloc::Global;

/// What is compiled: a plain program that keeps to its arrays, its nest, and a plan of it.
#[derive(Clone, Copy, Drop)]
pub(crate) struct Compilation<'a> {
    pub(crate) program: &'a Program,
    pub(crate) nest: &'a Nest,
    pub(crate) plan: &'a Plan,
}

/// The folds of a program, and a certificate of them where one is wanted.
#[derive(Drop)]
pub(crate) struct Decided {
    pub(crate) folded: Folded,
    pub(crate) certificate: Option<Vec<u8>>,
}

// Whether the plan's schedule is legal.
fn in_order(alloc: Global, compiled: &Compilation<'_>, budget: &mut Budget) -> Result<(), Refusal>
    requires compiled { IsCompilation compiled.now.program.now compiled.now.nest.now compiled.now.plan.now }
    requires written { OfEachText compiled.now.program.now (λ text. WrittenThroughout compiled.now.program.now) }
    ensures legal { OnOk result (LegalThroughout compiled.now.program.now compiled.now.plan.now.schedule) }
    ensures err { IfErr result (λ refusal. OfEachPlan compiled.now.program.now compiled.now.plan.now (λ text schedule. RefusalSays text schedule refusal)) }
    ensures later { IsLater budget.old budget.new }
    ensures stop { IfErr result (λ refusal. refusal ≡ Refusal.Budget → budget.new.limit ≡ Some budget.new.spent) }
{
    match legal(alloc, compiled.nest, &compiled.plan.schedule, budget) {
        Ok(_) => Ok(()),
        Err(SchedStop::Illegal { p, a, b }) => Err(Refusal::Illegal { p, a, b }),
        Err(SchedStop::Budget) => Err(Refusal::Budget),
        Err(SchedStop::Memory) => Err(Refusal::Memory),
    }
}

// The folds, where these trees name the sources of all loads and the plan's schedule is legal.
fn folds_of<F: Cost>(
    alloc: Global,
    compiled: &Compilation<'_>,
    flow: &Flow,
    cost: &Weigher<F>,
    budget: &mut Budget,
) -> Result<Folded, Refusal>
    requires compiled { IsCompilation compiled.now.program.now compiled.now.nest.now compiled.now.plan.now }
    requires named { NameThroughout compiled.now.program.now (trees_of flow.now) }
    requires limits { AreTreesWithin narrow 302 12 compiled.now.nest.now (trees_of flow.now) }
    ensures folds { IfOk result (λ folded. AreFoldsUnder (F.answers cost.now.cost) compiled.now.program.now (LivePair compiled.now.program.now compiled.now.plan.now.schedule) compiled.now.plan.now.folds budget.new folded.folds folded.choices) }
    ensures err { IfErr result (λ refusal. refusal ≡ Refusal.Memory) }
    ensures later { IsLater budget.old budget.new }
{
    let schedule = &compiled.plan.schedule;
    let bases = compiled.plan.folds.as_slice();
    match fold_all(
        alloc,
        compiled.program,
        compiled.nest,
        flow,
        schedule,
        bases,
        cost,
        budget,
    ) {
        Ok(folded) => Ok(folded),
        Err(_) => Err(Refusal::Memory),
    }
}

// The last-write trees, where the plan's schedule is legal too.
fn trees_in_order(
    alloc: Global,
    compiled: &Compilation<'_>,
    budget: &mut Budget,
) -> Result<Flow, Refusal>
    requires compiled { IsCompilation compiled.now.program.now compiled.now.nest.now compiled.now.plan.now }
    ensures named { IfOk result (λ flow. NameThroughout compiled.now.program.now (trees_of flow)) }
    ensures limits { IfOk result (λ flow. AreTreesWithin narrow 302 12 compiled.now.nest.now (trees_of flow)) }
    ensures legal { OnOk result (LegalThroughout compiled.now.program.now compiled.now.plan.now.schedule) }
    ensures err { IfErr result (λ refusal. OfEachPlan compiled.now.program.now compiled.now.plan.now (λ text schedule. RefusalSays text schedule refusal)) }
    ensures later { IsLater budget.old budget.new }
    ensures stop { IfErr result (λ refusal. refusal ≡ Refusal.Budget → budget.new.limit ≡ Some budget.new.spent) }
{
    let flow = match trees_within(alloc, compiled.program, compiled.nest, budget) {
        Ok(flow) => flow,
        Err(refusal) => return Err(refusal),
    };
    in_order(alloc, compiled, budget)?;
    Ok(flow)
}

// The folds alone. Where there are no temporaries no trees are looked for, and there is nothing to fold.
fn folds_alone<F: Cost>(
    alloc: Global,
    compiled: &Compilation<'_>,
    cost: &Weigher<F>,
    budget: &mut Budget,
) -> Result<Folded, Refusal>
    requires compiled { IsCompilation compiled.now.program.now compiled.now.nest.now compiled.now.plan.now }
    ensures decided { IfOk result (λ folded. AreDecided (F.answers cost.now.cost) compiled.now.program.now compiled.now.plan.now budget.new folded.folds folded.choices) }
    ensures err { IfErr result (λ refusal. OfEachPlan compiled.now.program.now compiled.now.plan.now (λ text schedule. RefusalSays text schedule refusal)) }
    ensures later { IsLater budget.old budget.new }
    ensures stop { IfErr result (λ refusal. refusal ≡ Refusal.Budget → budget.new.limit ≡ Some budget.new.spent) }
{
    if compiled.program.temps.as_slice().is_empty() {
        in_order(alloc, compiled, budget)?;
        let folds = Items::new(alloc);
        let choices = Items::new(alloc);
        return Ok(Folded { folds, choices });
    }
    let flow = trees_in_order(alloc, compiled, budget)?;
    folds_of(alloc, compiled, &flow, cost, budget)
}

// What is proved for a certificate before the folds are looked for.
fn drafted(
    alloc: Global,
    compiled: &Compilation<'_>,
    flow: &Flow,
    budget: &mut Budget,
) -> Result<CertDraft, Refusal>
    requires compiled { IsCompilation compiled.now.program.now compiled.now.nest.now compiled.now.plan.now }
    requires limits { AreTreesWithin narrow 302 12 compiled.now.nest.now (trees_of flow.now) }
    ensures err { IfErr result (λ refusal. OfEachPlan compiled.now.program.now compiled.now.plan.now (λ text schedule. RefusalSays text schedule refusal)) }
    ensures later { IsLater budget.old budget.new }
    ensures stop { IfErr result (λ refusal. refusal ≡ Refusal.Budget → budget.new.limit ≡ Some budget.new.spent) }
{
    match make_draft(alloc, compiled.nest, flow, &compiled.plan.schedule, budget) {
        Ok(draft) => Ok(draft),
        Err(Stop::Budget) => Err(Refusal::Budget),
        Err(Stop::Memory) => Err(Refusal::Memory),
    }
}

// The folds and a certificate of them, without those whose questions aren't proved before the budget ends. What doesn't rest on the
// folds is proved before they are looked for.
fn certified_folds<F: Cost>(
    alloc: Global,
    compiled: &Compilation<'_>,
    cost: &Weigher<F>,
    budget: &mut Budget,
) -> Result<Decided, Refusal>
    requires compiled { IsCompilation compiled.now.program.now compiled.now.nest.now compiled.now.plan.now }
    ensures decided { IfOk result (λ d. AreDecided (F.answers cost.now.cost) compiled.now.program.now compiled.now.plan.now budget.new d.folded.folds d.folded.choices) }
    ensures certified { IfOk result (λ d. HasCertificate Wanted.Certificate compiled.now.nest.now compiled.now.plan.now (option_map (λ t. t.items) d.certificate) d.folded.folds) }
    ensures err { IfErr result (λ refusal. OfEachPlan compiled.now.program.now compiled.now.plan.now (λ text schedule. RefusalSays text schedule refusal)) }
    ensures later { IsLater budget.old budget.new }
    ensures stop { IfErr result (λ refusal. refusal ≡ Refusal.Budget → budget.new.limit ≡ Some budget.new.spent) }
{
    let flow = trees_in_order(alloc, compiled, budget)?;
    let draft = drafted(alloc, compiled, &flow, budget)?;
    let Folded { folds, choices } = folds_of(alloc, compiled, &flow, cost, budget)?;
    match certify(
        alloc,
        compiled.nest,
        compiled.plan,
        flow,
        draft,
        folds,
        budget,
    ) {
        Ok(Certified { text, folds }) => Ok(Decided {
            folded: Folded { folds, choices },
            certificate: Some(text),
        }),
        Err(_) => Err(Refusal::Memory),
    }
}

/// The folds of a program that keeps to its arrays, and a certificate of them where one is wanted: its dataflow is looked at first,
/// and then the order.
pub(crate) fn folds_under<F: Cost>(
    alloc: Global,
    compiled: &Compilation<'_>,
    cost: &Weigher<F>,
    wanted: Wanted,
    budget: &mut Budget,
) -> Result<Decided, Refusal>
    requires compiled { IsCompilation compiled.now.program.now compiled.now.nest.now compiled.now.plan.now }
    ensures decided { IfOk result (λ d. AreDecided (F.answers cost.now.cost) compiled.now.program.now compiled.now.plan.now budget.new d.folded.folds d.folded.choices) }
    ensures certified { IfOk result (λ d. HasCertificate wanted compiled.now.nest.now compiled.now.plan.now (option_map (λ t. t.items) d.certificate) d.folded.folds) }
    ensures err { IfErr result (λ refusal. OfEachPlan compiled.now.program.now compiled.now.plan.now (λ text schedule. RefusalSays text schedule refusal)) }
    ensures later { IsLater budget.old budget.new }
    ensures stop { IfErr result (λ refusal. refusal ≡ Refusal.Budget → budget.new.limit ≡ Some budget.new.spent) }
{
    match wanted {
        Wanted::Text => {
            let folded = folds_alone(alloc, compiled, cost, budget)?;
            Ok(Decided {
                folded,
                certificate: None,
            })
        }
        Wanted::Certificate => certified_folds(alloc, compiled, cost, budget),
    }
}
