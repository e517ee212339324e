//! A source, compiled.
ghost use Rattle.std.specs.Prelude.{◌≡◌, ◌≢◌, IfOk, IfErr, IsTrue, true, List, Option, option_map, Some, None, ℕ, nat_le, Err};
ghost use Rattle.affc_ast.specs.Counted.{IsCounted};
ghost use Rattle.affc_trace.specs.Target.{IsScheduleOf, within_limits};
ghost use Rattle.affc_domain.specs.Plain.{IsPlain};
ghost use Rattle.affc_domain.specs.Ranges.{first_wide};
ghost use Rattle.affc_split.specs.Budgets.{IsLater};
ghost use Rattle.affc_nest.specs.Laws.{NamesArrays};
ghost use Rattle.affc_nest.specs.Nests.{nest_of};
ghost use Rattle.affc_bounds.specs.Faults.{StaysWithin};
ghost use Rattle.affc_basis.specs.FoldLists.{AreFoldsIn};
ghost use Rattle.affc_rewrite.specs.Rewrite.{KeepLimits};
ghost use Rattle.affc_bounds.specs.threshold.Thresholds.{threshold};
ghost use Rattle.affc_weigh.specs.Choices.{choice_of};
ghost use Rattle.affc_driver.specs.Accounts.{FoldsMade, IsShort, IsPlenty, free, is_plenty, reaches};
ghost use Rattle.affc_driver.specs.Costs.{cost_in, total_cost};
ghost use Rattle.affc_driver.specs.Made.{IsCompiled, IsMadeOf};
ghost use Rattle.affc_driver.specs.Plans.{HasPlan};
ghost use Rattle.affc_driver.specs.Programs.{IsOfText, OfEachText, OfEachPlan};
ghost use Rattle.affc_driver.specs.Refusals.{RefusalSays};

use crate::meaning::{nest_of, stays_within};
use crate::reading::read;
use crate::refusal::Refusal;
use crate::temporaries::{Compilation, Decided, folds_under};
use crate::wanted::Wanted;
use affc_ast::tree::{ArrayId, Program};
use affc_basis::Fold;
use affc_bounds::threshold::bound;
use affc_cprint::print;
use affc_foldprint::laws::{folds_are_scanned, folds_compile, folds_well_named};
use affc_grammar::laws::reads_counted;
use affc_nest::Nest;
use affc_plan::read as plan_read;
use affc_report::fold_report;
use affc_rewrite::rewrite;
use affc_scan::scan;
use affc_schedtext::program::outline_of;
use affc_schedtext::{Plan, SchedFault};
use affc_split::Budget;
use affc_trace::schedule::Schedule;
use affc_weigh::{Choice, Cost, Weigher};
use sqlite_items::Items;
use std::alloc::Global;

/// What is made of a source.
#[derive(Drop)]
pub struct Done {
    /// The compiled program, as C.
    pub text: Vec<u8>,
    /// What became of each temporary: its fold, and what is known of it.
    pub report: Vec<u8>,
    /// What the folds cost together.
    pub cost: u128,
}

/// What is made of a source, and a certificate of its folds where one is wanted.
#[derive(Drop)]
pub struct Made {
    pub done: Done,
    pub certificate: Option<Vec<u8>>,
}

/// The plan of a schedule's text; without one everything stays as it stands.
pub fn plan_of(alloc: Global, program: &Program, schedule: Option<&[u8]>) -> Result<Plan, Refusal>
    requires plain { IsPlain program.now }
    requires counted { IsCounted program.now }
    ensures planned { IfOk result (HasPlan program.now (option_map (λ t. t.now) schedule.entry)) }
    ensures err { IfErr result (λ refusal. OfEachText program.now (λ text. RefusalSays text (option_map (λ t. t.now) schedule.entry) refusal)) }
    ensures free { IfErr result (λ refusal. refusal ≢ Refusal.Budget) }
{
    let Some(text) = schedule else {
        return Ok(Plan {
            schedule: Schedule::Source,
            folds: Items::new(alloc),
        });
    };
    match plan_read(alloc, program, text) {
        Ok(plan) => Ok(plan),
        Err(SchedFault::Memory) => Err(Refusal::Memory),
        Err(fault) => Err(Refusal::Schedule(fault)),
    }
}

// What the choice of an array costs.
fn cost_of(choices: &[(ArrayId, Choice)], array: ArrayId) -> u128
    ensures { result ≡ cost_in (choice_of choices.now array.0) }
{
    for (of, choice) in choices {
        if of.0 == array.0 {
            return choice.cost;
        }
    }
    0
}

// What these folds cost together.
#[tactic(auto, using(crate::proofs::Totals::stopped_sum))]
fn total_cost(folds: &[(ArrayId, Fold)], choices: &[(ArrayId, Choice)]) -> u128
    ensures { result ≡ total_cost folds.now choices.now }
{
    match folds {
        [] => 0,
        [(array, _), folds @ ..] => {
            cost_of(choices, *array).saturating_add(total_cost(folds, choices))
        }
    }
}

/// What is printed of the loops of a legal schedule, with these folds, and told of the folds and of the components that are loose. Of a
/// fold that has no choice no cost is told, and it costs nothing.
pub fn finish(
    alloc: Global,
    program: &Program,
    nest: &Nest,
    plan: &Plan,
    folds: &[(ArrayId, Fold)],
    choices: &[(ArrayId, Choice)],
) -> Result<Done, Refusal>
    requires plain { IsPlain program.now }
    requires nest { nest.now ≡ nest_of program.now }
    requires within { StaysWithin program.now }
    requires fits { IsScheduleOf program.now plan.now.schedule }
    requires slight { IsTrue (within_limits plan.now.schedule) }
    requires in_program { AreFoldsIn program.now folds.now }
    requires limits { KeepLimits program.now folds.now }
    ensures ok { IfOk result (λ done. IsMadeOf program.now plan.now folds.now choices.now done.text.items done.report.items) }
    ensures total { IfOk result (λ done. done.cost ≡ total_cost folds.now choices.now) }
    ensures err { IfErr result (λ refusal. refusal ≡ Refusal.Memory) }
{
    folds_are_scanned();
    let other = rewrite(alloc, program, nest, folds)?;
    let scanned = scan(alloc, &other, nest, &plan.schedule)?;
    let outline = outline_of(alloc, program)?;
    let loose = scanned.loose.as_slice();
    let report = fold_report(alloc, &outline, folds, choices, loose)?;
    let cost = total_cost(folds, choices);
    match print(alloc, &scanned.program) {
        Ok(text) => Ok(Done { text, report, cost }),
        Err(_) => Err(Refusal::Memory),
    }
}

// What is made of a plain program by its plan: its arrays are looked at first, then its dataflow, then the order.
fn compile_counted<F: Cost>(
    alloc: Global,
    program: &Program,
    nest: &Nest,
    plan: &Plan,
    cost: &Weigher<F>,
    wanted: Wanted,
    budget: &mut Budget,
) -> Result<Made, Refusal>
    requires plain { IsPlain program.now }
    requires arrays { NamesArrays program.now }
    requires near { first_wide program.now ≡ None }
    requires nest { nest.now ≡ nest_of program.now }
    requires fits { IsScheduleOf program.now plan.now.schedule }
    requires slight { IsTrue (within_limits plan.now.schedule) }
    ensures ok { IfOk result (IsCompiled (F.answers cost.now.cost) program.now plan.now budget.new wanted) }
    ensures err { IfErr result (λ refusal. OfEachPlan program.now plan.now (λ text schedule. RefusalSays text schedule refusal)) }
    ensures later { IsLater budget.old budget.new }
    ensures stop { IfErr result (λ refusal. refusal ≡ Refusal.Budget → budget.new.limit ≡ Some budget.new.spent) }
{
    match stays_within(alloc, program, nest, budget) {
        Ok(()) => {}
        Err(refusal) => return Err(refusal),
    }
    let compiled = Compilation {
        program,
        nest,
        plan,
    };
    let Decided {
        folded,
        certificate,
    } = folds_under(alloc, &compiled, cost, wanted, budget)?;
    let folds = folded.folds.as_slice();
    let choices = folded.choices.as_slice();
    match finish(alloc, program, nest, plan, folds, choices) {
        Ok(done) => Ok(Made { done, certificate }),
        Err(refusal) => Err(refusal),
    }
}

// The same within no budget.
fn compile_freely<F: Cost>(
    alloc: Global,
    program: &Program,
    nest: &Nest,
    plan: &Plan,
    cost: &Weigher<F>,
    wanted: Wanted,
) -> Result<Made, Refusal>
    requires plain { IsPlain program.now }
    requires arrays { NamesArrays program.now }
    requires near { first_wide program.now ≡ None }
    requires nest { nest.now ≡ nest_of program.now }
    requires fits { IsScheduleOf program.now plan.now.schedule }
    requires slight { IsTrue (within_limits plan.now.schedule) }
    ensures ok { IfOk result (IsCompiled (F.answers cost.now.cost) program.now plan.now free wanted) }
    ensures err { IfErr result (λ refusal. OfEachPlan program.now plan.now (λ text schedule. RefusalSays text schedule refusal)) }
    ensures free { IfErr result (λ refusal. refusal ≢ Refusal.Budget) }
{
    let mut budget = Budget::new(None);
    compile_counted(alloc, program, nest, plan, cost, wanted, &mut budget)
}

// Whether so many units are at least the threshold.
fn are_plenty(nest: &Nest, schedule: &Schedule, units: u64) -> bool
    ensures { result ≡ nat_le (threshold nest.now schedule.now) units }
{
    bound(nest, schedule) <= u128::from(units)
}

// Whether a budget is.
fn is_plenty(nest: &Nest, schedule: &Schedule, budget: &Budget) -> bool
    ensures { result ≡ reaches budget.now.limit (threshold nest.now schedule.now) }
{
    match budget.limit() {
        None => false,
        Some(units) => are_plenty(nest, schedule, units),
    }
}

// The same within a budget, which counts as none where it is at least the threshold.
fn compile<F: Cost>(
    alloc: Global,
    program: &Program,
    plan: &Plan,
    cost: &Weigher<F>,
    wanted: Wanted,
    budget: &mut Budget,
) -> Result<Made, Refusal>
    requires plain { IsPlain program.now }
    requires arrays { NamesArrays program.now }
    requires fits { IsScheduleOf program.now plan.now.schedule }
    requires slight { IsTrue (within_limits plan.now.schedule) }
    ensures ok { IfOk result (λ made. OfEachPlan program.now plan.now (λ text schedule. FoldsMade (F.answers cost.now.cost) text schedule budget.new wanted made)) }
    ensures err { IfErr result (λ refusal. OfEachPlan program.now plan.now (λ text schedule. RefusalSays text schedule refusal)) }
    ensures later { IsLater budget.old budget.new }
    ensures stop { IfErr result (λ refusal. refusal ≡ Refusal.Budget → budget.new.limit ≡ Some budget.new.spent) }
    ensures short { IfErr result (λ refusal. refusal ≡ Refusal.Budget → OfEachPlan program.now plan.now (λ text schedule. IsShort text schedule budget.new.limit)) }
    ensures plenty { is_plenty program.now plan.now.schedule budget.old.limit ≡ true → budget.new ≡ budget.old }
{
    folds_well_named();
    folds_compile();
    let nest = match nest_of(alloc, program) {
        Ok(nest) => nest,
        Err(refusal) => return Err(refusal),
    };
    if is_plenty(&nest, &plan.schedule, budget) {
        return compile_freely(alloc, program, &nest, plan, cost, wanted);
    }
    compile_counted(alloc, program, &nest, plan, cost, wanted, budget)
}

/// What `fold` makes of a program that was read, in the order of a schedule whose text is read first.
pub fn fold_program<F: Cost>(
    alloc: Global,
    program: &Program,
    schedule: Option<&[u8]>,
    cost: &Weigher<F>,
    wanted: Wanted,
    budget: &mut Budget,
) -> Result<Made, Refusal>
    requires { IsOfText program.now }
    ensures ok { IfOk result (λ made. OfEachText program.now (λ text. FoldsMade (F.answers cost.now.cost) text (option_map (λ t. t.now) schedule.entry) budget.new wanted made)) }
    ensures err { IfErr result (λ refusal. OfEachText program.now (λ text. RefusalSays text (option_map (λ t. t.now) schedule.entry) refusal)) }
    ensures later { IsLater budget.old budget.new }
    ensures stop { IfErr result (λ refusal. refusal ≡ Refusal.Budget → budget.new.limit ≡ Some budget.new.spent) }
    ensures short { IfErr result (λ refusal. refusal ≡ Refusal.Budget → OfEachText program.now (λ text. IsShort text (option_map (λ t. t.now) schedule.entry) budget.new.limit)) }
    ensures plenty { OfEachText program.now (λ text. IsPlenty text (option_map (λ t. t.now) schedule.entry) budget.old.limit → budget.new ≡ budget.old) }
{
    reads_counted();
    let plan = plan_of(alloc, program, schedule)?;
    compile(alloc, program, &plan, cost, wanted, budget)
}

/// The text that does what the source does, in the order of the schedule and on temporaries that are folded at the least cost among the listed
/// bases, or why there is none. A unit of the budget is a box of a question that is opened; a budget of at least the threshold of
/// `affc_bounds::threshold` counts as none.
///
/// A certificate, where one is wanted, `affc_accept` accepts for the source's nest and the schedule's plan. The trees of its loads are
/// then looked for also where there are no temporaries, and all that doesn't rest on the folds is proved before they are looked for: the
/// budget refuses up to there, and afterwards temporaries are left whole.
pub fn fold<F: Cost>(
    alloc: Global,
    source: &[u8],
    schedule: Option<&[u8]>,
    cost: &Weigher<F>,
    wanted: Wanted,
    budget: &mut Budget,
) -> Result<Made, Refusal>
    ensures ok { IfOk result (FoldsMade (F.answers cost.now.cost) source.now (option_map (λ t. t.now) schedule.entry) budget.new wanted) }
    ensures err { IfErr result (RefusalSays source.now (option_map (λ t. t.now) schedule.entry)) }
    ensures later { IsLater budget.old budget.new }
    ensures stop { IfErr result (λ refusal. refusal ≡ Refusal.Budget → budget.new.limit ≡ Some budget.new.spent) }
    ensures short { IfErr result (λ refusal. refusal ≡ Refusal.Budget → IsShort source.now (option_map (λ t. t.now) schedule.entry) budget.new.limit) }
    ensures plenty { IsPlenty source.now (option_map (λ t. t.now) schedule.entry) budget.old.limit → budget.new ≡ budget.old }
{
    let program = read(alloc, source)?;
    fold_program(alloc, &program, schedule, cost, wanted, budget)
}
