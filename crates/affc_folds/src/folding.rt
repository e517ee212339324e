//! The folds of all temporaries.
ghost use Rattle.std.specs.Prelude.{◌≡◌, ◌+◌, ◌≤◌, IfOk, IfErr, OnOk, Some, length, drop, slice_get};
ghost use Rattle.affc_ast.specs.Meaning.{arrays_of};
ghost use Rattle.affc_trace.specs.Dataflow.{LivePair};
ghost use Rattle.affc_split.specs.Budgets.{IsLater};
ghost use Rattle.affc_quast.specs.Seen.{trees_of};
ghost use Rattle.affc_weigh.specs.Costs.{NeverFalls};
ghost use Rattle.affc_folds.specs.Folding.{IsAnalysed, AreFoldsBelow, AreFoldsUnder};

use crate::asked::Compilation;
use crate::tries::fold_array;
use affc_ast::tree::{ArrayId, Program};
use affc_basis::{Basis, Fold};
use affc_nest::{ArrayInfo, Nest};
use affc_quast::Flow;
use affc_split::{Budget, Stop};
use affc_trace::schedule::Schedule;
use affc_weigh::{Choice, Cost, Weigher};
use sqlite_items::Items;
use std::alloc::Global;

/// The folds of a program's temporaries, in order of declaration, and what is told of each.
#[derive(Drop)]
pub struct Folded {
    pub folds: Items<(ArrayId, Fold)>,
    pub choices: Items<(ArrayId, Choice)>,
}

/// Adds the fold of an array, unless the budget ends first.
fn add_fold<F: Cost>(
    alloc: Global,
    asked: &Compilation<'_>,
    array: ArrayId,
    info: &ArrayInfo,
    cost: &Weigher<F>,
    budget: &mut Budget,
    folded: &mut Folded,
) -> Result<(), Stop>
    requires analysed { IsAnalysed asked.now.program.now asked.now.nest.now (trees_of asked.now.flow.now) asked.now.schedule.now }
    requires there { slice_get asked.now.nest.now.arrays array.0 ≡ Some info.now }
    requires temporary { length (arrays_of asked.now.program.now.params) ≤ array.0 }
    requires below { AreFoldsBelow (F.answers cost.now.cost) asked.now.program.now (LivePair asked.now.program.now asked.now.schedule.now) asked.now.bases.now budget.old array.0 folded.old.folds folded.old.choices }
    ensures more { OnOk result (AreFoldsBelow (F.answers cost.now.cost) asked.now.program.now (LivePair asked.now.program.now asked.now.schedule.now) asked.now.bases.now budget.new (array.0 + 1) folded.new.folds folded.new.choices) }
    ensures later { IsLater budget.old budget.new }
    ensures stop { IfErr result (λ e. e ≡ Stop.Memory) }
{
    match fold_array(alloc, asked, array, info, cost, budget)? {
        Some((fold, choice)) => {
            folded.folds.push((array, fold))?;
            folded.choices.push((array, choice))?;
            Ok(())
        }
        None => Ok(()),
    }
}

/// Adds the folds of these arrays, of which the first has this number. Past 2^32 arrays there is no memory for them.
fn add_folds<F: Cost>(
    alloc: Global,
    asked: &Compilation<'_>,
    first: u32,
    arrays: &[ArrayInfo],
    cost: &Weigher<F>,
    budget: &mut Budget,
    folded: &mut Folded,
) -> Result<(), Stop>
    requires analysed { IsAnalysed asked.now.program.now asked.now.nest.now (trees_of asked.now.flow.now) asked.now.schedule.now }
    requires rest { arrays.now ≡ drop first asked.now.nest.now.arrays }
    requires temporaries { length (arrays_of asked.now.program.now.params) ≤ first }
    requires below { AreFoldsBelow (F.answers cost.now.cost) asked.now.program.now (LivePair asked.now.program.now asked.now.schedule.now) asked.now.bases.now budget.old first folded.old.folds folded.old.choices }
    ensures all { OnOk result (AreFoldsBelow (F.answers cost.now.cost) asked.now.program.now (LivePair asked.now.program.now asked.now.schedule.now) asked.now.bases.now budget.new (first + length arrays.now) folded.new.folds folded.new.choices) }
    ensures later { IsLater budget.old budget.new }
    ensures stop { IfErr result (λ e. e ≡ Stop.Memory) }
{
    match arrays {
        [] => Ok(()),
        [info, rest @ ..] => {
            add_fold(alloc, asked, ArrayId(first), info, cost, budget, folded)?;
            let Some(next) = first.checked_add(1) else {
                return Err(Stop::Memory);
            };
            add_folds(alloc, asked, next, rest, cost, budget, folded)
        }
    }
}

/// The folds of a program's temporaries under a schedule, in order of declaration, and what is told of each. An array is left whole,
/// without a fold, where the budget ends before its first modulus is found.
///
/// A given basis is that of the first pair with the array, and is taken where it has a row for each dimension. Otherwise all
/// listed bases are tried.
#[tactic(auto, using(crate::proofs::FoldLemmas::enough_arrays, crate::proofs::FoldLemmas::first_is, crate::proofs::FoldLemmas::arrays_are, crate::proofs::ListLemmas::none_yet))]
pub fn fold_all<F: Cost>(
    alloc: Global,
    program: &Program,
    nest: &Nest,
    flow: &Flow,
    schedule: &Schedule,
    bases: &[(ArrayId, Basis)],
    cost: &Weigher<F>,
    budget: &mut Budget,
) -> Result<Folded, Stop>
    requires analysed { IsAnalysed program.now nest.now (trees_of flow.now) schedule.now }
    ensures folds { IfOk result (λ folded. AreFoldsUnder (F.answers cost.now.cost) program.now (LivePair program.now schedule.now) bases.now budget.new folded.folds folded.choices) }
    ensures later { IsLater budget.old budget.new }
    ensures stop { IfErr result (λ e. e ≡ Stop.Memory) }
{
    let arrays = nest.arrays.as_slice();
    let given = arrays.len() - program.temps.len();
    let Ok(first) = u32::try_from(given) else {
        return Err(Stop::Memory);
    };
    let (_given, temporaries) = arrays.split_at(given);
    let asked = Compilation {
        program,
        nest,
        flow,
        schedule,
        bases,
    };
    let folds = Items::new(alloc);
    let choices = Items::new(alloc);
    let mut folded = Folded { folds, choices };
    add_folds(alloc, &asked, first, temporaries, cost, budget, &mut folded)?;
    Ok(folded)
}
