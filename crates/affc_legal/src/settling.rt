//! All questions, one after the other.
ghost use Rattle.std.specs.Prelude.{◌≡◌, ◌++◌, [], ◌∷◌, Some, length, map, IfOk, IfErr};
ghost use Rattle.std.specs.List.{All};
ghost use Rattle.affc_split.specs.Budgets.{IsLater};
ghost use Rattle.affc_legal.specs.Answered.{AreAnswered, AreRanges, question_on};
ghost use Rattle.affc_sched.specs.Legality.{IsAsked};
ghost use Rattle.affc_sched.specs.Pairs.{IsPair, asked_of};
ghost use Rattle.affc_sched.specs.Questions.{legality_questions};
ghost use Rattle.affc_sched.specs.Touched.{Each};

use crate::violation::{Violation, nearer, violation_at};
use affc_farkas::Proof;
use affc_nest::{Entry, Nest};
use affc_sched::{Pair, asked_pairs, pair_group};
use affc_split::{Answer, Budget, Stop, decide};
use affc_system::{BoxOf, System};
use affc_trace::schedule::Schedule;
use std::alloc::{AllocError, Global};

/// Answers one question.
fn settle_one(
    alloc: Global,
    nest: &Nest,
    pair: &Pair<'_>,
    ranges: &BoxOf,
    system: &System,
    budget: &mut Budget,
    out: &mut Vec<Proof>,
) -> Result<Option<Violation>, Stop>
    requires ranges { AreRanges nest.now pair.now.from.entry.now pair.now.to.entry.now ranges.now }
    requires columns { length ranges.now ≡ system.now.columns }
    ensures answered { IfOk result (AreAnswered nest.now (question_on pair.now.from.entry.now pair.now.to.entry.now ranges.now system.now ∷ []) out.old.items out.new.items) }
    ensures later { IsLater budget.old budget.new }
    ensures stop { IfErr result (λ e. e ≡ Stop.Budget → budget.new.limit ≡ Some budget.new.spent) }
{
    match decide(alloc, system, ranges, budget)? {
        Answer::Empty(proof) => {
            let Ok(()) = out.push(proof) else {
                return Err(Stop::Memory);
            };
            Ok(None)
        }
        Answer::Point(point) => {
            let (first, second) = (pair.from.entry, pair.to.entry);
            let found = violation_at(alloc, nest, first, second, point.as_slice())?;
            Ok(Some(found))
        }
    }
}

/// Answers the questions of these systems.
fn settle_systems(
    alloc: Global,
    nest: &Nest,
    pair: &Pair<'_>,
    ranges: &BoxOf,
    systems: &[System],
    budget: &mut Budget,
    out: &mut Vec<Proof>,
) -> Result<Option<Violation>, Stop>
    requires ranges { AreRanges nest.now pair.now.from.entry.now pair.now.to.entry.now ranges.now }
    requires columns { Each (λ s. length ranges.now ≡ s.columns) systems.now }
    ensures answered { IfOk result (AreAnswered nest.now (map (question_on pair.now.from.entry.now pair.now.to.entry.now ranges.now) systems.now) out.old.items out.new.items) }
    ensures later { IsLater budget.old budget.new }
    ensures stop { IfErr result (λ e. e ≡ Stop.Budget → budget.new.limit ≡ Some budget.new.spent) }
{
    match systems {
        [] => Ok(None),
        [system, rest @ ..] => {
            let here = settle_one(alloc, nest, pair, ranges, system, budget, out)?;
            let others = settle_systems(alloc, nest, pair, ranges, rest, budget, out)?;
            Ok(nearer(here, others))
        }
    }
}

/// The ranges of the parameters, of the first's coordinates and of the second's.
#[tactic(auto, using(affc_trace::proofs::EndedReads::append_assoc))]
fn pair_ranges(nest: &Nest, a: &Entry, b: &Entry) -> Result<BoxOf, AllocError>
    ensures { IfOk result (λ r. r ≡ nest.now.params ++ (a.now.ranges ++ b.now.ranges)) }
{
    let mut out = nest.params.clone()?;
    out.append(a.ranges.ranges())?;
    out.append(b.ranges.ranges())?;
    Ok(out)
}

/// Answers the questions of two accesses.
fn settle_pair(
    alloc: Global,
    nest: &Nest,
    schedule: &Schedule,
    pair: &Pair<'_>,
    budget: &mut Budget,
    out: &mut Vec<Proof>,
) -> Result<Option<Violation>, Stop>
    requires asked { IsAsked nest.now schedule.now }
    requires pair { IsPair nest.now pair.now }
    ensures answered { IfOk result (AreAnswered nest.now (asked_of nest.now schedule.now pair.now) out.old.items out.new.items) }
    ensures later { IsLater budget.old budget.new }
    ensures stop { IfErr result (λ e. e ≡ Stop.Budget → budget.new.limit ≡ Some budget.new.spent) }
{
    let Some(group) = pair_group(alloc, nest, schedule, pair)? else {
        return Ok(None);
    };
    let systems = group.systems(alloc)?;
    let ranges = pair_ranges(nest, pair.from.entry, pair.to.entry)?;
    settle_systems(alloc, nest, pair, &ranges, systems.as_slice(), budget, out)
}

/// Answers all questions on a schedule.
pub(crate) fn settle(
    alloc: Global,
    nest: &Nest,
    schedule: &Schedule,
    budget: &mut Budget,
    out: &mut Vec<Proof>,
) -> Result<Option<Violation>, Stop>
    requires asked { IsAsked nest.now schedule.now }
    ensures answered { IfOk result (AreAnswered nest.now (legality_questions nest.now schedule.now) out.old.items out.new.items) }
    ensures later { IsLater budget.old budget.new }
    ensures stop { IfErr result (λ e. e ≡ Stop.Budget → budget.new.limit ≡ Some budget.new.spent) }
{
    let pairs = asked_pairs(alloc, nest, schedule)?;
    let mut found = None;
    for pair in pairs.as_slice() {
        let here = settle_pair(alloc, nest, schedule, pair, budget, out)?;
        found = nearer(found, here);
    }
    Ok(found)
}
