//! The question whether there is a point, where any will do.
ghost use Rattle.std.specs.Prelude.{◌≡◌, ℕ, ℤ, List, ◌+◌, ◌*◌, ◌≤◌, ◌⊎◌, IfOk, IfErr, IfSome, IsTrue, ◌↔◌, OnOk, OnErr, Some, Err, length};
ghost use Rattle.std.specs.List.{All};
ghost use Rattle.affc_system.specs.Systems.{IsPoint};
ghost use Rattle.affc_system.specs.Boxes.{IsBox, InBox};
ghost use Rattle.affc_system.specs.Pairs.{WithinReach};
ghost use Rattle.affc_farkas.specs.Proofs.{ValidProof};
ghost use Rattle.affc_leaf.specs.Boxed.{with_box, SplitsAtZero, IsLeafProof, IsHard};
ghost use Rattle.affc_leaf.specs.Points.{points, low_corner};
ghost use Rattle.affc_split.specs.Answers.{IfEmpty, IfPoint};
ghost use Rattle.affc_split.specs.Budgets.{IsLater};

use crate::budget::{Budget, Stop};
use crate::decision::{decide, next_row, whole};
use crate::search::Answer;
use affc_leaf::flat::{Met, found_flat};
use affc_system::{BoxOf, System};
use std::alloc::Global;

/// How many boxes are opened for the least point before any point is looked for.
const FEW_BOXES: u64 = 3;

/// Whether a point lies in a box.
pub fn lies_in(point: &[i64], ranges: &[(i64, i64)]) -> bool
    ensures { IsTrue result ↔ InBox ranges.now point.now }
{
    match ranges {
        [] => point.is_empty(),
        [range, ranges @ ..] => match point {
            [] => false,
            [x, point @ ..] => range.0 <= *x && *x <= range.1 && lies_in(point, ranges),
        },
    }
}

/// The point, where it is one of the system in the box.
fn tested_point(system: &System, ranges: &[(i64, i64)], point: Vec<i64>) -> Option<Answer>
    requires { length ranges.now ≡ system.now.columns }
    ensures inside { IfSome result (λ a. IfPoint a (InBox ranges.now)) }
    ensures point { IfSome result (λ a. IfPoint a (IsPoint system.now)) }
    ensures none { IfSome result (λ a. IfEmpty a (λ _. ⊥)) }
{
    if point.len() == system.columns() as usize
        && lies_in(point.as_slice(), ranges)
        && system.holds_at(point.as_slice())
    {
        Some(Answer::Point(point))
    } else {
        None
    }
}

/// A proof that the box has no point of the system, or a point, where one is found by splits on forms that take few values.
fn flat_answer(
    alloc: Global,
    system: &System,
    ranges: &[(i64, i64)],
) -> Result<Option<Answer>, Stop>
    requires columns { length ranges.now ≡ system.now.columns }
    requires ordered { IsBox ranges.now }
    requires reach { All WithinReach ranges.now }
    ensures none { IfOk result (λ o. IfSome o (λ a. IfEmpty a (λ _. (x : List ℤ) → InBox ranges.now x → IsPoint system.now x → ⊥))) }
    ensures empty { IfOk result (λ o. IfSome o (λ a. IfEmpty a (λ p. ValidProof (with_box system.now ranges.now) p))) }
    ensures plain { IfOk result (λ o. IfSome o (λ a. IfEmpty a SplitsAtZero)) }
    ensures inside { IfOk result (λ o. IfSome o (λ a. IfPoint a (InBox ranges.now))) }
    ensures point { IfOk result (λ o. IfSome o (λ a. IfPoint a (IsPoint system.now))) }
    ensures memory { OnErr result (result ≡ Err Stop.Memory) }
{
    let bounds = whole(alloc, system, ranges)?;
    let next = next_row(system);
    match found_flat(alloc, system, bounds.as_slice(), next)? {
        Some(Met::Empty(proof)) => Ok(Some(Answer::Empty(Box::into_inner(proof)))),
        Some(Met::Point(point)) => Ok(tested_point(system, ranges, point)),
        None => Ok(None),
    }
}

/// What splits on forms that take few values find, and else the decision.
fn found_otherwise(
    alloc: Global,
    system: &System,
    ranges: &BoxOf,
    budget: &mut Budget,
) -> Result<Answer, Stop>
    requires columns { length ranges.now ≡ system.now.columns }
    requires reach { All WithinReach ranges.now }
    ensures none { IfOk result (λ a. IfEmpty a (λ _. (x : List ℤ) → InBox ranges.now x → IsPoint system.now x → ⊥)) }
    ensures empty { IfOk result (λ a. IfEmpty a (λ p. ValidProof (with_box system.now ranges.now) p)) }
    ensures plain { IfOk result (λ a. IfEmpty a SplitsAtZero) }
    ensures inside { IfOk result (λ a. IfPoint a (InBox ranges.now)) }
    ensures point { IfOk result (λ a. IfPoint a (IsPoint system.now)) }
    ensures later { IsLater budget.old budget.new }
    ensures cost { budget.new.spent ≤ budget.old.spent + 2 * points ranges.now }
    ensures stop { IfErr result (λ e. e ≡ Stop.Budget → budget.new.limit ≡ Some budget.new.spent) }
{
    match flat_answer(alloc, system, ranges.ranges())? {
        Some(answer) => Ok(answer),
        None => decide(alloc, system, ranges, budget),
    }
}

/// Whether the system has an integer point in the box: a proof that it has none, or a point, which needn't be the least one. Where
/// the least one takes long, another is often found soon.
///
/// The rows of the box come after those of the system, as in `decide`.
pub fn decide_any(
    alloc: Global,
    system: &System,
    ranges: &BoxOf,
    budget: &mut Budget,
) -> Result<Answer, Stop>
    requires columns { length ranges.now ≡ system.now.columns }
    requires reach { All WithinReach ranges.now }
    ensures none { IfOk result (λ a. IfEmpty a (λ _. (x : List ℤ) → InBox ranges.now x → IsPoint system.now x → ⊥)) }
    ensures empty { IfOk result (λ a. IfEmpty a (λ p. ValidProof (with_box system.now ranges.now) p)) }
    ensures inside { IfOk result (λ a. IfPoint a (InBox ranges.now)) }
    ensures point { IfOk result (λ a. IfPoint a (IsPoint system.now)) }
    ensures plain { IfOk result (λ a. IfEmpty a SplitsAtZero) }
    ensures leaf { length system.now.rows + 2 * system.now.columns ≤ 1024 → IfOk result (λ a. IfEmpty a (λ p. IsLeafProof p ⊎ IsHard (with_box system.now ranges.now))) }

    // The budget.
    ensures later { IsLater budget.old budget.new }
    ensures counted { OnOk result ((l : ℕ) → budget.old.limit ≡ Some l → budget.old.spent + 1 ≤ budget.new.spent) }
    ensures cost { budget.new.spent ≤ budget.old.spent + (3 + 2 * points ranges.now) }
    ensures unit { length system.now.rows + 2 * system.now.columns ≤ 1024 → (budget.new.spent ≤ budget.old.spent + 1) ⊎ IsHard (with_box system.now ranges.now) }
    ensures corner { IsPoint system.now (low_corner ranges.now) → budget.new.spent ≤ budget.old.spent + 1 }
    ensures first { budget.old.limit ≡ Some budget.old.spent → result ≡ Err Stop.Budget }
    ensures stop { IfErr result (λ e. e ≡ Stop.Budget → budget.new.limit ≡ Some budget.new.spent) }
    ensures hard { length system.now.rows + 2 * system.now.columns ≤ 1024 → IfErr result (λ e. e ≡ Stop.Budget → (budget.old.limit ≡ Some budget.old.spent) ⊎ IsHard (with_box system.now ranges.now)) }
    ensures corner_stop { IfErr result (λ e. e ≡ Stop.Budget → IsPoint system.now (low_corner ranges.now) → budget.old.limit ≡ Some budget.old.spent) }
{
    if budget.is_spent() {
        return Err(Stop::Budget);
    }
    let mut few = budget.part(FEW_BOXES);
    let early = decide(alloc, system, ranges, &mut few);
    budget.charge(&few);
    match early {
        Ok(answer) => Ok(answer),
        Err(Stop::Memory) => Err(Stop::Memory),
        Err(Stop::Budget) => found_otherwise(alloc, system, ranges, budget),
    }
}
