//! The least points of questions.
ghost use Rattle.std.specs.Prelude.{◌≡◌, length, IfOk, IfErr, Some};
ghost use Rattle.std.specs.List.{All};
ghost use Rattle.affc_system.specs.Pairs.{WithinReach};
ghost use Rattle.affc_split.specs.Budgets.{IsLater};
ghost use Rattle.affc_nest.specs.Asked.{IsNest};
ghost use Rattle.affc_bounds.specs.Looks.{IsLeastIn, ContextSays};

use affc_nest::Nest;
use affc_split::{Answer, Budget, Stop, decide};
use affc_system::{BoxOf, System};
use sqlite_items::Items;
use std::alloc::Global;

/// The least point of a question in a box, if it has one there.
pub(crate) fn least_point(
    alloc: Global,
    question: &System,
    ranges: &BoxOf,
    budget: &mut Budget,
) -> Result<Option<Items<i64>>, Stop>
    requires columns { length ranges.now ≡ question.now.columns }
    requires reach { All WithinReach ranges.now }
    ensures least { IfOk result (IsLeastIn question.now ranges.now) }
    ensures later { IsLater budget.old budget.new }
    ensures stop { IfErr result (λ e. e ≡ Stop.Budget → budget.new.limit ≡ Some budget.new.spent) }
{
    match decide(alloc, question, ranges, budget)? {
        Answer::Empty(_) => Ok(None),
        Answer::Point(point) => Ok(Some(Items::from_vec(point))),
    }
}

/// Whether some values of the parameters are in the context.
pub(crate) fn has_context(alloc: Global, nest: &Nest, budget: &mut Budget) -> Result<bool, Stop>
    requires nest { IsNest nest.now }
    ensures says { IfOk result (ContextSays nest.now) }
    ensures later { IsLater budget.old budget.new }
    ensures stop { IfErr result (λ e. e ≡ Stop.Budget → budget.new.limit ≡ Some budget.new.spent) }
{
    let point = least_point(alloc, &nest.context, &nest.params, budget)?;
    Ok(point.is_some())
}
