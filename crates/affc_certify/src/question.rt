//! Proofs of the questions among items.
ghost use Rattle.std.specs.Prelude.{◌≡◌, IfErr, Some};
ghost use Rattle.affc_split.specs.Budgets.{IsLater};

use affc_check::list::Item;
use affc_farkas::Proof;
use affc_prove::proof_of;
use affc_split::{Budget, Stop};
use sqlite_items::Items;
use std::alloc::Global;

/// Adds the proof of an item, if it is a question.
pub(crate) fn add_item_proof(
    alloc: Global,
    item: &Item,
    budget: &mut Budget,
    out: &mut Items<Proof>,
) -> Result<(), Stop>
    ensures later { IsLater budget.old budget.new }
    ensures stop { IfErr result (λ e. e ≡ Stop.Budget → budget.new.limit ≡ Some budget.new.spent) }
{
    match item {
        Item::Question(system) => {
            let proof = proof_of(alloc, system, budget)?;
            out.push(proof)?;
            Ok(())
        }
        Item::Shown(_) => Ok(()),
    }
}
