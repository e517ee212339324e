//! Trees of conditions.

ghost use Rattle.std.specs.Prelude.{◌≡◌, map};
ghost use Rattle.affc_grammar.specs.Draft as d;
ghost use Rattle.affc_grammar.specs.Names as names;
ghost use Rattle.affc_syntax.specs.draft.Drafts as seen;
ghost use Rattle.affc_names.specs.Stored as stored;
ghost use Rattle.affc_names.specs.Gives.{Gives};

use crate::fault::NameFault;
use crate::index::{ix_tree, stored};
use crate::scope::Scope;
use affc_ast::Items;
use affc_ast::tree::{Compare, Cond};
use affc_syntax::draft::draft::{CompareDraft, CondDraft, IxDraft};
use std::alloc::Global;

pub(crate) fn compare_tree(
    alloc: Global,
    scope: &Scope,
    draft: &CompareDraft,
) -> Result<Compare, NameFault>
    ensures { Gives result (names.compare_tree scope.now (stored.compare (seen.compare draft.now))) }
{
    let left = ix_tree(alloc, scope, &draft.left)?;
    let right = ix_tree(alloc, scope, &draft.right)?;
    Ok(Compare {
        rel: draft.rel,
        left,
        right,
    })
}

/// Each of the comparisons of a line, in order.
#[tactic(auto, using(crate::proofs::Each::each_turn, crate::proofs::Each::each_stops))]
pub(crate) fn compare_trees(
    alloc: Global,
    scope: &Scope,
    drafts: &[CompareDraft],
) -> Result<Items<Compare>, NameFault>
    ensures { Gives result (names.each (names.compare_tree scope.now) (map stored.compare (map seen.compare drafts.now))) }
{
    let mut trees = Items::new(alloc);
    for draft in drafts {
        let tree = compare_tree(alloc, scope, draft)?;
        trees.push(tree)?;
    }
    Ok(trees)
}

fn comparison_tree(alloc: Global, scope: &Scope, draft: &CompareDraft) -> Result<Cond, NameFault>
    ensures { Gives result (names.cond_tree scope.now (stored.cond (d.comparison (seen.compare draft.now)))) }
{
    let left = ix_tree(alloc, scope, &draft.left)?;
    let right = ix_tree(alloc, scope, &draft.right)?;
    Ok(Cond::Compare {
        rel: draft.rel,
        left,
        right,
    })
}

fn remainder_tree(
    alloc: Global,
    scope: &Scope,
    value: &IxDraft,
    by: u64,
    yes: bool,
) -> Result<Cond, NameFault>
    ensures { Gives result (names.cond_tree scope.now (stored.cond (d.divisible (seen.ix value.now) 0 by yes))) }
{
    let value = ix_tree(alloc, scope, value)?;
    let by = stored(by);
    Ok(Cond::Divides { value, by, yes })
}

/// The conditions that are joined, in order.
#[cycle(conds)]
fn cond_trees(alloc: Global, scope: &Scope, drafts: &[CondDraft]) -> Result<Items<Cond>, NameFault>
    ensures { Gives result (names.conds_tree scope.now (stored.conds (seen.conds_of (map seen.cond drafts.now)))) }
{
    let mut trees = Items::new(alloc);
    for draft in drafts {
        let tree = cond_tree(alloc, scope, draft)?;
        trees.push(tree)?;
    }
    Ok(trees)
}

/// The condition of an `if`.
#[cycle(conds)]
#[tactic(auto, using(affc_syntax::proofs::draft::Outs::cond_outs))]
pub(crate) fn cond_tree(alloc: Global, scope: &Scope, draft: &CondDraft) -> Result<Cond, NameFault>
    ensures { Gives result (names.cond_tree scope.now (stored.cond (seen.cond draft.now))) }
{
    match draft {
        CondDraft::Compare(draft) => comparison_tree(alloc, scope, draft),
        CondDraft::Divides { value, by, yes, .. } => {
            remainder_tree(alloc, scope, value, *by, *yes)
        }
        CondDraft::All(drafts) => {
            let trees = cond_trees(alloc, scope, drafts.as_slice())?;
            Ok(Cond::All(trees))
        }
        CondDraft::Any(drafts) => {
            let trees = cond_trees(alloc, scope, drafts.as_slice())?;
            Ok(Cond::Any(trees))
        }
    }
}
