//! Trees of values.

ghost use Rattle.std.specs.Prelude.{◌≡◌};
ghost use Rattle.std.specs.Option.{option_map};
ghost use Rattle.affc_grammar.specs.Names as names;
ghost use Rattle.affc_syntax.specs.draft.Drafts as seen;
ghost use Rattle.affc_names.specs.Things.{thing_seen};
ghost use Rattle.affc_names.specs.Chains.{IsValueOperand, value_step_tree};
ghost use Rattle.affc_names.specs.Stored as stored;
ghost use Rattle.affc_names.specs.Gives.{Gives};

use crate::chain::{ValueStep, value_chain};
use crate::fault::NameFault;
use crate::index::{ix_tree, ix_trees};
use crate::scope::{Scope, Thing};
use crate::why::why_array;
use affc_ast::Boxed;
use affc_ast::tree::{ArrayId, Val};
use affc_syntax::draft::draft::ValueDraft;
use std::alloc::Global;

fn array_id(thing: Option<Thing>) -> ArrayId
    ensures { result ≡ names.array_id (option_map thing_seen thing) }
{
    match thing {
        Some(Thing::Array { id, .. }) => ArrayId(id),
        _ => ArrayId(0),
    }
}

pub(crate) fn array_named(
    scope: &Scope,
    at: usize,
    name: &str,
    is_store: bool,
    subscripts: usize,
) -> Result<ArrayId, NameFault>
    ensures { Gives result (names.array_named scope.now at name.now is_store subscripts) }
{
    let thing = scope.find(name);
    match why_array(scope, name, is_store, subscripts, thing) {
        None => Ok(array_id(thing)),
        Some(why) => Err(NameFault::Refused { at, why }),
    }
}

/// The bits of a shift as a tree holds them.
fn bits(by: u64) -> u8
    ensures { result ≡ stored.bits by }
{
    if by < 256 { by as u8 } else { 0 }
}

/// A value with no `~`, no shift and no operator outside parentheses.
#[tactic(auto, using(affc_syntax::proofs::draft::Outs::value_outs, crate::proofs::Each::lengths))]
fn operand_tree(alloc: Global, scope: &Scope, draft: &ValueDraft) -> Result<Val, NameFault>
    requires { IsValueOperand (seen.value draft.now) }
    ensures { Gives result (names.value_tree scope.now (stored.value (seen.value draft.now))) }
{
    match draft {
        ValueDraft::Load { at, name, subs } => {
            let array = array_named(scope, *at, name.as_str(), false, subs.len())?;
            let subs = ix_trees(alloc, scope, subs.as_slice())?;
            Ok(Val::Load { array, subs })
        }
        ValueDraft::Constant(value) => Ok(Val::Const(*value)),
        ValueDraft::Cast(inside) => {
            let inside = ix_tree(alloc, scope, inside)?;
            Ok(Val::Cast(inside))
        }
        ValueDraft::Complement(_) | ValueDraft::Binary { .. } | ValueDraft::Shift { .. } => {
            unreachable!()
        }
    }
}

/// The tree of what comes before a step, and the step.
#[cycle(value)]
fn with_step(
    alloc: Global,
    scope: &Scope,
    tree: Val,
    step: &ValueStep<'_>,
) -> Result<Val, NameFault>
    ensures { Gives result (value_step_tree scope.now tree step.now) }
{
    match step {
        ValueStep::Complement => Ok(Val::Not(Boxed::new(alloc, tree)?)),
        ValueStep::Shift { left, by } => {
            let value = Boxed::new(alloc, tree)?;
            Ok(Val::Shift {
                left: *left,
                value,
                by: bits(*by),
            })
        }
        ValueStep::Binary { op, right } => {
            let right = value_tree(alloc, scope, right)?;
            let left = Boxed::new(alloc, tree)?;
            let right = Boxed::new(alloc, right)?;
            Ok(Val::Bin {
                op: *op,
                left,
                right,
            })
        }
    }
}

/// A chain of operators is walked by a loop, so that the recursion is as deep as brackets are.
#[cycle(value)]
pub(crate) fn value_tree(alloc: Global, scope: &Scope, draft: &ValueDraft) -> Result<Val, NameFault>
    ensures { Gives result (names.value_tree scope.now (stored.value (seen.value draft.now))) }
{
    let chain = value_chain(alloc, draft)?;
    let mut tree = operand_tree(alloc, scope, chain.first)?;
    for step in chain.steps.as_slice() {
        tree = with_step(alloc, scope, tree, step)?;
    }
    Ok(tree)
}
