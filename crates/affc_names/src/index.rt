//! Trees of whole-number expressions.

ghost use Rattle.std.specs.Prelude.{◌≡◌, pos, map, IfOk};
ghost use Rattle.affc_names.specs.Things.{thing_seen};
ghost use Rattle.std.specs.Option.{option_map};
ghost use Rattle.affc_grammar.specs.Names as names;
ghost use Rattle.affc_ast.specs.declared.tree.Ix.TheVariants as trees;
ghost use Rattle.affc_syntax.specs.draft.Drafts as seen;
ghost use Rattle.affc_names.specs.Chains.{IsOperand, joined_trees, step_tree, negation_read, choice_read, rounding_read};
ghost use Rattle.affc_names.specs.Stored as stored;
ghost use Rattle.affc_names.specs.Gives.{Gives};

use crate::chain::{IxStep, Join, ix_chain};
use crate::fault::NameFault;
use crate::scope::{Scope, Thing};
use crate::why::why_number;
use affc_ast::tree::{Ix, NameId};
use affc_ast::{Boxed, Items};
use affc_syntax::draft::draft::{Choice, IxDraft, Rounding};
use std::alloc::{AllocError, Global};

fn number_id(thing: Option<Thing>) -> NameId
    ensures { result ≡ names.number_id (option_map thing_seen thing) }
{
    match thing {
        Some(Thing::Number { id, .. }) => NameId(id),
        _ => NameId(0),
    }
}

fn number_named(scope: &Scope, at: usize, name: &str) -> Result<NameId, NameFault>
    ensures { Gives result (names.number_named scope.now at name.now) }
{
    let thing = scope.find(name);
    match why_number(scope, name, thing) {
        None => Ok(number_id(thing)),
        Some(why) => Err(NameFault::Refused { at, why }),
    }
}

/// A number as a tree holds it; one that is too large is cut.
pub(crate) fn stored(value: u64) -> i64
    ensures { result ≡ pos (stored.number value) }
{
    if value < (1 << 63) {
        value as i64
    } else {
        i64::MAX
    }
}

fn both(alloc: Global, a: Ix, b: Ix) -> Result<(Boxed<Ix>, Boxed<Ix>), AllocError>
    ensures { IfOk result (λ r. r ≡ (a, b)) }
{
    let a = Boxed::new(alloc, a)?;
    let b = Boxed::new(alloc, b)?;
    Ok((a, b))
}

fn chosen(alloc: Global, choice: Choice, a: Ix, b: Ix) -> Result<Ix, AllocError>
    ensures { IfOk result (λ x. x ≡ names.choice_tree (seen.choice choice) a b) }
{
    let (a, b) = both(alloc, a, b)?;
    match choice {
        Choice::Minimum => Ok(Ix::Min(a, b)),
        Choice::Maximum => Ok(Ix::Max(a, b)),
        Choice::Remainder => Ok(Ix::Mod(a, b)),
    }
}

fn divided(alloc: Global, rounding: Rounding, a: Ix, by: u64) -> Result<Ix, AllocError>
    ensures { IfOk result (λ x. x ≡ names.rounding_tree (seen.rounding rounding) a (pos (stored.number by))) }
{
    let a = Boxed::new(alloc, a)?;
    let by = stored(by);
    match rounding {
        Rounding::Down => Ok(Ix::Floord(a, by)),
        Rounding::Up => Ok(Ix::Ceild(a, by)),
    }
}

fn negation_tree(alloc: Global, a: Ix) -> Result<Ix, AllocError>
    ensures { IfOk result (λ x. x ≡ trees.Neg a) }
{
    Ok(Ix::Neg(Boxed::new(alloc, a)?))
}

fn joined_tree(alloc: Global, join: Join, a: Ix, b: Ix) -> Result<Ix, AllocError>
    ensures { IfOk result (λ x. x ≡ joined_trees join a b) }
{
    let (a, b) = both(alloc, a, b)?;
    match join {
        Join::Plus => Ok(Ix::Add(a, b)),
        Join::Minus => Ok(Ix::Sub(a, b)),
        Join::Times { .. } => Ok(Ix::Mul(a, b)),
    }
}

/// An expression with no operator between two parts of it.
#[cycle(ix)]
#[tactic(auto, using(affc_syntax::proofs::draft::Outs::ix_outs))]
fn operand_tree(alloc: Global, scope: &Scope, draft: &IxDraft) -> Result<Ix, NameFault>
    requires { IsOperand (seen.ix draft.now) }
    ensures { Gives result (names.ix_tree scope.now (stored.ix (seen.ix draft.now))) }
{
    match draft {
        IxDraft::Literal { value, .. } => Ok(Ix::Lit(stored(*value))),
        IxDraft::Name { at, name } => {
            let id = number_named(scope, *at, name.as_str())?;
            Ok(Ix::Name(id))
        }
        IxDraft::Negated { of, .. } => negated(alloc, scope, of.get()),
        IxDraft::Grouped { inside, .. } => ix_tree(alloc, scope, inside.get()),
        IxDraft::Chosen {
            choice,
            left,
            right,
            ..
        } => chosen_of(alloc, scope, *choice, left.get(), right.get()),
        IxDraft::Divided {
            rounding,
            of,
            by,
            ..
        } => divided_of(alloc, scope, *rounding, of.get(), *by),
        IxDraft::Sum(..) | IxDraft::Difference(..) | IxDraft::Product { .. } => unreachable!(),
    }
}

/// A minus before an expression.
#[cycle(ix)]
fn negated(alloc: Global, scope: &Scope, of: &IxDraft) -> Result<Ix, NameFault>
    ensures { Gives result (negation_read (names.ix_tree scope.now (stored.ix (seen.ix of.now)))) }
{
    let a = ix_tree(alloc, scope, of)?;
    Ok(negation_tree(alloc, a)?)
}

/// A call of two expressions, the first of which is read first.
#[cycle(ix)]
fn chosen_of(
    alloc: Global,
    scope: &Scope,
    choice: Choice,
    left: &IxDraft,
    right: &IxDraft,
) -> Result<Ix, NameFault>
    ensures { Gives result (choice_read (seen.choice choice) (names.ix_tree scope.now (stored.ix (seen.ix left.now))) (names.ix_tree scope.now (stored.ix (seen.ix right.now)))) }
{
    let a = ix_tree(alloc, scope, left)?;
    let b = ix_tree(alloc, scope, right)?;
    Ok(chosen(alloc, choice, a, b)?)
}

/// A quotient of an expression by a number.
#[cycle(ix)]
fn divided_of(
    alloc: Global,
    scope: &Scope,
    rounding: Rounding,
    of: &IxDraft,
    by: u64,
) -> Result<Ix, NameFault>
    ensures { Gives result (rounding_read (seen.rounding rounding) (names.ix_tree scope.now (stored.ix (seen.ix of.now))) (pos (stored.number by))) }
{
    let a = ix_tree(alloc, scope, of)?;
    Ok(divided(alloc, rounding, a, by)?)
}

/// The tree of what comes before a step, and the step.
#[cycle(ix)]
fn with_step(alloc: Global, scope: &Scope, tree: Ix, step: &IxStep<'_>) -> Result<Ix, NameFault>
    ensures { Gives result (step_tree scope.now tree step.now) }
{
    let right = ix_tree(alloc, scope, step.right)?;
    Ok(joined_tree(alloc, step.join, tree, right)?)
}

/// A chain of operators is walked by a loop, so that the recursion is as deep as brackets are.
#[cycle(ix)]
pub(crate) fn ix_tree(alloc: Global, scope: &Scope, draft: &IxDraft) -> Result<Ix, NameFault>
    ensures { Gives result (names.ix_tree scope.now (stored.ix (seen.ix draft.now))) }
{
    let chain = ix_chain(alloc, draft)?;
    let mut tree = operand_tree(alloc, scope, chain.first)?;
    for step in chain.steps.as_slice() {
        tree = with_step(alloc, scope, tree, step)?;
    }
    Ok(tree)
}

/// Each of the expressions, in order.
#[tactic(auto, using(crate::proofs::Each::each_turn, crate::proofs::Each::each_stops))]
pub(crate) fn ix_trees(
    alloc: Global,
    scope: &Scope,
    drafts: &[IxDraft],
) -> Result<Items<Ix>, NameFault>
    ensures { Gives result (names.each (names.ix_tree scope.now) (map stored.ix (map seen.ix drafts.now))) }
{
    let mut trees = Items::new(alloc);
    for draft in drafts {
        let tree = ix_tree(alloc, scope, draft)?;
        trees.push(tree)?;
    }
    Ok(trees)
}
