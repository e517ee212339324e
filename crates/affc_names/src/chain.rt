//! Chains of operators. Operators of one level group from the left, so a chain is its first operand and what is done with
//! that, step by step: it is walked by a loop, however long it is.

ghost use Rattle.std.specs.Prelude.{◌≡◌, reverse, IfOk, MatchOption};
ghost use Rattle.std.specs.List.{fold};
ghost use Rattle.affc_syntax.specs.draft.Drafts.{ix, value};
ghost use Rattle.affc_names.specs.Chains.{IsOperand, IsValueOperand, with_step, with_value_step};

use affc_ast::tree::Op;
use affc_syntax::draft::draft::{IxDraft, ValueDraft};
use std::alloc::{AllocError, Global};

/// An operator between two expressions; `at` is the number of the `*`.
#[derive(Clone, Copy, Drop)]
pub(crate) enum Join {
    Plus,
    Minus,
    Times { at: usize },
}

/// An operator, and what stands on its right.
#[derive(Clone, Copy, Drop)]
pub(crate) struct IxStep<'a> {
    pub join: Join,
    pub right: &'a IxDraft,
}

#[derive(Drop)]
pub(crate) struct IxChain<'a> {
    pub first: &'a IxDraft,
    pub steps: Vec<IxStep<'a>>,
}

/// What is done last in an expression, and with what.
#[tactic(auto, using(affc_syntax::proofs::draft::Outs::ix_outs))]
fn last_step(draft: &IxDraft) -> Option<(&IxDraft, IxStep<'_>)>
    ensures { MatchOption result (IsOperand (ix draft.now)) (λ r. ix draft.now ≡ with_step (ix r.0.now) r.1) }
{
    match draft {
        IxDraft::Sum(left, right) => {
            let join = Join::Plus;
            let right = right.get();
            Some((left.get(), IxStep { join, right }))
        }
        IxDraft::Difference(left, right) => {
            let join = Join::Minus;
            let right = right.get();
            Some((left.get(), IxStep { join, right }))
        }
        IxDraft::Product { at, left, right } => {
            let join = Join::Times { at: *at };
            let right = right.get();
            Some((left.get(), IxStep { join, right }))
        }
        IxDraft::Literal { .. }
        | IxDraft::Name { .. }
        | IxDraft::Negated { .. }
        | IxDraft::Grouped { .. }
        | IxDraft::Chosen { .. }
        | IxDraft::Divided { .. } => None,
    }
}

/// The chain that an expression is.
pub(crate) fn ix_chain(alloc: Global, draft: &IxDraft) -> Result<IxChain<'_>, AllocError>
    ensures whole { IfOk result (λ c. ix draft.now ≡ fold with_step (ix c.first.now) c.steps.items) }
    ensures operand { IfOk result (λ c. IsOperand (ix c.first.now)) }
{
    let mut steps = Vec::new(alloc);
    let mut first = draft;
    while let Some((left, step)) = last_step(first) {
        steps.push(step)?;
        first = left;
    }
    steps.reverse();
    Ok(IxChain { first, steps })
}

/// A `~`, a shift, or an operator between two values and what stands on its right.
#[derive(Clone, Copy, Drop)]
pub(crate) enum ValueStep<'a> {
    Complement,
    Shift { left: bool, by: u64 },
    Binary { op: Op, right: &'a ValueDraft },
}

#[derive(Drop)]
pub(crate) struct ValueChain<'a> {
    pub first: &'a ValueDraft,
    pub steps: Vec<ValueStep<'a>>,
}

/// What is done last in a value, and with what.
#[tactic(auto, using(affc_syntax::proofs::draft::Outs::value_outs))]
fn last_value_step(draft: &ValueDraft) -> Option<(&ValueDraft, ValueStep<'_>)>
    ensures { MatchOption result (IsValueOperand (value draft.now)) (λ r. value draft.now ≡ with_value_step (value r.0.now) r.1) }
{
    match draft {
        ValueDraft::Complement(of) => Some((of.get(), ValueStep::Complement)),
        ValueDraft::Shift { left, of, by } => {
            let step = ValueStep::Shift {
                left: *left,
                by: *by,
            };
            Some((of.get(), step))
        }
        ValueDraft::Binary { op, left, right } => {
            let right = right.get();
            Some((left.get(), ValueStep::Binary { op: *op, right }))
        }
        ValueDraft::Load { .. } | ValueDraft::Constant(_) | ValueDraft::Cast(_) => None,
    }
}

/// The chain that a value is.
pub(crate) fn value_chain(alloc: Global, draft: &ValueDraft) -> Result<ValueChain<'_>, AllocError>
    ensures whole { IfOk result (λ c. value draft.now ≡ fold with_value_step (value c.first.now) c.steps.items) }
    ensures operand { IfOk result (λ c. IsValueOperand (value c.first.now)) }
{
    let mut steps = Vec::new(alloc);
    let mut first = draft;
    while let Some((left, step)) = last_value_step(first) {
        steps.push(step)?;
        first = left;
    }
    steps.reverse();
    Ok(ValueChain { first, steps })
}
