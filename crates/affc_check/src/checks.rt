//! Items and their proofs, one after the other.
ghost use Rattle.std.specs.Prelude.{◌↔◌, ℕ, List, [], ◌∷◌, ◌+◌, length, IfOk, IsTrue, ◌≡◌, map, flat_map};
ghost use Rattle.affc_farkas.specs.declared.proof.Proof.{Proof};
ghost use Rattle.affc_system.specs.Systems.{IsPoint};
ghost use Rattle.affc_products.specs.Blocks.{block_questions};
ghost use Rattle.affc_check.specs.Answers.{FailsAtQuestion, FailsAtPoint};
ghost use Rattle.affc_check.specs.list.Held.{listed_said};
ghost use Rattle.affc_check.specs.list.Items.{Question};
ghost use Rattle.affc_check.specs.Looked.{LooksOn, Looks};
ghost use Rattle.affc_check.specs.Steps.{Leaves, IsHolding, IsUnproved, IsUnmet};
ghost use Rattle.affc_check.specs.Valid.{IsProved};

use crate::list::{Item, Listed, Point};
use affc_farkas::Proof;
use affc_products::{Block, Step, is_proof};
use affc_system::System;
use std::alloc::{AllocError, Global};

/// Whether a proof is one of a question.
fn is_proved(question: &System, proof: &Proof) -> bool
    ensures { IsTrue result ↔ IsProved question.now proof.now }
{
    let _columns = question.columns();
    let _rows = question.rows();
    is_proof(question, proof)
}

/// Whether a point is one of its system.
fn is_shown(shown: &Point) -> bool
    ensures { IsTrue result ↔ IsPoint shown.now.system shown.now.point }
{
    shown.system.holds_at(shown.point.as_slice())
}

/// What looking at what is listed came to.
#[derive(Clone, Copy, Drop)]
enum Outcome<'p> {
    /// All of it holds, and these proofs are left.
    Holds(&'p [Proof]),
    /// The item with this number of it, from 0, is the first that fails: a question.
    Unproved(usize),
    /// The same, a point that is shown.
    Unmet(usize),
}

/// Looks at a question and the proof that comes next.
fn question_holds<'p>(question: &System, proofs: &'p [Proof]) -> Outcome<'p>
    ensures holds { (rest : List Proof) → IsHolding result rest → Leaves (Question question.now ∷ []) proofs.now rest }
    ensures unproved { (n : ℕ) → IsUnproved result n → FailsAtQuestion (Question question.now ∷ []) proofs.now n }
    ensures unmet { (n : ℕ) → ¬ (IsUnmet result n) }
{
    match proofs {
        [] => Outcome::Unproved(0),
        [proof, rest @ ..] => {
            if is_proved(question, proof) {
                Outcome::Holds(rest)
            } else {
                Outcome::Unproved(0)
            }
        }
    }
}

/// Looks at a block and the proofs that come next.
fn block_holds<'p>(
    alloc: Global,
    block: &Block<'_>,
    proofs: &'p [Proof],
) -> Result<Outcome<'p>, AllocError>
    ensures holds { IfOk result (λ o. (rest : List Proof) → IsHolding o rest → Leaves (map Question (block_questions block.now)) proofs.now rest) }
    ensures unproved { IfOk result (λ o. (n : ℕ) → IsUnproved o n → FailsAtQuestion (map Question (block_questions block.now)) proofs.now n) }
    ensures unmet { IfOk result (λ o. (n : ℕ) → ¬ (IsUnmet o n)) }
{
    match block.check(alloc, proofs)? {
        Step::Passed(rest) => Ok(Outcome::Holds(rest)),
        Step::Failed(number) => Ok(Outcome::Unproved(number)),
    }
}

/// Looks at what is listed and the proofs that come next.
fn outcome_of<'p>(
    alloc: Global,
    listed: &Listed<'_>,
    proofs: &'p [Proof],
) -> Result<Outcome<'p>, AllocError>
    ensures holds { IfOk result (λ o. (rest : List Proof) → IsHolding o rest → Leaves (listed_said listed.now) proofs.now rest) }
    ensures unproved { IfOk result (λ o. (n : ℕ) → IsUnproved o n → FailsAtQuestion (listed_said listed.now) proofs.now n) }
    ensures unmet { IfOk result (λ o. (n : ℕ) → IsUnmet o n → FailsAtPoint (listed_said listed.now) proofs.now n) }
{
    match listed {
        Listed::One(Item::Question(system)) => Ok(question_holds(system, proofs)),
        Listed::One(Item::Shown(shown)) => {
            if is_shown(shown) {
                Ok(Outcome::Holds(proofs))
            } else {
                Ok(Outcome::Unmet(0))
            }
        }
        Listed::Questions(block) => block_holds(alloc, block, proofs),
    }
}

/// How many items are listed here, where they hold by these proofs and leave the rest.
fn count(listed: &Listed<'_>, proofs: &[Proof], rest: &[Proof]) -> usize
    requires { Leaves (listed_said listed.now) proofs.now rest.now }
    ensures { result ≡ length (listed_said listed.now) }
{
    match listed {
        Listed::One(_) => 1,
        Listed::Questions(_) => proofs.len() - rest.len(),
    }
}

/// A number so much further on. Past 2^64 items there is no memory for them.
fn further(number: usize, by: usize) -> Result<usize, AllocError>
    ensures { IfOk result (λ n. n ≡ number + by) }
{
    match number.checked_add(by) {
        Some(sum) => Ok(sum),
        None => Err(AllocError),
    }
}

/// How far the items of a certificate are looked at.
#[derive(Clone, Copy, Drop)]
pub(crate) enum Looked<'p> {
    /// All of them hold, so many, and these proofs are left.
    Holding(&'p [Proof], usize),
    /// The item with this number, from 0, is the first that fails: a question.
    Unproved(usize),
    /// The same, a point that is shown.
    Unmet(usize),
}

/// Looks at what is listed behind so many items that hold and leave these proofs.
fn look_on<'p>(
    alloc: Global,
    listed: &Listed<'_>,
    rest: &'p [Proof],
    number: usize,
) -> Result<Looked<'p>, AllocError>
    ensures { IfOk result (λ new. LooksOn rest.now number new (listed_said listed.now)) }
{
    match outcome_of(alloc, listed, rest)? {
        Outcome::Holds(more) => {
            let next = further(number, count(listed, rest, more))?;
            Ok(Looked::Holding(more, next))
        }
        Outcome::Unproved(at) => {
            let failed = further(number, at)?;
            Ok(Looked::Unproved(failed))
        }
        Outcome::Unmet(at) => {
            let failed = further(number, at)?;
            Ok(Looked::Unmet(failed))
        }
    }
}

/// Looks at what is listed, unless an item before it fails.
fn look_at<'p>(
    alloc: Global,
    listed: &Listed<'_>,
    looked: Looked<'p>,
) -> Result<Looked<'p>, AllocError>
    ensures { IfOk result (λ new. Looks looked.entry new (listed_said listed.now)) }
{
    match looked {
        Looked::Holding(rest, number) => look_on(alloc, listed, rest, number),
        Looked::Unproved(_) => Ok(looked),
        Looked::Unmet(_) => Ok(looked),
    }
}

/// Looks at all that is listed, up to the first item that fails. The recursion is into halves, since there may be many.
pub(crate) fn look_all<'p>(
    alloc: Global,
    listed: &[Listed<'_>],
    looked: Looked<'p>,
) -> Result<Looked<'p>, AllocError>
    ensures { IfOk result (λ new. Looks looked.entry new (flat_map listed_said listed.now)) }
{
    match listed {
        [] => Ok(looked),
        [one] => look_at(alloc, one, looked),
        _ => {
            let (first, others) = listed.split_at(listed.len() / 2);
            let half = look_all(alloc, first, looked)?;
            look_all(alloc, others, half)
        }
    }
}
