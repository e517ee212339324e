//! Looks at proofs for the questions of a block, in order. The rows of a question are references: no row is copied.
ghost use Rattle.std.specs.Prelude.{◌≡◌, ◌≤◌, ◌+◌, ◌++◌, ◌∷◌, [], length, take, IfOk, OnOk};
ghost use Rattle.std.specs.List.{All};
ghost use Rattle.affc_system.specs.Systems.{IsRow};
ghost use Rattle.affc_farkas.specs.declared.proof.Proof.{Proof};
ghost use Rattle.affc_products.specs.Blocks.{product, block_questions, longest, tallest};
ghost use Rattle.affc_products.specs.Chosen.{rows_of};
ghost use Rattle.affc_products.specs.Steps.{IsStep};

use crate::block::Block;
use crate::chosen::is_proof_of;
use crate::step::Step;
use affc_farkas::Proof;
use affc_rows::Form;
use sqlite_items::Items;
use std::alloc::{AllocError, Global};

/// The number of a question among all, from that among those whose proofs are left.
fn number_of(proofs: &[Proof], left: &[Proof], number: usize) -> usize
    requires left { length left.now ≤ length proofs.now }
    requires number { number ≤ length left.now }
    ensures { result + length left.now ≡ length proofs.now + number }
{
    proofs.len() - left.len() + number
}

/// Adds a reference to a row.
fn push_row<'a>(chosen: &mut Vec<&'a Form>, row: &'a Form) -> Result<(), AllocError>
    ensures { OnOk result (rows_of chosen.new.items ≡ rows_of chosen.old.items ++ row.now ∷ []) }
{
    chosen.push(row)?;
    Ok(())
}

/// Adds references to rows.
pub(crate) fn push_all<'a>(chosen: &mut Vec<&'a Form>, rows: &'a [Form]) -> Result<(), AllocError>
    ensures { OnOk result (rows_of chosen.new.items ≡ rows_of chosen.old.items ++ rows.now) }
{
    for row in rows {
        push_row(chosen, row)?;
    }
    Ok(())
}

/// Lets the rows behind the first ones go.
pub(crate) fn cut_back<'a>(chosen: &mut Vec<&'a Form>, count: usize)
    ensures { rows_of chosen.new.items ≡ take count (rows_of chosen.old.items) }
{
    chosen.truncate(count);
}

/// Looks at the next proof for the question of these rows.
fn look<'p>(
    alloc: Global,
    columns: u32,
    rows: &[&Form],
    proofs: &'p [Proof],
) -> Result<Step<'p>, AllocError>
    requires few_columns { columns ≤ 128 }
    requires fit { All (IsRow columns) (rows_of rows.now) }
    requires few { length (rows_of rows.now) ≤ 1024 }
    ensures { IfOk result (λ s. IsStep (product columns (rows_of rows.now) []) proofs.now s) }
{
    match proofs {
        [] => Ok(Step::Failed(0)),
        [proof, left @ ..] => {
            let proved = is_proof_of(alloc, columns, rows, proof)?;
            if proved {
                Ok(Step::Passed(left))
            } else {
                Ok(Step::Failed(0))
            }
        }
    }
}

/// Looks at the next proof for the question with one tail.
fn check_tail<'a, 'p>(
    alloc: Global,
    columns: u32,
    chosen: &mut Vec<&'a Form>,
    tail: &'a [Form],
    proofs: &'p [Proof],
) -> Result<Step<'p>, AllocError>
    requires few_columns { columns ≤ 128 }
    requires fit { All (IsRow columns) (rows_of chosen.old.items) }
    requires tail { All (IsRow columns) tail.now }
    requires room { length (rows_of chosen.old.items) + length tail.now ≤ 1024 }
    ensures step { IfOk result (λ s. IsStep (product columns (rows_of chosen.old.items ++ tail.now) []) proofs.now s) }
    ensures same { OnOk result (rows_of chosen.new.items ≡ rows_of chosen.old.items) }
{
    let count = chosen.len();
    push_all(chosen, tail)?;
    let step = look(alloc, columns, chosen.as_slice(), proofs)?;
    cut_back(chosen, count);
    Ok(step)
}

/// Looks at a proof for the question with each tail.
fn check_tails<'a, 'p>(
    alloc: Global,
    columns: u32,
    chosen: &mut Vec<&'a Form>,
    tails: &'a [Items<Form>],
    proofs: &'p [Proof],
) -> Result<Step<'p>, AllocError>
    requires few_columns { columns ≤ 128 }
    requires fit { All (IsRow columns) (rows_of chosen.old.items) }
    requires tails { All (All (IsRow columns)) tails.now }
    requires room { length (rows_of chosen.old.items) + longest tails.now ≤ 1024 }
    ensures step { IfOk result (λ s. IsStep (product columns (rows_of chosen.old.items) (tails.now ∷ [])) proofs.now s) }
    ensures same { OnOk result (rows_of chosen.new.items ≡ rows_of chosen.old.items) }
{
    let mut left = proofs;
    for tail in tails {
        let step = check_tail(alloc, columns, chosen, tail.as_slice(), left)?;
        match step {
            Step::Passed(rest) => left = rest,
            Step::Failed(number) => return Ok(Step::Failed(number_of(proofs, left, number))),
        }
    }
    Ok(Step::Passed(left))
}

/// Looks at a proof for each question that has one alternative of a factor.
#[cycle(factors)]
fn check_behind<'a, 'p>(
    alloc: Global,
    columns: u32,
    chosen: &mut Vec<&'a Form>,
    rows: &'a [Form],
    later: &'a [Items<Items<Form>>],
    tails: &'a [Items<Form>],
    proofs: &'p [Proof],
) -> Result<Step<'p>, AllocError>
    requires few_columns { columns ≤ 128 }
    requires fit { All (IsRow columns) (rows_of chosen.old.items) }
    requires rows { All (IsRow columns) rows.now }
    requires later { All (All (All (IsRow columns))) later.now }
    requires tails { All (All (IsRow columns)) tails.now }
    requires room { length (rows_of chosen.old.items) + (length rows.now + tallest (later.now ++ tails.now ∷ [])) ≤ 1024 }
    ensures step { IfOk result (λ s. IsStep (product columns (rows_of chosen.old.items ++ rows.now) (later.now ++ tails.now ∷ [])) proofs.now s) }
    ensures same { OnOk result (rows_of chosen.new.items ≡ rows_of chosen.old.items) }
{
    let count = chosen.len();
    push_all(chosen, rows)?;
    let step = check_factors(alloc, columns, chosen, later, tails, proofs)?;
    cut_back(chosen, count);
    Ok(step)
}

/// Looks at a proof for each question, for each alternative of the first factor in turn.
#[cycle(factors)]
fn check_each<'a, 'p>(
    alloc: Global,
    columns: u32,
    chosen: &mut Vec<&'a Form>,
    first: &'a [Items<Form>],
    later: &'a [Items<Items<Form>>],
    tails: &'a [Items<Form>],
    proofs: &'p [Proof],
) -> Result<Step<'p>, AllocError>
    requires few_columns { columns ≤ 128 }
    requires fit { All (IsRow columns) (rows_of chosen.old.items) }
    requires first { All (All (IsRow columns)) first.now }
    requires later { All (All (All (IsRow columns))) later.now }
    requires tails { All (All (IsRow columns)) tails.now }
    requires room { length (rows_of chosen.old.items) + (longest first.now + tallest (later.now ++ tails.now ∷ [])) ≤ 1024 }
    ensures step { IfOk result (λ s. IsStep (product columns (rows_of chosen.old.items) (first.now ∷ (later.now ++ tails.now ∷ []))) proofs.now s) }
    ensures same { OnOk result (rows_of chosen.new.items ≡ rows_of chosen.old.items) }
{
    let mut left = proofs;
    for rows in first {
        let rows = rows.as_slice();
        let step = check_behind(alloc, columns, chosen, rows, later, tails, left)?;
        match step {
            Step::Passed(rest) => left = rest,
            Step::Failed(number) => return Ok(Step::Failed(number_of(proofs, left, number))),
        }
    }
    Ok(Step::Passed(left))
}

/// Looks at a proof for each question.
#[cycle(factors)]
pub(crate) fn check_factors<'a, 'p>(
    alloc: Global,
    columns: u32,
    chosen: &mut Vec<&'a Form>,
    factors: &'a [Items<Items<Form>>],
    tails: &'a [Items<Form>],
    proofs: &'p [Proof],
) -> Result<Step<'p>, AllocError>
    requires few_columns { columns ≤ 128 }
    requires fit { All (IsRow columns) (rows_of chosen.old.items) }
    requires factors { All (All (All (IsRow columns))) factors.now }
    requires tails { All (All (IsRow columns)) tails.now }
    requires room { length (rows_of chosen.old.items) + tallest (factors.now ++ tails.now ∷ []) ≤ 1024 }
    ensures step { IfOk result (λ s. IsStep (product columns (rows_of chosen.old.items) (factors.now ++ tails.now ∷ [])) proofs.now s) }
    ensures same { OnOk result (rows_of chosen.new.items ≡ rows_of chosen.old.items) }
{
    match factors {
        [] => check_tails(alloc, columns, chosen, tails, proofs),
        [first, later @ ..] => {
            check_each(
                alloc,
                columns,
                chosen,
                first.as_slice(),
                later,
                tails,
                proofs,
            )
        }
    }
}

impl<'a> Block<'a> {
    /// Looks at a proof for each question, in order. For a leaf nothing is copied.
    pub fn check<'p>(&self, alloc: Global, proofs: &'p [Proof]) -> Result<Step<'p>, AllocError>
        ensures { IfOk result (IsStep (block_questions self.now) proofs.now) }
    {
        let mut chosen = Vec::new(alloc);
        push_all(&mut chosen, self.front)?;
        let tails = self.tails.as_slice();
        check_factors(
            alloc,
            self.columns,
            &mut chosen,
            self.factors,
            tails,
            proofs,
        )
    }
}
