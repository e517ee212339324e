//! Copies of the questions of a block, as whole systems.
ghost use Rattle.std.specs.Prelude.{◌≡◌, ◌≤◌, ◌+◌, ◌++◌, ◌∷◌, [], length, IfOk, OnOk};
ghost use Rattle.std.specs.List.{All};
ghost use Rattle.affc_system.specs.Systems.{IsRow};
ghost use Rattle.affc_products.specs.Blocks.{product, block_questions, longest, tallest};
ghost use Rattle.affc_products.specs.Chosen.{rows_of};

use crate::block::Block;
use crate::chosen::copies;
use crate::walk::{cut_back, push_all};
use affc_rows::Form;
use affc_system::System;
use sqlite_items::Items;
use std::alloc::{AllocError, Global};

/// Adds a copy of the question with one tail.
fn add_tail<'a>(
    alloc: Global,
    columns: u32,
    chosen: &mut Vec<&'a Form>,
    tail: &'a [Form],
    out: &mut Vec<System>,
) -> Result<(), AllocError>
    requires few_columns { columns ≤ 128 }
    requires fit { All (IsRow columns) (rows_of chosen.old.items) }
    requires tail { All (IsRow columns) tail.now }
    requires room { length (rows_of chosen.old.items) + length tail.now ≤ 1024 }
    ensures added { OnOk result (out.new.items ≡ out.old.items ++ product columns (rows_of chosen.old.items ++ tail.now) []) }
    ensures same { OnOk result (rows_of chosen.new.items ≡ rows_of chosen.old.items) }
{
    let count = chosen.len();
    push_all(chosen, tail)?;
    let system = copies(alloc, columns, chosen.as_slice())?;
    cut_back(chosen, count);
    out.push(system)?;
    Ok(())
}

/// Adds a copy of the question with each tail.
fn add_tails<'a>(
    alloc: Global,
    columns: u32,
    chosen: &mut Vec<&'a Form>,
    tails: &'a [Items<Form>],
    out: &mut Vec<System>,
) -> Result<(), AllocError>
    requires few_columns { columns ≤ 128 }
    requires fit { All (IsRow columns) (rows_of chosen.old.items) }
    requires tails { All (All (IsRow columns)) tails.now }
    requires room { length (rows_of chosen.old.items) + longest tails.now ≤ 1024 }
    ensures added { OnOk result (out.new.items ≡ out.old.items ++ product columns (rows_of chosen.old.items) (tails.now ∷ [])) }
    ensures same { OnOk result (rows_of chosen.new.items ≡ rows_of chosen.old.items) }
{
    for tail in tails {
        add_tail(alloc, columns, chosen, tail.as_slice(), out)?;
    }
    Ok(())
}

/// Adds a copy of each question that has one alternative of a factor.
#[cycle(systems)]
fn add_behind<'a>(
    alloc: Global,
    columns: u32,
    chosen: &mut Vec<&'a Form>,
    rows: &'a [Form],
    later: &'a [Items<Items<Form>>],
    tails: &'a [Items<Form>],
    out: &mut Vec<System>,
) -> Result<(), AllocError>
    requires few_columns { columns ≤ 128 }
    requires fit { All (IsRow columns) (rows_of chosen.old.items) }
    requires rows { All (IsRow columns) rows.now }
    requires later { All (All (All (IsRow columns))) later.now }
    requires tails { All (All (IsRow columns)) tails.now }
    requires room { length (rows_of chosen.old.items) + (length rows.now + tallest (later.now ++ tails.now ∷ [])) ≤ 1024 }
    ensures added { OnOk result (out.new.items ≡ out.old.items ++ product columns (rows_of chosen.old.items ++ rows.now) (later.now ++ tails.now ∷ [])) }
    ensures same { OnOk result (rows_of chosen.new.items ≡ rows_of chosen.old.items) }
{
    let count = chosen.len();
    push_all(chosen, rows)?;
    add_factors(alloc, columns, chosen, later, tails, out)?;
    cut_back(chosen, count);
    Ok(())
}

/// Adds a copy of each question, for each alternative of the first factor in turn.
#[cycle(systems)]
fn add_each<'a>(
    alloc: Global,
    columns: u32,
    chosen: &mut Vec<&'a Form>,
    first: &'a [Items<Form>],
    later: &'a [Items<Items<Form>>],
    tails: &'a [Items<Form>],
    out: &mut Vec<System>,
) -> Result<(), AllocError>
    requires few_columns { columns ≤ 128 }
    requires fit { All (IsRow columns) (rows_of chosen.old.items) }
    requires first { All (All (IsRow columns)) first.now }
    requires later { All (All (All (IsRow columns))) later.now }
    requires tails { All (All (IsRow columns)) tails.now }
    requires room { length (rows_of chosen.old.items) + (longest first.now + tallest (later.now ++ tails.now ∷ [])) ≤ 1024 }
    ensures added { OnOk result (out.new.items ≡ out.old.items ++ product columns (rows_of chosen.old.items) (first.now ∷ (later.now ++ tails.now ∷ []))) }
    ensures same { OnOk result (rows_of chosen.new.items ≡ rows_of chosen.old.items) }
{
    for rows in first {
        let rows = rows.as_slice();
        add_behind(alloc, columns, chosen, rows, later, tails, out)?;
    }
    Ok(())
}

/// Adds a copy of each question.
#[cycle(systems)]
fn add_factors<'a>(
    alloc: Global,
    columns: u32,
    chosen: &mut Vec<&'a Form>,
    factors: &'a [Items<Items<Form>>],
    tails: &'a [Items<Form>],
    out: &mut Vec<System>,
) -> Result<(), AllocError>
    requires few_columns { columns ≤ 128 }
    requires fit { All (IsRow columns) (rows_of chosen.old.items) }
    requires factors { All (All (All (IsRow columns))) factors.now }
    requires tails { All (All (IsRow columns)) tails.now }
    requires room { length (rows_of chosen.old.items) + tallest (factors.now ++ tails.now ∷ []) ≤ 1024 }
    ensures added { OnOk result (out.new.items ≡ out.old.items ++ product columns (rows_of chosen.old.items) (factors.now ++ tails.now ∷ [])) }
    ensures same { OnOk result (rows_of chosen.new.items ≡ rows_of chosen.old.items) }
{
    match factors {
        [] => add_tails(alloc, columns, chosen, tails, out),
        [first, later @ ..] => {
            add_each(alloc, columns, chosen, first.as_slice(), later, tails, out)
        }
    }
}

impl<'a> Block<'a> {
    /// The questions, each with all its rows, which are copies.
    pub fn systems(&self, alloc: Global) -> Result<Vec<System>, AllocError>
        ensures { IfOk result (λ v. v.items ≡ block_questions self.now) }
    {
        let mut chosen = Vec::new(alloc);
        push_all(&mut chosen, self.front)?;
        let tails = self.tails.as_slice();
        let mut out = Vec::new(alloc);
        add_factors(
            alloc,
            self.columns,
            &mut chosen,
            self.factors,
            tails,
            &mut out,
        )?;
        Ok(out)
    }
}
