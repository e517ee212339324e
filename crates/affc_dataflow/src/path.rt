//! The rows above a leaf.
ghost use Rattle.std.specs.Prelude.{◌≡◌, ◌∷◌, [], length, map, IfOk, OnOk};
ghost use Rattle.affc_rows.specs.Forms.{HaveColumns};
ghost use Rattle.affc_nest.specs.Domains.{with_rows};
ghost use Rattle.affc_order.specs.Spread.{spread};
ghost use Rattle.affc_quast.specs.Leaves.{negated};

use affc_flow::questions::{Unasked, count, gap};
use affc_rows::Form;
use affc_system::{BoxOf, System};
use std::alloc::Global;

/// The rows above a leaf, and the ranges of their columns.
#[derive(Drop)]
pub struct Place<'a> {
    pub path: &'a System,
    pub ranges: &'a BoxOf,
}

/// Adds a row, where it keeps the limits.
pub fn push_row(system: &mut System, row: Form) -> Result<(), Unasked>
    ensures rows { OnOk result (system.new ≡ with_rows system.old (row ∷ [])) }
    ensures wide { OnOk result (length row.coefs ≡ system.old.columns) }
{
    if row.coefs.len() != system.columns() as usize {
        return Err(Unasked::Large);
    }
    system.push(row)?;
    Ok(())
}

/// Adds copies of rows, where they keep the limits.
#[tactic(auto, using(affc_sched::proofs::SystemLemmas::added_twice))]
pub fn push_rows(system: &mut System, rows: &[Form]) -> Result<(), Unasked>
    ensures rows { OnOk result (system.new ≡ with_rows system.old rows.now) }
    ensures wide { OnOk result (HaveColumns system.old.columns rows.now) }
{
    match rows {
        [] => Ok(()),
        [row, rest @ ..] => {
            push_row(system, row.clone()?)?;
            push_rows(system, rest)
        }
    }
}

/// The row that says that a row isn't met.
pub fn negation(alloc: Global, row: &Form) -> Result<Form, Unasked>
    ensures { IfOk result (λ f. f ≡ negated row.now) }
{
    let columns = count(row.coefs.len())?;
    let zero = Form::number(alloc, columns, 0)?;
    gap(alloc, row, &zero, 1)
}

/// Adds rows, each with so many columns more between and behind.
#[tactic(auto, using(affc_sched::proofs::SystemLemmas::added_twice))]
pub fn push_spread(
    alloc: Global,
    system: &mut System,
    rows: &[Form],
    params: u32,
    between: u32,
    behind: u32,
) -> Result<(), Unasked>
    ensures { OnOk result (system.new ≡ with_rows system.old (map (spread params between behind) rows.now)) }
{
    match rows {
        [] => Ok(()),
        [row, rest @ ..] => {
            let made = spread_form(alloc, row, params, between, behind)?;
            push_row(system, made)?;
            push_spread(alloc, system, rest, params, between, behind)
        }
    }
}

/// A form with so many columns more between and behind.
fn spread_form(
    alloc: Global,
    form: &Form,
    params: u32,
    between: u32,
    behind: u32,
) -> Result<Form, Unasked>
    ensures { IfOk result (λ f. f ≡ spread params between behind form.now) }
{
    if params as usize > form.coefs.len() {
        return Err(Unasked::Large);
    }
    Ok(form.spread(alloc, params, between, behind)?)
}
