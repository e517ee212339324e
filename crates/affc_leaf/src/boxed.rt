//! A system with the rows of its box, and elimination there.
ghost use Rattle.std.specs.Prelude.{◌≡◌, ◌+◌, ◌-◌, ◌*◌, ◌<◌, ◌≤◌, ◌∷◌, ◌++◌, [], neg_ℤ, map, IfOk, IfSome, IfNone, OnOk, Err, length};
ghost use Rattle.affc_system.specs.Systems.{FitsRow};
ghost use Rattle.affc_farkas.specs.Proofs.{ValidProof};
ghost use Rattle.affc_leaf.specs.Boxed.{unit, range_rows, with_box, IsLeafProof, IsHard};

use crate::vertices::meets;
use affc_eliminate::project::{Refutation, refute};
use affc_farkas::Proof;
use affc_rows::Form;
use affc_simplex::Vertex;
use affc_system::System;
use std::alloc::{AllocError, Global};

/// Adds a row that keeps the limits.
pub fn push_row(boxed: &mut System, row: Form) -> Result<(), AllocError>
    requires { length row.coefs ≡ boxed.old.columns }
    ensures value { OnOk result (boxed.new ≡ record boxed.old { rows = boxed.old.rows ++ row ∷ [] }) }
    ensures fits { OnOk result (FitsRow row) }
{
    let Ok(()) = boxed.push(row) else {
        return Err(AllocError);
    };
    Ok(())
}

/// The row that says the low end of a column's range.
#[tactic(auto, using(crate::proofs::BoxRows::unit_is))]
fn low_form(alloc: Global, columns: u32, j: usize, low: i64) -> Result<Form, AllocError>
    requires { j < columns }
    ensures { IfOk result (λ f. f ≡ record { coefs = unit j (columns - (j + 1)); constant = neg_ℤ low }) }
{
    let column = Form::column(alloc, columns, j as u32)?;
    Ok(Form {
        coefs: column.coefs,
        constant: -i128::from(low),
    })
}

/// The row that says the high end.
#[tactic(auto, using(crate::proofs::BoxRows::unit_is))]
fn high_form(alloc: Global, columns: u32, j: usize, high: i64) -> Result<Form, AllocError>
    requires { j < columns }
    ensures { IfOk result (λ f. f ≡ record { coefs = map neg_ℤ (unit j (columns - (j + 1))); constant = high }) }
{
    let column = Form::column(alloc, columns, j as u32)?;
    let opposite = column.opposite(alloc)?;
    Ok(Form {
        coefs: opposite.coefs,
        constant: i128::from(high),
    })
}

/// Adds the rows of a column's range.
fn push_range(
    alloc: Global,
    boxed: &mut System,
    j: usize,
    low: i64,
    high: i64,
) -> Result<(), AllocError>
    requires { j < boxed.old.columns }
    ensures columns { OnOk result (boxed.new.columns ≡ boxed.old.columns) }
    ensures rows { OnOk result (boxed.new.rows ≡ boxed.old.rows ++ range_rows boxed.old.columns j (low, high)) }
{
    let columns = boxed.columns();
    push_row(boxed, low_form(alloc, columns, j, low)?)?;
    push_row(boxed, high_form(alloc, columns, j, high)?)
}

/// The system with the rows of the box.
pub fn boxed_system(
    alloc: Global,
    system: &System,
    ranges: &[(i64, i64)],
) -> Result<System, AllocError>
    requires { length ranges.now ≡ system.now.columns }
    ensures { IfOk result (λ s. s ≡ with_box system.now ranges.now) }
{
    let mut boxed = system.clone()?;
    for (j, range) in ranges.iter().enumerate() {
        push_range(alloc, &mut boxed, j, range.0, range.1)?;
    }
    Ok(boxed)
}

/// A leaf of the system with the rows of the box, by elimination. `None` where that shows that it can't find one, or where a rational
/// point that is given meets all rows.
pub fn refuted(
    alloc: Global,
    system: &System,
    ranges: &[(i64, i64)],
    vertex: Option<&Vertex>,
) -> Result<Option<Proof>, AllocError>
    requires columns { length ranges.now ≡ system.now.columns }
    requires few { length system.now.rows + 2 * system.now.columns ≤ 1024 }
    ensures valid { IfOk result (λ o. IfSome o (λ p. ValidProof (with_box system.now ranges.now) p)) }
    ensures leaf { IfOk result (λ o. IfSome o IsLeafProof) }
    ensures hard { IfOk result (λ o. IfNone o (IsHard (with_box system.now ranges.now))) }
{
    let boxed = boxed_system(alloc, system, ranges)?;
    if let Some(vertex) = vertex {
        if meets(vertex, &boxed) {
            return Ok(None);
        }
    }
    match refute(alloc, &boxed) {
        Ok(Refutation::Refuted(by)) => Ok(Some(Proof::Leaf(by))),
        Ok(Refutation::Stands) => Ok(None),
        Ok(Refutation::TooMany { made: _made }) => Ok(None),
        Ok(
            Refutation::TooWide {
                made: _made,
                next: _next,
            },
        ) => Ok(None),
        Err(_fault) => Err(AllocError),
    }
}
