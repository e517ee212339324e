//! Rows of comparisons, put into a system.
ghost use Rattle.std.specs.Prelude.{◌≡◌, ◌+◌, ◌<◌, ◌≤◌, ◌∷◌, [], length, OnOk};
ghost use Rattle.affc_nest.specs.Domains.{gap_row, compare_rows, with_rows};
ghost use Rattle.affc_nest.specs.Sides.{IsSide};

use affc_ast::tree::Rel;
use affc_rows::Form;
use affc_system::System;
use std::alloc::{AllocError, Global};

/// Adds the row `b - a - k`.
#[tactic(auto, using(crate::proofs::RowLemmas::not_too_wide))]
pub(crate) fn add_gap(
    alloc: Global,
    system: &mut System,
    a: &Form,
    b: &Form,
    k: u32,
) -> Result<(), AllocError>
    requires first { IsSide system.old.columns a.now }
    requires second { IsSide system.old.columns b.now }
    requires step { k ≤ 1 }
    requires room { length system.old.rows < 1024 }
    ensures { OnOk result (system.new ≡ with_rows system.old (gap_row a.now b.now k ∷ [])) }
{
    let row = Form::gap(alloc, a, b, k)?;
    system.add(row)
}

/// Adds the rows of a comparison.
pub fn add_compare(
    alloc: Global,
    system: &mut System,
    rel: Rel,
    a: &Form,
    b: &Form,
) -> Result<(), AllocError>
    requires first { IsSide system.old.columns a.now }
    requires second { IsSide system.old.columns b.now }
    requires room { length system.old.rows + 1 < 1024 }
    ensures { OnOk result (system.new ≡ with_rows system.old (compare_rows rel a.now b.now)) }
{
    match rel {
        Rel::Less => add_gap(alloc, system, a, b, 1),
        Rel::LessEqual => add_gap(alloc, system, a, b, 0),
        Rel::Greater => add_gap(alloc, system, b, a, 1),
        Rel::GreaterEqual => add_gap(alloc, system, b, a, 0),
        Rel::Equal => {
            add_gap(alloc, system, b, a, 0)?;
            add_gap(alloc, system, a, b, 0)
        }
        Rel::NotEqual => Ok(()),
    }
}
