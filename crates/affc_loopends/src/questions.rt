//! Whether rows imply another one, asked of elimination.
ghost use Rattle.std.specs.Prelude.{◌≡◌, ◌<◌, ◌≤◌, [], length, ◌↔◌, IsTrue, IfOk, remove};
ghost use Rattle.std.specs.List.{All};
ghost use Rattle.affc_system.specs.Systems.{Meets};
ghost use Rattle.affc_loopends.specs.Sizes.{IsPrintable};
ghost use Rattle.affc_loopends.specs.Steps.{IsAnswer};
ghost use Rattle.affc_loopends.specs.Whys.{below_zero, question};

use crate::bounds::Answer;
use affc_eliminate::project::{Projected, project};
use affc_nest::questions::add_rows;
use affc_rows::Form;
use affc_rows::vocabulary::copies;
use affc_system::System;
use std::alloc::{AllocError, Global};

/// The rows without the one at a place.
pub(crate) fn without(rows: &[Form], place: usize, alloc: Global) -> Result<Vec<Form>, AllocError>
    requires { place < length rows.now }
    ensures { IfOk result (λ v. v.items ≡ remove rows.now place) }
{
    let mut others = copies(alloc, rows)?;
    others.remove(place);
    Ok(others)
}

/// The row that a row is at most -1.
fn below_zero(alloc: Global, row: &Form) -> Result<Form, AllocError>
    requires { IsPrintable (length row.now.coefs) row.now }
    ensures { IfOk result (λ f. f ≡ below_zero row.now) }
{
    let opposite = row.opposite(alloc)?;
    Ok(opposite.less(1))
}

/// The system of the question whether these rows imply another one.
fn question(alloc: Global, columns: u32, others: &[Form], row: &Form) -> Result<System, AllocError>
    requires columns { columns ≤ 128 }
    requires few { length others.now ≤ 200 }
    requires others { All (IsPrintable columns) others.now }
    requires row { IsPrintable columns row.now }
    ensures { IfOk result (λ s. s ≡ question columns others.now row.now) }
{
    let mut system = System::new(alloc, columns);
    add_rows(&mut system, others)?;
    let below = below_zero(alloc, row)?;
    system.add(below)?;
    Ok(system)
}

/// Whether all constants are at least 0.
fn are_met(rows: &[Form]) -> bool
    requires { All (λ f. length f.coefs ≡ 0) rows.now }
    ensures { IsTrue result ↔ All (Meets []) rows.now }
{
    rows.iter().all(|row| row.constant >= 0)
}

/// What elimination says of a row beside others.
pub(crate) fn ask(
    alloc: Global,
    columns: u32,
    others: &[Form],
    row: &Form,
) -> Result<Answer, AllocError>
    requires columns { columns ≤ 128 }
    requires few { length others.now ≤ 200 }
    requires others { All (IsPrintable columns) others.now }
    requires row { IsPrintable columns row.now }
    ensures { IfOk result (IsAnswer columns others.now row.now) }
{
    let asked = question(alloc, columns, others, row)?;
    match project(alloc, &asked, 0)? {
        Projected::Rows { rows, made: _ } => {
            if are_met(rows.as_slice()) {
                Ok(Answer::Apart)
            } else {
                Ok(Answer::Implied)
            }
        }
        Projected::TooMany { made } => Ok(Answer::Made { asked, made }),
        Projected::TooWide { made, next } => Ok(Answer::Wide { asked, made, next }),
    }
}
