//! The projection of a system onto its first columns.
ghost use Rattle.std.specs.Prelude.{◌≤◌, IfOk};
ghost use Rattle.affc_eliminate.specs.Screens.{TakesForms, ImpliesWhereTrue};
ghost use Rattle.affc_eliminate.specs.project.Projections.{IsProjection};

use crate::project::direction::same_direction;
use crate::project::elimination::eliminated;
use crate::project::least::reduced;
use crate::project::work::{Stop, Work};
use crate::{Screen, Test};
use affc_farkas::Pair;
use affc_rows::Form;
use affc_system::System;
use std::alloc::{AllocError, Global};

/// What is left of a system once its later columns are eliminated.
#[derive(Drop)]
pub enum Projected {
    /// The rows over the first columns, and the pairs that were made.
    Rows { rows: Vec<Form>, made: Vec<Pair> },
    /// These 4,096 pairs are an elimination.
    TooMany { made: Vec<Pair> },
    /// These pairs are an elimination, and in the row of the next one a number is too great.
    TooWide { made: Vec<Pair>, next: Pair },
}

/// The projection by a test of whether one row says all that another says.
fn projected_by<F: Test>(
    alloc: Global,
    system: &System,
    keep: u32,
    test: F,
) -> Result<Projected, AllocError>
    requires keep_in { keep ≤ system.now.columns }
    requires takes { TakesForms (F.takes test) }
    requires implies { ImpliesWhereTrue (F.answers test) }
    ensures { IfOk result (IsProjection system.now.columns system.now.rows keep) }
{
    let screen = Screen::new(test);
    match eliminated(alloc, system, &screen, keep) {
        Ok(work) => {
            let Work { live, made } = work;
            match reduced(alloc, live.as_slice(), keep as usize) {
                Ok(rows) => Ok(Projected::Rows { rows, made }),
                Err(fault) => Err(fault),
            }
        }
        Err(Stop::TooMany { made }) => Ok(Projected::TooMany { made }),
        Err(Stop::TooWide { made, next }) => Ok(Projected::TooWide { made, next }),
        Err(Stop::Memory) => Err(AllocError),
    }
}

/// The rows over the first `keep` columns that say what the system says of them (Fourier and Motzkin): whole numbers meet them
/// exactly where they extend to a rational point of the system. Each time the column that makes the fewest pairs is eliminated. Once
/// a row says that a number below 0 is at least 0, that row alone is left.
pub fn project(alloc: Global, system: &System, keep: u32) -> Result<Projected, AllocError>
    requires { keep ≤ system.now.columns }
    ensures { IfOk result (IsProjection system.now.columns system.now.rows keep) }
{
    projected_by(alloc, system, keep, same_direction)
}
