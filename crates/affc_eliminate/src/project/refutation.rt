//! Whether a system has a rational point.
ghost use Rattle.std.specs.Prelude.{IfOk};
ghost use Rattle.affc_eliminate.specs.Screens.{TakesForms, ImpliesWhereTrue};
ghost use Rattle.affc_eliminate.specs.project.Answers.{IsAnswer};
ghost use Rattle.affc_eliminate.specs.project.States.{IsDone};

use crate::project::contradiction::contradiction;
use crate::project::direction::same_direction;
use crate::project::elimination::eliminated;
use crate::project::work::{Stop, Work};
use crate::{Screen, Test};
use affc_farkas::{Multipliers, Pair};
use affc_system::System;
use std::alloc::{AllocError, Global};

/// What the elimination of all columns finds.
#[derive(Drop)]
pub enum Refutation {
    /// The multiples of the rows sum to a constant below 0.
    Refuted(Multipliers),
    /// Some rational point meets every row.
    Stands,
    /// These 4,096 pairs are an elimination.
    TooMany { made: Vec<Pair> },
    /// These pairs are an elimination, and in the row of the next one a number is too great.
    TooWide { made: Vec<Pair>, next: Pair },
}

/// What the rows say that are left once all columns are eliminated.
fn answered(system: &System, work: Work) -> Refutation
    requires { IsDone system.now.columns system.now.rows 0 work.made.items work.live.items }
    ensures { IsAnswer system.now.columns system.now.rows result }
{
    let Work { live, made: _made } = work;
    let mut live = live;
    match contradiction(live.as_slice()) {
        Some(place) => {
            let kept = live.swap_remove(place);
            let _pairs = kept.from.pairs();
            Refutation::Refuted(kept.from)
        }
        None => Refutation::Stands,
    }
}

/// The answer by a test of whether one row says all that another says.
fn refuted_by<F: Test>(alloc: Global, system: &System, test: F) -> Result<Refutation, AllocError>
    requires takes { TakesForms (F.takes test) }
    requires implies { ImpliesWhereTrue (F.answers test) }
    ensures { IfOk result (IsAnswer system.now.columns system.now.rows) }
{
    let screen = Screen::new(test);
    match eliminated(alloc, system, &screen, 0) {
        Ok(work) => Ok(answered(system, work)),
        Err(Stop::TooMany { made }) => Ok(Refutation::TooMany { made }),
        Err(Stop::TooWide { made, next }) => Ok(Refutation::TooWide { made, next }),
        Err(Stop::Memory) => Err(AllocError),
    }
}

/// Whether a rational point meets every row (Fourier and Motzkin): eliminates all columns, each time the one that makes the fewest
/// pairs, until a row says that a number below 0 is at least 0.
pub fn refute(alloc: Global, system: &System) -> Result<Refutation, AllocError>
    ensures { IfOk result (IsAnswer system.now.columns system.now.rows) }
{
    refuted_by(alloc, system, same_direction)
}
