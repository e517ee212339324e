//! Whether a schedule is legal.
ghost use Rattle.std.specs.Prelude.{◌≡◌, ◌≤◌, Some, IsNone, IfOk, OnOk, IfErr};
ghost use Rattle.affc_legal.specs.Answers.{IfIllegal};
ghost use Rattle.affc_legal.specs.Legal.{IsLegal, IsFirstIllegal, AreProofs};
ghost use Rattle.affc_sched.specs.Legality.{IsAsked};
ghost use Rattle.affc_sched.specs.Questions.{legality_questions};

use crate::settling::settle;
use crate::violation::Violation;
use affc_ast::tree::Instance;
use affc_farkas::Proof;
use affc_nest::Nest;
use affc_split::{Budget, Stop};
use affc_trace::schedule::Schedule;
use sqlite_items::Items;
use std::alloc::Global;
use thiserror::Error;

/// That a schedule is legal: a proof for each question, in order.
#[derive(Drop)]
pub struct LegalProof {
    pub proofs: Vec<Proof>,
}

/// Why a schedule isn't shown to be legal.
#[derive(Debug, Drop, Error)]
pub enum SchedStop {
    /// At `p`, the values of the number parameters, `b` depends on `a`, and the schedule runs it before `a`.
    #[error("a dependence of statement {} on statement {} is turned round", b.statement, a.statement)]
    Illegal {
        p: Items<i64>,
        a: Instance,
        b: Instance,
    },
    #[error("the budget is spent")]
    Budget,
    #[error("out of memory")]
    Memory,
}

impl From<Stop> for SchedStop {
    ghost use Rattle.std.specs.Prelude.{◌≡◌};
    ghost use Rattle.affc_legal.specs.Answers.{stop_of};

    ghost from_gives = { λ stop s. s ≡ stop_of stop };

    fn from(stop: Stop) -> SchedStop {
        match stop {
            Stop::Budget => SchedStop::Budget,
            Stop::Memory => SchedStop::Memory,
        }
    }
}

/// Shows that a schedule is legal, or names the first dependence that it turns round. A unit of the budget is a box of a
/// question that is opened.
pub fn legal(
    alloc: Global,
    nest: &Nest,
    schedule: &Schedule,
    budget: &mut Budget,
) -> Result<LegalProof, SchedStop>
    requires asked { IsAsked nest.now schedule.now }
    ensures legal { OnOk result (IsLegal nest.now schedule.now) }
    ensures proofs { IfOk result (λ r. AreProofs (legality_questions nest.now schedule.now) r.proofs.items) }
    ensures illegal { IfErr result (λ e. IfIllegal e (IsFirstIllegal nest.now schedule.now)) }
    ensures limit { budget.new.limit ≡ budget.old.limit }
    ensures grows { budget.old.spent ≤ budget.new.spent }
    ensures uncounted { IsNone budget.old.limit → budget.new.spent ≡ budget.old.spent }
    ensures stop { IfErr result (λ e. e ≡ SchedStop.Budget → budget.new.limit ≡ Some budget.new.spent) }
{
    let mut proofs = Vec::new(alloc);
    match settle(alloc, nest, schedule, budget, &mut proofs)? {
        None => Ok(LegalProof { proofs }),
        Some(Violation { key: _, p, a, b }) => Err(SchedStop::Illegal { p, a, b }),
    }
}
