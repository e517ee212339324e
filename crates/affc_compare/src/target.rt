//! Instances in the target of a schedule.
ghost use Rattle.affc_trace.specs.Target.{target};
ghost use Rattle.affc_compare.specs.Asked.{AreAsked};
ghost use Rattle.affc_compare.specs.Compared.{IsOrderIn};

use crate::source::by_loops;
use crate::time::by_time;
use affc_ast::tree::{Instance, Program};
use affc_trace::schedule::Schedule;
use std::cmp::Ordering;

/// Which of two instances runs first under the schedule, at the values `p` of the number parameters, in order of
/// declaration. No memory is taken.
pub fn target_cmp(
    schedule: &Schedule,
    program: &Program,
    a: &Instance,
    b: &Instance,
    p: &[i64],
) -> Ordering
    requires { AreAsked program.now schedule.now p.now a.now b.now }
    ensures { IsOrderIn (target program.now schedule.now p.now) a.now b.now result }
{
    match schedule {
        Schedule::Source => by_loops(program, a, b),
        Schedule::Time { length: _, maps } => by_time(maps.as_slice(), p, a, b),
    }
}
