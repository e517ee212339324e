//! What is wrong with a schedule: its line, and the refusal that tells it.
ghost use Rattle.std.specs.Prelude.{◌≡◌, ◌++◌, ℕ, List, Option, IfOk, codes, decimal, string_bytes};
ghost use Rattle.affc_grammar.specs.Reads.{Reads};
ghost use Rattle.affc_driver.specs.Refusals.{HasSchedFault, IsIllegal};
ghost use Rattle.affc_lines.specs.Causes.{PlanCause, TurnedCause};
ghost use Rattle.affc_lines.specs.Schedule.{schedule_line, sched_line, illegal_line};
ghost use Rattle.affc_lines.specs.Stuck.{array_name};

use crate::refusal::Refusal;
use crate::stuck::{add_instance, add_numbers, array_name};
use affc_ast::text::Text;
use affc_ast::tree::{Instance, Program};
use affc_grammar::laws::one_program;
use affc_schedtext::SchedFault;
use std::alloc::{AllocError, Global};

// What is said of a schedule at a place.
fn schedule_line(alloc: Global, place: usize, words: &str) -> Result<String, AllocError>
    ensures { IfOk result (λ line. string_bytes line ≡ schedule_line place words.now) }
{
    let mut line = String::from_str(alloc, "affc: schedule at ")?;
    write!(line, "{place}")?;
    line.push_str(": ")?;
    line.push_str(words)?;
    Ok(line)
}

// What is said of an inverse form that isn't its iterator.
fn inverse_line(alloc: Global, statement: u32, component: u32) -> Result<String, AllocError>
    ensures { IfOk result (λ line. string_bytes line ≡ codes "affc: schedule: inverse of S" ++ decimal statement ++ codes " component " ++ decimal component) }
{
    let mut line = String::from_str(alloc, "affc: schedule: inverse of S")?;
    write!(line, "{statement}")?;
    line.push_str(" component ")?;
    write!(line, "{component}")?;
    Ok(line)
}

// What is said of rows and inverse forms that are no basis.
fn basis_line(
    alloc: Global,
    program: &Program,
    array: u32,
    component: u32,
) -> Result<String, AllocError>
    ensures { IfOk result (λ line. string_bytes line ≡ codes "affc: schedule: basis of " ++ array_name program.now array ++ codes " component " ++ decimal component) }
{
    let mut line = String::from_str(alloc, "affc: schedule: basis of ")?;
    line.push_str(array_name(program, array))?;
    line.push_str(" component ")?;
    write!(line, "{component}")?;
    Ok(line)
}

// What is said of a schedule that is no plan of the program, without the line's end.
fn sched_line(alloc: Global, program: &Program, fault: &SchedFault) -> Result<String, AllocError>
    ensures { IfOk result (λ line. string_bytes line ≡ sched_line program.now fault.now) }
{
    match fault {
        SchedFault::Memory => String::from_str(alloc, "affc: memory"),
        SchedFault::Syntax(place) => schedule_line(alloc, *place, "syntax"),
        SchedFault::Statement(place) => schedule_line(alloc, *place, "statement"),
        SchedFault::Length(place) => schedule_line(alloc, *place, "length"),
        SchedFault::Fold(place) => schedule_line(alloc, *place, "fold"),
        SchedFault::Limit(place) => schedule_line(alloc, *place, "limit"),
        SchedFault::Inverse {
            statement,
            component,
        } => inverse_line(alloc, *statement, *component),
        SchedFault::Basis { array, component } => basis_line(alloc, program, array.0, *component),
    }
}

// What is said of a schedule that at `p` doesn't run `a` before `b`, which depends on it, without the line's end.
fn illegal_line(
    alloc: Global,
    program: &Program,
    p: &[i64],
    a: &Instance,
    b: &Instance,
) -> Result<String, AllocError>
    ensures { IfOk result (λ line. string_bytes line ≡ illegal_line program.now p.now a.now b.now) }
{
    let mut line = String::from_str(alloc, "affc: illegal")?;
    add_numbers(&mut line, " at ", program.params.as_slice(), p)?;
    line.push_str(": ")?;
    add_instance(&mut line, a)?;
    line.push_str(" before ")?;
    add_instance(&mut line, b)?;
    Ok(line)
}

/// The refusal of a source that reads as the program, of which the schedule is no plan.
pub fn unplanned(alloc: Global, program: &Program, fault: &SchedFault) -> Refusal
    ensures { (source : List ℕ) (schedule : Option (List ℕ)) → Reads source program.now → HasSchedFault source schedule fault.now → PlanCause source schedule result }
{
    one_program();
    match sched_line(alloc, program, fault) {
        Ok(line) => Refusal::Schedule(Text::from_string(line)),
        Err(_) => Refusal::Memory,
    }
}

/// The refusal of a source that reads as the program, of which the schedule turns this dependence round at `p`.
pub fn illegal(alloc: Global, program: &Program, p: &[i64], a: &Instance, b: &Instance) -> Refusal
    ensures { (source : List ℕ) (schedule : Option (List ℕ)) → Reads source program.now → IsIllegal source schedule p.now a.now b.now → TurnedCause source schedule result }
{
    one_program();
    match illegal_line(alloc, program, p, a, b) {
        Ok(line) => Refusal::Illegal(Text::from_string(line)),
        Err(_) => Refusal::Memory,
    }
}
