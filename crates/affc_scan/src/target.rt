//! The program of a schedule.
ghost use Rattle.std.specs.Prelude.{◌≡◌, ◌≤◌, ◌+◌, ◌++◌, map, length, true, IfOk};
ghost use Rattle.affc_system.specs.Boxes.{IsBox};
ghost use Rattle.affc_trace.specs.declared.schedule.Schedule.TheVariants.{Time};
ghost use Rattle.affc_loops.specs.Between.{body_between};
ghost use Rattle.affc_loops.specs.Loops.{block_of, time_ranges as ranges_of};
ghost use Rattle.affc_scan.specs.Alive.{numbered, as_scheduled};
ghost use Rattle.affc_scan.specs.Gathered.{AllProjectable, Gathers};
ghost use Rattle.affc_scan.specs.Laws.{IsNestFor};
ghost use Rattle.affc_scan.specs.Numbered.{AllPrintable, AllSpan};
ghost use Rattle.affc_loopends.specs.scanned.Scanned.{IsBetween, Scans};

use crate::alive::{Alive, all_alive};
use crate::blocks::block;
use crate::gathered::{Gathered, gather_all};
use crate::loops::loops_between;
use crate::times::{time_ranges, wider};
use affc_ast::Items;
use affc_ast::copies::all as copies;
use affc_ast::text::Text;
use affc_ast::tree::{Ix, Program, Stmt};
use affc_loopends::scanned::Scanned;
use affc_nest::{Nest, all_sites};
use affc_trace::{Schedule, TimeMap};
use std::alloc::{AllocError, Global};

/// Adds the blocks of these statements.
fn add_blocks(
    alloc: Global,
    first: u32,
    more: u32,
    statements: &[Alive<'_, '_>],
    made: Items<Stmt>,
) -> Result<Items<Stmt>, AllocError>
    requires few { first + more ≤ 512 }
    requires printable { AllPrintable first (map as_scheduled statements.now) }
    ensures { IfOk result (λ x. x ≡ made ++ map (block_of first more) (map as_scheduled statements.now)) }
{
    let mut made = made;
    match statements {
        [] => Ok(made),
        [alive, rest @ ..] => {
            made.push(block(alloc, first, more, alive)?)?;
            add_blocks(alloc, first, more, rest, made)
        }
    }
}

/// The loops between these ends round the blocks of these statements, where so many parameters are in sight.
fn body(
    alloc: Global,
    first: u32,
    ends: Items<(Ix, Ix)>,
    statements: &[Alive<'_, '_>],
) -> Result<Items<Stmt>, AllocError>
    requires few { first ≤ 4 }
    requires short { length ends ≤ 12 }
    requires printable { AllPrintable first (map as_scheduled statements.now) }
    ensures { IfOk result (λ x. x ≡ body_between first ends (map as_scheduled statements.now)) }
{
    match statements {
        [] => Ok(Items::new(alloc)),
        [_, ..] => {
            let more = ends.len() as u32;
            let none = Items::new(alloc);
            let blocks = add_blocks(alloc, first, more, statements, none)?;
            loops_between(alloc, ends, blocks)
        }
    }
}

/// The program with another body and the prelude.
fn with_body(alloc: Global, program: &Program, body: Items<Stmt>) -> Result<Program, AllocError>
    ensures { IfOk result (λ q. q ≡ record { name = program.now.name; params = program.now.params; context = program.now.context; temps = program.now.temps; body = body; prelude = true }) }
{
    let name = Text::from_str(alloc, program.name.as_str())?;
    let params = copies(alloc, program.params.as_slice())?;
    let context = copies(alloc, program.context.as_slice())?;
    let temps = copies(alloc, program.temps.as_slice())?;
    Ok(Program {
        name,
        params,
        context,
        temps,
        body,
        prelude: true,
    })
}

/// What is gathered of these statements, by the ranges of all their times.
fn projected(
    alloc: Global,
    nest: &Nest,
    first: u32,
    statements: &[Alive<'_, '_>],
) -> Result<Gathered, AllocError>
    requires first { first ≡ length nest.now.params }
    requires few { first ≤ 4 }
    requires spans { AllSpan nest.now.params (map as_scheduled statements.now) }
    requires ordered { IsBox (ranges_of nest.now.params (map as_scheduled statements.now)) }
    requires statements { AllProjectable nest.now (nest.now.params ++ ranges_of nest.now.params (map as_scheduled statements.now)) (map numbered statements.now) }
    ensures all { IfOk result (Gathers nest.now (nest.now.params ++ ranges_of nest.now.params (map as_scheduled statements.now)) first (map numbered statements.now)) }
    ensures short { IfOk result (λ made. length made.ends ≤ 12) }
{
    let times = time_ranges(alloc, &nest.params, statements)?;
    let params = nest.params.clone()?;
    let ranges = wider(params, times.as_slice())?;
    gather_all(alloc, nest, &ranges, first, statements)
}

/// The program of these times, of which each has so many components.
fn scan_times(
    alloc: Global,
    program: &Program,
    nest: &Nest,
    length: u32,
    maps: &[TimeMap],
) -> Result<Scanned, AllocError>
    requires nest { IsNestFor program.now nest.now (Time length maps.now) }
    ensures { IfOk result (IsBetween program.now maps.now) }
{
    let sites = all_sites(alloc, program)?;
    let entries = nest.entries.as_slice();
    let found = all_alive(alloc, sites.as_slice(), entries, maps)?;
    let statements = found.as_slice();
    let first = nest.params.ranges().len() as u32;
    let Gathered { ends, loose } = projected(alloc, nest, first, statements)?;
    let body = body(alloc, first, ends, statements)?;
    let program = with_body(alloc, program, body)?;
    Ok(Scanned { program, loose })
}

/// The program that runs `program` in the order of a schedule: for times, loops with a block for each statement that can have instances, between
/// ends that are projected from the statements' time sets; for the source's order, the program itself. The nest is the source's, where
/// `program` is the source with other subscripts.
pub fn scan(
    alloc: Global,
    program: &Program,
    nest: &Nest,
    schedule: &Schedule,
) -> Result<Scanned, AllocError>
    requires nest { IsNestFor program.now nest.now schedule.now }
    ensures { IfOk result (Scans program.now schedule.now) }
{
    match schedule {
        Schedule::Source => {
            let program = program.to_owned(alloc)?;
            Ok(Scanned {
                program,
                loose: Vec::new(alloc),
            })
        }
        Schedule::Time { length, maps } => scan_times(
            alloc,
            program,
            nest,
            *length,
            maps.as_slice(),
        ),
    }
}
