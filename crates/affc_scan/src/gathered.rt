//! The ends of all loops, and the components that have none but their range.
ghost use Rattle.std.specs.Prelude.{◌≡◌, ◌≤◌, ◌+◌, ◌++◌, length, map, OnOk, IfOk};
ghost use Rattle.affc_loops.specs.Ends as specs;
ghost use Rattle.affc_loops.specs.Loops.{times_of};
ghost use Rattle.affc_scan.specs.Alive.{numbered, as_scheduled};
ghost use Rattle.affc_scan.specs.EndRows.{HaveEndRows};
ghost use Rattle.affc_scan.specs.Gathered.{IsProjectable, AllProjectable, GathersOne, GathersMore, Gathers};
ghost use Rattle.affc_scan.specs.Numbered.{HasSpans};
ghost use Rattle.affc_loopends.specs.scanned.Scanned.{sides_of, loose_from};

use crate::alive::Alive;
use crate::ends::{both_ends, ends_from};
use crate::times::times_of;
use affc_ast::Items;
use affc_ast::tree::Ix;
use affc_loopends::scanned::Loose;
use affc_loopends::{Bounds, statement_ends};
use affc_nest::Nest;
use affc_system::BoxOf;
use std::alloc::{AllocError, Global};

/// What is gathered of statements.
#[derive(Drop)]
pub(crate) struct Gathered {
    /// The ends of the loops round them.
    pub ends: Items<(Ix, Ix)>,
    /// The components that have no ends but their range.
    pub loose: Vec<Loose>,
}

/// The ends of a statement's components with these bounds.
fn own_ends(
    alloc: Global,
    first: u32,
    params: &BoxOf,
    alive: &Alive<'_, '_>,
    bounds: &[Bounds],
) -> Result<Items<(Ix, Ix)>, AllocError>
    requires few { first ≤ 4 }
    requires short { length bounds.now ≤ 12 }
    requires rows { HaveEndRows first bounds.now }
    requires spans { HasSpans params.now (as_scheduled alive.now) }
    ensures { IfOk result (λ x. x ≡ specs.ends_from first first (map sides_of bounds.now) (times_of params.now (as_scheduled alive.now))) }
{
    let ranges = times_of(alloc, params, alive)?;
    ends_from(
        alloc,
        first,
        first,
        bounds,
        ranges.as_slice(),
        Items::new(alloc),
    )
}

/// Adds the components of a statement that are loose.
fn add_loose(statement: u32, bounds: Items<Bounds>, made: &mut Vec<Loose>) -> Result<(), AllocError>
    requires { length bounds ≤ 1024 }
    ensures { OnOk result (made.new.items ≡ made.old.items ++ loose_from statement 0 bounds) }
{
    let mut before = bounds;
    let Some(last) = before.pop() else {
        return Ok(());
    };
    let component = before.len() as u32;
    add_loose(statement, before, made)?;
    match last {
        Bounds::Between { lower: _, upper: _ } => Ok(()),
        Bounds::Loose { why } => {
            made.push(Loose {
                statement,
                component,
                why,
            })?;
            Ok(())
        }
    }
}

/// What is gathered of one statement.
fn gather_one(
    alloc: Global,
    nest: &Nest,
    ranges: &BoxOf,
    first: u32,
    alive: &Alive<'_, '_>,
) -> Result<Gathered, AllocError>
    requires first { first ≡ length nest.now.params }
    requires few { first ≤ 4 }
    requires alive { IsProjectable nest.now ranges.now (numbered alive.now) }
    ensures one { IfOk result (GathersOne nest.now ranges.now first (numbered alive.now)) }
    ensures long { IfOk result (λ made. length ranges.now ≡ length nest.now.params + length made.ends) }
{
    let bounds = statement_ends(alloc, nest, alive.entry, alive.times, ranges)?;
    let ends = own_ends(alloc, first, &nest.params, alive, bounds.as_slice())?;
    let mut loose = Vec::new(alloc);
    add_loose(alive.entry.statement, Items::from_vec(bounds), &mut loose)?;
    Ok(Gathered { ends, loose })
}

/// With what is gathered of one statement more.
#[tactic(auto, using(affc_loops::proofs::EndLists::both_long))]
fn gathered_together(alloc: Global, made: Gathered, own: Gathered) -> Result<Gathered, AllocError>
    requires { length made.ends ≡ length own.ends }
    ensures ends { IfOk result (λ all. all.ends ≡ specs.both_ends made.ends own.ends) }
    ensures long { IfOk result (λ all. length all.ends ≡ length made.ends) }
    ensures loose { IfOk result (λ all. all.loose.items ≡ made.loose.items ++ own.loose.items) }
{
    let Gathered { ends, mut loose } = made;
    let Gathered {
        ends: own_ends,
        loose: mut own_loose,
    } = own;
    let ends = both_ends(alloc, ends, own_ends)?;
    loose.append(&mut own_loose)?;
    Ok(Gathered { ends, loose })
}

/// With what is gathered of these statements.
fn gather_more(
    alloc: Global,
    nest: &Nest,
    ranges: &BoxOf,
    first: u32,
    statements: &[Alive<'_, '_>],
    made: Gathered,
) -> Result<Gathered, AllocError>
    requires first { first ≡ length nest.now.params }
    requires few { first ≤ 4 }
    requires statements { AllProjectable nest.now ranges.now (map numbered statements.now) }
    requires long { length ranges.now ≡ length nest.now.params + length made.ends }
    ensures more { IfOk result (GathersMore nest.now ranges.now first (map numbered statements.now) made) }
    ensures long { IfOk result (λ all. length ranges.now ≡ length nest.now.params + length all.ends) }
{
    match statements {
        [] => Ok(made),
        [alive, rest @ ..] => {
            let own = gather_one(alloc, nest, ranges, first, alive)?;
            let both = gathered_together(alloc, made, own)?;
            gather_more(alloc, nest, ranges, first, rest, both)
        }
    }
}

/// What is gathered of all these statements.
pub(crate) fn gather_all(
    alloc: Global,
    nest: &Nest,
    ranges: &BoxOf,
    first: u32,
    statements: &[Alive<'_, '_>],
) -> Result<Gathered, AllocError>
    requires first { first ≡ length nest.now.params }
    requires few { first ≤ 4 }
    requires statements { AllProjectable nest.now ranges.now (map numbered statements.now) }
    ensures all { IfOk result (Gathers nest.now ranges.now first (map numbered statements.now)) }
    ensures short { IfOk result (λ made. length made.ends ≤ 12) }
{
    match statements {
        [] => Ok(Gathered {
            ends: Items::new(alloc),
            loose: Vec::new(alloc),
        }),
        [alive, rest @ ..] => {
            let own = gather_one(alloc, nest, ranges, first, alive)?;
            gather_more(alloc, nest, ranges, first, rest, own)
        }
    }
}
