//! The search with the cuts of a system's rows.
ghost use Rattle.std.specs.Prelude.{◌≡◌, ◌+◌, ◌-◌, ◌<◌, ◌≤◌, IfOk, OnErr, Err, length};
ghost use Rattle.affc_leaf.specs.Bounds.{ranges_of};
ghost use Rattle.affc_leaf.specs.Parts.{Ready};
ghost use Rattle.affc_split.specs.Search.{IsFound, IsReady};
ghost use Rattle.affc_split.specs.Searches.{AreFewer, IsBehind, Spends};

use crate::budget::{Budget, Stop};
use crate::search::{Found, Here, SPARE, inside};
use affc_leaf::box_cuts::{Seen, seen_at};
use affc_leaf::cuts::{Quotient, cut_proof, next_cut, push_cut};
use affc_leaf::rounds::seen_by_rounds;
use affc_simplex::Bound;
use affc_system::System;
use affc_system::system::MOST_ROWS;
use std::alloc::Global;

/// Searches a box that is open, after a look at it, and after cuts at its least rational point.
#[inline(never)]
fn rooted(here: &Here<'_>, budget: &mut Budget) -> Result<Found, Stop>
    requires ready { IsReady here.now }
    requires next { here.now.next ≡ length here.now.system.now.rows }
    ensures answer { IfOk result (IsFound here.now.system.now here.now.bounds.now here.now.next) }
    ensures spends { Spends (AreFewer 0) 0 (ranges_of here.now.bounds.now) budget.old budget.new result }
{
    match seen_at(here.alloc, here.system, here.bounds, here.next)? {
        Seen::Empty(proof) => Ok(Found::Empty(proof)),
        Seen::Point(point) => Ok(Found::Point(point)),
        Seen::Nothing => in_rounds(here, budget),
    }
}

/// Searches a box that is open, after cuts at its least rational point.
#[inline(never)]
fn in_rounds(here: &Here<'_>, budget: &mut Budget) -> Result<Found, Stop>
    requires ready { IsReady here.now }
    requires next { here.now.next ≡ length here.now.system.now.rows }
    ensures answer { IfOk result (IsFound here.now.system.now here.now.bounds.now here.now.next) }
    ensures spends { Spends (AreFewer 0) 0 (ranges_of here.now.bounds.now) budget.old budget.new result }
{
    match seen_by_rounds(here.alloc, here.system, here.bounds, here.next)? {
        Seen::Empty(proof) => Ok(Found::Empty(proof)),
        Seen::Point(point) => Ok(Found::Point(point)),
        Seen::Nothing => inside(here, budget),
    }
}

/// What is found without a cut, by what is found with it.
#[inline(never)]
fn behind_cut(alloc: Global, cut: Quotient, found: Found) -> Result<Found, Stop>
    requires { cut.number < 1024 }
    ensures behind { IfOk result (IsBehind cut found) }
    ensures memory { OnErr result (result ≡ Err Stop.Memory) }
{
    match found {
        Found::Point(point) => Ok(Found::Point(point)),
        Found::Empty(rest) => {
            let proof = cut_proof(alloc, cut, rest)?;
            Ok(Found::Empty(proof))
        }
    }
}

/// Cuts each row, from a number on, that gains by it, and searches the box with the cuts.
pub(crate) fn with_cuts(
    alloc: Global,
    mut system: System,
    bounds: &[Bound],
    from: usize,
    count: usize,
    next: u32,
    left: u32,
    budget: &mut Budget,
) -> Result<Found, Stop>
    requires ready { Ready system.columns bounds.now next left }
    requires next { next ≡ length system.rows }
    requires left { left ≤ 8000 }
    ensures answer { IfOk result (IsFound system bounds.now next) }
    ensures spends { Spends (AreFewer 0) 0 (ranges_of bounds.now) budget.old budget.new result }
{
    if next < MOST_ROWS as u32 {
        if let Some(cut) = next_cut(alloc, &system, from, count)? {
            let from = cut.number + 1;
            push_cut(&mut system, &cut)?;
            return match with_cuts(alloc, system, bounds, from, count, next + 1, left, budget) {
                Ok(found) => behind_cut(alloc, cut, found),
                Err(stop) => Err(stop),
            };
        }
    }
    let here = Here {
        alloc,
        system: &system,
        bounds,
        next,
        left,
        spare: SPARE,
    };
    rooted(&here, budget)
}
