//! What is seen of a box by cuts at its least rational point, one upon another.
ghost use Rattle.std.specs.Prelude.{◌≡◌, ◌+◌, ◌<◌, ◌≤◌, ◌∷◌, ◌++◌, [], IfOk, IfSome, length};
ghost use Rattle.std.specs.List.{All};
ghost use Rattle.affc_leaf.specs.Bounds.{IsBound};
ghost use Rattle.affc_leaf.specs.BoxCuts.{IsBoxCut, IsSeen, IsSeenBehind};

use crate::box_cuts::{BoxCut, Seen, before, box_cut, push_copy};
use crate::firsts::least_point;
use crate::leaves::sum_leaf;
use affc_simplex::Bound;
use affc_simplex::rounds::{Cut, Ending, Rounds, rounds_at};
use affc_system::System;
use affc_system::system::MOST_ROWS;
use std::alloc::{AllocError, Global};

/// What the rounds' ending shows of a box.
fn ended(
    alloc: Global,
    system: &System,
    bounds: &[Bound],
    ending: &Ending,
    next: u32,
) -> Result<Seen, AllocError>
    requires width { length bounds.now ≡ system.now.columns }
    requires ranges { All IsBound bounds.now }
    ensures { IfOk result (IsSeen system.now bounds.now next) }
{
    match ending {
        Ending::Sum(sum) => {
            let by = Vec::from_slice(alloc, sum.as_slice())?;
            match sum_leaf(alloc, system, bounds, by, next)? {
                Some(leaf) => Ok(Seen::Empty(leaf)),
                None => Ok(Seen::Nothing),
            }
        }
        Ending::Least(least) => match least_point(alloc, system, bounds, least)? {
            Some(point) => Ok(Seen::Point(point)),
            None => Ok(Seen::Nothing),
        },
    }
}

/// What is seen without a cut, by what is seen with it.
#[inline(never)]
fn behind_cut(alloc: Global, cut: BoxCut, seen: Seen) -> Result<Seen, AllocError>
    ensures { IfOk result (IsSeenBehind cut.by cut.g cut.row seen) }
{
    match seen {
        Seen::Empty(rest) => {
            let proof = before(alloc, cut, rest)?;
            Ok(Seen::Empty(proof))
        }
        Seen::Point(point) => Ok(Seen::Point(point)),
        Seen::Nothing => Ok(Seen::Nothing),
    }
}

/// The cut of planned rows of the system in the box, which then has its row. `None` where a number is too great.
#[inline(never)]
fn push_planned(
    alloc: Global,
    system: &mut System,
    bounds: &[Bound],
    planned: &Cut,
) -> Result<Option<BoxCut>, AllocError>
    requires width { length bounds.now ≡ system.old.columns }
    requires ranges { All IsBound bounds.now }
    ensures cut { IfOk result (λ o. IfSome o (λ c. IsBoxCut system.old bounds.now c.by c.g c.row)) }
    ensures value { IfOk result (λ o. IfSome o (λ c. system.new ≡ record system.old { rows = system.old.rows ++ c.row ∷ [] })) }
{
    let Some(cut) = box_cut(alloc, system, bounds, planned.own.as_slice(), planned.g)? else {
        return Ok(None);
    };
    push_copy(system, &cut)?;
    Ok(Some(cut))
}

/// What the rounds' cuts, from a number on, and their ending show of a box.
fn cut_and_ended(
    alloc: Global,
    mut system: System,
    bounds: &[Bound],
    rounds: &Rounds,
    from: usize,
    next: u32,
) -> Result<Seen, AllocError>
    requires width { length bounds.now ≡ system.columns }
    requires ranges { All IsBound bounds.now }
    requires next { next ≡ length system.rows }
    ensures { IfOk result (IsSeen system bounds.now next) }
{
    if from >= rounds.cuts.len() || next >= MOST_ROWS as u32 {
        return ended(alloc, &system, bounds, &rounds.ending, next);
    }
    let planned: &Cut = &rounds.cuts[from];
    let Some(cut) = push_planned(alloc, &mut system, bounds, planned)? else {
        return Ok(Seen::Nothing);
    };
    match cut_and_ended(alloc, system, bounds, rounds, from + 1, next + 1) {
        Ok(seen) => behind_cut(alloc, cut, seen),
        Err(fault) => Err(fault),
    }
}

/// A proof that a box has no point, or its least point, where cuts at its least rational point show one of them. The rows of the box
/// are in the system.
#[inline(never)]
pub fn seen_by_rounds(
    alloc: Global,
    system: &System,
    bounds: &[Bound],
    next: u32,
) -> Result<Seen, AllocError>
    requires width { length bounds.now ≡ system.now.columns }
    requires ranges { All IsBound bounds.now }
    requires next { next ≡ length system.now.rows }
    ensures { IfOk result (IsSeen system.now bounds.now next) }
{
    let Some(rounds) = rounds_at(alloc, system, bounds)? else {
        return Ok(Seen::Nothing);
    };
    let copy = system.clone()?;
    cut_and_ended(alloc, copy, bounds, &rounds, 0, next)
}
