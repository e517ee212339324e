//! The search through the parts of a box.
ghost use Rattle.std.specs.Prelude.{◌≡◌, ℤ, ◌+◌, ◌-◌, ◌*◌, ◌<◌, ◌≤◌, ◌≤ℤ◌, pos, IfOk, IfSome, IfNone, OnErr, Err};
ghost use Rattle.std.specs.List.{All};
ghost use Rattle.affc_leaf.specs.Bounds.{FirstFree, bound_at, ranges_of, top_value};
ghost use Rattle.affc_leaf.specs.Parts.{IsEmpty, Ready};
ghost use Rattle.affc_split.specs.Search.{IsFound, IsReady, IsSplit, IsEven, IsTrim, part_of, other_side};
ghost use Rattle.affc_split.specs.Searches.{AreFewer, Spends};

use crate::budget::{Budget, Stop};
use crate::parts::{at_lows, beside, single};
use affc_farkas::Proof;
use affc_leaf::bounds::first_free;
use affc_leaf::box_cuts::{Seen, seen_at};
use affc_leaf::flat::{Met, found_flat};
use affc_leaf::leaves::row_leaf;
use affc_leaf::parts::{high_box, high_part, low_box, low_part, middle_of};
use affc_leaf::places::{find_place, is_below};
use affc_leaf::tops::broken;
use affc_simplex::Bound;
use affc_system::System;
use std::alloc::{AllocError, Global};

/// What is decided: a proof that there is no point, or the least one.
#[derive(Drop)]
pub enum Answer {
    Empty(Proof),
    Point(Vec<i64>),
}

/// What is found in a part of the box.
#[derive(Drop)]
pub(crate) enum Found {
    Empty(Box<Proof>),
    Point(Vec<i64>),
}

/// The most uneven splits on the way to a part of the box.
pub(crate) const SPARE: u32 = 100;

/// How many times a column can be halved.
pub(crate) const MOST_HALVES: u32 = 62;

/// How many times a box is halved before forms that take few values in it are looked for.
const FEW_HALVES: u32 = 3;

/// Where a search stands: a box that is open, and what is left on the way down from it.
#[derive(Clone, Copy)]
pub(crate) struct Here<'a> {
    pub(crate) alloc: Global,
    pub(crate) system: &'a System,
    pub(crate) bounds: &'a [Bound],
    /// The number of the row that a split adds.
    pub(crate) next: u32,
    /// How many times columns can be halved.
    pub(crate) left: u32,
    /// How many uneven splits are left.
    pub(crate) spare: u32,
}

/// A column in two: its values up to one, and those above it.
#[derive(Clone, Copy)]
pub(crate) struct Split {
    pub(crate) column: usize,
    pub(crate) at: i64,
}

/// A side of a split.
#[derive(Clone, Copy)]
pub(crate) enum Side {
    Low,
    High,
}

impl Side {
    /// The other one.
    fn other(self) -> Side
        ensures { result ≡ other_side self }
    {
        match self {
            Side::Low => Side::High,
            Side::High => Side::Low,
        }
    }
}

/// An uneven split: a proof that one side has no point, and the rest.
#[derive(Drop)]
pub(crate) struct Trim {
    split: Split,
    side: Side,
    proof: Box<Proof>,
    rest: Vec<Bound>,
}

/// Ends a search: the proof of a part is let go outside the frame of the search, which is small so that it can be deep.
#[inline(never)]
fn stopped(proof: Box<Proof>, stop: Stop) -> Result<Found, Stop>
    ensures { result ≡ Err stop }
{
    drop(proof);
    Err(stop)
}

/// What a box says by itself: a row is below 0 in it, or its low corner is a point.
#[inline(never)]
fn seen(here: &Here<'_>) -> Result<Option<Found>, Stop>
    requires ready { IsReady here.now }
    ensures answer { IfOk result (λ o. IfSome o (IsFound here.now.system.now here.now.bounds.now here.now.next)) }
    ensures none { IfOk result (λ o. IfNone o (All (λ row. pos 0 ≤ℤ top_value row here.now.bounds.now) here.now.system.now.rows)) }
    ensures memory { OnErr result (result ≡ Err Stop.Memory) }
{
    if let Some(row) = broken(here.system, here.bounds) {
        let proof = row_leaf(here.alloc, here.system, here.bounds, row, here.next)?;
        return Ok(Some(Found::Empty(proof)));
    }
    match at_lows(here.alloc, here.system, here.bounds)? {
        Some(point) => Ok(Some(Found::Point(point))),
        None => Ok(None),
    }
}

/// One side of an uneven split.
#[inline(never)]
fn part_at(here: &Here<'_>, split: Split, side: Side) -> Result<Vec<Bound>, AllocError>
    requires ready { IsReady here.now }
    requires spare { 1 ≤ here.now.spare }
    requires split { IsSplit here.now.bounds.now split }
    ensures value { IfOk result (λ v. v.items ≡ part_of side here.now.bounds.now split here.now.next) }
    ensures ready { IfOk result (λ v. Ready here.now.system.now.columns v.items (here.now.next + 1) here.now.left) }
{
    let Split { column, at } = split;
    match side {
        Side::Low => low_part(
            here.alloc,
            here.system,
            here.bounds,
            column,
            at,
            here.next,
            here.left,
        ),
        Side::High => high_part(
            here.alloc,
            here.system,
            here.bounds,
            column,
            at,
            here.next,
            here.left,
        ),
    }
}

/// The split, where a row is below 0 on this side of it.
#[inline(never)]
fn trim_at(here: &Here<'_>, split: Split, side: Side, row: usize) -> Result<Option<Trim>, Stop>
    requires ready { IsReady here.now }
    requires spare { 1 ≤ here.now.spare }
    requires split { IsSplit here.now.bounds.now split }
    ensures answer { IfOk result (λ o. IfSome o (IsTrim here.now)) }
    ensures memory { OnErr result (result ≡ Err Stop.Memory) }
{
    let part = part_at(here, split, side)?;
    if !is_below(here.system, part.as_slice(), row) {
        return Ok(None);
    }
    let proof = row_leaf(here.alloc, here.system, part.as_slice(), row, here.next + 1)?;
    let rest = part_at(here, split, side.other())?;
    Ok(Some(Trim {
        split,
        side,
        proof,
        rest,
    }))
}

/// A split of which one row leaves a side empty, where one is found.
#[inline(never)]
fn trim_of(here: &Here<'_>) -> Result<Option<Trim>, Stop>
    requires ready { IsReady here.now }
    ensures answer { IfOk result (λ o. IfSome o (IsTrim here.now)) }
    ensures memory { OnErr result (result ≡ Err Stop.Memory) }
{
    if here.spare == 0 {
        return Ok(None);
    }
    let Some(place) = find_place(here.system, here.bounds) else {
        return Ok(None);
    };
    let split = Split {
        column: place.column,
        at: place.at,
    };
    if let Some(trim) = trim_at(here, split, Side::Low, place.row)? {
        return Ok(Some(trim));
    }
    trim_at(here, split, Side::High, place.row)
}

/// One side of a split in the middle.
#[inline(never)]
fn half_of(here: &Here<'_>, split: Split, side: Side) -> Result<Vec<Bound>, AllocError>
    requires ready { IsReady here.now }
    requires free { FirstFree here.now.bounds.now split.column }
    requires split { IsSplit here.now.bounds.now split }
    requires even { IsEven (bound_at here.now.bounds.now split.column) split.at }
    ensures value { IfOk result (λ v. v.items ≡ part_of side here.now.bounds.now split here.now.next) }
    ensures ready { IfOk result (λ v. Ready here.now.system.now.columns v.items (here.now.next + 1) (here.now.left - 1)) }
    ensures fuel { 1 ≤ here.now.left }
{
    let Split { column, at } = split;
    match side {
        Side::Low => low_box(
            here.alloc,
            here.system,
            here.bounds,
            column,
            at,
            here.next,
            here.left,
        ),
        Side::High => high_box(
            here.alloc,
            here.system,
            here.bounds,
            column,
            at,
            here.next,
            here.left,
        ),
    }
}

/// A proof that a box has no point by splits on forms that take few values in it, where it was halved a few times.
#[inline(never)]
fn flat_proof(here: &Here<'_>) -> Result<Option<Box<Proof>>, Stop>
    requires ready { IsReady here.now }
    ensures answer { IfOk result (λ o. IfSome o (λ p. IsEmpty here.now.system.now here.now.bounds.now here.now.next p.value)) }
    ensures memory { OnErr result (result ≡ Err Stop.Memory) }
{
    let whole = here.system.columns().saturating_mul(MOST_HALVES);
    if whole.saturating_sub(here.left) < FEW_HALVES {
        return Ok(None);
    }
    match found_flat(here.alloc, here.system, here.bounds, here.next)? {
        Some(Met::Empty(proof)) => Ok(Some(proof)),
        _ => Ok(None),
    }
}

/// Searches a box that is open for its least point.
#[cycle(search)]
#[inline(never)]
pub(crate) fn inside(here: &Here<'_>, budget: &mut Budget) -> Result<Found, Stop>
    requires ready { IsReady here.now }
    ensures answer { IfOk result (IsFound here.now.system.now here.now.bounds.now here.now.next) }
    ensures spends { Spends (AreFewer 0) 0 (ranges_of here.now.bounds.now) budget.old budget.new result }
{
    if let Some(found) = seen(here)? {
        return Ok(found);
    }
    if let Some(trim) = trim_of(here)? {
        return trimmed(here, trim, budget);
    }
    if let Some(proof) = flat_proof(here)? {
        return Ok(Found::Empty(proof));
    }
    match first_free(here.bounds) {
        Some(column) => {
            let at = middle_of(here.bounds, column);
            halved(here, Split { column, at }, budget)
        }
        None => single(here.alloc, here.system, here.bounds, here.next),
    }
}

/// Searches the rest of a box of which one side has a proof.
#[cycle(search)]
#[inline(never)]
fn trimmed(here: &Here<'_>, trim: Trim, budget: &mut Budget) -> Result<Found, Stop>
    requires ready { IsReady here.now }
    requires trim { IsTrim here.now trim }
    ensures answer { IfOk result (IsFound here.now.system.now here.now.bounds.now here.now.next) }
    ensures spends { Spends (AreFewer 0) 0 (ranges_of here.now.bounds.now) budget.old budget.new result }
{
    let Trim {
        split,
        side,
        proof,
        rest,
    } = trim;
    let there = Here {
        bounds: rest.as_slice(),
        next: here.next + 1,
        spare: here.spare - 1,
        ..*here
    };
    match inside(&there, budget) {
        Ok(found) => beside(here, split, side, proof, found),
        Err(stop) => stopped(proof, stop),
    }
}

/// Searches the lower half of a box, and then the upper one where the lower one has no point.
#[cycle(search)]
#[inline(never)]
fn halved(here: &Here<'_>, split: Split, budget: &mut Budget) -> Result<Found, Stop>
    requires ready { IsReady here.now }
    requires free { FirstFree here.now.bounds.now split.column }
    requires split { IsSplit here.now.bounds.now split }
    requires even { IsEven (bound_at here.now.bounds.now split.column) split.at }
    ensures answer { IfOk result (IsFound here.now.system.now here.now.bounds.now here.now.next) }
    ensures spends { Spends (AreFewer 0) 0 (ranges_of here.now.bounds.now) budget.old budget.new result }
{
    let low = match half(here, split, Side::Low, budget) {
        Ok(Found::Empty(low)) => low,
        Ok(Found::Point(point)) => return Ok(Found::Point(point)),
        Err(stop) => return Err(stop),
    };
    match half(here, split, Side::High, budget) {
        Ok(found) => beside(here, split, Side::Low, low, found),
        Err(stop) => stopped(low, stop),
    }
}

/// Opens a half of a box, and searches it where nothing is seen of it at once.
#[cycle(search)]
#[inline(never)]
fn half(here: &Here<'_>, split: Split, side: Side, budget: &mut Budget) -> Result<Found, Stop>
    requires ready { IsReady here.now }
    requires free { FirstFree here.now.bounds.now split.column }
    requires split { IsSplit here.now.bounds.now split }
    requires even { IsEven (bound_at here.now.bounds.now split.column) split.at }
    ensures answer { IfOk result (IsFound here.now.system.now (part_of side here.now.bounds.now split here.now.next) (here.now.next + 1)) }
    ensures spends { Spends (AreFewer 0) 1 (ranges_of (part_of side here.now.bounds.now split here.now.next)) budget.old budget.new result }
{
    let part = half_of(here, split, side)?;
    budget.open()?;
    let there = Here {
        bounds: part.as_slice(),
        next: here.next + 1,
        left: here.left - 1,
        ..*here
    };
    match seen_at(there.alloc, there.system, there.bounds, there.next)? {
        Seen::Empty(proof) => Ok(Found::Empty(proof)),
        Seen::Point(point) => Ok(Found::Point(point)),
        Seen::Nothing => inside(&there, budget),
    }
}
