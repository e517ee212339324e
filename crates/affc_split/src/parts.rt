//! What the parts of a box say of the whole.
ghost use Rattle.std.specs.Prelude.{◌≡◌, ℤ, ◌+◌, ◌<◌, ◌≤ℤ◌, pos, IfOk, IfSome, IfNone, OnErr, Err, length};
ghost use Rattle.std.specs.List.{All};
ghost use Rattle.affc_system.specs.Systems.{IsPoint};
ghost use Rattle.affc_leaf.specs.Bounds.{IsBound, AllSingle, lows, top_value};
ghost use Rattle.affc_leaf.specs.Parts.{IsLeast, IsEmpty};
ghost use Rattle.affc_split.specs.Openings.{nodes};
ghost use Rattle.affc_split.specs.Search.{IsFound, IsReady, IsSplit, part_of, other_side};
ghost use Rattle.affc_split.specs.Searches.{HasNodes, IsBeside};

use crate::budget::Stop;
use crate::search::{Found, Here, Side, Split};
use affc_farkas::Proof;
use affc_leaf::bounds::low_ends;
use affc_rows::Form;
use affc_simplex::Bound;
use affc_system::System;
use std::alloc::Global;

/// The one point of a box of one point.
#[inline(never)]
pub(crate) fn single(
    alloc: Global,
    system: &System,
    bounds: &[Bound],
    next: u32,
) -> Result<Found, Stop>
    requires width { length bounds.now ≡ system.now.columns }
    requires ranges { All IsBound bounds.now }
    requires single { AllSingle bounds.now }
    requires none { All (λ row. pos 0 ≤ℤ top_value row bounds.now) system.now.rows }
    ensures answer { IfOk result (λ a. IsFound system.now bounds.now next a) }
    ensures memory { OnErr result (result ≡ Err Stop.Memory) }
{
    let _rows = system.rows();
    let Ok(point) = low_ends(alloc, bounds) else {
        return Err(Stop::Memory);
    };
    Ok(Found::Point(point))
}

/// The proof of a box from those of its sides.
#[inline(never)]
fn joined(here: &Here<'_>, split: Split, low: Box<Proof>, high: Box<Proof>) -> Result<Found, Stop>
    requires ready { IsReady here.now }
    requires split { IsSplit here.now.bounds.now split }
    requires low { IsEmpty here.now.system.now (part_of Side.Low here.now.bounds.now split here.now.next) (here.now.next + 1) low.value }
    requires high { IsEmpty here.now.system.now (part_of Side.High here.now.bounds.now split here.now.next) (here.now.next + 1) high.value }
    ensures answer { IfOk result (IsFound here.now.system.now here.now.bounds.now here.now.next) }
    ensures nodes { IfOk result (HasNodes ((nodes low.value + nodes high.value) + 1)) }
    ensures memory { OnErr result (result ≡ Err Stop.Memory) }
{
    let form = Form::column(here.alloc, here.system.columns(), split.column as u32)?;
    let both = Proof::Split {
        form,
        at: split.at,
        low,
        high,
    };
    let Ok(whole) = Box::new(here.alloc, both) else {
        return Err(Stop::Memory);
    };
    Ok(Found::Empty(whole))
}

/// What is found in a box of which one side has a proof, by what is found in the other.
#[inline(never)]
pub(crate) fn beside(
    here: &Here<'_>,
    split: Split,
    side: Side,
    proof: Box<Proof>,
    other: Found,
) -> Result<Found, Stop>
    requires ready { IsReady here.now }
    requires split { IsSplit here.now.bounds.now split }
    requires proof { IsEmpty here.now.system.now (part_of side here.now.bounds.now split here.now.next) (here.now.next + 1) proof.value }
    requires other { IsFound here.now.system.now (part_of (other_side side) here.now.bounds.now split here.now.next) (here.now.next + 1) other }
    ensures answer { IfOk result (IsFound here.now.system.now here.now.bounds.now here.now.next) }
    ensures beside { IfOk result (IsBeside (nodes proof.value) other) }
    ensures memory { OnErr result (result ≡ Err Stop.Memory) }
{
    match other {
        Found::Point(point) => {
            drop(proof);
            Ok(Found::Point(point))
        }
        Found::Empty(other) => match side {
            Side::Low => joined(here, split, proof, other),
            Side::High => joined(here, split, other, proof),
        },
    }
}

/// The low corner of a box, where every row is at least 0 there: no point of the box is before it.
#[inline(never)]
pub(crate) fn at_lows(
    alloc: Global,
    system: &System,
    bounds: &[Bound],
) -> Result<Option<Vec<i64>>, Stop>
    requires width { length bounds.now ≡ system.now.columns }
    requires ranges { All IsBound bounds.now }
    ensures least { IfOk result (λ o. IfSome o (λ x. IsLeast system.now bounds.now x.items)) }
    ensures none { IfOk result (λ o. IfNone o (IsPoint system.now (lows bounds.now) → ⊥)) }
    ensures memory { OnErr result (result ≡ Err Stop.Memory) }
{
    let _rows = system.rows();
    let point = low_ends(alloc, bounds)?;
    if system.holds_at(point.as_slice()) {
        return Ok(Some(point));
    }
    Ok(None)
}
