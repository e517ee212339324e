//! The halves of a box, and the parts at a place.
ghost use Rattle.std.specs.Prelude.{◌≡◌, ℤ, ◌+◌, ◌-◌, ◌^◌, ◌<◌, ◌≤◌, ◌+ℤ◌, ◌-ℤ◌, ◌≤ℤ◌, ◌<ℤ◌, pos, IfOk, length};
ghost use Rattle.std.specs.List.{All};
ghost use Rattle.affc_leaf.specs.Bounds.{IsBound, size, FirstFree, lowered, raised, bound_at};
ghost use Rattle.affc_leaf.specs.Parts.{Ready};

use crate::bounds::{lower_half, middle, upper_half};
use affc_simplex::Bound;
use affc_system::System;
use std::alloc::{AllocError, Global};

/// The middle of a free column.
#[tactic(auto, using(crate::proofs::Halves::two_points))]
pub fn middle_of(bounds: &[Bound], j: usize) -> i64
    requires ranges { All IsBound bounds.now }
    requires free { FirstFree bounds.now j }
    ensures two { 2 ≤ size bounds.now }
    ensures low_in { (bound_at bounds.now j).low ≤ℤ result }
    ensures high_in { result <ℤ (bound_at bounds.now j).high }
    ensures low_half { ((result -ℤ (bound_at bounds.now j).low) +ℤ (result -ℤ (bound_at bounds.now j).low)) ≤ℤ ((bound_at bounds.now j).high -ℤ (bound_at bounds.now j).low) }
    ensures high_half { (((bound_at bounds.now j).high -ℤ result) +ℤ ((bound_at bounds.now j).high -ℤ result)) ≤ℤ (((bound_at bounds.now j).high -ℤ (bound_at bounds.now j).low) +ℤ pos 1) }
{
    middle(bounds[j].low, bounds[j].high)
}

/// The lower half, ready to be searched.
#[inline(never)]
pub fn low_box(
    alloc: Global,
    system: &System,
    bounds: &[Bound],
    j: usize,
    at: i64,
    next: u32,
    left: u32,
) -> Result<Vec<Bound>, AllocError>
    requires ready { Ready system.now.columns bounds.now next left }
    requires free { FirstFree bounds.now j }
    requires low_in { (bound_at bounds.now j).low ≤ℤ at }
    requires high_in { at <ℤ (bound_at bounds.now j).high }
    requires half { ((at -ℤ (bound_at bounds.now j).low) +ℤ (at -ℤ (bound_at bounds.now j).low)) ≤ℤ ((bound_at bounds.now j).high -ℤ (bound_at bounds.now j).low) }
    ensures value { IfOk result (λ v. v.items ≡ lowered bounds.now j at next) }
    ensures ready { IfOk result (λ v. Ready system.now.columns v.items (next + 1) (left - 1)) }
    ensures fuel { 1 ≤ left }
    ensures count { IfOk result (λ v. size v.items + size (raised bounds.now j at next) ≡ size bounds.now) }
    ensures more { 1 ≤ size (raised bounds.now j at next) }
{
    lower_half(alloc, bounds, j, at, next)
}

/// The upper half, ready to be searched.
#[inline(never)]
pub fn high_box(
    alloc: Global,
    system: &System,
    bounds: &[Bound],
    j: usize,
    at: i64,
    next: u32,
    left: u32,
) -> Result<Vec<Bound>, AllocError>
    requires ready { Ready system.now.columns bounds.now next left }
    requires free { FirstFree bounds.now j }
    requires low_in { (bound_at bounds.now j).low ≤ℤ at }
    requires high_in { at <ℤ (bound_at bounds.now j).high }
    requires half { (((bound_at bounds.now j).high -ℤ at) +ℤ ((bound_at bounds.now j).high -ℤ at)) ≤ℤ (((bound_at bounds.now j).high -ℤ (bound_at bounds.now j).low) +ℤ pos 1) }
    ensures value { IfOk result (λ v. v.items ≡ raised bounds.now j at next) }
    ensures ready { IfOk result (λ v. Ready system.now.columns v.items (next + 1) (left - 1)) }
    ensures count { IfOk result (λ v. size v.items ≡ size (raised bounds.now j at next)) }
{
    upper_half(alloc, bounds, j, at, next)
}

/// The part at a place and below, ready to be searched.
#[inline(never)]
pub fn low_part(
    alloc: Global,
    system: &System,
    bounds: &[Bound],
    j: usize,
    at: i64,
    next: u32,
    left: u32,
) -> Result<Vec<Bound>, AllocError>
    requires ready { Ready system.now.columns bounds.now next left }
    requires room { (next + 1) + left < 2 ^ 32 }
    requires there { j < length bounds.now }
    requires low_in { (bound_at bounds.now j).low ≤ℤ at }
    requires high_in { at <ℤ (bound_at bounds.now j).high }
    ensures value { IfOk result (λ v. v.items ≡ lowered bounds.now j at next) }
    ensures ready { IfOk result (λ v. Ready system.now.columns v.items (next + 1) left) }
    ensures count { IfOk result (λ v. size v.items ≤ size bounds.now) }
{
    lower_half(alloc, bounds, j, at, next)
}

/// The part above a place, ready to be searched.
#[inline(never)]
pub fn high_part(
    alloc: Global,
    system: &System,
    bounds: &[Bound],
    j: usize,
    at: i64,
    next: u32,
    left: u32,
) -> Result<Vec<Bound>, AllocError>
    requires ready { Ready system.now.columns bounds.now next left }
    requires room { (next + 1) + left < 2 ^ 32 }
    requires there { j < length bounds.now }
    requires low_in { (bound_at bounds.now j).low ≤ℤ at }
    requires high_in { at <ℤ (bound_at bounds.now j).high }
    ensures value { IfOk result (λ v. v.items ≡ raised bounds.now j at next) }
    ensures ready { IfOk result (λ v. Ready system.now.columns v.items (next + 1) left) }
    ensures count { IfOk result (λ v. size v.items ≤ size bounds.now) }
{
    upper_half(alloc, bounds, j, at, next)
}
