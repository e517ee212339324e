//! Boxes as the bounds of their columns.
ghost use Rattle.std.specs.Prelude.{◌≡◌, ℤ, ◌+◌, ◌-◌, ◌^◌, ◌<◌, ◌≤◌, ◌+ℤ◌, ◌-ℤ◌, ◌≤ℤ◌, ◌<ℤ◌, pos, unsigned_abs, IfOk, IfSome, IfNone, length};
ghost use Rattle.std.specs.List.{All};
ghost use Rattle.affc_leaf.specs.Bounds.{IsBound, FirstFree, AllSingle, lowered, raised, lows};

use affc_simplex::Bound;
use std::alloc::{AllocError, Global};

/// The middle of a range of two numbers or more.
pub fn middle(low: i64, high: i64) -> i64
    requires free { low <ℤ high }
    requires low_near { unsigned_abs low ≤ 2 ^ 60 }
    requires high_near { unsigned_abs high ≤ 2 ^ 60 }
    ensures low_in { low ≤ℤ result }
    ensures high_in { result <ℤ high }
    ensures low_half { ((result -ℤ low) +ℤ (result -ℤ low)) ≤ℤ (high -ℤ low) }
    ensures high_half { ((high -ℤ result) +ℤ (high -ℤ result)) ≤ℤ ((high -ℤ low) +ℤ pos 1) }
{
    let gap = (high - low) as u64;
    low + (gap / 2) as i64
}

/// The first column that isn't one value.
pub fn first_free(bounds: &[Bound]) -> Option<usize>
    requires { All IsBound bounds.now }
    ensures found { IfSome result (λ j. FirstFree bounds.now j) }
    ensures none { IfNone result (AllSingle bounds.now) }
{
    for (j, bound) in bounds.iter().enumerate() {
        if bound.low < bound.high {
            return Some(j);
        }
    }
    None
}

/// The half of the box at a middle and below.
pub fn lower_half(
    alloc: Global,
    bounds: &[Bound],
    j: usize,
    at: i64,
    row: u32,
) -> Result<Vec<Bound>, AllocError>
    requires { j < length bounds.now }
    ensures { IfOk result (λ v. v.items ≡ lowered bounds.now j at row) }
{
    let mut half = Vec::from_slice(alloc, bounds)?;
    let old = half[j];
    half[j] = Bound {
        low: old.low,
        high: at,
        low_row: old.low_row,
        high_row: row,
    };
    Ok(half)
}

/// The half above the middle.
pub fn upper_half(
    alloc: Global,
    bounds: &[Bound],
    j: usize,
    at: i64,
    row: u32,
) -> Result<Vec<Bound>, AllocError>
    requires there { j < length bounds.now }
    requires near { unsigned_abs at ≤ 2 ^ 60 }
    ensures { IfOk result (λ v. v.items ≡ raised bounds.now j at row) }
{
    let mut half = Vec::from_slice(alloc, bounds)?;
    let old = half[j];
    half[j] = Bound {
        low: at + 1,
        high: old.high,
        low_row: row,
        high_row: old.high_row,
    };
    Ok(half)
}

/// The low ends.
pub fn low_ends(alloc: Global, bounds: &[Bound]) -> Result<Vec<i64>, AllocError>
    ensures { IfOk result (λ v. v.items ≡ lows bounds.now) }
{
    bounds.iter().map(|b| b.low).collect(alloc)
}
