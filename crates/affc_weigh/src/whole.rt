//! What an array costs that is left whole.
ghost use Rattle.std.specs.Prelude.{◌≡◌, ◌≤◌, ◌^◌, IfOk, length};
ghost use Rattle.std.specs.List.{All};
ghost use Rattle.affc_weigh.specs.Costs.{AreModuli};

use crate::weigher::{Cost, Weigher};
use affc_rows::Form;
use affc_system::{BoxOf, interval};
use sqlite_items::Items;
use std::alloc::{AllocError, Global};

/// The greatest value of an extent where the parameters are in their ranges, if it may be a modulus.
fn extent_within(extent: &Form, ranges: &BoxOf) -> u64
    requires { length ranges.now ≡ length extent.now.coefs }
    ensures { (1 ≤ result) × (result ≤ 2 ^ 60) }
{
    match interval(extent, ranges) {
        Ok((_low, high)) if high >= 1 && high <= 1 << 60 => high as u64,
        _ => 1 << 60,
    }
}

/// Those of several extents.
fn extents_within(alloc: Global, extents: &[Form], ranges: &BoxOf) -> Result<Items<u64>, AllocError>
    requires { All (λ e. length ranges.now ≡ length e.coefs) extents.now }
    ensures values { IfOk result (All (λ n. (1 ≤ n) × (n ≤ 2 ^ 60))) }
    ensures one_each { IfOk result (λ ns. length ns ≡ length extents.now) }
{
    let mut values = Items::new(alloc);
    for extent in extents {
        values.push(extent_within(extent, ranges))?;
    }
    Ok(values)
}

/// What an array with these extents costs that is left whole, where the parameters may have any values in their ranges. It
/// serves to tell which folds are worth while.
pub fn whole_cost<F: Cost>(
    alloc: Global,
    extents: &[Form],
    ranges: &BoxOf,
    cost: &Weigher<F>,
) -> Result<u128, AllocError>
    requires widths { All (λ e. length ranges.now ≡ length e.coefs) extents.now }
    requires few { length extents.now ≤ 4 }
{
    let values = extents_within(alloc, extents, ranges)?;
    Ok(cost.cost(values.as_slice()))
}
